// Events that are written all at once.
use crate::answers::{IN_WRITER, parts};
use crate::sample;
use crate::sample::edited;
use crate::space::{BEFORE, ROOM, refuses, untouched};
use std::fmt::Display;
use std::process::Abort;
use std::test::Fail;
use trace_file::event::{Event, Timed};
use trace_writer::write_all;

// A case's name, which event is changed, its gap and what it becomes, how many output bytes there are (a row of a
// static can say no slice), and the refusal.
struct Edit(&'static str, usize, u32, Event<u32>, usize, (u8, usize));

static EDITS: [Edit; 9] = [
    Edit("gap 0 first", 0, 0, Event::NmiExit, 100, (3, 0)),
    Edit("gap 0 last", 15, 0, Event::NmiExit, 100, (3, 85)),
    Edit("number first", 0, 1, Event::IrqEntry(10_000), 100, (4, 0)),
    Edit("number last", 15, 1, Event::IrqEntry(10_000), 100, (4, 85)),
    Edit("3 beside 4", 2, 0, Event::IrqEntry(10_000), 100, (3, 14)),
    Edit("3 beside 15", 15, 0, Event::NmiExit, 89, (3, 85)),
    Edit("4 beside 15", 15, 1, Event::IrqEntry(10_000), 85, (4, 85)),
    Edit("15 before 3", 15, 0, Event::NmiExit, 84, (15, 80)),
    Edit("nine bytes last", 15, 1, Event::IrqEntry(0), 93, (15, 85)),
];

// So many bytes refuse the events so, and are as they were.
fn refused(
    rt: &impl Abort,
    events: &[Timed<u32>],
    room: usize,
    refusal: (u8, usize),
    case: &impl Display,
) {
    refuses(
        rt,
        room,
        IN_WRITER,
        refusal,
        case,
        |out| write_all(events, out),
    );
}

#[test]
fn the_file_and_nothing_after_it(rt: HostRuntime) {
    let mut out = [BEFORE; ROOM];
    let found = write_all(&sample::events(), &mut out);
    assert_eq!(rt; parts(found), Ok(sample::SIZE));
    assert_eq!(rt; &out[0..sample::SIZE], &sample::PADDED[..]);
    assert!(rt; untouched(&out[sample::SIZE..ROOM]));
    let mut exact = [BEFORE; sample::SIZE];
    let found = write_all(&sample::events(), &mut exact);
    assert_eq!(rt; parts(found), Ok(sample::SIZE));
    assert_eq!(rt; exact, sample::PADDED);
    let mut small = [BEFORE; 6];
    assert_eq!(rt; parts(write_all(&[], &mut small)), Ok(5));
    assert_eq!(rt; small, *b"\0\0\0\0\0\xee");
}

#[test]
fn too_few_bytes(rt: HostRuntime) {
    for room in 0..sample::SIZE {
        let refusal = (15, sample::command_cut(room));
        refused(
            &rt,
            &sample::events(),
            room,
            refusal,
            &format_args!("{room} bytes"),
        );
    }
    refused(&rt, &[], 4, (15, 0), &"no events");
}

#[test]
fn one_changed_event(rt: HostRuntime) -> Result<(), Fail> {
    for Edit(name, at, gap, event, room, refusal) in &EDITS {
        let timed = Timed {
            gap: *gap,
            event: *event,
        };
        let events = edited(sample::events(), *at, timed)?;
        refused(&rt, &events, *room, *refusal, name);
    }
    Ok(())
}
