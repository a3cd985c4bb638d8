// A writer of a million events, and of one more.
use crate::answers::{IN_WRITER, expected, parts};
use crate::many::EVENTS_SIZE;
use crate::space::{BEFORE, untouched};
use crate::writers::{closed, kept};
use std::process::Abort;
use std::test::Fail;
use trace_file::event::{Event, Timed};
use trace_writer::write_all;
use trace_writer::writer::Writer;

// How many bytes a file of a million events has.
const SIZE: usize = 5_000_005;

// A case's name, the gap, and the event that is put after a million.
struct Put(&'static str, u32, Event<u32>);

static PUTS: [Put; 4] = [
    Put("10", 1, Event::NmiEntry),
    Put("10 beside 3", 0, Event::NmiEntry),
    Put("10 beside 4", 1, Event::IrqEntry(10_000)),
    Put("10 beside 3 and 4", 0, Event::IrqEntry(10_000)),
];

// Puts a million events.
fn put_million(rt: &impl Abort, writer: &mut Writer, out: &mut [u8]) -> Result<(), Fail> {
    for before in 0..1_000_000 {
        let found = parts(writer.put(out, 1, Event::NmiEntry))?;
        assert_eq!(rt; found, before + 1);
    }
    Ok(())
}

// One more is refused, with all the output bytes and with none.
fn put_more(rt: &impl Abort, writer: &mut Writer, out: &mut [u8]) {
    for Put(name, gap, event) in &PUTS {
        let refusal = Err((10, EVENTS_SIZE));
        let found = writer.put(out, *gap, *event);
        assert_eq!(rt; parts(found), expected(IN_WRITER, refusal), "{name}");
        let found = writer.put(&mut [], *gap, *event);
        assert_eq!(rt;
            parts(found),
            expected(IN_WRITER, refusal),
            "{name}; beside 15"
        );
    }
}

fn put_all(rt: &impl Abort, writer: &mut Writer, out: &mut [u8]) -> Result<(), Fail> {
    put_million(rt, writer, out)?;
    put_more(rt, writer, out);
    Ok(())
}

#[test]
fn a_million_puts(rt: HostRuntime) -> Result<(), Fail> {
    let mut out = vec![in rt.alloc(); BEFORE; SIZE + 10]?;
    let mut writer = Writer::open();
    let done = put_all(&rt, &mut writer, out.as_mut_slice());
    let writer = kept(writer, done)?;
    assert!(rt; out.len() == SIZE + 10);
    closed(&rt, writer, &mut out.as_mut_slice()[0..SIZE], SIZE)?;
    assert_eq!(rt;
        &out[EVENTS_SIZE..out.len()],
        b"\0\x40\x42\x0f\0\xee\xee\xee\xee\xee\xee\xee\xee\xee\xee".as_slice()
    );
    assert_eq!(rt; parts(trace_file::check(&out[0..SIZE])), Ok(1_000_000));
    Ok(())
}

#[test]
fn a_million_at_once(rt: HostRuntime) -> Result<(), Fail> {
    let event = Timed {
        gap: 1,
        event: Event::NmiEntry,
    };
    let mut events = vec![in rt.alloc(); event; 1_000_001]?;
    let mut out = vec![in rt.alloc(); BEFORE; SIZE]?;
    let found = write_all(events.as_slice(), out.as_mut_slice());
    assert_eq!(rt; parts(found), expected(IN_WRITER, Err((10, EVENTS_SIZE))));
    assert!(rt; untouched(out.as_slice()));
    events.truncate(1_000_000);
    let found = write_all(events.as_slice(), out.as_mut_slice());
    assert_eq!(rt; parts(found), Ok(SIZE));
    assert_eq!(rt; parts(trace_file::check(out.as_slice())), Ok(1_000_000));
    Ok(())
}
