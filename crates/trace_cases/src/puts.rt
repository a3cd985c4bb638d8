// Events that are put one after another.
use crate::answers::{Answer, IN_WRITER, expected, parts};
use crate::sample;
use crate::space::BEFORE;
use crate::writers::{closed, kept};
use std::process::Abort;
use std::test::Fail;
use trace_file::event::{Event, Timed};
use trace_file::fault::Fault;
use trace_writer::writer::Writer;

// How many output bytes the puts of one writer have.
const RUN_ROOM: usize = 40;

// A put's name, how many output bytes it is given, the gap, the event, and the answer. A row of a static can say a number of bytes,
// and not which.
struct Put(&'static str, usize, u32, Event<u32>, Answer<u32>);

// Puts of one writer. Of those with `beside` in their name two refusals could be given.
static RUN: [Put; 23] = [
    Put("gap 0", 40, 0, Event::NmiEntry, Err((3, 0))),
    Put("10,000", 40, 1, Event::IrqEntry(10_000), Err((4, 0))),
    Put("no byte", 0, 1, Event::NmiEntry, Err((15, 0))),
    Put("4 bytes", 4, 1, Event::NmiEntry, Err((15, 0))),
    Put("3 beside 4", 40, 0, Event::IrqEntry(10_000), Err((3, 0))),
    Put("3 beside 15", 4, 0, Event::NmiEntry, Err((3, 0))),
    Put("4 beside 15", 8, 1, Event::IrqEntry(10_000), Err((4, 0))),
    Put("5 bytes", 5, 1, Event::NmiEntry, Ok(1)),
    Put("gap 0 later", 40, 0, Event::NmiExit, Err((3, 5))),
    Put("2^32 - 1", 40, 2, Event::IrqEntry(u32::MAX), Err((4, 5))),
    Put("8 more", 13, 2, Event::IrqEntry(9_999), Err((15, 5))),
    Put("9 more", 14, 2, Event::IrqEntry(9_999), Ok(2)),
    Put("6 more", 20, 3, Event::SchedSwitch(1), Err((15, 14))),
    Put("7 more", 21, 3, Event::SchedSwitch(0x1234), Ok(3)),
    Put("fewer", 20, 1, Event::IrqExit, Err((15, 21))),
    Put("none", 0, 1, Event::IrqExit, Err((15, 21))),
    Put("6 more", 27, 1, Event::SchedWaking(1), Err((15, 21))),
    Put("7 more", 28, 0x0102_0304, Event::SchedWaking(0xfffe), Ok(4)),
    Put("0", 37, 1, Event::IrqEntry(0), Ok(5)),
    Put("3 more", 40, 1, Event::IrqExit, Err((15, 37))),
    Put("3 beside 4", 40, 0, Event::IrqEntry(10_000), Err((3, 37))),
    Put("3 beside 15", 37, 0, Event::NmiEntry, Err((3, 37))),
    Put("4 beside 15", 37, 1, Event::IrqEntry(10_000), Err((4, 37))),
];

// The output bytes after them.
static RUN_BYTES: [u8; RUN_ROOM] = *b"\
    \x01\x01\0\0\0\
    \x03\x02\0\0\09999\
    \x0b\x03\0\0\0\x34\x12\
    \x0f\x04\x03\x02\x01\xfe\xff\
    \x03\x01\0\0\00000\
    \xee\xee\xee";

// Puts into so many of the output bytes.
fn put_in(writer: &mut Writer, out: &mut [u8], put: &Put) -> Result<u32, Fault> {
    let Put(_, room, gap, event, _) = put;
    let room = out.len().min(*room);
    writer.put(&mut out[0..room], *gap, *event)
}

// Each is answered so, and those that are refused leave the output bytes as they were.
fn put_each(rt: &impl Abort, writer: &mut Writer, out: &mut [u8; RUN_ROOM]) {
    for put in &RUN {
        let Put(name, .., answer) = put;
        let before = *out;
        let found = put_in(writer, out, put);
        assert_eq!(rt; parts(found), expected(IN_WRITER, *answer), "{name}");
        if answer.is_err() {
            assert_eq!(rt; *out, before, "{name}");
        }
    }
}

#[test]
fn refused_puts_change_nothing(rt: HostRuntime) {
    let mut out = [BEFORE; RUN_ROOM];
    let mut writer = Writer::open();
    put_each(&rt, &mut writer, &mut out);
    let size = writer.give_up();
    assert_eq!(rt; size, 37);
    assert_eq!(rt; out, RUN_BYTES);
}

// Puts the events, each of which is answered by how many there are.
fn put_counted(
    rt: &impl Abort,
    writer: &mut Writer,
    out: &mut [u8],
    events: &[Timed<u32>],
) -> Result<(), Fail> {
    for (count, timed) in (1..).zip(events) {
        let found = parts(writer.put(out, timed.gap, timed.event))?;
        assert_eq!(rt; found, count);
    }
    Ok(())
}

#[test]
fn events_in_order(rt: HostRuntime) -> Result<(), Fail> {
    let mut out = [BEFORE; sample::SIZE];
    let mut writer = Writer::open();
    let done = put_counted(&rt, &mut writer, &mut out, &sample::events());
    let writer = kept(writer, done)?;
    closed(&rt, writer, &mut out, sample::SIZE)?;
    assert_eq!(rt; out, sample::PADDED);
    Ok(())
}
