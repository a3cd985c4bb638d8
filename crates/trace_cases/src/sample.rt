// A file of sixteen events: its bytes, where its commands begin, and its events.
use std::test::Fail;
use trace_file::event::{Event, Timed};

// How many bytes it has.
pub(crate) const SIZE: usize = 95;

// Each line is a command: its byte, the gap and the operand.
pub static FILE: [u8; SIZE] = *b"\
    \x07\x0a\0\0\0\
    \x03\x05\0\0\00033\
    \x0e\x04\0\0\0\
    \x04\x06\0\0\0\
    \x08\x07\0\0\0\
    \x09\x02\0\0\0\
    \x0a\x03\0\0\0\
    \x05\x04\0\0\0\
    \x0b\x05\0\0\0\x07\0\
    \x06\x03\0\0\0\
    \x0c\x02\0\0\0\
    \x0d\x04\0\0\0\
    \x03\x0a\0\0\0  33\
    \x01\x01\0\0\0\
    \x02\x03\0\0\0\
    \x04\x02\0\0\0\
    \x00\x10\0\0\0";

// The file with zeros for the blanks of its second identifier.
pub static PADDED: [u8; SIZE] = *b"\
    \x07\x0a\0\0\0\
    \x03\x05\0\0\00033\
    \x0e\x04\0\0\0\
    \x04\x06\0\0\0\
    \x08\x07\0\0\0\
    \x09\x02\0\0\0\
    \x0a\x03\0\0\0\
    \x05\x04\0\0\0\
    \x0b\x05\0\0\0\x07\0\
    \x06\x03\0\0\0\
    \x0c\x02\0\0\0\
    \x0d\x04\0\0\0\
    \x03\x0a\0\0\00033\
    \x01\x01\0\0\0\
    \x02\x03\0\0\0\
    \x04\x02\0\0\0\
    \x00\x10\0\0\0";

static PLACES: [usize; 17] = [
    0, 5, 14, 19, 24, 29, 34, 39, 44, 51, 56, 61, 66, 75, 80, 85, 90,
];

// Where the command begins that is cut short where the file ends after so many bytes.
pub(crate) fn command_cut(size: usize) -> usize {
    let start = PLACES.iter().rev().find(|start| **start <= size);
    start.copied().unwrap_or(0)
}

// The bytes or the events with one of them changed.
pub(crate) fn edited<T: Copy, const N: usize>(
    mut items: [T; N],
    at: usize,
    item: T,
) -> Result<[T; N], Fail> {
    let Some(place) = items.get_mut(at) else {
        return Err(Fail::new("nothing stands there"));
    };
    *place = item;
    Ok(items)
}

fn after(gap: u32, event: Event<u32>) -> Timed<u32> {
    Timed { gap, event }
}

pub(crate) fn events() -> [Timed<u32>; 16] {
    [
        after(10, Event::PreemptDisable),
        after(5, Event::IrqEntry(33)),
        after(4, Event::NeedResched),
        after(6, Event::IrqExit),
        after(7, Event::PreemptEnable),
        after(2, Event::PreemptDisableSched),
        after(3, Event::ScheduleEntry),
        after(4, Event::LocalIrqDisable),
        after(5, Event::SchedSwitch(7)),
        after(3, Event::LocalIrqEnable),
        after(2, Event::ScheduleExit),
        after(4, Event::PreemptEnableSched),
        after(10, Event::IrqEntry(33)),
        after(1, Event::NmiEntry),
        after(3, Event::NmiExit),
        after(2, Event::IrqExit),
    ]
}
