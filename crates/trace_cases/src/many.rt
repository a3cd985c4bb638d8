// Files of a million events, and of one more.
use crate::answers::{Case, answers};
use std::alloc::{AllocError, Global};
use std::test::Fail;

// How many bytes a million events take, each of which has five.
pub const EVENTS_SIZE: usize = 5_000_000;

// A million events, with no end command.
fn million(heap: Global) -> Result<Vec<u8>, AllocError> {
    let mut file = Vec::with_capacity(heap, EVENTS_SIZE)?;
    for _ in 0..1_000_000 {
        file.extend_from_slice(b"\x01\x01\0\0\0")?;
    }
    Ok(file)
}

// Each case's bytes follow the million events.
static TAILS: [Case; 14] = [
    Case("no end", b"", Err((1, 5_000_000))),
    Case("the end", b"\0\x40\x42\x0f\0", Ok(1_000_000)),
    Case("the end, cut", b"\0\x40\x42\x0f", Err((1, 5_000_000))),
    Case("count 999,999", b"\0\x3f\x42\x0f\0", Err((5, 5_000_000))),
    Case("count 0", b"\0\0\0\0\0", Err((5, 5_000_000))),
    Case("a byte after", b"\0\x40\x42\x0f\0\x01", Err((6, 5_000_005))),
    Case(
        "10",
        b"\x01\x01\0\0\0\0\x41\x42\x0f\0",
        Err((10, 5_000_000)),
    ),
    Case("10 beside 1", b"\x01", Err((10, 5_000_000))),
    Case(
        "10 beside 1, nine bytes",
        b"\x03\x01\0\0\0123",
        Err((10, 5_000_000)),
    ),
    Case(
        "10 beside 3",
        b"\x01\0\0\0\0\0\x41\x42\x0f\0",
        Err((10, 5_000_000)),
    ),
    Case(
        "10 beside 4",
        b"\x03\x01\0\0\0abcd\0\x41\x42\x0f\0",
        Err((10, 5_000_000)),
    ),
    Case(
        "10 beside 3 and 4",
        b"\x03\0\0\0\0abcd",
        Err((10, 5_000_000)),
    ),
    Case(
        "2 beside 10",
        b"\x10\x01\0\0\0\0\x41\x42\x0f\0",
        Err((2, 5_000_000)),
    ),
    Case("2 beside 10 and 1", b"\xff", Err((2, 5_000_000))),
];

#[test]
fn a_million_events(rt: HostRuntime) -> Result<(), Fail> {
    let mut file = million(rt.alloc())?;
    assert_eq!(rt; file.len(), EVENTS_SIZE);
    for Case(name, tail, answer) in &TAILS {
        file.truncate(EVENTS_SIZE);
        file.extend_from_slice(tail)?;
        answers(&rt, file.as_slice(), *answer, name);
    }
    Ok(())
}
