// Small files, each given whole.
use crate::answers::{Case, answers};

pub static FILES: [Case; 24] = [
    Case("empty", b"", Err((1, 0))),
    Case("no events", b"\0\0\0\0\0", Ok(0)),
    Case("end, one byte", b"\0", Err((1, 0))),
    Case("end, four bytes", b"\0\0\0\0", Err((1, 0))),
    Case("no event, count 1", b"\0\x01\0\0\0", Err((5, 0))),
    Case("one byte after", b"\0\0\0\0\0\xff", Err((6, 5))),
    Case("an end after", b"\0\0\0\0\0\0\0\0\0\0", Err((6, 5))),
    Case("one event", b"\x01\x01\0\0\0\0\x01\0\0\0", Ok(1)),
    Case("one event, no end", b"\x01\x01\0\0\0", Err((1, 5))),
    Case("count 0", b"\x01\x01\0\0\0\0\0\0\0\0", Err((5, 5))),
    Case("count 2", b"\x01\x01\0\0\0\0\x02\0\0\0", Err((5, 5))),
    Case(
        "a byte after",
        b"\x01\x01\0\0\0\0\x01\0\0\0\0",
        Err((6, 10)),
    ),
    Case("gap 0", b"\x01\0\0\0\0\0\x01\0\0\0", Err((3, 0))),
    Case("gap 2^8", b"\x01\0\x01\0\0\0\x01\0\0\0", Ok(1)),
    Case("gap 2^16", b"\x01\0\0\x01\0\0\x01\0\0\0", Ok(1)),
    Case("gap 2^24", b"\x01\0\0\0\x01\0\x01\0\0\0", Ok(1)),
    Case("0x0f", b"\x0f\x01\0\0\0\x07\0\0\x01\0\0\0", Ok(1)),
    Case("0x0f, cut", b"\x0f\x01\0\0\0\x07", Err((1, 0))),
    Case("0x0b", b"\x0b\x01\0\0\0\0\0\0\x01\0\0\0", Ok(1)),
    Case("0x0b, cut", b"\x0b\x01\0\0\0\0", Err((1, 0))),
    Case("0x03", b"\x03\x01\0\0\0   1\0\x01\0\0\0", Ok(1)),
    Case("0x03, cut", b"\x03\x01\0\0\0   ", Err((1, 0))),
    Case("letters", b"\x03\x01\0\0\0abcd\0\x01\0\0\0", Err((4, 0))),
    Case("0x10", b"\x10\x01\0\0\0\0\x01\0\0\0", Err((2, 0))),
];

// Two refusals could be given of each, and the answer is the one that is tested first.
pub static PAIRS: [Case; 18] = [
    Case("2 beside 1", b"\x10", Err((2, 0))),
    Case("2 beside 1, 0xff", b"\xff", Err((2, 0))),
    Case("2 beside 1, later", b"\x01\x01\0\0\0\x10", Err((2, 5))),
    Case("2 beside 3", b"\x10\0\0\0\0\0\x01\0\0\0", Err((2, 0))),
    Case("1 beside 3", b"\x01\0\0\0", Err((1, 0))),
    Case("1 beside 3, no digits", b"\x03\0\0\0\0", Err((1, 0))),
    Case("1 beside 3, three digits", b"\x03\0\0\0\0123", Err((1, 0))),
    Case("1 beside 3, a thread", b"\x0b\0\0\0\0\x07", Err((1, 0))),
    Case("1 beside 4", b"\x03\x01\0\0\0abc", Err((1, 0))),
    Case("1 beside 3 and 4", b"\x03\0\0\0\0abc", Err((1, 0))),
    Case("3 beside 4", b"\x03\0\0\0\0abcd\0\x01\0\0\0", Err((3, 0))),
    Case("1 beside 5", b"\0\x01\0\0", Err((1, 0))),
    Case("1 beside 5, later", b"\x01\x01\0\0\0\0\x02", Err((1, 5))),
    Case("5 beside 6", b"\0\x01\0\0\0\xff", Err((5, 0))),
    Case(
        "5 beside 6, later",
        b"\x01\x01\0\0\0\0\x02\0\0\0\0",
        Err((5, 5)),
    ),
    Case("3 before 2", b"\x01\0\0\0\0\x10", Err((3, 0))),
    Case("4 before 1", b"\x03\x01\0\0\0abcd\0\x01", Err((4, 0))),
    Case("3 before 5", b"\x01\0\0\0\0\0\x02\0\0\0", Err((3, 0))),
];

#[test]
fn small_files(rt: HostRuntime) {
    for Case(name, bytes, answer) in FILES.iter().chain(&PAIRS) {
        answers(&rt, bytes, *answer, name);
    }
}
