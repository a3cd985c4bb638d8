// A sound file with one byte changed.
use crate::answers::{Answer, answers};
use crate::sample;
use crate::sample::edited;
use std::test::Fail;

// A case's name, the place of the byte, what it becomes, and the answer.
struct Edit(&'static str, usize, u8, Answer<u32>);

static EDITS: [Edit; 39] = [
    Edit("unknown first", 0, 0x10, Err((2, 0))),
    Edit("unknown first, 0xff", 0, 0xff, Err((2, 0))),
    Edit("unknown last", 85, 0x10, Err((2, 85))),
    Edit("unknown last, 0xff", 85, 0xff, Err((2, 85))),
    Edit("unknown for the end", 90, 0x10, Err((2, 90))),
    Edit("unknown for the end, 0xff", 90, 0xff, Err((2, 90))),
    Edit("sched_waking for the end", 90, 0x0f, Err((1, 90))),
    Edit("nmi_entry for the end", 90, 0x01, Err((1, 95))),
    Edit("the end for the first event", 0, 0x00, Err((5, 0))),
    Edit("the end for the last event", 85, 0x00, Err((5, 85))),
    Edit("need_resched for the first event", 0, 0x0e, Ok(16)),
    Edit("gap 0 first", 1, 0, Err((3, 0))),
    Edit("gap 0 before an identifier", 6, 0, Err((3, 5))),
    Edit("gap 0 before a thread", 45, 0, Err((3, 44))),
    Edit("gap 0 last", 86, 0, Err((3, 85))),
    Edit("gap 266", 2, 1, Ok(16)),
    Edit("gap above 2^31", 4, 0xff, Ok(16)),
    Edit("letter for the first digit", 10, b'x', Err((4, 5))),
    Edit("letter for the last digit", 13, b'x', Err((4, 5))),
    Edit("blank among digits", 11, b' ', Err((4, 5))),
    Edit("blank after three digits", 13, b' ', Ok(16)),
    Edit("letter for the first blank", 71, b'x', Err((4, 66))),
    Edit("letter for the last digit", 74, b'x', Err((4, 66))),
    Edit("digit for the first blank", 71, b'3', Err((4, 66))),
    Edit("digit for the last blank", 72, b'0', Ok(16)),
    Edit("blanks on both sides", 74, b' ', Err((4, 66))),
    Edit("low byte of a thread", 49, 0xff, Ok(16)),
    Edit("high byte of a thread", 50, 0xff, Ok(16)),
    Edit("count 0", 91, 0, Err((5, 90))),
    Edit("count 15", 91, 15, Err((5, 90))),
    Edit("count 17", 91, 17, Err((5, 90))),
    Edit("count 255", 91, 0xff, Err((5, 90))),
    Edit("count in the second byte", 92, 1, Err((5, 90))),
    Edit("count in the second byte, 0xff", 92, 0xff, Err((5, 90))),
    Edit("count in the third byte", 93, 1, Err((5, 90))),
    Edit("count in the third byte, 0xff", 93, 0xff, Err((5, 90))),
    Edit("count in the fourth byte", 94, 1, Err((5, 90))),
    Edit("count in the fourth byte, 0x80", 94, 0x80, Err((5, 90))),
    Edit("count in the fourth byte, 0xff", 94, 0xff, Err((5, 90))),
];

#[test]
fn one_changed_byte(rt: HostRuntime) -> Result<(), Fail> {
    for Edit(name, at, byte, answer) in &EDITS {
        let file = edited(sample::FILE, *at, *byte)?;
        answers(&rt, &file, *answer, name);
    }
    Ok(())
}
