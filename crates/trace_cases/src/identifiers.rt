// Identifiers in each padding, and what is none.
use crate::answers::{answers, parts};
use std::process::Abort;
use std::test::Fail;
use trace_file::event::Event;
use trace_file::reader::Reader;

// A file whose second event has an identifier with these characters, at place 10.
pub(crate) fn file_with(chars: [u8; 4]) -> [u8; 19] {
    let mut file = *b"\x01\x01\0\0\0\x03\x02\0\0\0????\0\x02\0\0\0";
    file[10..14].copy_from_slice(&chars);
    file
}

// Characters, the number that they say, and its four digits.
pub struct Padding(pub [u8; 4], pub u32, pub [u8; 4]);

pub static PADDINGS: [Padding; 20] = [
    Padding(*b"7   ", 7, *b"0007"),
    Padding(*b"   7", 7, *b"0007"),
    Padding(*b"0   ", 0, *b"0000"),
    Padding(*b"   0", 0, *b"0000"),
    Padding(*b"9   ", 9, *b"0009"),
    Padding(*b"   9", 9, *b"0009"),
    Padding(*b"42  ", 42, *b"0042"),
    Padding(*b"  42", 42, *b"0042"),
    Padding(*b"00  ", 0, *b"0000"),
    Padding(*b"  09", 9, *b"0009"),
    Padding(*b"305 ", 305, *b"0305"),
    Padding(*b" 305", 305, *b"0305"),
    Padding(*b"070 ", 70, *b"0070"),
    Padding(*b" 999", 999, *b"0999"),
    Padding(*b"0000", 0, *b"0000"),
    Padding(*b"0001", 1, *b"0001"),
    Padding(*b"0033", 33, *b"0033"),
    Padding(*b"1000", 1000, *b"1000"),
    Padding(*b"1234", 1234, *b"1234"),
    Padding(*b"9999", 9999, *b"9999"),
];

static ILL_FORMED: [[u8; 4]; 30] = [
    *b"3  3",
    *b" 33 ",
    *b"    ",
    *b" 3 3",
    *b"3 3 ",
    *b" 3  ",
    *b"  3 ",
    *b"33 3",
    *b"3 33",
    *b"abcd",
    *b"12a4",
    *b"x   ",
    *b"   x",
    *b"+123",
    *b"-001",
    *b" +12",
    *b"12.5",
    *b"0x12",
    *b"/123",
    *b"123/",
    *b":123",
    *b"123:",
    *b"\t123",
    *b"123\t",
    *b"  \t3",
    *b"12\0\0",
    *b"\0\0\03",
    *b"123\n",
    *b"\xb2123",
    *b"123\xff",
];

// The second event that a reader hands out has this identifier.
fn reads(rt: &impl Abort, file: &[u8], chars: &[u8], number: u32) -> Result<(), Fail> {
    let mut reader = Reader::new(file);
    assert!(rt; parts(reader.next())?.is_some(), "{chars:?}");
    let Some(timed) = parts(reader.next())? else {
        return Err(Fail::new(format_args!("{chars:?}: no second event")));
    };
    let Event::IrqEntry(identifier) = timed.event else {
        return Err(Fail::new(format_args!("{chars:?}: no identifier")));
    };
    assert_eq!(rt; identifier.chars, chars);
    assert_eq!(rt; identifier.number, number, "{chars:?}");
    assert_eq!(rt; identifier.place, 10, "{chars:?}");
    Ok(())
}

#[test]
fn each_padding_is_read(rt: HostRuntime) -> Result<(), Fail> {
    for Padding(chars, number, _) in &PADDINGS {
        let file = file_with(*chars);
        answers(&rt, &file, Ok(2), &format_args!("{chars:?}"));
        reads(&rt, &file, chars, *number)?;
    }
    Ok(())
}

#[test]
fn other_characters_are_refused(rt: HostRuntime) {
    for chars in &ILL_FORMED {
        answers(
            &rt,
            &file_with(*chars),
            Err((4, 5)),
            &format_args!("{chars:?}"),
        );
    }
}
