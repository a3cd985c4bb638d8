// Files that are written again in one padding.
use crate::answers::{Case, IN_FILE, IN_WRITER, expected, parts};
use crate::files::{FILES, PAIRS};
use crate::identifiers::{PADDINGS, Padding, file_with};
use crate::sample;
use crate::space::{BEFORE, ROOM, refuses, untouched};
use std::fmt::Display;
use std::process::Abort;
use trace_writer::{tidy, untidy};

static BLANKS: [u8; 32] = *b"\
    \x03\x01\0\0\01   \
    \x03\x02\0\0\00001\
    \x03\x03\0\0\0   1\
    \x00\x03\0\0\0";

static ZEROS: [u8; 32] = *b"\
    \x03\x01\0\0\00001\
    \x03\x02\0\0\00001\
    \x03\x03\0\0\00001\
    \x00\x03\0\0\0";

// The file has so many identifiers in another padding, and is written again so, with nothing after it.
fn tidies(rt: &impl Abort, file: &[u8], count: u32, tidied: &[u8], case: &impl Display) {
    let mut out = [BEFORE; ROOM];
    assert_eq!(rt; parts(untidy(file)), Ok(count), "{case}");
    assert_eq!(rt; parts(tidy(file, &mut out)), Ok(tidied.len()), "{case}");
    let size = tidied.len().min(ROOM);
    assert_eq!(rt; &out[0..size], tidied, "{case}");
    assert!(rt; untouched(&out[size..ROOM]), "{case}");
}

// So many of the output bytes get no file, and are as they were.
fn refused(
    rt: &impl Abort,
    file: &[u8],
    room: usize,
    layer: u8,
    refusal: (u8, usize),
    case: &impl Display,
) {
    refuses(rt, room, layer, refusal, case, |out| tidy(file, out));
}

#[test]
fn paddings_alone_change(rt: HostRuntime) {
    tidies(&rt, &sample::FILE, 1, &sample::PADDED, &"the sample");
    tidies(
        &rt,
        &sample::PADDED,
        0,
        &sample::PADDED,
        &"the sample again",
    );
    tidies(&rt, &BLANKS, 2, &ZEROS, &"blanks");
    tidies(&rt, &ZEROS, 0, &ZEROS, &"zeros");
    let mut exact = [BEFORE; sample::SIZE];
    assert_eq!(rt; parts(tidy(&sample::FILE, &mut exact)), Ok(sample::SIZE));
    assert_eq!(rt; exact, sample::PADDED);
    for Padding(chars, _, digits) in &PADDINGS {
        let count = if chars == digits { 0 } else { 1 };
        tidies(
            &rt,
            &file_with(*chars),
            count,
            &file_with(*digits),
            &format_args!("{chars:?}"),
        );
    }
}

#[test]
fn too_few_bytes(rt: HostRuntime) {
    for room in 0..sample::SIZE {
        refused(
            &rt,
            &sample::FILE,
            room,
            IN_WRITER,
            (15, 0),
            &format_args!("{room} bytes"),
        );
    }
    refused(&rt, b"\0\0\0\0\0", 4, IN_WRITER, (15, 0), &"no events");
}

// They are refused as by a check, with output bytes and with none.
#[test]
fn refused_files(rt: HostRuntime) {
    for Case(name, bytes, answer) in FILES.iter().chain(&PAIRS) {
        if let Err(refusal) = *answer {
            assert_eq!(rt; parts(untidy(bytes)), expected(IN_FILE, *answer), "{name}");
            refused(&rt, bytes, ROOM, IN_FILE, refusal, name);
            refused(&rt, bytes, 0, IN_FILE, refusal, name);
        }
    }
}
