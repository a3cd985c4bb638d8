// What is answered of a file or by a writer, and what must be.
use std::fmt::Display;
use std::process::Abort;
use trace_file::MOST_EVENTS;
use trace_file::fault::{Fault, Parts};
use trace_file::reader::Reader;

// The layer that refuses a file.
pub(crate) const IN_FILE: u8 = 1;

// The layer that refuses to write.
pub(crate) const IN_WRITER: u8 = 5;

// What is granted, or the number and the place of a refusal. Both stay numbers, and the layers above too, since the tables test
// the numbers that are documented; as `Parts` each row would repeat layer and ground, where `Err((3, 0))` does.
pub type Answer<T> = Result<T, (u8, usize)>;

// A case's name, its bytes, and the answer.
pub struct Case(pub &'static str, pub &'static [u8], pub Answer<u32>);

// What a layer must answer, in numbers.
pub(crate) fn expected<T>(layer: u8, answer: Answer<T>) -> Result<T, Parts> {
    answer.map_err(|(number, place)| Parts {
        layer,
        number,
        ground: 0,
        place,
    })
}

// An answer with its fault in numbers.
pub(crate) fn parts<T>(answer: Result<T, Fault>) -> Result<T, Parts> {
    answer.map_err(Parts::from)
}

// How many events a reader hands out up to the end command.
fn handed_out(file: &[u8]) -> Result<u32, Fault> {
    let mut reader = Reader::new(file);
    for events in 0..=MOST_EVENTS {
        if reader.next()?.is_none() {
            return Ok(events);
        }
    }
    Ok(u32::MAX)
}

// A check of the file and a reader of it both answer this.
pub(crate) fn answers(rt: &impl Abort, file: &[u8], answer: Answer<u32>, case: &impl Display) {
    let expected = expected(IN_FILE, answer);
    assert_eq!(rt; parts(trace_file::check(file)), expected, "{case}");
    assert_eq!(rt; parts(handed_out(file)), expected, "{case}; by a reader");
}
