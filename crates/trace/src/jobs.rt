// What the program does with a trace: count its events, show them, tidy it.
use std::alloc::{AllocError, Global};
use std::io;
use std::io::{Read, Write};
use thiserror::Error;
use trace_file::event::Timed;
use trace_file::fault::Fault;
use trace_file::reader::Reader;
use trace_file::{MOST_BYTES, check, limited};
use trace_writer::untidy;

// Why the program ends with status 1.
#[derive(Debug, Drop, Error)]
pub enum Stop {
    #[error("{0}")]
    Refused(#[from] Fault),
    #[error("a wrong call")]
    Usage,
    #[error(transparent)]
    Io(#[from] io::Error),
    #[error(transparent)]
    Memory(#[from] AllocError),
}

// The whole trace, unless it is too long.
pub fn input<R: Read + Drop>(heap: Global, from: R) -> Result<Vec<u8>, Stop> {
    let mut bytes = Vec::new(heap);
    // A cast, since no `From` leads from `usize` to `u64`.
    from.take(MOST_BYTES as u64 + 1).read_to_end(&mut bytes)?;
    limited(bytes.as_slice())?;
    Ok(bytes)
}

// Prints the numbers of a refusal, and says apart what they mean. `Print` and no `Write`: without a buffer, a `writeln!` would write
// each line in pieces.
pub fn refuse<O: Print, S: Print>(out: &O, said: &S, fault: Fault) -> io::Result<()> {
    println!(out; "{fault}")?;
    let Fault { refusal, place, .. } = fault;
    println!(said; "trace: {refusal}, at byte {place}")
}

// Prints the number of events.
pub fn count<W: Write>(out: &mut W, file: &[u8]) -> Result<(), Stop> {
    let events = check(file)?;
    writeln!(out, "{events}")?;
    Ok(())
}

// Prints a line for each event, once the whole trace is known to be sound.
pub fn show<W: Write>(out: &mut W, file: &[u8]) -> Result<(), Stop> {
    check(file)?;
    let mut reader = Reader::new(file);
    let mut stamp: u64 = 0;
    while let Some(Timed { gap, event }) = reader.next()? {
        stamp = stamp.saturating_add(gap.into());
        writeln!(out, "{stamp},{event}")?;
    }
    Ok(())
}

// Writes the trace again, and says apart what was done.
pub fn tidy<W: Write, S: Write>(
    heap: Global,
    out: &mut W,
    said: &mut S,
    file: &[u8],
) -> Result<(), Stop> {
    let events = check(file)?;
    let changed = untidy(file)?;
    let mut tidied = vec![in heap; 0u8; file.len()]?;
    let bytes = trace_writer::tidy(file, &mut tidied)?;
    out.write_all(tidied.as_slice())?;
    writeln!(
        said,
        "{events} events, {bytes} bytes, identifiers changed: {changed}"
    )?;
    Ok(())
}
