// Writes events that are given all at once, or nothing.
ghost use Rattle.std.specs.Prelude.{◌≡◌, length, MatchResult};
ghost use Rattle.trace_file.specs.Fault.{parts};
ghost use Rattle.trace_writer.specs.All.{Fitting, Reaches, StopsAt, Wrote};
ghost use Rattle.trace_writer.specs.Writing.{written, bytes_of};

use crate::bytes::{write, write_end};
use crate::extent::Extent;
use trace_file::event::Timed;
use trace_file::fault::Fault;

// How far the events come, if each of them can be put where there are `room` bytes.
fn admit_all(events: &[Timed<u32>], room: usize) -> Result<Extent, Fault>
    ensures { MatchResult result (Reaches room events.now) (λ f. StopsAt room events.now (parts f)) }
{
    // No `try_fold`: it leaves an induction over the calls of its closure to prove, and this an invariant of one line.
    let mut extent = Extent::default();
    for timed in events {
        extent = extent.admit(*timed, room)?;
    }
    Ok(extent)
}

// Writes the events from the start on.
fn put_all(events: &[Timed<u32>], out: &mut [u8])
    requires { Fitting (length out.old) events.now }
    ensures { out.new ≡ written out.old 0 (bytes_of events.now) }
{
    // No index: commands differ in size, and each says its own.
    let mut at = 0;
    for timed in events {
        at += write(&mut out[at..], *timed);
    }
}

// Puts the events and closes. Answers how many bytes the file has.
pub fn write_all(events: &[Timed<u32>], out: &mut [u8]) -> Result<usize, Fault>
    ensures { Wrote events.now out.old result out.new }
{
    let extent = admit_all(events, out.len())?;
    let size = extent.admit_end(out.len())?;
    put_all(events, out);
    write_end(&mut out[extent.at..], extent.events);
    Ok(size)
}
