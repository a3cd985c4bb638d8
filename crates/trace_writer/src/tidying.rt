// Writes a file again with every identifier in the writer's padding.
ghost use Rattle.std.specs.Prelude.{◌≡◌, ◌↔◌, IsTrue, MatchResult};
ghost use Rattle.trace_file.specs.Event.{command};
ghost use Rattle.trace_file.specs.Fault.{parts};
ghost use Rattle.trace_file.specs.File.{Refuses};
ghost use Rattle.trace_writer.specs.Tidying.{Tidies, Stays, over, Short, Among, IsTidy, Counted};

use crate::bytes::{copy, digits};
use trace_file::check;
use trace_file::event::{Event, Operand};
use trace_file::fault::{Fault, Layer, Refusal};
use trace_file::identifier::Identifier;
use trace_file::reader::Reader;

// Writes an event's identifier over the one that stands at its place.
fn pad(out: &mut [u8], event: Event<Identifier<'_>>)
    requires digits { Short (command event).1 }
    requires among { Among out.old (command event).1 }
    ensures { out.new ≡ over out.old (command event.entry).1 }
{
    if let (_, Operand::Identifier(identifier)) = event.command() {
        copy(&mut out[identifier.place..], &digits(identifier.number));
    }
}

// Whether an event has no identifier or one in the writer's padding.
fn is_tidy(event: Event<Identifier<'_>>) -> bool
    requires { Short (command event).1 }
    ensures { IsTrue result ↔ IsTidy (command event.entry).1 }
{
    let (_, Operand::Identifier(identifier)) = event.command() else {
        return true;
    };
    identifier.chars == digits(identifier.number).as_slice()
}

// Writes the file again, of equal length. Answers how many bytes that are.
pub fn tidy(file: &[u8], out: &mut [u8]) -> Result<usize, Fault>
    ensures outcome { Tidies file.now out.old result out.new }
    ensures stays { Stays result out.new }
{
    check(file)?;
    if out.len() < file.len() {
        return Err(Layer::Writer.refuses(Refusal::NoSpace, 0));
    }
    copy(out, file);
    let mut reader = Reader::new(file);
    while let Some(timed) = reader.next()? {
        pad(out, timed.event);
    }
    Ok(file.len())
}

// How many identifiers of a file `tidy` would change.
pub fn untidy(file: &[u8]) -> Result<u32, Fault>
    ensures { MatchResult result (Counted file.now) (λ f. Refuses file.now (parts f)) }
{
    let mut reader = Reader::new(file);
    let mut count = 0;
    while let Some(timed) = reader.next()? {
        if !is_tidy(timed.event) {
            count += 1;
        }
    }
    Ok(count)
}
