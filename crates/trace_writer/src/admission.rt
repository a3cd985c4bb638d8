// Which events can be written, and how far a file then comes.
ghost use Rattle.std.specs.Prelude.{◌≡◌, ◌+◌, ◌≤◌, length, MatchOption, MatchResult};
ghost use Rattle.trace_file.specs.declared.fault.Layer.TheVariants.{Writer as InWriter};
ghost use Rattle.trace_file.specs.Event.{operand_with};
ghost use Rattle.trace_file.specs.Fault.{First, parts};
ghost use Rattle.trace_file.specs.File.{operand_bytes};
ghost use Rattle.trace_file.specs.Identifier.{padded};
ghost use Rattle.trace_writer.specs.Writing.{Small, TooGreat, Admitted, put_refusals, close_refusals};

use crate::extent::Extent;
use trace_file::MOST_EVENTS;
use trace_file::event::{Operand, Timed};
use trace_file::fault::{Fault, Layer, Refusal};
use trace_file::identifier::GREATEST;

// How many bytes a command with this operand has, if the operand can be written.
fn size_with(operand: Operand<u32>) -> Option<usize>
    ensures { MatchOption result (TooGreat operand) (λ k. Small operand × (k ≡ 5 + length (operand_bytes (operand_with padded operand)))) }
{
    match operand {
        Operand::Nothing => Some(5),
        Operand::Identifier(number) if number > GREATEST => None,
        Operand::Identifier(_) => Some(9),
        Operand::Thread(_) => Some(7),
    }
}

impl Extent {
    // What a writer refuses that has come so far, as a reader does of a file.
    fn refused(self, refusal: Refusal) -> Fault
        ensures { result ≡ record { layer = InWriter; refusal = refusal; place = self.at } }
    {
        Layer::Writer.refuses(refusal, self.at)
    }

    // How far the file comes with an event after these, if it can be put where there are `room` bytes.
    pub(crate) fn admit(self, timed: Timed<u32>, room: usize) -> Result<Extent, Fault>
        ensures { MatchResult result (Admitted self room timed) (λ f. First (put_refusals self.events self.at room timed) (parts f)) }
    {
        if self.events >= MOST_EVENTS {
            return Err(self.refused(Refusal::TooMany));
        }
        if timed.gap == 0 {
            return Err(self.refused(Refusal::StuckClock));
        }
        let (_, operand) = timed.event.command();
        let size = size_with(operand).ok_or(self.refused(Refusal::BadIdentifier))?;
        if room.saturating_sub(self.at) < size {
            return Err(self.refused(Refusal::NoSpace));
        }
        Ok(Extent {
            at: self.at + size,
            events: self.events + 1,
        })
    }

    // How many bytes the file has with the end command, if that can be put where there are `room` bytes.
    pub(crate) fn admit_end(self, room: usize) -> Result<usize, Fault>
        ensures { MatchResult result (λ n. (n ≡ self.at + 5) × (n ≤ room)) (λ f. First (close_refusals self.at room) (parts f)) }
    {
        if room.saturating_sub(self.at) < 5 {
            return Err(self.refused(Refusal::NoSpace));
        }
        Ok(self.at + 5)
    }
}
