// The commands of a file: how long each is, and what its bytes say.
ghost use Rattle.std.specs.Prelude.{◌≡◌, ◌+◌, ◌<◌, ◌≤◌, length, take, drop, MatchOption, MatchResult, slice_index};
ghost use Rattle.trace_file.specs.Fault.{parts, First};
ghost use Rattle.trace_file.specs.File.{size, in_file, end_command, refusals};
ghost use Rattle.trace_file.specs.Identifier.{Form, width};
ghost use Rattle.trace_file.specs.Reading.{Stands, IdentifierAt, EventAt, Found};
ghost use Rattle.trace_file.specs.declared.fault.Layer.TheVariants.{File};

use crate::event::{Event, Timed};
use crate::fault::{Fault, Layer, Refusal};
use crate::identifier::{Identifier, WIDTH, number_of};
use crate::little::Little;
use crate::reader::Reader;

// How many events a file may have.
pub const MOST_EVENTS: u32 = 1_000_000;

// The first byte of the end command.
const END: u8 = 0x00;

// How many bytes the command with this first byte has.
fn size_of(byte: u8) -> Option<usize>
    ensures { MatchOption result (15 < byte) (λ n. (byte ≤ 15) × (n ≡ size byte)) }
{
    match byte {
        0x03 => Some(9),
        0x0b | 0x0f => Some(7),
        0x00..=0x0f => Some(5),
        _ => None,
    }
}

impl<'a> Reader<'a> {
    // What is refused of the command that stands here. The writer's `Extent` has its like, of another layer: no trait for the two,
    // which would be longer than both.
    fn refused(&self, refusal: Refusal) -> Fault
        ensures { result ≡ record { layer = File; refusal = refusal; place = self.now.at } }
    {
        Layer::File.refuses(refusal, self.at)
    }

    // The number that stands so many bytes on.
    fn number<const N: usize, T: Little<N>>(&self, from: usize) -> T
        requires { from + N ≤ length self.now.rest.now }
        ensures { Stands N (T.value result) (drop from self.now.rest.now) }
    {
        T::from_little(&self.rest[from..])
    }

    // The identifier of a command whose nine bytes stand here.
    fn identifier(&self) -> Result<Identifier<'a>, Fault>
        requires { 9 ≤ length self.now.rest.now }
        ensures { MatchResult result (IdentifierAt self.now.at self.now.rest.now)
            (λ f. (Form (take width (drop 5 self.now.rest.now)) → ⊥) × (parts f ≡ in_file 4 self.now.at)) }
    {
        let chars = &self.rest[5..5 + WIDTH];
        let number = number_of(chars).ok_or(self.refused(Refusal::BadIdentifier))?;
        Ok(Identifier {
            chars,
            place: self.at + 5,
            number,
        })
    }

    // The event of a command that stands here whole. A match and no `TryFrom` of a byte and an operand: that would have to be
    // asked, after the byte was, for an error that cannot come.
    fn event(&self) -> Result<Event<Identifier<'a>>, Fault>
        requires some { 0 < length self.now.rest.now }
        requires known { (0 < slice_index self.now.rest.now 0) × (slice_index self.now.rest.now 0 ≤ 15) }
        requires there { size (slice_index self.now.rest.now 0) ≤ length self.now.rest.now }
        ensures { MatchResult result (EventAt self.now.at self.now.rest.now)
            (λ f. (slice_index self.now.rest.now 0 ≡ 3) × (Form (take width (drop 5 self.now.rest.now)) → ⊥) × (parts f ≡ in_file 4 self.now.at)) }
    {
        Ok(match self.rest[0] {
            0x01 => Event::NmiEntry,
            0x02 => Event::NmiExit,
            0x03 => Event::IrqEntry(self.identifier()?),
            0x04 => Event::IrqExit,
            0x05 => Event::LocalIrqDisable,
            0x06 => Event::LocalIrqEnable,
            0x07 => Event::PreemptDisable,
            0x08 => Event::PreemptEnable,
            0x09 => Event::PreemptDisableSched,
            0x0a => Event::ScheduleEntry,
            0x0b => Event::SchedSwitch(self.number(5)),
            0x0c => Event::ScheduleExit,
            0x0d => Event::PreemptEnableSched,
            0x0e => Event::NeedResched,
            0x0f => Event::SchedWaking(self.number(5)),
            _ => unreachable(),
        })
    }

    // The end command that stands here.
    fn end(&self) -> Result<(), Fault>
        requires { (0 < length self.now.rest.now) × (slice_index self.now.rest.now 0 ≡ 0) }
        ensures { MatchResult result (λ _. self.now.rest.now ≡ end_command self.now.events)
            (λ f. First (refusals self.now.events self.now.at self.now.rest.now) (parts f)) }
    {
        if self.rest.len() < 5 {
            return Err(self.refused(Refusal::Truncated));
        }
        if self.number::<4, u32>(1) != self.events {
            return Err(self.refused(Refusal::Miscount));
        }
        if self.rest.len() > 5 {
            return Err(Layer::File.refuses(Refusal::Trailing, self.at + 5));
        }
        Ok(())
    }

    // What stands here: a command and how many bytes it has, or none at a sound end command.
    pub(crate) fn command(&self) -> Result<Option<(Timed<Identifier<'a>>, usize)>, Fault>
        ensures { Found self.now.events self.now.at self.now.rest.now result }
    {
        let byte = *self.rest.first().ok_or(self.refused(Refusal::Truncated))?;
        let size = size_of(byte).ok_or(self.refused(Refusal::UnknownCommand))?;
        if byte == END {
            self.end()?;
            return Ok(None);
        }
        if self.events >= MOST_EVENTS {
            return Err(self.refused(Refusal::TooMany));
        }
        if self.rest.len() < size {
            return Err(self.refused(Refusal::Truncated));
        }
        let gap = self.number(1);
        if gap == 0 {
            return Err(self.refused(Refusal::StuckClock));
        }
        let event = self.event()?;
        Ok(Some((Timed { gap, event }, size)))
    }
}
