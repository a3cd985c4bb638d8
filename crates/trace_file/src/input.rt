// How much input a program takes.
ghost use Rattle.std.specs.Prelude.{◌≡◌, ◌<◌, ◌≤◌, length, MatchResult};
ghost use Rattle.trace_file.specs.Fault.{parts};
ghost use Rattle.trace_file.specs.File.{in_file, most_bytes};

use crate::fault::{Fault, Layer, Refusal};

pub const MOST_BYTES: usize = 65_536;

// Refuses what is longer, before any command of it is looked at.
pub fn limited(input: &[u8]) -> Result<(), Fault>
    ensures { MatchResult result (λ _. length input.now ≤ most_bytes) (λ f. (most_bytes < length input.now) × (parts f ≡ in_file 16 0)) }
{
    if input.len() > MOST_BYTES {
        return Err(Layer::File.refuses(Refusal::Oversize, 0));
    }
    Ok(())
}
