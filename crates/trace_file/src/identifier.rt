// An interrupt's identifier: four characters, digits with blanks all before or all after them.
ghost use Rattle.std.specs.Prelude.{◌≡◌, ◌≢◌, ℕ, ◌<◌, ◌≤◌, length, Some, decimal, MatchOption, slice_index};
ghost use Rattle.trace_file.specs.Identifier.{kind, Run, Form, number, width};
ghost use Rattle.trace_file.specs.declared.identifier.Kind.TheVariants.{Other};

use std::fmt;

// How many characters an identifier has.
pub const WIDTH: usize = 4;

// The greatest number that an identifier can have.
pub const GREATEST: u32 = 9_999;

// An identifier as it stands in a file: its characters, their place, and the number that they say.
#[derive(Clone, Copy, Debug)]
pub struct Identifier<'a> {
    pub chars: &'a [u8],
    pub place: usize,
    pub number: u32,
}

// An identifier is written as its number.
impl fmt::Display for Identifier<'_> {
    ghost output = { λ i. Some (decimal i.number) };

    fn fmt<W: fmt::Write>(&self, f: &mut fmt::Formatter<W>) -> fmt::Result {
        write!(f, "{}", self.number)
    }
}

// What a character can be to an identifier.
#[derive(Clone, Copy, Debug, PartialEq, Eq)]
pub enum Kind {
    Blank,
    Digit,
    Other,
}

fn kind_of(c: u8) -> Kind
    ensures { result ≡ kind c }
{
    match c {
        b' ' => Kind::Blank,
        b'0'..=b'9' => Kind::Digit,
        _ => Kind::Other,
    }
}

// Where the run of characters of one kind that begins at `from` ends.
fn run_end(chars: &[u8], from: usize, of: Kind) -> usize
    requires { from ≤ length chars.now }
    ensures { Run chars.now from «of» result }
{
    (from..chars.len())
        .find(|end| kind_of(chars[*end]) != of)
        .unwrap_or(chars.len())
}

// The number that the digits say. The characters are known to be digits and blanks.
fn value(chars: &[u8]) -> u32
    requires short { length chars.now ≤ width }
    requires plain { (k : ℕ) → k < length chars.now → kind (slice_index chars.now k) ≢ Other }
    ensures { result ≡ number chars.now }
{
    let mut n = 0;
    for c in chars {
        if *c != b' ' {
            n = n * 10 + u32::from(*c - b'0');
        }
    }
    n
}

// The number of an identifier, if the characters are one.
#[tactic(auto, using(crate::proofs::Forms::only))]
pub(crate) fn number_of(chars: &[u8]) -> Option<u32>
    requires { length chars.now ≤ width }
    ensures { MatchOption result (Form chars.now → ⊥) (λ n. Form chars.now × (n ≡ number chars.now)) }
{
    let from = run_end(chars, 0, Kind::Blank);
    let to = run_end(chars, from, Kind::Digit);
    let end = run_end(chars, to, Kind::Blank);
    if from == to || end < chars.len() {
        return None;
    }
    if from > 0 && to < chars.len() {
        return None;
    }
    Some(value(chars))
}
