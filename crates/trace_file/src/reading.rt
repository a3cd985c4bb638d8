// Reads the commands of a file, one after another.
ghost use Rattle.std.specs.Prelude.{◌≡◌, ℕ, List, [], length, Ok, MatchResult};
ghost use Rattle.trace_file.specs.declared.fault.Parts.{Parts};
ghost use Rattle.trace_file.specs.Fault.{parts};
ghost use Rattle.trace_file.specs.File.{Command, Reads, Refuses};
ghost use Rattle.trace_file.specs.Reading.{HasRead, Next, Says};

use crate::event::Timed;
use crate::fault::Fault;
use crate::identifier::Identifier;
use crate::reader::Reader;

impl<'a> Reader<'a> {
    pub fn new(file: &'a [u8]) -> Reader<'a>
        ensures { HasRead file.now [] result }
    {
        Reader {
            rest: file,
            at: 0,
            events: 0,
        }
    }

    // The next event command, or none at a sound end command. No `Iterator`: its items would be `Result`s, and what comes after an
    // error would be one more thing to say.
    pub fn next(&mut self) -> Result<Option<Timed<Identifier<'a>>>, Fault>
        ensures step { Next self.old result self.new }
        ensures law { (file : List ℕ) (cs : List Command) → HasRead file cs self.old → Says file cs result self.new }
    {
        let Some((command, size)) = self.command()? else {
            return Ok(None);
        };
        let (_, rest) = self.rest.split_at(size);
        self.rest = rest;
        self.at += size;
        self.events += 1;
        Ok(Some(command))
    }
}

// The number of events of a file that is sound.
pub fn check(file: &[u8]) -> Result<u32, Fault>
    ensures outcome { MatchResult result (λ n. (cs : List Command) × Reads file.now cs × (n ≡ length cs)) (λ f. Refuses file.now (parts f)) }
    ensures accepts { (cs : List Command) → Reads file.now cs → result ≡ Ok (length cs) }
    ensures refuses { (p : Parts) → Refuses file.now p → MatchResult result (λ _. ⊥) (λ f. parts f ≡ p) }
    ensures determined { (cs ds : List Command) → Reads file.now cs → Reads file.now ds → cs ≡ ds }
{
    let mut reader = Reader::new(file);
    while let Some(_) = reader.next()? {}
    Ok(reader.events)
}
