// A file that is being written: how far it has come. It has to be closed or given up.
ghost use Rattle.std.specs.Prelude.{◌≡◌, ℕ, List, []};
ghost use Rattle.trace_writer.specs.Putting.{Holds, Put, AfterPut, Closed, AfterClose};

use crate::bytes::{write, write_end};
use crate::extent::Extent;
use trace_file::event::{Event, Timed};
use trace_file::fault::Fault;

// It holds no output bytes: they come with each call, so whoever writes may keep them anywhere between two calls.
pub struct Writer {
    extent: Extent,
}

// A writer that could not be closed, still open, and why.
pub struct Unclosed {
    pub writer: Writer,
    pub fault: Fault,
}

impl Writer {
    pub fn open() -> Writer
        ensures start { (result.extent.at ≡ 0) × (result.extent.events ≡ 0) }
        ensures law { (out : List ℕ) → Holds result out [] }
    {
        Writer {
            extent: Extent::default(),
        }
    }

    // Writes an event, its identifier by its number, after those before it. Answers how many there are. Gap and event come apart,
    // as most callers have them, and as this call was promised.
    pub fn put(&mut self, out: &mut [u8], gap: u32, event: Event<u32>) -> Result<u32, Fault>
        ensures outcome { Put self.old out.old (record { gap = gap; event = event }) result self.new out.new }
        ensures law { (es : List (Timed ℕ)) → Holds self.old out.old es → AfterPut es (record { gap = gap; event = event }) result self.new out.new }
    {
        let timed = Timed { gap, event };
        let extent = self.extent.admit(timed, out.len())?;
        write(&mut out[self.extent.at..], timed);
        self.extent = extent;
        Ok(extent.events)
    }

    // Writes the end command. Answers how many bytes the file has, or hands the open writer back.
    pub fn close(self, out: &mut [u8]) -> Result<usize, Unclosed>
        ensures outcome { Closed self out.old result out.new }
        ensures law { (es : List (Timed ℕ)) → Holds self out.old es → AfterClose es result out.new }
    {
        // A match and no `map_err`: either arm takes the writer.
        match self.extent.admit_end(out.len()) {
            Ok(size) => {
                let Writer { extent } = self;
                write_end(&mut out[extent.at..], extent.events);
                Ok(size)
            }
            Err(fault) => Err(Unclosed {
                writer: self,
                fault,
            }),
        }
    }

    // Ends the writing where it is. Answers how many bytes were written.
    pub fn give_up(self) -> usize
        ensures { result ≡ self.extent.at }
    {
        let Writer { extent } = self;
        extent.at
    }
}
