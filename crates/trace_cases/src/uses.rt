// A file written as a user would: the open writer is spent on every way out.
ghost use Rattle.trace_cases.specs.Cases.{Called};

use trace_file::event::Event;
use trace_file::fault::Fault;
use trace_writer::writer::{Unclosed, Writer};

// Writes a file of one event, a call for a thread. Answers how many bytes it has.
pub fn one_call(out: &mut [u8], gap: u32) -> Result<usize, Fault>
    ensures { Called gap out.old result out.new }
{
    let mut writer = Writer::open();
    if let Err(fault) = writer.put(out, gap, Event::NeedResched) {
        let _none = writer.give_up();
        return Err(fault);
    }
    // A match and no `map_err`, which needs a proof file where this needs none.
    match writer.close(out) {
        Ok(size) => Ok(size),
        Err(Unclosed { writer, fault }) => {
            let _put = writer.give_up();
            Err(fault)
        }
    }
}
