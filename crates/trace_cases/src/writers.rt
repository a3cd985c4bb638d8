// Writers in the hands of a case, which leaves none open. What is answered is matched, with no `map_err`, since either arm takes
// the writer. Writer, bytes and the runtime are passed each for itself, as a writer is and as an assertion takes them.
use crate::answers::{IN_WRITER, expected};
use std::process::Abort;
use std::test::Fail;
use trace_file::fault::Parts;
use trace_writer::writer::{Unclosed, Writer};

// The writer, or where a check of it failed the failure, with the writer given up.
pub(crate) fn kept(writer: Writer, checked: Result<(), Fail>) -> Result<Writer, Fail> {
    match checked {
        Ok(()) => Ok(writer),
        Err(fail) => {
            let _ = writer.give_up();
            Err(fail)
        }
    }
}

// In these output bytes the writer is closed, and the file has this size.
pub(crate) fn closed(
    rt: &impl Abort,
    writer: Writer,
    out: &mut [u8],
    size: usize,
) -> Result<(), Fail> {
    match writer.close(out) {
        Ok(found) => {
            assert_eq!(rt; found, size);
            Ok(())
        },
        Err(Unclosed { writer, fault }) => {
            let _ = writer.give_up();
            Err(fault.into())
        }
    }
}

// These output bytes are too few for the end command, and the writer is handed back.
pub(crate) fn unclosed(
    rt: &impl Abort,
    writer: Writer,
    out: &mut [u8],
    place: usize,
) -> Result<Writer, Fail> {
    match writer.close(out) {
        Ok(_) => Err(Fail::new("closed")),
        Err(Unclosed { writer, fault }) => {
            let refusal = expected::<()>(IN_WRITER, Err((15, place)));
            assert_eq!(rt; Err(Parts::from(fault)), refusal);
            Ok(writer)
        }
    }
}
