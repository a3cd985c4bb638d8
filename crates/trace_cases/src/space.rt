// The output bytes of a case.
use crate::answers::{Answer, expected, parts};
use std::fmt::Display;
use std::process::Abort;
use trace_file::fault::Fault;

// How many there are.
pub(crate) const ROOM: usize = 100;

// What each of them is before anything is written.
pub(crate) const BEFORE: u8 = 0xee;

// Whether nothing was written over these bytes.
pub(crate) fn untouched(bytes: &[u8]) -> bool {
    bytes.iter().all(|byte| *byte == BEFORE)
}

// A call that gets so many output bytes is refused so by this layer, and leaves all of them as they were.
pub(crate) fn refuses<F: FnOnce(&mut [u8]) -> Result<usize, Fault>>(
    rt: &impl Abort,
    room: usize,
    layer: u8,
    refusal: (u8, usize),
    case: &impl Display,
    call: F,
)
    requires { F.IsAlwaysCallable call }
{
    let mut out = [BEFORE; ROOM];
    assert!(rt; room <= ROOM, "{case}");
    let found = parts(call(&mut out[0..room]));
    let refused: Answer<usize> = Err(refusal);
    assert_eq!(rt; found, expected(layer, refused), "{case}");
    assert!(rt; untouched(&out), "{case}");
}
