// A place in a file that is being read, with the events before it. Its methods stand in other files, since the definitions
// that their contracts cite name this struct, and a struct with an invariant cannot import what names it.
ghost use Rattle.std.specs.Prelude.{◌+◌, ◌^◌, ◌<◌, length};

#[derive(Drop)]
pub struct Reader<'a> {
    pub(crate) rest: &'a [u8],
    pub(crate) at: usize,
    pub(crate) events: u32,
    ghost within: { at + length rest.now < 2 ^ 64 },
}
