// How far a file that is written has come: how many bytes and events it has.

#[derive(Clone, Copy, Default)]
pub(crate) struct Extent {
    pub(crate) at: usize,
    pub(crate) events: u32,
}
