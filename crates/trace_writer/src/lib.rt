// Writes trace files: an open writer, all events at once, and a file again in one padding.
#![tactic(auto)]

mod admission;
mod all;
mod bytes;
mod extent;
mod tidying;
pub mod writer;

pub use all::write_all;
pub use tidying::{tidy, untidy};
