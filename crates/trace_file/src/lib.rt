// Reads trace files: faults, events, identifiers, commands, and the check of a whole file.
#![tactic(auto)]

mod command;
pub mod event;
pub mod fault;
pub mod identifier;
mod input;
mod little;
pub mod reader;
mod reading;

pub use command::MOST_EVENTS;
pub use input::{MOST_BYTES, limited};
pub use reading::check;
