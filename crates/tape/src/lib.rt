//! The tape of a run: which actor acted, in which order, and the file that keeps it.
//!
//! Everything here is this project's own. The file's layout stands in `specs/TapeText.antt`, and what is
//! wrong with bytes that are no tape file in `specs/TapeFault.antt`.
#![tactic(auto)]

mod entry;
mod fault;
mod front;
mod header;
mod laws;
mod layout;
mod reading;
mod run;
mod tape;
mod version_1;
mod version_2;
mod writing;

pub use entry::Entry;
pub use fault::{NoMemory, TapeFault};
pub use laws::{files_are_texts, runs_are_longest};
pub use reading::read_tape;
pub use tape::{Full, Tape};
pub use writing::write_tape;
