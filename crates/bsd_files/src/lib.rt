//! Files of the FreeBSD kernel's model: open files with their descriptors, pipes, counters, input and console rooms, and queues beside
//! them. Contracts see all but the queues as the Linux machine's files.
#![tactic(auto)]

mod closed;
mod ends;
mod files;
mod looks;
mod making;
pub mod moves;
mod queues;
mod reports;

pub use crate::closed::Closed;
pub use crate::files::Files;
pub use open_files::{File, FileCall, FileLook, NoMemory, Side};
