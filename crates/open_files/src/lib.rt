//! Open files of the FreeBSD kernel's model, which contracts see as the Linux machine's: what they are, descriptors and holds, pipes,
//! counters, the input and the console rooms, each with its number. What queues know of them stands in the crate above.
#![tactic(auto)]

pub mod kinds;
pub mod making;
pub mod numbers;
pub mod open_file;
pub mod plain;
pub mod reused;
pub mod rooms;

pub use crate::kinds::{File, FileCall, FileLook, NoMemory, Side};
pub use crate::open_file::{Count, Descriptor, OpenFile};
pub use crate::plain::Plain;
