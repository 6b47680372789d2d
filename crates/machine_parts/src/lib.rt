//! The machine as a list of parts: its 210 objects (128 threads, 16 shards of memory, 64 chains of waiters, the process and the
//! files), the part that each has, what is held of them, and the objects that an entry is to hold.
//!
//! Contracts see what is held as the list `Parts` (`specs/Parts.antt`), with gaps where an object isn't held, and read and change it
//! by the accessors there. Parts are lent where they stand; only `Held::make` takes memory.
#![tactic(auto)]

mod held;
mod lend;
mod object;
mod part;
mod plan;

pub use crate::held::{Held, NoMemory};
pub use crate::object::Object;
pub use crate::part::Part;
pub use crate::plan::Plan;
