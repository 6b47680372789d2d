//! The pages of the Linux machine: a finite map from page numbers to rights and 4096 bytes, for one thread.
//!
//! Contracts see a `Memory` as that map (`Pages`, of `page_store`); the words that they use stand in `specs/`. Only `make`
//! takes memory: how much room is left is not seen by contracts, and want of it is answered by `NoMemory`.
#![tactic(auto)]

mod bytes;
mod change;
mod gaps;
mod memory;
pub mod queries;
mod right;

pub use crate::memory::{Memory, NoMemory};
pub use crate::right::Right;
