//! One shard of a guest's memory: the pages that it keeps, with their rights and bytes, and the granule that each of
//! 128 slots has marked for an exclusive store.
//!
//! Contracts see a `Shard` as a `Held` (`specs/Held.antt`): a finite map from page numbers to pages, a mark for each
//! slot, and the room that is left.
#![tactic(auto)]

mod marks;
mod shard;

pub use crate::shard::{NoMemory, Shard, ShardFull};
