//! Where an address lies: its page, shard, granule and chain, and the pages and shards of a range of bytes; when an access
//! is allowed; little-endian bytes of a number; and the limits that the machines have in common. The definitions stand in
//! `specs/`, and the functions compute them.
#![tactic(auto)]

mod addresses;
pub mod limits;
mod page_range;

pub use crate::addresses::{chain, granule, page, shard};
pub use crate::page_range::PageRange;
