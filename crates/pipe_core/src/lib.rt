//! Pipes and counters of the FreeBSD kernel. Contracts see a pipe as the list of the bytes that it holds with its room,
//! and a counter as its value with the flag of its mode.
#![tactic(auto)]

mod counters;
mod pipes;

pub use crate::counters::Counter;
pub use crate::pipes::{NoMemory, Pipe};
