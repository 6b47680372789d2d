//! A chain of FreeBSD's umtx queues: the slot that has made it busy, its waiters in order of queueing, a note for each slot
//! and place that has left it, and a second line of waiters for locks that name their owner (FreeBSD _umtx_op(2)).
//! The definitions that contracts cite stand in `specs/`. Only `Chain::make` takes memory.
#![tactic(auto)]

mod chain;
mod laws;
mod line;
mod pi;
mod picks;
mod waiter;

pub use crate::chain::{Chain, NoMemory};
pub use crate::laws::{
    finds_after_each_call, firsts_in_plain_words, lines_stay_lines, pi_finds_after_each_call,
    pi_first_is_handed, pi_lines_stay_pi_lines,
};
pub use crate::pi::PiWaiter;
pub use crate::waiter::{Looked, Note, Waiter};
