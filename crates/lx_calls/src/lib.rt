//! What the calls of the Linux machine do: the plain functions that compute the effects of `specs/`.
//!
//! What the machine's steps are for each call is `effects` in `specs/Table.antt`. `entry` has the refusals at entry and what a
//! call fetches; `shape` what it does next; `memory_calls` and `process_calls` have effects.
#![tactic(auto)]

pub mod entry;
pub mod memory_calls;
pub mod process_calls;
pub mod shape;
