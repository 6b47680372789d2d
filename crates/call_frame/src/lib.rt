//! The frame of the machine: which entries there are, who takes them, and what it means that a machine of 210 parts is sound and
//! stands for a state of the Linux machine.
//!
//! An entry of a tape names its actor. A slot's entry is taken by the family of calls that its thread's call belongs to, and by the
//! core outside a call. A family changes the actor's thread and the parts of its plan alone (`CallFamily`); the machine and the board
//! see all families as one (`Core`).
#![tactic(auto)]

mod applied;
mod family;

pub use crate::applied::{Applied, NotEnabled};
pub use crate::family::Family;
