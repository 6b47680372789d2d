//! The process of the modelled FreeBSD kernel: its slots for threads, the areas of its memory and its break, the actions and
//! pending signals, the clock with its asks and deadlines, and the guest's end. All numbers are FreeBSD's.
//!
//! Contracts see a `Process` as a `ProcessState` (`specs/Slots.antt`): a record of lists and numbers, with one record for each
//! slot. Only `Process::make` takes memory.
#![tactic(auto)]

mod lives;
mod pending;
mod place;
mod process;
mod signals;

pub use crate::lives::{GuestEnd, Life};
pub use crate::process::{NoMemory, Process};
pub use crate::signals::{Action, Origin, SigInfo, Signal, Taken, Target};
