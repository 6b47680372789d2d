//! A thread of the modelled FreeBSD kernel: its registers, its signal masks, the phase that it is in, and the call that it is
//! in, with the bytes and pieces that the call copies and the waiters that it carries. Signals, masks and answers are FreeBSD's.
//!
//! Contracts see a `Thread` as the record of its fields, `ThreadState`. Only `Thread::make` takes memory.
#![tactic(auto)]

mod bounded;
mod call;
mod carry;
mod phase;
mod thread;

pub use crate::bounded::{Bounded, Full, NoMemory};
pub use crate::call::{Answer, Buffer, Call, Kept, Pieces, Place, Places};
pub use crate::carry::Carry;
pub use crate::phase::{Delivery, Doom, Owed, Phase, Turn};
pub use crate::thread::{Thread, ThreadState};
