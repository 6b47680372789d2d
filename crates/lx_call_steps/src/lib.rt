//! The steps of a thread in its call that change no other thread but by what they write: of the state in which the thread's place is
//! free, of the thread in no call, and of the call.
//!
//! Of each label a module has the step: `pieces` Fetch and Store; `file_steps` Hold, Drop and Move; `own_effects` Effect;
//! `wait_steps` Clock, Expire and Interrupt; `futex_steps` Queue, Requeue, WakeOp, Mark, Release, PiLock, PiUnlock and Resume;
//! `life_steps` Start and Leave. `marks` ends the marks of other threads on what a thread has written.
#![tactic(auto)]

pub mod file_steps;
pub mod futex_steps;
pub mod life_steps;
pub mod marks;
pub mod own_effects;
pub mod pieces;
pub mod wait_steps;
