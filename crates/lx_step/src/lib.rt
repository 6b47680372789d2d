//! The Linux machine in a form that runs: `state::LxState`, whose `start` is the state in which a program starts and whose
//! `step` is a step of the machine.
//!
//! Of each label a module has the step: `threads` Instr, over `lx_instructions`; `slots` those of a thread in its call, over
//! `lx_call_steps`, and Gone; `whole_steps` Effect of the calls that look at all threads; `signal_steps` Return, Take, Frame and
//! Kill; `state` Time and Drain. For its step `slots` takes a thread, and its call, out of their places.
#![tactic(auto)]

pub mod signal_steps;
pub mod slots;
pub mod state;
pub mod threads;
pub mod whole_steps;
