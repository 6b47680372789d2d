//! The Linux machine's parts: threads and their calls, files, signals, and the labels that name its steps.
//!
//! What the machine is stands in `specs/`: one step of it in `Step.antt`; its state is `state::LinuxState`. It speaks in the terms
//! of the manual pages and of Linux numbers alone.
#![tactic(auto)]

pub mod buffer;
pub mod calls;
pub mod death;
pub mod files;
pub mod futexes;
pub mod label;
pub mod pi_queue;
pub mod queue;
pub mod refusal;
pub mod signals;
pub mod space;
pub mod state;
pub mod thread_table;
pub mod threads;
