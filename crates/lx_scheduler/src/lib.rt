//! A player of the Linux machine: it gives each thread of a guest its turns, chooses its steps, lets time pass, and puts out
//! what the guest writes. What it does to the guest is a run of the machine (`Reaches`), whatever it chooses.
//!
//! `machine::Machine` is the guest, `turns::step_of` a step of a thread, and `play::play` the whole run, with rounds over the
//! threads or, by a seed, with turns of any thread and of any length (`schedule`).
#![tactic(auto)]

mod choices;
pub mod machine;
pub mod play;
pub mod schedule;
pub mod turns;
