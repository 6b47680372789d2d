//! Time in the Linux machine: the functions that compute the definitions of `lx_machine`'s `Time`, `Nanosleep` and
//! `ClockGettime`.
#![tactic(auto)]

pub mod clock_gettime;
pub mod nanosleep;
pub mod time;
