//! Futexes in the Linux machine: the functions that compute the definitions of `lx_machine`'s `Futex`, `FutexPi` and
//! `FutexWaitv`.
#![tactic(auto)]

pub mod futex_pi;
pub mod futex_waitv;
pub mod futexes;
pub mod words;
