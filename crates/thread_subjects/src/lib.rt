//! Chains of waiters, and threads of the FreeBSD kernel with what they carry, as scripts of cases make and call them.
#![tactic(auto)]

mod calls;
pub mod carries;
pub mod chains;
pub mod threads;
