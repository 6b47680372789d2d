//! The process of the FreeBSD kernel, as scripts of cases make and call it.
#![tactic(auto)]

pub mod processes;
pub mod signals;
mod slots;
