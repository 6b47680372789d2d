//! Pipes, counters, kqueues and files of the FreeBSD kernel, as scripts of cases make and call them.
#![tactic(auto)]

pub mod counters;
mod descriptors;
pub mod files;
mod interests;
pub mod kqueues;
mod opens;
pub mod pipes;
mod transfers;
