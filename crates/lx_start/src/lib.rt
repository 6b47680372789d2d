//! The state of the Linux machine in which a program starts: its segments, its first stack, its descriptors and its first
//! thread (execve(2), ELF-64).
#![tactic(auto)]

pub mod stack;
pub mod start;
