//! One instruction of a thread of the Linux machine: what memory answers at its access, and what the thread and memory are
//! after it. The plain functions compute the definitions of `lx_machine`'s `specs/Instructions.antt`.
#![tactic(auto)]

pub mod access;
pub mod instruction;
