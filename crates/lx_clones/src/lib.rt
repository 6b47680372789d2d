//! How threads are made in the Linux machine, their robust lists, and their death: the functions that compute the definitions of
//! `lx_machine`'s `Clone` and `RobustList`.
#![tactic(auto)]

pub mod clones;
pub mod robust_list;
