//! What signals do in the Linux machine, on the parts of its state that they need: which is found and taken, and where one that
//! is sent goes. The plain functions compute the definitions of `specs/`.
#![tactic(auto)]

pub mod sending;
pub mod taking;
