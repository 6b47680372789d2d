//! The calls on actions, masks and alternative stacks, and the frame of a handler with its way back, on the parts of the Linux
//! machine's state that they need. The plain functions compute the definitions of `specs/`.
#![tactic(auto)]

pub mod actions;
pub mod frames;
pub mod masks;
mod numbers;
pub mod sigreturn;
pub mod stacks;
