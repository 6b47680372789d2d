//! Transfers: read(2), write(2), readv(2) and writev(2) from the holding of an open file to its letting go, one move of bytes at a
//! time, and when a move has a step. Each file computes the definitions of the file of its name among those of the machine
//! (`moves` those of Move).
#![tactic(auto)]

pub mod moves;
pub mod pieces;
mod read;
pub mod readv;
pub mod transfers;
mod write;
