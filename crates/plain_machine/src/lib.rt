//! The plain machine: one thread over one segment of code. It executes the A64 instructions that ask
//! nothing of memory, and the calls exit and write, entry by entry, by the rows of the thread phases that
//! these calls have. What it is after k entries is the definition `Plain` of `specs/Plain.antt`.
#![tactic(auto)]

mod machine;
mod program;
mod running;

pub use machine::{Machine, NoMemory, Phase, Piece, ROOM};
pub use program::Program;
pub use running::{Ran, RunEnd, run};
