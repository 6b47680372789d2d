//! Executes A64 instructions in two halves: `need` tells what an instruction asks of memory, and `finish` what it does
//! once memory has answered. Together they are the definition `Exec` of the crate `a64_model`, by the Arm manual
//! (DDI 0487, C6.2), for all rows but those that move vector registers. The registers are written in place, and nothing is
//! taken of memory.
#![tactic(auto)]

mod accesses;
mod answers;
mod branches;
mod immediates;
mod memory;
mod registers;
mod transfers;
pub mod traps;

pub use accesses::need;
pub use answers::finish;
