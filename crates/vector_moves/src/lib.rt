//! The rows that move vector registers, in the same two halves as `a64_step` has the others: `need_vector` tells what an
//! instruction asks of memory, and `finish_vector` what it does once memory has answered. Together they are the definition
//! `VectorMoves` of the crate `a64_model`, which is `Exec` at these rows, by the Arm manual (DDI 0487, C7.2). `need` and `finish`
//! of `every_row` are both halves for all rows. `frame_record` and `read_record` are the record of the vector registers in a
//! signal frame. Nothing is taken of memory.
#![tactic(auto)]

pub mod every_row;
mod moves;
mod records;

pub use moves::{finish_vector, is_vector, need_vector};
pub use records::{frame_record, read_record};
