//! The A64 instructions of a 64-bit Arm core, without the vector and floating-point ones but for moves of whole vector
//! registers: the table of their encodings, the fields of each, and the registers and accesses by which they are executed.
//!
//! Source: Arm Architecture Reference Manual (DDI 0487), part C. The definition of what a word means as an
//! instruction is `row` in `specs/Rows.antt`; `read_row` computes it plainly.
#![tactic(auto)]

pub mod access;
pub mod bits;
pub mod instr;
pub mod operands;
pub mod read;
pub mod regs;
pub mod rows;
pub mod swaps;
