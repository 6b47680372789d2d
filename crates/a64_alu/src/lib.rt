//! The arithmetic of A64 instructions on numbers of 32 and 64 bits, by the names of the Arm manual (DDI 0487, shared
//! pseudocode): AddWithCarry, the shifts and extensions, bitfields, patterns of bits, products, quotients and reversals.
//!
//! A number of width W is below 2^32, and one of width X below 2^64.
#![tactic(auto)]

pub mod arithmetic;
pub mod bitfields;
pub mod conditions;
pub mod patterns;
pub mod products;
pub mod reversals;
pub mod shifts;
