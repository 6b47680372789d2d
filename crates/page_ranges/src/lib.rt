//! What is said of pages before any of them is kept: the rights of a page, and what holds of the pages of a range. The
//! stores of pages and the maps of areas stand on it.
#![tactic(auto)]

mod rights;

pub use crate::rights::Rights;
