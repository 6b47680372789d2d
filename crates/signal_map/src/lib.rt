//! Signals and sets of signals between Linux and FreeBSD.
//!
//! Every map is total and takes no memory, and each leads back from the other. The definitions that contracts
//! cite stand in `specs/`, over the table of signals of `bsd_abi`.
#![tactic(auto)]

pub mod sets;
pub mod signals;

pub use sets::{set_in, set_out};
pub use signals::{signal_in, signal_out};
