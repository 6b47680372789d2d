//! The numbers of the FreeBSD kernel: errors, signals, and the flags that correspond to those of Linux calls.
//!
//! Flags are constants. The definitions that contracts cite stand in `specs/`, a file for each type.
#![tactic(auto)]

pub mod errno;
pub mod files;
pub mod memory;
pub mod signals;

pub use errno::BsdErrno;
pub use signals::BsdSig;
