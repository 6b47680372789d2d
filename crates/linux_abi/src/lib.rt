//! The numbers of the Linux calls on arm64: errors, signals, calls, and the flags and choices of their arguments.
//!
//! Flags are constants, and a choice of one number among a few is an enum with `new` and `number`. What stands in an
//! argument register is a `u64` here, and a field in memory has the type of its format. The definitions that
//! contracts cite stand in `specs/`, a file for each type.
#![tactic(auto)]

pub mod auxv;
pub mod calls;
pub mod epoll;
pub mod errno;
pub mod files;
pub mod flags;
pub mod futexes;
pub mod memory;
pub mod signals;
pub mod threads;
pub mod time;

pub use calls::Call;
pub use errno::{LinuxErrno, answer};
pub use signals::LinuxSig;
