//! FreeBSD's errors as Linux's, and flags of open files and of mappings between the two.
//!
//! Every map is total and takes no memory. The tables that contracts cite stand in `specs/`.
#![tactic(auto)]

pub mod errors;
pub mod flags;

pub use errors::{errno_in, errno_out};
pub use flags::{map_flags_in, open_flags_in, open_flags_out};
