//! Areas and pages of the FreeBSD kernel, as scripts of cases make and call them.
#![tactic(auto)]

pub mod areas;
pub mod memories;
pub mod rights;
pub mod shards;
