//! Scripts of runs: texts that say what a guest is, whose step comes, and what has to hold then.
//!
//! `reading` reads a script, `playable` says what a machine offers to a script, and `playing` plays a script on any such
//! machine. `docs/WORKED-RUNS.md` describes the language.
#![tactic(auto)]

pub mod playable;
pub mod playing;
pub mod reading;
pub mod script;
pub mod seen;
mod statements;
mod tokens;
