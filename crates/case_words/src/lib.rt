//! Scripts of cases: texts that make objects, make calls on them, and say what each call has to answer.
//!
//! `cases` plays a text, `subject` says what an object offers to it, `arguments` and `words` have the words of a call, and `answers` what it
//! answers. `docs/KERNEL-CASES.md` describes the language.
#![tactic(auto)]

pub mod answers;
pub mod arguments;
pub mod cases;
pub mod subject;
pub mod words;
