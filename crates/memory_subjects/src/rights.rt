//! The rights of pages in words: `r`, `w` and `x`, each where its right is there, and else `-`.

use case_words::answers::{Answer, Refusal};
use case_words::arguments::Arguments;
use page_ranges::Rights;
use std::alloc::{AllocError, Global};

/// The rights that an argument tells.
pub fn rights(of: Arguments<'_>) -> Result<Rights, Refusal> {
    match of.word("rights")?.as_bytes() {
        [r, w, x] => Ok(Rights {
            read: *r == b'r',
            write: *w == b'w',
            execute: *x == b'x',
        }),
        _ => Err(Refusal::NotACall),
    }
}

/// The same, or `none`.
pub fn rights_or_none(of: Arguments<'_>) -> Result<Option<Rights>, Refusal> {
    match of.word("rights")? {
        "none" => Ok(None),
        _ => Ok(Some(rights(of)?)),
    }
}

/// The letter of a right, where it is there.
fn letter(right: bool, letter: &'static str) -> &'static str {
    if right { letter } else { "-" }
}

/// The rights of a page in words, if it has any.
pub fn rights_found(alloc: Global, rights: Option<Rights>) -> Result<Answer, AllocError> {
    match rights {
        None => Ok(Answer::Nothing),
        Some(rights) => {
            let mut text = String::from_str(alloc, letter(rights.read, "r"))?;
            text.push_str(letter(rights.write, "w"))?;
            text.push_str(letter(rights.execute, "x"))?;
            Ok(Answer::Text(text))
        }
    }
}
