//! A word with what it is.

use crate::fields::{Fields, fields_of};
use crate::numbers::word;
use a64_decode::decode;
use a64_model::read::read_row;
use std::alloc::{AllocError, Global};

/// What the decoder says of a word, where it and the slow reader say the same; the outer none is where they don't.
fn agreed(word: u32) -> Option<Option<Fields>> {
    match (decode(word).map(fields_of), read_row(word).map(fields_of)) {
        (None, None) => Some(None),
        (Some(decoded), Some(read)) if decoded.are_those_of(&read) => Some(Some(decoded)),
        _ => None,
    }
}

/// Whether the decoder and the slow reader say the same of a word.
pub fn is_agreed(word: u32) -> bool {
    agreed(word).is_some()
}

/// What both say of a word, as text.
fn told(alloc: Global, word: u32) -> Result<String, AllocError> {
    match agreed(word) {
        None => String::from_str(alloc, "decoder and reader differ"),
        Some(None) => String::from_str(alloc, "none"),
        Some(Some(fields)) => fields.to_text(alloc),
    }
}

/// What the word of a case is in place of what the case says, or none where it is that.
pub fn other_word(alloc: Global, case: &str) -> Result<Option<String>, AllocError> {
    let Some((digits, wanted)) = case.split_once(' ') else {
        return Ok(Some(String::from_str(alloc, "no case")?));
    };
    let Some(word) = word(digits) else {
        return Ok(Some(String::from_str(alloc, "no case")?));
    };
    let found = told(alloc, word)?;
    if found.as_str() == wanted.trim() {
        return Ok(None);
    }
    Ok(Some(found))
}
