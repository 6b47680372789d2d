//! The words of a line: numbers and bytes.

use crate::answers::Refusal;
use std::alloc::{AllocError, Global};

/// The words of a line, between blanks.
pub fn words_of<'a>(alloc: Global, line: &'a str) -> Result<Vec<&'a str>, AllocError> {
    line.split_whitespace().collect(alloc)
}

/// A number: in decimal, or in hexadecimal after `0x`.
pub fn number(word: &str) -> Result<u64, Refusal> {
    let read = match word.strip_prefix("0x") {
        Some(digits) => u64::from_str_radix(digits, 16),
        None => u64::from_str_radix(word, 10),
    };
    read.map_err(|_| Refusal::NotANumber)
}

/// Bytes, as two digits each.
pub fn bytes(alloc: Global, word: &str) -> Result<Vec<u8>, Refusal> {
    match hex::decode(alloc, word) {
        Ok(bytes) => Ok(bytes),
        Err(hex::FromHexError::OutOfMemory) => Err(Refusal::NoMemory),
        Err(_) => Err(Refusal::NotBytes),
    }
}
