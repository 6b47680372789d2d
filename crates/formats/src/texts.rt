//! Numbers and bytes in the words of a case.
ghost use Rattle.std.specs.Prelude.{◌<◌, IfSome};

use std::alloc::{AllocError, Global};
use std::str;

/// The text of bytes, and none where they are no text.
pub fn text_of(bytes: &[u8]) -> &str {
    str::from_utf8(bytes).unwrap_or("")
}

/// A number, decimal or behind `0x` hexadecimal.
pub fn number(word: &str) -> Option<u64> {
    match word.strip_prefix("0x") {
        Some(digits) => u64::from_str_radix(digits, 16).ok(),
        None => word.parse::<u64>().ok(),
    }
}

// The value of a hexadecimal digit.
fn digit(code: u8) -> Option<u8>
    ensures { IfSome result (λ value. value < 16) }
{
    match code {
        b'0'..=b'9' => Some(code - b'0'),
        b'a'..=b'f' => Some(code - b'a' + 10),
        _ => None,
    }
}

/// The bytes of hexadecimal words, and none where one isn't hexadecimal.
pub fn bytes_of(alloc: Global, words: &[&str]) -> Result<Option<Vec<u8>>, AllocError> {
    let mut bytes = Vec::new(alloc);
    for word in words {
        for pair in word.as_bytes().as_chunks::<2>().0 {
            match (digit(pair[0]), digit(pair[1])) {
                (Some(high), Some(low)) => bytes.push(16 * high + low)?,
                _ => return Ok(None),
            }
        }
    }
    Ok(Some(bytes))
}

/// The numbers of hexadecimal words of 32 bits, and none where one isn't such a word.
pub fn code_of(alloc: Global, words: &[&str]) -> Result<Option<Vec<u32>>, AllocError> {
    let mut code = Vec::new(alloc);
    for word in words {
        match u32::from_str_radix(word, 16) {
            Ok(number) => code.push(number)?,
            Err(_) => return Ok(None),
        }
    }
    Ok(Some(code))
}

/// Bytes in hexadecimal.
pub fn write_hex(text: &mut String, bytes: &[u8]) -> Result<(), AllocError> {
    for byte in bytes {
        write!(text, "{byte:02x}")?;
    }
    Ok(())
}
