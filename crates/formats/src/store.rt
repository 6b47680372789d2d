//! Bytes by name, and edits of them.

use crate::texts::number;
use std::alloc::{AllocError, Global};

/// Bytes that have a name.
#[derive(Drop)]
pub struct Store {
    alloc: Global,
    named: Vec<(String, Vec<u8>)>,
}

impl Store {
    /// No bytes.
    pub fn new(alloc: Global) -> Store {
        Store {
            alloc,
            named: Vec::new(alloc),
        }
    }

    /// Gives bytes a name, behind those that have it already.
    pub fn add(&mut self, name: &str, bytes: Vec<u8>) -> Result<(), AllocError> {
        for pair in &mut self.named {
            if pair.0.as_str() == name {
                return pair.1.extend_from_slice(&bytes);
            }
        }
        let name = String::from_str(self.alloc, name)?;
        self.named.push((name, bytes))?;
        Ok(())
    }

    /// The bytes of a name.
    pub fn find(&self, name: &str) -> Option<&[u8]> {
        for pair in &self.named {
            if pair.0.as_str() == name {
                return Some(&pair.1);
            }
        }
        None
    }

    /// The bytes of a name with these edits made, in their order, and none where a word isn't as it has to be.
    pub fn edited(&self, name: &str, edits: &[&str]) -> Result<Option<Vec<u8>>, AllocError> {
        let Some(found) = self.find(name) else {
            return Ok(None);
        };
        let mut bytes = found.to_vec(self.alloc)?;
        let mut rest = edits;
        while !rest.is_empty() {
            rest = match rest {
                ["len", length, more @ ..] => {
                    let Some(length) = number(length) else {
                        return Ok(None);
                    };
                    bytes.resize(length as usize, 0)?;
                    more
                }
                ["set", place, size, value, more @ ..] => {
                    let (Some(place), Some(size), Some(value)) = (
                        number(place),
                        number(size),
                        number(value),
                    ) else {
                        return Ok(None);
                    };
                    set(&mut bytes, place as usize, size as usize, value);
                    more
                }
                _ => return Ok(None),
            };
        }
        Ok(Some(bytes))
    }
}

// Puts so many bytes of a little-endian number at a place.
fn set(bytes: &mut [u8], place: usize, size: usize, value: u64) {
    for (byte, from) in bytes
        .iter_mut()
        .skip(place)
        .zip(value.to_le_bytes().iter().take(size))
    {
        *byte = *from;
    }
}
