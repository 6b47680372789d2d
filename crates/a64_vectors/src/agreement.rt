//! That the decoder and the slow reader say the same of many words.

use crate::words::is_agreed;
use a64_model::rows::ROWS;
use std::fmt;

/// An odd number near 2^32 over the golden ratio: its multiples are spread over all words.
const STRIDE: u32 = 0x9E37_79B1;

/// Of how many words both say the same, and of the first one of which they don't.
#[derive(Drop)]
pub struct Agreement {
    words: u32,
    agreed: u32,
    first_other: Option<u32>,
}

impl Agreement {
    /// Of no word yet.
    fn new() -> Agreement {
        Agreement {
            words: 0,
            agreed: 0,
            first_other: None,
        }
    }

    /// Takes one more word.
    fn take(&mut self, word: u32) {
        self.words = self.words.saturating_add(1);
        if is_agreed(word) {
            self.agreed = self.agreed.saturating_add(1);
        } else if self.first_other.is_none() {
            self.first_other = Some(word);
        }
    }
}

impl fmt::Display for Agreement {
    fn fmt<W: fmt::Write>(&self, f: &mut fmt::Formatter<W>) -> fmt::Result {
        let (agreed, words) = (self.agreed, self.words);
        write!(f, "{agreed} of {words}")?;
        match self.first_other {
            None => Ok(()),
            Some(word) => write!(f, ", and not {word:08X}"),
        }
    }
}

/// Of 100,000 words that are spread over all words.
pub fn words_everywhere() -> Agreement {
    let mut agreement = Agreement::new();
    let mut word: u32 = 0;
    for _ in 0..100_000 {
        word = word.wrapping_add(STRIDE);
        agreement.take(word);
    }
    agreement
}

/// Of 1000 words with the mask and the value of each row.
pub fn words_of_rows() -> Agreement {
    let mut agreement = Agreement::new();
    let mut word: u32 = 0;
    for row in &ROWS {
        for _ in 0..1000 {
            word = word.wrapping_add(STRIDE);
            agreement.take(word & !row.mask | row.value);
        }
    }
    agreement
}
