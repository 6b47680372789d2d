//! Futex words in memory (futex(2)).
ghost use Rattle.std.specs.Prelude.{◌≡◌, IfSome};
ghost use Rattle.lx_memory.specs.Bytes.{IsMapped};
ghost use Rattle.lx_machine.specs.Futex.{readable_word, with_word, word_at, writable_word};

use byteorder::{ByteOrder, LittleEndian};
use lx_memory::queries::is_allowed;
use lx_memory::{Memory, Right};

/// The bytes of a word.
const WORD: u64 = 4;

/// The word at an address.
fn word_at(pages: &Memory, at: u64) -> u32
    requires { IsMapped pages.now at 4 }
    ensures { result ≡ word_at pages.now at }
{
    let mut bytes = [0; 4];
    pages.load(at, &mut bytes);
    LittleEndian::read_u32(&bytes)
}

/// Writes the word at an address.
pub fn set_word(pages: &mut Memory, at: u64, word: u32)
    requires { IsMapped pages.old at 4 }
    ensures { pages.new ≡ with_word pages.old at word }
{
    let mut bytes = [0; 4];
    LittleEndian::write_u32(&mut bytes, word);
    pages.store(at, &bytes);
}

/// The word at an address, if it may be read.
pub fn readable_word(pages: &Memory, at: u64) -> Option<u32>
    ensures { result ≡ readable_word pages.now at }
{
    if is_allowed(pages, Right::Read, at, WORD) {
        Some(word_at(pages, at))
    } else {
        None
    }
}

/// The word at an address, if it may be written; then it is mapped.
pub fn writable_word(pages: &Memory, at: u64) -> Option<u32>
    ensures word { result ≡ writable_word pages.now at }
    ensures mapped { IfSome result (λ _. IsMapped pages.now at 4) }
{
    if is_allowed(pages, Right::Write, at, WORD) {
        Some(word_at(pages, at))
    } else {
        None
    }
}
