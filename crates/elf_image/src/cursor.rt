//! Reading the fields of a file one after another.

ghost use Rattle.std.specs.Prelude.{◌≡◌, ◌≤◌, ◌+◌, length, slice_index};
ghost use Rattle.elf_image.specs.Headers.{half_at, word_at, xword_at};

use byteorder::{ByteOrder, LittleEndian};

/// A place in a file, at which the next field begins.
#[derive(Drop)]
pub struct Cursor<'a> {
    pub file: &'a [u8],
    pub place: usize,
}

impl Cursor<'_> {
    /// Passes over the next `count` bytes.
    pub fn skip(&mut self, count: usize)
        requires { self.old.place + count ≤ length self.old.file.now }
        ensures file { self.new.file ≡ self.old.file }
        ensures place { self.new.place ≡ self.old.place + count }
    {
        self.place += count;
    }

    /// The next byte.
    pub fn byte(&mut self) -> u8
        requires { self.old.place + 1 ≤ length self.old.file.now }
        ensures value { result ≡ slice_index self.old.file.now self.old.place }
        ensures file { self.new.file ≡ self.old.file }
        ensures place { self.new.place ≡ self.old.place + 1 }
    {
        let value = self.file[self.place];
        self.skip(1);
        value
    }

    /// The next Elf64_Half.
    #[tactic(auto, unfolding(crate::specs::Headers::half_at))]
    pub fn half(&mut self) -> u16
        requires { self.old.place + 2 ≤ length self.old.file.now }
        ensures value { result ≡ half_at self.old.file.now self.old.place }
        ensures file { self.new.file ≡ self.old.file }
        ensures place { self.new.place ≡ self.old.place + 2 }
    {
        let value = LittleEndian::read_u16(&self.file[self.place..]);
        self.skip(2);
        value
    }

    /// The next Elf64_Word.
    #[tactic(auto, unfolding(crate::specs::Headers::word_at))]
    pub fn word(&mut self) -> u32
        requires { self.old.place + 4 ≤ length self.old.file.now }
        ensures value { result ≡ word_at self.old.file.now self.old.place }
        ensures file { self.new.file ≡ self.old.file }
        ensures place { self.new.place ≡ self.old.place + 4 }
    {
        let value = LittleEndian::read_u32(&self.file[self.place..]);
        self.skip(4);
        value
    }

    /// The next Elf64_Xword, Elf64_Addr or Elf64_Off.
    #[tactic(auto, unfolding(crate::specs::Headers::xword_at))]
    pub fn xword(&mut self) -> u64
        requires { self.old.place + 8 ≤ length self.old.file.now }
        ensures value { result ≡ xword_at self.old.file.now self.old.place }
        ensures file { self.new.file ≡ self.old.file }
        ensures place { self.new.place ≡ self.old.place + 8 }
    {
        let value = LittleEndian::read_u64(&self.file[self.place..]);
        self.skip(8);
        value
    }
}
