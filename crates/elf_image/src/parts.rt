//! What is read: an image and its segments.

ghost use Rattle.std.specs.Prelude.{◌≡◌};

use std::marker::Model;

/// The bytes of a segment, which contracts see as a list.
#[derive(Drop)]
pub struct Bytes {
    items: Vec<u8>,
}

impl Model for Bytes {
    ghost use Rattle.std.specs.Prelude.{List, ℕ};

    ghost Value = { List ℕ };

    ghost view = { λ bytes. bytes.items.items };
}

impl Bytes {
    /// These bytes. Takes no memory.
    pub fn from_vec(items: Vec<u8>) -> Bytes
        ensures { result ≡ items.items }
    {
        Bytes { items }
    }

    /// The bytes as a `Vec`. Takes no memory.
    pub fn into_vec(self) -> Vec<u8>
        ensures { result.items ≡ self }
    {
        let Bytes { items } = self;
        items
    }

    /// The bytes as a slice.
    pub fn as_slice(&self) -> &[u8]
        ensures { result.now ≡ self.now }
    {
        self.items.as_slice()
    }
}

/// A segment to be loaded: `bytes` at the address `at`, and zeros after them, `size` bytes in all.
#[derive(Drop)]
pub struct Segment {
    pub at: u64,
    pub size: u64,
    pub bytes: Bytes,
    pub read: bool,
    pub write: bool,
    pub execute: bool,
}

/// The segments of an image in the order of its file, which contracts see as a list.
#[derive(Drop)]
pub struct Segments {
    items: Vec<Segment>,
}

impl Model for Segments {
    ghost use Rattle.std.specs.Prelude.{List};
    ghost use Rattle.elf_image.specs.declared.parts.Segment.{Segment};

    ghost Value = { List Segment };

    ghost view = { λ segments. segments.items.items };
}

impl Segments {
    /// These segments. Takes no memory.
    pub fn from_vec(items: Vec<Segment>) -> Segments
        ensures { result ≡ items.items }
    {
        Segments { items }
    }

    /// The segments as a `Vec`. Takes no memory.
    pub fn into_vec(self) -> Vec<Segment>
        ensures { result.items ≡ self }
    {
        let Segments { items } = self;
        items
    }

    /// The segments as a slice.
    pub fn as_slice(&self) -> &[Segment]
        ensures { result.now ≡ self.now }
    {
        self.items.as_slice()
    }
}

/// A program that is ready to be loaded.
#[derive(Drop)]
pub struct Image {
    /// The address of the first instruction.
    pub entry: u64,
    /// The address of the program headers in memory, or 0 where no segment holds them.
    pub headers_at: u64,
    /// The number of program headers.
    pub header_count: u16,
    /// What is to be loaded.
    pub segments: Segments,
}
