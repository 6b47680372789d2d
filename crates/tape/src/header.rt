//! What the header of a tape file says, in either version.

ghost use Rattle.std.specs.Prelude.{◌≡◌, ◌+◌, ◌≤◌, length};
ghost use Rattle.places.specs.Places.{number_at};

use byteorder::{ByteOrder, LittleEndian};

/// The numbers of a header.
#[derive(Clone, Copy)]
pub(crate) struct Header {
    /// The seed that the run was begun with.
    pub seed: u64,
    /// How many pages the guest has.
    pub pages: u32,
    /// The rules, 1 or 2.
    pub rules: u8,
    /// How many entries the file claims.
    pub count: u32,
}

/// The number in the eight bytes from a place on, little-endian.
pub(crate) fn number(bytes: &[u8], at: usize) -> u64
    requires { at + 8 ≤ length bytes.now }
    ensures { result ≡ number_at bytes.now at 8 }
{
    LittleEndian::read_u64(&bytes[at..])
}
