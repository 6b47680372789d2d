//! The sizes and limits of a tape file.

/// What a file of version 2 begins with.
pub const MAGIC: [u8; 8] = *b"LXTAPE2\n";

/// Where the runs begin in version 2.
pub const HEADER_LENGTH: usize = 40;

/// The bytes of a run: its actor, its length, and its amount.
pub const RUN_LENGTH: usize = 13;

/// What a file of version 1 begins with.
pub const MAGIC_1: [u8; 8] = *b"LXTAPE1\n";

/// Where the entries begin in version 1.
pub const HEADER_LENGTH_1: usize = 32;

/// The bytes of an entry in version 1: its actor, and its amount.
pub const ENTRY_LENGTH: usize = 9;

/// The most pages that a guest may have.
pub const MOST_PAGES: u64 = 65_536;

/// The greatest number of rules.
pub const LAST_RULES: u64 = 2;

/// The most entries that a file may have.
pub const MOST_ENTRIES: u64 = 20_000_000;
