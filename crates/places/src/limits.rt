//! The limits that the machines have in common, which contracts may name. Sizes of pages and granules are those of
//! mmap(2) and of the Arm ARM (DDI 0487, B2.9); all others are this project's own.

/// The bytes of a page.
pub const PAGE: u64 = 4096;

/// The bytes of a granule, which an exclusive access marks.
pub const GRANULE: u64 = 16;

/// The first page number that is past the pages of 64-bit addresses.
pub const PAGES_END: u64 = 1 << 52;

/// The address at or below which every range that a call names ends.
pub const ADDRESSES_END: u64 = 1 << 47;

/// The lowest page at which a place for a new area is found.
pub const LOWEST_PLACE: u64 = 16;

/// The page at or below which a place that is found for a new area ends.
pub const PLACES_END: u64 = 0x7_fff0_0000;

/// The shards of the memory.
pub const SHARDS: u8 = 16;

/// The chains of waiters.
pub const CHAINS: u8 = 64;

/// The slots for threads.
pub const SLOTS: usize = 128;

/// The descriptors of a process.
pub const DESCRIPTORS: usize = 256;

/// The pipes that may be open.
pub const PIPES: usize = 64;

/// The queues of events that may be open.
pub const QUEUES: usize = 32;

/// The interests of one queue of events.
pub const INTERESTS: usize = 512;

/// The areas of an address space.
pub const AREAS: usize = 1024;

/// The entries of a robust list that are walked.
pub const ROBUST_ENTRIES: usize = 2048;

/// The real-time signals that may be queued.
pub const QUEUED_SIGNALS: usize = 64;

/// The places of one wait in many places.
pub const WAIT_PLACES: usize = 32;

/// The bytes of one transfer, and of the room of a pipe or a console.
pub const TRANSFER: usize = 65_536;
