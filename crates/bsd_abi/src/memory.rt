//! Flags of FreeBSD's mmap(2).

/// Changes are shared (mmap(2)).
pub const MAP_SHARED: u64 = 1;
/// Changes are private (mmap(2)).
pub const MAP_PRIVATE: u64 = 2;
/// The pages lie exactly at the address (mmap(2)).
pub const MAP_FIXED: u64 = 0x10;
/// The pages are zeros, and no file's (mmap(2)).
pub const MAP_ANON: u64 = 0x1000;
