//! Flags of the FreeBSD calls on descriptors.

/// Open for writing alone (open(2)); the access mode is in the two lowest bits, and 0 is for reading alone.
pub const O_WRONLY: u64 = 1;
/// Open for reading and writing (open(2)).
pub const O_RDWR: u64 = 2;
/// A call on the open file answers EAGAIN in place of waiting (open(2)).
pub const O_NONBLOCK: u64 = 0x4;
/// Sets the close flag of the new descriptor (open(2)).
pub const O_CLOEXEC: u64 = 0x100000;
