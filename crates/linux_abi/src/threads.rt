//! Flags of clone(2).

/// The lowest byte: the signal that the parent gets when the child ends, which a thread doesn't send.
pub const CSIGNAL: u64 = 0xff;
/// The child shares the memory.
pub const CLONE_VM: u64 = 0x100;
/// The child shares what is known of the file system.
pub const CLONE_FS: u64 = 0x200;
/// The child shares the descriptors.
pub const CLONE_FILES: u64 = 0x400;
/// The child shares the actions of signals.
pub const CLONE_SIGHAND: u64 = 0x800;
/// The child is a thread of the same process.
pub const CLONE_THREAD: u64 = 0x10000;
/// The child shares the undo values of System V semaphores.
pub const CLONE_SYSVSEM: u64 = 0x40000;
/// The child gets the thread pointer that is given.
pub const CLONE_SETTLS: u64 = 0x80000;
/// The child's tid is stored at the parent's address.
pub const CLONE_PARENT_SETTID: u64 = 0x100000;
/// The word at the child's address is cleared and woken when the child ends.
pub const CLONE_CHILD_CLEARTID: u64 = 0x200000;
/// Without effect.
pub const CLONE_DETACHED: u64 = 0x400000;
/// The child's tid is stored at the child's address.
pub const CLONE_CHILD_SETTID: u64 = 0x1000000;

/// The flags without which no thread is made.
pub const CLONE_NEEDED: u64 = CLONE_VM | CLONE_FS | CLONE_FILES | CLONE_SIGHAND | CLONE_THREAD;
/// The bits that may stand beside them. With any other bit no thread is made.
pub const CLONE_ALLOWED: u64 = CSIGNAL
    | CLONE_SYSVSEM
    | CLONE_SETTLS
    | CLONE_PARENT_SETTID
    | CLONE_CHILD_CLEARTID
    | CLONE_DETACHED
    | CLONE_CHILD_SETTID;
