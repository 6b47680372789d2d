//! Families of calls.

/// Who takes the next entry of a thread: the core outside calls, or the family that its call belongs to.
#[derive(Clone, Copy, Debug, PartialEq, Eq)]
pub enum Family {
    /// The core: instructions, and numbers of which there is no call.
    Core,
    /// brk, mmap, munmap, mprotect and madvise.
    Memory,
    /// Descriptors, pipes, counters and transfers.
    Files,
    /// Epolls.
    Epoll,
    /// Waits, wakes and requeues of futexes.
    Futex,
    /// Locks that name their owner.
    Pi,
    /// nanosleep, clock_gettime and uname.
    Time,
    /// Births, ids, and deaths but for their robust lists.
    Clone,
    /// Robust lists.
    Robust,
    /// Signals, their frames and their calls.
    Signal,
}
