//! The death of a thread: its robust futexes, and its clear address (get_robust_list(2), set_tid_address(2)).

/// What comes next.
#[derive(Clone, Copy)]
pub enum DeathPlace {
    /// The head of the robust list is fetched.
    Head,
    /// The next pointer of the entry is fetched.
    Next,
    /// The word of the entry is marked, and then the walk goes on to this entry.
    Entry(u64),
    /// The word of the pending entry is marked.
    Pending,
    /// 0 is stored at the clear address.
    Clear,
    /// A waiter at the clear address is released.
    Wake,
    /// The thread is gone.
    Gone,
}

/// How far a death has come: what comes next; the addresses of the robust list's head and of the word to clear, or 0; the
/// entry at which the walk is, what is added to it modulo 2^64 to get the address of its word, the pending entry, and how
/// many entries have been handled. Bit 0 of a pointer to an entry tells a futex with priority inheritance.
#[derive(Clone, Copy)]
pub struct Death {
    pub place: DeathPlace,
    pub head: u64,
    pub clear_at: u64,
    pub entry: u64,
    pub offset: u64,
    pub pending: u64,
    pub walked: u32,
}
