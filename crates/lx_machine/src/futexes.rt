//! What the operations on futexes are asked for (futex(2), get_robust_list(2)).
use linux_abi::futexes::{Comparison, WordOperation};

/// A place of a wait: the address of its word, the value that the word has to have, the bit set of the waiter, the place among
/// those of its wait, from 0, and whether the wait is one for many places (futex_waitv(2)) or a plain one. A value of 2^32 or
/// more equals no word.
#[derive(Clone, Copy)]
pub struct Wait {
    pub at: u64,
    pub expected: u64,
    pub bits: u32,
    pub place: u32,
    pub many: bool,
}

/// A wake: the address of its word, how many waiters it releases at most, and the bits of which each has one.
#[derive(Clone, Copy)]
pub struct Wake {
    pub at: u64,
    pub most: u32,
    pub bits: u32,
}

/// A requeue: the addresses of its two words, how many waiters it releases and then moves at most, and the value that the
/// first word has to have (FUTEX_CMP_REQUEUE).
#[derive(Clone, Copy)]
pub struct Requeue {
    pub from: u64,
    pub to: u64,
    pub wakes: u32,
    pub moves: u32,
    pub expected: Option<u32>,
}

/// A wake-op: the addresses of its two words, how many waiters it releases at most at each, what becomes of the second
/// word, and the comparison of its old value that has to hold for waiters there.
#[derive(Clone, Copy)]
pub struct WakeOp {
    pub from: u64,
    pub to: u64,
    pub wakes: u32,
    pub wakes_there: u32,
    pub operation: WordOperation,
    pub operand: u32,
    pub comparison: Comparison,
    pub value: i32,
}

/// A robust futex of a thread that dies: the address of its word, whether it is a lock that names its owner (bit 0 of the
/// pointer to its entry), and whether its entry is the pending one.
#[derive(Clone, Copy)]
pub struct Mark {
    pub at: u64,
    pub inherits: bool,
    pub is_pending: bool,
}

/// A lock that names its owner is asked for: the address of its word, and whether the thread only tries
/// (FUTEX_TRYLOCK_PI).
#[derive(Clone, Copy)]
pub struct PiLock {
    pub at: u64,
    pub tries: bool,
}
