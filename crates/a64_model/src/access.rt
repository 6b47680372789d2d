//! What an instruction asks of memory, what memory answers, and what comes after the instruction.

/// What an atomic access leaves in memory: the old value plus the given one, without its bits, their exclusive or,
/// their or, the given value, or the given value where the old one is the expected one.
#[derive(Clone, Copy)]
pub enum SwapOp {
    Add,
    Clear,
    Xor,
    Set,
    Swap,
    CompareSwap,
}

/// An access lacks its right at this address.
#[derive(Clone, Copy)]
pub struct Fault {
    pub address: u64,
}

/// What an instruction asks of memory: nothing, a load or a store of `len` bytes from the address `at` on, an atomic
/// exchange, or that the thread's exclusive mark is cleared.
#[derive(Clone, Copy)]
pub enum Access {
    None,
    /// `mark`: the load also marks the granule for the thread.
    Load {
        at: u64,
        len: u8,
        mark: bool,
    },
    /// The first `len` bytes are stored. `exclusive`: only where the thread's mark stands there.
    Store {
        at: u64,
        len: u8,
        bytes: [u8; 32],
        exclusive: bool,
    },
    /// `value` and `expected` are numbers of `len` bytes.
    Swap {
        at: u64,
        len: u8,
        op: SwapOp,
        value: u64,
        expected: u64,
    },
    ClearMark,
}

/// What memory answers: done, the bytes loaded or exchanged (the first ones count), no mark for an exclusive store,
/// or a fault.
#[derive(Clone, Copy)]
pub enum Answer {
    Done,
    Bytes([u8; 32]),
    NoMark,
    Fault(Fault),
}

/// What comes after an instruction: the next one, a system call, or a trap with its Linux signal, the code and the
/// address of that signal's information.
#[derive(Clone, Copy)]
pub enum Next {
    Go,
    Call,
    Trap { signal: u8, code: i32, address: u64 },
}
