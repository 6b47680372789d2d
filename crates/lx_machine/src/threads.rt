//! Threads of the guest.
use crate::calls::LxCall;
use crate::signals::{Pending, SigInfo, Taken};
use a64_model::regs::Regs;
use linux_abi::LinuxSig;

/// How far a thread's life has come.
#[derive(Clone, Copy)]
pub enum Life {
    /// clone(2) has reserved its place, and it has not started.
    Reserved,
    Live,
    /// It has left, and its robust futexes and its clear address are looked after.
    Dying,
}

/// An alternative signal stack (sigaltstack(2)): its address and its size in bytes, and whether it is enabled.
#[derive(Clone, Copy)]
pub struct AltStack {
    pub at: u64,
    pub size: u64,
    pub enabled: bool,
}

/// A thread.
#[derive(Drop)]
pub struct LxThread {
    pub tid: u32,
    pub life: Life,
    pub regs: Regs,
    /// The granule that an exclusive load has marked.
    pub mark: Option<u64>,
    /// The blocked signals, signal n as bit n - 1.
    pub mask: u64,
    /// The mask that a call gives back when it returns.
    pub saved_mask: Option<u64>,
    pub alt_stack: AltStack,
    /// set_tid_address(2), or 0.
    pub clear_at: u64,
    /// set_robust_list(2), or 0.
    pub robust_head: u64,
    pub pending: Pending,
    /// The signal of an instruction that trapped.
    pub trap: Option<SigInfo>,
    /// The signal whose frame is to be stored.
    pub taken: Option<Taken>,
    /// The guest is to be killed by SIGSEGV.
    pub is_doomed: bool,
    pub call: Option<LxCall>,
}

/// A place of a wait in the futex queue: the thread's tid, the place among those of its wait, from 0, whether the wait is one
/// for many places (futex_waitv(2)) or a plain one, the address of the word, and the bit set.
#[derive(Clone, Copy)]
pub struct LxWaiter {
    pub tid: u32,
    pub place: u32,
    pub many: bool,
    pub address: u64,
    pub bits: u32,
}

/// A wait for a lock that names its owner: the thread's tid, and the address of the word (futex(2), FUTEX_LOCK_PI).
#[derive(Clone, Copy, Default)]
pub struct PiWaiter {
    pub tid: u32,
    pub address: u64,
}

/// How the guest ended: by an exit with a code, or by a signal.
#[derive(Clone, Copy)]
pub enum GuestEnd {
    Exited(u8),
    Killed(LinuxSig),
}
