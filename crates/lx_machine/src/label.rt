//! The labels, which name the steps of the Linux machine and their free choices.
ghost use Rattle.std.specs.Prelude.{◌≡◌, []};

use linux_abi::LinuxSig;
use std::alloc::Global;
use std::marker::Model;

/// The list in which a pending signal stands: the thread's own, or the one that all threads share (signal(7)).
#[derive(Clone, Copy)]
pub enum PendingList {
    Own,
    Shared,
}

/// Standard output or standard error.
#[derive(Clone, Copy)]
pub enum LxSide {
    Out,
    Err,
}

/// An interest that an epoll reports: its open file and the descriptor for which it was added.
#[derive(Clone, Copy)]
pub struct Pick {
    pub file: u32,
    pub descriptor: u32,
}

/// The interests that an epoll reports, in their order, which contracts see as a list.
#[derive(Drop)]
pub struct Picks {
    picks: Vec<Pick>,
}

impl Model for Picks {
    ghost use Rattle.std.specs.Prelude.{List};
    ghost use Rattle.lx_machine.specs.declared.label.Pick.{Pick};

    ghost Value = { List Pick };

    ghost view = { λ p. p.picks.items };
}

impl Picks {
    /// No interests, as for every move that is not an epoll's. Takes no memory.
    pub fn none(alloc: Global) -> Picks
        ensures { result ≡ [] }
    {
        Picks {
            picks: Vec::new(alloc),
        }
    }

    /// These interests. Takes no memory.
    pub fn from_vec(picks: Vec<Pick>) -> Picks
        ensures { result ≡ picks.items }
    {
        Picks { picks }
    }

    /// The interests.
    pub fn as_slice(&self) -> &[Pick]
        ensures { result.now ≡ self.now }
    {
        self.picks.as_slice()
    }
}

/// A step of the Linux machine. The first field is the slot of the thread, 0 to 127, whose step it is.
#[derive(Drop)]
pub enum Label {
    /// The instruction at pc; SVC enters a call.
    Instr(u8),
    /// The next piece is copied in.
    Fetch(u8),
    /// The next piece is copied out.
    Store(u8),
    /// The open file of a transfer is found and held.
    Hold(u8),
    /// The hold of a transfer that was refused is given back.
    Drop(u8),
    /// The effect of a call. `true`: memory runs short.
    Effect(u8, bool),
    /// Bytes or events move between the call and its open file.
    Move(u8, Picks),
    /// The clock is read.
    Clock(u8),
    /// A place of a futex wait compares its word and queues.
    Queue(u8),
    /// FUTEX_REQUEUE and FUTEX_CMP_REQUEUE.
    Requeue(u8),
    /// FUTEX_WAKE_OP.
    WakeOp(u8),
    /// A robust futex of a thread that dies.
    Mark(u8),
    /// FUTEX_WAKE and its kin.
    Release(u8),
    /// FUTEX_LOCK_PI and FUTEX_TRYLOCK_PI.
    PiLock(u8),
    /// FUTEX_UNLOCK_PI.
    PiUnlock(u8),
    /// A futex wait that was released goes on.
    Resume(u8),
    /// A wait ends by its deadline.
    Expire(u8),
    /// A wait ends by a signal.
    Interrupt(u8, PendingList, LinuxSig),
    /// The child of clone(2) starts.
    Start(u8),
    /// exit(2).
    Leave(u8),
    /// A dying thread is gone.
    Gone(u8),
    /// The answer goes into x0, and a signal may be taken.
    Return(u8, Option<(PendingList, LinuxSig)>),
    /// A signal is taken.
    Take(u8, PendingList, LinuxSig),
    /// The frame of a handler is stored.
    Frame(u8),
    /// The guest ends since a frame could not be stored or read.
    Kill(u8),
    /// The clock is set, in microseconds.
    Time(u64),
    /// The first bytes of a console room are drained.
    Drain(LxSide, u64),
}
