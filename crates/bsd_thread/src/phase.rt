//! The phases of a thread: what its next entry does.
ghost use Rattle.std.specs.Prelude.{◌≡◌};
ghost use Rattle.bsd_thread.specs.Phases as spec;

use bsd_proc::{Action, Signal};

/// Which chain of the one or two that a call makes busy.
#[derive(Clone, Copy)]
pub enum Turn {
    First,
    Second,
    /// The first again: a requeue ends its mark there after the second has its waiters.
    Last,
}

/// What a Finish still owes to its chain.
#[derive(Clone, Copy)]
pub enum Owed {
    /// Nothing but the end of its mark.
    Nothing,
    /// Its own insertion.
    Insertion,
    /// The wake of one waiter at a dead owner's word.
    Wake,
    /// Wakes and moves, which its answer counts.
    Counted,
    /// A lock that names its owner, to the first waiter for it.
    Handing,
}

/// Why the guest is to be killed.
#[derive(Clone, Copy)]
pub enum Doom {
    /// The frame of a signal can't be stored.
    Frame,
    /// The return from a signal is refused.
    InCall,
}

/// A signal that was taken, with the action that was taken with it.
#[derive(Clone, Copy)]
pub struct Delivery {
    pub signal: Signal,
    pub action: Action,
}

/// What a thread does next.
#[derive(Clone, Copy)]
pub enum Phase {
    /// Nothing: its slot is free, or is reserved and hasn't started.
    Idle,
    /// Takes an instruction of the guest, or a signal.
    User,
    /// Copies a piece in.
    Fetch,
    /// Finds and holds its open file.
    Hold,
    /// Moves bytes or events between itself and its open file.
    Look,
    /// Gives the hold back.
    Drop,
    /// Has its effect on the process.
    Process,
    /// Has its effect on areas and pages.
    Space,
    /// Has its effect on files.
    Files,
    /// Asks for the time.
    Ask,
    /// Reads the clock, or sets its deadline.
    Clock,
    /// Makes a chain busy.
    Busy(Turn),
    /// Reads, changes or compares its word.
    Word,
    /// Does what it owes to a chain, and ends its mark there.
    Finish(Turn, Owed),
    /// Wakes waiters of a chain.
    Release,
    /// Waits in a chain.
    Sleep,
    /// Waits for its deadline or a signal.
    Rest,
    /// Changes the Read knote of an interest.
    Flux1,
    /// Changes its Write knote.
    Flux2,
    /// Lets its child start.
    Start,
    /// Copies a piece out.
    Store,
    /// Puts its answer into x0.
    Return,
    /// Has trapped with this signal.
    Forced(Signal),
    /// Stores the frame of this signal.
    Frame(Delivery),
    /// Ends the guest by SIGSEGV.
    Kill(Doom),
    /// Begins its death.
    Leave,
    /// Stores 0 at its clear address.
    Clear,
    /// Ends its death.
    Gone,
}

impl Phase {
    /// Whether an entry of the thread may be enabled: it isn't idle.
    pub fn is_awake(self) -> bool
        ensures { result ≡ spec.is_awake self }
    {
        !matches!(self, Phase::Idle)
    }

    /// Whether the thread is in a call.
    pub fn has_call(self) -> bool
        ensures { result ≡ spec.has_call self }
    {
        !matches!(
            self,
            Phase::Idle
                | Phase::User
                | Phase::Forced(_)
                | Phase::Frame(_)
                | Phase::Kill(Doom::Frame)
        )
    }

    /// Whether the thread waits in a chain, or its own insertion is all that lacks.
    pub fn waits(self) -> bool
        ensures { result ≡ spec.waits self }
    {
        matches!(self, Phase::Sleep | Phase::Finish(_, Owed::Insertion))
    }
}
