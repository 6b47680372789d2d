//! Calls that have been entered.
ghost use Rattle.std.specs.Prelude.{◌≡◌, ◌<◌, [], ◌++◌, ◌∷◌, Some, None, if◌then◌else◌, IfOk, OnOk, OnErr};
ghost use Rattle.lx_machine.specs.Calls.{has_other};
ghost use Rattle.lx_machine.specs.Pieces.{behind_first, piece};

use crate::buffer::{Bytes, NoMemory};
use crate::death::Death;
use crate::futexes::{Mark, PiLock, Requeue, Wait, Wake, WakeOp};
use crate::signals::SigInfo;
use crate::state::Slot;
use linux_abi::{LinuxErrno, answer};
use std::alloc::Global;
use std::marker::Model;

/// A range of guest memory that a call copies in or out: its address and its length in bytes.
#[derive(Clone, Copy, Debug, PartialEq, Eq)]
pub struct Piece {
    pub at: u64,
    pub len: u64,
}

/// Pieces in order, which contracts see as a list.
#[derive(Drop)]
pub struct Pieces {
    items: Vec<Piece>,
}

impl Model for Pieces {
    ghost use Rattle.std.specs.Prelude.{List};
    ghost use Rattle.lx_machine.specs.declared.calls.Piece.{Piece};

    ghost Value = { List Piece };

    ghost view = { λ p. p.items.items };
}

impl Pieces {
    /// No pieces. Takes no memory.
    pub fn none(alloc: Global) -> Pieces
        ensures { result ≡ [] }
    {
        Pieces {
            items: Vec::new(alloc),
        }
    }

    /// One piece: so many bytes from an address on.
    pub fn one(alloc: Global, at: u64, len: u64) -> Result<Pieces, NoMemory>
        ensures { IfOk result (λ pieces. pieces ≡ piece at len ∷ []) }
    {
        let mut pieces = Pieces::none(alloc);
        pieces.push(Piece { at, len })?;
        Ok(pieces)
    }

    /// The pieces.
    pub fn as_slice(&self) -> &[Piece]
        ensures { result.now ≡ self.now }
    {
        self.items.as_slice()
    }

    /// Puts a piece behind the others. Where memory is wanting, nothing changes.
    pub fn push(&mut self, piece: Piece) -> Result<(), NoMemory>
        ensures ok { OnOk result (self.new ≡ self.old ++ piece ∷ []) }
        ensures err { OnErr result (self.new ≡ self.old) }
    {
        self.items.push(piece).map_err(|_| NoMemory)
    }

    /// Lets the first piece go, if there is one.
    pub fn remove_first(&mut self)
        ensures { self.new ≡ behind_first self.old }
    {
        if !self.items.is_empty() {
            self.items.remove(0);
        }
    }

    /// Lets all pieces go.
    pub fn clear(&mut self)
        ensures { self.new ≡ [] }
    {
        self.items.clear();
    }
}

/// A call that has been entered: its number and arguments, how many pieces it has fetched, the pieces that it has still
/// to copy, the bytes that it has fetched or has still to store, how many bytes it has moved, its held open file, its
/// deadline in microseconds, whether it waits at a futex, how many of its places have queued and what refused the next one
/// (futex_waitv(2)), the slot of the child that it has reserved and not started, how far the death of its thread has come,
/// its result once it has one, in the form of x0, and the signal that ended its wait.
#[derive(Drop)]
pub struct LxCall {
    pub number: u64,
    pub arguments: [u64; 6],
    pub fetched: u32,
    pub pieces: Pieces,
    pub bytes: Bytes,
    pub moved: u64,
    pub held: Option<u32>,
    pub deadline: Option<u64>,
    pub waits: bool,
    pub queued: u32,
    pub refusal: Option<LinuxErrno>,
    pub child: Option<Slot>,
    pub death: Option<Death>,
    pub result: Option<u64>,
    pub kept: Option<SigInfo>,
}

impl LxCall {
    ghost use Rattle.lx_machine.specs.Calls.{answered, answered_with, low_argument, new_call, refused};

    /// A call as SVC finds it: the number of x8 and these arguments (syscall(2)). Takes no memory.
    pub fn new(alloc: Global, number: u64, arguments: [u64; 6]) -> LxCall
        ensures { result ≡ new_call number arguments }
    {
        LxCall {
            number,
            arguments,
            fetched: 0,
            pieces: Pieces::none(alloc),
            bytes: Bytes::empty(alloc),
            moved: 0,
            held: None,
            deadline: None,
            waits: false,
            queued: 0,
            refusal: None,
            child: None,
            death: None,
            result: None,
            kept: None,
        }
    }

    /// The low 32 bits of an argument.
    pub fn low_argument(&self, at: usize) -> u32
        requires { at < 6 }
        ensures { result ≡ low_argument self.now at }
    {
        (self.arguments[at] % (1 << 32)) as u32
    }

    /// The call has this result, and nothing to store.
    pub fn answer(&mut self, n: u64)
        ensures { self.new ≡ answered self.old n }
    {
        self.result = Some(n);
        self.pieces.clear();
        self.bytes.clear();
    }

    /// The call has this result, and these bytes to store.
    pub fn answer_with(&mut self, n: u64, pieces: Pieces, bytes: Bytes)
        ensures { self.new ≡ answered_with self.old n pieces bytes }
    {
        self.result = Some(n);
        self.pieces = pieces;
        self.bytes = bytes;
    }

    /// The call is refused (errno(3)).
    pub fn refuse(&mut self, e: LinuxErrno)
        ensures { self.new ≡ refused self.old e }
    {
        self.answer(answer(e));
    }
}

/// Whether the flags have a bit that is not allowed.
pub fn has_other(allowed: u32, flags: u32) -> bool
    ensures { result ≡ has_other allowed flags }
{
    flags & allowed != flags
}

/// The error, if the test holds.
pub fn refused_if(test: bool, e: LinuxErrno) -> Option<LinuxErrno>
    ensures { result ≡ (if test then Some e else None) }
{
    if test { Some(e) } else { None }
}

/// Whether a call starts again after a signal has ended its wait (signal(7), *Interruption of system calls*).
#[derive(Clone, Copy)]
pub enum Restart {
    /// It answers EINTR.
    Never,
    /// Where the signal's handler has SA_RESTART, or the signal isn't to be delivered any more.
    AsAsked,
    /// Whatever the signal's handler is.
    Always,
}

/// What a call does next.
#[derive(Clone, Copy)]
pub enum Stage {
    /// Copies the piece in.
    Fetch(Piece),
    /// Finds and holds its open file.
    Hold,
    /// Gives the hold back.
    Drop,
    /// Has its effect.
    Effect,
    /// Moves bytes or events between itself and its open file.
    Move,
    /// Reads the clock, or sets its deadline.
    Clock,
    /// Compares the word of a place and queues.
    Queue(Wait),
    /// Moves waiters from one word to another.
    Requeue(Requeue),
    /// Changes a word, and releases waiters at two words.
    WakeOp(WakeOp),
    /// Releases waiters.
    Release(Wake),
    /// Takes a lock that names its owner, or queues for it.
    PiLock(PiLock),
    /// Gives the lock at this address to the first that waits for it.
    PiUnlock(u64),
    /// Is in the futex queue, or was released.
    Wait,
    /// Has places in the futex queue, or some were released or one was refused.
    WaitMany,
    /// Waits for a lock that names its owner, or was given it.
    PiWait,
    /// Waits for its deadline or a signal.
    Rest,
    /// Lets its child start.
    Start,
    /// Marks the word of a robust futex.
    Mark(Mark),
    /// Copies the piece out.
    Store(Piece),
    /// Begins the death of its thread.
    Leave,
    /// Ends the death of its thread.
    Gone,
    /// Ends the guest by SIGSEGV.
    Kill,
    /// Puts its result into x0.
    Return,
}
