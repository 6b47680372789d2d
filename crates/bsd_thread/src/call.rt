//! The call that a thread is in.
ghost use Rattle.std.specs.Prelude.{◌≡◌, ◌<◌, ◌≤◌, ◌+◌, ◌^◌, IfOk, length, replicate};
ghost use Rattle.bsd_thread.specs.Calls as spec;

use crate::bounded::{Bounded, NoMemory};
use crate::carry::Carry;
use bsd_abi::BsdErrno;
use bsd_proc::{Signal, Target};
use lx_machine::calls::Piece;
use lx_machine::death::Death;
use std::alloc::Global;

/// The transfer buffer: as many bytes as one transfer moves (pipe(2), the capacity of a pipe).
pub type Buffer = Bounded<u8, 65_536>;

/// Pieces of guest memory that a call copies, of which readv(2) has the most.
pub type Pieces = Bounded<Piece, 1024>;

/// The places of a wait at many words.
pub type Places = Bounded<Place, 32>;

/// A place of a wait at many words: the address of its word, and the value that the word is to have.
#[derive(Clone, Copy)]
pub struct Place {
    pub key: u64,
    pub value: u64,
}

/// What a call answers (intro(2)).
#[derive(Clone, Copy)]
pub enum Answer {
    Number(u64),
    Error(BsdErrno),
}

/// A signal that ended a wait, with the list where it was pending.
#[derive(Clone, Copy)]
pub struct Kept {
    pub target: Target,
    pub signal: Signal,
}

/// A call (syscall(2)).
#[derive(Drop)]
pub struct Call {
    pub number: u64,
    pub arguments: [u64; 6],
    /// How many pieces it has fetched.
    pub fetched: u32,
    /// The pieces that it has still to copy.
    pub pieces: Pieces,
    /// The bytes that it has fetched, or has still to store.
    pub bytes: Buffer,
    /// How many bytes it has moved.
    pub moved: u64,
    /// Its open file, as long as it holds one.
    pub held: Option<u32>,
    /// Until when it waits, in microseconds.
    pub deadline: Option<u64>,
    /// The slot of the child that it has reserved and not started.
    pub child: Option<u8>,
    /// How far the death of its thread has come.
    pub death: Option<Death>,
    /// Its answer, once it has one.
    pub answer: Option<Answer>,
    /// The signal that ended its wait.
    pub kept: Option<Kept>,
    /// How many waiters it has woken or moved so far.
    pub counted: u64,
    /// The first word for which it has made a chain busy; while it sleeps, the word at which it looks.
    pub key: u64,
    /// The second word.
    pub to: u64,
    /// How many waiters it is still to wake at the second word.
    pub there: u32,
    /// The waiters that it moves from one word to the other.
    pub carry: Carry,
    /// The places of its wait at many words.
    pub places: Places,
    /// At how many of them it has been queued.
    pub queued: u32,
    /// Why the next of them was refused.
    pub refusal: Option<BsdErrno>,
    /// The tid of the first thread that waits for a lock which names its owner, and whether another follows, as its chain told.
    pub pi_first: Option<(u32, bool)>,
}

impl Call {
    // No call, with room for all that one can need.
    pub(crate) fn make(alloc: Global) -> Result<Call, NoMemory>
        ensures { IfOk result (λ call. call ≡ spec.no_call) }
    {
        let pieces = Bounded::make(alloc)?;
        let bytes = Bounded::make(alloc)?;
        let places = Bounded::make(alloc)?;
        Ok(Call {
            number: 0,
            arguments: [0; 6],
            fetched: 0,
            pieces,
            bytes,
            moved: 0,
            held: None,
            deadline: None,
            child: None,
            death: None,
            answer: None,
            kept: None,
            counted: 0,
            key: 0,
            to: 0,
            there: 0,
            carry: Carry::empty(),
            places,
            queued: 0,
            refusal: None,
            pi_first: None,
        })
    }

    /// A new call of this number with these arguments, of which nothing has been done; nothing of the old one is left.
    pub fn enter(&mut self, number: u64, arguments: [u64; 6])
        ensures { self.new ≡ spec.fresh number arguments }
    {
        self.number = number;
        self.arguments = arguments;
        self.fetched = 0;
        self.pieces.clear();
        self.bytes.clear();
        self.moved = 0;
        self.held = None;
        self.deadline = None;
        self.child = None;
        self.death = None;
        self.answer = None;
        self.kept = None;
        self.counted = 0;
        self.key = 0;
        self.to = 0;
        self.there = 0;
        self.carry.clear();
        self.places.clear();
        self.queued = 0;
        self.refusal = None;
        self.pi_first = None;
    }

    /// The low 32 bits of an argument.
    pub fn low_argument(&self, at: usize) -> u32
        requires { at < 6 }
        ensures { result ≡ spec.low_argument self.now at }
    {
        (self.arguments[at] % (1 << 32)) as u32
    }

    /// Has these pieces to copy, and no others. There is room for 1024.
    pub fn copy_next(&mut self, pieces: &[Piece])
        requires { length pieces.now ≤ 1024 }
        ensures { self.new ≡ spec.copies self.old pieces.now }
    {
        self.pieces.set(pieces);
    }

    /// Is refused, if there is an error, and else has these pieces to fetch. There is room for 1024.
    pub fn refuse_or_copy(&mut self, refusal: Option<BsdErrno>, pieces: &[Piece])
        requires { length pieces.now ≤ 1024 }
        ensures { self.new ≡ spec.refuses_or_copies self.old refusal pieces.now }
    {
        match refusal {
            Some(error) => self.refuse(error),
            None => self.copy_next(pieces),
        }
    }

    /// The call has this answer, and nothing to store.
    pub fn answer(&mut self, answer: Answer)
        ensures { self.new ≡ spec.answers self.old answer }
    {
        self.answer = Some(answer);
        self.pieces.clear();
        self.bytes.clear();
    }

    /// The call is refused (errno(2)).
    pub fn refuse(&mut self, error: BsdErrno)
        ensures { self.new ≡ spec.refuses self.old error }
    {
        self.answer(Answer::Error(error));
    }

    /// The call has this answer, and these bytes to store into these pieces. There is room for 65,536 and 1024.
    pub fn answer_with(&mut self, answer: Answer, pieces: &[Piece], bytes: &[u8])
        requires pieces { length pieces.now ≤ 1024 }
        requires bytes { length bytes.now ≤ 65_536 }
        ensures { self.new ≡ spec.answers_with self.old answer pieces.now bytes.now }
    {
        self.answer = Some(answer);
        self.pieces.set(pieces);
        self.bytes.set(bytes);
    }

    /// The bytes of the first piece have come, and stand behind the others. They have to fit.
    pub fn fetch(&mut self, bytes: &[u8])
        requires room { length self.old.bytes + length bytes.now ≤ 65_536 }
        requires few { self.old.fetched + 1 < 2 ^ 32 }
        ensures { self.new ≡ spec.has_fetched self.old bytes.now }
    {
        let _ = self.bytes.append(bytes);
        self.pass_fetched();
    }

    /// The bytes of the first piece, which has been fetched, stand in the buffer already.
    pub fn pass_fetched(&mut self)
        requires { self.old.fetched + 1 < 2 ^ 32 }
        ensures { self.new ≡ spec.passes_fetched self.old }
    {
        self.fetched += 1;
        self.pieces.drop_first(1);
    }

    /// The first piece has been stored: so many bytes are let go with it, or all where there are fewer.
    pub fn pass_stored(&mut self, len: usize)
        ensures { self.new ≡ spec.has_stored self.old len }
    {
        self.pieces.drop_first(1);
        self.bytes.drop_first(len);
    }
}
