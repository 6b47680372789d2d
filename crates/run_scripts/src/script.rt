//! What a script says.

/// Standard output or standard error of a guest.
#[derive(Clone, Copy)]
pub enum Side {
    Out,
    Err,
}

/// A register of a thread: x0 to x30 by its number, the stack pointer, or the program counter.
#[derive(Clone, Copy)]
pub enum Register {
    X(u8),
    Sp,
    Pc,
}

/// How a guest ends: by an exit with a code, by a signal, or not at all, since no thread has a step.
#[derive(Clone, Copy, PartialEq, Eq)]
pub enum End {
    Exit(u8),
    Signal(u8),
    Standstill,
}

/// The list in which a pending signal stands: the thread's own, or the one that all threads share.
#[derive(Clone, Copy)]
pub enum Pending {
    Own,
    Shared,
}

/// A signal by its number, and the list in which it is pending.
#[derive(Clone, Copy)]
pub struct Sent {
    pub list: Pending,
    pub signal: u8,
}

/// A step of a thread, by the name of its label.
#[derive(Clone, Copy)]
pub enum Step {
    Instr,
    Fetch,
    Store,
    Hold,
    Drop,
    Effect,
    /// An effect for which memory runs short.
    EffectShort,
    Move,
    Clock,
    Queue,
    Requeue,
    WakeOp,
    Mark,
    Release,
    PiLock,
    PiUnlock,
    Resume,
    Expire,
    Interrupt(Sent),
    Start,
    Leave,
    Gone,
    Return,
    /// A return that takes a signal.
    ReturnTaking(Sent),
    Take(Sent),
    Frame,
    Kill,
}

/// What a thread is to do, or what has to hold of it.
#[derive(Clone, Copy)]
pub enum Deed {
    /// It takes steps until it has entered the call of this number; it leaves the one that it is in.
    Enters(u64),
    /// It takes so many steps.
    Steps(u64),
    /// It takes steps until it has none.
    Rests,
    /// It has no step.
    Stuck,
    /// It takes the step of this name.
    Takes(Step),
    /// It has no step of this name.
    Lacks(Step),
    /// Its call takes its steps, and answers this.
    Answers(i64),
    /// Its call has only to return, and returns this.
    Due(i64),
    /// A register has this value.
    Has(Register, u64),
    /// Its call is to be done by this time, in microseconds.
    Deadline(u64),
    /// Its exclusive mark stands on the granule of this address.
    Marks(u64),
    /// It has no exclusive mark.
    Unmarked,
    /// It has this tid.
    Tid(u32),
    /// It blocks these signals, signal n as bit n - 1.
    Blocks(u64),
    /// It is there.
    Lives,
    /// There is no thread in this slot.
    Absent,
}

/// What comes next, or what has to hold.
#[derive(Drop)]
pub enum Statement {
    /// Of the thread in a slot.
    Thread(u8, Deed),
    /// The clock is set, in microseconds.
    Time(u64),
    /// The clock can't be set so.
    NoTime(u64),
    /// So many bytes are drained from a console room.
    Drain(Side, u64),
    /// All threads go on, and the guest comes to this end.
    Run(End),
    /// The guest has ended so.
    Ended(End),
    /// The guest has not ended.
    GoesOn,
    /// The 4 bytes at an address, as a number.
    Word(u64, u32),
    /// The 8 bytes at an address, as a number.
    Doubleword(u64, u64),
    /// The bytes from an address on.
    Bytes(u64, Vec<u8>),
    /// The byte at an address can't be read.
    Unreadable(u64),
    /// The bytes that a console room holds.
    Room(Side, Vec<u8>),
    /// How many bytes a console room holds.
    RoomHolds(Side, u64),
    /// All bytes that the guest has written there.
    Wrote(Side, Vec<u8>),
    /// How many bytes the guest has written there.
    WroteBytes(Side, u64),
    /// How many labels the run has had.
    Labels(u64),
}

/// A statement, and the number of its line, from 1 on.
#[derive(Drop)]
pub struct Line {
    pub number: usize,
    pub statement: Statement,
}

/// The order in which all threads go on.
#[derive(Clone, Copy)]
pub enum Turns {
    /// Rounds over all threads.
    Rounds,
    /// The order of a seed.
    Seed(u64),
}

/// A play of a guest from its start: once in rounds, or once for each seed from 1 to a last one.
#[derive(Drop)]
pub struct Play {
    pub seeds: Option<u64>,
    pub lines: Vec<Line>,
}

/// The rules by which a guest runs, by their number.
#[derive(Clone, Copy)]
pub enum Rules {
    One,
    Two,
}

/// A guest: its rules, its code, its name and arguments, what it can read, and its plays.
#[derive(Drop)]
pub struct Guest {
    pub rules: Rules,
    pub code: Vec<u32>,
    pub words: Vec<String>,
    pub input: Vec<u8>,
    pub plays: Vec<Play>,
}

/// A script: guests, which are played one after the other, and the rules of a guest that would come next.
#[derive(Drop)]
pub struct Script {
    pub rules: Rules,
    pub guests: Vec<Guest>,
}
