//! What a machine offers to a script, in the guest's terms.
use crate::script::{End, Guest, Register, Side, Step, Turns};
use std::alloc::{AllocError, Global};

/// The call that a thread is in: its number, what it returns where it has only to return, and its deadline in microseconds.
#[derive(Clone, Copy)]
pub struct InCall {
    pub number: u64,
    pub due: Option<u64>,
    pub deadline: Option<u64>,
}

/// A thread, as a script sees it: its tid, the signals that it blocks, the address of its exclusive mark's granule, and its
/// call.
#[derive(Clone, Copy)]
pub struct ThreadSeen {
    pub tid: u32,
    pub blocked: u64,
    pub marked: Option<u64>,
    pub call: Option<InCall>,
}

/// Why a guest doesn't start.
#[derive(Clone, Copy)]
pub enum NoStart {
    /// Memory is wanting.
    NoMemory,
    /// The machine refuses the program.
    Refused,
}

/// A machine on which scripts are played. Each step has one label, and those that were taken are counted.
pub trait Playable: Drop {
    /// The guest of a script, at its start.
    fn start(alloc: Global, guest: &Guest) -> Result<Self, NoStart>;

    /// A step of the thread in this slot, which the machine's player chooses. `false`: it has none, or there is no thread.
    fn step(&mut self, alloc: Global, slot: u8) -> Result<bool, AllocError>;

    /// The step of this name. `false`: there is none.
    fn take(&mut self, alloc: Global, slot: u8, step: Step) -> Result<bool, AllocError>;

    /// The clock is set, in microseconds. `false`: it can't be set so.
    fn set_time(&mut self, alloc: Global, time: u64) -> Result<bool, AllocError>;

    /// So many bytes leave a console room. `false`: it doesn't hold them.
    fn drain(&mut self, alloc: Global, side: Side, count: u64) -> Result<bool, AllocError>;

    /// All threads go on in this order, up to the end of the guest or until no thread has a step. `None`: neither comes, within
    /// the steps that a run has.
    fn run(&mut self, alloc: Global, turns: Turns) -> Result<Option<End>, AllocError>;

    /// How many labels were taken.
    fn labels(&self) -> u64;

    /// How the guest has ended, once it has.
    fn end(&self) -> Option<End>;

    /// The thread in this slot.
    fn thread(&self, slot: u8) -> Option<ThreadSeen>;

    /// A register of the thread in this slot.
    fn register(&self, slot: u8, register: Register) -> Option<u64>;

    /// Loads the bytes from an address on, where the guest may read them.
    fn load(&self, at: u64, bytes: &mut [u8]) -> bool;

    /// The bytes that a console room holds.
    fn room(&self, side: Side) -> &[u8];

    /// All bytes that the guest has written there.
    fn written(&self, side: Side) -> &[u8];
}
