//! The state of the Linux machine, all of it.
ghost use Rattle.std.specs.Prelude.{◌≡◌, ◌<◌, ◌≤◌, IfSome, None};

use crate::files::Files;
use crate::pi_queue::PiQueue;
use crate::queue::Queue;
use crate::signals::{Action, Pending};
use crate::space::Space;
use crate::thread_table::Threads;
use crate::threads::GuestEnd;
use std::marker::Model;

/// How many places there are for threads.
pub const THREADS: usize = 128;

/// A place for a thread, which contracts see as its number: below `THREADS`.
#[derive(Clone, Copy)]
pub struct Slot {
    at: u8,
}

impl Model for Slot {
    ghost use Rattle.std.specs.Prelude.{ℕ, ◌<◌};

    ghost Value = { ℕ };

    ghost view = { λ s. s.at };

    ghost inverse = { λ n. record { at = n } };

    ghost invariant = { λ s. s.at < 128 };
}

impl Slot {
    /// The place of this number. `None`: there are no more than `THREADS`.
    pub fn new(number: u8) -> Option<Slot>
        ensures there { IfSome result (λ slot. slot ≡ number) }
        ensures none { result ≡ None → THREADS ≤ number }
    {
        if usize::from(number) < THREADS {
            Some(Slot { at: number })
        } else {
            None
        }
    }

    /// Its number.
    pub fn number(self) -> u8
        ensures value { result ≡ self }
        ensures below { result < THREADS }
    {
        self.at
    }

    /// Its number, as an index of the places.
    pub fn index(self) -> usize
        ensures value { result ≡ self }
        ensures below { result < THREADS }
    {
        usize::from(self.at)
    }
}

/// The state: the rules, 1 or 2, places for threads, memory, the one futex queue, the queue for locks that name their owner,
/// files, the actions of signals 1 to 64, the pending signals of the process, the clock in microseconds, the tid that the next
/// thread gets, and the end once the guest has ended.
#[derive(Drop)]
pub struct LinuxState {
    pub rules: u8,
    pub threads: Threads,
    pub space: Space,
    pub queue: Queue,
    pub pi_queue: PiQueue,
    pub files: Files,
    pub actions: [Action; 64],
    pub pending: Pending,
    pub clock: u64,
    pub next_tid: u32,
    pub end: Option<GuestEnd>,
}
