//! The queue of locks that name their owner (futex(2), FUTEX_LOCK_PI).
ghost use Rattle.std.specs.Prelude.{◌≡◌, ◌≤◌, ◌∷◌, ◌++◌, [], length, position, OnOk, OnErr};
ghost use Rattle.lx_machine.specs.PiQueue.{first_pi, has_pi_at, is_pi_at, is_pi_queued, without_first_pi, without_pi_of};

use crate::buffer::NoMemory;
use crate::state::THREADS;
use crate::threads::PiWaiter;
use arrayvec::ArrayVec;
use std::marker::Model;

/// The waiters for locks in order of queueing, which contracts see as a list.
#[derive(Drop)]
pub struct PiQueue {
    waiters: ArrayVec<PiWaiter, THREADS>,
}

impl Model for PiQueue {
    ghost use Rattle.std.specs.Prelude.{List};
    ghost use Rattle.lx_machine.specs.declared.threads.PiWaiter.{PiWaiter};

    ghost Value = { List PiWaiter };

    ghost view = { λ q. q.waiters.items };
}

// The first waiter for the lock at this address.
fn first_of(at: u64, waiters: &[PiWaiter]) -> Option<PiWaiter>
    ensures { result ≡ first_pi at waiters.now }
{
    for waiter in waiters {
        if waiter.address == at {
            return Some(*waiter);
        }
    }
    None
}

// The place of the first waiter for the lock at this address.
fn place_of(at: u64, waiters: &[PiWaiter]) -> Option<usize>
    ensures { result ≡ position (is_pi_at at) waiters.now }
{
    waiters.iter().position(|waiter| waiter.address == at)
}

// The waiters without those of a thread.
fn retain_others(waiters: &mut ArrayVec<PiWaiter, THREADS>, tid: u32)
    ensures { waiters.new.items ≡ without_pi_of tid waiters.old.items }
{
    waiters.retain(|waiter| waiter.tid != tid);
}

impl PiQueue {
    /// No waiters. Takes no memory.
    pub fn empty() -> PiQueue
        ensures { result ≡ [] }
    {
        PiQueue {
            waiters: ArrayVec::new(),
        }
    }

    /// Whether the thread is queued.
    pub fn has(&self, tid: u32) -> bool
        ensures { result ≡ is_pi_queued tid self.now }
    {
        self.waiters.iter().any(|waiter| waiter.tid == tid)
    }

    /// Whether a waiter is for the lock at this address.
    pub fn has_at(&self, address: u64) -> bool
        ensures { result ≡ has_pi_at address self.now }
    {
        self.waiters.iter().any(|waiter| waiter.address == address)
    }

    /// The first waiter for the lock at this address.
    pub fn first(&self, address: u64) -> Option<PiWaiter>
        ensures { result ≡ first_pi address self.now }
    {
        first_of(address, &self.waiters)
    }

    /// Puts a waiter behind the others. `NoMemory`: as many as there are places for threads are there; then nothing changes.
    pub fn push(&mut self, waiter: PiWaiter) -> Result<(), NoMemory>
        ensures ok { OnOk result (self.new ≡ self.old ++ waiter ∷ []) }
        ensures err { OnErr result (self.new ≡ self.old) }
        ensures full { OnErr result (128 ≤ length self.old) }
    {
        if self.waiters.is_full() {
            return Err(NoMemory);
        }
        self.waiters.push(waiter);
        Ok(())
    }

    /// The thread is queued no more.
    pub fn remove(&mut self, tid: u32)
        ensures { self.new ≡ without_pi_of tid self.old }
    {
        retain_others(&mut self.waiters, tid);
    }

    /// The first waiter for the lock at this address, if there is one, is queued no more.
    #[tactic(auto, using(crate::proofs::Waiters::left_at, crate::proofs::Waiters::none_at))]
    pub fn remove_first(&mut self, address: u64)
        ensures { self.new ≡ without_first_pi address self.old }
    {
        if let Some(place) = place_of(address, &self.waiters) {
            self.waiters.remove(place);
        }
    }
}
