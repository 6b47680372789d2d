//! The futex queue (futex(2), futex_waitv(2)).
ghost use Rattle.std.specs.Prelude.{◌≡◌, ◌≤◌, ◌+◌, ◌++◌, ◌∷◌, ◌&&◌, [], nat_lt, length, map, take, vec_len, vec_capacity, IfOk, OnOk, OnErr};
ghost use Rattle.lx_machine.specs.Queue.{after_requeue, all_bits, is_place_queued, is_plain_at, is_queued, leaving, matches, moved_to, moving, released, waiters_moved, without_first, without_waiters_of};

use crate::buffer::NoMemory;
use crate::threads::LxWaiter;
use linux_abi::futexes::FUTEX_BITSET_MATCH_ANY;
use std::alloc::Global;
use std::marker::Model;

/// How many waiters there can be: each of the 128 threads waits at no more than 32 places.
pub const WAITERS: usize = 4096;

/// The one futex queue in order of queueing, which contracts see as a list. Only `make` takes memory.
#[derive(Drop)]
pub struct Queue {
    waiters: Vec<LxWaiter>,
    // Where a requeue puts those that move, until they stand behind the others.
    moving: Vec<LxWaiter>,
}

impl Model for Queue {
    ghost use Rattle.std.specs.Prelude.{List, length, vec_capacity};
    ghost use Rattle.lx_machine.specs.Queue.{HaveRoom};
    ghost use Rattle.lx_machine.specs.declared.threads.LxWaiter.{LxWaiter};

    ghost Value = { List LxWaiter };

    ghost view = { λ q. q.waiters.items };

    ghost invariant = { λ q. HaveRoom (length q.waiters.items) (vec_capacity q.waiters) (vec_capacity q.moving) };
}

/// How many waiters a requeue releases, and how many it moves.
#[derive(Clone, Copy)]
pub struct Requeued {
    pub released: u32,
    pub moved: u32,
}

// Whether the waiter is at this address and has one of these bits.
fn matches(at: u64, bits: u32, waiter: LxWaiter) -> bool
    ensures { result ≡ matches at bits waiter }
{
    waiter.address == at && waiter.bits & bits != 0
}

// Whether the waiter is a plain wait at this address.
fn is_plain_at(at: u64, waiter: LxWaiter) -> bool
    ensures { result ≡ is_plain_at at waiter }
{
    waiter.address == at && !waiter.many
}

// The waiter, at another address.
fn moved_to(to: u64, waiter: LxWaiter) -> LxWaiter
    ensures { result ≡ moved_to to waiter }
{
    LxWaiter {
        address: to,
        ..waiter
    }
}

// Whether a waiter is picked, of which `left` more are to be.
fn picks(left: u32, passes: bool) -> bool
    ensures { result ≡ (nat_lt 0 left && passes) }
{
    left > 0 && passes
}

// Lets the first waiters that match go, and puts the others in their places. Answers how many these are.
fn release_first(waiters: &mut [LxWaiter], at: u64, most: u32, bits: u32) -> usize
    ensures left { take result waiters.new ≡ released at most bits waiters.old }
    ensures count { length (leaving at most bits waiters.old) + result ≡ length waiters.old }
{
    let mut left = most;
    let mut kept = 0;
    for place in 0..waiters.len() {
        let waiter = waiters[place];
        if picks(left, matches(at, bits, waiter)) {
            left -= 1;
        } else {
            waiters[kept] = waiter;
            kept += 1;
        }
    }
    kept
}

// Puts the first plain waits at an address into `moved`, with their new address, and the others in their places. Answers how many
// these are.
fn move_first(
    waiters: &mut [LxWaiter],
    moved: &mut Vec<LxWaiter>,
    from: u64,
    to: u64,
    most: u32,
) -> usize
    requires room { length waiters.old + vec_len moved.old ≤ vec_capacity moved.old }
    requires empty { moved.old.items ≡ [] }
    ensures left { take result waiters.new ≡ without_first most (is_plain_at from) waiters.old }
    ensures moved { moved.new.items ≡ map (moved_to to) (moving from most waiters.old) }
    ensures count { length (moving from most waiters.old) + result ≡ length waiters.old }
    ensures capacity { vec_capacity moved.new ≡ vec_capacity moved.old }
{
    let mut left = most;
    let mut kept = 0;
    for place in 0..waiters.len() {
        let waiter = waiters[place];
        if picks(left, is_plain_at(from, waiter)) {
            moved.push_reserved(moved_to(to, waiter));
            left -= 1;
        } else {
            waiters[kept] = waiter;
            kept += 1;
        }
    }
    kept
}

// Puts waiters behind the others.
fn append(waiters: &mut Vec<LxWaiter>, more: &[LxWaiter])
    requires { vec_len waiters.old + length more.now ≤ vec_capacity waiters.old }
    ensures items { waiters.new.items ≡ waiters.old.items ++ more.now }
    ensures capacity { vec_capacity waiters.new ≡ vec_capacity waiters.old }
{
    for waiter in more {
        waiters.push_reserved(*waiter);
    }
}

// The waiters without those of a thread.
fn retain_others(waiters: &mut Vec<LxWaiter>, tid: u32)
    ensures items { waiters.new.items ≡ without_waiters_of tid waiters.old.items }
    ensures capacity { vec_capacity waiters.new ≡ vec_capacity waiters.old }
{
    waiters.retain(|waiter| waiter.tid != tid);
}

impl Queue {
    /// No waiters, with room for all that can be. `NoMemory` where there is no memory for it.
    pub fn make(alloc: Global) -> Result<Queue, NoMemory>
        ensures { IfOk result (λ queue. queue ≡ []) }
    {
        let Ok(waiters) = Vec::with_capacity(alloc, WAITERS) else {
            return Err(NoMemory);
        };
        let Ok(moving) = Vec::with_capacity(alloc, WAITERS) else {
            return Err(NoMemory);
        };
        Ok(Queue { waiters, moving })
    }

    /// Whether the thread is queued.
    pub fn has(&self, tid: u32) -> bool
        ensures { result ≡ is_queued tid self.now }
    {
        self.waiters.iter().any(|waiter| waiter.tid == tid)
    }

    /// Whether this place of the thread's wait is queued.
    pub fn has_place(&self, tid: u32, place: u32) -> bool
        ensures { result ≡ is_place_queued tid place self.now }
    {
        self.waiters
            .iter()
            .any(|waiter| waiter.tid == tid && waiter.place == place)
    }

    /// Puts a waiter behind the others. `NoMemory`: all that can be are there; then nothing changes.
    pub fn push(&mut self, waiter: LxWaiter) -> Result<(), NoMemory>
        ensures ok { OnOk result (self.new ≡ self.old ++ waiter ∷ []) }
        ensures err { OnErr result (self.new ≡ self.old) }
        ensures full { OnErr result (4096 ≤ length self.old) }
    {
        if self.waiters.len() >= WAITERS {
            return Err(NoMemory);
        }
        self.waiters.push_reserved(waiter);
        Ok(())
    }

    /// The thread is queued no more.
    pub fn remove(&mut self, tid: u32)
        ensures { self.new ≡ without_waiters_of tid self.old }
    {
        retain_others(&mut self.waiters, tid);
    }

    /// Releases the first waiters at an address with one of these bits, and tells how many (futex(2), FUTEX_WAKE_BITSET).
    pub fn release(&mut self, at: u64, most: u32, bits: u32) -> u32
        ensures left { self.new ≡ released at most bits self.old }
        ensures count { result ≡ length (leaving at most bits self.old) }
    {
        let waiting = self.waiters.len();
        let kept = release_first(&mut self.waiters, at, most, bits);
        self.waiters.truncate(kept);
        (waiting - kept) as u32
    }

    // The first plain waits at one address move to another, and to the end of the queue.
    fn move_on(&mut self, from: u64, to: u64, most: u32) -> u32
        ensures left { self.new ≡ waiters_moved from to most self.old }
        ensures count { result ≡ length (moving from most self.old) }
    {
        self.moving.clear();
        let kept = move_first(&mut self.waiters, &mut self.moving, from, to, most);
        self.waiters.truncate(kept);
        append(&mut self.waiters, &self.moving);
        self.moving.len() as u32
    }

    /// Releases the first waiters at one address, and moves the first plain waits of those that are left there to another
    /// (futex(2), FUTEX_REQUEUE).
    pub fn requeue(&mut self, from: u64, to: u64, wakes: u32, moves: u32) -> Requeued
        ensures left { self.new ≡ after_requeue from to wakes moves self.old }
        ensures released { result.released ≡ length (leaving from wakes all_bits self.old) }
        ensures moved { result.moved ≡ length (moving from moves (released from wakes all_bits self.old)) }
    {
        let released = self.release(from, wakes, FUTEX_BITSET_MATCH_ANY);
        let moved = self.move_on(from, to, moves);
        Requeued { released, moved }
    }
}
