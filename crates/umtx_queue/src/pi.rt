// A chain's line of waiters for locks that name their owner.

ghost use Rattle.std.specs.Prelude.{◌≡◌, ◌<◌, true, false, not, ◌==◌, [], ◌∷◌, length, slice_index_or, IfOk, vec_capacity};
ghost use Rattle.std.specs.List.{filter, list_any, remove};
ghost use Rattle.umtx_queue.specs.Lists.{first_of as first_of_those, without_first};
ghost use Rattle.umtx_queue.specs.declared.pi.PiWaiter.{PiWaiter as AWaiter};
ghost use Rattle.umtx_queue.specs.PiLines.{pi_is_of, pi_is_queued, pi_has_key, pi_first_of};

use crate::waiter::Looked;
use std::alloc::{AllocError, Global};
use std::marker::Model;

// How many slots there are: each waits once, or was woken.
const ROOM: usize = 128;

/// A thread that waits for a lock that names its owner (FreeBSD `UMUTEX_PRIO_INHERIT`).
#[derive(Clone, Copy)]
pub struct PiWaiter {
    /// The slot of the thread, below 128.
    pub slot: u8,
    /// Its tid, which the lock's word is to name.
    pub tid: u32,
    /// The address of the word.
    pub key: u64,
}

// The waiters in order of waiting, and the slots that were woken.
#[derive(Drop)]
pub(crate) struct PiLine {
    waiters: Vec<PiWaiter>,
    woken: Vec<u8>,
}

impl Model for PiLine {
    ghost use Rattle.umtx_queue.specs.PiLines.{PiLine as PiLineValue};
    ghost use Rattle.umtx_queue.specs.Codes.{coded_pi_line};

    ghost Value = { PiLineValue };

    ghost coded = { coded_pi_line };

    ghost use Rattle.umtx_queue.specs.Kept.{pi_line_of, IsPiLine};

    ghost view = { pi_line_of };

    ghost invariant = { IsPiLine };
}

// Whether the slot waits.
fn waits(waiters: &[PiWaiter], slot: u8) -> bool
    ensures { result ≡ pi_is_queued slot waiters.now }
{
    waiters.iter().any(|waiter| waiter.slot == slot)
}

// Whether a waiter has this key.
fn any_waits_at(waiters: &[PiWaiter], key: u64) -> bool
    ensures { result ≡ list_any (pi_has_key key) waiters.now }
{
    waiters.iter().any(|waiter| waiter.key == key)
}

// Whether the slot was woken.
fn was_woken(woken: &[u8], slot: u8) -> bool
    ensures { result ≡ list_any (λ x. x == slot) woken.now }
{
    woken.iter().any(|other| *other == slot)
}

// The tid of the first waiter with this key, and whether another with it follows.
fn first_of(waiters: &[PiWaiter], key: u64) -> Option<(u32, bool)>
    ensures { result ≡ pi_first_of key waiters.now }
{
    let mut left = waiters;
    while let [waiter, rest @ ..] = left {
        if waiter.key == key {
            return Some((waiter.tid, any_waits_at(rest, key)));
        }
        left = rest;
    }
    None
}

// The place of the first waiter with this key. There is one.
fn place_of(waiters: &[PiWaiter], key: u64) -> usize
    requires { list_any (pi_has_key key) waiters.now ≡ true }
    ensures below { result < length waiters.now }
    ensures left { remove waiters.now result ≡ without_first (pi_has_key key) 1 waiters.now }
    ensures first { (d : AWaiter) → first_of_those (pi_has_key key) 1 waiters.now ≡ slice_index_or waiters.now result d ∷ [] }
{
    let mut at = 0;
    while at + 1 < waiters.len() && waiters[at].key != key {
        at += 1;
    }
    at
}

// Drops the mark of a slot that it was woken.
fn drop_woken(woken: &mut Vec<u8>, slot: u8)
    ensures items { woken.new.items ≡ filter (λ x. not (x == slot)) woken.old.items }
    ensures capacity { vec_capacity woken.new ≡ vec_capacity woken.old }
{
    woken.retain(|other| *other != slot);
}

// Drops the waiters of a slot.
fn drop_waiters_of(waiters: &mut Vec<PiWaiter>, slot: u8)
    ensures items { waiters.new.items ≡ filter (λ w. not (pi_is_of slot w)) waiters.old.items }
    ensures capacity { vec_capacity waiters.new ≡ vec_capacity waiters.old }
{
    waiters.retain(|waiter| waiter.slot != slot);
}

impl PiLine {
    ghost use Rattle.umtx_queue.specs.PiLines.{empty_pi_line, pi_finds, pi_joined, pi_handed, pi_removed, ArePiWaiters};

    // Nobody, with room for all that can wait.
    pub(crate) fn make(alloc: Global) -> Result<PiLine, AllocError>
        ensures { IfOk result (λ line. line ≡ empty_pi_line) }
    {
        let waiters = Vec::with_capacity(alloc, ROOM)?;
        let woken = Vec::with_capacity(alloc, ROOM)?;
        Ok(PiLine { waiters, woken })
    }

    // What the slot finds.
    pub(crate) fn look(&self, slot: u8) -> Option<Looked>
        ensures found { result ≡ pi_finds self.now slot }
        ensures waiters { ArePiWaiters self.now.waiters }
    {
        if waits(&self.waiters, slot) {
            Some(Looked::Queued)
        } else if was_woken(&self.woken, slot) {
            Some(Looked::Woken)
        } else {
            None
        }
    }

    // The tid of the first waiter with this key, and whether another with it follows.
    pub(crate) fn first(&self, key: u64) -> Option<(u32, bool)>
        ensures { result ≡ pi_first_of key self.now.waiters }
    {
        first_of(&self.waiters, key)
    }

    // The waiter waits behind the others, and was not woken.
    pub(crate) fn insert(&mut self, waiter: PiWaiter)
        requires slot { waiter.slot < 128 }
        requires apart { pi_is_queued waiter.slot self.old.waiters ≡ false }
        ensures { self.new ≡ pi_joined self.old waiter }
    {
        drop_woken(&mut self.woken, waiter.slot);
        self.waiters.push_reserved(waiter);
    }

    // The first waiter with this key was woken.
    pub(crate) fn hand(&mut self, key: u64)
        requires { list_any (pi_has_key key) self.old.waiters ≡ true }
        ensures { self.new ≡ pi_handed self.old key }
    {
        let at = place_of(&self.waiters, key);
        let first = self.waiters.remove(at);
        self.woken.push_reserved(first.slot);
    }

    // Takes out the slot's waiter, and that it was woken.
    pub(crate) fn remove(&mut self, slot: u8)
        ensures { self.new ≡ pi_removed self.old slot }
    {
        drop_waiters_of(&mut self.waiters, slot);
        drop_woken(&mut self.woken, slot);
    }
}
