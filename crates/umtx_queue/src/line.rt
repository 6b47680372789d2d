// A chain's line of waiters, with its notes.

ghost use Rattle.std.specs.Prelude.{◌≡◌, ◌≤◌, false, [], ◌∷◌, min, IfOk};
ghost use Rattle.umtx_queue.specs.Lists.{tally};
ghost use Rattle.umtx_queue.specs.Waiters.{who, who_at, is_queued, is_plain_at, matches, AreWaiters, IsWaiter};
ghost use Rattle.umtx_queue.specs.Carries.{IsCarry, AreApart};

use crate::picks::{
    append, drop_notes, drop_notes_of, drop_waiters_of, take_first, told_of, waits, wake_first,
};
use crate::waiter::{Looked, Noted, Waiter};
use arrayvec::ArrayVec;
use std::alloc::{AllocError, Global};
use std::marker::Model;

// How many slots there are.
pub(crate) const SLOTS: usize = 128;

// How many slots and places: each waits once, or has one note.
const ROOM: usize = 4096;

// The waiters of a chain in order of queueing, and its notes in the order made.
#[derive(Drop)]
pub(crate) struct Line {
    waiters: Vec<Waiter>,
    notes: Vec<Noted>,
}

impl Model for Line {
    ghost use Rattle.umtx_queue.specs.Lines.{Line as LineValue};
    ghost use Rattle.umtx_queue.specs.Codes.{coded_line};

    ghost Value = { LineValue };

    ghost coded = { coded_line };

    ghost use Rattle.umtx_queue.specs.Kept.{line_of, IsLine};

    ghost view = { line_of };

    ghost invariant = { IsLine };
}

impl Line {
    ghost use Rattle.umtx_queue.specs.Lines.{empty_line, finds, signalled, taken, carried, joined, removed};

    // Nobody, with room for all that can wait.
    pub(crate) fn make(alloc: Global) -> Result<Line, AllocError>
        ensures { IfOk result (λ line. line ≡ empty_line) }
    {
        let waiters = Vec::with_capacity(alloc, ROOM)?;
        let notes = Vec::with_capacity(alloc, ROOM)?;
        Ok(Line { waiters, notes })
    }

    // What the slot and place finds.
    pub(crate) fn look(&self, slot: u8, place: u8) -> Option<Looked>
        ensures found { result ≡ finds self.now (who_at slot place) }
        ensures waiters { AreWaiters self.now.waiters }
    {
        if waits(&self.waiters, slot, place) {
            Some(Looked::Queued)
        } else {
            told_of(&self.notes, slot, place)
        }
    }

    // The waiter waits behind the others, and has no note.
    pub(crate) fn insert(&mut self, waiter: Waiter)
        requires waiter { IsWaiter waiter }
        requires apart { is_queued (who waiter) self.old.waiters ≡ false }
        ensures { self.new ≡ joined self.old (waiter ∷ []) }
    {
        drop_notes(&mut self.notes, &[waiter]);
        self.waiters.push_reserved(waiter);
    }

    // Takes out all waiters and notes of the slot.
    pub(crate) fn remove(&mut self, slot: u8)
        ensures { self.new ≡ removed self.old slot }
    {
        drop_waiters_of(&mut self.waiters, slot);
        drop_notes_of(&mut self.notes, slot);
    }

    // Wakes the first `n` waiters with this key and one of these bits, and counts them.
    pub(crate) fn signal(&mut self, key: u64, n: u32, bits: u32) -> u32
        ensures line { self.new ≡ signalled self.old key n bits }
        ensures count { result ≡ min n (tally (matches key bits) self.old.waiters) }
    {
        let waiting = self.waiters.len();
        let kept = wake_first(&mut self.waiters, &mut self.notes, key, n, bits);
        self.waiters.truncate(kept);
        (waiting - kept) as u32
    }

    // Takes the first `n` waiters of plain waits with this key out into the carry, with a new key, and counts them.
    pub(crate) fn requeue_out(
        &mut self,
        key: u64,
        n: u32,
        to: u64,
        carry: &mut ArrayVec<Waiter, SLOTS>,
    ) -> u32
        requires { carry.old.items ≡ [] }
        ensures line { self.new ≡ taken self.old key n to }
        ensures carry { carry.new.items ≡ carried self.old key n to }
        ensures fits { IsCarry carry.new.items }
        ensures count { result ≡ min n (tally (is_plain_at key) self.old.waiters) }
    {
        let kept = take_first(&mut self.waiters, &mut self.notes, key, n, to, carry);
        self.waiters.truncate(kept);
        carry.len() as u32
    }

    // The waiters of the carry wait behind the others, and have no note.
    pub(crate) fn requeue_in(&mut self, carry: &mut ArrayVec<Waiter, SLOTS>)
        requires carry { IsCarry carry.old.items }
        requires apart { AreApart carry.old.items self.old.waiters }
        ensures line { self.new ≡ joined self.old carry.old.items }
        ensures carry { carry.new.items ≡ [] }
    {
        drop_notes(&mut self.notes, carry);
        append(&mut self.waiters, carry);
        carry.clear();
    }
}
