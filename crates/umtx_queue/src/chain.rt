// A chain, with all its calls.

ghost use Rattle.std.specs.Prelude.{◌≡◌, ◌<◌, true, false, [], ◌∷◌, min, IfOk, Some, None};
ghost use Rattle.std.specs.Bool.{OnTrue, OnFalse};
ghost use Rattle.std.specs.List.{list_any};
ghost use Rattle.umtx_queue.specs.Lists.{tally};
ghost use Rattle.umtx_queue.specs.Waiters.{who, who_at, is_queued, is_plain_at, matches, AreWaiters, IsWaiter};
ghost use Rattle.umtx_queue.specs.Carries.{IsCarry, AreApart};

use crate::line::{Line, SLOTS};
use crate::pi::{PiLine, PiWaiter};
use crate::waiter::{Looked, Waiter};
use arrayvec::ArrayVec;
use std::alloc::{AllocError, Global};
use std::marker::Model;

/// There is no memory for the room of a chain.
#[derive(Clone, Copy, Debug, PartialEq, Eq)]
pub struct NoMemory;

/// One of FreeBSD's umtx queues: the slot that has made it busy, its waiters in order of queueing with a note for each slot and
/// place that has left, and a second line of waiters, for locks that name their owner, with notes of its own. Contracts see it as a
/// `ChainState` (`specs/Chains.antt`). Slots are below 128. Only `make` takes memory. The second line lies behind a pointer, so that
/// a chain, which has 64 bytes, is cheap to move.
#[derive(Drop)]
pub struct Chain {
    marked: Option<u8>,
    line: Line,
    pi: Box<PiLine>,
}

impl Model for Chain {
    ghost use Rattle.umtx_queue.specs.Chains.{ChainState};
    ghost use Rattle.umtx_queue.specs.Codes.{coded_chain};

    ghost Value = { ChainState };

    ghost coded = { coded_chain };

    ghost view = { λ c. record { marked = c.marked; line = c.line; pi = c.pi.value } };
}

impl Chain {
    ghost use Rattle.umtx_queue.specs.Lines.{finds, signalled, taken, carried, joined, removed};
    ghost use Rattle.umtx_queue.specs.PiLines.{pi_finds, pi_first_of, pi_has_key, pi_handed, pi_is_queued, pi_joined, pi_removed, ArePiWaiters};
    ghost use Rattle.umtx_queue.specs.Chains.{empty_chain, is_free_for};

    /// A chain that is not busy, with nobody waiting and nothing noted, and with room for all that can wait: 4096 waiters, one for
    /// each slot and place. `NoMemory` where there is no memory for it.
    pub fn make(alloc: Global) -> Result<Chain, NoMemory>
        ensures { IfOk result (λ chain. chain ≡ empty_chain) }
    {
        let Ok(line) = Line::make(alloc) else {
            return Err(NoMemory);
        };
        let Ok(pi) = PiLine::make(alloc) else {
            return Err(NoMemory);
        };
        let Ok(pi) = Box::new(alloc, pi) else {
            return Err(NoMemory);
        };
        Ok(Chain {
            marked: None,
            line,
            pi,
        })
    }

    /// Makes the chain busy by the slot. False exactly where another slot's mark stands; then nothing changes.
    pub fn busy(&mut self, slot: u8) -> bool
        ensures answer { result ≡ is_free_for slot self.old.marked }
        ensures marked { OnTrue result (self.new ≡ record self.old { marked = Some slot }) }
        ensures refused { OnFalse result (self.new ≡ self.old) }
    {
        match self.marked {
            Some(other) if other != slot => false,
            _ => {
                self.marked = Some(slot);
                true
            }
        }
    }

    /// Ends the slot's own mark, which stands.
    pub fn unbusy(&mut self, slot: u8)
        requires { self.old.marked ≡ Some slot }
        ensures { self.new ≡ record self.old { marked = None } }
    {
        self.marked = None;
    }

    /// The slot whose mark stands; `None` exactly where none does.
    pub fn marked_by(&self) -> Option<u8>
        ensures { result ≡ self.now.marked }
    {
        self.marked
    }

    /// The waiter waits behind the others, and has no note any more. Its slot and place isn't queued here.
    pub fn insert(&mut self, waiter: Waiter)
        requires waiter { IsWaiter waiter }
        requires apart { is_queued (who waiter) self.old.line.waiters ≡ false }
        ensures { self.new ≡ record self.old { line = joined self.old.line (waiter ∷ []) } }
    {
        self.line.insert(waiter);
    }

    /// Takes out all waiters and notes of the slot, and changes nothing where there are none. The second line stays.
    pub fn remove(&mut self, slot: u8)
        ensures { self.new ≡ record self.old { line = removed self.old.line slot } }
    {
        self.line.remove(slot);
    }

    /// Wakes the first `n` waiters with this key and a common bit, or as many as there are, and answers how many it woke: each is
    /// taken out and noted as woken.
    pub fn signal(&mut self, key: u64, n: u32, bits: u32) -> u32
        ensures line { self.new ≡ record self.old { line = signalled self.old.line key n bits } }
        ensures count { result ≡ min n (tally (matches key bits) self.old.line.waiters) }
    {
        self.line.signal(key, n, bits)
    }

    /// Takes the first `n` waiters of plain waits with this key, or as many as there are, out into the empty carry, and answers how
    /// many it took: each gets the key `to`, and is noted as moved to it.
    pub fn requeue_out(
        &mut self,
        key: u64,
        n: u32,
        to: u64,
        carry: &mut ArrayVec<Waiter, SLOTS>,
    ) -> u32
        requires { carry.old.items ≡ [] }
        ensures line { self.new ≡ record self.old { line = taken self.old.line key n to } }
        ensures carry { carry.new.items ≡ carried self.old.line key n to }
        ensures fits { IsCarry carry.new.items }
        ensures count { result ≡ min n (tally (is_plain_at key) self.old.line.waiters) }
    {
        self.line.requeue_out(key, n, to, carry)
    }

    /// The waiters of the carry wait behind the others, and have no note any more. None of their slots and places is queued here.
    /// Leaves the carry empty.
    pub fn requeue_in(&mut self, carry: &mut ArrayVec<Waiter, SLOTS>)
        requires carry { IsCarry carry.old.items }
        requires apart { AreApart carry.old.items self.old.line.waiters }
        ensures line { self.new ≡ record self.old { line = joined self.old.line carry.old.items } }
        ensures carry { carry.new.items ≡ [] }
    {
        self.line.requeue_in(carry);
    }

    /// What the slot and place finds: that it waits, or its note; `None` exactly where there is neither.
    pub fn look(&self, slot: u8, place: u8) -> Option<Looked>
        ensures found { result ≡ finds self.now.line (who_at slot place) }
        ensures waiters { AreWaiters self.now.line.waiters }
    {
        self.line.look(slot, place)
    }

    /// The waiter waits behind the others of the second line, and was not woken. Its slot isn't there.
    pub fn pi_insert(&mut self, waiter: PiWaiter)
        requires slot { waiter.slot < 128 }
        requires apart { pi_is_queued waiter.slot self.old.pi.waiters ≡ false }
        ensures { self.new ≡ record self.old { pi = pi_joined self.old.pi waiter } }
    {
        self.pi.insert(waiter);
    }

    /// The tid of the second line's first waiter with this key, and whether another with it follows; `None` exactly where there is
    /// none.
    pub fn pi_first(&self, key: u64) -> Option<(u32, bool)>
        ensures { result ≡ pi_first_of key self.now.pi.waiters }
    {
        self.pi.first(key)
    }

    /// Wakes the second line's first waiter with this key. There is one.
    pub fn pi_hand(&mut self, key: u64)
        requires { list_any (pi_has_key key) self.old.pi.waiters ≡ true }
        ensures { self.new ≡ record self.old { pi = pi_handed self.old.pi key } }
    {
        self.pi.hand(key);
    }

    /// What the slot finds in the second line: that it waits, or that it was woken; `None` exactly where there is neither.
    pub fn pi_look(&self, slot: u8) -> Option<Looked>
        ensures found { result ≡ pi_finds self.now.pi slot }
        ensures waiters { ArePiWaiters self.now.pi.waiters }
    {
        self.pi.look(slot)
    }

    /// Takes out the slot's waiter of the second line, and its note there.
    pub fn pi_remove(&mut self, slot: u8)
        ensures { self.new ≡ record self.old { pi = pi_removed self.old.pi slot } }
    {
        self.pi.remove(slot);
    }
}
