//! The waiters that a requeue carries from one chain to another.
ghost use Rattle.std.specs.Prelude.{◌≡◌, [], min};
ghost use Rattle.umtx_queue.specs.Carries.{AreApart};
ghost use Rattle.umtx_queue.specs.Lines.{carried, joined, taken};
ghost use Rattle.umtx_queue.specs.Lists.{tally};
ghost use Rattle.umtx_queue.specs.Waiters.{is_plain_at};

use arrayvec::ArrayVec;
use std::marker::Model;
use umtx_queue::{Chain, Waiter};

// How many waiters can be carried: one for each slot.
const MOST_CARRIED: usize = 128;

/// What a thread carries: waiters of plain waits, of slots that differ, which contracts see as a list.
#[derive(Drop)]
pub struct Carry {
    waiters: ArrayVec<Waiter, MOST_CARRIED>,
}

impl Model for Carry {
    ghost use Rattle.std.specs.Prelude.{List};
    ghost use Rattle.umtx_queue.specs.declared.waiter.Waiter.{Waiter};
    ghost use Rattle.umtx_queue.specs.Carries.{IsCarry};

    ghost Value = { List Waiter };

    ghost view = { λ c. c.waiters.items };

    ghost invariant = { λ c. IsCarry c.waiters.items };
}

impl Carry {
    /// Nobody.
    pub(crate) fn empty() -> Carry
        ensures { result ≡ [] }
    {
        Carry {
            waiters: ArrayVec::new(),
        }
    }

    /// The waiters.
    pub fn as_slice(&self) -> &[Waiter]
        ensures { result.now ≡ self.now }
    {
        self.waiters.as_slice()
    }

    /// Lets all waiters go.
    pub fn clear(&mut self)
        ensures { self.new ≡ [] }
    {
        self.waiters.clear();
    }

    /// Takes the first `n` waiters of plain waits with this key, or as many as there are, out of the chain, and answers how many.
    /// Each gets the key `to`, and is noted as moved to it. Who was carried before is let go.
    pub fn take_out(&mut self, chain: &mut Chain, key: u64, n: u32, to: u64) -> u32
        ensures chain { chain.new ≡ record chain.old { line = taken chain.old.line key n to } }
        ensures carry { self.new ≡ carried chain.old.line key n to }
        ensures count { result ≡ min n (tally (is_plain_at key) chain.old.line.waiters) }
    {
        self.waiters.clear();
        chain.requeue_out(key, n, to, &mut self.waiters)
    }

    /// The waiters that are carried wait in the chain behind the others, and have no note there any more. None of their slots and
    /// places is queued there. Leaves nobody.
    pub fn put_in(&mut self, chain: &mut Chain)
        requires { AreApart self.old chain.old.line.waiters }
        ensures chain { chain.new ≡ record chain.old { line = joined chain.old.line self.old } }
        ensures carry { self.new ≡ [] }
    {
        chain.requeue_in(&mut self.waiters);
    }
}
