// The place of a slot.

ghost use Rattle.std.specs.Prelude.{◌≡◌, ◌<◌, ◌≤◌, true, List, [], Option, Some, None, IfOk, IfSome, IsSome, is_none, is_some, option_map};
ghost use Rattle.std.specs.Borrow.{sem};
ghost use Rattle.bsd_abi.specs.BsdSig.{is_real_time};
ghost use Rattle.bsd_proc.specs.Actions.{without_sig};
ghost use Rattle.bsd_proc.specs.Clock.{asks_in, deadline_in, passes_in};
ghost use Rattle.bsd_proc.specs.Lending.{LendsHead};
ghost use Rattle.bsd_proc.specs.Sending.{is_live_in, queued_at, with_added};
ghost use Rattle.bsd_proc.specs.Signals.{first_of, has_unblocked, set_of};
ghost use Rattle.bsd_proc.specs.Slots.{fresh, pending_of, thread_of, with_life, with_asks, with_deadline};
ghost use Rattle.bsd_proc.specs.Taking.{first_ready, may_take, without_first};

use crate::lives::Life;
use crate::pending::Pending;
use crate::signals::Signal;
use bsd_abi::BsdSig;
use std::alloc::{AllocError, Global};
use std::marker::Model;

// What is kept of the thread in a slot, but for its robust list and its pending signals.
#[derive(Clone, Copy)]
struct Brief {
    tid: u32,
    life: Life,
    deadline: Option<u64>,
    asks: bool,
}

// The place of a slot, which contracts see as what is kept of the slot, if it is in use. It keeps the room for pending
// signals while the slot is free.
#[derive(Drop)]
pub(crate) struct Place {
    brief: Option<Brief>,
    robust_head: u64,
    pending: Pending,
}

impl Model for Place {
    ghost use Rattle.std.specs.Prelude.{Option};
    ghost use Rattle.bsd_proc.specs.Slots.{Slot};

    ghost Value = { Option Slot };

    ghost use Rattle.bsd_proc.specs.PlaceFields.{slot_in};

    ghost view = { slot_in };
}

impl Place {
    // A free slot.
    pub(crate) fn make(alloc: Global) -> Result<Place, AllocError>
        ensures { IfOk result (λ place. place ≡ None) }
    {
        let pending = Pending::make(alloc)?;
        Ok(Place {
            brief: None,
            robust_head: 0,
            pending,
        })
    }

    // Whether the slot is free.
    pub(crate) fn is_free(&self) -> bool
        ensures { result ≡ is_none self.now }
    {
        self.brief.is_none()
    }

    // The slot is a new thread's.
    pub(crate) fn occupy(&mut self, tid: u32, life: Life)
        ensures { self.new ≡ Some (fresh tid life) }
    {
        self.brief = Some(Brief {
            tid,
            life,
            deadline: None,
            asks: false,
        });
        self.robust_head = 0;
        self.pending.clear();
    }

    // The slot is free.
    pub(crate) fn free(&mut self)
        ensures { self.new ≡ None }
    {
        self.brief = None;
    }

    // The tid and the life of the slot's thread.
    pub(crate) fn thread(&self) -> Option<(u32, Life)>
        ensures { result ≡ option_map thread_of self.now }
    {
        match &self.brief {
            Some(brief) => Some((brief.tid, brief.life)),
            None => None,
        }
    }

    // Whether the slot's thread lives.
    pub(crate) fn is_live(&self) -> bool
        ensures { result ≡ is_live_in self.now }
    {
        match &self.brief {
            Some(brief) => matches!(brief.life, Life::Live),
            None => false,
        }
    }

    // The slot's thread is in this life.
    pub(crate) fn set_life(&mut self, life: Life)
        ensures { self.new ≡ option_map (with_life life) self.old }
    {
        if let Some(brief) = &mut self.brief {
            brief.life = life;
        }
    }

    // Whether the slot asks for the time.
    pub(crate) fn asks(&self) -> bool
        ensures { result ≡ asks_in self.now }
    {
        match &self.brief {
            Some(brief) => brief.asks,
            None => false,
        }
    }

    // The slot asks for the time, or doesn't.
    pub(crate) fn set_asks(&mut self, asks: bool)
        ensures { self.new ≡ option_map (with_asks asks) self.old }
    {
        if let Some(brief) = &mut self.brief {
            brief.asks = asks;
        }
    }

    // Until when the slot waits.
    pub(crate) fn deadline(&self) -> Option<u64>
        ensures { result ≡ deadline_in self.now }
    {
        match &self.brief {
            Some(brief) => brief.deadline,
            None => None,
        }
    }

    // The slot waits until then.
    pub(crate) fn set_deadline(&mut self, at: Option<u64>)
        ensures { self.new ≡ option_map (with_deadline at) self.old }
    {
        if let Some(brief) = &mut self.brief {
            brief.deadline = at;
        }
    }

    // Whether the slot has a deadline that is above the clock, and passed as that rises to `now`.
    pub(crate) fn is_passed_by(&self, clock: u64, now: u64) -> bool
        ensures { result ≡ passes_in clock now self.now }
    {
        match self.deadline() {
            Some(at) => clock < at && at <= now,
            None => false,
        }
    }

    // The slot's robust list.
    pub(crate) fn robust_head(&self) -> u64
        requires { IsSome self.now }
        ensures { IfSome self.now (λ slot. result ≡ slot.robust_head) }
    {
        self.robust_head
    }

    // Lends the slot's robust list.
    pub(crate) fn robust_head_mut(&mut self) -> &mut u64
        requires { IsSome self.old }
        ensures* writes_back { sem 𝓛 (LendsHead self.entry result) }
        ensures value { IfSome self.old (λ slot. slot.robust_head ≡ result.now) }
    {
        &mut self.robust_head
    }

    // How many real-time signals are pending for the slot alone.
    pub(crate) fn queued(&self) -> usize
        ensures { result ≡ queued_at self.now }
    {
        if self.brief.is_none() {
            return 0;
        }
        self.pending.real_time_count()
    }

    // Adds a signal to those that are pending for the slot alone.
    pub(crate) fn add(&mut self, signal: Signal)
        requires few { queued_at self.old ≤ 64 }
        requires room { is_real_time signal.sig ≡ true → queued_at self.old < 64 }
        ensures { self.new ≡ option_map (with_added signal) self.old }
    {
        if self.brief.is_some() {
            self.pending.add(signal);
        }
    }

    // Takes the first signal of this kind out of those that are pending for the slot alone.
    pub(crate) fn take(&mut self, sig: BsdSig) -> Option<Signal>
        ensures taken { result ≡ first_of sig (pending_of self.old) }
        ensures left { self.new ≡ option_map (without_first sig) self.old }
    {
        if self.brief.is_none() {
            return None;
        }
        self.pending.take(sig)
    }

    // Lets all signals of this kind go.
    pub(crate) fn forget(&mut self, sig: BsdSig)
        ensures { self.new ≡ option_map (without_sig sig) self.old }
    {
        self.pending.forget(sig);
    }

    // The lowest signal that is pending for the slot alone and not blocked.
    #[tactic(auto, using(crate::proofs::Lowest::nothing_ready))]
    pub(crate) fn lowest_unblocked(&self, mask: u128) -> Option<BsdSig>
        ensures lowest { result ≡ first_ready mask (pending_of self.now) }
        ensures may { IfSome result (λ sig. may_take mask (pending_of self.now) sig ≡ true) }
        ensures some { is_some result ≡ has_unblocked mask (pending_of self.now) }
    {
        if self.brief.is_none() {
            return None;
        }
        self.pending.lowest_unblocked(mask)
    }

    // The set of the signals that are pending for the slot alone.
    pub(crate) fn bits(&self) -> u128
        ensures { result ≡ set_of (pending_of self.now) }
    {
        if self.brief.is_none() {
            return 0;
        }
        self.pending.bits()
    }
}
