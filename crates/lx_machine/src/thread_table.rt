//! The places for threads (clone(2)), and what is done to all threads: a write ends marks, and a signal is forgotten.
ghost use Rattle.std.specs.Prelude.{◌≡◌, ◌≤◌, ◌<◌, ◌+◌, ◌^◌, ◌++◌, drop, if◌then◌else◌, IfOk, length, map, MatchOption, None, OnOk, replicate, Some, take};
ghost use Rattle.std.specs.Borrow.{sem};
ghost use Rattle.lx_machine.specs.Lists.{at_place, with_place, without_place};
ghost use Rattle.lx_machine.specs.Signal.{forgotten_at};
ghost use Rattle.lx_machine.specs.ThreadTable.{IsFreeFrom};
ghost use Rattle.lx_machine.specs.Threads.{mark_left, unmarked, unmarked_from};

use crate::buffer::NoMemory;
use crate::state::{Slot, THREADS};
use crate::threads::LxThread;
use linux_abi::LinuxSig;
use std::alloc::Global;
use std::marker::Model;

/// The places for threads, `THREADS` of them, each free or with a thread, which contracts see as a list. What is done to all
/// threads costs what the places up to the highest one cost that was ever in use.
#[derive(Drop)]
pub struct Threads {
    places: Vec<Option<LxThread>>,
    used: usize,
}

impl Model for Threads {
    ghost use Rattle.std.specs.Prelude.{◌≡◌, ◌≤◌, length, List, Option};
    ghost use Rattle.lx_machine.specs.ThreadTable.{IsFreeFrom};
    ghost use Rattle.lx_machine.specs.declared.threads.LxThread.{LxThread};

    ghost Value = { List (Option LxThread) };

    ghost view = { λ t. t.places.items };

    ghost invariant = { λ t. (length t.places.items ≡ 128) × (t.used ≤ 128) × IsFreeFrom t.used t.places.items };
}

/// What is left of a mark after another thread has written to these granules.
fn mark_left(first: u128, last: u128, mark: Option<u64>) -> Option<u64>
    ensures { result ≡ mark_left first last mark }
{
    mark.filter(|granule| !(first <= u128::from(*granule) && u128::from(*granule) <= last))
}

/// Ends the mark of a thread, if it lies in these granules, unless it is the writer.
fn unmark_other(is_writer: bool, place: &mut Option<LxThread>, first: u128, last: u128)
    ensures { place.new ≡ (if is_writer then place.old else unmarked first last place.old) }
{
    match place {
        Some(thread) if !is_writer => thread.mark = mark_left(first, last, thread.mark),
        _ => (),
    }
}

/// Ends the marks of the threads in the places from `at` on, of which those from `used` on are free.
#[tactic(auto, using(crate::proofs::ThreadTable::free_after_set, crate::proofs::ThreadTable::free_further, crate::proofs::ThreadTable::unmarked_free))]
fn unmark_from(
    at: usize,
    used: usize,
    slot: Slot,
    first: u128,
    last: u128,
    places: &mut Vec<Option<LxThread>>,
)
    requires within { (at ≤ used) × (used ≤ length places.old.items) }
    requires free { IsFreeFrom used places.old.items }
    ensures marks { places.new.items ≡ take at places.old.items ++ unmarked_from at slot first last (drop at places.old.items) }
    ensures free { IsFreeFrom used places.new.items }
{
    if at < used {
        unmark_other(at == slot.index(), &mut places[at], first, last);
        unmark_from(at + 1, used, slot, first, last, places);
    }
}

/// The signal is pending no more for the thread in a place.
fn forget_at(signal: LinuxSig, place: &mut Option<LxThread>)
    ensures { place.new ≡ forgotten_at signal place.old }
{
    if let Some(thread) = place {
        thread.pending.remove_all(signal);
    }
}

/// The same, for the threads in the places from `at` on, of which those from `used` on are free.
#[tactic(auto, using(crate::proofs::ThreadTable::free_after_set, crate::proofs::ThreadTable::free_further, crate::proofs::ThreadTable::forgotten_free))]
fn forget_from(at: usize, used: usize, signal: LinuxSig, places: &mut Vec<Option<LxThread>>)
    requires within { (at ≤ used) × (used ≤ length places.old.items) }
    requires free { IsFreeFrom used places.old.items }
    ensures signals { places.new.items ≡ take at places.old.items ++ map (forgotten_at signal) (drop at places.old.items) }
    ensures free { IsFreeFrom used places.new.items }
{
    if at < used {
        forget_at(signal, &mut places[at]);
        forget_from(at + 1, used, signal, places);
    }
}

/// Puts so many free places behind the others.
#[tactic(auto, using(crate::proofs::ThreadTable::free_and_more))]
fn push_free(count: usize, places: &mut Vec<Option<LxThread>>) -> Result<(), NoMemory>
    ensures { OnOk result (places.new.items ≡ places.old.items ++ replicate count None) }
{
    if count > 0 {
        places.push(None).map_err(|_| NoMemory)?;
        push_free(count - 1, places)?;
    }
    Ok(())
}

impl Threads {
    ghost use Rattle.lx_machine.specs.Lending.{LendsPlace};

    /// All places are free. It takes the memory for all of them.
    #[tactic(auto, using(crate::proofs::ThreadTable::free_at_first))]
    pub fn make(alloc: Global) -> Result<Threads, NoMemory>
        ensures { IfOk result (λ threads. threads ≡ replicate THREADS None) }
    {
        let mut places = Vec::with_capacity(alloc, THREADS).map_err(|_| NoMemory)?;
        push_free(THREADS, &mut places)?;
        Ok(Threads { places, used: 0 })
    }

    /// The places.
    pub fn as_slice(&self) -> &[Option<LxThread>]
        ensures value { result.now ≡ self.now }
        ensures length { length self.now ≡ THREADS }
    {
        self.places.as_slice()
    }

    /// The thread in a place, if there is one.
    pub fn thread(&self, slot: Slot) -> Option<&LxThread>
        ensures { MatchOption result (at_place self.now slot ≡ None) (λ t. at_place self.now slot ≡ Some t.now) }
    {
        self.places[slot.index()].as_ref()
    }

    /// Lends a place.
    #[tactic(auto, using(crate::proofs::ThreadTable::free_after_set, crate::proofs::ThreadTable::free_further))]
    pub fn place(&mut self, slot: Slot) -> &mut Option<LxThread>
        ensures* writes_back { sem 𝓛 (LendsPlace self.entry slot result) }
        ensures value { result.now ≡ at_place self.old slot }
    {
        self.used = self.used.max(slot.index() + 1);
        &mut self.places[slot.index()]
    }

    /// The place is free, and the thread that stood there, if one did, is the answer.
    #[tactic(auto, using(crate::proofs::ThreadTable::free_after_none))]
    pub fn take(&mut self, slot: Slot) -> Option<LxThread>
        ensures thread { result ≡ at_place self.old slot }
        ensures left { self.new ≡ without_place self.old slot }
    {
        self.places[slot.index()].take()
    }

    /// The thread stands in the place.
    #[tactic(auto, using(crate::proofs::ThreadTable::free_after_set, crate::proofs::ThreadTable::free_further))]
    pub fn put(&mut self, slot: Slot, thread: LxThread)
        ensures { self.new ≡ with_place self.old slot thread }
    {
        self.used = self.used.max(slot.index() + 1);
        self.places[slot.index()] = Some(thread);
    }

    /// The marks on these granules end of all threads but the one in this slot.
    pub fn unmark(&mut self, slot: Slot, first: u128, last: u128)
        ensures { self.new ≡ unmarked_from 0 slot first last self.old }
    {
        unmark_from(0, self.used, slot, first, last, &mut self.places);
    }

    /// The signal is pending no more for any thread.
    pub fn forget(&mut self, signal: LinuxSig)
        ensures { self.new ≡ map (forgotten_at signal) self.old }
    {
        forget_from(0, self.used, signal, &mut self.places);
    }
}
