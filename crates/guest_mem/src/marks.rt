// The exclusive marks of the slots.

ghost use Rattle.std.specs.Prelude.{◌≡◌, ℕ, ◌<◌, ◌≤◌, List, length, map, replicate, IfOk, Option, slice_index_or, slice_set, vec_len};
ghost use Rattle.guest_mem.specs.MarkRules.{mark_after, marks_after, mark_off, marks_off, IsWithin};

use places::limits::SLOTS;
use std::alloc::{AllocError, Global};
use std::marker::Model;

// How many granules a page has.
const GRANULES: u64 = 256;

// The marked granule of each slot; each of them is from `low` to `high`, so that a write elsewhere looks at none.
#[derive(Drop)]
pub(crate) struct Marks {
    of_slot: Vec<Option<u64>>,
    low: u64,
    high: u64,
}

impl Model for Marks {
    ghost use Rattle.std.specs.Prelude.{ℕ, List, Option};

    ghost Value = { List (Option ℕ) };

    ghost use Rattle.guest_mem.specs.MarkFields.{marks_in, IsSpanned};

    ghost view = { marks_in };

    ghost invariant = { IsSpanned };
}

// What a write to the granules from first to last leaves of a mark.
fn mark_left(mark: Option<u64>, first: u64, last: u64) -> Option<u64>
    ensures { result ≡ mark_after first last mark }
{
    match mark {
        Some(granule) if first <= granule && granule <= last => None,
        _ => mark,
    }
}

// What is left of a mark where every mark on the page ends.
fn mark_kept(mark: Option<u64>, page: u64) -> Option<u64>
    ensures { result ≡ mark_off page mark }
{
    match mark {
        Some(granule) if granule / GRANULES == page => None,
        _ => mark,
    }
}

// Ends the marks on the granules from first to last.
fn end_between(marks: &mut Vec<Option<u64>>, first: u64, last: u64)
    ensures items { marks.new.items ≡ map (mark_after first last) marks.old.items }
    ensures len { vec_len marks.new ≡ vec_len marks.old }
{
    for i in 0..marks.len() {
        let left = mark_left(marks[i], first, last);
        marks[i] = left;
    }
}

// Ends the marks on the page.
fn end_on(marks: &mut Vec<Option<u64>>, page: u64)
    ensures items { marks.new.items ≡ map (mark_off page) marks.old.items }
    ensures len { vec_len marks.new ≡ vec_len marks.old }
{
    for i in 0..marks.len() {
        let left = mark_kept(marks[i], page);
        marks[i] = left;
    }
}

impl Marks {
    // No slot has a mark. `AllocError`: the room for them is refused.
    pub(crate) fn make(alloc: Global) -> Result<Marks, AllocError>
        ensures { IfOk result (λ marks. marks ≡ replicate 128 None) }
    {
        let of_slot = Vec::from_slice(alloc, &[None; SLOTS])?;
        Ok(Marks {
            of_slot,
            low: u64::MAX,
            high: 0,
        })
    }

    // There is a place for the mark of each slot.
    pub(crate) fn one_a_slot(&self)
        ensures { length self.now ≡ 128 }
    {
        let _low = self.low;
    }

    // The granule that the slot has marked.
    pub(crate) fn at(&self, slot: u8) -> Option<u64>
        requires { slot < 128 }
        ensures { result ≡ slice_index_or self.now slot None }
    {
        self.of_slot[slot as usize]
    }

    // The slot marks a granule, in place of the one that it had.
    pub(crate) fn put(&mut self, slot: u8, granule: u64)
        requires { slot < 128 }
        ensures { self.new ≡ slice_set self.old slot (Some granule) }
    {
        self.of_slot[slot as usize] = Some(granule);
        self.low = self.low.min(granule);
        self.high = self.high.max(granule);
    }

    // The slot writes to the granules from first to last: all other slots' marks there end.
    #[inline(always)]
    pub(crate) fn end_others(&mut self, slot: u8, first: u64, last: u64)
        requires { slot < 128 }
        ensures { self.new ≡ marks_after self.old slot first last }
    {
        if last < self.low || self.high < first {
            return;
        }
        let own = self.of_slot[slot as usize];
        end_between(&mut self.of_slot, first, last);
        self.of_slot[slot as usize] = own;
    }

    // All marks on the page end.
    pub(crate) fn end_on_page(&mut self, page: u64)
        ensures { self.new ≡ marks_off self.old page }
    {
        end_on(&mut self.of_slot, page);
    }
}
