// The kept pages in the order of their numbers.

ghost use Rattle.std.specs.Prelude.{◌≡◌, ◌≢◌, ℕ, ◌+◌, ◌-◌, ◌^◌, ◌<◌, ◌≤◌, [], length, IfOk, IfErr, IfSome, slice_index_or, slice_set, vec_len, vec_capacity};
ghost use Rattle.std.specs.List.{insert, remove};
ghost use Rattle.sorted_entries.specs.Entries.{IsRising, IsAt, IsGapFor};
ghost use Rattle.page_store.specs.Row.{entries, count, allowing, HasRoom, HasSameRoom, IsMoved, IsRun};

use page_ranges::Rights;
use std::alloc::{AllocError, Global};

// The pages that one store keeps often lie so far apart.
const STRIDE: u64 = 16;

// How many places are kept for a first look.
const HINTS: usize = 1024;

// A kept page: its number, its rights, and the frame that has its bytes.
#[derive(Clone, Copy)]
pub(crate) struct Kept {
    pub(crate) page: u64,
    pub(crate) rights: Rights,
    pub(crate) frame: usize,
}

// The kept pages in order, in two parts whose border lies where the last change was made. So pages that are kept or given
// up one behind the other, in either direction, move no others.
#[derive(Drop)]
pub(crate) struct KeptRow {
    // Those below the border, in order.
    below: Vec<Kept>,
    // Those above it, the lowest one last.
    above: Vec<Kept>,
    // For a part of a page's number the place in its part where such a page was put last.
    hints: Vec<u32>,
}

// Where the place of a page is noted.
#[inline(always)]
fn hint_of(page: u64) -> usize
    ensures { result < HINTS }
{
    (page / STRIDE) as usize % HINTS
}

// Notes the place of a page in its part.
fn note(hints: &mut [u32], page: u64, place: usize) {
    let hint = hint_of(page);
    if hint < hints.len() {
        hints[hint] = u32::try_from(place).unwrap_or(u32::MAX);
    }
}

impl KeptRow {
    // No pages, with room for `share` of them in either part.
    pub(crate) fn make(alloc: Global, share: u32) -> Result<KeptRow, AllocError>
        ensures none { IfOk result (λ row. entries row ≡ []) }
        ensures count { IfOk result (λ row. count row ≡ 0) }
        ensures room { IfOk result (HasRoom share) }
    {
        let below = Vec::with_capacity(alloc, share as usize)?;
        let above = Vec::with_capacity(alloc, share as usize)?;
        let hints = vec![in alloc; 0; HINTS]?;
        Ok(KeptRow {
            below,
            above,
            hints,
        })
    }

    // How many pages there are.
    #[inline(always)]
    pub(crate) fn len(&self) -> usize
        requires { count self.now < 2 ^ 32 }
        ensures { result ≡ length (entries self.now) }
    {
        self.below.len() + self.above.len()
    }

    // The page at a place.
    #[inline(always)]
    pub(crate) fn at(&self, place: usize) -> Kept
        requires few { count self.now < 2 ^ 32 }
        requires place { place < length (entries self.now) }
        ensures { (d : Kept) → result ≡ slice_index_or (entries self.now) place d }
    {
        let below = self.below.len();
        if place < below {
            return self.below[place];
        }
        self.above[self.above.len() - 1 - (place - below)]
    }

    // The place of a page, or where it would go.
    pub(crate) fn place_of(&self, page: u64) -> Result<usize, usize>
        requires few { count self.now < 2 ^ 32 }
        requires rising { IsRising (λ k. k.page) (entries self.now) }
        ensures found { IfOk result (IsAt (λ k. k.page) (entries self.now) page) }
        ensures absent { IfErr result (IsGapFor (λ k. k.page) (entries self.now) page) }
    {
        let mut from = 0;
        let mut to = self.len();
        while from < to {
            let middle = from + (to - from) / 2;
            let there = self.at(middle).page;
            if there == page {
                return Ok(middle);
            }
            if there < page {
                from = middle + 1;
            } else {
                to = middle;
            }
        }
        Err(from)
    }

    // How many pages from a place on have the numbers from `first` on.
    pub(crate) fn run_at(&self, place: usize, first: u64) -> usize
        requires few { count self.now < 2 ^ 32 }
        requires place { IsAt (λ k. k.page) (entries self.now) first place }
        ensures some { 0 < result }
        ensures most { place + result ≤ length (entries self.now) }
        ensures run { IsRun (entries self.now) place first result }
        ensures end { (d : Kept) → place + result < length (entries self.now) → (slice_index_or (entries self.now) (place + result) d).page - first ≢ result }
    {
        let count = self.len() - place;
        for i in 1..count {
            if self.at(place + i).page.saturating_sub(first) != i as u64 {
                return i;
            }
        }
        count
    }

    // The place of a page, where it was noted for it: counted from below, or from above.
    #[inline(always)]
    fn noted(&self, page: u64) -> Option<usize>
        requires few { count self.now < 2 ^ 32 }
        ensures { IfSome result (IsAt (λ k. k.page) (entries self.now) page) }
    {
        let hint = hint_of(page);
        if hint >= self.hints.len() {
            return None;
        }
        let place = self.hints[hint] as usize;
        let len = self.len();
        if place >= len {
            return None;
        }
        if self.at(place).page == page {
            return Some(place);
        }
        let mirrored = len - 1 - place;
        if self.at(mirrored).page == page {
            return Some(mirrored);
        }
        None
    }

    // The same as `place_of`, where the noted place is looked at first.
    #[inline(always)]
    pub(crate) fn hinted_place(&self, page: u64) -> Result<usize, usize>
        requires few { count self.now < 2 ^ 32 }
        requires rising { IsRising (λ k. k.page) (entries self.now) }
        ensures found { IfOk result (IsAt (λ k. k.page) (entries self.now) page) }
        ensures absent { IfErr result (IsGapFor (λ k. k.page) (entries self.now) page) }
    {
        match self.noted(page) {
            Some(place) => Ok(place),
            None => self.place_of(page),
        }
    }

    // Moves the border below one page more.
    fn lower_border(&mut self)
        requires some { 0 < vec_len self.old.below }
        requires room { vec_len self.old.above < vec_capacity self.old.above }
        ensures moved { IsMoved self.old self.new }
        ensures below { vec_len self.new.below + 1 ≡ vec_len self.old.below }
    {
        let Some(kept) = self.below.pop() else {
            unreachable!()
        };
        note(&mut self.hints, kept.page, self.above.len());
        self.above.push_reserved(kept);
    }

    // Moves the border above one page more.
    fn raise_border(&mut self)
        requires some { 0 < vec_len self.old.above }
        requires room { vec_len self.old.below < vec_capacity self.old.below }
        ensures moved { IsMoved self.old self.new }
        ensures below { vec_len self.new.below ≡ vec_len self.old.below + 1 }
    {
        let Some(kept) = self.above.pop() else {
            unreachable!()
        };
        note(&mut self.hints, kept.page, self.below.len());
        self.below.push_reserved(kept);
    }

    // Moves the border to a place.
    fn move_border(&mut self, place: usize)
        requires place { place ≤ count self.old }
        requires room { HasRoom (count self.old) self.old }
        ensures moved { IsMoved self.old self.new }
        ensures below { vec_len self.new.below ≡ place }
    {
        while self.below.len() > place {
            self.lower_border();
        }
        while self.below.len() < place {
            self.raise_border();
        }
    }

    // Adds a page at a place, for which there is room.
    pub(crate) fn insert(&mut self, place: usize, kept: Kept)
        requires place { place ≤ count self.old }
        requires room { HasRoom (count self.old + 1) self.old }
        ensures items { entries self.new ≡ insert (entries self.old) place kept }
        ensures count { count self.new ≡ count self.old + 1 }
        ensures room { HasSameRoom self.old self.new }
    {
        self.move_border(place);
        note(&mut self.hints, kept.page, self.below.len());
        self.below.push_reserved(kept);
    }

    // Takes the page at a place out.
    pub(crate) fn remove(&mut self, place: usize) -> Kept
        requires place { place < count self.old }
        requires room { HasRoom (count self.old) self.old }
        ensures value { (d : Kept) → result ≡ slice_index_or (entries self.old) place d }
        ensures items { entries self.new ≡ remove (entries self.old) place }
        ensures count { count self.new + 1 ≡ count self.old }
        ensures room { HasSameRoom self.old self.new }
    {
        self.move_border(place);
        let Some(kept) = self.above.pop() else {
            unreachable!()
        };
        kept
    }

    // Gives the page at a place these rights.
    pub(crate) fn set_rights(&mut self, place: usize, rights: Rights)
        requires place { place < count self.old }
        requires room { HasRoom (count self.old) self.old }
        ensures items { (d : Kept) → entries self.new ≡ slice_set (entries self.old) place (allowing rights (slice_index_or (entries self.old) place d)) }
        ensures count { count self.new ≡ count self.old }
        ensures room { HasSameRoom self.old self.new }
    {
        let kept = self.remove(place);
        self.insert(
            place,
            Kept {
                page: kept.page,
                rights,
                frame: kept.frame,
            },
        );
    }
}
