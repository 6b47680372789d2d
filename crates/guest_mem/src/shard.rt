// A shard: its pages, and the marks on them.

ghost use Rattle.std.specs.Prelude.{◌≡◌, ℕ, ◌+◌, ◌%◌, ◌<◌, ◌≤◌, ◌⊎◌, ◌↔◌, length, IfOk, IsErr, IsTrue, MatchOption, OnOk, OnErr, option_map, slice_range, slice_index_or, if◌then◌else◌};
ghost use Rattle.std.specs.FinMap as finite;
ghost use Rattle.places.specs.Places as place;
ghost use Rattle.page_store.specs.Pages.{page_for, reads, writes, has_any, IsLeastKept};
ghost use Rattle.a64_model.specs.Swaps.{outcome, has_outcome};
ghost use Rattle.guest_mem.specs.Held.{Held, IsShard, IsInPage, IsFullFor, started, stored, marked_by, unmapped, zeroed, mapped, protected};

use crate::marks::Marks;
use a64_model::access::{Fault, SwapOp};
use a64_model::swaps::{has_outcome_of, outcome_of};
use page_ranges::Rights;
use page_store::PageStore;
use places::granule;
use places::limits::GRANULE;
use std::alloc::{AllocError, Global};
use std::marker::Model;

/// A page needs room, and none is left.
#[derive(Clone, Copy, Debug)]
pub struct ShardFull;

/// There is no memory for a shard.
#[derive(Clone, Copy, Debug)]
pub struct NoMemory;

impl From<AllocError> for NoMemory {
    fn from(_: AllocError) -> Self {
        NoMemory
    }
}

/// The pages of one of the 16 shards of a guest's memory that have had a right since they were mapped, with their
/// rights and bytes, and for each of 128 slots the granule that it has marked last. Page `p` lies in shard `p % 16`.
/// The pages lie behind a pointer, so that a shard, which has 56 bytes, is cheap to move.
#[derive(Drop)]
pub struct Shard {
    index: u8,
    pages: Box<PageStore>,
    marks: Marks,
}

impl Model for Shard {
    ghost use Rattle.guest_mem.specs.Held.{Held, coded_held};

    ghost Value = { Held };

    ghost coded = { coded_held };

    ghost use Rattle.guest_mem.specs.ShardFields.{held_by, IsIndexed};

    ghost view = { held_by };

    ghost invariant = { IsIndexed };
}

// Whether there is any right.
fn has_any_right(rights: Rights) -> bool
    ensures { result ≡ has_any rights }
{
    rights.read || rights.write || rights.execute
}

impl Shard {
    /// The shard of this index (0 to 15), which keeps no page and has room for `share` pages. No other call takes
    /// memory. `NoMemory`: the room for them is refused.
    pub fn make(alloc: Global, index: u8, share: u32) -> Result<Shard, NoMemory>
        requires { index < 16 }
        ensures { IfOk result (λ shard. shard ≡ started index share) }
    {
        let pages = PageStore::make(alloc, share)?;
        let pages = Box::new(alloc, pages).map_err(AllocError::from)?;
        let marks = Marks::make(alloc)?;
        Ok(Shard {
            index,
            pages,
            marks,
        })
    }

    /// What is true of every shard: its index is below 16, each page that it keeps has 4096 bytes, and there is a place for
    /// the mark of each of the 128 slots.
    pub fn law(&self)
        ensures { IsShard self.now }
    {
        self.pages.whole_pages();
        self.marks.one_a_slot();
    }

    /// How many more pages there is room for.
    pub fn spare(&self) -> u32
        ensures { result ≡ self.now.spare }
    {
        self.pages.spare()
    }

    /// The rights of a page; `None` exactly where it is not kept.
    pub fn rights(&self, page: u64) -> Option<Rights>
        ensures { result ≡ option_map (λ p. p.rights) (finite.get self.now.pages page) }
    {
        self.pages.rights(page)
    }

    /// The least kept page of `pages` pages from `first` on; `None` exactly where none of them is kept.
    pub fn next_kept(&self, first: u64, pages: u64) -> Option<u64>
        ensures { IsLeastKept self.now.pages first pages result }
    {
        self.pages.next_kept(first, pages)
    }

    /// Reads the bytes from the address `at` on, which lie in one page of this shard. `Fault` at `at`: the page is not
    /// kept, or lacks the right to read; then `into` stays.
    #[inline(always)]
    pub fn load(&self, at: u64, into: &mut [u8]) -> Result<(), Fault>
        requires { IsInPage self.now at (length into.old) }
        ensures { MatchOption (page_for reads self.now.pages at) ((result ≡ Err record { address = at }) × (into.new ≡ into.old)) (λ page. (result ≡ Ok tt) × (into.new ≡ slice_range page.bytes (at % 4096) (at % 4096 + length into.old))) }
    {
        self.pages.load(at, into)
    }

    /// Writes the bytes from the address `at` on, which lie in one page of this shard, for this slot (0 to 127): the
    /// marks of all other slots on the granules that they touch end. `Fault` at `at`: the page is not kept, or lacks
    /// the right to write; then nothing changes.
    #[inline(always)]
    pub fn store(&mut self, slot: u8, at: u64, bytes: &[u8]) -> Result<(), Fault>
        requires slot { slot < 128 }
        requires in_page { IsInPage self.old at (length bytes.now) }
        ensures index { self.new.index ≡ self.old.index }
        ensures after { MatchOption (page_for writes self.old.pages at) ((result ≡ Err record { address = at }) × (self.new ≡ self.old)) (λ _. (result ≡ Ok tt) × (self.new ≡ stored self.old slot at bytes.now)) }
    {
        self.pages.store(at, bytes)?;
        let rest = bytes.len() as u64 - 1;
        let last = granule(at) + (at % GRANULE + rest) / GRANULE;
        self.marks.end_others(slot, granule(at), last);
        Ok(())
    }

    /// Reads the number of `len` little-endian bytes (1, 2, 4 or 8) at the address `at`, and writes what `op` makes of
    /// it with `value`, of which the low `len` bytes count; a `CompareSwap` writes only where the number is `expected`.
    /// Answers the number that was read. A write ends marks as that of `store` does. `Fault` at `at`: the page is not
    /// kept, or lacks the right to write; then nothing changes.
    pub fn swap_with(
        &mut self,
        slot: u8,
        at: u64,
        len: u8,
        op: SwapOp,
        value: u64,
        expected: u64,
    ) -> Result<u64, Fault>
        requires slot { slot < 128 }
        requires len { (len ≡ 1) ⊎ (len ≡ 2) ⊎ (len ≡ 4) ⊎ (len ≡ 8) }
        requires in_page { IsInPage self.old at len }
        ensures index { self.new.index ≡ self.old.index }
        ensures after { MatchOption (page_for writes self.old.pages at) ((result ≡ Err record { address = at }) × (self.new ≡ self.old)) (λ page. let was = place.number_at page.bytes (at % 4096) len in (result ≡ Ok was) × (self.new ≡ (if has_outcome op was expected then stored self.old slot at (place.bytes_of (outcome op was value) len) else self.old))) }
    {
        let was = self.pages.number_to_change(at, len)?;
        if has_outcome_of(op, was, expected) {
            let bytes = outcome_of(op, was, value).to_le_bytes();
            self.store(slot, at, &bytes[..len as usize])?;
        }
        Ok(was)
    }

    /// The slot (0 to 127) marks the granule of the address, in place of the one that it had marked.
    pub fn mark(&mut self, slot: u8, at: u64)
        requires { slot < 128 }
        ensures { self.new ≡ marked_by self.old slot (place.granule at) }
    {
        self.marks.put(slot, granule(at));
    }

    /// Whether the slot's mark stands on the granule of the address.
    pub fn marked(&self, slot: u8, at: u64) -> bool
        requires { slot < 128 }
        ensures { IsTrue result ↔ (slice_index_or self.now.marks slot None ≡ Some (place.granule at)) }
    {
        match self.marks.at(slot) {
            Some(marked) => marked == granule(at),
            None => false,
        }
    }

    /// Keeps the page as zeros with these rights, in place of a kept one, or without any right gives it up. All marks
    /// on the page end. `ShardFull`: the page is not kept and no room is left; then nothing changes.
    pub fn map_page(&mut self, page: u64, rights: Rights) -> Result<(), ShardFull>
        ensures index { self.new.index ≡ self.old.index }
        ensures full { IsErr result ↔ IsFullFor self.old page rights }
        ensures ok { OnOk result (self.new ≡ mapped self.old page rights) }
        ensures err { OnErr result (self.new ≡ self.old) }
    {
        if !has_any_right(rights) {
            self.unmap_page(page);
            return Ok(());
        }
        if self.pages.set_rights(page, rights) {
            let _ = self.pages.zero(page);
            self.marks.end_on_page(page);
            return Ok(());
        }
        if !self.pages.add(page, rights) {
            return Err(ShardFull);
        }
        self.marks.end_on_page(page);
        Ok(())
    }

    /// Gives the page up, if it is kept. All marks on it end.
    pub fn unmap_page(&mut self, page: u64)
        ensures { self.new ≡ unmapped self.old page }
    {
        self.pages.give_up(page);
        self.marks.end_on_page(page);
    }

    /// Makes the page zeros, if it is kept. All marks on it end.
    pub fn zero_page(&mut self, page: u64)
        ensures { self.new ≡ zeroed self.old page }
    {
        let _ = self.pages.zero(page);
        self.marks.end_on_page(page);
    }

    /// Gives a kept page these rights; another page, if it is to get a right, is kept as zeros. Marks stay.
    /// `ShardFull`: such another page needs room, and none is left; then nothing changes.
    pub fn protect(&mut self, page: u64, rights: Rights) -> Result<(), ShardFull>
        ensures index { self.new.index ≡ self.old.index }
        ensures full { IsErr result ↔ IsFullFor self.old page rights }
        ensures ok { OnOk result (self.new ≡ protected self.old page rights) }
        ensures err { OnErr result (self.new ≡ self.old) }
    {
        if self.pages.set_rights(page, rights) || !has_any_right(rights) {
            return Ok(());
        }
        if !self.pages.add(page, rights) {
            return Err(ShardFull);
        }
        Ok(())
    }
}
