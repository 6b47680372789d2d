// The memory of the Linux machine.

ghost use Rattle.std.specs.Prelude.{◌≡◌, ℕ, ◌≤◌, ◌↔◌, length, IfOk, IsTrue, None, OnErr, OnOk};
ghost use Rattle.std.specs.FinMap as finite;

use crate::bytes::{load_pieces, store_pieces};
use crate::change::{Change, change_each, count_mapped, map_each};
use crate::gaps::{each_mapped, highest_free, is_in_space, some_executable};
use crate::right::{Right, page_without};
use page_ranges::Rights;
use page_store::PageStore;
use places::limits::{PAGE, PAGES_END};
use places::page;
use std::alloc::{AllocError, Global};
use std::marker::Model;

/// There is no memory for a `Memory`, or no room for pages.
#[derive(Clone, Copy, Debug, PartialEq, Eq)]
pub struct NoMemory;

impl From<AllocError> for NoMemory {
    fn from(_: AllocError) -> Self {
        NoMemory
    }
}

/// The mapped pages of an address space, which contracts see as a finite map from page numbers to rights and 4096
/// bytes. A page may be mapped with no right at all. Page `p` has the addresses from `4096 * p` on, and a range of
/// `count` pages has the pages from `first` on. Only `make` takes memory.
#[derive(Drop)]
pub struct Memory {
    pages: PageStore,
}

impl Model for Memory {
    ghost use Rattle.page_store.specs.Pages.{Pages, coded_pages};

    ghost Value = { Pages };

    ghost coded = { coded_pages };

    ghost use Rattle.lx_memory.specs.MemoryFields.{pages_in, IsWithin};

    ghost view = { pages_in };

    ghost invariant = { IsWithin };
}

impl Memory {
    ghost use Rattle.page_ranges.specs.Ranges.{EachPage, SomePage};
    ghost use Rattle.lx_memory.specs.Access.{allows, rights_of, IsFirstLacking};
    ghost use Rattle.lx_memory.specs.Bytes.{IsMapped, bytes_at, with_bytes};
    ghost use Rattle.lx_memory.specs.Gaps.{IsMappedAt, IsFreeAt, IsExecutableAt, IsHighestGap};
    ghost use Rattle.lx_memory.specs.Ranges.{anew, away, given, cleared, mapped, unmapped, protected, zeroed, IsOnEach};

    /// No pages, with room for `room` of them. `NoMemory`: the room for them is refused.
    pub fn make(alloc: Global, room: u32) -> Result<Memory, NoMemory>
        ensures { IfOk result (λ memory. memory ≡ finite.empty) }
    {
        let pages = PageStore::make(alloc, room)?;
        Ok(Memory { pages })
    }

    /// The rights of a page; `None` exactly where it is not mapped.
    pub fn rights_at(&self, page: u64) -> Option<Rights>
        ensures { result ≡ rights_of self.now page }
    {
        self.pages.rights(page)
    }

    /// `None` exactly where each of the `len` bytes from the address `at` on lies on a page that is mapped with the right,
    /// in the address space (`Allowed`, of `places`); else the address of the first byte that does not (sigaction(2),
    /// `si_addr`). Addresses are taken modulo 2^64: it is 0 where the range runs past the last page and lacks nothing
    /// before. After `None`, `load` and `store` may be called on the range.
    pub fn first_lacking(&self, right: Right, at: u64, len: u64) -> Option<u64>
        ensures lacking { IsFirstLacking self.now (allows right) at len result }
        ensures mapped { result ≡ None → IsMapped self.now at len }
    {
        if len == 0 {
            return None;
        }
        let first = page(at);
        let last = match at.checked_add(len - 1) {
            Some(address) => page(address),
            None => PAGES_END,
        };
        match page_without(&self.pages, right, first, last - first + 1) {
            None => None,
            Some(page) if page == first => Some(at),
            Some(page) => Some(page.wrapping_mul(PAGE)),
        }
    }

    /// Reads the bytes from the address `at` on into `into`, whatever the rights of their pages.
    pub fn load(&self, at: u64, into: &mut [u8])
        requires { IsMapped self.now at (length into.old) }
        ensures { into.new ≡ bytes_at self.now at (length into.old) }
    {
        load_pieces(&self.pages, at, into);
    }

    /// Writes the bytes from the address `at` on, whatever the rights of their pages.
    pub fn store(&mut self, at: u64, bytes: &[u8])
        requires { IsMapped self.old at (length bytes.now) }
        ensures { self.new ≡ with_bytes self.old at bytes.now }
    {
        store_pieces(&mut self.pages, at, bytes);
    }

    /// Maps each page of the range with these rights, as zeros, whether it was mapped or not (mmap(2), `MAP_ANONYMOUS`
    /// and `MAP_FIXED`). `NoMemory`: there is no room for its pages that are not mapped, or it ends past page 2^52, the
    /// end of the address space; then nothing changes.
    pub fn map(&mut self, first: u64, count: u64, rights: Rights) -> Result<(), NoMemory>
        ensures ok { OnOk result (self.new ≡ mapped self.old first count rights) }
        ensures each { OnOk result (IsOnEach (anew rights) self.old first count self.new) }
        ensures err { OnErr result (self.new ≡ self.old) }
    {
        if !is_in_space(first, count) {
            return Err(NoMemory);
        }
        if count - count_mapped(&self.pages, first, count) > u64::from(self.pages.spare()) {
            return Err(NoMemory);
        }
        map_each(&mut self.pages, first, count, rights);
        Ok(())
    }

    /// Unmaps each page of the range, and leaves its room again (munmap(2)).
    pub fn unmap(&mut self, first: u64, count: u64)
        ensures after { self.new ≡ unmapped self.old first count }
        ensures each { IsOnEach away self.old first count self.new }
    {
        change_each(&mut self.pages, first, count, Change::Unmap);
    }

    /// Gives each mapped page of the range these rights; its bytes stay (mprotect(2)).
    pub fn protect(&mut self, first: u64, count: u64, rights: Rights)
        ensures after { self.new ≡ protected self.old first count rights }
        ensures each { IsOnEach (given rights) self.old first count self.new }
    {
        change_each(&mut self.pages, first, count, Change::Protect(rights));
    }

    /// Makes each mapped page of the range zeros; its rights stay (madvise(2), `MADV_DONTNEED`).
    pub fn zero(&mut self, first: u64, count: u64)
        ensures after { self.new ≡ zeroed self.old first count }
        ensures each { IsOnEach cleared self.old first count self.new }
    {
        change_each(&mut self.pages, first, count, Change::Zero);
    }

    /// Whether each page of the range is mapped.
    pub fn all_mapped(&self, first: u64, count: u64) -> bool
        ensures { IsTrue result ↔ EachPage first count (IsMappedAt self.now) }
    {
        each_mapped(&self.pages, first, count)
    }

    /// Whether no page of the range is mapped.
    pub fn all_free(&self, first: u64, count: u64) -> bool
        ensures { IsTrue result ↔ EachPage first count (IsFreeAt self.now) }
    {
        self.pages.next_kept(first, count).is_none()
    }

    /// Whether some page of the range is mapped with the right to execute.
    pub fn any_executable(&self, first: u64, count: u64) -> bool
        ensures { IsTrue result ↔ SomePage first count (IsExecutableAt self.now) }
    {
        some_executable(&self.pages, first, count)
    }

    /// The greatest first page of `count` free pages that starts at or above page `low` and ends at or below page `high`;
    /// `None` exactly where there is none.
    pub fn highest_gap(&self, count: u64, low: u64, high: u64) -> Option<u64>
        ensures { IsHighestGap self.now count low high result }
    {
        if low > high {
            return None;
        }
        highest_free(&self.pages, count, low, high)
    }
}
