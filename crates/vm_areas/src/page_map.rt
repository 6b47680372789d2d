// The areas of an address space, as the runs of its page map.

ghost use Rattle.std.specs.Prelude.{◌≡◌, ◌↔◌, ◌+◌, ◌^◌, ◌<◌, ◌≤◌, [], length, IfOk, IsErr, IsFalse, IsTrue, OnErr, OnOk, MatchOption, Some, None};

use crate::pieces::paint;
use crate::runs::Area;
use crate::tally::painted_count;
use crate::walks::{any_meets, any_meets_code, place_among, reached, rights_in};
use page_ranges::Rights;
use std::alloc::{AllocError, Global};
use std::marker::Model;
use std::mem;

/// The page at or below which each range ends. It lies past the 2^52 pages of 4096 bytes that 64-bit
/// addresses have.
pub(crate) const RANGES_END: u64 = 1 << 53;

/// The lowest page at which `Areas::find` answers a range.
pub(crate) const LOWEST: u64 = 16;

/// The page at or below which a range that `Areas::find` answers ends.
pub(crate) const HIGHEST_END: u64 = 0x7_fff0_0000;

// The most areas that may stand.
const MOST_AREAS: usize = 1024;

// Room for each piece of a change: of each area what lies below the range and what lies behind it, and
// the range itself.
const ROOM: usize = 2 * MOST_AREAS + 1;

/// More than 1024 areas would stand.
#[derive(Clone, Copy, Debug, PartialEq, Eq)]
pub struct AreasFull;

/// There is no memory for the room of the areas.
#[derive(Clone, Copy, Debug, PartialEq, Eq)]
pub struct NoMemory;

/// The areas of an address space, which contracts see as the list of them in order. There are at most
/// 1024. Only `make` takes memory.
#[derive(Drop)]
pub struct Areas {
    areas: Vec<Area>,
    spare: Vec<Area>,
}

impl Model for Areas {
    ghost use Rattle.std.specs.Prelude.{List};
    ghost use Rattle.vm_areas.specs.declared.runs.Area.{Area};

    ghost Value = { List Area };

    ghost use Rattle.vm_areas.specs.Kept.{HasRoom};

    ghost view = { λ s. s.areas.items };

    ghost invariant = { HasRoom };
}

impl Areas {
    ghost use Rattle.page_ranges.specs.Ranges.{within};
    ghost use Rattle.vm_areas.specs.PageMap.{rights_at, IsAreas};
    ghost use Rattle.vm_areas.specs.Painted.{painted, IsPainted};
    ghost use Rattle.page_ranges.specs.Ranges.{EachPage, SomePage};
    ghost use Rattle.vm_areas.specs.Ranges.{IsExecutableAt, IsFreeAt, IsMappedAt, HasNoRoom, IsHighestRoom};

    /// No areas, with room for all that can stand. `NoMemory` where there is no memory for it.
    pub fn make(alloc: Global) -> Result<Areas, NoMemory>
        ensures { IfOk result (λ areas. areas ≡ []) }
    {
        let Ok(areas) = Vec::with_capacity(alloc, ROOM) else {
            return Err(NoMemory);
        };
        let Ok(spare) = Vec::with_capacity(alloc, ROOM) else {
            return Err(NoMemory);
        };
        Ok(Areas { areas, spare })
    }

    /// The greatest first page of a free range of so many pages that ends at or below page 0x7fff00000
    /// and starts at or above page 16; `None` exactly where there is none. A range of no pages is free
    /// wherever it lies.
    pub fn find(&self, pages: u64) -> Option<u64>
        ensures { MatchOption result (HasNoRoom self.now pages) (IsHighestRoom self.now pages) }
    {
        if pages == 0 {
            return Some(HIGHEST_END);
        }
        place_among(&self.areas, pages)
    }

    /// Gives each page of the range these rights, whether it was mapped or not. `AreasFull` exactly where
    /// more than 1024 areas would stand; then nothing changes.
    pub fn put(&mut self, first: u64, pages: u64, rights: Rights) -> Result<(), AreasFull>
        requires { first + pages ≤ 2 ^ 53 }
        ensures painted { IsPainted self.old first pages (Some rights) (painted self.old first pages (Some rights)) }
        ensures full { IsErr result ↔ (1024 < length (painted self.old first pages (Some rights))) }
        ensures ok { OnOk result (self.new ≡ painted self.old first pages (Some rights)) }
        ensures err { OnErr result (self.new ≡ self.old) }
        ensures areas { IsAreas self.new }
    {
        self.change(first, pages, Some(rights))
    }

    /// Unmaps each page of the range. `AreasFull` exactly where more than 1024 areas would stand; then
    /// nothing changes.
    pub fn cut(&mut self, first: u64, pages: u64) -> Result<(), AreasFull>
        requires { first + pages ≤ 2 ^ 53 }
        ensures painted { IsPainted self.old first pages None (painted self.old first pages None) }
        ensures full { IsErr result ↔ (1024 < length (painted self.old first pages None)) }
        ensures ok { OnOk result (self.new ≡ painted self.old first pages None) }
        ensures err { OnErr result (self.new ≡ self.old) }
        ensures areas { IsAreas self.new }
    {
        self.change(first, pages, None)
    }

    /// The rights at a page; `None` exactly where it is not mapped.
    pub fn rights_at(&self, page: u64) -> Option<Rights>
        ensures rights { result ≡ rights_at self.now page }
        ensures areas { IsAreas self.now }
    {
        rights_in(&self.areas, page)
    }

    /// Whether each page of the range is mapped.
    pub fn all_mapped(&self, first: u64, pages: u64) -> bool
        requires { first + pages ≤ 2 ^ 53 }
        ensures { IsTrue result ↔ EachPage first pages (IsMappedAt self.now) }
    {
        first + pages <= reached(&self.areas, first)
    }

    /// Whether no page of the range is mapped.
    pub fn all_free(&self, first: u64, pages: u64) -> bool
        requires { first + pages ≤ 2 ^ 53 }
        ensures { IsTrue result ↔ EachPage first pages (IsFreeAt self.now) }
    {
        !any_meets(&self.areas, first, first + pages)
    }

    /// Whether some page of the range is mapped with the right to execute.
    pub fn any_executable(&self, first: u64, pages: u64) -> bool
        requires { first + pages ≤ 2 ^ 53 }
        ensures { IsTrue result ↔ SomePage first pages (IsExecutableAt self.now) }
    {
        any_meets_code(&self.areas, first, first + pages)
    }

    /// False exactly where `put` with these rights, or `cut` where they are `None`, would answer
    /// `AreasFull`.
    pub fn fits(&self, first: u64, pages: u64, rights: Option<Rights>) -> bool
        requires { first + pages ≤ 2 ^ 53 }
        ensures painted { IsPainted self.now first pages rights (painted self.now first pages rights) }
        ensures fits { IsTrue result ↔ (length (painted self.now first pages rights) ≤ 1024) }
        ensures areas { IsAreas self.now }
    {
        painted_count(&self.areas, first, pages, rights) <= MOST_AREAS
    }

    // Gives each page of the range these rights, or none.
    fn change(&mut self, first: u64, pages: u64, rights: Option<Rights>) -> Result<(), AreasFull>
        requires { first + pages ≤ 2 ^ 53 }
        ensures painted { IsPainted self.old first pages rights (painted self.old first pages rights) }
        ensures full { IsErr result ↔ (1024 < length (painted self.old first pages rights)) }
        ensures ok { OnOk result (self.new ≡ painted self.old first pages rights) }
        ensures err { OnErr result (self.new ≡ self.old) }
        ensures areas { IsAreas self.new }
    {
        paint(&mut self.spare, &self.areas, first, pages, rights);
        if self.spare.len() > MOST_AREAS {
            return Err(AreasFull);
        }
        mem::swap(&mut self.areas, &mut self.spare);
        Ok(())
    }
}
