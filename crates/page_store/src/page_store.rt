// The kept pages: their numbers in order, and the frames that have their bytes.

ghost use Rattle.std.specs.Prelude.{◌≡◌, ℕ, ◌+◌, ◌-◌, ◌%◌, ◌<◌, ◌≤◌, ◌⊎◌, ◌&&◌, not, min, nat_lt, if◌then◌else◌, true, false, length, IfOk, IfErr, IfSome, IsOk, IsErr, MatchOption, OnOk, OnErr, option_map, slice_range, vec_len, vec_capacity};
ghost use Rattle.std.specs.List.{insert, remove};
ghost use Rattle.std.specs.FinMap as finite;
ghost use Rattle.places.specs.Places as place;
ghost use Rattle.sorted_entries.specs.Entries.{IsRising, IsAt, IsGapFor};
ghost use Rattle.page_store.specs.Pages.{Keeping, page_for, reads, writes, blank, spliced, with_rights, blanked, written, with_changed, with_added, without, IsLeastKept, IsKeptRun, AreWhole};
ghost use Rattle.page_store.specs.Frames.{times, itself, IsTaken, IsWhole};

use crate::kept_row::{Kept, KeptRow};
use a64_model::access::Fault;
use byteorder::{ByteOrder, LittleEndian};
use page_ranges::Rights;
use std::alloc::{AllocError, Global};
use std::marker::Model;

// The bytes of a page.
const PAGE: usize = 4096;

/// Pages of 4096 bytes by their numbers, each with its rights, and room for more. Contracts see it as a `Keeping`
/// (`specs/Pages.antt`). A page is named by its number, any `u64`; an address `at` lies in page `at / 4096`. Only `make`
/// takes memory.
#[derive(Drop)]
pub struct PageStore {
    // In order of the pages.
    kept: KeptRow,
    // Those used so far.
    frames: Vec<[u8; PAGE]>,
    // Those of them that no page has.
    free: Vec<usize>,
    spare: u32,
}

impl Model for PageStore {
    ghost use Rattle.page_store.specs.Pages.{Keeping, coded_keeping};

    ghost Value = { Keeping };

    ghost coded = { coded_keeping };

    ghost use Rattle.page_store.specs.Kept.{keeping_of, IsSound};

    ghost view = { keeping_of };

    ghost invariant = { IsSound };
}

// Writes bytes over those from a place on. A frame has 4096 bytes.
#[inline(always)]
fn splice(frame: &mut [u8; PAGE], from: usize, bytes: &[u8])
    requires { from + length bytes.now ≤ PAGE }
    ensures after { frame.new ≡ spliced frame.old from bytes.now }
    ensures whole { length frame.old ≡ PAGE }
    ensures whole_after { length frame.new ≡ PAGE }
{
    frame[from..from + bytes.len()].copy_from_slice(bytes);
}

// Makes a frame zeros.
fn blank_out(frame: &mut [u8; PAGE])
    ensures zeros { frame.new ≡ blank }
    ensures whole { length frame.new ≡ PAGE }
{
    frame.fill(0);
}

// A frame of zeros.
fn blank_frame() -> [u8; PAGE]
    ensures zeros { result ≡ blank }
    ensures whole { length result ≡ PAGE }
{
    [0; PAGE]
}

// Takes a frame, of zeros: a free one, or else a new one.
fn take_frame(frames: &mut Vec<[u8; PAGE]>, free: &mut Vec<usize>) -> usize
    requires free { (f : ℕ) → 0 < times itself f free.old.items → f < vec_len frames.old }
    requires room { (0 < vec_len free.old) ⊎ (vec_len frames.old < vec_capacity frames.old) }
    ensures taken { IsTaken frames.old.items (vec_len frames.old) free.old.items frames.new.items (vec_len frames.new) free.new.items result }
    ensures whole { IsWhole frames.old.items → IsWhole frames.new.items }
    ensures count { vec_len free.new + vec_len frames.old + 1 ≡ vec_len free.old + vec_len frames.new }
    ensures first_use { vec_len frames.new + min (vec_len free.old) 1 ≡ vec_len frames.old + 1 }
    ensures frames_room { vec_capacity frames.old ≤ vec_capacity frames.new }
    ensures free_room { vec_capacity free.new ≡ vec_capacity free.old }
{
    match free.pop() {
        Some(frame) => {
            blank_out(&mut frames[frame]);
            frame
        }
        None => {
            let frame = frames.len();
            frames.push_reserved(blank_frame());
            frame
        }
    }
}

impl PageStore {
    /// A store that keeps no page and has room for `share` pages. `AllocError`: the room for them is refused.
    pub fn make(alloc: Global, share: u32) -> Result<PageStore, AllocError>
        ensures { IfOk result (λ s. s ≡ record { pages = finite.empty; spare = share }) }
    {
        let kept = KeptRow::make(alloc, share)?;
        let frames = Vec::with_capacity(alloc, share as usize)?;
        let free = Vec::with_capacity(alloc, share as usize)?;
        Ok(PageStore {
            kept,
            frames,
            free,
            spare: share,
        })
    }

    /// How many more pages there is room for.
    pub fn spare(&self) -> u32
        ensures { result ≡ self.now.spare }
    {
        self.spare
    }

    /// Each kept page has 4096 bytes.
    pub fn whole_pages(&self)
        ensures { AreWhole self.now.pages }
    {
        let _spare = self.spare;
    }

    /// The rights of a page; `None` exactly where it is not kept.
    pub fn rights(&self, page: u64) -> Option<Rights>
        ensures { result ≡ option_map (λ p. p.rights) (finite.get self.now.pages page) }
    {
        match self.kept.place_of(page) {
            Ok(place) => Some(self.kept.at(place).rights),
            Err(_) => None,
        }
    }

    /// The least kept page of `pages` pages from `first` on; `None` exactly where none of them is kept.
    pub fn next_kept(&self, first: u64, pages: u64) -> Option<u64>
        ensures { IsLeastKept self.now.pages first pages result }
    {
        match self.kept.place_of(first) {
            Ok(_) => if pages > 0 { Some(first) } else { None },
            Err(place) => {
                if place >= self.kept.len() {
                    return None;
                }
                let kept = self.kept.at(place);
                if kept.page - first < pages {
                    Some(kept.page)
                } else {
                    None
                }
            }
        }
    }

    /// How many pages from `first` on are kept one behind the other; 0 exactly where that page is not kept.
    pub fn kept_run(&self, first: u64) -> u64
        ensures { IsKeptRun self.now.pages first result }
    {
        let Ok(place) = self.kept.place_of(first) else {
            return 0;
        };
        self.kept.run_at(place, first) as u64
    }

    /// Reads the bytes from the address `at` on, which lie in one page. `Fault` at `at`: the page is not kept, or lacks the
    /// right to read; then `into` stays.
    #[inline(always)]
    pub fn load(&self, at: u64, into: &mut [u8]) -> Result<(), Fault>
        requires { at % 4096 + length into.old ≤ 4096 }
        ensures { MatchOption (page_for reads self.now.pages at) ((result ≡ Err record { address = at }) × (into.new ≡ into.old)) (λ page. (result ≡ Ok tt) × (into.new ≡ slice_range page.bytes (at % 4096) (at % 4096 + length into.old))) }
    {
        let Ok(place) = self.kept.hinted_place(at / PAGE as u64) else {
            return Err(Fault { address: at });
        };
        let kept = self.kept.at(place);
        if !kept.rights.read {
            return Err(Fault { address: at });
        }
        let from = (at % PAGE as u64) as usize;
        let frame = &self.frames[kept.frame];
        into.copy_from_slice(&frame[from..from + into.len()]);
        Ok(())
    }

    /// Reads the number of `len` little-endian bytes at the address `at`, in one page that may be written. `Fault` at `at`:
    /// the page is not kept, or lacks the right to write.
    pub fn number_to_change(&self, at: u64, len: u8) -> Result<u64, Fault>
        requires some { 0 < len }
        requires most { len ≤ 8 }
        requires in_page { at % 4096 + len ≤ 4096 }
        ensures { MatchOption (page_for writes self.now.pages at) (result ≡ Err record { address = at }) (λ page. result ≡ Ok (place.number_at page.bytes (at % 4096) len)) }
    {
        let Ok(place) = self.kept.hinted_place(at / PAGE as u64) else {
            return Err(Fault { address: at });
        };
        let kept = self.kept.at(place);
        if !kept.rights.write {
            return Err(Fault { address: at });
        }
        let from = (at % PAGE as u64) as usize;
        let frame = &self.frames[kept.frame];
        Ok(LittleEndian::read_uint(&frame[from..], len as usize))
    }

    /// Writes the bytes from the address `at` on, which lie in one page. `Fault` at `at`: the page is not kept, or lacks the
    /// right to write; then nothing changes.
    #[inline(always)]
    pub fn store(&mut self, at: u64, bytes: &[u8]) -> Result<(), Fault>
        requires { at % 4096 + length bytes.now ≤ 4096 }
        ensures { MatchOption (page_for writes self.old.pages at) ((result ≡ Err record { address = at }) × (self.new ≡ self.old)) (λ page. (result ≡ Ok tt) × (self.new ≡ with_changed self.old (place.page at) (written (at % 4096) bytes.now))) }
    {
        let Ok(place) = self.kept.hinted_place(at / PAGE as u64) else {
            return Err(Fault { address: at });
        };
        let kept = self.kept.at(place);
        if !kept.rights.write {
            return Err(Fault { address: at });
        }
        splice(
            &mut self.frames[kept.frame],
            (at % PAGE as u64) as usize,
            bytes,
        );
        Ok(())
    }

    /// Reads the bytes from the address `at` on, which lie in one page, whatever its rights, if it is kept; says whether it
    /// is.
    #[inline(always)]
    pub fn peek(&self, at: u64, into: &mut [u8]) -> bool
        requires { at % 4096 + length into.old ≤ 4096 }
        ensures { MatchOption (finite.get self.now.pages (place.page at)) ((result ≡ false) × (into.new ≡ into.old)) (λ page. (result ≡ true) × (into.new ≡ slice_range page.bytes (at % 4096) (at % 4096 + length into.old))) }
    {
        let Ok(place) = self.kept.hinted_place(at / PAGE as u64) else {
            return false;
        };
        let kept = self.kept.at(place);
        let from = (at % PAGE as u64) as usize;
        let frame = &self.frames[kept.frame];
        into.copy_from_slice(&frame[from..from + into.len()]);
        true
    }

    /// Writes the bytes from the address `at` on, which lie in one page, whatever its rights, if it is kept; says whether
    /// it is. A page has 4096 bytes.
    #[inline(always)]
    pub fn poke(&mut self, at: u64, bytes: &[u8]) -> bool
        requires { at % 4096 + length bytes.now ≤ 4096 }
        ensures kept { result ≡ finite.contains_key self.old.pages (place.page at) }
        ensures after { self.new ≡ with_changed self.old (place.page at) (written (at % 4096) bytes.now) }
        ensures whole { IfSome (finite.get self.old.pages (place.page at)) (λ page. length page.bytes ≡ 4096) }
    {
        let Ok(place) = self.kept.hinted_place(at / PAGE as u64) else {
            return false;
        };
        let kept = self.kept.at(place);
        splice(
            &mut self.frames[kept.frame],
            (at % PAGE as u64) as usize,
            bytes,
        );
        true
    }

    /// Gives a page these rights, if it is kept; says whether it is.
    pub fn set_rights(&mut self, page: u64, rights: Rights) -> bool
        ensures kept { result ≡ finite.contains_key self.old.pages page }
        ensures after { self.new ≡ with_changed self.old page (with_rights rights) }
    {
        let Ok(place) = self.kept.place_of(page) else {
            return false;
        };
        self.kept.set_rights(place, rights);
        true
    }

    /// Makes a page zeros, if it is kept; says whether it is.
    pub fn zero(&mut self, page: u64) -> bool
        ensures kept { result ≡ finite.contains_key self.old.pages page }
        ensures after { self.new ≡ with_changed self.old page blanked }
    {
        let Ok(place) = self.kept.place_of(page) else {
            return false;
        };
        let kept = self.kept.at(place);
        blank_out(&mut self.frames[kept.frame]);
        true
    }

    /// Keeps one page more, of zeros, where it is not kept and there is room; says whether it did.
    pub fn add(&mut self, page: u64, rights: Rights) -> bool
        ensures room { result ≡ (not (finite.contains_key self.old.pages page) && nat_lt 0 self.old.spare) }
        ensures after { self.new ≡ (if result then with_added self.old page rights else self.old) }
    {
        let Err(place) = self.kept.place_of(page) else {
            return false;
        };
        if self.spare == 0 {
            return false;
        }
        let frame = take_frame(&mut self.frames, &mut self.free);
        self.kept.insert(
            place,
            Kept {
                page,
                rights,
                frame,
            },
        );
        self.spare -= 1;
        true
    }

    /// Gives up a page, if it is kept. Its room is left again.
    pub fn give_up(&mut self, page: u64)
        ensures { self.new ≡ without self.old page }
    {
        let Ok(place) = self.kept.place_of(page) else {
            return;
        };
        let kept = self.kept.remove(place);
        self.free.push_reserved(kept.frame);
        self.spare += 1;
    }
}
