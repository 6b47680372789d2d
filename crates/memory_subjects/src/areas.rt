//! Areas of an address space (`vm_areas`).
ghost use Rattle.std.specs.Prelude.{◌≡◌, ◌+◌, ◌^◌, ◌≤◌, IsTrue};

use crate::rights::{rights, rights_found, rights_or_none};
use case_words::answers::{Answer, Refusal};
use case_words::arguments::Arguments;
use case_words::subject::Subject;
use page_ranges::Rights;
use std::alloc::Global;
use vm_areas::{Areas, AreasFull};

/// The page at or below which each range ends.
const RANGES_END: u64 = 1 << 53;

/// Pages from a first one on.
#[derive(Clone, Copy)]
pub struct Range {
    pub first: u64,
    pub pages: u64,
}

/// A call on a range of pages.
#[derive(Clone, Copy)]
pub enum RangeCall {
    Put(Rights),
    Cut,
    AllMapped,
    AllFree,
    AnyExecutable,
    Fits(Option<Rights>),
}

/// A call on areas.
#[derive(Clone, Copy)]
pub enum AreasCall {
    Find(u64),
    RightsAt(u64),
    OnRange(Range, RangeCall),
}

impl Range {
    /// The range that these arguments tell.
    pub fn of(of: Arguments<'_>) -> Result<Range, Refusal> {
        Ok(Range {
            first: of.number("first")?,
            pages: of.number("pages")?,
        })
    }

    /// Whether it ends where it may.
    fn ends_well(self) -> bool
        ensures { IsTrue result → self.first + self.pages ≤ 2 ^ 53 }
    {
        self.first <= RANGES_END && self.pages <= RANGES_END - self.first
    }
}

/// The call on a range of this name.
fn range_call(name: &str, of: Arguments<'_>) -> Result<RangeCall, Refusal> {
    match name {
        "put" => Ok(RangeCall::Put(rights(of)?)),
        "cut" => Ok(RangeCall::Cut),
        "all-mapped" => Ok(RangeCall::AllMapped),
        "all-free" => Ok(RangeCall::AllFree),
        "any-executable" => Ok(RangeCall::AnyExecutable),
        "fits" => Ok(RangeCall::Fits(rights_or_none(of)?)),
        _ => Err(Refusal::NotACall),
    }
}

/// The call of this name.
pub fn areas_call(name: &str, of: Arguments<'_>) -> Result<AreasCall, Refusal> {
    match name {
        "find" => Ok(AreasCall::Find(of.number("pages")?)),
        "rights-at" => Ok(AreasCall::RightsAt(of.number("page")?)),
        _ => Ok(AreasCall::OnRange(Range::of(of)?, range_call(name, of)?)),
    }
}

/// What a change answers.
fn changed(change: Result<(), AreasFull>) -> Answer {
    match change {
        Ok(()) => Answer::Done,
        Err(AreasFull) => Answer::Word("full"),
    }
}

fn on_range(areas: &mut Areas, range: Range, call: RangeCall) -> Result<Answer, Refusal> {
    if !range.ends_well() {
        return Err(Refusal::NotMet);
    }
    let (first, pages) = (range.first, range.pages);
    Ok(match call {
        RangeCall::Put(rights) => changed(areas.put(first, pages, rights)),
        RangeCall::Cut => changed(areas.cut(first, pages)),
        RangeCall::AllMapped => Answer::Is(areas.all_mapped(first, pages)),
        RangeCall::AllFree => Answer::Is(areas.all_free(first, pages)),
        RangeCall::AnyExecutable => Answer::Is(areas.any_executable(first, pages)),
        RangeCall::Fits(rights) => Answer::Is(areas.fits(first, pages, rights)),
    })
}

/// Makes a call on areas.
pub fn play_areas(areas: &mut Areas, alloc: Global, call: AreasCall) -> Result<Answer, Refusal> {
    match call {
        AreasCall::Find(pages) => Ok(Answer::address(areas.find(pages))),
        AreasCall::RightsAt(page) => Ok(rights_found(alloc, areas.rights_at(page))?),
        AreasCall::OnRange(range, call) => on_range(areas, range, call),
    }
}

/// Areas, as a script makes and calls it.
#[derive(Drop)]
pub struct AreasSubject(Areas);

impl Subject for AreasSubject {
    fn make(alloc: Global, _of: Arguments<'_>) -> Result<AreasSubject, Refusal> {
        match Areas::make(alloc) {
            Ok(areas) => Ok(AreasSubject(areas)),
            Err(_) => Err(Refusal::NoMemory),
        }
    }

    fn call(&mut self, alloc: Global, name: &str, of: Arguments<'_>) -> Result<Answer, Refusal> {
        let call = areas_call(name, of)?;
        play_areas(&mut self.0, alloc, call)
    }
}
