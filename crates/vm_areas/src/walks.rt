// Walks over areas.

ghost use Rattle.std.specs.Prelude.{◌≡◌, ◌+◌, ◌^◌, ◌<◌, ◌≤◌, fold, length, All};
ghost use Rattle.std.specs.List.{list_any};
ghost use Rattle.vm_areas.specs.PageMap.{end_of, rights_at};
ghost use Rattle.vm_areas.specs.Steps.{highest_place, meets, meets_code, place_between, step_over};

use crate::page_map::{HIGHEST_END, LOWEST};
use crate::runs::Area;
use page_ranges::Rights;

// The rights at a page.
pub(crate) fn rights_in(areas: &[Area], page: u64) -> Option<Rights>
    ensures { result ≡ rights_at areas.now page }
{
    for area in areas {
        if area.holds(page) {
            return Some(area.rights);
        }
    }
    None
}

// The first page from `first` on that is not mapped.
pub(crate) fn reached(areas: &[Area], first: u64) -> u64
    requires { All (λ area. end_of area ≤ 2 ^ 53) areas.now }
    ensures { result ≡ fold step_over first areas.now }
{
    let mut at = first;
    for area in areas {
        if area.holds(at) {
            at = area.end();
        }
    }
    at
}

// Whether some area has a page of the range.
pub(crate) fn any_meets(areas: &[Area], from: u64, to: u64) -> bool
    ensures { result ≡ list_any (meets from to) areas.now }
{
    areas.iter().any(|area| area.clipped(from, to).pages > 0)
}

// Whether some area has a page of the range, and the right to execute.
pub(crate) fn any_meets_code(areas: &[Area], from: u64, to: u64) -> bool
    ensures { result ≡ list_any (meets_code from to) areas.now }
{
    areas.iter().any(|area| area.clipped(from, to).pages > 0 && area.rights.execute)
}

// The highest place of so many pages from `from` on and below `to`.
fn place_in(pages: u64, from: u64, to: u64) -> Option<u64>
    ensures { result ≡ place_between pages from to }
{
    if to >= from && to - from >= pages {
        Some(to - pages)
    } else {
        None
    }
}

// The highest place of so many pages between the areas.
pub(crate) fn place_among(areas: &[Area], pages: u64) -> Option<u64>
    requires { All (λ area. end_of area ≤ 2 ^ 53) areas.now }
    ensures { result ≡ highest_place pages LOWEST areas.now }
{
    let mut from = LOWEST;
    let mut best = None;
    for area in areas {
        best = place_in(pages, from, area.first.min(HIGHEST_END)).or(best);
        from = from.max(area.end());
    }
    place_in(pages, from, HIGHEST_END).or(best)
}
