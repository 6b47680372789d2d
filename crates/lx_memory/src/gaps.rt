// What holds of the pages of a range, and free ranges.

ghost use Rattle.std.specs.Prelude.{◌≡◌, ℕ, ◌+◌, ◌-◌, ◌^◌, ◌≤◌, ◌↔◌, IsTrue, Some, None, nat_le, if◌then◌else◌};
ghost use Rattle.page_ranges.specs.Ranges.{EachPage, SomePage};
ghost use Rattle.lx_memory.specs.Gaps.{IsMappedAt, IsExecutableAt, IsHighestGap};
ghost use Rattle.lx_memory.specs.Space.{IsInSpace};

use page_store::PageStore;
use places::limits::PAGES_END;

// Whether a range ends in the address space.
pub(crate) fn is_in_space(first: u64, count: u64) -> bool
    ensures { IsTrue result ↔ (first + count ≤ 2 ^ 52) }
{
    first <= PAGES_END && count <= PAGES_END - first
}

// Whether each page of a range is mapped.
pub(crate) fn each_mapped(pages: &PageStore, first: u64, count: u64) -> bool
    requires { IsInSpace pages.now.pages }
    ensures { IsTrue result ↔ EachPage first count (IsMappedAt pages.now.pages) }
{
    if !is_in_space(first, count) {
        return count == 0;
    }
    for i in 0..count {
        if pages.rights(first + i).is_none() {
            return false;
        }
    }
    true
}

// Whether a page is mapped with the right to execute.
fn is_executable(pages: &PageStore, page: u64) -> bool
    ensures { IsTrue result ↔ IsExecutableAt pages.now.pages page }
{
    match pages.rights(page) {
        Some(rights) => rights.execute,
        None => false,
    }
}

// Whether some page of a range is mapped with the right to execute.
pub(crate) fn some_executable(pages: &PageStore, first: u64, count: u64) -> bool
    requires { IsInSpace pages.now.pages }
    ensures { IsTrue result ↔ SomePage first count (IsExecutableAt pages.now.pages) }
{
    let mut at = first;
    let mut left = count;
    while let Some(page) = pages.next_kept(at, left) {
        if is_executable(pages, page) {
            return true;
        }
        left -= page - at + 1;
        at = page + 1;
    }
    false
}

// The highest place of so many pages from `from` on and below `to`, or the one found before where there is none.
fn higher(found: Option<u64>, count: u64, from: u64, to: u64) -> Option<u64>
    requires { from ≤ to }
    ensures { result ≡ (if nat_le count (to - from) then Some (to - count) else found) }
{
    if count <= to - from {
        Some(to - count)
    } else {
        found
    }
}

// The greatest first page of a free range. The pages that are mapped one behind the other are passed at once.
pub(crate) fn highest_free(pages: &PageStore, count: u64, low: u64, high: u64) -> Option<u64>
    requires space { IsInSpace pages.now.pages }
    requires order { low ≤ high }
    ensures { IsHighestGap pages.now.pages count low high result }
{
    if count == 0 {
        return Some(high);
    }
    let mut found = None;
    let mut at = low;
    while let Some(page) = pages.next_kept(at, high - at) {
        found = higher(found, count, at, page);
        let run = pages.kept_run(page + 1);
        at = high.min((page + 1).saturating_add(run));
    }
    higher(found, count, at, high)
}
