// Changes of the pages of a range.

ghost use Rattle.std.specs.Prelude.{◌≡◌, ℕ, ◌+◌, ◌^◌, ◌≤◌};
ghost use Rattle.std.specs.FinMap as finite;
ghost use Rattle.page_store.specs.Pages.{Pages};
ghost use Rattle.lx_memory.specs.Ranges.{with_page, anew, IsOnEach};
ghost use Rattle.lx_memory.specs.Space.{IsInSpace, becomes, one_if_free, free_count};

use page_ranges::Rights;
use page_store::PageStore;

// What becomes of a mapped page.
#[derive(Clone, Copy)]
pub(crate) enum Change {
    Unmap,
    Protect(Rights),
    Zero,
}

// Changes one page, if it is mapped.
fn change_page(pages: &mut PageStore, page: u64, change: Change)
    ensures { pages.new.pages ≡ with_page pages.old.pages page (becomes change (finite.get pages.old.pages page)) }
{
    match change {
        Change::Unmap => pages.give_up(page),
        Change::Protect(rights) => {
            let _ = pages.set_rights(page, rights);
        }
        Change::Zero => {
            let _ = pages.zero(page);
        }
    }
}

// Changes each mapped page of a range.
pub(crate) fn change_each(pages: &mut PageStore, first: u64, count: u64, change: Change)
    requires { IsInSpace pages.old.pages }
    ensures { IsOnEach (becomes change) pages.old.pages first count pages.new.pages }
{
    let mut at = first;
    let mut left = count;
    while let Some(page) = pages.next_kept(at, left) {
        change_page(pages, page, change);
        left -= page - at + 1;
        at = page + 1;
    }
}

// How many pages of a range are mapped.
pub(crate) fn count_mapped(pages: &PageStore, first: u64, count: u64) -> u64
    requires { first + count ≤ 2 ^ 52 }
    ensures { result + free_count pages.now.pages first count ≡ count }
{
    let mut at = first;
    let mut left = count;
    let mut mapped = 0;
    while let Some(page) = pages.next_kept(at, left) {
        mapped += 1;
        left -= page - at + 1;
        at = page + 1;
    }
    mapped
}

// Maps one page, for which there is room if it is not mapped.
fn map_page(pages: &mut PageStore, page: u64, rights: Rights)
    requires { one_if_free (finite.get pages.old.pages page) ≤ pages.old.spare }
    ensures after { pages.new.pages ≡ with_page pages.old.pages page (anew rights (finite.get pages.old.pages page)) }
    ensures spare { pages.old.spare ≤ pages.new.spare + one_if_free (finite.get pages.old.pages page) }
{
    if pages.set_rights(page, rights) {
        let _ = pages.zero(page);
    } else {
        let _ = pages.add(page, rights);
    }
}

// Maps each page of a range, for which there is room.
pub(crate) fn map_each(pages: &mut PageStore, first: u64, count: u64, rights: Rights)
    requires space { first + count ≤ 2 ^ 52 }
    requires room { free_count pages.old.pages first count ≤ pages.old.spare }
    ensures { IsOnEach (anew rights) pages.old.pages first count pages.new.pages }
{
    for i in 0..count {
        map_page(pages, first + i, rights);
    }
}
