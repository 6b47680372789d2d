// How many areas pieces make, without making them.

ghost use Rattle.std.specs.Prelude.{◌≡◌, ◌+◌, ◌^◌, ◌<◌, ◌≤◌, List, fold, length};
ghost use Rattle.vm_areas.specs.declared.runs.Area.{Area as AnArea};
ghost use Rattle.vm_areas.specs.PageMap.{end_of};
ghost use Rattle.vm_areas.specs.Painted.{painted, range_of};
ghost use Rattle.vm_areas.specs.Steps.{tally_of, with_part, with_piece};

use crate::page_map::RANGES_END;
use crate::runs::Area;
use page_ranges::Rights;

// How many areas there are, and the last of them.
#[derive(Clone, Copy)]
pub(crate) struct Tally {
    pub(crate) count: usize,
    pub(crate) last: Option<Area>,
}

// Counts one more piece behind the areas.
fn count_piece(tally: Tally, piece: Area) -> Tally
    requires count { tally.count < usize.MAX }
    requires end { 0 < piece.pages → end_of piece ≤ 2 ^ 53 }
    ensures tally { (areas : List AnArea) → tally ≡ tally_of areas → result ≡ tally_of (with_piece areas piece) }
    ensures count { result.count ≤ tally.count + 1 }
{
    if piece.pages == 0 {
        return tally;
    }
    match tally.last {
        Some(last) if last.touches(piece) => Tally {
            count: tally.count,
            last: Some(Area {
                first: last.first,
                pages: last.pages + piece.pages,
                rights: last.rights,
            }),
        },
        _ => Tally {
            count: tally.count + 1,
            last: Some(piece),
        },
    }
}

// Counts the parts of the areas from page `from` on and below page `to`.
fn count_parts(mut tally: Tally, areas: &[Area], from: u64, to: u64) -> Tally
    requires limit { to ≤ 2 ^ 53 }
    requires count { tally.count + length areas.now < usize.MAX }
    ensures tally { (row : List AnArea) → tally ≡ tally_of row → result ≡ tally_of (fold (with_part from to) row areas.now) }
    ensures count { result.count ≤ tally.count + length areas.now }
{
    for area in areas {
        tally = count_piece(tally, area.clipped(from, to));
    }
    tally
}

// Counts a range with these rights.
fn count_range(tally: Tally, first: u64, pages: u64, rights: Option<Rights>) -> Tally
    requires end { first + pages ≤ 2 ^ 53 }
    requires count { tally.count < usize.MAX }
    ensures tally { (row : List AnArea) → tally ≡ tally_of row → result ≡ tally_of (fold with_piece row (range_of first pages rights)) }
    ensures count { result.count ≤ tally.count + 1 }
{
    match rights {
        Some(rights) => count_piece(
            tally,
            Area {
                first,
                pages,
                rights,
            },
        ),
        None => tally,
    }
}

// How many areas there are after a change of the rights of a range.
pub(crate) fn painted_count(areas: &[Area], first: u64, pages: u64, rights: Option<Rights>) -> usize
    requires end { first + pages ≤ 2 ^ 53 }
    requires few { length areas.now ≤ 1024 }
    ensures { result ≡ length (painted areas.now first pages rights) }
{
    let tally = Tally {
        count: 0,
        last: None,
    };
    let tally = count_parts(tally, areas, 0, first);
    let tally = count_range(tally, first, pages, rights);
    let tally = count_parts(tally, areas, first + pages, RANGES_END);
    tally.count
}
