// Pieces of areas, joined one behind the other.

ghost use Rattle.std.specs.Prelude.{◌≡◌, ◌+◌, ◌*◌, ◌^◌, ◌<◌, ◌≤◌, [], fold, length, vec_len, vec_capacity};
ghost use Rattle.vm_areas.specs.PageMap.{end_of};
ghost use Rattle.vm_areas.specs.Painted.{painted, range_of};
ghost use Rattle.vm_areas.specs.Steps.{with_last, with_part, with_piece};

use crate::page_map::RANGES_END;
use crate::runs::Area;
use page_ranges::Rights;

// Puts a piece behind the areas: one run with the last where it touches it.
fn add_piece(areas: &mut Vec<Area>, piece: Area)
    requires end { 0 < piece.pages → end_of piece ≤ 2 ^ 53 }
    requires room { vec_len areas.old < vec_capacity areas.old }
    ensures items { areas.new.items ≡ with_piece areas.old.items piece }
    ensures len { vec_len areas.new ≤ vec_len areas.old + 1 }
    ensures capacity { vec_capacity areas.new ≡ vec_capacity areas.old }
{
    if piece.pages == 0 {
        return;
    }
    let Some(last) = areas.pop() else {
        areas.push_reserved(piece);
        return;
    };
    if last.touches(piece) {
        areas.push_reserved(Area {
            first: last.first,
            pages: last.pages + piece.pages,
            rights: last.rights,
        });
        return;
    }
    areas.push_reserved(last);
    areas.push_reserved(piece);
}

// Puts the parts of the areas from page `from` on and below page `to` behind those of `row`.
fn add_parts(row: &mut Vec<Area>, areas: &[Area], from: u64, to: u64)
    requires limit { to ≤ 2 ^ 53 }
    requires room { vec_len row.old + length areas.now ≤ vec_capacity row.old }
    ensures items { row.new.items ≡ fold (with_part from to) row.old.items areas.now }
    ensures len { vec_len row.new ≤ vec_len row.old + length areas.now }
    ensures capacity { vec_capacity row.new ≡ vec_capacity row.old }
{
    for area in areas {
        add_piece(row, area.clipped(from, to));
    }
}

// Puts a range with these rights behind the areas.
fn add_range(row: &mut Vec<Area>, first: u64, pages: u64, rights: Option<Rights>)
    requires end { first + pages ≤ 2 ^ 53 }
    requires room { vec_len row.old < vec_capacity row.old }
    ensures items { row.new.items ≡ fold with_piece row.old.items (range_of first pages rights) }
    ensures len { vec_len row.new ≤ vec_len row.old + 1 }
    ensures capacity { vec_capacity row.new ≡ vec_capacity row.old }
{
    if let Some(rights) = rights {
        add_piece(
            row,
            Area {
                first,
                pages,
                rights,
            },
        );
    }
}

// Makes `row` the areas after a change of the rights of a range.
pub(crate) fn paint(
    row: &mut Vec<Area>,
    areas: &[Area],
    first: u64,
    pages: u64,
    rights: Option<Rights>,
)
    requires end { first + pages ≤ 2 ^ 53 }
    requires room { 2 * length areas.now + 1 ≤ vec_capacity row.old }
    ensures items { row.new.items ≡ painted areas.now first pages rights }
    ensures capacity { vec_capacity row.new ≡ vec_capacity row.old }
{
    row.clear();
    add_parts(row, areas, 0, first);
    add_range(row, first, pages, rights);
    add_parts(row, areas, first + pages, RANGES_END);
}
