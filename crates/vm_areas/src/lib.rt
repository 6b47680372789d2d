//! The areas of an address space: its maximal runs of mapped pages with equal rights, kept in order.
//! Contracts see `Areas` as the list of them, and `rights_at` reads the rights of a page from that list.
#![tactic(auto)]

mod laws;
mod page_map;
mod pieces;
mod runs;
mod tally;
mod walks;

pub use crate::laws::{
    no_change_without_pages, one_list_for_a_page_map, one_result_of_a_change,
    painted_over_the_range,
};
pub use crate::page_map::{Areas, AreasFull, NoMemory};
pub use crate::runs::Area;
pub use page_ranges::Rights;
