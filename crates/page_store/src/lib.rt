//! Pages of 4096 bytes by their numbers, each with its rights, in memory that is reserved once: a page is kept and given up
//! without taking memory.
//!
//! Contracts see a `PageStore` as a `Keeping` (`specs/Pages.antt`): a finite map from page numbers to pages, and the room
//! that is left. The proof of the representation stays in this crate.
#![tactic(auto)]

mod kept_row;
mod page_store;

pub use crate::page_store::PageStore;
