//! Reads the image of a program: a static ELF-64 executable for arm64.
#![tactic(auto)]

mod cursor;
mod fault;
mod headers;
mod parts;
mod reader;
mod rules;
mod span;

pub use crate::fault::{ElfFault, ElfKind};
pub use crate::parts::{Bytes, Image, Segment, Segments};
pub use crate::reader::read_image;
