//! Calls of the top call, over forms in memory.

use crate::texts::text_of;
use linuxulator_cli::run_program;
use outside::{MemShelf, MemSink, MemSource, Source};
use std::alloc::{AllocError, Global};

// The words, each in a text of its own.
fn owned(alloc: Global, words: &[&str]) -> Result<Vec<String>, AllocError> {
    let mut own = Vec::new(alloc);
    for word in words {
        own.push(String::from_str(alloc, word)?)?;
    }
    Ok(own)
}

/// The status, the number of entries and all that was put out, where these calls on the shelf, on standard output and on
/// standard error fail. Standard output takes one byte at a time, and standard error seven.
pub fn write_run(
    text: &mut String,
    alloc: Global,
    fails: [u64; 3],
    file: Vec<u8>,
    words: &[&str],
) -> Result<(), AllocError> {
    let [load, write, last] = fails;
    let name = String::from_str(alloc, "guest")?;
    let mut shelf = MemShelf::make(alloc, vec![in alloc; (name, file)]?, vec![in alloc; load]?);
    let mut out = MemSink::make(Vec::new(alloc), 1, vec![in alloc; write]?);
    let mut err = MemSink::make(Vec::new(alloc), 7, vec![in alloc; last]?);
    let words = owned(alloc, words)?;
    let outcome = run_program(alloc, &words, &mut shelf, &mut out, &mut err);
    write!(
        text,
        "status {}, {} entries, out {:?}, err {:?}",
        outcome.status,
        outcome.count,
        text_of(out.taken()),
        text_of(err.taken())
    )
}

/// What the reads of a source in memory give, of which one fails, to its end.
pub fn write_source(
    text: &mut String,
    alloc: Global,
    size: u64,
    fails: u64,
    bytes: &[u8],
) -> Result<(), AllocError> {
    let mut source = MemSource::make(bytes.to_vec(alloc)?, vec![in alloc; fails]?);
    let mut room = vec![in alloc; 0u8; size.min(64) as usize]?;
    for _ in 0..=bytes.len().min(64) {
        match source.read(&mut room) {
            Ok(count) => write!(text, "{:?} ", text_of(&room[..count]))?,
            Err(_) => text.push_str("failed ")?,
        }
    }
    Ok(())
}
