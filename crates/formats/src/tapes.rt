//! What is read of bytes as a tape file, and how a tape is written.

ghost use Rattle.std.specs.Prelude.{◌≡◌};

use crate::texts::{number, write_hex};
use crate::trouble::Trouble;
use std::alloc::{AllocError, Global};
use tape::{Entry, Tape, read_tape, write_tape};

// A file of more bytes is told by its length alone.
const SHOWN: usize = 100;

// So many equal entries.
fn write_run_of(text: &mut String, count: u64, entry: Entry) -> Result<(), AllocError> {
    write!(
        text,
        ", {count} of actor {} and amount {}",
        entry.actor, entry.amount
    )
}

// Entries as runs of equal ones.
fn write_runs(text: &mut String, entries: &[Entry]) -> Result<(), AllocError> {
    let mut last: Option<(Entry, u64)> = None;
    for entry in entries {
        last = match last {
            Some((first, count)) if first.actor == entry.actor && first.amount == entry.amount => {
                Some((first, count.saturating_add(1)))
            }
            Some((first, count)) => {
                write_run_of(text, count, first)?;
                Some((*entry, 1))
            }
            None => Some((*entry, 1)),
        };
    }
    match last {
        Some((first, count)) => write_run_of(text, count, first),
        None => Ok(()),
    }
}

// A tape, and its file.
fn write_whole(text: &mut String, alloc: Global, tape: &Tape) -> Result<(), Trouble> {
    write!(
        text,
        "seed {}, {} pages, rules {}, room {}",
        tape.seed(),
        tape.pages(),
        tape.rules(),
        tape.room()
    )?;
    write_runs(text, tape.entries())?;
    let Ok(file) = write_tape(alloc, tape) else {
        return Err(Trouble::NoMemory);
    };
    write!(text, "; {} bytes", file.len())?;
    if file.len() <= SHOWN {
        text.push_str(" ")?;
        write_hex(text, &file)?;
    }
    Ok(())
}

/// The tape that is read of the bytes, with its file, or why there is none.
pub fn write_tape_of(text: &mut String, alloc: Global, bytes: &[u8]) -> Result<(), Trouble> {
    match read_tape(alloc, bytes) {
        Ok(tape) => write_whole(text, alloc, &tape),
        Err(fault) => {
            text.push_str(fault.text())?;
            if let Some(place) = fault.place() {
                write!(text, "{place}")?;
            }
            Ok(())
        }
    }
}

// Puts an entry so many times into a tape, and tells how often it was refused.
fn push_all(tape: &mut Tape, count: u64, entry: Entry) -> u64 {
    let mut refused = 0u64;
    for _ in 0..count {
        if tape.push(entry).is_err() {
            refused = refused.saturating_add(1);
        }
    }
    refused
}

// Puts entries into a tape, each told by three words, and tells how many were refused.
fn push_told(tape: &mut Tape, words: &[&str]) -> u64 {
    let mut refused = 0u64;
    for told in words.as_chunks::<3>().0 {
        if let (Some(count), Some(actor), Some(amount)) = (
            number(told[0]),
            number(told[1]),
            number(told[2]),
        ) {
            let entry = Entry {
                actor: actor.min(255) as u8,
                amount,
            };
            refused = refused.saturating_add(push_all(tape, count, entry));
        }
    }
    refused
}

// A tape can be handed from thread to thread.
fn across_threads<T: Send + Sync>(value: T) -> T
    ensures { result ≡ value }
{
    value
}

/// A new tape with entries, of which the first are kept, its file, and what is read of that file.
pub fn write_record(
    text: &mut String,
    alloc: Global,
    head: [u64; 5],
    entries: &[&str],
) -> Result<(), Trouble> {
    let [seed, pages, rules, room, kept] = head;
    let Ok(mut tape) = Tape::with_room(
        alloc,
        seed,
        pages.min(65_536) as u32,
        if rules == 1 { 1 } else { 2 },
        room.min(20_000_000) as u32,
    ) else {
        return Err(Trouble::NoMemory);
    };
    let refused = push_told(&mut tape, entries);
    let mut tape = across_threads(tape);
    write!(text, "{refused} refused; ")?;
    let count = kept.min(tape.entries().len() as u64);
    tape.keep(count);
    write_whole(text, alloc, &tape)?;
    let Ok(file) = write_tape(alloc, &tape) else {
        return Err(Trouble::NoMemory);
    };
    text.push_str("; read again: ")?;
    write_tape_of(text, alloc, &file)
}
