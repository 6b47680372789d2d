//! Writing a tape file.

ghost use Rattle.std.specs.Prelude.{◌≡◌, ◌+◌, ◌*◌, ◌^◌, ◌<◌, ◌≤◌, ◌++◌, length, None, IfOk, OnOk, vec_len};
ghost use Rattle.std.specs.List.{flat_map, AllByRecursion};
ghost use Rattle.places.specs.Places.{bytes_of};
ghost use Rattle.tape.specs.Runs.{run_text, runs_of, FitsRun};
ghost use Rattle.tape.specs.TapeText.{magic, tape_text, IsAllowed, FitsFile};
ghost use Rattle.tape.specs.TapeFault.{tape_fault};

use crate::entry::Entry;
use crate::fault::NoMemory;
use crate::layout::{HEADER_LENGTH, MAGIC, RUN_LENGTH};
use crate::run::{Run, split_run};
use crate::tape::Tape;
use byteorder::{ByteOrder, LittleEndian};
use std::alloc::{AllocError, Global};

/// The thirteen bytes of a run.
fn record_of(run: Run) -> [u8; RUN_LENGTH]
    ensures { result ≡ run_text run }
{
    let mut bytes = [0; RUN_LENGTH];
    bytes[0] = run.entry.actor;
    LittleEndian::write_u32(&mut bytes[1..], run.length);
    LittleEndian::write_u64(&mut bytes[5..], run.entry.amount);
    bytes
}

/// The 40 bytes in front of the runs.
fn header_of(tape: &Tape) -> [u8; HEADER_LENGTH]
    ensures seed { tape.now.seed < 2 ^ 64 }
    ensures text { result ≡ magic ++ (bytes_of tape.now.seed 8 ++ (bytes_of tape.now.pages 8 ++ (bytes_of tape.now.rules 8 ++ bytes_of (length tape.now.entries) 8))) }
{
    let mut bytes = [0; HEADER_LENGTH];
    bytes[..8].copy_from_slice(&MAGIC);
    LittleEndian::write_u64(&mut bytes[8..], tape.seed());
    LittleEndian::write_u64(&mut bytes[16..], u64::from(tape.pages()));
    LittleEndian::write_u64(&mut bytes[24..], u64::from(tape.rules()));
    LittleEndian::write_u64(&mut bytes[32..], tape.entries().len() as u64);
    bytes
}

/// How many runs entries have.
fn count_runs(entries: &[Entry]) -> usize
    requires { length entries.now < 2 ^ 32 }
    ensures value { result ≡ length (runs_of entries.now) }
    ensures few { result ≤ length entries.now }
    ensures fits { AllByRecursion FitsRun (runs_of entries.now) }
{
    let mut count = 0;
    let mut rest = entries;
    while let Some((_, behind)) = split_run(rest) {
        count += 1;
        rest = behind;
    }
    count
}

/// Writes the runs of entries behind a text.
fn write_runs(text: &mut Vec<u8>, entries: &[Entry]) -> Result<(), AllocError>
    requires { length entries.now < 2 ^ 32 }
    ensures text { OnOk result (text.new.items ≡ text.old.items ++ flat_map run_text (runs_of entries.now)) }
    ensures length { OnOk result (vec_len text.new ≡ vec_len text.old + 13 * length (runs_of entries.now)) }
{
    let mut rest = entries;
    while let Some((run, behind)) = split_run(rest) {
        text.extend_from_slice(&record_of(run))?;
        rest = behind;
    }
    Ok(())
}

/// The file of a tape, in version 2.
#[tactic(auto, unfolding(crate::specs::TapeText::tape_text))]
pub fn write_tape(alloc: Global, tape: &Tape) -> Result<Vec<u8>, NoMemory>
    ensures text { IfOk result (λ text. text.items ≡ tape_text tape.now.seed tape.now.pages tape.now.rules tape.now.entries) }
    ensures length { IfOk result (λ text. vec_len text ≡ 40 + 13 * length (runs_of tape.now.entries)) }

    // A tape that a file may keep can be read again.
    ensures fits { IfOk result (λ _. IsAllowed tape.now.pages tape.now.rules tape.now.entries → FitsFile tape.now.seed tape.now.pages tape.now.rules tape.now.entries) }
    ensures sound { IfOk result (λ text. IsAllowed tape.now.pages tape.now.rules tape.now.entries → tape_fault text.items ≡ None) }
{
    let entries = tape.entries();
    let mut text = Vec::with_capacity(alloc, HEADER_LENGTH + RUN_LENGTH * count_runs(entries))?;
    text.extend_from_slice(&header_of(tape))?;
    write_runs(&mut text, entries)?;
    Ok(text)
}
