//! Reading a tape file.

ghost use Rattle.std.specs.Prelude.{◌≡◌, ◌+◌, ◌≤◌, ◌++◌, ℕ, List, length, Some, None, IfOk, IfErr, MatchResult};
ghost use Rattle.tape.specs.TapeText.{IsTextOf, FitsFile};
ghost use Rattle.tape.specs.TapeFile.{header_in, entries_in};
ghost use Rattle.tape.specs.TapeFault.{tape_fault, IsCause};

use crate::entry::Entry;
use crate::fault::TapeFault;
use crate::header::Header;
use crate::layout::{MAGIC, MAGIC_1};
use crate::tape::Tape;
use crate::{version_1, version_2};
use std::alloc::Global;

/// The header of a file that has no fault in any of its bytes. It takes no memory.
#[tactic(auto, unfolding(crate::specs::TapeFault::tape_fault, crate::specs::TapeFile::header_in, crate::specs::TapeFile::is_version_1))]
fn judge(bytes: &[u8]) -> Result<Header, TapeFault>
    ensures sound { IfOk result (λ _. tape_fault bytes.now ≡ None) }
    ensures header { IfOk result (λ header. header ≡ header_in bytes.now) }
    ensures fault { IfErr result (λ fault. tape_fault bytes.now ≡ Some fault) }
{
    if bytes.starts_with(&MAGIC_1) {
        version_1::judge(bytes)
    } else if bytes.starts_with(&MAGIC) {
        version_2::judge(bytes)
    } else {
        Err(TapeFault::BadMagic)
    }
}

/// Adds the entries of a file without a fault to a tape that has room for them.
#[tactic(auto, unfolding(crate::specs::TapeFault::tape_fault, crate::specs::TapeFile::entries_in, crate::specs::TapeFile::is_version_1))]
fn fill(tape: &mut Tape, bytes: &[u8])
    requires whole { tape_fault bytes.now ≡ None }
    requires room { length tape.old.entries + length (entries_in bytes.now) ≤ tape.old.room }
    ensures { tape.new ≡ record tape.old { entries = tape.old.entries ++ entries_in bytes.now } }
{
    if bytes.starts_with(&MAGIC_1) {
        version_1::fill(tape, bytes);
    } else {
        version_2::fill(tape, bytes);
    }
}

/// The tape that a file of either version keeps; its room is its number of entries. The whole file is
/// looked at before any memory is taken, so a fault costs nothing, however many entries the file claims.
pub fn read_tape(alloc: Global, bytes: &[u8]) -> Result<Tape, TapeFault>
    // Bytes with a fault are refused with the first one, and none are without, unless memory runs out.
    ensures refused { (fault : TapeFault) → tape_fault bytes.now ≡ Some fault → result ≡ Err fault }
    ensures cause { IfErr result (IsCause bytes.now) }
    ensures sound { IfOk result (λ _. tape_fault bytes.now ≡ None) }

    // The bytes are the text of what is read, each of them.
    ensures text { IfOk result (λ tape. IsTextOf bytes.now tape.seed tape.pages tape.rules tape.entries) }
    ensures fits { IfOk result (λ tape. FitsFile tape.seed tape.pages tape.rules tape.entries) }
    ensures room { IfOk result (λ tape. tape.room ≡ length tape.entries) }

    // What a tape file spells is read again.
    ensures again { (seed pages rules : ℕ) (entries : List Entry) → FitsFile seed pages rules entries → IsTextOf bytes.now seed pages rules entries
        → MatchResult result (λ tape. tape ≡ record { seed = seed; pages = pages; rules = rules; room = length entries; entries = entries }) (λ fault. fault ≡ TapeFault.NoMemory) }
{
    let header = judge(bytes)?;
    let mut tape = Tape::with_room(alloc, header.seed, header.pages, header.rules, header.count)?;
    fill(&mut tape, bytes);
    Ok(tape)
}
