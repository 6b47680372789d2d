//! Reading a tape file of version 1.

ghost use Rattle.std.specs.Prelude.{◌≡◌, ◌+◌, ◌*◌, ◌≤◌, ◌++◌, length, map, not, position, slice_index, Some, None, IfOk, IfErr};
ghost use Rattle.tape.specs.Entry as spec;
ghost use Rattle.tape.specs.TapeFile.{count_in_1, entry_at_1, entries_in_1, header_in_1};
ghost use Rattle.tape.specs.TapeFault.{header_fault_1, fault_1};

use crate::entry::{Entry, is_actor};
use crate::fault::TapeFault;
use crate::header::{Header, number};
use crate::layout::{ENTRY_LENGTH, HEADER_LENGTH_1, MOST_ENTRIES, MOST_PAGES};
use crate::tape::Tape;

/// The header of a file whose header and length have no fault.
#[tactic(auto, unfolding(crate::specs::TapeFault::header_fault_1, crate::specs::TapeFile::seed_in, crate::specs::TapeFile::pages_in, crate::specs::TapeFile::count_in_1))]
fn read_header(bytes: &[u8]) -> Result<Header, TapeFault>
    ensures sound { IfOk result (λ _. header_fault_1 bytes.now ≡ None) }
    ensures header { IfOk result (λ header. header ≡ header_in_1 bytes.now) }
    ensures exact { IfOk result (λ _. length bytes.now ≡ 32 + 9 * count_in_1 bytes.now) }
    ensures fault { IfErr result (λ fault. header_fault_1 bytes.now ≡ Some fault) }
{
    let torn = TapeFault::Torn {
        at: bytes.len() as u64,
    };
    if bytes.len() < HEADER_LENGTH_1 {
        return Err(torn);
    }
    let pages = number(bytes, 16);
    if pages == 0 || pages > MOST_PAGES {
        return Err(TapeFault::BadPages { pages });
    }
    let count = number(bytes, 24);
    if count > MOST_ENTRIES {
        return Err(TapeFault::TooLong { count });
    }
    if bytes.len() != HEADER_LENGTH_1 + ENTRY_LENGTH * count as usize {
        return Err(torn);
    }
    Ok(Header {
        seed: number(bytes, 8),
        pages: pages as u32,
        rules: 1,
        count: count as u32,
    })
}

/// The bytes of each entry of a file that is as long as its count asks for.
fn records_of(bytes: &[u8]) -> &[[u8; ENTRY_LENGTH]]
    requires { length bytes.now ≡ 32 + 9 * count_in_1 bytes.now }
    ensures { map (λ bytes. entry_at_1 bytes 0) result.now ≡ entries_in_1 bytes.now }
{
    bytes[HEADER_LENGTH_1..].as_chunks::<ENTRY_LENGTH>().0
}

/// The place of the first entry whose actor is none.
fn first_bad_actor(records: &[[u8; ENTRY_LENGTH]]) -> Option<usize>
    ensures { result ≡ position (λ bytes. not (spec.is_actor 1 (slice_index bytes 0))) records.now }
{
    records.iter().position(|record| !is_actor(1, record[0]))
}

/// The header of a file of version 1 that has no fault.
#[tactic(auto, unfolding(crate::specs::TapeFault::fault_1))]
pub(crate) fn judge(bytes: &[u8]) -> Result<Header, TapeFault>
    ensures sound { IfOk result (λ _. fault_1 bytes.now ≡ None) }
    ensures header { IfOk result (λ header. header ≡ header_in_1 bytes.now) }
    ensures fault { IfErr result (λ fault. fault_1 bytes.now ≡ Some fault) }
{
    let header = read_header(bytes)?;
    match first_bad_actor(records_of(bytes)) {
        Some(at) => Err(TapeFault::BadActor { at: at as u64 }),
        None => Ok(header),
    }
}

/// The entry of nine bytes.
fn entry_of(bytes: &[u8; ENTRY_LENGTH]) -> Entry
    ensures { result ≡ entry_at_1 bytes.now 0 }
{
    Entry {
        actor: bytes[0],
        amount: number(bytes, 1),
    }
}

/// Adds entries to a tape that has room for them.
fn push_all(tape: &mut Tape, records: &[[u8; ENTRY_LENGTH]])
    requires { length tape.old.entries + length records.now ≤ tape.old.room }
    ensures { tape.new ≡ record tape.old { entries = tape.old.entries ++ map (λ bytes. entry_at_1 bytes 0) records.now } }
{
    for record in records {
        let Ok(()) = tape.push(entry_of(record)) else {
            unreachable!()
        };
    }
}

/// Adds the entries of a file of version 1 to a tape that has room for them.
pub(crate) fn fill(tape: &mut Tape, bytes: &[u8])
    requires whole { fault_1 bytes.now ≡ None }
    requires room { length tape.old.entries + length (entries_in_1 bytes.now) ≤ tape.old.room }
    ensures { tape.new ≡ record tape.old { entries = tape.old.entries ++ entries_in_1 bytes.now } }
{
    push_all(tape, records_of(bytes));
}
