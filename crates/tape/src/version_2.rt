//! Reading a tape file of version 2.

ghost use Rattle.std.specs.Prelude.{◌≡◌, ◌+◌, ◌*◌, ◌≤◌, ◌<◌, ◌^◌, ◌++◌, length, map, Some, None, IfOk, IfErr};
ghost use Rattle.std.specs.List.{flat_map};
ghost use Rattle.tape.specs.Runs as spec;
ghost use Rattle.tape.specs.TapeFile.{run_at, runs_in, header_in_2};
ghost use Rattle.tape.specs.TapeFault.{header_fault, run_fault, runs_fault, fault_2, past, at_start};

use crate::entry::{Entry, is_actor, same_entry};
use crate::fault::TapeFault;
use crate::front::Front;
use crate::header::{Header, number};
use crate::layout::{HEADER_LENGTH, LAST_RULES, MOST_ENTRIES, MOST_PAGES, RUN_LENGTH};
use crate::run::Run;
use crate::tape::Tape;
use byteorder::{ByteOrder, LittleEndian};

/// The header of a file whose header has no fault.
#[tactic(auto, unfolding(crate::specs::TapeFault::header_fault, crate::specs::TapeFile::seed_in, crate::specs::TapeFile::pages_in, crate::specs::TapeFile::rules_in, crate::specs::TapeFile::count_in))]
fn read_header(bytes: &[u8]) -> Result<Header, TapeFault>
    ensures sound { IfOk result (λ _. header_fault bytes.now ≡ None) }
    ensures header { IfOk result (λ header. header ≡ header_in_2 bytes.now) }
    ensures long { IfOk result (λ _. 40 ≤ length bytes.now) }
    ensures fault { IfErr result (λ fault. header_fault bytes.now ≡ Some fault) }
{
    if bytes.len() < HEADER_LENGTH {
        return Err(TapeFault::Torn {
            at: bytes.len() as u64,
        });
    }
    let pages = number(bytes, 16);
    if pages == 0 || pages > MOST_PAGES {
        return Err(TapeFault::BadPages { pages });
    }
    let rules = number(bytes, 24);
    if rules == 0 || rules > LAST_RULES {
        return Err(TapeFault::BadRules { rules });
    }
    let count = number(bytes, 32);
    if count > MOST_ENTRIES {
        return Err(TapeFault::TooLong { count });
    }
    Ok(Header {
        seed: number(bytes, 8),
        pages: pages as u32,
        rules: rules as u8,
        count: count as u32,
    })
}

/// The bytes of each run of a file that is whole.
fn records_of(bytes: &[u8]) -> &[[u8; RUN_LENGTH]]
    requires { 40 ≤ length bytes.now }
    ensures runs { map (λ bytes. run_at bytes 0) result.now ≡ runs_in bytes.now }
    ensures within { 40 + 13 * length result.now ≤ length bytes.now }
{
    bytes[HEADER_LENGTH..].as_chunks::<RUN_LENGTH>().0
}

/// The run of thirteen bytes.
fn run_of(bytes: &[u8; RUN_LENGTH]) -> Run
    ensures { result ≡ run_at bytes.now 0 }
{
    Run {
        entry: Entry {
            actor: bytes[0],
            amount: number(bytes, 5),
        },
        length: LittleEndian::read_u32(&bytes[1..]),
    }
}

/// Whether a run of this entry would go on the run before it.
fn goes_on(before: &Option<Entry>, entry: &Entry) -> bool
    ensures { result ≡ spec.goes_on before.now entry.now }
{
    match before {
        Some(before) => same_entry(before, entry),
        None => false,
    }
}

/// What stands in front of the next run, where this one has no fault.
#[tactic(auto, unfolding(crate::specs::TapeFault::run_fault))]
fn judge_run(header: &Header, front: &Front, run: &Run) -> Result<Front, TapeFault>
    requires counted { front.now.entries ≤ header.now.count }
    requires numbered { front.now.runs < 2 ^ 63 }
    ensures sound { IfOk result (λ _. run_fault header.now front.now run.now ≡ None) }
    ensures past { IfOk result (λ next. next ≡ past front.now run.now) }
    ensures counted { IfOk result (λ next. next.entries ≤ header.now.count) }
    ensures fault { IfErr result (λ fault. run_fault header.now front.now run.now ≡ Some fault) }
{
    let entries = front.entries + u64::from(run.length);
    if run.length == 0 || goes_on(&front.before, &run.entry) || entries > u64::from(header.count) {
        return Err(TapeFault::BadRun { at: front.runs });
    }
    if !is_actor(header.rules, run.entry.actor) {
        return Err(TapeFault::BadActor { at: front.entries });
    }
    Ok(Front {
        before: Some(run.entry),
        runs: front.runs + 1,
        entries,
    })
}

/// Judges the runs of a file of this size. It takes no memory, whatever they claim.
#[tactic(auto, unfolding(crate::specs::TapeFault::runs_fault))]
fn judge_runs(header: &Header, size: u64, records: &[[u8; RUN_LENGTH]]) -> Result<(), TapeFault>
    requires within { 40 + 13 * length records.now ≤ size }
    ensures sound { IfOk result (λ _. runs_fault size header.now at_start (map (λ bytes. run_at bytes 0) records.now) ≡ None) }
    ensures fault { IfErr result (λ fault. runs_fault size header.now at_start (map (λ bytes. run_at bytes 0) records.now) ≡ Some fault) }
{
    let mut front = Front {
        before: None,
        runs: 0,
        entries: 0,
    };
    let mut rest = records;
    while let [record, behind @ ..] = rest {
        if front.entries >= u64::from(header.count) {
            return Err(TapeFault::Torn { at: size });
        }
        front = judge_run(header, &front, &run_of(record))?;
        rest = behind;
    }
    if front.entries < u64::from(header.count) || size != 40 + 13 * front.runs {
        return Err(TapeFault::Torn { at: size });
    }
    Ok(())
}

/// The header of a file of version 2 that has no fault. The whole file is looked at.
#[tactic(auto, unfolding(crate::specs::TapeFault::fault_2))]
pub(crate) fn judge(bytes: &[u8]) -> Result<Header, TapeFault>
    ensures sound { IfOk result (λ _. fault_2 bytes.now ≡ None) }
    ensures header { IfOk result (λ header. header ≡ header_in_2 bytes.now) }
    ensures fault { IfErr result (λ fault. fault_2 bytes.now ≡ Some fault) }
{
    let header = read_header(bytes)?;
    judge_runs(&header, bytes.len() as u64, records_of(bytes))?;
    Ok(header)
}

/// Adds the entries of runs to a tape that has room for them.
fn push_runs(tape: &mut Tape, records: &[[u8; RUN_LENGTH]])
    requires { length tape.old.entries + length (flat_map (λ bytes. spec.entries_of (run_at bytes 0)) records.now) ≤ tape.old.room }
    ensures { tape.new ≡ record tape.old { entries = tape.old.entries ++ flat_map (λ bytes. spec.entries_of (run_at bytes 0)) records.now } }
{
    let mut rest = records;
    while let [record, behind @ ..] = rest {
        tape.push_run(run_of(record));
        rest = behind;
    }
}

/// Adds the entries of a file of version 2 to a tape that has room for them.
pub(crate) fn fill(tape: &mut Tape, bytes: &[u8])
    requires whole { fault_2 bytes.now ≡ None }
    requires room { length tape.old.entries + length (flat_map spec.entries_of (runs_in bytes.now)) ≤ tape.old.room }
    ensures { tape.new ≡ record tape.old { entries = tape.old.entries ++ flat_map spec.entries_of (runs_in bytes.now) } }
{
    push_runs(tape, records_of(bytes));
}
