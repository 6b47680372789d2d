//! Runs of equal entries.

ghost use Rattle.std.specs.Prelude.{◌≡◌, ◌<◌, ◌≤◌, ◌∷◌, [], ◌^◌, length, not, position, IfSome, IfNone};
ghost use Rattle.std.specs.List.{prefix_len};
ghost use Rattle.tape.specs.Entry as spec;
ghost use Rattle.tape.specs.Runs.{runs_of, FitsRun};

use crate::entry::{Entry, same_entry};

/// So many equal entries, one behind the other.
#[derive(Clone, Copy)]
pub(crate) struct Run {
    /// Each of them.
    pub entry: Entry,
    /// How many they are.
    pub length: u32,
}

impl Run {
    /// So many of an entry.
    fn new(entry: Entry, length: u32) -> Run
        ensures value { result ≡ record { entry = entry; length = length } }
        ensures fits { FitsRun result }
    {
        Run { entry, length }
    }
}

/// The place of the first entry that differs from one.
fn first_other(first: &Entry, entries: &[Entry]) -> Option<usize>
    ensures { result ≡ position (λ entry. not (spec.same_entry first.now entry)) entries.now }
{
    entries.iter().position(|entry| !same_entry(first, entry))
}

/// How many entries at the front are equal to one.
fn count_equal(first: &Entry, entries: &[Entry]) -> usize
    ensures value { result ≡ prefix_len (spec.same_entry first.now) entries.now }
    ensures within { result ≤ length entries.now }
{
    first_other(first, entries).unwrap_or(entries.len())
}

/// The first run of entries, and the entries behind it.
pub(crate) fn split_run(entries: &[Entry]) -> Option<(Run, &[Entry])>
    requires { length entries.now < 2 ^ 32 }
    ensures run { IfSome result (λ found. runs_of entries.now ≡ found.0 ∷ runs_of found.1.now) }
    ensures shorter { IfSome result (λ found. length found.1.now < length entries.now) }
    ensures fits { IfSome result (λ found. FitsRun found.0) }
    ensures none { IfNone result (entries.now ≡ []) }
{
    let (first, others) = entries.split_first()?;
    let entry = *first;
    let equal = count_equal(first, others);
    let (_, behind) = others.split_at(equal);
    Some((Run::new(entry, equal as u32 + 1), behind))
}
