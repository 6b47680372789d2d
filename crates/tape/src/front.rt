//! What stands in front of a run of a tape file.

use crate::entry::Entry;

/// What has been read of the runs so far.
#[derive(Clone, Copy)]
pub(crate) struct Front {
    /// The entry of the run before.
    pub before: Option<Entry>,
    /// How many runs were read.
    pub runs: u64,
    /// How many entries they stand for.
    pub entries: u64,
}
