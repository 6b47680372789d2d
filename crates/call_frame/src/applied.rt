//! What an entry comes to.

/// What an entry that was applied leaves.
#[derive(Clone, Copy, Debug, PartialEq, Eq)]
pub enum Applied {
    /// The guest goes on.
    Going,
    /// This entry ended the guest.
    Ended,
}

/// The entry isn't enabled, and nothing has changed.
#[derive(Clone, Copy, Debug, PartialEq, Eq)]
pub struct NotEnabled;
