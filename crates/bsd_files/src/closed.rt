//! What `close` answers.

/// What `close` answers where the descriptor is open.
#[derive(Clone, Copy, Debug, PartialEq, Eq)]
pub enum Closed {
    /// It is closed.
    Done,
    /// A change of an interest is at work on it, so nothing has changed.
    Wait,
}
