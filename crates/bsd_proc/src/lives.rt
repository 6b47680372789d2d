// How far a life has come.

/// How far the life of a slot's thread has come.
#[derive(Clone, Copy)]
pub enum Life {
    /// The slot is reserved, and its thread has not started.
    Reserved,
    /// It has started, and not left.
    Live,
    /// It has left, and its robust futexes and its clear address are looked after.
    Dying,
}

/// How the guest ended.
#[derive(Clone, Copy)]
pub enum GuestEnd {
    /// By an exit with this code.
    Exited(u8),
    /// By the signal with this number on Linux, by which the guest's status is told.
    Killed(u8),
}
