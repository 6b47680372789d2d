//! What an open file is, what is asked of it, and what it answers.

use bsd_abi::BsdErrno;

/// A side of the console: standard output or standard error.
#[derive(Clone, Copy, Debug, PartialEq, Eq)]
pub enum Side {
    Out,
    Err,
}

/// What an open file is. Pipes, counters and queues have numbers of their own.
#[derive(Clone, Copy, Debug, PartialEq, Eq)]
pub enum File {
    /// Standard input.
    Input,
    /// Standard output or standard error.
    Console(Side),
    /// The read end of a pipe (pipe(2)).
    ReadEnd(u32),
    /// The write end of a pipe.
    WriteEnd(u32),
    /// A counter (eventfd(2)).
    Counter(u32),
    /// A queue of events (kqueue(2)).
    Queue(u32),
}

/// A transfer: its open file, whether it writes, how many bytes it is of in all, and how many of them it has moved before.
#[derive(Clone, Copy, Debug, PartialEq, Eq)]
pub struct FileCall {
    pub file: u32,
    pub write: bool,
    pub len: u32,
    pub done: u32,
}

/// What a look at a transfer answers (read(2), write(2)).
#[derive(Clone, Copy, Debug, PartialEq, Eq)]
pub enum FileLook {
    /// So many bytes have been moved now.
    Moved(u32),
    /// Nothing can be moved yet.
    Wait,
    /// The transfer is refused: EAGAIN where it would wait and the open file is nonblocking, EINVAL for a counter.
    Refused(BsdErrno),
    /// A write to a pipe without a reader.
    Broken,
}

/// There is no memory for the files.
#[derive(Clone, Copy, Debug, PartialEq, Eq)]
pub struct NoMemory;

impl FileLook {
    ghost use Rattle.std.specs.Prelude.{◌≡◌};
    ghost use Rattle.open_files.specs.Kinds.{moves, is_wait};

    /// Whether some bytes are moved.
    pub fn moves(self) -> bool
        ensures { result ≡ moves self }
    {
        match self {
            FileLook::Moved(count) => count > 0,
            _ => false,
        }
    }

    /// Whether nothing can be moved yet.
    pub fn is_wait(self) -> bool
        ensures { result ≡ is_wait self }
    {
        matches!(self, FileLook::Wait)
    }
}
