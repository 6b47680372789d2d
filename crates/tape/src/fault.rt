//! Why bytes are no tape file.

ghost use Rattle.std.specs.Prelude.{◌≡◌, ◌≤◌, length};
ghost use Rattle.tape.specs.FaultText.{fault_words, fault_place};

use std::alloc::AllocError;

/// Memory ran out.
#[derive(Clone, Copy)]
pub struct NoMemory;

impl From<AllocError> for NoMemory {
    fn from(_error: AllocError) -> NoMemory {
        NoMemory
    }
}

/// The first fault of bytes that are no tape file, or want of memory.
#[derive(Clone, Copy)]
pub enum TapeFault {
    /// The file does not begin with `LXTAPE1` or `LXTAPE2` and a newline.
    BadMagic,
    /// The file is shorter than its header, ends before it has the entries that it claims, or has bytes
    /// behind them. `at` is its length in bytes.
    Torn { at: u64 },
    /// The file claims `count` entries, more than 20,000,000.
    TooLong { count: u64 },
    /// The file claims `pages` pages: none, or more than 65,536.
    BadPages { pages: u64 },
    /// The file names `rules` that are neither 1 nor 2.
    BadRules { rules: u64 },
    /// Run `at`, counted from 0, is empty, has the entry of the run before it, or has more entries than are
    /// left of those that the file claims.
    BadRun { at: u64 },
    /// Entry `at`, counted from 0, is the first whose actor is none under the file's rules.
    BadActor { at: u64 },
    /// Memory ran out; the file has no fault.
    NoMemory,
}

impl From<NoMemory> for TapeFault {
    ghost use Rattle.tape.specs.declared.fault.TapeFault.TheVariants as faults;

    ghost from_gives = { λ _ fault. fault ≡ faults.NoMemory };

    fn from(_error: NoMemory) -> TapeFault {
        TapeFault::NoMemory
    }
}

impl TapeFault {
    /// What is wrong, in words; [`TapeFault::place`] follows it where there is one. Want of memory is no
    /// fault of the file, and has no words here.
    pub fn text(self) -> &'static str
        ensures words { result.now ≡ fault_words self }
        ensures short { length result.now ≤ 19 }
    {
        match self {
            TapeFault::BadMagic => "bad magic",
            TapeFault::Torn { .. } => "torn at ",
            TapeFault::TooLong { .. } => "too many entries",
            TapeFault::BadPages { .. } => "bad pages",
            TapeFault::BadRules { .. } => "bad rules",
            TapeFault::BadRun { .. } => "bad run ",
            TapeFault::BadActor { .. } => "bad actor in entry ",
            TapeFault::NoMemory => "",
        }
    }

    /// The number that follows the words, in decimal: the length of a torn file, or the place of a run or an entry.
    pub fn place(self) -> Option<u64>
        ensures { result ≡ fault_place self }
    {
        match self {
            TapeFault::Torn { at } | TapeFault::BadRun { at } | TapeFault::BadActor { at } => {
                Some(at)
            }
            _ => None,
        }
    }
}
