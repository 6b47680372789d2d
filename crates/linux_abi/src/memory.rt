//! Rights, flags and advice of the calls on memory.
ghost use Rattle.std.specs.Prelude.{◌≡◌, Some, IfSome};
ghost use Rattle.linux_abi.specs.Advice.{advice_number, advice_of};

/// The right to read (mmap(2), mprotect(2)).
pub const PROT_READ: u64 = 1;
/// The right to write (mmap(2), mprotect(2)).
pub const PROT_WRITE: u64 = 2;
/// The right to execute (mmap(2), mprotect(2)).
pub const PROT_EXEC: u64 = 4;
/// Changes are shared (mmap(2)).
pub const MAP_SHARED: u64 = 1;
/// Changes are private (mmap(2)).
pub const MAP_PRIVATE: u64 = 2;
/// The pages lie exactly at the address (mmap(2)).
pub const MAP_FIXED: u64 = 0x10;
/// The pages are zeros, and no file's (mmap(2)).
pub const MAP_ANONYMOUS: u64 = 0x20;

/// The advice of madvise(2) that is known.
#[derive(Clone, Copy)]
pub enum Advice {
    /// MADV_NORMAL.
    Normal,
    /// MADV_RANDOM.
    Random,
    /// MADV_SEQUENTIAL.
    Sequential,
    /// MADV_WILLNEED.
    WillNeed,
    /// MADV_DONTNEED: makes the pages zero.
    DontNeed,
    /// MADV_FREE.
    Free,
    /// MADV_HUGEPAGE.
    HugePage,
    /// MADV_NOHUGEPAGE.
    NoHugePage,
}

impl Advice {
    /// The advice of a number, and None exactly where none has it.
    #[tactic(auto, unfolding(crate::specs::Advice::advice_of))]
    pub fn new(number: u64) -> Option<Advice>
        ensures value { result ≡ advice_of number }
        ensures some { IfSome result (λ advice. advice_number advice ≡ number) }
    {
        match number {
            0 => Some(Advice::Normal),
            1 => Some(Advice::Random),
            2 => Some(Advice::Sequential),
            3 => Some(Advice::WillNeed),
            4 => Some(Advice::DontNeed),
            8 => Some(Advice::Free),
            14 => Some(Advice::HugePage),
            15 => Some(Advice::NoHugePage),
            _ => None,
        }
    }

    /// The advice's number (madvise(2)).
    #[tactic(auto, unfolding(crate::specs::Advice::advice_of))]
    pub fn number(self) -> u64
        ensures value { result ≡ advice_number self }
        ensures back { advice_of result ≡ Some self }
    {
        match self {
            Advice::Normal => 0,
            Advice::Random => 1,
            Advice::Sequential => 2,
            Advice::WillNeed => 3,
            Advice::DontNeed => 4,
            Advice::Free => 8,
            Advice::HugePage => 14,
            Advice::NoHugePage => 15,
        }
    }
}
