//! Operations of futex(2), and the words of get_robust_list(2).
ghost use Rattle.std.specs.Prelude.{◌≡◌, Some, IfSome};
ghost use Rattle.linux_abi.specs.FutexOperation.{futex_operation_number, futex_operation_of};
ghost use Rattle.linux_abi.specs.WakeOp.{word_operation_number, word_operation_of, comparison_number, comparison_of};

/// The word is of this process alone: without effect (futex(2)).
pub const FUTEX_PRIVATE_FLAG: u64 = 128;
/// The timeout is by CLOCK_REALTIME (futex(2)).
pub const FUTEX_CLOCK_REALTIME: u64 = 256;
/// The bit of a wake-op's operation that says: 1 shifted left by the argument (futex(2)).
pub const FUTEX_OP_ARG_SHIFT: u64 = 8;
/// The bit set of a wait and a wake that name none (futex(2)).
pub const FUTEX_BITSET_MATCH_ANY: u32 = 0xffff_ffff;
/// The bit of a futex word that says: someone waits (get_robust_list(2), linux/futex.h).
pub const FUTEX_WAITERS: u32 = 0x8000_0000;
/// The bit of a futex word that says: the owner died (get_robust_list(2), linux/futex.h).
pub const FUTEX_OWNER_DIED: u32 = 0x4000_0000;
/// The owner field of a futex word, a tid (get_robust_list(2), linux/futex.h).
pub const FUTEX_TID_MASK: u32 = 0x3fff_ffff;
/// The flag of a place of futex_waitv(2) that says: its word has 32 bits (linux/futex.h, FUTEX_32).
pub const FUTEX_32: u32 = 2;
/// The most entries of a robust list that a death walks (get_robust_list(2), linux/futex.h).
pub const ROBUST_LIST_LIMIT: u64 = 2048;
/// The bytes of a robust list's head: next, offset, pending (get_robust_list(2)).
pub const ROBUST_HEAD_SIZE: u64 = 24;

/// The operations of futex(2) that are known, without their two flags.
#[derive(Clone, Copy)]
pub enum FutexOperation {
    /// FUTEX_WAIT.
    Wait,
    /// FUTEX_WAKE.
    Wake,
    /// FUTEX_REQUEUE.
    Requeue,
    /// FUTEX_CMP_REQUEUE.
    CompareRequeue,
    /// FUTEX_WAKE_OP.
    WakeOp,
    /// FUTEX_LOCK_PI.
    LockPi,
    /// FUTEX_UNLOCK_PI.
    UnlockPi,
    /// FUTEX_TRYLOCK_PI.
    TryLockPi,
    /// FUTEX_WAIT_BITSET.
    WaitBitset,
    /// FUTEX_WAKE_BITSET.
    WakeBitset,
}

impl FutexOperation {
    /// The operation of a number, and None exactly where none has it.
    #[tactic(auto, unfolding(crate::specs::FutexOperation::futex_operation_of))]
    pub fn new(number: u64) -> Option<FutexOperation>
        ensures value { result ≡ futex_operation_of number }
        ensures some { IfSome result (λ operation. futex_operation_number operation ≡ number) }
    {
        match number {
            0 => Some(FutexOperation::Wait),
            1 => Some(FutexOperation::Wake),
            3 => Some(FutexOperation::Requeue),
            4 => Some(FutexOperation::CompareRequeue),
            5 => Some(FutexOperation::WakeOp),
            6 => Some(FutexOperation::LockPi),
            7 => Some(FutexOperation::UnlockPi),
            8 => Some(FutexOperation::TryLockPi),
            9 => Some(FutexOperation::WaitBitset),
            10 => Some(FutexOperation::WakeBitset),
            _ => None,
        }
    }

    /// The operation's number (futex(2)).
    #[tactic(auto, unfolding(crate::specs::FutexOperation::futex_operation_of))]
    pub fn number(self) -> u64
        ensures value { result ≡ futex_operation_number self }
        ensures back { futex_operation_of result ≡ Some self }
    {
        match self {
            FutexOperation::Wait => 0,
            FutexOperation::Wake => 1,
            FutexOperation::Requeue => 3,
            FutexOperation::CompareRequeue => 4,
            FutexOperation::WakeOp => 5,
            FutexOperation::LockPi => 6,
            FutexOperation::UnlockPi => 7,
            FutexOperation::TryLockPi => 8,
            FutexOperation::WaitBitset => 9,
            FutexOperation::WakeBitset => 10,
        }
    }
}

/// What a wake-op does to the second word (futex(2), FUTEX_WAKE_OP).
#[derive(Clone, Copy)]
pub enum WordOperation {
    /// FUTEX_OP_SET: the argument.
    Set,
    /// FUTEX_OP_ADD: the word plus the argument.
    Add,
    /// FUTEX_OP_OR: the bits of either.
    Or,
    /// FUTEX_OP_ANDN: the word's bits that the argument lacks.
    AndNot,
    /// FUTEX_OP_XOR: the bits of exactly one.
    Xor,
}

impl WordOperation {
    /// The operation of a number, and None exactly where none has it.
    #[tactic(auto, unfolding(crate::specs::WakeOp::word_operation_of))]
    pub fn new(number: u64) -> Option<WordOperation>
        ensures value { result ≡ word_operation_of number }
        ensures some { IfSome result (λ operation. word_operation_number operation ≡ number) }
    {
        match number {
            0 => Some(WordOperation::Set),
            1 => Some(WordOperation::Add),
            2 => Some(WordOperation::Or),
            3 => Some(WordOperation::AndNot),
            4 => Some(WordOperation::Xor),
            _ => None,
        }
    }

    /// The operation's number (futex(2), FUTEX_WAKE_OP).
    #[tactic(auto, unfolding(crate::specs::WakeOp::word_operation_of))]
    pub fn number(self) -> u64
        ensures value { result ≡ word_operation_number self }
        ensures back { word_operation_of result ≡ Some self }
    {
        match self {
            WordOperation::Set => 0,
            WordOperation::Add => 1,
            WordOperation::Or => 2,
            WordOperation::AndNot => 3,
            WordOperation::Xor => 4,
        }
    }
}

/// How a wake-op compares the old second word with its argument (futex(2), FUTEX_WAKE_OP).
#[derive(Clone, Copy)]
pub enum Comparison {
    /// FUTEX_OP_CMP_EQ.
    Equal,
    /// FUTEX_OP_CMP_NE.
    Unequal,
    /// FUTEX_OP_CMP_LT.
    Less,
    /// FUTEX_OP_CMP_LE.
    AtMost,
    /// FUTEX_OP_CMP_GT.
    Greater,
    /// FUTEX_OP_CMP_GE.
    AtLeast,
}

impl Comparison {
    /// The comparison of a number, and None exactly where none has it.
    #[tactic(auto, unfolding(crate::specs::WakeOp::comparison_of))]
    pub fn new(number: u64) -> Option<Comparison>
        ensures value { result ≡ comparison_of number }
        ensures some { IfSome result (λ comparison. comparison_number comparison ≡ number) }
    {
        match number {
            0 => Some(Comparison::Equal),
            1 => Some(Comparison::Unequal),
            2 => Some(Comparison::Less),
            3 => Some(Comparison::AtMost),
            4 => Some(Comparison::Greater),
            5 => Some(Comparison::AtLeast),
            _ => None,
        }
    }

    /// The comparison's number (futex(2), FUTEX_WAKE_OP).
    #[tactic(auto, unfolding(crate::specs::WakeOp::comparison_of))]
    pub fn number(self) -> u64
        ensures value { result ≡ comparison_number self }
        ensures back { comparison_of result ≡ Some self }
    {
        match self {
            Comparison::Equal => 0,
            Comparison::Unequal => 1,
            Comparison::Less => 2,
            Comparison::AtMost => 3,
            Comparison::Greater => 4,
            Comparison::AtLeast => 5,
        }
    }
}
