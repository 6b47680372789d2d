//! Signals by number, and flags and choices of the signal calls.
ghost use Rattle.std.specs.Prelude.{◌≡◌, ◌^◌, ◌<◌, ◌≤◌, ◌⊎◌, ◌↔◌, Some, IfSome, IsNone};
ghost use Rattle.linux_abi.specs.LinuxSig.{signal_number, linux_bit, linux_signal_of, is_real_time, is_dropped_by_default};
ghost use Rattle.linux_abi.specs.MaskChange.{mask_change_number, mask_change_of};
ghost use Rattle.linux_abi.specs.SigAction.{is_default, is_ignore, has_handler, wants_info, has_restorer, wants_stack, restarts_calls, is_not_deferred, resets};

use crate::flags::has_flag;

/// The signals that are never blocked, as a set: SIGKILL, which is 9, and SIGSTOP, which is 19 (sigprocmask(2)).
pub const UNBLOCKABLE: u64 = 1 << 8 | 1 << 18;

/// The handler that says: the default action (sigaction(2)).
pub const SIG_DFL: u64 = 0;
/// The handler that says: ignore (sigaction(2)).
pub const SIG_IGN: u64 = 1;
/// The handler gets siginfo and ucontext (sigaction(2)).
pub const SA_SIGINFO: u64 = 4;
/// The restorer is given (sigaction(2)).
pub const SA_RESTORER: u64 = 0x0400_0000;
/// The handler runs on the alternative stack (sigaction(2)).
pub const SA_ONSTACK: u64 = 0x0800_0000;
/// An interrupted call starts again (sigaction(2)).
pub const SA_RESTART: u64 = 0x1000_0000;
/// The signal isn't blocked in its handler (sigaction(2)).
pub const SA_NODEFER: u64 = 0x4000_0000;
/// The action becomes the default when the signal is taken (sigaction(2)).
pub const SA_RESETHAND: u64 = 0x8000_0000;
/// The bytes of a set of signals in memory (rt_sigprocmask(2)).
pub const SIGSET_SIZE: u64 = 8;

/// The thread is on its alternative stack (sigaltstack(2)).
pub const SS_ONSTACK: i32 = 1;
/// There is no alternative stack (sigaltstack(2)).
pub const SS_DISABLE: i32 = 2;
/// The least size of an alternative stack on arm64 (sigaltstack(2)).
pub const MINSIGSTKSZ: u64 = 5120;

/// The code of a signal that kill(2) sent (sigaction(2)).
pub const SI_USER: i32 = 0;
/// The code of a signal that tkill(2) or tgkill(2) sent (sigaction(2)).
pub const SI_TKILL: i32 = -6;
/// The code of a SIGSEGV at a page that isn't mapped (sigaction(2)).
pub const SEGV_MAPERR: i32 = 1;
/// The code of a SIGSEGV at a page without the right (sigaction(2)).
pub const SEGV_ACCERR: i32 = 2;
/// The code of a SIGBUS by an address that isn't aligned (sigaction(2)).
pub const BUS_ADRALN: i32 = 1;
/// The code of a SIGILL by a word that is no instruction (sigaction(2)).
pub const ILL_ILLOPC: i32 = 1;
/// The code of a SIGTRAP by a breakpoint (sigaction(2)).
pub const TRAP_BRKPT: i32 = 1;

/// Whether the handler says: the default action.
pub fn is_default(handler: u64) -> bool
    ensures { result ≡ is_default handler }
{
    handler == SIG_DFL
}

/// Whether the handler says: ignore.
pub fn is_ignore(handler: u64) -> bool
    ensures { result ≡ is_ignore handler }
{
    handler == SIG_IGN
}

/// Whether the handler is a function of the program.
pub fn has_handler(handler: u64) -> bool
    ensures { result ≡ has_handler handler }
{
    handler > SIG_IGN
}

/// Whether an action's handler gets the addresses of siginfo_t and ucontext.
pub fn wants_info(flags: u64) -> bool
    ensures { result ≡ wants_info flags }
{
    has_flag(SA_SIGINFO, flags)
}

/// Whether an action's handler returns to the address that is given.
pub fn has_restorer(flags: u64) -> bool
    ensures { result ≡ has_restorer flags }
{
    has_flag(SA_RESTORER, flags)
}

/// Whether an action's handler runs on the alternative stack.
pub fn wants_stack(flags: u64) -> bool
    ensures { result ≡ wants_stack flags }
{
    has_flag(SA_ONSTACK, flags)
}

/// Whether a call that an action's handler interrupted starts again.
pub fn restarts_calls(flags: u64) -> bool
    ensures { result ≡ restarts_calls flags }
{
    has_flag(SA_RESTART, flags)
}

/// Whether the signal isn't blocked while an action's handler runs.
pub fn is_not_deferred(flags: u64) -> bool
    ensures { result ≡ is_not_deferred flags }
{
    has_flag(SA_NODEFER, flags)
}

/// Whether an action's handler becomes the default one as it is taken.
pub fn resets(flags: u64) -> bool
    ensures { result ≡ resets flags }
{
    has_flag(SA_RESETHAND, flags)
}

/// The signals, in the order of their numbers, in which they compare (signal(7)).
///
/// SIGRT0 to SIGRT32 are the real-time signals, as the kernel counts them.
#[derive(Clone, Copy, Debug, PartialEq, Eq, PartialOrd, Ord)]
pub enum LinuxSig {
    /// The terminal was hung up.
    SIGHUP = 1,
    /// An interrupt from the keyboard.
    SIGINT,
    /// A quit from the keyboard.
    SIGQUIT,
    /// An illegal instruction.
    SIGILL,
    /// A breakpoint.
    SIGTRAP,
    /// The program gave up.
    SIGABRT,
    /// A bad access to memory.
    SIGBUS,
    /// An arithmetic fault.
    SIGFPE,
    /// Ends the guest; never blocked.
    SIGKILL,
    /// A signal of the user's, the first.
    SIGUSR1,
    /// A reference to memory without the right.
    SIGSEGV,
    /// A signal of the user's, the second.
    SIGUSR2,
    /// A write to a pipe without a reader.
    SIGPIPE,
    /// A timer ran out.
    SIGALRM,
    /// A wish that the program ends.
    SIGTERM,
    /// A stack fault of a coprocessor.
    SIGSTKFLT,
    /// A child ended; dropped by default.
    SIGCHLD,
    /// Goes on; dropped by default.
    SIGCONT,
    /// Stops; never blocked, and dropped by default.
    SIGSTOP,
    /// A stop from the terminal; dropped by default.
    SIGTSTP,
    /// A read of the terminal from the background; dropped by default.
    SIGTTIN,
    /// A write to the terminal from the background; dropped by default.
    SIGTTOU,
    /// Urgent data at a socket; dropped by default.
    SIGURG,
    /// The processor time is used up.
    SIGXCPU,
    /// A file grew too large.
    SIGXFSZ,
    /// A timer of the process's own time ran out.
    SIGVTALRM,
    /// A timer of profiling ran out.
    SIGPROF,
    /// The window's size changed; dropped by default.
    SIGWINCH,
    /// Input or output is possible.
    SIGIO,
    /// The power fails.
    SIGPWR,
    /// A bad call.
    SIGSYS,
    /// Real-time signal 0.
    SIGRT0,
    /// Real-time signal 1.
    SIGRT1,
    /// Real-time signal 2.
    SIGRT2,
    /// Real-time signal 3.
    SIGRT3,
    /// Real-time signal 4.
    SIGRT4,
    /// Real-time signal 5.
    SIGRT5,
    /// Real-time signal 6.
    SIGRT6,
    /// Real-time signal 7.
    SIGRT7,
    /// Real-time signal 8.
    SIGRT8,
    /// Real-time signal 9.
    SIGRT9,
    /// Real-time signal 10.
    SIGRT10,
    /// Real-time signal 11.
    SIGRT11,
    /// Real-time signal 12.
    SIGRT12,
    /// Real-time signal 13.
    SIGRT13,
    /// Real-time signal 14.
    SIGRT14,
    /// Real-time signal 15.
    SIGRT15,
    /// Real-time signal 16.
    SIGRT16,
    /// Real-time signal 17.
    SIGRT17,
    /// Real-time signal 18.
    SIGRT18,
    /// Real-time signal 19.
    SIGRT19,
    /// Real-time signal 20.
    SIGRT20,
    /// Real-time signal 21.
    SIGRT21,
    /// Real-time signal 22.
    SIGRT22,
    /// Real-time signal 23.
    SIGRT23,
    /// Real-time signal 24.
    SIGRT24,
    /// Real-time signal 25.
    SIGRT25,
    /// Real-time signal 26.
    SIGRT26,
    /// Real-time signal 27.
    SIGRT27,
    /// Real-time signal 28.
    SIGRT28,
    /// Real-time signal 29.
    SIGRT29,
    /// Real-time signal 30.
    SIGRT30,
    /// Real-time signal 31.
    SIGRT31,
    /// Real-time signal 32.
    SIGRT32,
}

impl LinuxSig {
    /// The signal of a number, and None exactly where the number is 0 or above 64.
    #[tactic(auto, unfolding(crate::specs::LinuxSig::linux_signal_of))]
    pub fn new(n: u64) -> Option<LinuxSig>
        ensures value { result ≡ linux_signal_of n }
        ensures some { IfSome result (λ signal. signal_number signal ≡ n) }
        ensures none { IsNone result ↔ ((n ≡ 0) ⊎ (64 < n)) }
    {
        match n {
            1 => Some(LinuxSig::SIGHUP),
            2 => Some(LinuxSig::SIGINT),
            3 => Some(LinuxSig::SIGQUIT),
            4 => Some(LinuxSig::SIGILL),
            5 => Some(LinuxSig::SIGTRAP),
            6 => Some(LinuxSig::SIGABRT),
            7 => Some(LinuxSig::SIGBUS),
            8 => Some(LinuxSig::SIGFPE),
            9 => Some(LinuxSig::SIGKILL),
            10 => Some(LinuxSig::SIGUSR1),
            11 => Some(LinuxSig::SIGSEGV),
            12 => Some(LinuxSig::SIGUSR2),
            13 => Some(LinuxSig::SIGPIPE),
            14 => Some(LinuxSig::SIGALRM),
            15 => Some(LinuxSig::SIGTERM),
            16 => Some(LinuxSig::SIGSTKFLT),
            17 => Some(LinuxSig::SIGCHLD),
            18 => Some(LinuxSig::SIGCONT),
            19 => Some(LinuxSig::SIGSTOP),
            20 => Some(LinuxSig::SIGTSTP),
            21 => Some(LinuxSig::SIGTTIN),
            22 => Some(LinuxSig::SIGTTOU),
            23 => Some(LinuxSig::SIGURG),
            24 => Some(LinuxSig::SIGXCPU),
            25 => Some(LinuxSig::SIGXFSZ),
            26 => Some(LinuxSig::SIGVTALRM),
            27 => Some(LinuxSig::SIGPROF),
            28 => Some(LinuxSig::SIGWINCH),
            29 => Some(LinuxSig::SIGIO),
            30 => Some(LinuxSig::SIGPWR),
            31 => Some(LinuxSig::SIGSYS),
            32 => Some(LinuxSig::SIGRT0),
            33 => Some(LinuxSig::SIGRT1),
            34 => Some(LinuxSig::SIGRT2),
            35 => Some(LinuxSig::SIGRT3),
            36 => Some(LinuxSig::SIGRT4),
            37 => Some(LinuxSig::SIGRT5),
            38 => Some(LinuxSig::SIGRT6),
            39 => Some(LinuxSig::SIGRT7),
            40 => Some(LinuxSig::SIGRT8),
            41 => Some(LinuxSig::SIGRT9),
            42 => Some(LinuxSig::SIGRT10),
            43 => Some(LinuxSig::SIGRT11),
            44 => Some(LinuxSig::SIGRT12),
            45 => Some(LinuxSig::SIGRT13),
            46 => Some(LinuxSig::SIGRT14),
            47 => Some(LinuxSig::SIGRT15),
            48 => Some(LinuxSig::SIGRT16),
            49 => Some(LinuxSig::SIGRT17),
            50 => Some(LinuxSig::SIGRT18),
            51 => Some(LinuxSig::SIGRT19),
            52 => Some(LinuxSig::SIGRT20),
            53 => Some(LinuxSig::SIGRT21),
            54 => Some(LinuxSig::SIGRT22),
            55 => Some(LinuxSig::SIGRT23),
            56 => Some(LinuxSig::SIGRT24),
            57 => Some(LinuxSig::SIGRT25),
            58 => Some(LinuxSig::SIGRT26),
            59 => Some(LinuxSig::SIGRT27),
            60 => Some(LinuxSig::SIGRT28),
            61 => Some(LinuxSig::SIGRT29),
            62 => Some(LinuxSig::SIGRT30),
            63 => Some(LinuxSig::SIGRT31),
            64 => Some(LinuxSig::SIGRT32),
            _ => None,
        }
    }

    /// Linux's number of the signal, from 1 to 64.
    #[tactic(auto, unfolding(crate::specs::LinuxSig::linux_signal_of))]
    pub fn number(self) -> u8
        ensures value { result ≡ signal_number self }
        ensures range { (1 ≤ result) × (result ≤ 64) }
        ensures back { linux_signal_of result ≡ Some self }
    {
        self as u8
    }

    /// The set with this signal alone: signal n is bit n - 1 (sigprocmask(2)).
    pub fn bit(self) -> u64
        ensures { result ≡ 2 ^ linux_bit self }
    {
        1 << (self.number() - 1)
    }

    /// Whether it is a real-time signal: of these each one that is sent is kept (signal(7)).
    pub fn is_real_time(self) -> bool
        ensures { result ≡ is_real_time self }
    {
        self >= LinuxSig::SIGRT0
    }

    /// Whether it is ignored or discarded by default. Any other signal ends the guest then (signal(7)).
    pub fn is_dropped_by_default(self) -> bool
        ensures { result ≡ is_dropped_by_default self }
    {
        matches!(
            self,
            LinuxSig::SIGCHLD
                | LinuxSig::SIGCONT
                | LinuxSig::SIGSTOP
                | LinuxSig::SIGTSTP
                | LinuxSig::SIGTTIN
                | LinuxSig::SIGTTOU
                | LinuxSig::SIGURG
                | LinuxSig::SIGWINCH
        )
    }
}

/// How rt_sigprocmask(2) changes the mask.
#[derive(Clone, Copy)]
pub enum MaskChange {
    /// SIG_BLOCK: adds the set.
    Block,
    /// SIG_UNBLOCK: takes the set out.
    Unblock,
    /// SIG_SETMASK: the set.
    Set,
}

impl MaskChange {
    /// The change of a number, and None exactly where none has it.
    #[tactic(auto, unfolding(crate::specs::MaskChange::mask_change_of))]
    pub fn new(number: u64) -> Option<MaskChange>
        ensures value { result ≡ mask_change_of number }
        ensures some { IfSome result (λ change. mask_change_number change ≡ number) }
    {
        match number {
            0 => Some(MaskChange::Block),
            1 => Some(MaskChange::Unblock),
            2 => Some(MaskChange::Set),
            _ => None,
        }
    }

    /// The change's number (rt_sigprocmask(2)).
    #[tactic(auto, unfolding(crate::specs::MaskChange::mask_change_of))]
    pub fn number(self) -> u64
        ensures value { result ≡ mask_change_number self }
        ensures back { mask_change_of result ≡ Some self }
    {
        match self {
            MaskChange::Block => 0,
            MaskChange::Unblock => 1,
            MaskChange::Set => 2,
        }
    }
}
