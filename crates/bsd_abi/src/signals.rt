//! Signals by FreeBSD's numbers, in the order of Linux's.
ghost use Rattle.std.specs.Prelude.{◌≡◌, ◌≢◌, ◌+◌, ◌^◌, ◌<◌, Some, IfSome, IfNone};
ghost use Rattle.bsd_abi.specs.declared.signals.BsdSig.{BsdSig};
ghost use Rattle.bsd_abi.specs.BsdSig.{linux_signal_number, bsd_signal_number, place_of, bsd_bit, bsd_signal_of, is_real_time, is_dropped_by_default};

/// The signals that are never blocked, as a set: SIGKILL, which is 9, and SIGSTOP, which is 17 (sigprocmask(2)).
pub const UNBLOCKABLE: u128 = 1 << 8 | 1 << 16;

/// The signals that Linux has too. They stand in the order of their Linux numbers, and compare in that order.
///
/// `number` is the number on FreeBSD (signal(3)), and `place` the place in the order, from 0. SIGRT0 to SIGRT32 are the
/// real-time signals, of which Linux's kernel counts 33.
#[derive(Clone, Copy, Debug, PartialEq, Eq, PartialOrd, Ord)]
pub enum BsdSig {
    /// The terminal was hung up.
    SIGHUP,
    /// An interrupt from the keyboard.
    SIGINT,
    /// A quit from the keyboard.
    SIGQUIT,
    /// An illegal instruction.
    SIGILL,
    /// A breakpoint.
    SIGTRAP,
    /// The program gave up.
    SIGABRT,
    /// A bad access to memory.
    SIGBUS,
    /// An arithmetic fault.
    SIGFPE,
    /// Ends the guest; never blocked.
    SIGKILL,
    /// A signal of the user's, the first.
    SIGUSR1,
    /// A reference to memory without the right.
    SIGSEGV,
    /// A signal of the user's, the second.
    SIGUSR2,
    /// A write to a pipe without a reader.
    SIGPIPE,
    /// A timer ran out.
    SIGALRM,
    /// A wish that the program ends.
    SIGTERM,
    /// A stack fault of a coprocessor; FreeBSD has no such signal, and 98 is its number here.
    SIGSTKFLT,
    /// A child ended; dropped by default.
    SIGCHLD,
    /// Goes on; dropped by default.
    SIGCONT,
    /// Stops; never blocked, and dropped by default.
    SIGSTOP,
    /// A stop from the terminal; dropped by default.
    SIGTSTP,
    /// A read of the terminal from the background; dropped by default.
    SIGTTIN,
    /// A write to the terminal from the background; dropped by default.
    SIGTTOU,
    /// Urgent data at a socket; dropped by default.
    SIGURG,
    /// The processor time is used up.
    SIGXCPU,
    /// A file grew too large.
    SIGXFSZ,
    /// A timer of the process's own time ran out.
    SIGVTALRM,
    /// A timer of profiling ran out.
    SIGPROF,
    /// The window's size changed; dropped by default.
    SIGWINCH,
    /// Input or output is possible.
    SIGIO,
    /// The power fails; FreeBSD has no such signal, and 99 is its number here.
    SIGPWR,
    /// A bad call.
    SIGSYS,
    /// Real-time signal 0.
    SIGRT0,
    /// Real-time signal 1.
    SIGRT1,
    /// Real-time signal 2.
    SIGRT2,
    /// Real-time signal 3.
    SIGRT3,
    /// Real-time signal 4.
    SIGRT4,
    /// Real-time signal 5.
    SIGRT5,
    /// Real-time signal 6.
    SIGRT6,
    /// Real-time signal 7.
    SIGRT7,
    /// Real-time signal 8.
    SIGRT8,
    /// Real-time signal 9.
    SIGRT9,
    /// Real-time signal 10.
    SIGRT10,
    /// Real-time signal 11.
    SIGRT11,
    /// Real-time signal 12.
    SIGRT12,
    /// Real-time signal 13.
    SIGRT13,
    /// Real-time signal 14.
    SIGRT14,
    /// Real-time signal 15.
    SIGRT15,
    /// Real-time signal 16.
    SIGRT16,
    /// Real-time signal 17.
    SIGRT17,
    /// Real-time signal 18.
    SIGRT18,
    /// Real-time signal 19.
    SIGRT19,
    /// Real-time signal 20.
    SIGRT20,
    /// Real-time signal 21.
    SIGRT21,
    /// Real-time signal 22.
    SIGRT22,
    /// Real-time signal 23.
    SIGRT23,
    /// Real-time signal 24.
    SIGRT24,
    /// Real-time signal 25.
    SIGRT25,
    /// Real-time signal 26.
    SIGRT26,
    /// Real-time signal 27.
    SIGRT27,
    /// Real-time signal 28.
    SIGRT28,
    /// Real-time signal 29.
    SIGRT29,
    /// Real-time signal 30.
    SIGRT30,
    /// Real-time signal 31.
    SIGRT31,
    /// Real-time signal 32.
    SIGRT32,
}

impl BsdSig {
    /// All of them, in their order.
    pub const ALL: [BsdSig; 64] = [
        BsdSig::SIGHUP,
        BsdSig::SIGINT,
        BsdSig::SIGQUIT,
        BsdSig::SIGILL,
        BsdSig::SIGTRAP,
        BsdSig::SIGABRT,
        BsdSig::SIGBUS,
        BsdSig::SIGFPE,
        BsdSig::SIGKILL,
        BsdSig::SIGUSR1,
        BsdSig::SIGSEGV,
        BsdSig::SIGUSR2,
        BsdSig::SIGPIPE,
        BsdSig::SIGALRM,
        BsdSig::SIGTERM,
        BsdSig::SIGSTKFLT,
        BsdSig::SIGCHLD,
        BsdSig::SIGCONT,
        BsdSig::SIGSTOP,
        BsdSig::SIGTSTP,
        BsdSig::SIGTTIN,
        BsdSig::SIGTTOU,
        BsdSig::SIGURG,
        BsdSig::SIGXCPU,
        BsdSig::SIGXFSZ,
        BsdSig::SIGVTALRM,
        BsdSig::SIGPROF,
        BsdSig::SIGWINCH,
        BsdSig::SIGIO,
        BsdSig::SIGPWR,
        BsdSig::SIGSYS,
        BsdSig::SIGRT0,
        BsdSig::SIGRT1,
        BsdSig::SIGRT2,
        BsdSig::SIGRT3,
        BsdSig::SIGRT4,
        BsdSig::SIGRT5,
        BsdSig::SIGRT6,
        BsdSig::SIGRT7,
        BsdSig::SIGRT8,
        BsdSig::SIGRT9,
        BsdSig::SIGRT10,
        BsdSig::SIGRT11,
        BsdSig::SIGRT12,
        BsdSig::SIGRT13,
        BsdSig::SIGRT14,
        BsdSig::SIGRT15,
        BsdSig::SIGRT16,
        BsdSig::SIGRT17,
        BsdSig::SIGRT18,
        BsdSig::SIGRT19,
        BsdSig::SIGRT20,
        BsdSig::SIGRT21,
        BsdSig::SIGRT22,
        BsdSig::SIGRT23,
        BsdSig::SIGRT24,
        BsdSig::SIGRT25,
        BsdSig::SIGRT26,
        BsdSig::SIGRT27,
        BsdSig::SIGRT28,
        BsdSig::SIGRT29,
        BsdSig::SIGRT30,
        BsdSig::SIGRT31,
        BsdSig::SIGRT32,
    ];

    /// The signal of a FreeBSD number, and None exactly where none has it.
    #[tactic(auto, unfolding(crate::specs::BsdSig::bsd_signal_of))]
    pub fn new(n: u64) -> Option<BsdSig>
        ensures value { result ≡ bsd_signal_of n }
        ensures some { IfSome result (λ signal. bsd_signal_number signal ≡ n) }
        ensures none { IfNone result ((signal : BsdSig) → bsd_signal_number signal ≢ n) }
    {
        match n {
            1 => Some(BsdSig::SIGHUP),
            2 => Some(BsdSig::SIGINT),
            3 => Some(BsdSig::SIGQUIT),
            4 => Some(BsdSig::SIGILL),
            5 => Some(BsdSig::SIGTRAP),
            6 => Some(BsdSig::SIGABRT),
            8 => Some(BsdSig::SIGFPE),
            9 => Some(BsdSig::SIGKILL),
            10 => Some(BsdSig::SIGBUS),
            11 => Some(BsdSig::SIGSEGV),
            12 => Some(BsdSig::SIGSYS),
            13 => Some(BsdSig::SIGPIPE),
            14 => Some(BsdSig::SIGALRM),
            15 => Some(BsdSig::SIGTERM),
            16 => Some(BsdSig::SIGURG),
            17 => Some(BsdSig::SIGSTOP),
            18 => Some(BsdSig::SIGTSTP),
            19 => Some(BsdSig::SIGCONT),
            20 => Some(BsdSig::SIGCHLD),
            21 => Some(BsdSig::SIGTTIN),
            22 => Some(BsdSig::SIGTTOU),
            23 => Some(BsdSig::SIGIO),
            24 => Some(BsdSig::SIGXCPU),
            25 => Some(BsdSig::SIGXFSZ),
            26 => Some(BsdSig::SIGVTALRM),
            27 => Some(BsdSig::SIGPROF),
            28 => Some(BsdSig::SIGWINCH),
            30 => Some(BsdSig::SIGUSR1),
            31 => Some(BsdSig::SIGUSR2),
            65 => Some(BsdSig::SIGRT0),
            66 => Some(BsdSig::SIGRT1),
            67 => Some(BsdSig::SIGRT2),
            68 => Some(BsdSig::SIGRT3),
            69 => Some(BsdSig::SIGRT4),
            70 => Some(BsdSig::SIGRT5),
            71 => Some(BsdSig::SIGRT6),
            72 => Some(BsdSig::SIGRT7),
            73 => Some(BsdSig::SIGRT8),
            74 => Some(BsdSig::SIGRT9),
            75 => Some(BsdSig::SIGRT10),
            76 => Some(BsdSig::SIGRT11),
            77 => Some(BsdSig::SIGRT12),
            78 => Some(BsdSig::SIGRT13),
            79 => Some(BsdSig::SIGRT14),
            80 => Some(BsdSig::SIGRT15),
            81 => Some(BsdSig::SIGRT16),
            82 => Some(BsdSig::SIGRT17),
            83 => Some(BsdSig::SIGRT18),
            84 => Some(BsdSig::SIGRT19),
            85 => Some(BsdSig::SIGRT20),
            86 => Some(BsdSig::SIGRT21),
            87 => Some(BsdSig::SIGRT22),
            88 => Some(BsdSig::SIGRT23),
            89 => Some(BsdSig::SIGRT24),
            90 => Some(BsdSig::SIGRT25),
            91 => Some(BsdSig::SIGRT26),
            92 => Some(BsdSig::SIGRT27),
            93 => Some(BsdSig::SIGRT28),
            94 => Some(BsdSig::SIGRT29),
            95 => Some(BsdSig::SIGRT30),
            96 => Some(BsdSig::SIGRT31),
            97 => Some(BsdSig::SIGRT32),
            98 => Some(BsdSig::SIGSTKFLT),
            99 => Some(BsdSig::SIGPWR),
            _ => None,
        }
    }

    /// FreeBSD's number of the signal.
    #[tactic(auto, unfolding(crate::specs::BsdSig::bsd_signal_of))]
    pub fn number(self) -> u8
        ensures value { result ≡ bsd_signal_number self }
        ensures back { bsd_signal_of result ≡ Some self }
    {
        match self {
            BsdSig::SIGHUP => 1,
            BsdSig::SIGINT => 2,
            BsdSig::SIGQUIT => 3,
            BsdSig::SIGILL => 4,
            BsdSig::SIGTRAP => 5,
            BsdSig::SIGABRT => 6,
            BsdSig::SIGBUS => 10,
            BsdSig::SIGFPE => 8,
            BsdSig::SIGKILL => 9,
            BsdSig::SIGUSR1 => 30,
            BsdSig::SIGSEGV => 11,
            BsdSig::SIGUSR2 => 31,
            BsdSig::SIGPIPE => 13,
            BsdSig::SIGALRM => 14,
            BsdSig::SIGTERM => 15,
            BsdSig::SIGSTKFLT => 98,
            BsdSig::SIGCHLD => 20,
            BsdSig::SIGCONT => 19,
            BsdSig::SIGSTOP => 17,
            BsdSig::SIGTSTP => 18,
            BsdSig::SIGTTIN => 21,
            BsdSig::SIGTTOU => 22,
            BsdSig::SIGURG => 16,
            BsdSig::SIGXCPU => 24,
            BsdSig::SIGXFSZ => 25,
            BsdSig::SIGVTALRM => 26,
            BsdSig::SIGPROF => 27,
            BsdSig::SIGWINCH => 28,
            BsdSig::SIGIO => 23,
            BsdSig::SIGPWR => 99,
            BsdSig::SIGSYS => 12,
            BsdSig::SIGRT0 => 65,
            BsdSig::SIGRT1 => 66,
            BsdSig::SIGRT2 => 67,
            BsdSig::SIGRT3 => 68,
            BsdSig::SIGRT4 => 69,
            BsdSig::SIGRT5 => 70,
            BsdSig::SIGRT6 => 71,
            BsdSig::SIGRT7 => 72,
            BsdSig::SIGRT8 => 73,
            BsdSig::SIGRT9 => 74,
            BsdSig::SIGRT10 => 75,
            BsdSig::SIGRT11 => 76,
            BsdSig::SIGRT12 => 77,
            BsdSig::SIGRT13 => 78,
            BsdSig::SIGRT14 => 79,
            BsdSig::SIGRT15 => 80,
            BsdSig::SIGRT16 => 81,
            BsdSig::SIGRT17 => 82,
            BsdSig::SIGRT18 => 83,
            BsdSig::SIGRT19 => 84,
            BsdSig::SIGRT20 => 85,
            BsdSig::SIGRT21 => 86,
            BsdSig::SIGRT22 => 87,
            BsdSig::SIGRT23 => 88,
            BsdSig::SIGRT24 => 89,
            BsdSig::SIGRT25 => 90,
            BsdSig::SIGRT26 => 91,
            BsdSig::SIGRT27 => 92,
            BsdSig::SIGRT28 => 93,
            BsdSig::SIGRT29 => 94,
            BsdSig::SIGRT30 => 95,
            BsdSig::SIGRT31 => 96,
            BsdSig::SIGRT32 => 97,
        }
    }

    /// The place in the order, from 0: one less than the signal's number on Linux.
    pub fn place(self) -> u8
        ensures value { result ≡ place_of self }
        ensures number { linux_signal_number self ≡ result + 1 }
        ensures bound { result < 64 }
    {
        self as u8
    }

    /// The set with this signal alone: signal n is bit n - 1 (sigprocmask(2)).
    pub fn bit(self) -> u128
        ensures { result ≡ 2 ^ bsd_bit self }
    {
        1 << (self.number() - 1)
    }

    /// Whether it is a real-time signal: of these each one that is sent is kept (sigqueue(2)).
    pub fn is_real_time(self) -> bool
        ensures { result ≡ is_real_time self }
    {
        self >= BsdSig::SIGRT0
    }

    /// Whether it is ignored or discarded by default. Any other signal ends the guest then (signal(3)).
    pub fn is_dropped_by_default(self) -> bool
        ensures { result ≡ is_dropped_by_default self }
    {
        matches!(
            self,
            BsdSig::SIGCHLD
                | BsdSig::SIGCONT
                | BsdSig::SIGSTOP
                | BsdSig::SIGTSTP
                | BsdSig::SIGTTIN
                | BsdSig::SIGTTOU
                | BsdSig::SIGURG
                | BsdSig::SIGWINCH
        )
    }
}
