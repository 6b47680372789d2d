ghost use Rattle.std.specs.Prelude.{◌≡◌, ◌≢◌, Some, IfSome, IfNone};
ghost use Rattle.linux_abi.specs.declared.calls.Call.{Call};
ghost use Rattle.linux_abi.specs.Call.{call_number, call_name, call_of};

/// The Linux calls that are known, by their numbers on arm64 (`asm-generic/unistd.h`; syscalls(2)).
/// Every other number answers ENOSYS.
#[derive(Clone, Copy, PartialEq, Eq)]
pub enum Call {
    /// eventfd(2).
    Eventfd2,
    /// epoll_create(2).
    EpollCreate1,
    /// epoll_ctl(2).
    EpollCtl,
    /// epoll_wait(2).
    EpollPwait,
    /// dup(2).
    Dup,
    /// dup(2).
    Dup3,
    /// fcntl(2).
    Fcntl,
    /// ioctl(2).
    Ioctl,
    /// close(2).
    Close,
    /// pipe(2).
    Pipe2,
    /// lseek(2).
    Lseek,
    /// read(2).
    Read,
    /// write(2).
    Write,
    /// readv(2).
    Readv,
    /// readv(2).
    Writev,
    /// _exit(2).
    Exit,
    /// exit_group(2).
    ExitGroup,
    /// set_tid_address(2).
    SetTidAddress,
    /// futex(2).
    Futex,
    /// get_robust_list(2).
    SetRobustList,
    /// get_robust_list(2).
    GetRobustList,
    /// nanosleep(2).
    Nanosleep,
    /// clock_gettime(2).
    ClockGettime,
    /// sched_yield(2).
    SchedYield,
    /// kill(2).
    Kill,
    /// tkill(2).
    Tkill,
    /// tkill(2).
    Tgkill,
    /// sigaltstack(2).
    Sigaltstack,
    /// sigsuspend(2).
    RtSigsuspend,
    /// sigaction(2).
    RtSigaction,
    /// sigprocmask(2).
    RtSigprocmask,
    /// sigpending(2).
    RtSigpending,
    /// sigreturn(2).
    RtSigreturn,
    /// uname(2).
    Uname,
    /// getpid(2).
    Getpid,
    /// getpid(2).
    Getppid,
    /// getuid(2).
    Getuid,
    /// getuid(2).
    Geteuid,
    /// getgid(2).
    Getgid,
    /// getgid(2).
    Getegid,
    /// gettid(2).
    Gettid,
    /// brk(2).
    Brk,
    /// mmap(2).
    Munmap,
    /// clone(2).
    Clone,
    /// mmap(2).
    Mmap,
    /// mprotect(2).
    Mprotect,
    /// madvise(2).
    Madvise,
    /// futex_waitv(2).
    FutexWaitv,
}

impl Call {
    /// The call of a number, and None exactly where no known call has it.
    #[tactic(auto, unfolding(crate::specs::Call::call_of))]
    pub fn new(number: u64) -> Option<Call>
        ensures value { result ≡ call_of number }
        ensures some { IfSome result (λ call. call_number call ≡ number) }
        ensures none { IfNone result ((call : Call) → call_number call ≢ number) }
    {
        match number {
            19 => Some(Call::Eventfd2),
            20 => Some(Call::EpollCreate1),
            21 => Some(Call::EpollCtl),
            22 => Some(Call::EpollPwait),
            23 => Some(Call::Dup),
            24 => Some(Call::Dup3),
            25 => Some(Call::Fcntl),
            29 => Some(Call::Ioctl),
            57 => Some(Call::Close),
            59 => Some(Call::Pipe2),
            62 => Some(Call::Lseek),
            63 => Some(Call::Read),
            64 => Some(Call::Write),
            65 => Some(Call::Readv),
            66 => Some(Call::Writev),
            93 => Some(Call::Exit),
            94 => Some(Call::ExitGroup),
            96 => Some(Call::SetTidAddress),
            98 => Some(Call::Futex),
            99 => Some(Call::SetRobustList),
            100 => Some(Call::GetRobustList),
            101 => Some(Call::Nanosleep),
            113 => Some(Call::ClockGettime),
            124 => Some(Call::SchedYield),
            129 => Some(Call::Kill),
            130 => Some(Call::Tkill),
            131 => Some(Call::Tgkill),
            132 => Some(Call::Sigaltstack),
            133 => Some(Call::RtSigsuspend),
            134 => Some(Call::RtSigaction),
            135 => Some(Call::RtSigprocmask),
            136 => Some(Call::RtSigpending),
            139 => Some(Call::RtSigreturn),
            160 => Some(Call::Uname),
            172 => Some(Call::Getpid),
            173 => Some(Call::Getppid),
            174 => Some(Call::Getuid),
            175 => Some(Call::Geteuid),
            176 => Some(Call::Getgid),
            177 => Some(Call::Getegid),
            178 => Some(Call::Gettid),
            214 => Some(Call::Brk),
            215 => Some(Call::Munmap),
            220 => Some(Call::Clone),
            222 => Some(Call::Mmap),
            226 => Some(Call::Mprotect),
            233 => Some(Call::Madvise),
            449 => Some(Call::FutexWaitv),
            _ => None,
        }
    }

    /// The number that a program puts into x8.
    #[tactic(auto, unfolding(crate::specs::Call::call_of))]
    pub fn number(self) -> u64
        ensures value { result ≡ call_number self }
        ensures back { call_of result ≡ Some self }
    {
        match self {
            Call::Eventfd2 => 19,
            Call::EpollCreate1 => 20,
            Call::EpollCtl => 21,
            Call::EpollPwait => 22,
            Call::Dup => 23,
            Call::Dup3 => 24,
            Call::Fcntl => 25,
            Call::Ioctl => 29,
            Call::Close => 57,
            Call::Pipe2 => 59,
            Call::Lseek => 62,
            Call::Read => 63,
            Call::Write => 64,
            Call::Readv => 65,
            Call::Writev => 66,
            Call::Exit => 93,
            Call::ExitGroup => 94,
            Call::SetTidAddress => 96,
            Call::Futex => 98,
            Call::SetRobustList => 99,
            Call::GetRobustList => 100,
            Call::Nanosleep => 101,
            Call::ClockGettime => 113,
            Call::SchedYield => 124,
            Call::Kill => 129,
            Call::Tkill => 130,
            Call::Tgkill => 131,
            Call::Sigaltstack => 132,
            Call::RtSigsuspend => 133,
            Call::RtSigaction => 134,
            Call::RtSigprocmask => 135,
            Call::RtSigpending => 136,
            Call::RtSigreturn => 139,
            Call::Uname => 160,
            Call::Getpid => 172,
            Call::Getppid => 173,
            Call::Getuid => 174,
            Call::Geteuid => 175,
            Call::Getgid => 176,
            Call::Getegid => 177,
            Call::Gettid => 178,
            Call::Brk => 214,
            Call::Munmap => 215,
            Call::Clone => 220,
            Call::Mmap => 222,
            Call::Mprotect => 226,
            Call::Madvise => 233,
            Call::FutexWaitv => 449,
        }
    }

    /// The name under which the manual has the call, as a trace prints it.
    pub fn name(self) -> &'static str
        ensures { result.now ≡ call_name self }
    {
        match self {
            Call::Eventfd2 => "eventfd2",
            Call::EpollCreate1 => "epoll_create1",
            Call::EpollCtl => "epoll_ctl",
            Call::EpollPwait => "epoll_pwait",
            Call::Dup => "dup",
            Call::Dup3 => "dup3",
            Call::Fcntl => "fcntl",
            Call::Ioctl => "ioctl",
            Call::Close => "close",
            Call::Pipe2 => "pipe2",
            Call::Lseek => "lseek",
            Call::Read => "read",
            Call::Write => "write",
            Call::Readv => "readv",
            Call::Writev => "writev",
            Call::Exit => "exit",
            Call::ExitGroup => "exit_group",
            Call::SetTidAddress => "set_tid_address",
            Call::Futex => "futex",
            Call::SetRobustList => "set_robust_list",
            Call::GetRobustList => "get_robust_list",
            Call::Nanosleep => "nanosleep",
            Call::ClockGettime => "clock_gettime",
            Call::SchedYield => "sched_yield",
            Call::Kill => "kill",
            Call::Tkill => "tkill",
            Call::Tgkill => "tgkill",
            Call::Sigaltstack => "sigaltstack",
            Call::RtSigsuspend => "rt_sigsuspend",
            Call::RtSigaction => "rt_sigaction",
            Call::RtSigprocmask => "rt_sigprocmask",
            Call::RtSigpending => "rt_sigpending",
            Call::RtSigreturn => "rt_sigreturn",
            Call::Uname => "uname",
            Call::Getpid => "getpid",
            Call::Getppid => "getppid",
            Call::Getuid => "getuid",
            Call::Geteuid => "geteuid",
            Call::Getgid => "getgid",
            Call::Getegid => "getegid",
            Call::Gettid => "gettid",
            Call::Brk => "brk",
            Call::Munmap => "munmap",
            Call::Clone => "clone",
            Call::Mmap => "mmap",
            Call::Mprotect => "mprotect",
            Call::Madvise => "madvise",
            Call::FutexWaitv => "futex_waitv",
        }
    }
}
