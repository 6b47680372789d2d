//! Single signals.
ghost use Rattle.std.specs.Prelude.{◌≡◌};
ghost use Rattle.linux_abi.specs.LinuxSig.{signal_number};
ghost use Rattle.linux_abi.specs.LinuxSig as linux;
ghost use Rattle.bsd_abi.specs.BsdSig.{linux_signal_number};
ghost use Rattle.bsd_abi.specs.BsdSig as bsd;
ghost use Rattle.signal_map.specs.Signals.{signal_in_of, signal_out_of};

use bsd_abi::BsdSig;
use linux_abi::LinuxSig;

/// The FreeBSD signal of a Linux signal: that of the same name (FreeBSD's linux(4)).
pub fn signal_in(s: LinuxSig) -> BsdSig
    ensures value { result ≡ signal_in_of s }
    ensures back { signal_out_of result ≡ s }
    // The table of signals has this signal's number on Linux beside the answer's number on FreeBSD.
    ensures numbers { linux_signal_number result ≡ signal_number s }
{
    match s {
        LinuxSig::SIGHUP => BsdSig::SIGHUP,
        LinuxSig::SIGINT => BsdSig::SIGINT,
        LinuxSig::SIGQUIT => BsdSig::SIGQUIT,
        LinuxSig::SIGILL => BsdSig::SIGILL,
        LinuxSig::SIGTRAP => BsdSig::SIGTRAP,
        LinuxSig::SIGABRT => BsdSig::SIGABRT,
        LinuxSig::SIGBUS => BsdSig::SIGBUS,
        LinuxSig::SIGFPE => BsdSig::SIGFPE,
        LinuxSig::SIGKILL => BsdSig::SIGKILL,
        LinuxSig::SIGUSR1 => BsdSig::SIGUSR1,
        LinuxSig::SIGSEGV => BsdSig::SIGSEGV,
        LinuxSig::SIGUSR2 => BsdSig::SIGUSR2,
        LinuxSig::SIGPIPE => BsdSig::SIGPIPE,
        LinuxSig::SIGALRM => BsdSig::SIGALRM,
        LinuxSig::SIGTERM => BsdSig::SIGTERM,
        LinuxSig::SIGSTKFLT => BsdSig::SIGSTKFLT,
        LinuxSig::SIGCHLD => BsdSig::SIGCHLD,
        LinuxSig::SIGCONT => BsdSig::SIGCONT,
        LinuxSig::SIGSTOP => BsdSig::SIGSTOP,
        LinuxSig::SIGTSTP => BsdSig::SIGTSTP,
        LinuxSig::SIGTTIN => BsdSig::SIGTTIN,
        LinuxSig::SIGTTOU => BsdSig::SIGTTOU,
        LinuxSig::SIGURG => BsdSig::SIGURG,
        LinuxSig::SIGXCPU => BsdSig::SIGXCPU,
        LinuxSig::SIGXFSZ => BsdSig::SIGXFSZ,
        LinuxSig::SIGVTALRM => BsdSig::SIGVTALRM,
        LinuxSig::SIGPROF => BsdSig::SIGPROF,
        LinuxSig::SIGWINCH => BsdSig::SIGWINCH,
        LinuxSig::SIGIO => BsdSig::SIGIO,
        LinuxSig::SIGPWR => BsdSig::SIGPWR,
        LinuxSig::SIGSYS => BsdSig::SIGSYS,
        LinuxSig::SIGRT0 => BsdSig::SIGRT0,
        LinuxSig::SIGRT1 => BsdSig::SIGRT1,
        LinuxSig::SIGRT2 => BsdSig::SIGRT2,
        LinuxSig::SIGRT3 => BsdSig::SIGRT3,
        LinuxSig::SIGRT4 => BsdSig::SIGRT4,
        LinuxSig::SIGRT5 => BsdSig::SIGRT5,
        LinuxSig::SIGRT6 => BsdSig::SIGRT6,
        LinuxSig::SIGRT7 => BsdSig::SIGRT7,
        LinuxSig::SIGRT8 => BsdSig::SIGRT8,
        LinuxSig::SIGRT9 => BsdSig::SIGRT9,
        LinuxSig::SIGRT10 => BsdSig::SIGRT10,
        LinuxSig::SIGRT11 => BsdSig::SIGRT11,
        LinuxSig::SIGRT12 => BsdSig::SIGRT12,
        LinuxSig::SIGRT13 => BsdSig::SIGRT13,
        LinuxSig::SIGRT14 => BsdSig::SIGRT14,
        LinuxSig::SIGRT15 => BsdSig::SIGRT15,
        LinuxSig::SIGRT16 => BsdSig::SIGRT16,
        LinuxSig::SIGRT17 => BsdSig::SIGRT17,
        LinuxSig::SIGRT18 => BsdSig::SIGRT18,
        LinuxSig::SIGRT19 => BsdSig::SIGRT19,
        LinuxSig::SIGRT20 => BsdSig::SIGRT20,
        LinuxSig::SIGRT21 => BsdSig::SIGRT21,
        LinuxSig::SIGRT22 => BsdSig::SIGRT22,
        LinuxSig::SIGRT23 => BsdSig::SIGRT23,
        LinuxSig::SIGRT24 => BsdSig::SIGRT24,
        LinuxSig::SIGRT25 => BsdSig::SIGRT25,
        LinuxSig::SIGRT26 => BsdSig::SIGRT26,
        LinuxSig::SIGRT27 => BsdSig::SIGRT27,
        LinuxSig::SIGRT28 => BsdSig::SIGRT28,
        LinuxSig::SIGRT29 => BsdSig::SIGRT29,
        LinuxSig::SIGRT30 => BsdSig::SIGRT30,
        LinuxSig::SIGRT31 => BsdSig::SIGRT31,
        LinuxSig::SIGRT32 => BsdSig::SIGRT32,
    }
}

/// The Linux signal of a FreeBSD signal: that of the same name (FreeBSD's linux(4)).
pub fn signal_out(s: BsdSig) -> LinuxSig
    ensures value { result ≡ signal_out_of s }
    ensures back { signal_in_of result ≡ s }
    // The table of signals has the answer's number on Linux beside this signal's number on FreeBSD.
    ensures numbers { signal_number result ≡ linux_signal_number s }

    // The two are of one kind on both sides.
    ensures real_time { linux.is_real_time result ≡ bsd.is_real_time s }
    ensures default { linux.is_dropped_by_default result ≡ bsd.is_dropped_by_default s }
{
    match s {
        BsdSig::SIGHUP => LinuxSig::SIGHUP,
        BsdSig::SIGINT => LinuxSig::SIGINT,
        BsdSig::SIGQUIT => LinuxSig::SIGQUIT,
        BsdSig::SIGILL => LinuxSig::SIGILL,
        BsdSig::SIGTRAP => LinuxSig::SIGTRAP,
        BsdSig::SIGABRT => LinuxSig::SIGABRT,
        BsdSig::SIGBUS => LinuxSig::SIGBUS,
        BsdSig::SIGFPE => LinuxSig::SIGFPE,
        BsdSig::SIGKILL => LinuxSig::SIGKILL,
        BsdSig::SIGUSR1 => LinuxSig::SIGUSR1,
        BsdSig::SIGSEGV => LinuxSig::SIGSEGV,
        BsdSig::SIGUSR2 => LinuxSig::SIGUSR2,
        BsdSig::SIGPIPE => LinuxSig::SIGPIPE,
        BsdSig::SIGALRM => LinuxSig::SIGALRM,
        BsdSig::SIGTERM => LinuxSig::SIGTERM,
        BsdSig::SIGSTKFLT => LinuxSig::SIGSTKFLT,
        BsdSig::SIGCHLD => LinuxSig::SIGCHLD,
        BsdSig::SIGCONT => LinuxSig::SIGCONT,
        BsdSig::SIGSTOP => LinuxSig::SIGSTOP,
        BsdSig::SIGTSTP => LinuxSig::SIGTSTP,
        BsdSig::SIGTTIN => LinuxSig::SIGTTIN,
        BsdSig::SIGTTOU => LinuxSig::SIGTTOU,
        BsdSig::SIGURG => LinuxSig::SIGURG,
        BsdSig::SIGXCPU => LinuxSig::SIGXCPU,
        BsdSig::SIGXFSZ => LinuxSig::SIGXFSZ,
        BsdSig::SIGVTALRM => LinuxSig::SIGVTALRM,
        BsdSig::SIGPROF => LinuxSig::SIGPROF,
        BsdSig::SIGWINCH => LinuxSig::SIGWINCH,
        BsdSig::SIGIO => LinuxSig::SIGIO,
        BsdSig::SIGPWR => LinuxSig::SIGPWR,
        BsdSig::SIGSYS => LinuxSig::SIGSYS,
        BsdSig::SIGRT0 => LinuxSig::SIGRT0,
        BsdSig::SIGRT1 => LinuxSig::SIGRT1,
        BsdSig::SIGRT2 => LinuxSig::SIGRT2,
        BsdSig::SIGRT3 => LinuxSig::SIGRT3,
        BsdSig::SIGRT4 => LinuxSig::SIGRT4,
        BsdSig::SIGRT5 => LinuxSig::SIGRT5,
        BsdSig::SIGRT6 => LinuxSig::SIGRT6,
        BsdSig::SIGRT7 => LinuxSig::SIGRT7,
        BsdSig::SIGRT8 => LinuxSig::SIGRT8,
        BsdSig::SIGRT9 => LinuxSig::SIGRT9,
        BsdSig::SIGRT10 => LinuxSig::SIGRT10,
        BsdSig::SIGRT11 => LinuxSig::SIGRT11,
        BsdSig::SIGRT12 => LinuxSig::SIGRT12,
        BsdSig::SIGRT13 => LinuxSig::SIGRT13,
        BsdSig::SIGRT14 => LinuxSig::SIGRT14,
        BsdSig::SIGRT15 => LinuxSig::SIGRT15,
        BsdSig::SIGRT16 => LinuxSig::SIGRT16,
        BsdSig::SIGRT17 => LinuxSig::SIGRT17,
        BsdSig::SIGRT18 => LinuxSig::SIGRT18,
        BsdSig::SIGRT19 => LinuxSig::SIGRT19,
        BsdSig::SIGRT20 => LinuxSig::SIGRT20,
        BsdSig::SIGRT21 => LinuxSig::SIGRT21,
        BsdSig::SIGRT22 => LinuxSig::SIGRT22,
        BsdSig::SIGRT23 => LinuxSig::SIGRT23,
        BsdSig::SIGRT24 => LinuxSig::SIGRT24,
        BsdSig::SIGRT25 => LinuxSig::SIGRT25,
        BsdSig::SIGRT26 => LinuxSig::SIGRT26,
        BsdSig::SIGRT27 => LinuxSig::SIGRT27,
        BsdSig::SIGRT28 => LinuxSig::SIGRT28,
        BsdSig::SIGRT29 => LinuxSig::SIGRT29,
        BsdSig::SIGRT30 => LinuxSig::SIGRT30,
        BsdSig::SIGRT31 => LinuxSig::SIGRT31,
        BsdSig::SIGRT32 => LinuxSig::SIGRT32,
    }
}
