//! The tables of numbers, as the code has them.

use abi_map::{errno_out, map_flags_in, open_flags_in, open_flags_out};
use bsd_abi::{BsdErrno, BsdSig};
use linux_abi::epoll::EpollOperation;
use linux_abi::files::DescriptorOperation;
use linux_abi::futexes::{Comparison, FutexOperation, WordOperation};
use linux_abi::memory::Advice;
use linux_abi::signals::MaskChange;
use linux_abi::time::ClockId;
use linux_abi::{Call, LinuxSig, answer, auxv, epoll, files, futexes, memory, signals, threads};
use signal_map::{set_in, set_out, signal_in, signal_out};
use std::alloc::AllocError;

static ERRORS: [BsdErrno; 23] = [
    BsdErrno::EPERM,
    BsdErrno::ENOENT,
    BsdErrno::ESRCH,
    BsdErrno::EINTR,
    BsdErrno::EIO,
    BsdErrno::EBADF,
    BsdErrno::EAGAIN,
    BsdErrno::ENOMEM,
    BsdErrno::EACCES,
    BsdErrno::EFAULT,
    BsdErrno::EEXIST,
    BsdErrno::ENODEV,
    BsdErrno::EINVAL,
    BsdErrno::ENFILE,
    BsdErrno::EMFILE,
    BsdErrno::ENOTTY,
    BsdErrno::ENOSPC,
    BsdErrno::ESPIPE,
    BsdErrno::EPIPE,
    BsdErrno::EDEADLK,
    BsdErrno::ENOSYS,
    BsdErrno::ELOOP,
    BsdErrno::ETIMEDOUT,
];

// Numbers of arguments and of the auxiliary vector, by name.
static ARGUMENTS: [(&str, u64); 58] = [
    ("AT_NULL", auxv::AT_NULL),
    ("AT_PHDR", auxv::AT_PHDR),
    ("AT_PHENT", auxv::AT_PHENT),
    ("AT_PHNUM", auxv::AT_PHNUM),
    ("AT_PAGESZ", auxv::AT_PAGESZ),
    ("AT_ENTRY", auxv::AT_ENTRY),
    ("AT_UID", auxv::AT_UID),
    ("AT_EUID", auxv::AT_EUID),
    ("AT_GID", auxv::AT_GID),
    ("AT_EGID", auxv::AT_EGID),
    ("AT_HWCAP", auxv::AT_HWCAP),
    ("AT_SECURE", auxv::AT_SECURE),
    ("AT_RANDOM", auxv::AT_RANDOM),
    ("AT_EXECFN", auxv::AT_EXECFN),
    ("HWCAP_ATOMICS", auxv::HWCAP_ATOMICS),
    ("O_WRONLY", files::O_WRONLY),
    ("O_RDWR", files::O_RDWR),
    ("O_NONBLOCK", files::O_NONBLOCK),
    ("O_CLOEXEC", files::O_CLOEXEC),
    ("FD_CLOEXEC", files::FD_CLOEXEC),
    ("EFD_SEMAPHORE", files::EFD_SEMAPHORE),
    ("EFD_NONBLOCK", files::EFD_NONBLOCK),
    ("EFD_CLOEXEC", files::EFD_CLOEXEC),
    ("IOV_MAX", files::IOV_MAX),
    ("PROT_READ", memory::PROT_READ),
    ("PROT_WRITE", memory::PROT_WRITE),
    ("PROT_EXEC", memory::PROT_EXEC),
    ("MAP_SHARED", memory::MAP_SHARED),
    ("MAP_PRIVATE", memory::MAP_PRIVATE),
    ("MAP_FIXED", memory::MAP_FIXED),
    ("MAP_ANONYMOUS", memory::MAP_ANONYMOUS),
    ("CSIGNAL", threads::CSIGNAL),
    ("CLONE_VM", threads::CLONE_VM),
    ("CLONE_FS", threads::CLONE_FS),
    ("CLONE_FILES", threads::CLONE_FILES),
    ("CLONE_SIGHAND", threads::CLONE_SIGHAND),
    ("CLONE_THREAD", threads::CLONE_THREAD),
    ("CLONE_SYSVSEM", threads::CLONE_SYSVSEM),
    ("CLONE_SETTLS", threads::CLONE_SETTLS),
    ("CLONE_PARENT_SETTID", threads::CLONE_PARENT_SETTID),
    ("CLONE_CHILD_CLEARTID", threads::CLONE_CHILD_CLEARTID),
    ("CLONE_DETACHED", threads::CLONE_DETACHED),
    ("CLONE_CHILD_SETTID", threads::CLONE_CHILD_SETTID),
    ("FUTEX_PRIVATE_FLAG", futexes::FUTEX_PRIVATE_FLAG),
    ("FUTEX_CLOCK_REALTIME", futexes::FUTEX_CLOCK_REALTIME),
    ("FUTEX_OP_ARG_SHIFT", futexes::FUTEX_OP_ARG_SHIFT),
    ("ROBUST_LIST_LIMIT", futexes::ROBUST_LIST_LIMIT),
    ("ROBUST_HEAD_SIZE", futexes::ROBUST_HEAD_SIZE),
    ("SIG_DFL", signals::SIG_DFL),
    ("SIG_IGN", signals::SIG_IGN),
    ("SA_SIGINFO", signals::SA_SIGINFO),
    ("SA_RESTORER", signals::SA_RESTORER),
    ("SA_ONSTACK", signals::SA_ONSTACK),
    ("SA_RESTART", signals::SA_RESTART),
    ("SA_NODEFER", signals::SA_NODEFER),
    ("SA_RESETHAND", signals::SA_RESETHAND),
    ("SIGSET_SIZE", signals::SIGSET_SIZE),
    ("MINSIGSTKSZ", signals::MINSIGSTKSZ),
];

// Numbers of 32 bits in memory, by name.
static WORDS: [(&str, u32); 14] = [
    ("EPOLLIN", epoll::EPOLLIN),
    ("EPOLLPRI", epoll::EPOLLPRI),
    ("EPOLLOUT", epoll::EPOLLOUT),
    ("EPOLLERR", epoll::EPOLLERR),
    ("EPOLLHUP", epoll::EPOLLHUP),
    ("EPOLLRDHUP", epoll::EPOLLRDHUP),
    ("EPOLLEXCLUSIVE", epoll::EPOLLEXCLUSIVE),
    ("EPOLLONESHOT", epoll::EPOLLONESHOT),
    ("EPOLLET", epoll::EPOLLET),
    ("FUTEX_BITSET_MATCH_ANY", futexes::FUTEX_BITSET_MATCH_ANY),
    ("FUTEX_WAITERS", futexes::FUTEX_WAITERS),
    ("FUTEX_OWNER_DIED", futexes::FUTEX_OWNER_DIED),
    ("FUTEX_TID_MASK", futexes::FUTEX_TID_MASK),
    ("FUTEX_32", futexes::FUTEX_32),
];

// Signed numbers in memory, by name.
static CODES: [(&str, i32); 9] = [
    ("SS_ONSTACK", signals::SS_ONSTACK),
    ("SS_DISABLE", signals::SS_DISABLE),
    ("SI_USER", signals::SI_USER),
    ("SI_TKILL", signals::SI_TKILL),
    ("SEGV_MAPERR", signals::SEGV_MAPERR),
    ("SEGV_ACCERR", signals::SEGV_ACCERR),
    ("BUS_ADRALN", signals::BUS_ADRALN),
    ("ILL_ILLOPC", signals::ILL_ILLOPC),
    ("TRAP_BRKPT", signals::TRAP_BRKPT),
];

fn write_errors(text: &mut String) -> Result<(), AllocError> {
    for &error in ERRORS.iter() {
        let linux = errno_out(error);
        writeln!(
            text,
            "error {:?}: FreeBSD {}, Linux {:?} {}, answer 0x{:x}",
            error,
            error.number(),
            linux,
            linux.number(),
            answer(linux)
        )?;
    }
    Ok(())
}

fn write_calls(text: &mut String) -> Result<(), AllocError> {
    for number in 0..500 {
        if let Some(call) = Call::new(number) {
            writeln!(text, "call {}: {}", call.number(), call.name())?;
        }
    }
    Ok(())
}

fn write_signals(text: &mut String) -> Result<(), AllocError> {
    for number in 0..200 {
        if let Some(signal) = LinuxSig::new(number) {
            let there = signal_in(signal);
            writeln!(
                text,
                "signal {}: bit 0x{:x}, FreeBSD {}, place {}, and back {}",
                signal.number(),
                signal.bit(),
                there.number(),
                there.place(),
                signal_out(there).number()
            )?;
        }
    }
    Ok(())
}

// The signals that are not as most are.
fn write_kinds(text: &mut String) -> Result<(), AllocError> {
    for number in 1..=64 {
        if let Some(signal) = LinuxSig::new(number) {
            let there = signal_in(signal);
            if signal.is_real_time() || there.is_real_time() {
                writeln!(
                    text,
                    "signal {number} is kept each time: {} {}",
                    signal.is_real_time(),
                    there.is_real_time()
                )?;
            }
            if signal.is_dropped_by_default() || there.is_dropped_by_default() {
                writeln!(
                    text,
                    "signal {number} is dropped by default: {} {}",
                    signal.is_dropped_by_default(),
                    there.is_dropped_by_default()
                )?;
            }
        }
    }
    Ok(())
}

// A number that is a choice of an argument.
fn write_choice(
    text: &mut String,
    name: &str,
    number: u64,
    back: Option<u64>,
) -> Result<(), AllocError> {
    match back {
        Some(back) => writeln!(text, "choice of {name}: {number}, and back {back}"),
        None => Ok(()),
    }
}

// The number again of the choice that a number is, of each argument.
fn descriptor_operation(number: u64) -> Option<u64> {
    Some(DescriptorOperation::new(number)?.number())
}

fn epoll_operation(number: u64) -> Option<u64> {
    Some(EpollOperation::new(number)?.number())
}

fn futex_operation(number: u64) -> Option<u64> {
    Some(FutexOperation::new(number)?.number())
}

fn word_operation(number: u64) -> Option<u64> {
    Some(WordOperation::new(number)?.number())
}

fn comparison(number: u64) -> Option<u64> {
    Some(Comparison::new(number)?.number())
}

fn advice(number: u64) -> Option<u64> {
    Some(Advice::new(number)?.number())
}

fn clock_id(number: u64) -> Option<u64> {
    Some(ClockId::new(number)?.number())
}

fn mask_change(number: u64) -> Option<u64> {
    Some(MaskChange::new(number)?.number())
}

// Each argument that a number may be a choice of, and the choice's number again.
fn choices_of(number: u64) -> [(&'static str, Option<u64>); 8] {
    [
        ("fcntl", descriptor_operation(number)),
        ("epoll_ctl", epoll_operation(number)),
        ("futex", futex_operation(number)),
        ("word operation", word_operation(number)),
        ("comparison", comparison(number)),
        ("madvise", advice(number)),
        ("clock", clock_id(number)),
        ("rt_sigprocmask", mask_change(number)),
    ]
}

// The choices of a number in an argument.
fn write_choices(text: &mut String) -> Result<(), AllocError> {
    for number in 0..2000 {
        for (name, back) in &choices_of(number) {
            write_choice(text, name, number, *back)?;
        }
    }
    Ok(())
}

fn write_names(text: &mut String) -> Result<(), AllocError> {
    for (name, number) in ARGUMENTS.iter() {
        writeln!(text, "{name} 0x{number:x}")?;
    }
    for (name, number) in WORDS.iter() {
        writeln!(text, "{name} 0x{number:x}")?;
    }
    for (name, number) in CODES.iter() {
        writeln!(text, "{name} {number}")?;
    }
    Ok(())
}

// What each bit of flags becomes.
fn write_flags(text: &mut String) -> Result<(), AllocError> {
    for place in 0..64u32 {
        let bit = 1u64 << place;
        let (open_in, open_out, map_in) = (
            open_flags_in(bit),
            open_flags_out(bit),
            map_flags_in(bit),
        );
        if open_in != 0 || open_out != 0 || map_in != 0 {
            writeln!(
                text,
                "flag 0x{bit:x}: opened 0x{open_in:x}, told 0x{open_out:x}, mapped 0x{map_in:x}"
            )?;
        }
    }
    for flags in [0, 0x32, 0x80800, 0x100004, u64::MAX] {
        let (open_in, open_out, map_in) = (
            open_flags_in(flags),
            open_flags_out(flags),
            map_flags_in(flags),
        );
        writeln!(
            text,
            "flags 0x{flags:x}: opened 0x{open_in:x}, told 0x{open_out:x}, mapped 0x{map_in:x}"
        )?;
    }
    Ok(())
}

// Sets of signals, there and back.
fn write_sets(text: &mut String) -> Result<(), AllocError> {
    for set in [0, 1, 0x40100, 0x7fff_ffff, 1 << 63, u64::MAX] {
        let there = set_in(set);
        let back = set_out(there);
        writeln!(
            text,
            "set 0x{set:x}: FreeBSD 0x{there:x}, and back 0x{back:x}"
        )?;
    }
    writeln!(text, "every bit of FreeBSD: 0x{:x}", set_out(u128::MAX))?;
    writeln!(
        text,
        "bits of no signal: 0x{:x}",
        set_out(u128::MAX ^ set_in(u64::MAX))
    )?;
    writeln!(
        text,
        "never blocked: 0x{:x}, FreeBSD 0x{:x}",
        signals::UNBLOCKABLE,
        bsd_abi::signals::UNBLOCKABLE
    )
}

// The numbers that FreeBSD has no signal for.
fn write_others(text: &mut String) -> Result<(), AllocError> {
    text.push_str("no signal of FreeBSD:")?;
    for number in 0..130 {
        if BsdSig::new(number).is_none() {
            write!(text, " {number}")?;
        }
    }
    text.push_str("\n")
}

/// Every table.
pub fn write_numbers(text: &mut String) -> Result<(), AllocError> {
    write_errors(text)?;
    write_calls(text)?;
    write_signals(text)?;
    write_kinds(text)?;
    write_others(text)?;
    write_choices(text)?;
    write_names(text)?;
    write_flags(text)?;
    write_sets(text)
}
