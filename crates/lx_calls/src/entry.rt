//! How SVC enters a call: the refusals that need no look at the machine, in their order. The manual page of each call says
//! which there are.
ghost use Rattle.std.specs.Prelude.{◌≡◌, ◌∷◌, [], Some, IfOk, OnErr, OnOk};
ghost use Rattle.lx_machine.specs.Calls.{first_refusal};
ghost use Rattle.lx_machine.specs.Pieces.{clipped, piece};
ghost use Rattle.lx_machine.specs.Dup.{dup3_refusals};
ghost use Rattle.lx_machine.specs.Shape.{entered, entered_by};
ghost use Rattle.lx_machine.specs.Table.{rules};
ghost use Rattle.lx_machine.specs.Transfers.{transfer_pieces};
ghost use Rattle.lx_machine.specs.Eventfd.{eventfd_refusals};
ghost use Rattle.lx_machine.specs.Madvise.{madvise_refusals};
ghost use Rattle.lx_machine.specs.Mmap.{is_fixed_mapping, mmap_refusals};
ghost use Rattle.lx_machine.specs.Mprotect.{mprotect_refusals};
ghost use Rattle.lx_machine.specs.Munmap.{munmap_refusals};
ghost use Rattle.lx_machine.specs.Pipe.{pipe_refusals};
ghost use Rattle.lx_machine.specs.Ranges.{ends_above, is_unaligned_page, pages_of, wants_execute};
ghost use Rattle.lx_machine.specs.Readv.{vector_refusals};

use linux_abi::files::IOV_MAX;
use linux_abi::memory::{Advice, MAP_ANONYMOUS, MAP_FIXED, MAP_PRIVATE, MAP_SHARED, PROT_EXEC};
use linux_abi::{Call, LinuxErrno};
use lx_clones::clones::{clone_refusal, set_robust_list_refusal};
use lx_epolls::epoll_create::epoll_create_refusal;
use lx_epolls::epoll_ctl::{epoll_ctl_pieces, epoll_ctl_refusal};
use lx_epolls::epoll_wait::{epoll_pwait_pieces, epoll_pwait_refusal};
use lx_futexes::futex_waitv::{waitv_pieces, waitv_refusal};
use lx_futexes::futexes::{futex_pieces, futex_refusal};
use lx_machine::buffer::{NoMemory, ROOM};
use lx_machine::calls::{LxCall, Piece, Pieces, has_other, refused_if};
use lx_signal_calls::actions::{sigaction_pieces, sigaction_refusal};
use lx_signal_calls::masks::{
    sigpending_refusal, sigprocmask_pieces, sigprocmask_refusal, sigsuspend_pieces,
    sigsuspend_refusal,
};
use lx_signal_calls::sigreturn::sigreturn_pieces;
use lx_signal_calls::stacks::sigaltstack_pieces;
use lx_signals::sending::{kill_refusal, tgkill_refusal, tkill_refusal};
use lx_times::clock_gettime::clock_gettime_refusal;
use lx_times::nanosleep::nanosleep_pieces;
use lx_transfers::pieces::clip;
use std::alloc::Global;

/// The first address that no program has.
const ADDRESSES: u128 = 1 << 47;

/// The bytes of a page.
pub(crate) const PAGE: u64 = 4096;

/// The bytes of a vector (readv(2)).
const VECTOR: u64 = 16;

/// EFD_SEMAPHORE, EFD_NONBLOCK and EFD_CLOEXEC (eventfd(2)).
const EVENTFD_FLAGS: u32 = 0x80801;

/// O_NONBLOCK and O_CLOEXEC (pipe(2)).
const PIPE_FLAGS: u32 = 0x80800;

/// O_CLOEXEC (dup(2)).
const DUP3_FLAGS: u32 = 0x80000;

/// PROT_READ, PROT_WRITE and PROT_EXEC (mmap(2)).
const ALL_RIGHTS: u32 = 7;

/// The address is no multiple of a page.
fn is_unaligned(at: u64) -> bool
    ensures { result ≡ is_unaligned_page at }
{
    at % PAGE != 0
}

/// A length in whole pages, rounded up.
pub fn pages_of(len: u64) -> u64
    ensures { result ≡ pages_of len }
{
    ((u128::from(len) + 4095) / 4096) as u64
}

/// The range, in whole pages, ends above the address space of a program.
fn ends_above(at: u64, len: u64) -> bool
    ensures { result ≡ ends_above at len }
{
    u128::from(at) + u128::from(pages_of(len)) * u128::from(PAGE) > ADDRESSES
}

/// MAP_FIXED.
pub fn is_fixed(flags: u32) -> bool
    ensures { result ≡ is_fixed_mapping flags }
{
    u64::from(flags) / MAP_FIXED % 2 == 1
}

/// PROT_EXEC.
fn wants_execute(rights: u32) -> bool
    ensures { result ≡ wants_execute rights }
{
    u64::from(rights) / PROT_EXEC % 2 == 1
}

/// readv(2), writev(2).
fn vector_refusal(call: &LxCall) -> Option<LinuxErrno>
    ensures { result ≡ first_refusal (vector_refusals call.now) }
{
    refused_if(
        u64::from(call.low_argument(2)) > IOV_MAX,
        LinuxErrno::EINVAL,
    )
}

/// mmap(2).
fn mmap_refusal(call: &LxCall) -> Option<LinuxErrno>
    ensures { result ≡ first_refusal (mmap_refusals call.now) }
{
    let [at, len, ..] = call.arguments;
    let rights = call.low_argument(2);
    let flags = u64::from(call.low_argument(3));
    if len == 0 || rights > ALL_RIGHTS {
        return Some(LinuxErrno::EINVAL);
    }
    if flags % 4 != MAP_SHARED && flags % 4 != MAP_PRIVATE {
        return Some(LinuxErrno::EINVAL);
    }
    if flags / MAP_ANONYMOUS % 2 == 0 {
        return Some(LinuxErrno::ENODEV);
    }
    if wants_execute(rights) {
        return Some(LinuxErrno::EACCES);
    }
    refused_if(
        is_fixed(call.low_argument(3)) && (is_unaligned(at) || ends_above(at, len)),
        LinuxErrno::EINVAL,
    )
}

/// munmap(2).
fn munmap_refusal(call: &LxCall) -> Option<LinuxErrno>
    ensures { result ≡ first_refusal (munmap_refusals call.now) }
{
    let [at, len, ..] = call.arguments;
    refused_if(
        is_unaligned(at) || len == 0 || ends_above(at, len),
        LinuxErrno::EINVAL,
    )
}

/// mprotect(2).
fn mprotect_refusal(call: &LxCall) -> Option<LinuxErrno>
    ensures { result ≡ first_refusal (mprotect_refusals call.now) }
{
    let rights = call.low_argument(2);
    if is_unaligned(call.arguments[0]) || rights > ALL_RIGHTS {
        return Some(LinuxErrno::EINVAL);
    }
    refused_if(wants_execute(rights), LinuxErrno::EACCES)
}

/// madvise(2).
fn madvise_refusal(call: &LxCall) -> Option<LinuxErrno>
    ensures { result ≡ first_refusal (madvise_refusals call.now) }
{
    if is_unaligned(call.arguments[0]) {
        return Some(LinuxErrno::EINVAL);
    }
    refused_if(
        Advice::new(u64::from(call.low_argument(2))).is_none(),
        LinuxErrno::EINVAL,
    )
}

/// dup(2).
fn dup3_refusal(call: &LxCall) -> Option<LinuxErrno>
    ensures { result ≡ first_refusal (dup3_refusals call.now) }
{
    if call.low_argument(0) == call.low_argument(1) {
        return Some(LinuxErrno::EINVAL);
    }
    refused_if(
        has_other(DUP3_FLAGS, call.low_argument(2)),
        LinuxErrno::EINVAL,
    )
}

/// eventfd(2).
fn eventfd_refusal(call: &LxCall) -> Option<LinuxErrno>
    ensures { result ≡ first_refusal (eventfd_refusals call.now) }
{
    refused_if(
        has_other(EVENTFD_FLAGS, call.low_argument(1)),
        LinuxErrno::EINVAL,
    )
}

/// pipe(2).
fn pipe_refusal(call: &LxCall) -> Option<LinuxErrno>
    ensures { result ≡ first_refusal (pipe_refusals call.now) }
{
    refused_if(
        has_other(PIPE_FLAGS, call.low_argument(1)),
        LinuxErrno::EINVAL,
    )
}

/// What refuses a call at its entry.
fn refusal(call: &LxCall, kind: Call) -> Option<LinuxErrno>
    ensures { result ≡ first_refusal ((rules kind).refusals call.now) }
{
    match kind {
        Call::Readv => vector_refusal(call),
        Call::Writev => vector_refusal(call),
        Call::Mmap => mmap_refusal(call),
        Call::Munmap => munmap_refusal(call),
        Call::Mprotect => mprotect_refusal(call),
        Call::Madvise => madvise_refusal(call),
        Call::Eventfd2 => eventfd_refusal(call),
        Call::Pipe2 => pipe_refusal(call),
        Call::Dup3 => dup3_refusal(call),
        Call::EpollCreate1 => epoll_create_refusal(call),
        Call::EpollCtl => epoll_ctl_refusal(call),
        Call::EpollPwait => epoll_pwait_refusal(call),
        Call::Clone => clone_refusal(call),
        Call::SetRobustList => set_robust_list_refusal(call),
        Call::Futex => futex_refusal(call),
        Call::FutexWaitv => waitv_refusal(call),
        Call::ClockGettime => clock_gettime_refusal(call),
        Call::Kill => kill_refusal(call),
        Call::Tkill => tkill_refusal(call),
        Call::Tgkill => tgkill_refusal(call),
        Call::RtSigsuspend => sigsuspend_refusal(call),
        Call::RtSigaction => sigaction_refusal(call),
        Call::RtSigprocmask => sigprocmask_refusal(call),
        Call::RtSigpending => sigpending_refusal(call),
        _ => None,
    }
}

/// The first bytes of a range, as one piece.
fn transfer(alloc: Global, at: u64, len: u64) -> Result<Pieces, NoMemory>
    ensures { IfOk result (λ pieces. pieces ≡ clipped 65536 (piece at len ∷ [])) }
{
    clip(alloc, ROOM as u64, &[Piece { at, len }])
}

/// What a call fetches first.
fn first_pieces(alloc: Global, sp: u64, call: &LxCall, kind: Call) -> Result<Pieces, NoMemory>
    ensures { IfOk result (λ pieces. pieces ≡ (rules kind).pieces sp call.now) }
{
    let [_, at, len, ..] = call.arguments;
    match kind {
        Call::Read | Call::Write => transfer(alloc, at, len),
        Call::Readv | Call::Writev => {
            transfer(alloc, at, u64::from(call.low_argument(2)) * VECTOR)
        }
        Call::EpollCtl => epoll_ctl_pieces(alloc, call),
        Call::EpollPwait => epoll_pwait_pieces(alloc, call),
        Call::Futex => futex_pieces(alloc, call),
        Call::FutexWaitv => waitv_pieces(alloc, call),
        Call::Nanosleep => nanosleep_pieces(alloc, call),
        Call::Sigaltstack => sigaltstack_pieces(alloc, call),
        Call::RtSigsuspend => sigsuspend_pieces(alloc, call),
        Call::RtSigaction => sigaction_pieces(alloc, call),
        Call::RtSigprocmask => sigprocmask_pieces(alloc, call),
        Call::RtSigreturn => sigreturn_pieces(alloc, sp),
        _ => Ok(Pieces::none(alloc)),
    }
}

/// Enters a known call.
fn enter_as(alloc: Global, sp: u64, call: &mut LxCall, kind: Call) -> Result<(), NoMemory>
    ensures ok { OnOk result (call.new ≡ entered_by sp call.old (rules kind)) }
    ensures err { OnErr result (call.new ≡ call.old) }
{
    match refusal(call, kind) {
        Some(e) => call.refuse(e),
        None => call.pieces = first_pieces(alloc, sp, call, kind)?,
    }
    Ok(())
}

/// Enters a call as SVC finds it, where sp is this (syscall(2)): one without a number of its own, and one whose arguments are
/// refused, has its answer at once. Where memory is wanting, nothing changes.
pub fn enter(alloc: Global, sp: u64, call: &mut LxCall) -> Result<(), NoMemory>
    ensures ok { OnOk result (call.new ≡ entered sp call.old) }
    ensures err { OnErr result (call.new ≡ call.old) }
{
    match Call::new(call.number) {
        Some(kind) => enter_as(alloc, sp, call, kind),
        None => {
            call.refuse(LinuxErrno::ENOSYS);
            Ok(())
        }
    }
}
