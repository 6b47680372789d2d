//! What each call does, one thing after the other. The manual page of each call says so.
ghost use Rattle.std.specs.Prelude.{◌≡◌, OnErr, OnOk};
ghost use Rattle.lx_machine.specs.Calls.{answered_stage, low_argument, storing};
ghost use Rattle.lx_machine.specs.Shape.{fetched, finishing_stage, mask_of, not_fetched, not_written, restarts, stage_of, written};
ghost use Rattle.lx_machine.specs.Exit.{exit_stage};
ghost use Rattle.lx_machine.specs.Read.{read_stage};
ghost use Rattle.lx_machine.specs.Readv.{readv_stage, vectors, with_vectors};
ghost use Rattle.lx_machine.specs.Table.{as_asked, rules};
ghost use Rattle.lx_machine.specs.Transfers.{fetch_first};
ghost use Rattle.lx_machine.specs.Write.{write_stage};

use linux_abi::{Call, LinuxErrno};
use lx_clones::clones::{birth_stage, clone_not_stored, clone_stage};
use lx_clones::robust_list::{death_fetched, death_not_fetched, death_stage, death_stored};
use lx_epolls::epoll_ctl::epoll_ctl_stage;
use lx_epolls::epoll_wait::epoll_pwait_stage;
use lx_futexes::futex_waitv::{waitv_fetched, waitv_restarts, waitv_stage};
use lx_futexes::futexes::{futex_fetched, futex_restarts, futex_stage};
use lx_machine::buffer::{NoMemory, ROOM};
use lx_machine::calls::{LxCall, Piece, Restart, Stage};
use lx_signal_calls::actions::sigaction_stage;
use lx_signal_calls::masks::{blockable, fetched_mask, sigprocmask_stage, sigsuspend_stage};
use lx_signal_calls::sigreturn::sigreturn_stage;
use lx_signal_calls::stacks::sigaltstack_stage;
use lx_times::clock_gettime::clock_gettime_stage;
use lx_times::nanosleep::nanosleep_stage;
use lx_times::time::timeout_fetched;
use lx_transfers::moves::may_restart;
use lx_transfers::pieces::clip;
use lx_transfers::readv::{has_negative, read_vectors};
use std::alloc::Global;

/// The next bytes are stored, and where none are left the call returns.
fn storing(call: &LxCall) -> Stage
    ensures { result ≡ storing call.now.pieces call.now.bytes }
{
    let held = call.bytes.as_slice().len() as u64;
    match call.pieces.as_slice().first() {
        Some(p) if held > 0 => Stage::Store(Piece {
            at: p.at,
            len: p.len.min(held),
        }),
        _ => Stage::Return,
    }
}

/// What a call with a result, and no child to start, does next.
fn answered(call: &LxCall) -> Stage
    ensures { result ≡ answered_stage call.now call.now.held }
{
    match call.held {
        Some(_) => Stage::Drop,
        None => storing(call),
    }
}

/// The next piece is copied in.
fn fetch_first(call: &LxCall) -> Stage
    ensures { result ≡ fetch_first call.now.pieces }
{
    match call.pieces.as_slice().first() {
        Some(p) => Stage::Fetch(*p),
        None => Stage::Move,
    }
}

/// The pieces of a write are copied in, and then its bytes move.
fn write_stage(call: &LxCall) -> Stage
    ensures { result ≡ write_stage call.now call.now.held }
{
    match call.held {
        Some(_) => fetch_first(call),
        None => Stage::Hold,
    }
}

/// The bytes of a read move.
fn read_stage(call: &LxCall) -> Stage
    ensures { result ≡ read_stage call.now call.now.held }
{
    match call.held {
        Some(_) => Stage::Move,
        None => Stage::Hold,
    }
}

/// The vectors of a readv are copied in, and then its bytes move.
fn readv_stage(call: &LxCall) -> Stage
    ensures { result ≡ readv_stage call.now call.now.held }
{
    match call.held {
        Some(_) if call.fetched == 0 => fetch_first(call),
        Some(_) => Stage::Move,
        None => Stage::Hold,
    }
}

/// exit begins the death of its thread, and then that goes on.
fn exit_stage(call: &LxCall) -> Stage
    ensures { result ≡ exit_stage call.now.death }
{
    match call.death {
        Some(death) => death_stage(death),
        None => Stage::Leave,
    }
}

/// What a known call without a result does next.
fn working(call: &LxCall, kind: Call) -> Stage
    ensures { result ≡ (rules kind).stage call.now }
{
    match kind {
        Call::Read => read_stage(call),
        Call::Readv => readv_stage(call),
        Call::Write | Call::Writev => write_stage(call),
        Call::Exit => exit_stage(call),
        Call::ExitGroup | Call::SetTidAddress | Call::SchedYield | Call::Uname => Stage::Effect,
        Call::Eventfd2 | Call::Dup | Call::Dup3 | Call::Fcntl => Stage::Effect,
        Call::Ioctl | Call::Close | Call::Pipe2 | Call::Lseek => Stage::Effect,
        Call::Getpid | Call::Getppid | Call::Gettid => Stage::Effect,
        Call::Getuid | Call::Geteuid | Call::Getgid | Call::Getegid => Stage::Effect,
        Call::Brk | Call::Munmap | Call::Mmap | Call::Mprotect | Call::Madvise => Stage::Effect,
        Call::EpollCreate1 | Call::SetRobustList | Call::GetRobustList => Stage::Effect,
        Call::Kill | Call::Tkill | Call::Tgkill | Call::RtSigpending => Stage::Effect,
        Call::EpollCtl => epoll_ctl_stage(call),
        Call::EpollPwait => epoll_pwait_stage(call),
        Call::Clone => clone_stage(call),
        Call::Futex => futex_stage(call),
        Call::FutexWaitv => waitv_stage(call),
        Call::Nanosleep => nanosleep_stage(call),
        Call::ClockGettime => clock_gettime_stage(call),
        Call::Sigaltstack => sigaltstack_stage(call),
        Call::RtSigsuspend => sigsuspend_stage(call),
        Call::RtSigaction => sigaction_stage(call),
        Call::RtSigprocmask => sigprocmask_stage(call),
        Call::RtSigreturn => sigreturn_stage(call),
    }
}

/// What a call with a result does next: a clone's child starts before it returns.
fn finishing(call: &LxCall) -> Stage
    ensures { result ≡ finishing_stage call.now call.now.child }
{
    match call.child {
        Some(_) => birth_stage(call),
        None => answered(call),
    }
}

/// What a call does next.
pub fn stage_of(call: &LxCall) -> Stage
    ensures { result ≡ stage_of call.now }
{
    if call.result.is_some() {
        return finishing(call);
    }
    match Call::new(call.number) {
        Some(kind) => working(call, kind),
        None => Stage::Return,
    }
}

/// Reads the vectors that the call has fetched.
fn take_vectors(alloc: Global, call: &mut LxCall) -> Result<(), NoMemory>
    ensures ok { OnOk result (call.new ≡ with_vectors call.old (vectors (low_argument call.old 2) call.old.bytes)) }
    ensures err { OnErr result (call.new ≡ call.old) }
{
    let pieces = read_vectors(alloc, call.low_argument(2), call.bytes.as_slice())?;
    if has_negative(pieces.as_slice()) {
        call.refuse(LinuxErrno::EINVAL);
    } else {
        call.pieces = clip(alloc, ROOM as u64, pieces.as_slice())?;
        call.bytes.clear();
    }
    Ok(())
}

/// A call after it has fetched a piece: the first piece of a readv or a writev are its vectors (readv(2)), that of a futex
/// wait and of nanosleep a timeout, those of futex_waitv a timeout and its places, and that of a death an entry. Where memory is
/// wanting, nothing changes.
pub fn after_fetch(alloc: Global, call: &mut LxCall) -> Result<(), NoMemory>
    ensures ok { OnOk result (call.new ≡ fetched call.old) }
    ensures err { OnErr result (call.new ≡ call.old) }
{
    match Call::new(call.number) {
        Some(Call::Readv) if call.fetched == 1 => take_vectors(alloc, call),
        Some(Call::Writev) if call.fetched == 1 => take_vectors(alloc, call),
        Some(Call::Futex) => {
            futex_fetched(call);
            Ok(())
        }
        Some(Call::FutexWaitv) => {
            waitv_fetched(call);
            Ok(())
        }
        Some(Call::Nanosleep) => {
            timeout_fetched(call);
            Ok(())
        }
        Some(Call::Exit) => death_fetched(alloc, call),
        _ => Ok(()),
    }
}

/// A call whose piece can't be read: it is refused (EFAULT), but for a death, which goes on, and for rt_sigreturn, which has
/// nothing left to do. Where memory is wanting, nothing changes.
pub fn miss_fetch(alloc: Global, call: &mut LxCall) -> Result<(), NoMemory>
    ensures ok { OnOk result (call.new ≡ not_fetched call.old) }
    ensures err { OnErr result (call.new ≡ call.old) }
{
    match Call::new(call.number) {
        Some(Call::Exit) => return death_not_fetched(alloc, call),
        Some(Call::RtSigreturn) => call.pieces.clear(),
        _ => call.refuse(LinuxErrno::EFAULT),
    }
    Ok(())
}

/// The signals that a call blocks for its time, once it has fetched them (sigsuspend(2), epoll_pwait(2)).
pub fn mask_of(call: &LxCall) -> Option<u64>
    ensures { result ≡ mask_of call.now }
{
    match Call::new(call.number) {
        Some(Call::RtSigsuspend) => Some(blockable(fetched_mask(call))),
        Some(Call::EpollPwait) => Some(blockable(fetched_mask(call))),
        _ => None,
    }
}

/// A call after a piece was stored: a death goes on.
pub fn after_store(call: &mut LxCall)
    ensures { call.new ≡ written call.old }
{
    if let Some(Call::Exit) = Call::new(call.number) {
        death_stored(call);
    }
}

/// A call whose piece can't be written: it is refused (EFAULT), but for a death and for a clone, which go on.
pub fn miss_store(call: &mut LxCall)
    ensures { call.new ≡ not_written call.old }
{
    match Call::new(call.number) {
        Some(Call::Exit) => death_stored(call),
        Some(Call::Clone) => clone_not_stored(call),
        _ => call.refuse(LinuxErrno::EFAULT),
    }
}

/// A call that starts again where the signal's handler asks for it, if it may.
fn as_asked(may: bool) -> Restart
    ensures { result ≡ as_asked may }
{
    if may {
        Restart::AsAsked
    } else {
        Restart::Never
    }
}

/// Whether a call starts again after a signal has ended its wait (signal(7)).
pub fn restarts(call: &LxCall) -> Restart
    ensures { result ≡ restarts call.now }
{
    match Call::new(call.number) {
        Some(Call::Read | Call::Readv | Call::Write | Call::Writev) => as_asked(may_restart(call)),
        Some(Call::Futex) => futex_restarts(call),
        Some(Call::FutexWaitv) => waitv_restarts(call),
        _ => Restart::Never,
    }
}
