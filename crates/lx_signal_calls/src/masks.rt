//! Blocked signals (sigprocmask(2), sigpending(2), sigsuspend(2)).
ghost use Rattle.std.specs.Prelude.{◌≡◌, ◌≤◌, length, take, OnOk, OnErr, IfOk};
ghost use Rattle.places.specs.Places.{bytes_of};
ghost use Rattle.lx_machine.specs.Calls.{first_refusal};
ghost use Rattle.lx_machine.specs.Step.{masked};
ghost use Rattle.lx_machine.specs.SignalCalls.{answered_storing, blockable, fetched_mask};
ghost use Rattle.lx_machine.specs.Sigpending.{blocked_pending, sigpending_call, sigpending_refusals};
ghost use Rattle.lx_machine.specs.Sigprocmask.{changed_mask, sigprocmask_call, sigprocmask_mask, sigprocmask_pieces, sigprocmask_refusals, sigprocmask_stage};
ghost use Rattle.lx_machine.specs.Sigsuspend.{sigsuspend_pieces, sigsuspend_refusals, sigsuspend_stage};

use crate::numbers::{
    answer_storing, append_number, eight_bytes, fetch_then, number, optional_piece,
};
use linux_abi::LinuxErrno;
use linux_abi::signals::{MaskChange, SIGSET_SIZE, UNBLOCKABLE};
use lx_machine::buffer::{Bytes, NoMemory};
use lx_machine::calls::{LxCall, Pieces, Stage, refused_if};
use lx_machine::signals::Pending;
use lx_machine::threads::LxThread;
use std::alloc::Global;

/// The signals that can be blocked.
const BLOCKABLE: u64 = !UNBLOCKABLE;

/// The mask without SIGKILL and SIGSTOP, which are never blocked.
pub fn blockable(mask: u64) -> u64
    ensures { result ≡ blockable mask }
{
    mask & BLOCKABLE
}

/// A call that uses a mask for its time: the thread gets its own back when the call returns.
pub fn mask_for_call(thread: &mut LxThread, mask: Option<u64>)
    ensures { thread.new ≡ masked mask thread.old }
{
    if let Some(mask) = mask {
        thread.saved_mask = Some(thread.mask);
        thread.mask = mask;
    }
}

/// rt_sigprocmask(2).
pub fn sigprocmask_refusal(call: &LxCall) -> Option<LinuxErrno>
    ensures { result ≡ first_refusal (sigprocmask_refusals call.now) }
{
    let [_, set, _, size, ..] = call.arguments;
    refused_if(
        size != SIGSET_SIZE
            || (set != 0 && MaskChange::new(u64::from(call.low_argument(0))).is_none()),
        LinuxErrno::EINVAL,
    )
}

/// rt_sigprocmask(2) fetches the set, where one is given, which takes memory.
pub fn sigprocmask_pieces(alloc: Global, call: &LxCall) -> Result<Pieces, NoMemory>
    ensures taken { OnErr result (1 ≤ length (sigprocmask_pieces call.now)) }
    ensures value { IfOk result (λ pieces. pieces ≡ sigprocmask_pieces call.now) }
{
    optional_piece(alloc, call.arguments[1], SIGSET_SIZE)
}

/// rt_sigprocmask(2) fetches its set, and then has its effect.
pub fn sigprocmask_stage(call: &LxCall) -> Stage
    ensures { result ≡ sigprocmask_stage call.now }
{
    fetch_then(Stage::Effect, &call.pieces)
}

/// A mask changed by a set.
fn changed_mask(change: Option<MaskChange>, mask: u64, set: u64) -> u64
    ensures { result ≡ changed_mask change mask set }
{
    match change {
        Some(MaskChange::Block) => mask | set,
        Some(MaskChange::Unblock) => mask & !set,
        Some(MaskChange::Set) => set,
        None => mask,
    }
}

/// The mask after rt_sigprocmask(2).
fn sigprocmask_mask(mask: u64, call: &LxCall) -> u64
    ensures { result ≡ sigprocmask_mask mask call.now }
{
    if call.arguments[1] == 0 {
        return mask;
    }
    let change = MaskChange::new(u64::from(call.low_argument(0)));
    blockable(changed_mask(change, mask, number(call.bytes.as_slice(), 0)))
}

/// The bytes of a set.
fn set_bytes(alloc: Global, set: u64) -> Result<Bytes, NoMemory>
    ensures { IfOk result (λ bytes. bytes ≡ bytes_of set 8) }
{
    let mut bytes = Bytes::empty(alloc);
    append_number(&mut bytes, set)?;
    Ok(bytes)
}

/// The call answers 0, and stores the mask at an address that is optional, which takes memory. Where it is wanting, nothing
/// changes.
fn answer_mask(alloc: Global, call: &mut LxCall, at: u64, mask: u64) -> Result<(), NoMemory>
    ensures ok { OnOk result (call.new ≡ answered_storing call.old at (bytes_of mask 8)) }
    ensures err { OnErr result (call.new ≡ call.old) }
    ensures stores { OnErr result (1 ≤ length (answered_storing call.old at (bytes_of mask 8)).pieces) }
{
    if at == 0 {
        call.answer(0);
        return Ok(());
    }
    let bytes = set_bytes(alloc, mask)?;
    answer_storing(alloc, call, at, bytes)
}

/// The effect of rt_sigprocmask(2) on the thread's mask: it changes, and the mask before is stored. `NoMemory`: memory is wanting
/// for what is stored; then nothing changes.
pub fn sigprocmask(alloc: Global, mask: &mut u64, call: &mut LxCall) -> Result<(), NoMemory>
    ensures mask { OnOk result (mask.new ≡ sigprocmask_mask mask.old call.old) }
    ensures call { OnOk result (call.new ≡ sigprocmask_call mask.old call.old) }
    ensures mask_err { OnErr result (mask.new ≡ mask.old) }
    ensures call_err { OnErr result (call.new ≡ call.old) }
    ensures stores { OnErr result (1 ≤ length (sigprocmask_call mask.old call.old).pieces) }
{
    let after = sigprocmask_mask(*mask, call);
    answer_mask(alloc, call, call.arguments[2], *mask)?;
    *mask = after;
    Ok(())
}

/// rt_sigpending(2).
pub fn sigpending_refusal(call: &LxCall) -> Option<LinuxErrno>
    ensures { result ≡ first_refusal (sigpending_refusals call.now) }
{
    refused_if(call.arguments[1] > SIGSET_SIZE, LinuxErrno::EINVAL)
}

/// The signals that are pending for the thread or the process, and blocked.
fn blocked_pending(mask: u64, own: &Pending, shared: &Pending) -> u64
    ensures { result ≡ blocked_pending mask own.now shared.now }
{
    mask & (own.bits() | shared.bits())
}

/// The first bytes of a set.
fn first_set_bytes(alloc: Global, set: u64, size: u64) -> Result<Bytes, NoMemory>
    ensures { IfOk result (λ bytes. bytes ≡ take size (bytes_of set 8)) }
{
    let mut bytes = Bytes::empty(alloc);
    let whole = eight_bytes(set);
    if size >= SIGSET_SIZE {
        bytes.append(&whole)?;
    } else {
        bytes.append(&whole[..size as usize])?;
    }
    Ok(bytes)
}

/// The effect of rt_sigpending(2): the first bytes of the set are stored. `NoMemory`: memory is wanting for these bytes and their
/// piece, which each such call takes; then nothing changes.
pub fn sigpending(
    alloc: Global,
    mask: u64,
    own: &Pending,
    shared: &Pending,
    call: &mut LxCall,
) -> Result<(), NoMemory>
    ensures ok { OnOk result (call.new ≡ sigpending_call mask own.now shared.now call.old) }
    ensures err { OnErr result (call.new ≡ call.old) }
{
    let [at, size, ..] = call.arguments;
    let bytes = first_set_bytes(alloc, blocked_pending(mask, own, shared), size)?;
    let pieces = Pieces::one(alloc, at, size)?;
    call.answer_with(0, pieces, bytes);
    Ok(())
}

/// rt_sigsuspend(2).
pub fn sigsuspend_refusal(call: &LxCall) -> Option<LinuxErrno>
    ensures { result ≡ first_refusal (sigsuspend_refusals call.now) }
{
    refused_if(call.arguments[1] != SIGSET_SIZE, LinuxErrno::EINVAL)
}

/// rt_sigsuspend(2) fetches its mask. The piece takes memory.
pub fn sigsuspend_pieces(alloc: Global, call: &LxCall) -> Result<Pieces, NoMemory>
    ensures { IfOk result (λ pieces. pieces ≡ sigsuspend_pieces call.now) }
{
    Pieces::one(alloc, call.arguments[0], SIGSET_SIZE)
}

/// rt_sigsuspend(2) fetches its mask, and then waits for a signal.
pub fn sigsuspend_stage(call: &LxCall) -> Stage
    ensures { result ≡ sigsuspend_stage call.now }
{
    fetch_then(Stage::Rest, &call.pieces)
}

/// The mask that a call has fetched.
pub fn fetched_mask(call: &LxCall) -> u64
    ensures { result ≡ fetched_mask call.now }
{
    number(call.bytes.as_slice(), 0)
}
