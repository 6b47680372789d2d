//! Clock, Expire and Interrupt: how waits get a deadline, and how they end by it or by a signal (signal(7)).
ghost use Rattle.std.specs.Bool.{OnFalse};
ghost use Rattle.std.specs.Prelude.{◌≡◌, Some, None, Err, OnOk, OnErr};
ghost use Rattle.linux_abi.specs.Call.{call_of};
ghost use Rattle.std.specs.Option.{option_map};
ghost use Rattle.lx_machine.specs.Waits.{can_move, expire, expire_at_file, gives_up, file_given_up, interrupt, kept_in};
ghost use Rattle.lx_machine.specs.Step as machine;
ghost use Rattle.lx_machine.specs.Table.{rules_of};
ghost use Rattle.lx_machine.specs.declared.refusal.LxRefusal.TheVariants.{NoStep};
ghost use Rattle.lx_call_steps.specs.Outcomes.{CallGoes, GivesUp, IsDecided};
ghost use Rattle.lx_call_steps.specs.Makes.{clock_makes, interrupt_makes};

use linux_abi::{Call, LinuxErrno, LinuxSig};
use lx_epolls::epoll_wait::{epoll_can_move, epoll_expire, epoll_interrupt, set_timeout};
use lx_futexes::futex_pi::{lock_expired, lock_given_up};
use lx_futexes::futex_waitv::{waitv_clocked, waitv_expired, waitv_given_up};
use lx_futexes::futexes::{futex_clocked, wait_expired, wait_given_up};
use lx_machine::calls::{LxCall, Stage};
use lx_machine::files::Files;
use lx_machine::label::PendingList;
use lx_machine::refusal::LxRefusal;
use lx_machine::signals::SigInfo;
use lx_machine::state::{LinuxState, Slot};
use lx_machine::threads::LxThread;
use lx_signals::taking::{found, remove_from};
use lx_times::clock_gettime::clock_gettime_clocked;
use lx_times::nanosleep::{nanosleep_clocked, nanosleep_expired, nanosleep_interrupted};
use lx_times::time::has_passed;
use lx_transfers::moves;
use lx_transfers::moves::can_move as transfer_can_move;
use std::alloc::Global;

/// Clock of a call of this kind.
fn clock_as(alloc: Global, clock: u64, call: &mut LxCall) -> Result<(), LxRefusal>
    ensures ok { OnOk result ((rules_of call.old).clocked clock call.old ≡ Some call.new) }
    ensures none { result ≡ Err NoStep → (rules_of call.old).clocked clock call.old ≡ None }
    ensures err { OnErr result (call.new ≡ call.old) }
    ensures decided { OnFalse (clock_makes (call_of call.old.number)) (IsDecided result) }
{
    match Call::new(call.number) {
        Some(Call::Futex) => futex_clocked(clock, call),
        Some(Call::FutexWaitv) => waitv_clocked(call),
        Some(Call::Nanosleep) => nanosleep_clocked(clock, call),
        Some(Call::ClockGettime) => clock_gettime_clocked(alloc, clock, call)?,
        Some(Call::EpollPwait) => set_timeout(call, clock),
        _ => return Err(LxRefusal::NoStep),
    }
    Ok(())
}

/// Clock: the clock is read, or a deadline is set.
pub fn clock(
    state: &LinuxState,
    alloc: Global,
    slot: Slot,
    thread: &LxThread,
    call: &mut LxCall,
    stage: Stage,
) -> Result<(), LxRefusal>
    ensures goes { CallGoes (machine.clock stage state.now slot thread.now call.old) state.now state.now slot thread.now thread.now call.old call.new result }
    ensures decided { OnFalse (clock_makes (call_of call.old.number)) (IsDecided result) }
{
    match stage {
        Stage::Clock => clock_as(alloc, state.clock, call),
        _ => Err(LxRefusal::NoStep),
    }
}

/// Whether Move has a step.
fn can_move(files: &Files, call: &LxCall) -> bool
    ensures { result ≡ can_move files.now call.now }
{
    match Call::new(call.number) {
        Some(Call::EpollPwait) => epoll_can_move(files, call),
        _ => transfer_can_move(files, call),
    }
}

/// Expire of a wait at an epoll.
fn expire_at_file(
    state: &mut LinuxState,
    slot: Slot,
    thread: &LxThread,
    call: &mut LxCall,
) -> Result<(), LxRefusal>
    ensures goes { CallGoes (expire_at_file state.old slot thread.now call.old) state.old state.new slot thread.now thread.now call.old call.new result }
    ensures decided { IsDecided result }
{
    if !has_passed(state.clock, call.deadline) || can_move(&state.files, call) {
        return Err(LxRefusal::NoStep);
    }
    epoll_expire(&mut state.files, call)
}

/// Expire: the deadline of a wait has come.
pub fn expire(
    state: &mut LinuxState,
    slot: Slot,
    thread: &LxThread,
    call: &mut LxCall,
    stage: Stage,
) -> Result<(), LxRefusal>
    ensures goes { CallGoes (expire stage state.old slot thread.now call.old) state.old state.new slot thread.now thread.now call.old call.new result }
    ensures decided { IsDecided result }
{
    match stage {
        Stage::Wait => wait_expired(state.clock, thread.tid, &mut state.queue, call),
        Stage::WaitMany => waitv_expired(state.clock, thread.tid, &mut state.queue, call),
        Stage::PiWait => lock_expired(state.clock, thread.tid, &mut state.pi_queue, call),
        Stage::Rest => nanosleep_expired(state.clock, call),
        Stage::Move => expire_at_file(state, slot, thread, call),
        _ => Err(LxRefusal::NoStep),
    }
}

/// A wait for a deadline or a signal ends by a signal.
fn give_up_rest(state: &LinuxState, alloc: Global, call: &mut LxCall) -> Result<(), LxRefusal>
    ensures goes { GivesUp (Some ((rules_of call.old).rest_given_up state.now call.old)) state.now state.now call.old call.new result }
    ensures decided { OnFalse (interrupt_makes (call_of call.old.number)) (IsDecided result) }
{
    match Call::new(call.number) {
        Some(Call::Nanosleep) => nanosleep_interrupted(alloc, state.clock, call)?,
        _ => call.refuse(LinuxErrno::EINTR),
    }
    Ok(())
}

/// A wait at a file ends by a signal.
fn give_up_move(state: &mut LinuxState, call: &mut LxCall) -> Result<(), LxRefusal>
    ensures goes { GivesUp (file_given_up state.old call.old) state.old state.new call.old call.new result }
    ensures decided { IsDecided result }
{
    if can_move(&state.files, call) {
        return Err(LxRefusal::NoStep);
    }
    match Call::new(call.number) {
        Some(Call::EpollPwait) => epoll_interrupt(&mut state.files, call),
        _ => moves::interrupt(&mut state.files, call),
    }
}

/// A wait ends by a signal.
fn give_up(
    state: &mut LinuxState,
    alloc: Global,
    thread: &LxThread,
    call: &mut LxCall,
    stage: Stage,
) -> Result<(), LxRefusal>
    ensures goes { GivesUp (gives_up stage state.old thread.now call.old) state.old state.new call.old call.new result }
    ensures decided { OnFalse (interrupt_makes (call_of call.old.number)) (IsDecided result) }
{
    match stage {
        Stage::Wait => wait_given_up(LinuxErrno::EINTR, thread.tid, &mut state.queue, call),
        Stage::WaitMany => waitv_given_up(LinuxErrno::EINTR, thread.tid, &mut state.queue, call),
        Stage::PiWait => lock_given_up(LinuxErrno::EINTR, thread.tid, &mut state.pi_queue, call),
        Stage::Rest => give_up_rest(state, alloc, call),
        Stage::Move => give_up_move(state, call),
        _ => Err(LxRefusal::NoStep),
    }
}

/// Interrupt by this signal, which is pending.
fn interrupt_by(
    state: &mut LinuxState,
    alloc: Global,
    slot: Slot,
    thread: &mut LxThread,
    call: &mut LxCall,
    stage: Stage,
    list: PendingList,
    info: SigInfo,
) -> Result<(), LxRefusal>
    ensures goes { CallGoes (option_map (kept_in slot thread.old list info) (gives_up stage state.old thread.old call.old)) state.old state.new slot thread.old thread.new call.old call.new result }
    ensures decided { OnFalse (interrupt_makes (call_of call.old.number)) (IsDecided result) }
{
    give_up(state, alloc, thread, call, stage)?;
    call.kept = Some(info);
    remove_from(thread, &mut state.pending, list, info);
    Ok(())
}

/// Interrupt: a signal that the thread may take ends its wait, and is kept.
pub fn interrupt(
    state: &mut LinuxState,
    alloc: Global,
    slot: Slot,
    thread: &mut LxThread,
    call: &mut LxCall,
    stage: Stage,
    list: PendingList,
    signal: LinuxSig,
) -> Result<(), LxRefusal>
    ensures goes { CallGoes (interrupt list signal stage state.old slot thread.old call.old) state.old state.new slot thread.old thread.new call.old call.new result }
    ensures decided { OnFalse (interrupt_makes (call_of call.old.number)) (IsDecided result) }
{
    match found(thread.mask, &thread.pending, &state.pending, list, signal) {
        Some(info) => interrupt_by(state, alloc, slot, thread, call, stage, list, info),
        None => Err(LxRefusal::NoStep),
    }
}
