//! Which step a thread takes.
ghost use Rattle.std.specs.Prelude.{◌<◌};
ghost use Rattle.lx_scheduler.specs.Play.{Reaches};

use crate::choices::{any_picks, signal_with};
use crate::machine::Machine;
use crate::schedule::Schedule;
use linux_abi::{Call, LinuxSig};
use lx_epolls::epoll_wait::first_picks;
use lx_machine::buffer::NoMemory;
use lx_machine::calls::{LxCall, Stage};
use lx_machine::files::Files;
use lx_machine::label::{Label, PendingList, Picks};
use lx_machine::threads::LxThread;
use std::alloc::Global;

/// What a thread does next.
#[derive(Clone, Copy)]
enum Next {
    /// It ends the guest, since a frame could not be stored.
    Kill,
    /// It stores the frame of a signal that it has taken.
    Frame,
    /// It takes the signal of its trap.
    Trap(LinuxSig),
    /// A step of its call.
    Call(Stage),
    /// It takes a signal.
    Take(PendingList, LinuxSig),
    /// An instruction.
    Instr,
}

/// What a thread in no call does next.
fn next_outside_call(machine: &Machine, schedule: &mut Schedule, thread: &LxThread) -> Next {
    if thread.is_doomed {
        return Next::Kill;
    }
    if thread.taken.is_some() {
        return Next::Frame;
    }
    if let Some(trap) = thread.trap {
        return Next::Trap(trap.signal);
    }
    match signal_with(machine, schedule, thread, thread.mask) {
        Some((list, signal)) => Next::Take(list, signal),
        None => Next::Instr,
    }
}

/// What the thread in a slot does next, if there is one.
fn next_of(machine: &Machine, schedule: &mut Schedule, slot: u8) -> Option<Next>
    requires { slot < 128 }
{
    if let Some(stage) = machine.stage(slot) {
        return Some(Next::Call(stage));
    }
    Some(next_outside_call(machine, schedule, machine.thread(slot)?))
}

/// The signal that ends the wait of the thread in a slot.
fn interrupting(machine: &Machine, schedule: &mut Schedule, slot: u8) -> Option<Label>
    requires { slot < 128 }
{
    let thread = machine.thread(slot)?;
    let (list, signal) = signal_with(machine, schedule, thread, thread.mask)?;
    Some(Label::Interrupt(slot, list, signal))
}

/// The return of the thread in a slot that takes a signal, by the mask that the call gives back.
fn return_taking(machine: &Machine, schedule: &mut Schedule, slot: u8) -> Option<Label>
    requires { slot < 128 }
{
    let thread = machine.thread(slot)?;
    let mask = thread.saved_mask.unwrap_or(thread.mask);
    let named = signal_with(machine, schedule, thread, mask)?;
    Some(Label::Return(slot, Some(named)))
}

/// What a call reports as it moves: the first events of an epoll, and nothing of any other.
fn picks_of(alloc: Global, files: &Files, call: &LxCall) -> Result<Picks, NoMemory> {
    match Call::new(call.number) {
        Some(Call::EpollPwait) => first_picks(alloc, files, call),
        _ => Ok(Picks::none(alloc)),
    }
}

/// The move of the thread in a slot, if it is in a call.
pub fn move_of(machine: &Machine, alloc: Global, slot: u8) -> Result<Option<Label>, NoMemory>
    requires { slot < 128 }
{
    let Some(thread) = machine.thread(slot) else {
        return Ok(None);
    };
    let Some(call) = &thread.call else {
        return Ok(None);
    };
    let picks = picks_of(alloc, &machine.state().files, call)?;
    Ok(Some(Label::Move(slot, picks)))
}

/// The move of an epoll_pwait of the thread in a slot that the schedule chooses.
fn chosen_move(
    machine: &Machine,
    alloc: Global,
    schedule: &mut Schedule,
    slot: u8,
) -> Result<Option<Label>, NoMemory>
    requires { slot < 128 }
{
    let Some(thread) = machine.thread(slot) else {
        return Ok(None);
    };
    let Some(call) = &thread.call else {
        return Ok(None);
    };
    match any_picks(alloc, schedule, &machine.state().files, call)? {
        Some(picks) => Ok(Some(Label::Move(slot, picks))),
        None => Ok(None),
    }
}

/// Takes a step with this label, if there is a label and a step.
#[tactic(auto, using(crate::proofs::Runs::here))]
fn take_if_any(machine: &mut Machine, alloc: Global, label: Option<Label>) -> Result<bool, NoMemory>
    ensures { Reaches machine.old.state.state machine.new.state.state }
{
    match label {
        Some(label) => machine.take(alloc, &label),
        None => Ok(false),
    }
}

/// A call whose effect wants more memory than there is goes on as one for which memory runs short.
#[tactic(auto, using(crate::proofs::Runs::onward))]
fn take_effect(machine: &mut Machine, alloc: Global, slot: u8) -> Result<bool, NoMemory>
    ensures { Reaches machine.old.state.state machine.new.state.state }
{
    match machine.take(alloc, &Label::Effect(slot, false)) {
        Ok(taken) => Ok(taken),
        Err(NoMemory) => machine.take(alloc, &Label::Effect(slot, true)),
    }
}

/// A wait ends by its deadline, or else by a signal.
#[tactic(auto, using(crate::proofs::Runs::onward))]
fn end_wait(
    machine: &mut Machine,
    alloc: Global,
    schedule: &mut Schedule,
    slot: u8,
) -> Result<bool, NoMemory>
    requires { slot < 128 }
    ensures { Reaches machine.old.state.state machine.new.state.state }
{
    if machine.take(alloc, &Label::Expire(slot))? {
        return Ok(true);
    }
    let label = interrupting(machine, schedule, slot);
    take_if_any(machine, alloc, label)
}

/// A wait goes on by this label, or else ends.
#[tactic(auto, using(crate::proofs::Runs::onward))]
fn go_on(
    machine: &mut Machine,
    alloc: Global,
    schedule: &mut Schedule,
    slot: u8,
    label: Option<Label>,
) -> Result<bool, NoMemory>
    requires { slot < 128 }
    ensures { Reaches machine.old.state.state machine.new.state.state }
{
    if take_if_any(machine, alloc, label)? {
        return Ok(true);
    }
    end_wait(machine, alloc, schedule, slot)
}

/// A call moves bytes, or reports events, or else its wait ends.
#[tactic(auto, using(crate::proofs::Runs::here, crate::proofs::Runs::onward))]
fn take_move(
    machine: &mut Machine,
    alloc: Global,
    schedule: &mut Schedule,
    slot: u8,
) -> Result<bool, NoMemory>
    requires { slot < 128 }
    ensures { Reaches machine.old.state.state machine.new.state.state }
{
    let chosen = chosen_move(machine, alloc, schedule, slot)?;
    if take_if_any(machine, alloc, chosen)? {
        return Ok(true);
    }
    let label = move_of(machine, alloc, slot)?;
    go_on(machine, alloc, schedule, slot, label)
}

/// A call returns: without a signal where none may be taken, or where the one that it keeps is delivered.
#[tactic(auto, using(crate::proofs::Runs::onward))]
fn take_return(
    machine: &mut Machine,
    alloc: Global,
    schedule: &mut Schedule,
    slot: u8,
) -> Result<bool, NoMemory>
    requires { slot < 128 }
    ensures { Reaches machine.old.state.state machine.new.state.state }
{
    if machine.take(alloc, &Label::Return(slot, None))? {
        return Ok(true);
    }
    let label = return_taking(machine, schedule, slot);
    take_if_any(machine, alloc, label)
}

/// A step of a thread in a call.
#[tactic(auto, using(crate::proofs::Runs::here, crate::proofs::Runs::onward))]
fn step_in_call(
    machine: &mut Machine,
    alloc: Global,
    schedule: &mut Schedule,
    slot: u8,
    stage: Stage,
) -> Result<bool, NoMemory>
    requires { slot < 128 }
    ensures { Reaches machine.old.state.state machine.new.state.state }
{
    match stage {
        Stage::Fetch(_) => machine.take(alloc, &Label::Fetch(slot)),
        Stage::Hold => machine.take(alloc, &Label::Hold(slot)),
        Stage::Drop => machine.take(alloc, &Label::Drop(slot)),
        Stage::Effect => take_effect(machine, alloc, slot),
        Stage::Move => take_move(machine, alloc, schedule, slot),
        Stage::Clock => machine.take(alloc, &Label::Clock(slot)),
        Stage::Queue(_) => machine.take(alloc, &Label::Queue(slot)),
        Stage::Requeue(_) => machine.take(alloc, &Label::Requeue(slot)),
        Stage::WakeOp(_) => machine.take(alloc, &Label::WakeOp(slot)),
        Stage::Release(_) => machine.take(alloc, &Label::Release(slot)),
        Stage::PiLock(_) => machine.take(alloc, &Label::PiLock(slot)),
        Stage::PiUnlock(_) => machine.take(alloc, &Label::PiUnlock(slot)),
        Stage::Wait | Stage::WaitMany | Stage::PiWait => {
            go_on(machine, alloc, schedule, slot, Some(Label::Resume(slot)))
        }
        Stage::Rest => end_wait(machine, alloc, schedule, slot),
        Stage::Start => machine.take(alloc, &Label::Start(slot)),
        Stage::Mark(_) => machine.take(alloc, &Label::Mark(slot)),
        Stage::Store(_) => machine.take(alloc, &Label::Store(slot)),
        Stage::Leave => machine.take(alloc, &Label::Leave(slot)),
        Stage::Gone => machine.take(alloc, &Label::Gone(slot)),
        Stage::Kill => machine.take(alloc, &Label::Kill(slot)),
        Stage::Return => take_return(machine, alloc, schedule, slot),
    }
}

/// A step of the thread in this slot, which the schedule chooses where the machine leaves it open. False: it has none, or there
/// is no thread.
#[tactic(auto, using(crate::proofs::Runs::here))]
pub fn step_of(
    machine: &mut Machine,
    alloc: Global,
    schedule: &mut Schedule,
    slot: u8,
) -> Result<bool, NoMemory>
    requires { slot < 128 }
    ensures { Reaches machine.old.state.state machine.new.state.state }
{
    match next_of(machine, schedule, slot) {
        Some(Next::Kill) => machine.take(alloc, &Label::Kill(slot)),
        Some(Next::Frame) => machine.take(alloc, &Label::Frame(slot)),
        Some(Next::Trap(signal)) => {
            machine.take(alloc, &Label::Take(slot, PendingList::Own, signal))
        }
        Some(Next::Call(stage)) => step_in_call(machine, alloc, schedule, slot, stage),
        Some(Next::Take(list, signal)) => machine.take(alloc, &Label::Take(slot, list, signal)),
        Some(Next::Instr) => machine.take(alloc, &Label::Instr(slot)),
        None => Ok(false),
    }
}
