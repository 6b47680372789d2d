//! Hold, Drop and Move, of a transfer and of an epoll; and the effects of calls on descriptors.
ghost use Rattle.std.specs.Bool.{OnFalse};
ghost use Rattle.std.specs.Prelude.{◌≡◌, Some, true, if◌then◌else◌};
ghost use Rattle.lx_machine.specs.Signal.{can_be_sent, sent};
ghost use Rattle.lx_machine.specs.Step as machine;
ghost use Rattle.lx_call_steps.specs.Effects.{files_part};
ghost use Rattle.lx_machine.specs.Table.{rules};
ghost use Rattle.lx_machine.specs.Transfers.{has_most_holds};
ghost use Rattle.lx_machine.specs.Move.{broken_pipe};
ghost use Rattle.lx_machine.specs.Waits.{move};
ghost use Rattle.lx_call_steps.specs.Outcomes.{CallGoes, move_of_transfer};
ghost use Rattle.lx_call_steps.specs.Outcomes.{IsDecided};
ghost use Rattle.lx_call_steps.specs.Makes.{effect_makes};

use linux_abi::signals::SI_USER;
use linux_abi::{Call, LinuxSig};
use lx_epolls::epoll_create::epoll_create1;
use lx_epolls::epoll_ctl::epoll_ctl;
use lx_epolls::epoll_wait::{epoll_hold, epoll_move};
use lx_files::close::close;
use lx_files::dup::{dup, dup3};
use lx_files::eventfd::eventfd2;
use lx_files::fcntl::fcntl;
use lx_files::ioctl::ioctl;
use lx_files::lseek::lseek;
use lx_files::pipe::pipe2;
use lx_machine::calls::{LxCall, Stage};
use lx_machine::label::Picks;
use lx_machine::refusal::LxRefusal;
use lx_machine::signals::{Action, Pending, SigInfo};
use lx_machine::state::{LinuxState, Slot};
use lx_machine::threads::LxThread;
use lx_signals::sending::{can_be_sent, send, sent_by};
use lx_transfers::{moves, transfers};
use std::alloc::Global;

/// Hold: the open file of a transfer, or the epoll of a wait, is found and held, or the call is refused.
pub fn hold(
    state: &mut LinuxState,
    slot: Slot,
    thread: &LxThread,
    call: &mut LxCall,
    stage: Stage,
) -> Result<(), LxRefusal>
    ensures goes { CallGoes (machine.hold stage state.old slot thread.now call.old) state.old state.new slot thread.now thread.now call.old call.new result }
    ensures full { OnFalse (has_most_holds state.old.files call.old) (IsDecided result) }
{
    let Stage::Hold = stage else {
        return Err(LxRefusal::NoStep);
    };
    match Call::new(call.number) {
        Some(Call::EpollPwait) => epoll_hold(&mut state.files, call)?,
        _ => transfers::hold(&mut state.files, call)?,
    }
    Ok(())
}

/// Drop: the hold is given back.
pub fn give_back(
    state: &mut LinuxState,
    slot: Slot,
    thread: &LxThread,
    call: &mut LxCall,
    stage: Stage,
) -> Result<(), LxRefusal>
    ensures goes { CallGoes (machine.give_back stage state.old slot thread.now call.old) state.old state.new slot thread.now thread.now call.old call.new result }
    ensures decided { IsDecided result }
{
    match stage {
        Stage::Drop => transfers::drop_hold(&mut state.files, call),
        _ => Err(LxRefusal::NoStep),
    }
}

/// SIGPIPE as the thread's own signal.
fn broken_pipe() -> SigInfo
    ensures { result ≡ broken_pipe }
{
    sent_by(SI_USER, LinuxSig::SIGPIPE)
}

/// SIGPIPE is sent to a thread whose pipe broke.
fn break_pipe(actions: &[Action; 64], pending: &mut Pending, broken: bool)
    requires { broken ≡ true → can_be_sent actions.now broken_pipe pending.old ≡ true }
    ensures { pending.new ≡ (if broken then sent actions.now broken_pipe pending.old else pending.old) }
{
    if broken && send(actions, broken_pipe(), pending).is_err() {
        unreachable!();
    }
}

/// Move of a transfer. It is not tried where SIGPIPE would have no room.
fn move_transfer(
    state: &mut LinuxState,
    alloc: Global,
    slot: Slot,
    thread: &mut LxThread,
    call: &mut LxCall,
) -> Result<(), LxRefusal>
    ensures { CallGoes (move_of_transfer state.old slot thread.old call.old) state.old state.new slot thread.old thread.new call.old call.new result }
{
    if !can_be_sent(&state.actions, broken_pipe(), &thread.pending) {
        return Err(LxRefusal::NoMemory);
    }
    let broken = moves::move_bytes(alloc, &mut state.files, call)?;
    break_pipe(&state.actions, &mut thread.pending, broken);
    Ok(())
}

/// Move of a call of this kind.
fn move_as(
    state: &mut LinuxState,
    alloc: Global,
    slot: Slot,
    thread: &mut LxThread,
    call: &mut LxCall,
    picks: &Picks,
) -> Result<(), LxRefusal>
    ensures { CallGoes (move picks.now state.old slot thread.old call.old) state.old state.new slot thread.old thread.new call.old call.new result }
{
    match Call::new(call.number) {
        Some(Call::EpollPwait) => epoll_move(alloc, &mut state.files, call, picks.as_slice()),
        _ if picks.as_slice().is_empty() => move_transfer(state, alloc, slot, thread, call),
        _ => Err(LxRefusal::NoStep),
    }
}

/// Move: bytes between a transfer and its open file, or the events of an epoll.
pub fn move_bytes(
    state: &mut LinuxState,
    alloc: Global,
    slot: Slot,
    thread: &mut LxThread,
    call: &mut LxCall,
    stage: Stage,
    picks: &Picks,
) -> Result<(), LxRefusal>
    ensures { CallGoes (machine.move picks.now stage state.old slot thread.old call.old) state.old state.new slot thread.old thread.new call.old call.new result }
{
    match stage {
        Stage::Move => move_as(state, alloc, slot, thread, call, picks),
        _ => Err(LxRefusal::NoStep),
    }
}

/// What a call on descriptors or epolls does.
pub(crate) fn effect(
    state: &mut LinuxState,
    alloc: Global,
    slot: Slot,
    thread: &LxThread,
    call: &mut LxCall,
    kind: Call,
) -> Result<(), LxRefusal>
    ensures goes { CallGoes (files_part (rules kind).effect state.old slot thread.now call.old) state.old state.new slot thread.now thread.now call.old call.new result }
    ensures decided { OnFalse (effect_makes (Some kind)) (IsDecided result) }
{
    let files = &mut state.files;
    match kind {
        Call::Eventfd2 => eventfd2(files, call),
        Call::Dup => dup(files, call),
        Call::Dup3 => dup3(files, call),
        Call::Fcntl => fcntl(files, call),
        Call::Ioctl => ioctl(files, call),
        Call::Close => close(files, call),
        Call::Pipe2 => pipe2(alloc, files, call)?,
        Call::Lseek => lseek(files, call),
        Call::EpollCreate1 => epoll_create1(alloc, files, call),
        Call::EpollCtl => epoll_ctl(files, call)?,
        _ => return Err(LxRefusal::NoStep),
    }
    Ok(())
}
