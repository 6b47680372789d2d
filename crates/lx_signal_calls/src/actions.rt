//! The actions of signals (sigaction(2)).
ghost use Rattle.std.specs.Prelude.{◌≡◌, ◌≤◌, length, OnOk, OnErr, IfOk};
ghost use Rattle.lx_machine.specs.Calls.{first_refusal};
ghost use Rattle.lx_machine.specs.SignalCalls.{answered_storing};
ghost use Rattle.lx_machine.specs.Sigaction.{action_bytes, action_in, actions_with, forgets_with, has_fixed_action, new_action, sigaction_actions, sigaction_call, sigaction_forgets, sigaction_pieces, sigaction_refusals, sigaction_stage};

use crate::numbers::{answer_storing, append_number, fetch_then, number, optional_piece};
use linux_abi::signals::SIGSET_SIZE;
use linux_abi::{LinuxErrno, LinuxSig};
use lx_machine::buffer::{Bytes, NoMemory};
use lx_machine::calls::{LxCall, Pieces, Stage, refused_if};
use lx_machine::signals::Action;
use lx_signals::taking::{action_of, is_ignored, set_action};
use std::alloc::Global;

/// The bytes of a struct sigaction.
const ACTION: u64 = 32;

/// The bytes of an action.
fn action_bytes(alloc: Global, action: Action) -> Result<Bytes, NoMemory>
    ensures { IfOk result (λ bytes. bytes ≡ action_bytes action) }
{
    let mut bytes = Bytes::empty(alloc);
    append_number(&mut bytes, action.handler)?;
    append_number(&mut bytes, action.flags)?;
    append_number(&mut bytes, action.restorer)?;
    append_number(&mut bytes, action.mask)?;
    Ok(bytes)
}

/// The action in these bytes.
fn action_in(bytes: &[u8]) -> Action
    ensures { result ≡ action_in bytes.now }
{
    Action {
        handler: number(bytes, 0),
        flags: number(bytes, 8),
        restorer: number(bytes, 16),
        mask: number(bytes, 24),
    }
}

/// Whether the number is that of SIGKILL or SIGSTOP, which have no other action.
fn has_fixed_action(number: u32) -> bool
    ensures { result ≡ has_fixed_action number }
{
    number == u32::from(LinuxSig::SIGKILL.number())
        || number == u32::from(LinuxSig::SIGSTOP.number())
}

/// rt_sigaction(2).
pub fn sigaction_refusal(call: &LxCall) -> Option<LinuxErrno>
    ensures { result ≡ first_refusal (sigaction_refusals call.now) }
{
    let signal = call.low_argument(0);
    let [_, new, _, size, ..] = call.arguments;
    refused_if(
        size != SIGSET_SIZE
            || LinuxSig::new(u64::from(signal)).is_none()
            || (new != 0 && has_fixed_action(signal)),
        LinuxErrno::EINVAL,
    )
}

/// rt_sigaction(2) fetches the new action, where one is given, which takes memory.
pub fn sigaction_pieces(alloc: Global, call: &LxCall) -> Result<Pieces, NoMemory>
    ensures taken { OnErr result (1 ≤ length (sigaction_pieces call.now)) }
    ensures value { IfOk result (λ pieces. pieces ≡ sigaction_pieces call.now) }
{
    optional_piece(alloc, call.arguments[1], ACTION)
}

/// rt_sigaction(2) fetches the new action, and then has its effect.
pub fn sigaction_stage(call: &LxCall) -> Stage
    ensures { result ≡ sigaction_stage call.now }
{
    fetch_then(Stage::Effect, &call.pieces)
}

/// The new action, where one is given.
fn new_action(call: &LxCall) -> Option<Action>
    ensures { result ≡ new_action call.now }
{
    if call.arguments[1] == 0 {
        None
    } else {
        Some(action_in(call.bytes.as_slice()))
    }
}

/// The actions after the call, by the new action.
fn set_new(actions: &mut [Action; 64], signal: LinuxSig, new: Option<Action>)
    ensures { actions.new ≡ actions_with signal new actions.old }
{
    if let Some(action) = new {
        set_action(actions, signal, action);
    }
}

/// The signal, if it is ignored or dropped from now on.
fn forgets_with(signal: LinuxSig, new: Option<Action>) -> Option<LinuxSig>
    ensures { result ≡ forgets_with signal new }
{
    match new {
        Some(action) if is_ignored(action, signal) => Some(signal),
        _ => None,
    }
}

/// The call answers 0, and stores the action at an address that is optional, which takes memory. Where it is wanting, nothing
/// changes.
fn answer_action(alloc: Global, call: &mut LxCall, at: u64, action: Action) -> Result<(), NoMemory>
    ensures ok { OnOk result (call.new ≡ answered_storing call.old at (action_bytes action)) }
    ensures err { OnErr result (call.new ≡ call.old) }
    ensures stores { OnErr result (1 ≤ length (answered_storing call.old at (action_bytes action)).pieces) }
{
    if at == 0 {
        call.answer(0);
        return Ok(());
    }
    let bytes = action_bytes(alloc, action)?;
    answer_storing(alloc, call, at, bytes)
}

/// The effect of rt_sigaction(2) on the actions: the action of the signal changes, and the one before is stored. The answer is
/// the signal that is pending nowhere any more, if there is one. `NoMemory`: memory is wanting for what is stored; then nothing
/// changes.
pub fn sigaction(
    alloc: Global,
    actions: &mut [Action; 64],
    call: &mut LxCall,
) -> Result<Option<LinuxSig>, NoMemory>
    ensures forgets { IfOk result (λ forgets. forgets ≡ sigaction_forgets call.old) }
    ensures actions { OnOk result (actions.new ≡ sigaction_actions actions.old call.old) }
    ensures call { OnOk result (call.new ≡ sigaction_call actions.old call.old) }
    ensures actions_err { OnErr result (actions.new ≡ actions.old) }
    ensures call_err { OnErr result (call.new ≡ call.old) }
    ensures stores { OnErr result (1 ≤ length (sigaction_call actions.old call.old).pieces) }
{
    let Some(signal) = LinuxSig::new(u64::from(call.low_argument(0))) else {
        call.refuse(LinuxErrno::EINVAL);
        return Ok(None);
    };
    let new = new_action(call);
    answer_action(alloc, call, call.arguments[2], action_of(actions, signal))?;
    set_new(actions, signal, new);
    Ok(forgets_with(signal, new))
}
