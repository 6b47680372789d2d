//! Alternative signal stacks (sigaltstack(2)).
ghost use Rattle.std.specs.Prelude.{◌≡◌, ◌≤◌, length, OnOk, OnErr, IfOk};
ghost use Rattle.lx_machine.specs.Calls.{first_refusal};
ghost use Rattle.lx_machine.specs.SignalCalls.{answered_storing};
ghost use Rattle.lx_machine.specs.Sigaltstack.{is_on, new_flags, new_stack, sigaltstack_call, sigaltstack_pieces, sigaltstack_stack, sigaltstack_stage, stack_bytes, stack_flags, stack_refusal, stack_refusals, stack_unless};

use crate::numbers::{
    answer_storing, append_number, fetch_then, number, optional_piece, small_number,
};
use linux_abi::LinuxErrno;
use linux_abi::signals::MINSIGSTKSZ;
use lx_machine::buffer::{Bytes, NoMemory};
use lx_machine::calls::{LxCall, Pieces, Stage, refused_if};
use lx_machine::threads::AltStack;
use std::alloc::Global;

/// The thread is on its alternative stack.
const ONSTACK: u32 = 1;

/// There is no alternative stack.
const DISABLE: u32 = 2;

/// The bytes of a stack_t.
const STACK: u64 = 24;

/// Whether a thread with this stack pointer is on its alternative stack.
pub fn is_on(sp: u64, stack: AltStack) -> bool
    ensures { result ≡ is_on sp stack }
{
    stack.enabled
        && stack.at < sp
        && u128::from(sp) <= u128::from(stack.at) + u128::from(stack.size)
}

/// SS_ONSTACK, SS_DISABLE, or neither.
pub fn stack_flags(sp: u64, stack: AltStack) -> u32
    ensures value { result ≡ stack_flags sp stack }
    ensures most { result ≤ 2 }
{
    if !stack.enabled {
        DISABLE
    } else if is_on(sp, stack) {
        ONSTACK
    } else {
        0
    }
}

/// The bytes of a stack_t.
fn stack_bytes(alloc: Global, sp: u64, stack: AltStack) -> Result<Bytes, NoMemory>
    ensures { IfOk result (λ bytes. bytes ≡ stack_bytes sp stack) }
{
    let mut bytes = Bytes::empty(alloc);
    append_number(&mut bytes, stack.at)?;
    append_number(&mut bytes, u64::from(stack_flags(sp, stack)))?;
    append_number(&mut bytes, stack.size)?;
    Ok(bytes)
}

/// sigaltstack(2) fetches the new stack, where one is given, which takes memory.
pub fn sigaltstack_pieces(alloc: Global, call: &LxCall) -> Result<Pieces, NoMemory>
    ensures taken { OnErr result (1 ≤ length (sigaltstack_pieces call.now)) }
    ensures value { IfOk result (λ pieces. pieces ≡ sigaltstack_pieces call.now) }
{
    optional_piece(alloc, call.arguments[0], STACK)
}

/// sigaltstack(2) fetches the new stack, and then has its effect.
pub fn sigaltstack_stage(call: &LxCall) -> Stage
    ensures { result ≡ sigaltstack_stage call.now }
{
    fetch_then(Stage::Effect, &call.pieces)
}

/// The flags of a stack_t.
fn new_flags(bytes: &[u8]) -> u32
    ensures { result ≡ new_flags bytes.now }
{
    small_number(bytes, 8)
}

/// What a stack_t says.
fn new_stack(bytes: &[u8]) -> AltStack
    ensures { result ≡ new_stack bytes.now }
{
    if new_flags(bytes) == DISABLE {
        AltStack {
            at: 0,
            size: 0,
            enabled: false,
        }
    } else {
        AltStack {
            at: number(bytes, 0),
            size: number(bytes, 16),
            enabled: true,
        }
    }
}

/// What refuses a new stack.
fn new_refusal(sp: u64, stack: AltStack, bytes: &[u8]) -> Option<LinuxErrno>
    ensures { result ≡ first_refusal (stack_refusals sp stack bytes.now) }
{
    if new_flags(bytes) > DISABLE {
        return Some(LinuxErrno::EINVAL);
    }
    if is_on(sp, stack) {
        return Some(LinuxErrno::EPERM);
    }
    refused_if(
        new_flags(bytes) != DISABLE && number(bytes, 16) < MINSIGSTKSZ,
        LinuxErrno::ENOMEM,
    )
}

/// What refuses the call, which is so only where a new stack is given.
fn stack_refusal(sp: u64, stack: AltStack, call: &LxCall) -> Option<LinuxErrno>
    ensures { result ≡ stack_refusal sp stack call.now }
{
    if call.arguments[0] == 0 {
        None
    } else {
        new_refusal(sp, stack, call.bytes.as_slice())
    }
}

/// The stack after the call, unless it is refused.
fn stack_after(stack: AltStack, call: &LxCall) -> AltStack
    ensures { result ≡ stack_unless None stack call.now }
{
    if call.arguments[0] == 0 {
        stack
    } else {
        new_stack(call.bytes.as_slice())
    }
}

/// The call answers 0, and stores the stack at an address that is optional, which takes memory. Where it is wanting, nothing
/// changes.
fn answer_stack(
    alloc: Global,
    call: &mut LxCall,
    at: u64,
    sp: u64,
    stack: AltStack,
) -> Result<(), NoMemory>
    ensures ok { OnOk result (call.new ≡ answered_storing call.old at (stack_bytes sp stack)) }
    ensures err { OnErr result (call.new ≡ call.old) }
    ensures stores { OnErr result (1 ≤ length (answered_storing call.old at (stack_bytes sp stack)).pieces) }
{
    if at == 0 {
        call.answer(0);
        return Ok(());
    }
    let bytes = stack_bytes(alloc, sp, stack)?;
    answer_storing(alloc, call, at, bytes)
}

/// The effect of sigaltstack(2) on the alternative stack of a thread with this stack pointer: it changes, and the one before is
/// stored; or the call is refused. `NoMemory`: memory is wanting for what is stored; then nothing changes.
pub fn sigaltstack(
    alloc: Global,
    sp: u64,
    stack: &mut AltStack,
    call: &mut LxCall,
) -> Result<(), NoMemory>
    ensures stack { OnOk result (stack.new ≡ sigaltstack_stack sp stack.old call.old) }
    ensures call { OnOk result (call.new ≡ sigaltstack_call sp stack.old call.old) }
    ensures stack_err { OnErr result (stack.new ≡ stack.old) }
    ensures call_err { OnErr result (call.new ≡ call.old) }
    ensures stores { OnErr result (1 ≤ length (sigaltstack_call sp stack.old call.old).pieces) }
{
    match stack_refusal(sp, *stack, call) {
        Some(e) => call.refuse(e),
        None => {
            let after = stack_after(*stack, call);
            answer_stack(alloc, call, call.arguments[1], sp, *stack)?;
            *stack = after;
        }
    }
    Ok(())
}
