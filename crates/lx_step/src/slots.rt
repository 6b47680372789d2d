//! A thread is taken out of its place, steps, and is put back; and so is the call of a thread.
ghost use Rattle.std.specs.Bool.{OnFalse};
ghost use Rattle.std.specs.Prelude.{◌≡◌, Some, None, IfSome};
ghost use Rattle.lx_machine.specs.Lists.{at_place, without_place};
ghost use Rattle.lx_machine.specs.Threads.{with_thread};
ghost use Rattle.lx_machine.specs.Step.{gone, in_call, of_call, on_thread};
ghost use Rattle.lx_machine.specs.Shape.{stage_of};
ghost use Rattle.lx_step.specs.CallSteps.{call_step, thread_step, is_gone, after_gone};
ghost use Rattle.lx_call_steps.specs.Outcomes.{CallGoes, IsDecided};
ghost use Rattle.lx_step.specs.Outcomes.{ThreadGoes};
ghost use Rattle.lx_step.specs.Steps.{Steps, IsDecidedAt};
ghost use Rattle.lx_step.specs.Wants.{WantsIn, call_may_want, in_call_may_want};

use crate::signal_steps;
use lx_call_steps::life_steps::{all_free, end_guest};
use lx_call_steps::{file_steps, futex_steps, life_steps, own_effects, pieces, wait_steps};
use lx_calls::shape::stage_of;
use lx_machine::calls::{LxCall, Stage};
use lx_machine::label::Label;
use lx_machine::refusal::LxRefusal;
use lx_machine::state::{LinuxState, Slot};
use lx_machine::thread_table::Threads;
use lx_machine::threads::LxThread;
use std::alloc::Global;
use std::mem;

/// The step of a thread in a call that a label names.
fn step_call(
    state: &mut LinuxState,
    alloc: Global,
    slot: Slot,
    thread: &mut LxThread,
    call: &mut LxCall,
    stage: Stage,
    label: &Label,
) -> Result<(), LxRefusal>
    ensures goes { CallGoes (call_step label.now stage state.old slot thread.old call.old) state.old state.new slot thread.old thread.new call.old call.new result }
    ensures decided { IsDecidedAt label.now result }
    ensures wants { OnFalse (call_may_want label.now state.old.files state.old.queue state.old.pi_queue call.old) (IsDecided result) }
{
    match label {
        Label::Fetch(_) => pieces::fetch(state, alloc, slot, thread, call, stage),
        Label::Store(_) => pieces::store(state, slot, thread, call, stage),
        Label::Hold(_) => file_steps::hold(state, slot, thread, call, stage),
        Label::Drop(_) => file_steps::give_back(state, slot, thread, call, stage),
        Label::Effect(_, short) => {
            own_effects::effect(state, alloc, slot, thread, call, stage, *short)
        }
        Label::Move(_, picks) => {
            file_steps::move_bytes(state, alloc, slot, thread, call, stage, picks)
        }
        Label::Clock(_) => wait_steps::clock(state, alloc, slot, thread, call, stage),
        Label::Queue(_) => futex_steps::queue(state, slot, thread, call, stage),
        Label::Requeue(_) => futex_steps::requeue(state, slot, thread, call, stage),
        Label::WakeOp(_) => futex_steps::wake_op(state, slot, thread, call, stage),
        Label::Mark(_) => futex_steps::mark(state, alloc, slot, thread, call, stage),
        Label::Release(_) => futex_steps::release(state, slot, thread, call, stage),
        Label::PiLock(_) => futex_steps::pi_lock(state, slot, thread, call, stage),
        Label::PiUnlock(_) => futex_steps::pi_unlock(state, slot, thread, call, stage),
        Label::Resume(_) => futex_steps::resume(state, slot, thread, call, stage),
        Label::Expire(_) => wait_steps::expire(state, slot, thread, call, stage),
        Label::Interrupt(_, list, signal) => {
            wait_steps::interrupt(state, alloc, slot, thread, call, stage, *list, *signal)
        }
        Label::Start(_) => life_steps::start(state, slot, thread, call, stage),
        Label::Leave(_) => life_steps::leave(state, alloc, slot, thread, call, stage),
        _ => Err(LxRefusal::NoStep),
    }
}

/// The same, of a thread.
#[tactic(auto, using(crate::proofs::PutBack::call_back))]
fn step_thread(
    state: &mut LinuxState,
    alloc: Global,
    slot: Slot,
    thread: &mut LxThread,
    label: &Label,
) -> Result<(), LxRefusal>
    ensures goes { ThreadGoes (of_call (call_step label.now) state.old slot thread.old) state.old state.new slot thread.old thread.new result }
    ensures decided { IsDecidedAt label.now result }
    ensures wants { OnFalse (in_call_may_want label.now state.old.files state.old.queue state.old.pi_queue thread.old.call) (IsDecided result) }
{
    match mem::replace(&mut thread.call, None) {
        Some(mut call) => {
            let stage = stage_of(&call);
            let result = step_call(state, alloc, slot, thread, &mut call, stage, label);
            thread.call = Some(call);
            result
        }
        None => Err(LxRefusal::NoStep),
    }
}

/// The place of this number, if there is one.
#[tactic(auto, using(crate::proofs::PutBack::no_thread))]
pub(crate) fn place_of(threads: &Threads, number: u8) -> Option<Slot>
    ensures there { IfSome result (λ slot. slot ≡ number) }
    ensures nowhere { result ≡ None → at_place threads.now number ≡ None }
{
    if usize::from(number) < threads.as_slice().len() {
        Slot::new(number)
    } else {
        None
    }
}

/// Takes the thread out of a slot, if there is one.
#[tactic(auto, using(crate::proofs::PutBack::none_out))]
fn take_from(threads: &mut Threads, slot: Slot) -> Option<LxThread>
    ensures there { IfSome result (λ t. at_place threads.old slot ≡ Some t) }
    ensures out { IfSome result (λ t. threads.new ≡ without_place threads.old slot) }
    ensures nowhere { result ≡ None → (at_place threads.old slot ≡ None) × (threads.new ≡ threads.old) }
{
    threads.take(slot)
}

/// Puts a thread into a slot.
fn put_back(state: &mut LinuxState, slot: Slot, thread: LxThread)
    ensures { state.new ≡ with_thread state.old slot thread }
{
    state.threads.put(slot, thread);
}

/// The step of the thread in a slot, in its call, that a label names.
#[tactic(auto, using(crate::proofs::PutBack::thread_back))]
fn in_call_at(
    state: &mut LinuxState,
    alloc: Global,
    slot: Slot,
    label: &Label,
) -> Result<(), LxRefusal>
    ensures steps { Steps (in_call state.old slot (call_step label.now)) state.old state.new result }
    ensures decided { IsDecidedAt label.now result }
    ensures wants { WantsIn state.old label.now slot result }
{
    let Some(mut thread) = take_from(&mut state.threads, slot) else {
        return Err(LxRefusal::NoStep);
    };
    let result = step_thread(state, alloc, slot, &mut thread, label);
    put_back(state, slot, thread);
    result
}

/// The same, of the slot of this number.
pub fn in_call(
    state: &mut LinuxState,
    alloc: Global,
    number: u8,
    label: &Label,
) -> Result<(), LxRefusal>
    ensures steps { Steps (in_call state.old number (call_step label.now)) state.old state.new result }
    ensures decided { IsDecidedAt label.now result }
    ensures wants { WantsIn state.old label.now number result }
{
    match place_of(&state.threads, number) {
        Some(slot) => in_call_at(state, alloc, slot, label),
        None => Err(LxRefusal::NoStep),
    }
}

/// The step of a thread that a label names.
fn step_of_thread(
    state: &mut LinuxState,
    slot: Slot,
    thread: &mut LxThread,
    label: &Label,
) -> Result<(), LxRefusal>
    ensures goes { ThreadGoes (thread_step label.now state.old slot thread.old) state.old state.new slot thread.old thread.new result }
    ensures decided { IsDecided result }
{
    match label {
        Label::Return(_, named) => signal_steps::return_result(state, slot, thread, *named),
        Label::Take(_, list, signal) => {
            signal_steps::take_signal(state, slot, thread, *list, *signal)
        }
        Label::Frame(_) => signal_steps::frame(state, slot, thread),
        Label::Kill(_) => signal_steps::kill(state, slot, thread),
        _ => Err(LxRefusal::NoStep),
    }
}

/// The step of the thread in a slot that a label names.
#[tactic(auto, using(crate::proofs::PutBack::thread_back))]
fn on_thread_at(state: &mut LinuxState, slot: Slot, label: &Label) -> Result<(), LxRefusal>
    ensures steps { Steps (on_thread state.old slot (thread_step label.now)) state.old state.new result }
    ensures decided { IsDecided result }
{
    let Some(mut thread) = take_from(&mut state.threads, slot) else {
        return Err(LxRefusal::NoStep);
    };
    let result = step_of_thread(state, slot, &mut thread, label);
    put_back(state, slot, thread);
    result
}

/// The same, of the slot of this number.
pub fn on_thread(state: &mut LinuxState, number: u8, label: &Label) -> Result<(), LxRefusal>
    ensures steps { Steps (on_thread state.old number (thread_step label.now)) state.old state.new result }
    ensures decided { IsDecided result }
{
    match place_of(&state.threads, number) {
        Some(slot) => on_thread_at(state, slot, label),
        None => Err(LxRefusal::NoStep),
    }
}

/// Whether the death of the thread has come to its end.
fn is_gone(thread: &LxThread) -> bool
    ensures { result ≡ is_gone thread.now }
{
    match &thread.call {
        Some(call) => matches!(stage_of(call), Stage::Gone),
        None => false,
    }
}

/// What follows of a thread that is gone, and whose place is free: the last one's code is the guest's.
fn after_gone(state: &mut LinuxState, thread: &LxThread)
    ensures { state.new ≡ after_gone state.old thread.now }
{
    if let Some(call) = &thread.call {
        if all_free(state.threads.as_slice()) {
            end_guest(state, call);
        }
    }
}

/// Gone: the place of a thread that has died is free.
#[tactic(auto, using(crate::proofs::PutBack::thread_back, crate::proofs::Staged::goes, crate::proofs::Staged::stays))]
fn gone_at(state: &mut LinuxState, slot: Slot) -> Result<(), LxRefusal>
    ensures steps { Steps (in_call state.old slot (gone)) state.old state.new result }
    ensures decided { IsDecided result }
{
    let Some(thread) = take_from(&mut state.threads, slot) else {
        return Err(LxRefusal::NoStep);
    };
    if is_gone(&thread) {
        after_gone(state, &thread);
        Ok(())
    } else {
        put_back(state, slot, thread);
        Err(LxRefusal::NoStep)
    }
}

/// The same, of the slot of this number.
pub fn gone(state: &mut LinuxState, number: u8) -> Result<(), LxRefusal>
    ensures steps { Steps (in_call state.old number (gone)) state.old state.new result }
    ensures decided { IsDecided result }
{
    match place_of(&state.threads, number) {
        Some(slot) => gone_at(state, slot),
        None => Err(LxRefusal::NoStep),
    }
}
