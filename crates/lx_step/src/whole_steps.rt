//! Effect of a call that looks at all threads, or changes others: clone, get_robust_list, kill, tkill, tgkill and rt_sigaction.
ghost use Rattle.std.specs.Bool.{OnFalse};
ghost use Rattle.std.specs.Prelude.{◌≡◌, Some, false};
ghost use Rattle.linux_abi.specs.Call.{call_of};
ghost use Rattle.lx_machine.specs.declared.label.Label.TheVariants as label_of;
ghost use Rattle.std.specs.Option.{option_map};
ghost use Rattle.lx_machine.specs.Shape.{stage_of};
ghost use Rattle.lx_machine.specs.Kill.{send_whole};
ghost use Rattle.lx_machine.specs.Table.{rules_at};
ghost use Rattle.lx_machine.specs.Whole.{call_put};
ghost use Rattle.lx_machine.specs.Lists.{bind};
ghost use Rattle.lx_machine.specs.Step.{in_call};
ghost use Rattle.lx_machine.specs.Threads.{with_call, without_call};
ghost use Rattle.lx_step.specs.CallSteps.{whole_effect_at};
ghost use Rattle.lx_step.specs.Outcomes.{WholeGoes};
ghost use Rattle.lx_step.specs.Wholes.{all_part, whole_at, taken_of, taken_at, call_out};
ghost use Rattle.lx_call_steps.specs.Makes.{effect_makes};
ghost use Rattle.lx_call_steps.specs.Outcomes.{IsDecided};
ghost use Rattle.lx_step.specs.Steps.{Steps};
ghost use Rattle.lx_step.specs.Wants.{WantsIn};

use crate::slots::place_of;
use linux_abi::Call;
use lx_calls::shape::stage_of;
use lx_clones::clones::{cloned, get_robust_list};
use lx_machine::calls::{LxCall, Stage};
use lx_machine::refusal::LxRefusal;
use lx_machine::signals::Sending;
use lx_machine::state::{LinuxState, Slot};
use lx_machine::thread_table::Threads;
use lx_machine::threads::LxThread;
use lx_signal_calls::actions::sigaction;
use lx_signals::sending::{
    answer_by, forget, kill_sending, perform, queued, tgkill_sending, tkill_sending,
};
use std::alloc::Global;
use std::mem;

/// A signal is sent, and the call is answered.
fn send(state: &mut LinuxState, call: &mut LxCall, sending: Sending) -> Result<(), LxRefusal>
    ensures { WholeGoes (Some (send_whole state.old call.old sending)) state.old state.new call.old call.new result }
{
    perform(
        sending,
        &state.actions,
        &mut state.threads,
        &mut state.pending,
    )?;
    answer_by(sending, call);
    Ok(())
}

/// What such a call of a thread with this mask and this robust list does.
fn effect_as(
    state: &mut LinuxState,
    alloc: Global,
    mask: u64,
    robust_head: u64,
    call: &mut LxCall,
    kind: Option<Call>,
) -> Result<(), LxRefusal>
    ensures goes { WholeGoes (all_part (rules_at kind).effect state.old mask robust_head call.old) state.old state.new call.old call.new result }
    ensures decided { OnFalse (effect_makes kind) (IsDecided result) }
{
    match kind {
        Some(Call::Clone) => {
            cloned(
                alloc,
                state.rules,
                &mut state.threads,
                &mut state.next_tid,
                mask,
                call,
            )?;
        }
        Some(Call::GetRobustList) => get_robust_list(
            alloc,
            state.threads.as_slice(),
            robust_head,
            call,
        )?,
        Some(Call::Kill) => {
            let sending = kill_sending(queued(state.threads.as_slice(), &state.pending), call);
            return send(state, call, sending);
        }
        Some(Call::Tkill) => {
            let count = queued(state.threads.as_slice(), &state.pending);
            let sending = tkill_sending(state.threads.as_slice(), count, call);
            return send(state, call, sending);
        }
        Some(Call::Tgkill) => {
            let count = queued(state.threads.as_slice(), &state.pending);
            let sending = tgkill_sending(state.threads.as_slice(), count, call);
            return send(state, call, sending);
        }
        Some(Call::RtSigaction) => {
            let forgets = sigaction(alloc, &mut state.actions, call)?;
            forget(forgets, state);
        }
        _ => return Err(LxRefusal::NoStep),
    }
    Ok(())
}

/// The call of a thread, which is taken out of it, with the thread's mask and robust list.
#[derive(Drop)]
pub struct Taken {
    pub mask: u64,
    pub robust_head: u64,
    pub call: LxCall,
}

/// Takes the call out of a thread, if it is in one.
fn take_from_thread(thread: &mut LxThread) -> Option<Taken>
    ensures taken { result ≡ taken_of thread.old }
    ensures left { thread.new ≡ without_call thread.old }
{
    let call = mem::replace(&mut thread.call, None)?;
    Some(Taken {
        mask: thread.mask,
        robust_head: thread.robust_head,
        call,
    })
}

/// Takes the call out of the thread of a place, if there is one in a call.
fn take_from_place(place: &mut Option<LxThread>) -> Option<Taken>
    ensures taken { result ≡ bind place.old taken_of }
    ensures left { place.new ≡ option_map without_call place.old }
{
    match place {
        Some(thread) => take_from_thread(thread),
        None => None,
    }
}

/// Takes the call out of the thread in a slot, if there is one in a call.
fn take_call(threads: &mut Threads, slot: Slot) -> Option<Taken>
    ensures taken { result ≡ taken_at threads.old slot }
    ensures left { threads.new ≡ call_out threads.old slot }
{
    take_from_place(threads.place(slot))
}

/// A thread stands so in this call, if there is one.
fn put_in_place(place: &mut Option<LxThread>, call: LxCall)
    ensures { place.new ≡ option_map (λ t. with_call t call) place.old }
{
    if let Some(thread) = place {
        thread.call = Some(call);
    }
}

/// The thread in a slot, if there is one, stands so in this call.
fn put_call(threads: &mut Threads, slot: Slot, call: LxCall)
    ensures { threads.new ≡ call_put threads.old slot call }
{
    put_in_place(threads.place(slot), call);
}

/// What such a call does, where Effect comes next.
fn effect_at(state: &mut LinuxState, alloc: Global, taken: &mut Taken) -> Result<(), LxRefusal>
    ensures goes { WholeGoes (whole_at (stage_of taken.old.call) state.old taken.old.mask taken.old.robust_head taken.old.call) state.old state.new taken.old.call taken.new.call result }
    ensures decided { OnFalse (effect_makes (call_of taken.old.call.number)) (IsDecided result) }
{
    let Stage::Effect = stage_of(&taken.call) else {
        return Err(LxRefusal::NoStep);
    };
    let kind = Call::new(taken.call.number);
    effect_as(
        state,
        alloc,
        taken.mask,
        taken.robust_head,
        &mut taken.call,
        kind,
    )
}

/// Effect of a call of the thread in a slot that looks at all threads, or changes others.
fn effect_in(state: &mut LinuxState, alloc: Global, slot: Slot) -> Result<(), LxRefusal>
    ensures steps { Steps (in_call state.old slot whole_effect_at) state.old state.new result }
    ensures wants { WantsIn state.old (label_of.Effect slot false) slot result }
{
    let Some(mut taken) = take_call(&mut state.threads, slot) else {
        return Err(LxRefusal::NoStep);
    };
    let result = effect_at(state, alloc, &mut taken);
    put_call(&mut state.threads, slot, taken.call);
    result
}

/// The same, of the slot of this number.
pub fn effect(state: &mut LinuxState, alloc: Global, number: u8) -> Result<(), LxRefusal>
    ensures steps { Steps (in_call state.old number whole_effect_at) state.old state.new result }
    ensures wants { WantsIn state.old (label_of.Effect number false) number result }
{
    match place_of(&state.threads, number) {
        Some(slot) => effect_in(state, alloc, slot),
        None => Err(LxRefusal::NoStep),
    }
}
