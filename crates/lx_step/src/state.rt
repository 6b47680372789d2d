//! The Linux machine, in a form that runs.
ghost use Rattle.std.specs.Prelude.{◌≡◌, ◌≤◌, true, false, length, IfOk, All, map, string_bytes};
ghost use Rattle.elf_image.specs.Layout.{IsPlaced};
ghost use Rattle.lx_machine.specs.Interests.{side_holds};
ghost use Rattle.lx_machine.specs.Step.{at_time, drain, effect, in_call, step_of};
ghost use Rattle.lx_machine.specs.declared.label.Label.TheVariants as label_of;
ghost use Rattle.lx_machine.specs.Shape.{stage_of};
ghost use Rattle.lx_machine.specs.Step.{LStep};
ghost use Rattle.lx_machine.specs.Start.{start};
ghost use Rattle.lx_machine.specs.Stack.{arguments_of, name_of};
ghost use Rattle.lx_call_steps.specs.Outcomes.{IsDecided};
ghost use Rattle.lx_step.specs.Steps.{Steps, IsDecidedAt};
ghost use Rattle.lx_step.specs.Wants.{Wants, WantsIn};

use crate::{slots, threads, whole_steps};
use elf_image::Image;
use lx_files::interests::drain_side;
use lx_machine::buffer::NoMemory;
use lx_machine::files::Files;
use lx_machine::label::{Label, LxSide};
use lx_machine::refusal::LxRefusal;
use lx_machine::state::LinuxState;
use lx_start::start::first_state;
use std::alloc::Global;

/// The Linux machine.
#[derive(Drop)]
pub struct LxState {
    state: LinuxState,
}

/// Effect of the call of the thread in a slot: of one that looks at all threads or changes others, or of any other.
#[tactic(auto, using(crate::proofs::Staged::goes_by_parts))]
fn effect(state: &mut LinuxState, alloc: Global, slot: u8, label: &Label) -> Result<(), LxRefusal>
    requires { label.now ≡ label_of.Effect slot false }
    ensures steps { Steps (in_call state.old slot (effect false)) state.old state.new result }
    ensures wants { WantsIn state.old (label_of.Effect slot false) slot result }
{
    match whole_steps::effect(state, alloc, slot) {
        Err(LxRefusal::NoStep) => slots::in_call(state, alloc, slot, label),
        done => done,
    }
}

/// The same, where memory runs short.
#[tactic(auto, using(crate::proofs::Staged::runs_short))]
fn effect_short(
    state: &mut LinuxState,
    alloc: Global,
    slot: u8,
    label: &Label,
) -> Result<(), LxRefusal>
    requires { label.now ≡ label_of.Effect slot true }
    ensures steps { Steps (in_call state.old slot (effect true)) state.old state.new result }
    ensures wants { WantsIn state.old (label_of.Effect slot true) slot result }
{
    slots::in_call(state, alloc, slot, label)
}

/// Time: the clock is set.
fn set_clock(state: &mut LinuxState, time: u64) -> Result<(), LxRefusal>
    ensures steps { Steps (at_time state.old time) state.old state.new result }
    ensures decided { IsDecided result }
{
    if state.clock < time {
        state.clock = time;
        Ok(())
    } else {
        Err(LxRefusal::NoStep)
    }
}

/// How many bytes a console room holds.
fn held(files: &Files, side: LxSide) -> u64
    ensures { result ≡ length (side_holds files.now side) }
{
    match side {
        LxSide::Out => files.out.held() as u64,
        LxSide::Err => files.err.held() as u64,
    }
}

/// Drain: the first n bytes of a console room leave it.
fn drain(state: &mut LinuxState, side: LxSide, n: u64) -> Result<(), LxRefusal>
    ensures steps { Steps (drain state.old side n) state.old state.new result }
    ensures decided { IsDecided result }
{
    if n == 0 || n > held(&state.files, side) {
        return Err(LxRefusal::NoStep);
    }
    drain_side(&mut state.files, side, n as usize);
    Ok(())
}

/// A step of a guest that has not ended.
fn step_on(state: &mut LinuxState, alloc: Global, label: &Label) -> Result<(), LxRefusal>
    ensures steps { Steps (step_of state.old label.now) state.old state.new result }
    ensures decided { IsDecidedAt label.now result }
    ensures wants { Wants state.old label.now result }
{
    match label {
        Label::Instr(slot) => threads::instruction(state, alloc, *slot),
        Label::Effect(slot, false) => effect(state, alloc, *slot, label),
        Label::Effect(slot, true) => effect_short(state, alloc, *slot, label),
        Label::Fetch(slot)
        | Label::Store(slot)
        | Label::Hold(slot)
        | Label::Drop(slot)
        | Label::Move(slot, _)
        | Label::Clock(slot)
        | Label::Queue(slot)
        | Label::Requeue(slot)
        | Label::WakeOp(slot)
        | Label::Mark(slot)
        | Label::Release(slot)
        | Label::PiLock(slot)
        | Label::PiUnlock(slot)
        | Label::Resume(slot)
        | Label::Expire(slot)
        | Label::Interrupt(slot, _, _)
        | Label::Start(slot)
        | Label::Leave(slot) => slots::in_call(state, alloc, *slot, label),
        Label::Gone(slot) => slots::gone(state, *slot),
        Label::Return(slot, _) | Label::Take(slot, _, _) | Label::Frame(slot) | Label::Kill(slot) =>
            { slots::on_thread(state, *slot, label) }
        Label::Time(time) => set_clock(state, *time),
        Label::Drain(side, n) => drain(state, *side, *n),
    }
}

impl LxState {
    /// The machine before the first step of a program: `image` is loaded, `words` are the image's name and the arguments,
    /// `input` is what it can read, `seed` tells the bytes of AT_RANDOM, and `rules` are 1 or 2. `NoMemory`: memory is wanting, or the program
    /// and its words have no room.
    pub fn start(
        alloc: Global,
        image: &Image,
        words: &[String],
        input: &[u8],
        seed: u64,
        rules: u8,
    ) -> Result<LxState, NoMemory>
        requires placed { All IsPlaced image.now.segments }
        requires known { (1 ≤ rules) × (rules ≤ 2) }
        ensures { IfOk result (λ machine. machine.state ≡ start image.now (name_of (map string_bytes words.now)) (arguments_of (map string_bytes words.now)) input.now seed rules) }
    {
        let state = first_state(alloc, image, words, input, seed, rules)?;
        Ok(LxState { state })
    }

    /// Takes the step that `label` names. `NoStep`: there is none from this state, as for a guest that has ended.
    /// `NoMemory`: memory is wanting, which is so at Instr, Fetch, Move, Mark and Leave; at Effect, Clock and Interrupt of the
    /// calls that make bytes or keep something; at Hold where one more hold can't be counted; and at Queue and PiLock where as
    /// many wait as there is room for. After either, the state is as it was.
    pub fn step(&mut self, alloc: Global, label: &Label) -> Result<(), LxRefusal>
        ensures steps { Steps (LStep self.old.state label.now) self.old.state self.new.state result }
        ensures decided { IsDecidedAt label.now result }
        ensures wants { Wants self.old.state label.now result }
    {
        if self.state.end.is_some() {
            return Err(LxRefusal::NoStep);
        }
        step_on(&mut self.state, alloc, label)
    }

    /// The state.
    pub fn state(&self) -> &LinuxState
        ensures { result.now ≡ self.now.state }
    {
        &self.state
    }
}
