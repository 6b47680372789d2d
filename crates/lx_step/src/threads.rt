//! Instr: the instruction of a thread.
ghost use Rattle.std.specs.Prelude.{◌≡◌, Some};
ghost use Rattle.lx_machine.specs.Threads.{outside_call};
ghost use Rattle.lx_machine.specs.Instruction.{instruction};
ghost use Rattle.lx_step.specs.Places.{ran_at, RunsAt, ran_in, RunsIn};
ghost use Rattle.lx_step.specs.Steps.{Steps};

use crate::slots::place_of;
use lx_call_steps::marks::unmark;
use lx_instructions::instruction::{Written, run};
use lx_machine::buffer::NoMemory;
use lx_machine::refusal::LxRefusal;
use lx_machine::state::{LinuxState, Slot};
use lx_machine::thread_table::Threads;
use lx_machine::threads::LxThread;
use lx_memory::Memory;
use lx_signals::taking::is_user;
use std::alloc::Global;

/// The instruction of the thread in this place, if it has one that may run.
fn run_at(
    alloc: Global,
    memory: &mut Memory,
    place: &mut Option<LxThread>,
) -> Result<Written, LxRefusal>
    ensures { RunsAt (ran_at memory.old place.old) memory.old memory.new place.old place.new result }
{
    let Some(thread) = place else {
        return Err(LxRefusal::NoStep);
    };
    if !is_user(thread) {
        return Err(LxRefusal::NoStep);
    }
    match run(alloc, memory, thread) {
        Ok(written) => Ok(written),
        Err(NoMemory) => Err(LxRefusal::NoMemory),
    }
}

/// The instruction of the thread in this slot, if it has one that may run.
#[tactic(auto, using(lx_signals::proofs::Placed::placed_back))]
fn run_in(
    alloc: Global,
    memory: &mut Memory,
    threads: &mut Threads,
    slot: Slot,
) -> Result<Written, LxRefusal>
    ensures { RunsIn (ran_in memory.old threads.old slot) memory.old memory.new threads.old threads.new slot result }
{
    run_at(alloc, memory, threads.place(slot))
}

/// Instr: the instruction at pc of the thread in a slot that is in no call.
fn instruction_in(state: &mut LinuxState, alloc: Global, slot: Slot) -> Result<(), LxRefusal>
    ensures { Steps (outside_call state.old slot (λ t. Some (instruction state.old slot t))) state.old state.new result }
{
    let written = run_in(alloc, &mut state.space.pages, &mut state.threads, slot)?;
    unmark(state, slot, u128::from(written.at), u128::from(written.len));
    Ok(())
}

/// The same, of the slot of this number.
pub fn instruction(state: &mut LinuxState, alloc: Global, number: u8) -> Result<(), LxRefusal>
    ensures { Steps (outside_call state.old number (λ t. Some (instruction state.old number t))) state.old state.new result }
{
    match place_of(&state.threads, number) {
        Some(slot) => instruction_in(state, alloc, slot),
        None => Err(LxRefusal::NoStep),
    }
}
