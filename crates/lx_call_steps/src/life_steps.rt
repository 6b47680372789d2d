//! Start and Leave: how threads begin and end (clone(2), _exit(2)).
ghost use Rattle.std.specs.Prelude.{◌≡◌};
ghost use Rattle.lx_machine.specs.Exit.{exited};
ghost use Rattle.lx_machine.specs.Threads.{has_no_thread};
ghost use Rattle.lx_machine.specs.Step as machine;
ghost use Rattle.lx_machine.specs.Lists.{at_place};
ghost use Rattle.lx_call_steps.specs.Outcomes.{CallGoes, StartsAt, Starts};
ghost use Rattle.lx_call_steps.specs.Outcomes.{IsDecided};

use lx_clones::clones::started;
use lx_clones::robust_list::begun;
use lx_machine::calls::{LxCall, Stage};
use lx_machine::refusal::LxRefusal;
use lx_machine::state::{LinuxState, Slot};
use lx_machine::thread_table::Threads;
use lx_machine::threads::{GuestEnd, Life, LxThread};
use std::alloc::Global;

/// Whether no thread is in these places.
pub fn all_free(threads: &[Option<LxThread>]) -> bool
    ensures { result ≡ has_no_thread threads.now }
{
    threads.iter().all(|thread| thread.is_none())
}

/// The guest ends with the low 8 bits of the call's code.
pub fn end_guest(state: &mut LinuxState, call: &LxCall)
    ensures { state.new ≡ exited state.old call.now }
{
    state.end = Some(GuestEnd::Exited((call.low_argument(0) % 256) as u8));
}

/// Leave: exit of the only thread ends the guest; else the thread dies.
pub fn leave(
    state: &mut LinuxState,
    alloc: Global,
    slot: Slot,
    thread: &mut LxThread,
    call: &mut LxCall,
    stage: Stage,
) -> Result<(), LxRefusal>
    ensures { CallGoes (machine.leave stage state.old slot thread.old call.old) state.old state.new slot thread.old thread.new call.old call.new result }
{
    let Stage::Leave = stage else {
        return Err(LxRefusal::NoStep);
    };
    if all_free(state.threads.as_slice()) {
        end_guest(state, call);
    } else {
        begun(alloc, thread.robust_head, thread.clear_at, call)?;
        thread.life = Life::Dying;
    }
    Ok(())
}

/// The child in this place starts, if there is one.
fn start_at(
    place: &mut Option<LxThread>,
    thread: &LxThread,
    call: &mut LxCall,
) -> Result<(), LxRefusal>
    ensures goes { StartsAt place.old place.new thread.now.regs thread.now.mask call.old call.new result }
    ensures decided { IsDecided result }
{
    match place {
        Some(child) => {
            started(&thread.regs, thread.mask, call, child);
            Ok(())
        }
        None => Err(LxRefusal::NoStep),
    }
}

/// The same, in this slot.
#[tactic(auto, using(lx_signals::proofs::Placed::placed_back))]
fn start_in(
    threads: &mut Threads,
    at: Slot,
    thread: &LxThread,
    call: &mut LxCall,
) -> Result<(), LxRefusal>
    ensures goes { Starts (at_place threads.old at) threads.old threads.new at thread.now.regs thread.now.mask call.old call.new result }
    ensures decided { IsDecided result }
{
    start_at(threads.place(at), thread, call)
}

/// Start: the child that the call has reserved takes over the registers of its parent.
pub fn start(
    state: &mut LinuxState,
    slot: Slot,
    thread: &LxThread,
    call: &mut LxCall,
    stage: Stage,
) -> Result<(), LxRefusal>
    ensures goes { CallGoes (machine.start stage state.old slot thread.now call.old) state.old state.new slot thread.now thread.now call.old call.new result }
    ensures decided { IsDecided result }
{
    let Stage::Start = stage else {
        return Err(LxRefusal::NoStep);
    };
    match call.child {
        Some(at) => start_in(&mut state.threads, at, thread, call),
        None => Err(LxRefusal::NoStep),
    }
}
