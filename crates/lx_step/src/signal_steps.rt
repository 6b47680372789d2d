//! Return, Take, Frame and Kill: how a thread takes signals (signal(7)).
ghost use Rattle.std.specs.Prelude.{◌≡◌};
ghost use Rattle.lx_machine.specs.Delivery.{kill, kill_follows, killed_by, return, take};
ghost use Rattle.lx_machine.specs.SignalFrame.{frame};
ghost use Rattle.lx_machine.specs.Signal.{forgotten};
ghost use Rattle.lx_machine.specs.Threads.{with_thread};
ghost use Rattle.lx_step.specs.Outcomes.{ThreadGoes};
ghost use Rattle.lx_call_steps.specs.Outcomes.{IsDecided};

use linux_abi::LinuxSig;
use lx_call_steps::marks::unmark;
use lx_calls::shape::{restarts, stage_of};
use lx_machine::calls::Stage;
use lx_machine::label::PendingList;
use lx_machine::refusal::LxRefusal;
use lx_machine::signals::Fate;
use lx_machine::state::{LinuxState, Slot};
use lx_machine::threads::{GuestEnd, LxThread};
use lx_signal_calls::frames::store_taken;
use lx_signals::sending::forget;
use lx_signals::taking::{Named, return_thread, take_thread};

/// The bytes of a frame and of its record.
const FRAME: u128 = 4704;

/// A signal ends the guest, if one does.
fn end_by(state: &mut LinuxState, signal: Option<LinuxSig>)
    ensures { state.new ≡ killed_by signal state.old }
{
    if let Some(signal) = signal {
        state.end = Some(GuestEnd::Killed(signal));
    }
}

/// What follows of a signal that a thread has taken.
#[tactic(auto, using(lx_signals::proofs::Forgotten::forgotten_back))]
fn follow(state: &mut LinuxState, slot: Slot, thread: &mut LxThread, fate: Fate)
    ensures { forgotten fate.forgets (with_thread (killed_by fate.ends state.old) slot thread.old) ≡ with_thread state.new slot thread.new }
{
    end_by(state, fate.ends);
    forget(fate.forgets, state);
    if let Some(signal) = fate.forgets {
        thread.pending.remove_all(signal);
    }
}

/// Return: the result of the call of the thread in a slot is in x0, or the call starts again; and the thread takes the signal
/// that it keeps, or the named one.
pub fn return_result(
    state: &mut LinuxState,
    slot: Slot,
    thread: &mut LxThread,
    named: Option<Named>,
) -> Result<(), LxRefusal>
    ensures goes { ThreadGoes (return named state.old slot thread.old) state.old state.new slot thread.old thread.new result }
    ensures decided { IsDecided result }
{
    let (restarts, stage) = match &thread.call {
        Some(call) => (restarts(call), stage_of(call)),
        None => return Err(LxRefusal::NoStep),
    };
    let fate = return_thread(
        restarts,
        stage,
        &mut state.actions,
        thread,
        &mut state.pending,
        named,
    )?;
    follow(state, slot, thread, fate);
    Ok(())
}

/// Take: the thread in a slot takes the signal of its trap, or in no call a pending one.
pub fn take_signal(
    state: &mut LinuxState,
    slot: Slot,
    thread: &mut LxThread,
    list: PendingList,
    signal: LinuxSig,
) -> Result<(), LxRefusal>
    ensures goes { ThreadGoes (take list signal state.old slot thread.old) state.old state.new slot thread.old thread.new result }
    ensures decided { IsDecided result }
{
    let fate = take_thread(
        &mut state.actions,
        &state.space.pages,
        thread,
        &mut state.pending,
        list,
        signal,
    )?;
    follow(state, slot, thread, fate);
    Ok(())
}

/// Frame: the frame of the handler of the signal that the thread has taken is stored. What is written ends the marks of other
/// threads.
pub fn frame(state: &mut LinuxState, slot: Slot, thread: &mut LxThread) -> Result<(), LxRefusal>
    ensures goes { ThreadGoes (frame state.old slot thread.old) state.old state.new slot thread.old thread.new result }
    ensures decided { IsDecided result }
{
    if let Some(at) = store_taken(&mut state.space.pages, thread)? {
        unmark(state, slot, u128::from(at), FRAME);
    }
    Ok(())
}

/// Whether Kill is to follow: the thread's frame could not be stored, or its call could not fetch one.
fn kill_follows(thread: &LxThread) -> bool
    ensures { result ≡ kill_follows thread.now }
{
    thread.is_doomed
        || match &thread.call {
            Some(call) => matches!(stage_of(call), Stage::Kill),
            None => false,
        }
}

/// Kill: the guest ends, since a frame could not be stored or read.
pub fn kill(state: &mut LinuxState, slot: Slot, thread: &LxThread) -> Result<(), LxRefusal>
    ensures goes { ThreadGoes (kill state.old slot thread.now) state.old state.new slot thread.now thread.now result }
    ensures decided { IsDecided result }
{
    if !kill_follows(thread) {
        return Err(LxRefusal::NoStep);
    }
    end_by(state, Some(LinuxSig::SIGSEGV));
    Ok(())
}
