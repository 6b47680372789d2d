//! Queue, Requeue, WakeOp, Release, PiLock, PiUnlock and Resume: the steps of futexes (futex(2), futex_waitv(2)); and Mark, of a
//! death (get_robust_list(2)).
ghost use Rattle.std.specs.Bool.{OnFalse};
ghost use Rattle.std.specs.Prelude.{◌≡◌, length, nat_le};
ghost use Rattle.lx_machine.specs.Step as machine;
ghost use Rattle.lx_machine.specs.Futex.{woken};
ghost use Rattle.lx_machine.specs.Table.{rules_of};
ghost use Rattle.lx_machine.specs.Queue.{queue_outcome};
ghost use Rattle.lx_machine.specs.RobustList.{mark};
ghost use Rattle.lx_machine.specs.Waits.{resume};
ghost use Rattle.lx_call_steps.specs.Outcomes.{CallGoes};
ghost use Rattle.lx_call_steps.specs.Outcomes.{IsDecided};

use crate::marks::unmark;
use linux_abi::Call;
use lx_clones::robust_list::{death_marked, death_released, mark_faults, marked};
use lx_futexes::futex_pi::{lock_resumed, locked, unlocked};
use lx_futexes::futex_waitv::waitv_resumed;
use lx_futexes::futexes::{self, queued, requeued, resumed, woken};
use lx_machine::calls::{LxCall, Stage};
use lx_machine::futexes::{Mark, Wake};
use lx_machine::queue::Queue;
use lx_machine::refusal::LxRefusal;
use lx_machine::state::{LinuxState, Slot};
use lx_machine::threads::LxThread;
use std::alloc::Global;

/// Queue: the word of a place is compared, and the place queues.
pub fn queue(
    state: &mut LinuxState,
    slot: Slot,
    thread: &LxThread,
    call: &mut LxCall,
    stage: Stage,
) -> Result<(), LxRefusal>
    ensures goes { CallGoes (machine.queue stage state.old slot thread.now call.old) state.old state.new slot thread.now thread.now call.old call.new result }
    ensures full { OnFalse (nat_le 4096 (length state.old.queue)) (IsDecided result) }
{
    match stage {
        Stage::Queue(wait) => {
            queued(&state.space.pages, thread.tid, &mut state.queue, call, wait)?;
            Ok(())
        }
        _ => Err(LxRefusal::NoStep),
    }
}

/// Requeue: waiters are released, and others move to another word.
pub fn requeue(
    state: &mut LinuxState,
    slot: Slot,
    thread: &LxThread,
    call: &mut LxCall,
    stage: Stage,
) -> Result<(), LxRefusal>
    ensures goes { CallGoes (machine.requeue stage state.old slot thread.now call.old) state.old state.new slot thread.now thread.now call.old call.new result }
    ensures decided { IsDecided result }
{
    match stage {
        Stage::Requeue(asked) => {
            requeued(&state.space.pages, &mut state.queue, call, asked);
            Ok(())
        }
        _ => Err(LxRefusal::NoStep),
    }
}

/// WakeOp: a word changes, and waiters are released at two words. What is written ends the marks of other threads.
pub fn wake_op(
    state: &mut LinuxState,
    slot: Slot,
    thread: &LxThread,
    call: &mut LxCall,
    stage: Stage,
) -> Result<(), LxRefusal>
    ensures goes { CallGoes (machine.wake_op stage state.old slot thread.now call.old) state.old state.new slot thread.now thread.now call.old call.new result }
    ensures decided { IsDecided result }
{
    match stage {
        Stage::WakeOp(asked) => {
            let written = futexes::wake_op(&mut state.space.pages, &mut state.queue, call, asked);
            unmark(state, slot, u128::from(written.at), u128::from(written.len));
            Ok(())
        }
        _ => Err(LxRefusal::NoStep),
    }
}

/// Releases waiters for a futex or for a death.
fn release_waiters(queue: &mut Queue, call: &mut LxCall, wake: Wake)
    ensures { (rules_of call.old).released (woken queue.old call.old wake) call.old ≡ queue_outcome queue.new call.new }
{
    match Call::new(call.number) {
        Some(Call::Exit) => {
            queue.release(wake.at, wake.most, wake.bits);
            death_released(call);
        }
        _ => woken(queue, call, wake),
    }
}

/// Release: waiters are released.
pub fn release(
    state: &mut LinuxState,
    slot: Slot,
    thread: &LxThread,
    call: &mut LxCall,
    stage: Stage,
) -> Result<(), LxRefusal>
    ensures goes { CallGoes (machine.release stage state.old slot thread.now call.old) state.old state.new slot thread.now thread.now call.old call.new result }
    ensures decided { IsDecided result }
{
    match stage {
        Stage::Release(wake) => {
            release_waiters(&mut state.queue, call, wake);
            Ok(())
        }
        _ => Err(LxRefusal::NoStep),
    }
}

/// PiLock: a lock that names its owner is taken, or the thread queues for it. What is written ends the marks of other threads.
pub fn pi_lock(
    state: &mut LinuxState,
    slot: Slot,
    thread: &LxThread,
    call: &mut LxCall,
    stage: Stage,
) -> Result<(), LxRefusal>
    ensures goes { CallGoes (machine.pi_lock stage state.old slot thread.now call.old) state.old state.new slot thread.now thread.now call.old call.new result }
    ensures full { OnFalse (nat_le 128 (length state.old.pi_queue)) (IsDecided result) }
{
    let Stage::PiLock(asked) = stage else {
        return Err(LxRefusal::NoStep);
    };
    let written = locked(
        &mut state.space.pages,
        state.threads.as_slice(),
        thread.tid,
        &mut state.pi_queue,
        call,
        asked,
    )?;
    unmark(state, slot, u128::from(written.at), u128::from(written.len));
    Ok(())
}

/// PiUnlock: a lock that names its owner goes to the first that waits for it. What is written ends the marks of other threads.
pub fn pi_unlock(
    state: &mut LinuxState,
    slot: Slot,
    thread: &LxThread,
    call: &mut LxCall,
    stage: Stage,
) -> Result<(), LxRefusal>
    ensures goes { CallGoes (machine.pi_unlock stage state.old slot thread.now call.old) state.old state.new slot thread.now thread.now call.old call.new result }
    ensures decided { IsDecided result }
{
    let Stage::PiUnlock(at) = stage else {
        return Err(LxRefusal::NoStep);
    };
    let written = unlocked(
        &mut state.space.pages,
        thread.tid,
        &mut state.pi_queue,
        call,
        at,
    );
    unmark(state, slot, u128::from(written.at), u128::from(written.len));
    Ok(())
}

/// Resume: a wait that was released goes on, one for many places of which one was released or refused, or one for a lock that was
/// given.
pub fn resume(
    state: &mut LinuxState,
    slot: Slot,
    thread: &LxThread,
    call: &mut LxCall,
    stage: Stage,
) -> Result<(), LxRefusal>
    ensures goes { CallGoes (resume stage state.old slot thread.now call.old) state.old state.new slot thread.now thread.now call.old call.new result }
    ensures decided { IsDecided result }
{
    match stage {
        Stage::Wait => resumed(thread.tid, &state.queue, call),
        Stage::WaitMany => waitv_resumed(thread.tid, &mut state.queue, call),
        Stage::PiWait => lock_resumed(thread.tid, &state.pi_queue, call),
        _ => Err(LxRefusal::NoStep),
    }
}

/// Mark of this word. Where memory is wanting for what follows, nothing changes.
fn mark_word(
    state: &mut LinuxState,
    alloc: Global,
    slot: Slot,
    thread: &LxThread,
    call: &mut LxCall,
    asked: Mark,
) -> Result<(), LxRefusal>
    ensures { CallGoes (mark asked state.old slot thread.now call.old) state.old state.new slot thread.now thread.now call.old call.new result }
{
    let fault = mark_faults(&state.space.pages, thread.tid, asked);
    death_marked(alloc, fault, call)?;
    let done = marked(
        state.rules,
        &mut state.space.pages,
        thread.tid,
        &mut state.queue,
        &mut state.pi_queue,
        asked,
    );
    unmark(
        state,
        slot,
        u128::from(done.written.at),
        u128::from(done.written.len),
    );
    Ok(())
}

/// Mark: the word of a futex that the dying thread owns is orphaned or handed over. What is written ends the marks of other
/// threads.
pub fn mark(
    state: &mut LinuxState,
    alloc: Global,
    slot: Slot,
    thread: &LxThread,
    call: &mut LxCall,
    stage: Stage,
) -> Result<(), LxRefusal>
    ensures { CallGoes (machine.mark stage state.old slot thread.now call.old) state.old state.new slot thread.now thread.now call.old call.new result }
{
    match stage {
        Stage::Mark(asked) => mark_word(state, alloc, slot, thread, call, asked),
        _ => Err(LxRefusal::NoStep),
    }
}
