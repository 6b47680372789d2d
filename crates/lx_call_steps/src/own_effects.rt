//! Effect of a call that changes no other thread: on memory, on its own thread, and where memory runs short.
ghost use Rattle.std.proofs.Math.Bool.{not};
ghost use Rattle.std.specs.Bool.{OnFalse};
ghost use Rattle.std.specs.Prelude.{◌≡◌, ◌*◌, ◌&&◌, Some};
ghost use Rattle.linux_abi.specs.Call.{call_of};
ghost use Rattle.std.specs.Option.{option_or};
ghost use Rattle.lx_machine.specs.Threads.{after_write};
ghost use Rattle.lx_machine.specs.Getpid.{own_id};
ghost use Rattle.lx_machine.specs.Table.{rules};
ghost use Rattle.lx_call_steps.specs.Effects.{own_part, short_part, space_part, thread_part};
ghost use Rattle.lx_call_steps.specs.Effects.{own_effect_at};
ghost use Rattle.lx_call_steps.specs.Outcomes.{CallGoes};
ghost use Rattle.lx_call_steps.specs.Outcomes.{IsDecided};
ghost use Rattle.lx_call_steps.specs.Makes.{effect_makes};

use crate::file_steps;
use crate::life_steps::end_guest;
use crate::marks::unmark;
use linux_abi::Call;
use lx_calls::memory_calls::{PageRange, brk, madvise, mmap, mprotect, munmap, run_short};
use lx_calls::process_calls::uname;
use lx_clones::clones::set_robust_list;
use lx_machine::calls::{LxCall, Stage};
use lx_machine::refusal::LxRefusal;
use lx_machine::state::{LinuxState, Slot};
use lx_machine::threads::LxThread;
use lx_signal_calls::masks::{sigpending, sigprocmask};
use lx_signal_calls::sigreturn::sigreturn;
use lx_signal_calls::stacks::sigaltstack;
use std::alloc::Global;

/// The process and its user and group ids.
const OWN_ID: u64 = 1000;

/// The parent of the process.
const PARENT_ID: u64 = 1;

/// No pages.
const NO_PAGES: PageRange = PageRange { first: 0, count: 0 };

/// Ends the marks of other threads on pages that a call has given up or made zeros.
fn unmark_pages(state: &mut LinuxState, slot: Slot, range: PageRange)
    ensures { state.new ≡ record state.old { threads = after_write slot (range.first * 4096) (range.count * 4096) state.old.threads } }
{
    unmark(
        state,
        slot,
        u128::from(range.first) * 4096,
        u128::from(range.count) * 4096,
    );
}

/// What a memory call does.
fn memory_effect(
    state: &mut LinuxState,
    slot: Slot,
    thread: &LxThread,
    call: &mut LxCall,
    kind: Call,
) -> Result<(), LxRefusal>
    ensures goes { CallGoes (space_part (rules kind).effect state.old slot thread.now call.old) state.old state.new slot thread.now thread.now call.old call.new result }
    ensures decided { OnFalse (effect_makes (Some kind)) (IsDecided result) }
{
    let space = &mut state.space;
    let range = match kind {
        Call::Brk => brk(space, call)?,
        Call::Mmap => mmap(space, call)?,
        Call::Munmap => munmap(space, call),
        Call::Mprotect => {
            mprotect(space, call);
            NO_PAGES
        }
        Call::Madvise => madvise(space, call),
        _ => return Err(LxRefusal::NoStep),
    };
    unmark_pages(state, slot, range);
    Ok(())
}

/// What a call on its own thread does.
fn thread_effect(
    state: &mut LinuxState,
    alloc: Global,
    slot: Slot,
    thread: &mut LxThread,
    call: &mut LxCall,
    kind: Call,
) -> Result<(), LxRefusal>
    ensures goes { CallGoes (thread_part (rules kind).effect state.old slot thread.old call.old) state.old state.new slot thread.old thread.new call.old call.new result }
    ensures decided { OnFalse (effect_makes (Some kind)) (IsDecided result) }
{
    match kind {
        Call::SetTidAddress => {
            thread.clear_at = call.arguments[0];
            call.answer(u64::from(thread.tid));
        }
        Call::ExitGroup => end_guest(state, call),
        Call::Uname => uname(alloc, call)?,
        Call::SchedYield => call.answer(0),
        Call::Getppid => call.answer(PARENT_ID),
        Call::Gettid => call.answer(u64::from(thread.tid)),
        Call::Getpid | Call::Getuid | Call::Geteuid | Call::Getgid | Call::Getegid => {
            call.answer(OWN_ID);
        }
        Call::SetRobustList => set_robust_list(thread, call),
        Call::Sigaltstack => sigaltstack(alloc, thread.regs.sp, &mut thread.alt_stack, call)?,
        Call::RtSigprocmask => sigprocmask(alloc, &mut thread.mask, call)?,
        Call::RtSigpending => sigpending(
            alloc,
            thread.mask,
            &thread.pending,
            &state.pending,
            call,
        )?,
        Call::RtSigreturn => sigreturn(&mut thread.regs, &mut thread.mask, call),
        _ => return Err(LxRefusal::NoStep),
    }
    Ok(())
}

/// What a call on memory or on its own thread does.
fn past_files(
    state: &mut LinuxState,
    alloc: Global,
    slot: Slot,
    thread: &mut LxThread,
    call: &mut LxCall,
    kind: Call,
) -> Result<(), LxRefusal>
    ensures goes { CallGoes (option_or (space_part (rules kind).effect state.old slot thread.old call.old) (thread_part (rules kind).effect state.old slot thread.old call.old)) state.old state.new slot thread.old thread.new call.old call.new result }
    ensures decided { OnFalse (effect_makes (Some kind)) (IsDecided result) }
{
    match memory_effect(state, slot, thread, call, kind) {
        Err(LxRefusal::NoStep) => thread_effect(state, alloc, slot, thread, call, kind),
        done => done,
    }
}

/// What a call of this kind does, where memory is ample.
fn effect_as(
    state: &mut LinuxState,
    alloc: Global,
    slot: Slot,
    thread: &mut LxThread,
    call: &mut LxCall,
    kind: Call,
) -> Result<(), LxRefusal>
    ensures goes { CallGoes (own_part (rules kind).effect state.old slot thread.old call.old) state.old state.new slot thread.old thread.new call.old call.new result }
    ensures decided { OnFalse (effect_makes (Some kind)) (IsDecided result) }
{
    match file_steps::effect(state, alloc, slot, thread, call, kind) {
        Err(LxRefusal::NoStep) => past_files(state, alloc, slot, thread, call, kind),
        done => done,
    }
}

/// What a call of this kind does, where memory runs short.
fn short_as(
    state: &LinuxState,
    slot: Slot,
    thread: &LxThread,
    call: &mut LxCall,
    kind: Call,
) -> Result<(), LxRefusal>
    ensures goes { CallGoes (short_part (rules kind) state.now slot thread.now call.old) state.now state.now slot thread.now thread.now call.old call.new result }
    ensures decided { IsDecided result }
{
    run_short(&state.space, call, kind)
}

/// Effect of a call that changes no other thread, where memory is ample or, if `short`, where it runs short.
pub fn effect(
    state: &mut LinuxState,
    alloc: Global,
    slot: Slot,
    thread: &mut LxThread,
    call: &mut LxCall,
    stage: Stage,
    short: bool,
) -> Result<(), LxRefusal>
    ensures goes { CallGoes (own_effect_at short stage state.old slot thread.old call.old) state.old state.new slot thread.old thread.new call.old call.new result }
    ensures decided { OnFalse (not short && effect_makes (call_of call.old.number)) (IsDecided result) }
{
    let Stage::Effect = stage else {
        return Err(LxRefusal::NoStep);
    };
    match Call::new(call.number) {
        Some(kind) if short => short_as(state, slot, thread, call, kind),
        Some(kind) => effect_as(state, alloc, slot, thread, call, kind),
        None => Err(LxRefusal::NoStep),
    }
}
