//! How a thread takes a signal, and how a call returns (signal(7), sigaction(2)).
ghost use Rattle.std.specs.Prelude.{◌≡◌, ◌<◌, Some, None, if◌then◌else◌};
ghost use Rattle.lx_machine.specs.Threads.{is_user};
ghost use Rattle.lx_machine.specs.Delivery.{Delivers, Gives, actions_by, delivered_from, ends_by, fate_by, forced, forced_by, is_reset, judged, kept_delivered, may_start_again, no_fate, out_of_call, own_mask, regs_after, removed_from, reset, return_thread, returned, segv_code, starts_again, take_pending, take_thread, taken_at_return, thread_by, unmasked};
ghost use Rattle.lx_machine.specs.Signal.{action_of, found_in, is_ignored, listed, with_action};

use a64_model::regs::Regs;
use linux_abi::LinuxSig;
use linux_abi::signals::{
    SEGV_ACCERR, SEGV_MAPERR, SIG_DFL, has_handler, is_default, is_ignore, resets, restarts_calls,
};
use lx_machine::calls::{Restart, Stage};
use lx_machine::label::PendingList;
use lx_machine::refusal::LxRefusal;
use lx_machine::signals::{Action, Fate, Origin, Pending, SigInfo, Taken, has_signal};
use lx_machine::threads::{Life, LxThread};
use lx_memory::Memory;
use lx_memory::queries::all_mapped;

/// A signal that a step names: the list in which it stands, and which it is.
pub type Named = (PendingList, LinuxSig);

/// The bytes of a page.
const PAGE: u64 = 4096;

/// Back to the instruction before, modulo 2^64.
const BACK: u64 = u64::MAX - 3;

/// Nothing follows.
fn no_fate() -> Fate
    ensures { result ≡ no_fate }
{
    Fate {
        ends: None,
        forgets: None,
    }
}

/// The guest ends by this signal.
fn ends_by(signal: LinuxSig) -> Fate
    ensures { result ≡ ends_by signal }
{
    Fate {
        ends: Some(signal),
        forgets: None,
    }
}

/// The action of a signal.
pub fn action_of(actions: &[Action; 64], signal: LinuxSig) -> Action
    ensures { result ≡ action_of actions.now signal }
{
    actions[(signal.number() - 1) as usize]
}

/// Sets the action of a signal.
pub fn set_action(actions: &mut [Action; 64], signal: LinuxSig, action: Action)
    ensures { actions.new ≡ with_action actions.old signal action }
{
    actions[(signal.number() - 1) as usize] = action;
}

/// Whether the signal is ignored, or dropped by default.
pub fn is_ignored(action: Action, signal: LinuxSig) -> bool
    ensures { result ≡ is_ignored action signal }
{
    is_ignore(action.handler) || (is_default(action.handler) && signal.is_dropped_by_default())
}

/// Whether SA_RESETHAND is set, and a handler is to run.
fn is_reset(action: Action) -> bool
    ensures { result ≡ is_reset action }
{
    has_handler(action.handler) && resets(action.flags)
}

/// The action with the default handler.
fn reset(action: Action) -> Action
    ensures { result ≡ reset action }
{
    Action {
        handler: SIG_DFL,
        ..action
    }
}

/// What becomes of the thread: where a handler is to run, it is to get its frame, and its mark ends.
fn set_taken(action: Action, thread: &mut LxThread, info: SigInfo)
    ensures { thread.new ≡ thread_by action thread.old info }
{
    if has_handler(action.handler) {
        thread.taken = Some(Taken { info, action });
        thread.mark = None;
    }
}

/// What becomes of the actions: SA_RESETHAND makes the handler the default one.
fn reset_in(action: Action, actions: &mut [Action; 64], signal: LinuxSig)
    ensures { actions.new ≡ actions_by action actions.old signal }
{
    if is_reset(action) {
        set_action(actions, signal, reset(action));
    }
}

/// What follows of a delivered signal.
fn fate_by(action: Action, signal: LinuxSig) -> Fate
    ensures { result ≡ fate_by action signal }
{
    let drops = signal.is_dropped_by_default();
    let ends = if is_default(action.handler) && !drops {
        Some(signal)
    } else {
        None
    };
    let forgets = if is_reset(action) && drops {
        Some(signal)
    } else {
        None
    };
    Fate { ends, forgets }
}

/// A signal is delivered by this action.
fn deliver_by(
    action: Action,
    actions: &mut [Action; 64],
    thread: &mut LxThread,
    info: SigInfo,
) -> Fate
    ensures thread { thread.new ≡ thread_by action thread.old info }
    ensures actions { actions.new ≡ actions_by action actions.old info.signal }
    ensures fate { result ≡ fate_by action info.signal }
{
    set_taken(action, thread, info);
    reset_in(action, actions, info.signal);
    fate_by(action, info.signal)
}

/// A signal is delivered: it ends the guest or is dropped by default, or is ignored, or its handler is to run.
fn deliver(actions: &mut [Action; 64], thread: &mut LxThread, info: SigInfo) -> Fate
    ensures thread { thread.new ≡ thread_by (action_of actions.old info.signal) thread.old info }
    ensures actions { actions.new ≡ actions_by (action_of actions.old info.signal) actions.old info.signal }
    ensures fate { result ≡ fate_by (action_of actions.old info.signal) info.signal }
{
    let action = action_of(actions, info.signal);
    deliver_by(action, actions, thread, info)
}

/// The pending signal of this number, if a thread with this mask may take it.
fn found_among(mask: u64, infos: &Pending, signal: LinuxSig) -> Option<SigInfo>
    ensures { result ≡ found_in mask infos.now signal }
{
    if infos.may_take(mask, signal) {
        infos.first(signal)
    } else {
        None
    }
}

/// The pending signal of this number, if a thread with this mask may take it from the list (signal(7)).
pub fn found(
    mask: u64,
    own: &Pending,
    shared: &Pending,
    list: PendingList,
    signal: LinuxSig,
) -> Option<SigInfo>
    ensures { result ≡ found_in mask (listed own.now shared.now list) signal }
{
    match list {
        PendingList::Own => found_among(mask, own, signal),
        PendingList::Shared => found_among(mask, shared, signal),
    }
}

/// The signal leaves its list, the thread's own or the shared one.
pub fn remove_from(thread: &mut LxThread, shared: &mut Pending, list: PendingList, info: SigInfo)
    ensures thread { thread.new ≡ (removed_from thread.old shared.old list info).thread }
    ensures shared { shared.new ≡ (removed_from thread.old shared.old list info).pending }
{
    match list {
        PendingList::Own => thread.pending.remove(info.signal),
        PendingList::Shared => shared.remove(info.signal),
    }
}

/// The signal leaves its list, and is delivered.
fn take_out(
    actions: &mut [Action; 64],
    thread: &mut LxThread,
    shared: &mut Pending,
    list: PendingList,
    info: SigInfo,
) -> Fate
    ensures { Gives (delivered_from actions.old thread.old shared.old list info) thread.new shared.new actions.new result }
{
    remove_from(thread, shared, list, info);
    deliver(actions, thread, info)
}

/// The thread takes this signal, which it may take.
fn take(
    actions: &mut [Action; 64],
    thread: &mut LxThread,
    shared: &mut Pending,
    list: PendingList,
    signal: LinuxSig,
) -> Result<Fate, LxRefusal>
    ensures { Delivers (take_pending actions.old thread.old shared.old list signal) thread.old thread.new shared.old shared.new actions.old actions.new result }
{
    match found(thread.mask, &thread.pending, shared, list, signal) {
        Some(info) => Ok(take_out(actions, thread, shared, list, info)),
        None => Err(LxRefusal::NoStep),
    }
}

/// The registers after a call: it has this result, or starts again with this first argument.
fn set_regs(again: bool, regs: &mut Regs, first: u64, n: u64)
    ensures { regs.new ≡ regs_after again regs.old first n }
{
    if again {
        regs.x[0] = first;
        regs.pc = regs.pc.wrapping_add(BACK);
    } else {
        regs.x[0] = n;
    }
}

/// The call is over: it has this result, or starts again with this first argument.
fn leave_call(again: bool, thread: &mut LxThread, first: u64, n: u64)
    ensures { thread.new ≡ out_of_call thread.old (regs_after again thread.old.regs first n) }
{
    set_regs(again, &mut thread.regs, first, n);
    thread.call = None;
}

/// The mask that a call gives back when it returns.
pub fn own_mask(mask: u64, saved: Option<u64>) -> u64
    ensures { result ≡ own_mask mask saved }
{
    match saved {
        Some(saved) => saved,
        None => mask,
    }
}

/// The thread's mask is again what it was before the call.
fn unmask(thread: &mut LxThread)
    ensures { thread.new ≡ unmasked thread.old }
{
    thread.mask = own_mask(thread.mask, thread.saved_mask);
    thread.saved_mask = None;
}

/// Return, where the named signal is taken.
fn return_taking(
    again: bool,
    actions: &mut [Action; 64],
    thread: &mut LxThread,
    shared: &mut Pending,
    first: u64,
    n: u64,
    list: PendingList,
    signal: LinuxSig,
) -> Result<Fate, LxRefusal>
    ensures { Delivers (taken_at_return actions.old (out_of_call thread.old (regs_after again thread.old.regs first n)) shared.old (Some (list, signal))) thread.old thread.new shared.old shared.new actions.old actions.new result }
{
    let mask = own_mask(thread.mask, thread.saved_mask);
    let Some(info) = found(mask, &thread.pending, shared, list, signal) else {
        return Err(LxRefusal::NoStep);
    };
    leave_call(again, thread, first, n);
    unmask(thread);
    Ok(take_out(actions, thread, shared, list, info))
}

/// Return, where no signal may be taken.
fn return_quietly(
    again: bool,
    actions: &[Action; 64],
    thread: &mut LxThread,
    shared: &Pending,
    first: u64,
    n: u64,
) -> Result<Fate, LxRefusal>
    ensures { Delivers (taken_at_return actions.now (out_of_call thread.old (regs_after again thread.old.regs first n)) shared.now None) thread.old thread.new shared.now shared.now actions.now actions.now result }
{
    let mask = own_mask(thread.mask, thread.saved_mask);
    if thread.pending.has_unblocked(mask) || shared.has_unblocked(mask) {
        return Err(LxRefusal::NoStep);
    }
    leave_call(again, thread, first, n);
    unmask(thread);
    Ok(no_fate())
}

/// Return, where no signal is kept that is to be delivered: the named signal is taken, and none is named exactly where none
/// may be taken.
fn settle(
    again: bool,
    actions: &mut [Action; 64],
    thread: &mut LxThread,
    shared: &mut Pending,
    first: u64,
    n: u64,
    named: Option<Named>,
) -> Result<Fate, LxRefusal>
    ensures { Delivers (taken_at_return actions.old (out_of_call thread.old (regs_after again thread.old.regs first n)) shared.old named) thread.old thread.new shared.old shared.new actions.old actions.new result }
{
    match named {
        Some((list, signal)) => return_taking(
            again, actions, thread, shared, first, n, list, signal,
        ),
        None => return_quietly(again, actions, thread, shared, first, n),
    }
}

/// Whether a call whose wait was ended by a signal that is delivered by this action starts again.
fn starts_again(restarts: Restart, action: Action) -> bool
    ensures { result ≡ starts_again restarts action }
{
    match restarts {
        Restart::Never => false,
        Restart::AsAsked => has_handler(action.handler) && restarts_calls(action.flags),
        Restart::Always => true,
    }
}

/// Whether it starts again where the signal isn't to be delivered any more.
fn may_start_again(restarts: Restart) -> bool
    ensures { result ≡ may_start_again restarts }
{
    match restarts {
        Restart::Never => false,
        Restart::AsAsked | Restart::Always => true,
    }
}

/// Return, where the kept signal is still to be delivered: it is delivered with the call's mask, and none is named.
fn return_kept(
    restarts: Restart,
    actions: &mut [Action; 64],
    thread: &mut LxThread,
    shared: &Pending,
    info: SigInfo,
    first: u64,
    n: u64,
    named: Option<Named>,
) -> Result<Fate, LxRefusal>
    ensures { Delivers (kept_delivered restarts actions.old thread.old shared.now info first n named) thread.old thread.new shared.now shared.now actions.old actions.new result }
{
    if named.is_some() {
        return Err(LxRefusal::NoStep);
    }
    let again = starts_again(restarts, action_of(actions, info.signal));
    leave_call(again, thread, first, n);
    Ok(deliver(actions, thread, info))
}

/// Return, by the signal that ended the call's wait.
fn return_with(
    restarts: Restart,
    actions: &mut [Action; 64],
    thread: &mut LxThread,
    shared: &mut Pending,
    first: u64,
    n: u64,
    named: Option<Named>,
    kept: Option<SigInfo>,
) -> Result<Fate, LxRefusal>
    ensures { Delivers (returned restarts actions.old thread.old shared.old first n named kept) thread.old thread.new shared.old shared.new actions.old actions.new result }
{
    match kept {
        Some(info) if is_ignored(action_of(actions, info.signal), info.signal) => {
            let again = may_start_again(restarts);
            settle(again, actions, thread, shared, first, n, named)
        }
        Some(info) => return_kept(restarts, actions, thread, shared, info, first, n, named),
        None => settle(false, actions, thread, shared, first, n, named),
    }
}

/// Return, of a thread whose call is at this stage: x0 has the result, or the call starts again, as `restarts` says. The
/// signal that ended its wait is delivered, and then none is named; else the mask is given back, and the signal that is taken
/// is named, and none exactly where none may be taken (signal(7)). What follows of a taken signal is answered.
pub fn return_thread(
    restarts: Restart,
    stage: Stage,
    actions: &mut [Action; 64],
    thread: &mut LxThread,
    shared: &mut Pending,
    named: Option<Named>,
) -> Result<Fate, LxRefusal>
    ensures { Delivers (return_thread restarts stage actions.old shared.old named thread.old) thread.old thread.new shared.old shared.new actions.old actions.new result }
{
    let Some(call) = &thread.call else {
        return Err(LxRefusal::NoStep);
    };
    let Stage::Return = stage else {
        return Err(LxRefusal::NoStep);
    };
    let Some(n) = call.result else {
        return Err(LxRefusal::NoStep);
    };
    let first = call.arguments[0];
    let kept = call.kept;
    return_with(restarts, actions, thread, shared, first, n, named, kept)
}

/// The code of a trap: that of SIGSEGV tells whether the address's page is mapped now (sigaction(2)).
fn segv_code(memory: &Memory, origin: Origin, code: i32) -> i32
    ensures { result ≡ segv_code memory.now origin code }
{
    match origin {
        Origin::Address(at) => {
            if all_mapped(memory, at / PAGE, 1) {
                SEGV_ACCERR
            } else {
                SEGV_MAPERR
            }
        }
        Origin::Sender { .. } => code,
    }
}

/// The information of a trap as its signal is taken.
fn judged(memory: &Memory, info: SigInfo) -> SigInfo
    ensures { result ≡ judged memory.now info }
{
    let code = if info.signal.number() == LinuxSig::SIGSEGV.number() {
        segv_code(memory, info.origin, info.code)
    } else {
        info.code
    };
    SigInfo {
        signal: info.signal,
        code,
        origin: info.origin,
    }
}

/// Take, of a trapped thread by the action of its trap's signal: a signal that is blocked, ignored or at its default ends the
/// guest; else its handler is to run.
fn force_by(
    action: Action,
    actions: &mut [Action; 64],
    memory: &Memory,
    thread: &mut LxThread,
    shared: &Pending,
    trap: SigInfo,
) -> Fate
    ensures { Gives (forced_by action actions.old memory.now thread.old shared.now trap) thread.new shared.now actions.new result }
{
    if has_signal(thread.mask, trap.signal) || !has_handler(action.handler) {
        return ends_by(trap.signal);
    }
    thread.trap = None;
    deliver_by(action, actions, thread, judged(memory, trap))
}

/// Take, of a trapped thread.
fn force(
    actions: &mut [Action; 64],
    memory: &Memory,
    thread: &mut LxThread,
    shared: &Pending,
    trap: SigInfo,
    signal: LinuxSig,
) -> Result<Fate, LxRefusal>
    ensures { Delivers (forced actions.old memory.now thread.old shared.now trap signal) thread.old thread.new shared.now shared.now actions.old actions.new result }
{
    if trap.signal.number() != signal.number() {
        return Err(LxRefusal::NoStep);
    }
    let action = action_of(actions, trap.signal);
    Ok(force_by(action, actions, memory, thread, shared, trap))
}

/// Whether the thread is live and in no call, and has no trap, no signal to be delivered, and no doom.
pub fn is_user(thread: &LxThread) -> bool
    ensures { result ≡ is_user thread.now }
{
    matches!(thread.life, Life::Live)
        && thread.call.is_none()
        && thread.trap.is_none()
        && thread.taken.is_none()
        && !thread.is_doomed
}

/// Take, of a thread: the signal of its trap, named as its own, and else a pending signal of a thread in no call (signal(7)).
/// What follows of it is answered.
pub fn take_thread(
    actions: &mut [Action; 64],
    memory: &Memory,
    thread: &mut LxThread,
    shared: &mut Pending,
    list: PendingList,
    signal: LinuxSig,
) -> Result<Fate, LxRefusal>
    ensures { Delivers (take_thread actions.old memory.now shared.old list signal thread.old) thread.old thread.new shared.old shared.new actions.old actions.new result }
{
    match (thread.trap, list) {
        (Some(trap), PendingList::Own) => force(actions, memory, thread, shared, trap, signal),
        (Some(_), PendingList::Shared) => Err(LxRefusal::NoStep),
        (None, _) if is_user(thread) => take(actions, thread, shared, list, signal),
        (None, _) => Err(LxRefusal::NoStep),
    }
}
