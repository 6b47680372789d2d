//! Signals that are sent (kill(2), tkill(2)), and signals that are pending no more.
ghost use Rattle.std.specs.Prelude.{◌≡◌, ◌≤◌, ◌*◌, length, sum_by, false, OnOk, OnErr};
ghost use Rattle.lx_machine.specs.Calls.{first_refusal};
ghost use Rattle.lx_machine.specs.Lists.{at_place};
ghost use Rattle.lx_machine.specs.Kill.{answered_by, has_room, has_room_at, is_no_signal, is_no_tid, is_over_limit, is_own_process, kill_refusals, kill_sending, pending_after, process_sending, tgkill_refusals, tgkill_sending, thread_sending, threads_after, tkill_refusals, tkill_sending};
ghost use Rattle.lx_machine.specs.Signal.{can_be_sent, forgotten, is_live_as, is_not_kept, live_slot, queued_signals, queued_signals_at, sent, sent_at, sent_by, sent_to};

use crate::taking::{action_of, is_ignored};
use linux_abi::signals::{SI_TKILL, SI_USER};
use linux_abi::{LinuxErrno, LinuxSig};
use lx_machine::buffer::NoMemory;
use lx_machine::calls::{LxCall, refused_if};
use lx_machine::signals::{Action, Origin, Pending, Sending, SigInfo};
use lx_machine::state::{LinuxState, Slot};
use lx_machine::thread_table::Threads;
use lx_machine::threads::{Life, LxThread};

/// The process, and its user.
const OWN_ID: u32 = 1000;

/// The number of the last signal.
const LAST_SIGNAL: u32 = 64;

/// The most queued real-time signals.
const MOST_QUEUED: usize = 64;

/// What the process sends to itself, with this code (sigaction(2), siginfo_t).
pub fn sent_by(code: i32, signal: LinuxSig) -> SigInfo
    ensures { result ≡ sent_by code signal }
{
    SigInfo {
        signal,
        code,
        origin: Origin::Sender {
            pid: OWN_ID,
            uid: OWN_ID,
        },
    }
}

/// Whether a signal that is sent to a list is not kept: it is ignored, or a standard one that is pending already.
fn is_not_kept(actions: &[Action; 64], info: SigInfo, pending: &Pending) -> bool
    ensures { result ≡ is_not_kept actions.now info pending.now }
{
    is_ignored(action_of(actions, info.signal), info.signal)
        || (!info.signal.is_real_time() && pending.has(info.signal))
}

/// Whether a list has room for a signal that is sent to it, if it is kept.
pub fn can_be_sent(actions: &[Action; 64], info: SigInfo, pending: &Pending) -> bool
    ensures { result ≡ can_be_sent actions.now info pending.now }
{
    is_not_kept(actions, info, pending) || !pending.is_full()
}

/// A signal is sent to a list (signal(7)): it isn't kept where it is ignored, or pending already and a standard one; else it stands
/// behind the others. `NoMemory`: the list has no room for it; then nothing changes.
pub fn send(actions: &[Action; 64], info: SigInfo, pending: &mut Pending) -> Result<(), NoMemory>
    ensures ok { OnOk result (pending.new ≡ sent actions.now info pending.old) }
    ensures err { OnErr result (pending.new ≡ pending.old) }
    ensures full { OnErr result (can_be_sent actions.now info pending.old ≡ false) }
{
    if is_not_kept(actions, info, pending) {
        return Ok(());
    }
    pending.push(info)
}

/// How many real-time signals are pending for the thread in a place.
fn queued_at(place: &Option<LxThread>) -> usize
    ensures value { result ≡ queued_signals_at place.now }
    ensures most { result ≤ 95 }
{
    match place {
        Some(thread) => thread.pending.real_time_count(),
        None => 0,
    }
}

/// How many real-time signals are pending for threads.
fn queued_by(places: &[Option<LxThread>]) -> usize
    requires { length places.now ≤ 128 }
    ensures value { result ≡ sum_by queued_signals_at places.now }
    ensures most { result ≤ 95 * length places.now }
{
    match places {
        [] => 0,
        [place, rest @ ..] => queued_at(place) + queued_by(rest),
    }
}

/// How many real-time signals are pending for all threads and the process.
pub fn queued(threads: &[Option<LxThread>], shared: &Pending) -> usize
    requires { length threads.now ≤ 128 }
    ensures { result ≡ queued_signals threads.now shared.now }
{
    queued_by(threads) + shared.real_time_count()
}

/// The signal, if one is given, is pending nowhere any more: neither for the process nor for any thread.
pub fn forget(signal: Option<LinuxSig>, state: &mut LinuxState)
    ensures { state.new ≡ forgotten signal state.old }
{
    if let Some(signal) = signal {
        state.pending.remove_all(signal);
        state.threads.forget(signal);
    }
}

/// Whether a live thread with this tid is in the place.
fn is_live_as(tid: u32, place: &Option<LxThread>) -> bool
    ensures { result ≡ is_live_as tid place.now }
{
    match place {
        Some(thread) => thread.tid == tid && matches!(thread.life, Life::Live),
        None => false,
    }
}

/// The slot of the live thread with this tid, if there is one.
#[tactic(auto, unfolding(lx_machine::specs::Signal::live_slot))]
pub fn live_slot(tid: u32, threads: &[Option<LxThread>]) -> Option<usize>
    ensures { result ≡ live_slot tid threads.now }
{
    threads.iter().position(|place| is_live_as(tid, place))
}

/// A signal is sent to the thread in a place. `NoMemory`: its list has no room for it; then nothing changes.
fn send_at(
    actions: &[Action; 64],
    info: SigInfo,
    place: &mut Option<LxThread>,
) -> Result<(), NoMemory>
    ensures ok { OnOk result (place.new ≡ sent_at actions.now info place.old) }
    ensures err { OnErr result (place.new ≡ place.old) }
    ensures full { OnErr result (has_room_at actions.now info place.old ≡ false) }
{
    match place {
        Some(thread) => send(actions, info, &mut thread.pending),
        None => Ok(()),
    }
}

/// A signal is sent to the thread in this slot. `NoMemory`: its list has no room for it; then nothing changes.
#[tactic(auto, using(std::proofs::lemmas::List::set_past, crate::proofs::Placed::placed_back))]
fn send_to(
    slot: usize,
    actions: &[Action; 64],
    info: SigInfo,
    threads: &mut Threads,
) -> Result<(), NoMemory>
    ensures ok { OnOk result (threads.new ≡ sent_to slot actions.now info threads.old) }
    ensures err { OnErr result (threads.new ≡ threads.old) }
    ensures full { OnErr result (has_room_at actions.now info (at_place threads.old slot) ≡ false) }
{
    if slot >= threads.as_slice().len() {
        return Ok(());
    }
    match Slot::new(slot as u8) {
        Some(slot) => send_at(actions, info, threads.place(slot)),
        None => Ok(()),
    }
}

/// Whether the number is above that of the last signal.
fn is_no_signal(number: u32) -> bool
    ensures { result ≡ is_no_signal number }
{
    number > LAST_SIGNAL
}

/// Whether it is 0 or less, as a signed number.
fn is_not_positive(number: u32) -> bool
    ensures { result ≡ is_no_tid number }
{
    number == 0 || number >= 1 << 31
}

/// kill(2).
pub fn kill_refusal(call: &LxCall) -> Option<LinuxErrno>
    ensures { result ≡ first_refusal (kill_refusals call.now) }
{
    refused_if(is_no_signal(call.low_argument(1)), LinuxErrno::EINVAL)
}

/// tkill(2).
pub fn tkill_refusal(call: &LxCall) -> Option<LinuxErrno>
    ensures { result ≡ first_refusal (tkill_refusals call.now) }
{
    refused_if(
        is_not_positive(call.low_argument(0)) || is_no_signal(call.low_argument(1)),
        LinuxErrno::EINVAL,
    )
}

/// tgkill(2).
pub fn tgkill_refusal(call: &LxCall) -> Option<LinuxErrno>
    ensures { result ≡ first_refusal (tgkill_refusals call.now) }
{
    refused_if(
        is_not_positive(call.low_argument(0))
            || is_not_positive(call.low_argument(1))
            || is_no_signal(call.low_argument(2)),
        LinuxErrno::EINVAL,
    )
}

/// Whether it is the process, as kill(2) names it.
fn is_own_process(pid: u32) -> bool
    ensures { result ≡ is_own_process pid }
{
    pid == OWN_ID || pid == 0 || pid == u32::MAX - (OWN_ID - 1)
}

/// Whether it is a real-time signal, and no more of them can be queued.
fn is_over_limit(count: usize, signal: LinuxSig) -> bool
    ensures { result ≡ is_over_limit count signal }
{
    signal.is_real_time() && count >= MOST_QUEUED
}

/// What is sent to the process; without a signal it is only checked.
fn process_sending(count: usize, signal: Option<LinuxSig>) -> Sending
    ensures { result ≡ process_sending count signal }
{
    match signal {
        Some(signal) if is_over_limit(count, signal) => Sending::Refused(LinuxErrno::EAGAIN),
        Some(signal) => Sending::ToProcess(sent_by(SI_USER, signal)),
        None => Sending::Checked,
    }
}

/// What is sent to the live thread in this slot, if there is one; without a signal it is only checked.
fn thread_sending(count: usize, slot: Option<usize>, signal: Option<LinuxSig>) -> Sending
    ensures { result ≡ thread_sending count slot signal }
{
    match (slot, signal) {
        (None, _) => Sending::Refused(LinuxErrno::ESRCH),
        (Some(_), None) => Sending::Checked,
        (Some(_), Some(signal)) if is_over_limit(count, signal) => {
            Sending::Refused(LinuxErrno::EAGAIN)
        }
        (Some(slot), Some(signal)) => Sending::ToThread(slot, sent_by(SI_TKILL, signal)),
    }
}

/// What kill(2) sends, where so many real-time signals are queued.
pub fn kill_sending(count: usize, call: &LxCall) -> Sending
    ensures { result ≡ kill_sending count call.now }
{
    if is_own_process(call.low_argument(0)) {
        process_sending(count, LinuxSig::new(u64::from(call.low_argument(1))))
    } else {
        Sending::Refused(LinuxErrno::ESRCH)
    }
}

/// What tkill(2) sends, where so many real-time signals are queued.
pub fn tkill_sending(threads: &[Option<LxThread>], count: usize, call: &LxCall) -> Sending
    ensures { result ≡ tkill_sending threads.now count call.now }
{
    let slot = live_slot(call.low_argument(0), threads);
    thread_sending(count, slot, LinuxSig::new(u64::from(call.low_argument(1))))
}

/// What tgkill(2) sends, where so many real-time signals are queued.
pub fn tgkill_sending(threads: &[Option<LxThread>], count: usize, call: &LxCall) -> Sending
    ensures { result ≡ tgkill_sending threads.now count call.now }
{
    if call.low_argument(0) != OWN_ID {
        return Sending::Refused(LinuxErrno::ESRCH);
    }
    let slot = live_slot(call.low_argument(1), threads);
    thread_sending(count, slot, LinuxSig::new(u64::from(call.low_argument(2))))
}

/// The call is answered with 0, or refused.
pub fn answer_by(sending: Sending, call: &mut LxCall)
    ensures { call.new ≡ answered_by sending call.old }
{
    match sending {
        Sending::Refused(e) => call.refuse(e),
        _ => call.answer(0),
    }
}

/// It is sent. `NoMemory`: the list that gets it has no room for it; then nothing changes.
pub fn perform(
    sending: Sending,
    actions: &[Action; 64],
    threads: &mut Threads,
    shared: &mut Pending,
) -> Result<(), NoMemory>
    ensures shared { OnOk result (shared.new ≡ pending_after sending actions.now shared.old) }
    ensures threads { OnOk result (threads.new ≡ threads_after sending actions.now threads.old) }
    ensures shared_err { OnErr result (shared.new ≡ shared.old) }
    ensures threads_err { OnErr result (threads.new ≡ threads.old) }
    ensures full { OnErr result (has_room sending actions.now threads.old shared.old ≡ false) }
{
    match sending {
        Sending::ToProcess(info) => send(actions, info, shared),
        Sending::ToThread(slot, info) => send_to(slot, actions, info, threads),
        _ => Ok(()),
    }
}
