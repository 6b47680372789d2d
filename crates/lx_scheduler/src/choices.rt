//! What the machine leaves open, and the schedule chooses: the signal that is taken, and the interests that an epoll reports.
use crate::machine::Machine;
use crate::schedule::Schedule;
use linux_abi::{Call, LinuxSig};
use lx_epolls::epoll_wait::push_due;
use lx_machine::buffer::NoMemory;
use lx_machine::calls::LxCall;
use lx_machine::files::{FileKind, Files, Interest};
use lx_machine::label::{PendingList, Pick, Picks};
use lx_machine::threads::LxThread;
use std::alloc::Global;

/// A signal, and the list in which it is pending.
pub type Named = (PendingList, LinuxSig);

/// The standard signals, 1 to 31, signal n as bit n - 1.
const STANDARD: u64 = 0x7fff_ffff;

/// Those of a list's signals that may come first, signal n as bit n - 1: all standard signals, and the lowest real-time signal
/// (signal(7)).
fn first_ones(signals: u64) -> u64 {
    let real_time = signals & !STANDARD;
    (signals & STANDARD) | (real_time & real_time.wrapping_neg())
}

/// One of a list's signals that may come first, if there is one: in rounds the lowest.
fn any_of(schedule: &mut Schedule, signals: u64) -> Option<LinuxSig> {
    let mut left = first_ones(signals);
    let before = schedule.choose(u64::from(left.count_ones().max(1)));
    for _ in 0..before {
        left &= left.wrapping_sub(1);
    }
    LinuxSig::new(u64::from(left.trailing_zeros()) + 1)
}

/// A signal that a thread with this mask takes, if there is one: in rounds the lowest of its own, or else of all threads.
pub fn signal_with(
    machine: &Machine,
    schedule: &mut Schedule,
    thread: &LxThread,
    mask: u64,
) -> Option<Named> {
    let own = thread.pending.bits() & !mask;
    let shared = machine.state().pending.bits() & !mask;
    if own != 0 && (shared == 0 || schedule.choose(2) == 0) {
        Some((PendingList::Own, any_of(schedule, own)?))
    } else {
        Some((PendingList::Shared, any_of(schedule, shared)?))
    }
}

/// The interests of the epoll that a call holds, if it holds one.
fn held_interests<'a>(files: &'a Files, call: &LxCall) -> Option<&'a [Interest]> {
    let file = files.files.get(call.held? as usize)?.as_ref()?;
    match file.kind {
        FileKind::Epoll(number) => {
            let interests = files.epolls.get(number as usize)?.as_ref()?;
            Some(interests.as_slice())
        }
        _ => None,
    }
}

/// Puts picks into an order of the schedule: in rounds they stay.
fn shuffle(schedule: &mut Schedule, picks: &mut [Pick]) {
    let count = picks.len();
    for place in 0..count {
        let other = place + schedule.choose((count - place) as u64) as usize;
        if place < picks.len() && other < picks.len() {
            picks.swap(place, other);
        }
    }
}

/// Of all interests that are due as many as the call takes, in an order of the schedule.
fn picks_among(
    alloc: Global,
    schedule: &mut Schedule,
    files: &Files,
    call: &LxCall,
    interests: &[Interest],
) -> Result<Picks, NoMemory> {
    let mut picks = Vec::new(alloc);
    push_due(&mut picks, files, u32::MAX, interests)?;
    shuffle(schedule, &mut picks);
    picks.truncate(call.low_argument(2) as usize);
    Ok(Picks::from_vec(picks))
}

/// What an epoll_pwait reports by the schedule, if the call is one.
pub fn any_picks(
    alloc: Global,
    schedule: &mut Schedule,
    files: &Files,
    call: &LxCall,
) -> Result<Option<Picks>, NoMemory> {
    let Some(Call::EpollPwait) = Call::new(call.number) else {
        return Ok(None);
    };
    match held_interests(files, call) {
        Some(interests) => Ok(Some(picks_among(alloc, schedule, files, call, interests)?)),
        None => Ok(None),
    }
}
