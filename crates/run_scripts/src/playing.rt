//! How a script is played.
ghost use Rattle.std.specs.Prelude.{◌≡◌, ◌≢◌, ◌↔◌, ◌≤◌, IfOk, IfErr, IsOk};
ghost use Rattle.run_scripts.specs.declared.seen.Seen.TheVariants as seen;

use crate::playable::{InCall, NoStart, Playable, ThreadSeen};
use crate::script::{Deed, Guest, Line, Play, Register, Script, Statement, Turns};
use crate::seen::Seen;
use std::alloc::{AllocError, Global};

/// More steps than one line takes of one thread.
const MANY: u64 = 1_000_000;

/// A line that doesn't hold.
#[derive(Clone, Copy)]
pub struct Miss {
    pub line: usize,
    pub expected: Seen,
    pub found: Seen,
}

/// Why a script isn't played to its end.
#[derive(Clone, Copy)]
pub enum Stopped {
    NoMemory,
    /// A guest doesn't start, since the machine refuses its program.
    Refused,
    /// A line doesn't hold.
    Missed(Miss),
}

impl From<AllocError> for Stopped {
    fn from(_: AllocError) -> Stopped {
        Stopped::NoMemory
    }
}

impl From<Miss> for Stopped {
    fn from(miss: Miss) -> Stopped {
        Stopped::Missed(miss)
    }
}

impl From<NoStart> for Stopped {
    fn from(why: NoStart) -> Stopped {
        match why {
            NoStart::NoMemory => Stopped::NoMemory,
            NoStart::Refused => Stopped::Refused,
        }
    }
}

/// The call that the thread in a slot is in.
fn call_of<P: Playable>(machine: &P, slot: u8) -> Option<InCall> {
    machine.thread(slot)?.call
}

/// The thread comes to this call: it takes steps until it has entered it. It leaves the one that it is in.
fn enters<P: Playable>(
    machine: &mut P,
    alloc: Global,
    slot: u8,
    wanted: u64,
) -> Result<Seen, AllocError> {
    let mut left = call_of(machine, slot).is_none();
    for _ in 0..MANY {
        match call_of(machine, slot) {
            Some(call) if left && call.number == wanted => return Ok(Seen::Call(wanted)),
            Some(_) => {}
            None => left = true,
        }
        if !machine.step(alloc, slot)? {
            return Ok(Seen::Nothing);
        }
    }
    Ok(Seen::Nothing)
}

/// Takes steps of a thread, at most so many, and says how many it had.
fn steps<P: Playable>(
    machine: &mut P,
    alloc: Global,
    slot: u8,
    most: u64,
) -> Result<u64, AllocError>
    ensures { IfOk result (λ taken. taken ≤ most) }
{
    for taken in 0..most {
        if !machine.step(alloc, slot)? {
            return Ok(taken);
        }
    }
    Ok(most)
}

/// A thread takes steps until it has none.
fn rests<P: Playable>(machine: &mut P, alloc: Global, slot: u8) -> Result<Seen, AllocError> {
    if steps(machine, alloc, slot, MANY)? < MANY {
        Ok(Seen::Step(false))
    } else {
        Ok(Seen::NoRest)
    }
}

/// What x0 of a thread answers, once its call is over.
fn answer_of<P: Playable>(machine: &P, slot: u8) -> Seen {
    answer_if_any(machine.register(slot, Register::X(0)))
}

/// What the call of a thread answers, once it has taken its steps.
fn answers<P: Playable>(machine: &mut P, alloc: Global, slot: u8) -> Result<Seen, AllocError> {
    for _ in 0..MANY {
        if call_of(machine, slot).is_none() {
            return Ok(answer_of(machine, slot));
        }
        if !machine.step(alloc, slot)? {
            return Ok(Seen::Nothing);
        }
    }
    Ok(Seen::NoRest)
}

/// An answer, where there is one.
fn answer_if_any(value: Option<u64>) -> Seen {
    match value {
        Some(value) => Seen::Answer(value.cast_signed()),
        None => Seen::Nothing,
    }
}

/// A number, where there is one.
fn number_if_any(value: Option<u64>) -> Seen {
    match value {
        Some(value) => Seen::Number(value),
        None => Seen::Nothing,
    }
}

/// What is expected of a thread.
fn expected_of_thread(deed: Deed) -> Seen {
    match deed {
        Deed::Enters(call) => Seen::Call(call),
        Deed::Steps(count) => Seen::Steps(count),
        Deed::Rests | Deed::Stuck | Deed::Lacks(_) => Seen::Step(false),
        Deed::Takes(_) => Seen::Step(true),
        Deed::Answers(value) | Deed::Due(value) => Seen::Answer(value),
        Deed::Has(_, value) | Deed::Deadline(value) | Deed::Marks(value) | Deed::Blocks(value) => {
            Seen::Number(value)
        }
        Deed::Tid(tid) => Seen::Number(u64::from(tid)),
        Deed::Unmarked => Seen::Nothing,
        Deed::Lives => Seen::Thread(true),
        Deed::Absent => Seen::Thread(false),
    }
}

/// What is found in a thread that is there: of a deed that asks for no more, that it is there.
fn found_in(thread: ThreadSeen, deed: Deed) -> Seen {
    match deed {
        Deed::Marks(_) | Deed::Unmarked => number_if_any(thread.marked),
        Deed::Tid(_) => Seen::Number(u64::from(thread.tid)),
        Deed::Blocks(_) => Seen::Number(thread.blocked),
        _ => Seen::Thread(true),
    }
}

/// What is found of the thread in a slot, as it stands.
fn found_in_slot<P: Playable>(machine: &P, slot: u8, deed: Deed) -> Seen {
    match deed {
        Deed::Has(register, _) => number_if_any(machine.register(slot, register)),
        Deed::Due(_) => match call_of(machine, slot) {
            Some(call) => answer_if_any(call.due),
            None => Seen::Nothing,
        },
        Deed::Deadline(_) => match call_of(machine, slot) {
            Some(call) => number_if_any(call.deadline),
            None => Seen::Nothing,
        },
        _ => match machine.thread(slot) {
            Some(thread) => found_in(thread, deed),
            None => Seen::Thread(false),
        },
    }
}

/// What is found of a thread, once it has done what it is to do.
fn found_of_thread<P: Playable>(
    machine: &mut P,
    alloc: Global,
    slot: u8,
    deed: Deed,
) -> Result<Seen, AllocError> {
    match deed {
        Deed::Enters(call) => enters(machine, alloc, slot, call),
        Deed::Steps(count) => Ok(Seen::Steps(steps(machine, alloc, slot, count)?)),
        Deed::Rests => rests(machine, alloc, slot),
        Deed::Stuck => Ok(Seen::Step(machine.step(alloc, slot)?)),
        Deed::Takes(step) | Deed::Lacks(step) => Ok(Seen::Step(machine.take(alloc, slot, step)?)),
        Deed::Answers(_) => answers(machine, alloc, slot),
        _ => Ok(found_in_slot(machine, slot, deed)),
    }
}

/// The first byte that differs from the one that is expected in its place, or else how many bytes were found.
fn difference(expected: &[u8], found: &[u8]) -> Seen
    ensures { result ≢ seen.Same }
{
    for place in 0..expected.len().min(found.len()) {
        if expected[place] != found[place] {
            return Seen::Byte(place, found[place]);
        }
    }
    Seen::Length(found.len() as u64)
}

/// The bytes as they are expected, or else where they differ.
fn compared(expected: &[u8], found: &[u8]) -> Seen
    ensures { (result ≡ seen.Same) ↔ (expected.now ≡ found.now) }
{
    if expected == found {
        Seen::Same
    } else {
        difference(expected, found)
    }
}

/// The number of so many bytes at an address.
fn number_at<P: Playable>(machine: &P, at: u64, count: usize) -> Seen
    requires { count ≤ 8 }
{
    let mut bytes = [0; 8];
    if machine.load(at, &mut bytes[..count]) {
        Seen::Number(u64::from_le_bytes(bytes))
    } else {
        Seen::Nothing
    }
}

/// Where the bytes from an address on differ from those that are expected, if they do.
fn bytes_at<P: Playable>(
    machine: &P,
    alloc: Global,
    at: u64,
    expected: &[u8],
) -> Result<Seen, AllocError> {
    let mut found = vec![in alloc; 0; expected.len()]?;
    if machine.load(at, &mut found) {
        Ok(compared(expected, &found))
    } else {
        Ok(Seen::Nothing)
    }
}

/// What a statement expects.
fn expected_by(statement: &Statement) -> Seen {
    match statement {
        Statement::Thread(_, deed) => expected_of_thread(*deed),
        Statement::Time(_) | Statement::Drain(_, _) => Seen::Step(true),
        Statement::NoTime(_) => Seen::Step(false),
        Statement::Run(end) | Statement::Ended(end) => Seen::End(Some(*end)),
        Statement::GoesOn => Seen::End(None),
        Statement::Word(_, value) => Seen::Number(u64::from(*value)),
        Statement::Doubleword(_, value) => Seen::Number(*value),
        Statement::Bytes(_, _) | Statement::Room(_, _) | Statement::Wrote(_, _) => Seen::Same,
        Statement::Unreadable(_) => Seen::Nothing,
        Statement::RoomHolds(_, count) | Statement::WroteBytes(_, count) => Seen::Length(*count),
        Statement::Labels(count) => Seen::Labels(*count),
    }
}

/// What is found by a statement that changes nothing.
fn looked_at<P: Playable>(
    machine: &P,
    alloc: Global,
    statement: &Statement,
) -> Result<Seen, AllocError> {
    match statement {
        Statement::Word(at, _) => Ok(number_at(machine, *at, 4)),
        Statement::Doubleword(at, _) => Ok(number_at(machine, *at, 8)),
        Statement::Bytes(at, expected) => bytes_at(machine, alloc, *at, expected),
        Statement::Unreadable(at) => Ok(number_at(machine, *at, 1)),
        Statement::Room(side, expected) => Ok(compared(expected, machine.room(*side))),
        Statement::RoomHolds(side, _) => Ok(Seen::Length(machine.room(*side).len() as u64)),
        Statement::Wrote(side, expected) => Ok(compared(expected, machine.written(*side))),
        Statement::WroteBytes(side, _) => Ok(Seen::Length(machine.written(*side).len() as u64)),
        Statement::Labels(_) => Ok(Seen::Labels(machine.labels())),
        _ => Ok(Seen::End(machine.end())),
    }
}

/// What is found by a statement, once what it says is done.
fn found_by<P: Playable>(
    machine: &mut P,
    alloc: Global,
    turns: Turns,
    statement: &Statement,
) -> Result<Seen, AllocError> {
    match statement {
        Statement::Thread(slot, deed) => found_of_thread(machine, alloc, *slot, *deed),
        Statement::Time(time) | Statement::NoTime(time) => {
            Ok(Seen::Step(machine.set_time(alloc, *time)?))
        }
        Statement::Drain(side, count) => Ok(Seen::Step(machine.drain(alloc, *side, *count)?)),
        Statement::Run(_) => Ok(Seen::End(machine.run(alloc, turns)?)),
        _ => looked_at(machine, alloc, statement),
    }
}

/// Whether what a line found is what it expects.
fn judge(line: usize, expected: Seen, found: Seen) -> Result<(), Miss>
    ensures holds { IsOk result → found ≡ expected }
    ensures misses { IfErr result (λ miss. miss ≡ record { line = line; expected = expected; found = found }) }
{
    if found == expected {
        Ok(())
    } else {
        Err(Miss {
            line,
            expected,
            found,
        })
    }
}

/// Plays a line, and sees that it holds.
fn play_line<P: Playable>(
    machine: &mut P,
    alloc: Global,
    turns: Turns,
    line: &Line,
) -> Result<(), Stopped> {
    let expected = expected_by(&line.statement);
    let found = found_by(machine, alloc, turns, &line.statement)?;
    Ok(judge(line.number, expected, found)?)
}

/// Plays a guest once, and says how many labels it took.
fn play_once<P: Playable>(
    alloc: Global,
    guest: &Guest,
    turns: Turns,
    lines: &[Line],
) -> Result<u64, Stopped> {
    let mut machine = P::start(alloc, guest)?;
    for line in lines {
        play_line(&mut machine, alloc, turns, line)?;
    }
    Ok(machine.labels())
}

/// Plays a guest once, or once for each seed.
fn play_guest<P: Playable>(alloc: Global, guest: &Guest, play: &Play) -> Result<u64, Stopped> {
    let Some(last) = play.seeds else {
        return play_once::<P>(alloc, guest, Turns::Rounds, &play.lines);
    };
    let mut labels: u64 = 0;
    for place in 0..last {
        let seed = place.wrapping_add(1);
        let taken = play_once::<P>(alloc, guest, Turns::Seed(seed), &play.lines)?;
        labels = labels.saturating_add(taken);
    }
    Ok(labels)
}

/// Plays a script, and says how many labels its plays took. It stops at the first line that doesn't hold.
pub fn play_script<P: Playable>(alloc: Global, script: &Script) -> Result<u64, Stopped> {
    let mut labels: u64 = 0;
    for guest in script.guests.iter() {
        for play in guest.plays.iter() {
            let taken = play_guest::<P>(alloc, guest, play)?;
            labels = labels.saturating_add(taken);
        }
    }
    Ok(labels)
}
