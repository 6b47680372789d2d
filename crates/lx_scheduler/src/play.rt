//! The run of a guest: the turns of its threads, the time that passes, and what it writes.
ghost use Rattle.std.specs.Prelude.{◌<◌, IfOk, IfErr};
ghost use Rattle.lx_scheduler.specs.Play.{Reaches, HasEnded, IsEarly};

use crate::machine::Machine;
use crate::schedule::{SLOTS, Schedule};
use crate::turns::step_of;
use lx_machine::buffer::NoMemory;
use lx_machine::label::{Label, LxSide};
use lx_machine::threads::GuestEnd;
use outside::{Failed, Sink, put_all};
use std::alloc::Global;

/// The most steps of a run.
pub const BUDGET: u64 = 50_000_000;

// A room that holds so many bytes is drained.
const DRAINED_AT: usize = 32_768;

/// How a run ended.
#[derive(Clone, Copy)]
pub enum RunEnd {
    /// The guest ended.
    Ended(GuestEnd),
    /// No thread had a step.
    Standstill,
    /// The budget was spent.
    BudgetSpent,
    /// Memory was wanting.
    NoMemory,
    /// What the guest wrote could not be put out.
    WriteFailed,
}

impl From<NoMemory> for RunEnd {
    ghost use Rattle.std.specs.Prelude.{◌≡◌};
    ghost use Rattle.lx_scheduler.specs.declared.play.RunEnd.TheVariants as run_end;

    ghost from_gives = { λ _ end. end ≡ run_end.NoMemory };

    fn from(_: NoMemory) -> RunEnd {
        RunEnd::NoMemory
    }
}

impl From<Failed> for RunEnd {
    ghost use Rattle.std.specs.Prelude.{◌≡◌};
    ghost use Rattle.lx_scheduler.specs.declared.play.RunEnd.TheVariants as run_end;

    ghost from_gives = { λ _ end. end ≡ run_end.WriteFailed };

    fn from(_: Failed) -> RunEnd {
        RunEnd::WriteFailed
    }
}

// So many steps of the thread in this slot, where it has them. It answers how many it had.
#[tactic(auto, using(crate::proofs::Runs::here, crate::proofs::Runs::onward))]
fn steps(
    machine: &mut Machine,
    alloc: Global,
    schedule: &mut Schedule,
    slot: u8,
    most: u64,
) -> Result<u64, NoMemory>
    requires { slot < 128 }
    ensures { Reaches machine.old.state.state machine.new.state.state }
{
    for taken in 0..most {
        if !step_of(machine, alloc, schedule, slot)? {
            return Ok(taken);
        }
    }
    Ok(most)
}

// Sets the clock, if it stands before this time.
#[tactic(auto, using(crate::proofs::Runs::here, crate::proofs::Runs::onward))]
fn set_clock(machine: &mut Machine, alloc: Global, time: u64) -> Result<(), NoMemory>
    ensures { Reaches machine.old.state.state machine.new.state.state }
{
    machine.take(alloc, &Label::Time(time))?;
    Ok(())
}

// The turn of the thread in this slot: its steps, each of which lasts a microsecond. It answers how many it had.
#[tactic(auto, using(crate::proofs::Runs::here, crate::proofs::Runs::onward))]
fn turn(
    machine: &mut Machine,
    alloc: Global,
    schedule: &mut Schedule,
    slot: u8,
    most: u64,
) -> Result<u64, NoMemory>
    requires { slot < 128 }
    ensures { Reaches machine.old.state.state machine.new.state.state }
{
    let taken = steps(machine, alloc, schedule, slot, most)?;
    let time = machine.state().clock.saturating_add(taken);
    set_clock(machine, alloc, time)?;
    Ok(taken)
}

// How many threads there are.
fn count_threads(machine: &Machine) -> u8 {
    let mut count: u8 = 0;
    for slot in 0..SLOTS {
        if machine.thread(slot).is_some() {
            count = count.saturating_add(1);
        }
    }
    count
}

// The slot of the thread before which there are so many others, or 0.
fn slot_of(machine: &Machine, place: u8) -> u8
    ensures { result < 128 }
{
    let mut before: u8 = 0;
    for slot in 0..SLOTS {
        if machine.thread(slot).is_some() {
            if before == place {
                return slot;
            }
            before = before.saturating_add(1);
        }
    }
    0
}

// The turn of the first thread that has a step, from this slot on and all around. It answers how many steps it had.
#[tactic(auto, using(crate::proofs::Runs::here, crate::proofs::Runs::onward))]
fn turn_from(
    machine: &mut Machine,
    alloc: Global,
    schedule: &mut Schedule,
    first: u8,
    most: u64,
) -> Result<u64, NoMemory>
    requires { first < 128 }
    ensures { Reaches machine.old.state.state machine.new.state.state }
{
    for further in 0..SLOTS {
        let taken = turn(machine, alloc, schedule, (first + further) % SLOTS, most)?;
        if taken != 0 {
            return Ok(taken);
        }
    }
    Ok(0)
}

// The next turn. It answers how many steps it had, which is none where no thread has a step.
fn next_turn(machine: &mut Machine, alloc: Global, schedule: &mut Schedule) -> Result<u64, NoMemory>
    ensures { Reaches machine.old.state.state machine.new.state.state }
{
    let place = schedule.pick(count_threads(machine).max(1));
    let first = slot_of(machine, place);
    let most = schedule.length();
    turn_from(machine, alloc, schedule, first, most)
}

// Puts out what a room holds, if it holds so many bytes. It answers whether it did.
#[tactic(auto, using(crate::proofs::Runs::here, crate::proofs::Runs::onward))]
fn drain<S: Sink>(
    machine: &mut Machine,
    alloc: Global,
    side: LxSide,
    least: usize,
    sink: &mut S,
) -> Result<bool, RunEnd>
    ensures reaches { Reaches machine.old.state.state machine.new.state.state }
    ensures early { IfErr result IsEarly }
{
    if machine.held(side) < least {
        return Ok(false);
    }
    let bytes = machine.drain(alloc, side)?;
    put_all(sink, &bytes)?;
    Ok(true)
}

// Puts out what both rooms hold, where they hold so many bytes. It answers whether one did.
#[tactic(auto, using(crate::proofs::Runs::here, crate::proofs::Runs::onward))]
fn drain_both<O: Sink, E: Sink>(
    machine: &mut Machine,
    alloc: Global,
    least: usize,
    out: &mut O,
    err: &mut E,
) -> Result<bool, RunEnd>
    ensures reaches { Reaches machine.old.state.state machine.new.state.state }
    ensures early { IfErr result IsEarly }
{
    let drained_out = drain(machine, alloc, LxSide::Out, least, out)?;
    let drained_err = drain(machine, alloc, LxSide::Err, least, err)?;
    Ok(drained_out || drained_err)
}

// The deadline of the call of the thread in this slot, if it is still to come.
fn deadline(machine: &Machine, slot: u8) -> Option<u64>
    requires { slot < 128 }
{
    let deadline = machine.thread(slot)?.call.as_ref()?.deadline?;
    if deadline > machine.state().clock {
        Some(deadline)
    } else {
        None
    }
}

// The earlier one of two times, of which there may be none.
fn earlier(one: Option<u64>, other: Option<u64>) -> Option<u64> {
    match (one, other) {
        (Some(a), Some(b)) => Some(a.min(b)),
        (Some(a), None) => Some(a),
        (None, b) => b,
    }
}

// The next deadline of a call.
fn next_deadline(machine: &Machine) -> Option<u64> {
    let mut least = None;
    for slot in 0..SLOTS {
        least = earlier(least, deadline(machine, slot));
    }
    least
}

// Where no thread has a step, a room is drained, or else time passes up to the next deadline. It answers whether either was so.
#[tactic(auto, using(crate::proofs::Runs::here, crate::proofs::Runs::onward))]
fn wait<O: Sink, E: Sink>(
    machine: &mut Machine,
    alloc: Global,
    out: &mut O,
    err: &mut E,
) -> Result<bool, RunEnd>
    ensures reaches { Reaches machine.old.state.state machine.new.state.state }
    ensures early { IfErr result IsEarly }
{
    if drain_both(machine, alloc, 1, out, err)? {
        return Ok(true);
    }
    let Some(time) = next_deadline(machine) else {
        return Ok(false);
    };
    Ok(machine.take(alloc, &Label::Time(time))?)
}

// Between two turns: a full room is drained, or after a turn without a step the guest waits. It answers whether the run goes on.
#[tactic(auto, using(crate::proofs::Runs::here, crate::proofs::Runs::onward))]
fn go_on<O: Sink, E: Sink>(
    machine: &mut Machine,
    alloc: Global,
    taken: u64,
    out: &mut O,
    err: &mut E,
) -> Result<bool, RunEnd>
    ensures reaches { Reaches machine.old.state.state machine.new.state.state }
    ensures early { IfErr result IsEarly }
{
    if taken == 0 {
        return wait(machine, alloc, out, err);
    }
    drain_both(machine, alloc, DRAINED_AT, out, err)?;
    Ok(true)
}

// The turns, up to the end of the run.
#[tactic(auto, using(crate::proofs::Runs::onward, crate::proofs::Runs::onward_twice))]
fn turns<O: Sink, E: Sink>(
    machine: &mut Machine,
    alloc: Global,
    schedule: &mut Schedule,
    out: &mut O,
    err: &mut E,
) -> Result<RunEnd, RunEnd>
    ensures reaches { Reaches machine.old.state.state machine.new.state.state }
    ensures ended { IfOk result (HasEnded machine.new.state.state) }
    ensures early { IfErr result IsEarly }
{
    let mut left = BUDGET;
    for _ in 0..BUDGET {
        let taken = next_turn(machine, alloc, schedule)?;
        if let Some(end) = machine.end() {
            return Ok(RunEnd::Ended(end));
        }
        left = left.saturating_sub(taken);
        if left == 0 {
            return Ok(RunEnd::BudgetSpent);
        }
        if !go_on(machine, alloc, taken, out, err)? {
            return Ok(RunEnd::Standstill);
        }
    }
    Ok(RunEnd::BudgetSpent)
}

/// Runs a guest to its end, and puts out what it writes. Where the budget is spent, no thread has a step or memory is
/// wanting, what it has written is put out too.
#[tactic(auto, using(crate::proofs::Runs::here, crate::proofs::Runs::onward, crate::proofs::Runs::still_ended, crate::proofs::Runs::ended_early))]
pub fn play<O: Sink, E: Sink>(
    machine: &mut Machine,
    alloc: Global,
    schedule: &mut Schedule,
    out: &mut O,
    err: &mut E,
) -> RunEnd
    ensures reaches { Reaches machine.old.state.state machine.new.state.state }
    ensures ended { HasEnded machine.new.state.state result }
{
    let end = match turns(machine, alloc, schedule, out, err) {
        Ok(end) => end,
        Err(end) => end,
    };
    match drain_both(machine, alloc, 1, out, err) {
        Ok(_) => end,
        Err(fault) => fault,
    }
}
