//! The slots of a process (`bsd_proc`).
ghost use Rattle.std.specs.Prelude.{◌<◌};

use bsd_proc::{Life, Process};
use case_words::answers::{Answer, Refusal};
use case_words::arguments::Arguments;
use std::alloc::{AllocError, Global};

/// A call on the slot of a thread.
#[derive(Clone, Copy)]
pub enum SlotCall {
    Leave,
    Life,
    SetLife(Life),
    Ask,
    Asked,
    Deadline(Option<u64>),
    DeadlineOf,
    Robust(u64),
    SeeRobust,
}

/// `reserved`, `live` or `dying`.
fn life(of: Arguments<'_>) -> Result<Life, Refusal> {
    match of.word("life")? {
        "reserved" => Ok(Life::Reserved),
        "live" => Ok(Life::Live),
        "dying" => Ok(Life::Dying),
        _ => Err(Refusal::NotACall),
    }
}

/// A deadline, or `none`.
fn deadline(of: Arguments<'_>) -> Result<Option<u64>, Refusal> {
    match of.word("at")? {
        "none" => Ok(None),
        _ => Ok(Some(of.number("at")?)),
    }
}

/// The call of this name.
pub fn slot_call(name: &str, of: Arguments<'_>) -> Result<SlotCall, Refusal> {
    match name {
        "leave" => Ok(SlotCall::Leave),
        "life" => Ok(SlotCall::Life),
        "set-life" => Ok(SlotCall::SetLife(life(of)?)),
        "ask" => Ok(SlotCall::Ask),
        "asked" => Ok(SlotCall::Asked),
        "deadline" => Ok(SlotCall::Deadline(deadline(of)?)),
        "deadline-of" => Ok(SlotCall::DeadlineOf),
        "robust" => Ok(SlotCall::Robust(of.number("at")?)),
        "see-robust" => Ok(SlotCall::SeeRobust),
        _ => Err(Refusal::NotACall),
    }
}

/// A life in a word.
fn life_word(life: Life) -> &'static str {
    match life {
        Life::Reserved => "reserved",
        Life::Live => "live",
        Life::Dying => "dying",
    }
}

/// The tid and the life of a slot's thread in words.
fn thread_found(alloc: Global, thread: Option<(u32, Life)>) -> Result<Answer, AllocError> {
    match thread {
        None => Ok(Answer::Nothing),
        Some((tid, life)) => {
            let life = life_word(life);
            Ok(Answer::Text(format!(in alloc; "tid {tid} {life}")?))
        }
    }
}

fn set_life(process: &mut Process, slot: u8, life: Life) -> Result<Answer, Refusal>
    requires { slot < 128 }
{
    if process.life(slot).is_none() {
        return Err(Refusal::NotMet);
    }
    process.set_life(slot, life);
    Ok(Answer::Done)
}

fn robust(process: &mut Process, slot: u8, at: u64) -> Result<Answer, Refusal>
    requires { slot < 128 }
{
    if process.life(slot).is_none() {
        return Err(Refusal::NotMet);
    }
    *process.robust(slot) = at;
    Ok(Answer::Done)
}

fn see_robust(process: &Process, slot: u8) -> Result<Answer, Refusal>
    requires { slot < 128 }
{
    if process.life(slot).is_none() {
        return Err(Refusal::NotMet);
    }
    Ok(Answer::Address(process.see_robust(slot)))
}

fn ask(process: &mut Process, slot: u8) -> Answer
    requires { slot < 128 }
{
    process.ask(slot);
    Answer::Done
}

fn set_deadline(process: &mut Process, slot: u8, at: Option<u64>) -> Answer
    requires { slot < 128 }
{
    process.deadline(slot, at);
    Answer::Done
}

/// Makes a call on a slot of a process.
pub fn play_slot(
    process: &mut Process,
    alloc: Global,
    slot: u8,
    call: SlotCall,
) -> Result<Answer, Refusal> {
    if slot >= 128 {
        return Err(Refusal::NotMet);
    }
    match call {
        SlotCall::Leave => Ok(Answer::Number(u64::from(process.leave(slot)))),
        SlotCall::Life => Ok(thread_found(alloc, process.life(slot))?),
        SlotCall::SetLife(life) => set_life(process, slot, life),
        SlotCall::Ask => Ok(ask(process, slot)),
        SlotCall::Asked => Ok(Answer::Is(process.asked(slot))),
        SlotCall::Deadline(at) => Ok(set_deadline(process, slot, at)),
        SlotCall::DeadlineOf => Ok(Answer::number(process.deadline_of(slot))),
        SlotCall::Robust(at) => robust(process, slot, at),
        SlotCall::SeeRobust => see_robust(process, slot),
    }
}
