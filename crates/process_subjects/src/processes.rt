//! The process (`bsd_proc`).

use crate::signals::{SignalCall, play_signals, signal_call};
use crate::slots::{SlotCall, play_slot, slot_call};
use bsd_abi::BsdErrno;
use bsd_proc::{GuestEnd, Process};
use case_words::answers::{Answer, Refusal};
use case_words::arguments::Arguments;
use case_words::subject::Subject;
use memory_subjects::areas::{AreasCall, areas_call, play_areas};
use memory_subjects::rights::rights_found;
use std::alloc::{AllocError, Global};
use vm_areas::Areas;

/// A call on a process.
#[derive(Clone, Copy)]
enum ProcessCall {
    Rules,
    Reserve,
    InUse,
    /// On the areas that it lends.
    OnAreas(AreasCall),
    SeeAreas(u64),
    BreakAt(u64),
    SeeBreak,
    BreakStart,
    Finish(GuestEnd),
    End,
    Pass(u64),
    Clock,
    OnSlot(u8, SlotCall),
    OnSignals(SignalCall),
}

/// How a guest ends: with an exit's code, or by a signal.
fn end(of: Arguments<'_>) -> Result<GuestEnd, Refusal> {
    match of.word("by")? {
        "exit" => Ok(GuestEnd::Exited(of.number_8("code")?)),
        "signal" => Ok(GuestEnd::Killed(of.number_8("code")?)),
        _ => Err(Refusal::NotACall),
    }
}

/// The call of this name on the process as a whole; `None`: it is none of these.
fn whole_call(name: &str, of: Arguments<'_>) -> Result<Option<ProcessCall>, Refusal> {
    Ok(Some(match name {
        "rules" => ProcessCall::Rules,
        "reserve" => ProcessCall::Reserve,
        "in-use" => ProcessCall::InUse,
        "see-areas" => ProcessCall::SeeAreas(of.number("page")?),
        "break-at" => ProcessCall::BreakAt(of.number("at")?),
        "see-break" => ProcessCall::SeeBreak,
        "break-start" => ProcessCall::BreakStart,
        "finish" => ProcessCall::Finish(end(of)?),
        "end" => ProcessCall::End,
        "pass" => ProcessCall::Pass(of.number("now")?),
        "clock" => ProcessCall::Clock,
        _ => return Ok(None),
    }))
}

/// The call of this name: behind `areas.` on the areas, behind `slot.` on a slot, and else on the signals.
fn part_call(name: &str, of: Arguments<'_>) -> Result<ProcessCall, Refusal> {
    match name.split_once(".") {
        Some(("areas", call)) => Ok(ProcessCall::OnAreas(areas_call(call, of)?)),
        Some(("slot", call)) => Ok(ProcessCall::OnSlot(of.number_8("slot")?, slot_call(call, of)?)),
        _ => Ok(ProcessCall::OnSignals(signal_call(name, of)?)),
    }
}

/// The call of this name.
fn process_call(name: &str, of: Arguments<'_>) -> Result<ProcessCall, Refusal> {
    match whole_call(name, of)? {
        Some(call) => Ok(call),
        None => part_call(name, of),
    }
}

/// A slot that was reserved, with its tid, or why none was.
fn reserved(alloc: Global, slot: Result<(u8, u32), BsdErrno>) -> Result<Answer, AllocError> {
    match slot {
        Ok((slot, tid)) => Ok(Answer::Text(format!(in alloc; "slot {slot} tid {tid}")?)),
        Err(error) => Ok(Answer::Error(error)),
    }
}

/// How a guest ended, in words.
fn ended(alloc: Global, end: Option<GuestEnd>) -> Result<Answer, AllocError> {
    match end {
        None => Ok(Answer::Nothing),
        Some(GuestEnd::Exited(code)) => Ok(Answer::Text(format!(in alloc; "exit {code}")?)),
        Some(GuestEnd::Killed(signal)) => Ok(Answer::Text(format!(in alloc; "signal {signal}")?)),
    }
}

fn set_break(process: &mut Process, at: u64) -> Answer {
    *process.break_at() = at;
    Answer::Done
}

fn finish(process: &mut Process, end: GuestEnd) -> Answer {
    process.finish(end);
    Answer::Done
}

fn played(process: &mut Process, alloc: Global, call: ProcessCall) -> Result<Answer, Refusal> {
    match call {
        ProcessCall::Rules => Ok(Answer::Number(u64::from(process.rules()))),
        ProcessCall::Reserve => Ok(reserved(alloc, process.reserve())?),
        ProcessCall::InUse => Ok(Answer::Number(u64::from(process.in_use()))),
        ProcessCall::OnAreas(call) => play_areas(process.areas(), alloc, call),
        ProcessCall::SeeAreas(page) => Ok(rights_found(
            alloc,
            process.see_areas().rights_at(page),
        )?),
        ProcessCall::BreakAt(at) => Ok(set_break(process, at)),
        ProcessCall::SeeBreak => Ok(Answer::Address(process.see_break())),
        ProcessCall::BreakStart => Ok(Answer::Address(process.break_start())),
        ProcessCall::Finish(end) => Ok(finish(process, end)),
        ProcessCall::End => Ok(ended(alloc, process.end())?),
        ProcessCall::Pass(now) => Ok(Answer::Is(process.pass(now))),
        ProcessCall::Clock => Ok(Answer::Number(process.clock())),
        ProcessCall::OnSlot(slot, call) => play_slot(process, alloc, slot, call),
        ProcessCall::OnSignals(call) => play_signals(process, alloc, call),
    }
}

/// A process, as a script makes and calls it.
#[derive(Drop)]
pub struct ProcessSubject(Process);

impl Subject for ProcessSubject {
    fn make(alloc: Global, of: Arguments<'_>) -> Result<ProcessSubject, Refusal> {
        let (break_at, rules) = (of.number("break")?, of.number_8("rules")?);
        if rules != 1 && rules != 2 {
            return Err(Refusal::NotMet);
        }
        let Ok(areas) = Areas::make(alloc) else {
            return Err(Refusal::NoMemory);
        };
        match Process::make(alloc, areas, break_at, rules) {
            Ok(process) => Ok(ProcessSubject(process)),
            Err(_) => Err(Refusal::NoMemory),
        }
    }

    fn call(&mut self, alloc: Global, name: &str, of: Arguments<'_>) -> Result<Answer, Refusal> {
        let call = process_call(name, of)?;
        played(&mut self.0, alloc, call)
    }
}
