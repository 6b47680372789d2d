//! Calls on open files (`bsd_files`).

use crate::descriptors::numbered;
use crate::interests::{filter, named};
use bsd_files::{File, Files, Side};
use case_words::answers::{Answer, Refusal};
use case_words::arguments::Arguments;
use kqueue_core::{Filter, Readiness};
use std::alloc::{AllocError, Global};

/// A call on an open file.
#[derive(Clone, Copy)]
pub enum OpenCall {
    MakePipe,
    MakeQueue,
    MakeCounter { value: u64, semaphore: bool },
    Lives(u32),
    Kind(u32),
    Nonblocking(u32),
    SetNonblocking { file: u32, on: bool },
    Hold(u32),
    DropHold(u32),
    Holds,
    InFlux(u32),
    Pick { file: u32, at: u32 },
    Bits { file: u32, filter: Filter },
}

/// The call of this name that makes something; `None`: it is none of these.
fn making_call(name: &str, of: Arguments<'_>) -> Result<Option<OpenCall>, Refusal> {
    Ok(Some(match name {
        "make-pipe" => OpenCall::MakePipe,
        "make-queue" => OpenCall::MakeQueue,
        "make-counter" => OpenCall::MakeCounter {
            value: of.number("value")?,
            semaphore: of.is("semaphore")?,
        },
        "holds" => OpenCall::Holds,
        _ => return Ok(None),
    }))
}

/// The call of this name on an open file; `None`: it is none of these.
fn file_call(name: &str, file: u32, of: Arguments<'_>) -> Result<Option<OpenCall>, Refusal> {
    Ok(Some(match name {
        "lives" => OpenCall::Lives(file),
        "kind" => OpenCall::Kind(file),
        "nonblocking" => OpenCall::Nonblocking(file),
        "set-nonblocking" => OpenCall::SetNonblocking {
            file,
            on: of.is("on")?,
        },
        "hold" => OpenCall::Hold(file),
        "drop-hold" => OpenCall::DropHold(file),
        "in-flux" => OpenCall::InFlux(file),
        "pick" => OpenCall::Pick {
            file,
            at: of.number_32("at")?,
        },
        "bits" => OpenCall::Bits {
            file,
            filter: filter(of)?,
        },
        _ => return Ok(None),
    }))
}

/// The call of this name; `None`: it is none of these.
pub fn open_call(name: &str, of: Arguments<'_>) -> Result<Option<OpenCall>, Refusal> {
    match making_call(name, of)? {
        Some(call) => Ok(Some(call)),
        None => file_call(name, of.number_32("file")?, of),
    }
}

/// The two open files of a pipe, or why there is none.
fn make_pipe(files: &mut Files, alloc: Global) -> Result<Answer, AllocError> {
    match files.make_pipe() {
        Ok((read, write)) => Ok(Answer::Text(format!(in alloc; "read {read} write {write}")?)),
        Err(error) => Ok(Answer::Error(error)),
    }
}

fn make_counter(files: &mut Files, value: u64, semaphore: bool) -> Result<Answer, Refusal> {
    if !files.has_counter_room() {
        return Err(Refusal::NotMet);
    }
    Ok(Answer::Number(u64::from(files.make_counter(value, semaphore))))
}

/// What an open file is, in words.
fn kind(files: &Files, alloc: Global, file: u32) -> Result<Answer, Refusal> {
    if !files.lives(file) {
        return Err(Refusal::NotMet);
    }
    Ok(match files.kind(file) {
        File::Input => Answer::Word("input"),
        File::Console(Side::Out) => Answer::Word("console out"),
        File::Console(Side::Err) => Answer::Word("console err"),
        File::ReadEnd(pipe) => Answer::Text(format!(in alloc; "read-end {pipe}")?),
        File::WriteEnd(pipe) => Answer::Text(format!(in alloc; "write-end {pipe}")?),
        File::Counter(number) => Answer::Text(format!(in alloc; "counter {number}")?),
        File::Queue(number) => Answer::Text(format!(in alloc; "queue {number}")?),
    })
}

fn nonblocking(files: &Files, file: u32) -> Result<Answer, Refusal> {
    if !files.lives(file) {
        return Err(Refusal::NotMet);
    }
    Ok(Answer::Is(files.nonblocking(file)))
}

fn hold(files: &mut Files, file: u32) -> Result<Answer, Refusal> {
    if !files.lives(file) || files.holds() >= 128 {
        return Err(Refusal::NotMet);
    }
    files.hold(file);
    Ok(Answer::Done)
}

/// Makes a call on an open file.
pub fn play_open(files: &mut Files, alloc: Global, call: OpenCall) -> Result<Answer, Refusal> {
    match call {
        OpenCall::MakePipe => Ok(make_pipe(files, alloc)?),
        OpenCall::MakeQueue => Ok(numbered(files.make_queue())),
        OpenCall::MakeCounter { value, semaphore } => make_counter(files, value, semaphore),
        OpenCall::Lives(file) => Ok(Answer::Is(files.lives(file))),
        OpenCall::Kind(file) => kind(files, alloc, file),
        OpenCall::Nonblocking(file) => nonblocking(files, file),
        OpenCall::SetNonblocking { file, on } => {
            files.set_nonblocking(file, on);
            Ok(Answer::Done)
        }
        OpenCall::Hold(file) => hold(files, file),
        OpenCall::DropHold(file) => {
            files.drop_hold(file);
            Ok(Answer::Done)
        }
        OpenCall::Holds => Ok(Answer::Number(u64::from(files.holds()))),
        OpenCall::InFlux(file) => Ok(Answer::Is(files.in_flux(file))),
        OpenCall::Pick { file, at } => Ok(named(alloc, files.pick(file, at))?),
        OpenCall::Bits { file, filter } => Ok(Answer::Number(u64::from(files.bits(file, filter)))),
    }
}
