//! Transfers, and the console rooms (`bsd_files`).
ghost use Rattle.std.specs.Prelude.{◌≤◌, length};
ghost use Rattle.std.specs.Bool.{OnTrue};

use crate::pipes::equal_bytes;
use bsd_files::{FileCall, FileLook, Files, Side};
use case_words::answers::{Answer, Refusal};
use case_words::arguments::Arguments;
use case_words::words::bytes;
use std::alloc::{AllocError, Global};

/// What stands where no byte came.
const UNTOUCHED: u8 = 0xEE;

/// A call on a transfer or a console room.
#[derive(Drop)]
pub enum TransferCall {
    Look(FileCall, Vec<u8>),
    WouldWait(FileCall, Vec<u8>),
    Held(Side),
    Drain(Side, u32),
    CopyFront(Side, u16),
}

/// A read, with the buffer for what it moves.
fn read(alloc: Global, of: Arguments<'_>) -> Result<(FileCall, Vec<u8>), Refusal> {
    let len = of.number_16("len")?;
    let call = FileCall {
        file: of.number_32("file")?,
        write: false,
        len: u32::from(len),
        done: 0,
    };
    Ok((call, vec![in alloc; UNTOUCHED; usize::from(len)]?))
}

/// A write of these bytes, of which `done` have been moved before.
fn write(bytes: Vec<u8>, of: Arguments<'_>) -> Result<(FileCall, Vec<u8>), Refusal> {
    let call = FileCall {
        file: of.number_32("file")?,
        write: true,
        len: u32::try_from(bytes.len()).map_err(|_| Refusal::NotANumber)?,
        done: of.number_32("done")?,
    };
    Ok((call, bytes))
}

/// `out` or `err`.
fn side(of: Arguments<'_>) -> Result<Side, Refusal> {
    match of.word("side")? {
        "out" => Ok(Side::Out),
        "err" => Ok(Side::Err),
        _ => Err(Refusal::NotACall),
    }
}

/// The transfer of this name, with its buffer; `None`: it is none.
fn transfer(
    alloc: Global,
    name: &str,
    of: Arguments<'_>,
) -> Result<Option<(FileCall, Vec<u8>)>, Refusal> {
    Ok(Some(match name {
        "read" => read(alloc, of)?,
        "write" => write(bytes(alloc, of.word("bytes")?)?, of)?,
        "write-equal" => write(equal_bytes(alloc, of)?, of)?,
        _ => return Ok(None),
    }))
}

/// The look of this name, or behind `would-wait.` whether it would wait; `None`: it is none of these.
fn look_call(
    alloc: Global,
    name: &str,
    of: Arguments<'_>,
) -> Result<Option<TransferCall>, Refusal> {
    let (asks, name) = match name.strip_prefix("would-wait.") {
        Some(rest) => (true, rest),
        None => (false, name),
    };
    match transfer(alloc, name, of)? {
        Some((call, buffer)) if asks => Ok(Some(TransferCall::WouldWait(call, buffer))),
        Some((call, buffer)) => Ok(Some(TransferCall::Look(call, buffer))),
        None => Ok(None),
    }
}

/// The call of this name; `None`: it is none of these.
pub fn transfer_call(
    alloc: Global,
    name: &str,
    of: Arguments<'_>,
) -> Result<Option<TransferCall>, Refusal> {
    match name {
        "held" => Ok(Some(TransferCall::Held(side(of)?))),
        "drain" => Ok(Some(TransferCall::Drain(side(of)?, of.number_32("n")?))),
        "copy-front" => Ok(Some(TransferCall::CopyFront(side(of)?, of.number_16("len")?))),
        _ => look_call(alloc, name, of),
    }
}

/// Whether a look may be made so.
fn may_look(call: &FileCall, buffer: &[u8]) -> bool
    ensures len { OnTrue result (call.now.len ≤ length buffer.now) }
    ensures done { OnTrue result (call.now.done ≤ call.now.len) }
{
    call.len as usize <= buffer.len() && call.done <= call.len
}

/// How many bytes are moved, and of a read all that stands then in its buffer.
fn moved(
    alloc: Global,
    call: &FileCall,
    count: u32,
    buffer: Vec<u8>,
) -> Result<Answer, AllocError> {
    if call.write || buffer.is_empty() {
        return Ok(Answer::Number(u64::from(count)));
    }
    let bytes = hex::encode(alloc, buffer)?;
    Ok(Answer::Text(format!(in alloc; "{count} {bytes}")?))
}

fn look(
    files: &mut Files,
    alloc: Global,
    call: &FileCall,
    mut buffer: Vec<u8>,
) -> Result<Answer, Refusal> {
    if !may_look(call, &buffer) {
        return Err(Refusal::NotMet);
    }
    match files.look(call, &mut buffer) {
        FileLook::Moved(count) => Ok(moved(alloc, call, count, buffer)?),
        FileLook::Wait => Ok(Answer::Word("wait")),
        FileLook::Refused(error) => Ok(Answer::Error(error)),
        FileLook::Broken => Ok(Answer::Word("broken")),
    }
}

fn would_wait(files: &Files, call: &FileCall, buffer: &[u8]) -> Result<Answer, Refusal> {
    if !may_look(call, buffer) {
        return Err(Refusal::NotMet);
    }
    Ok(Answer::Is(files.would_wait(call, buffer)))
}

/// How many bytes came, and all that stands then where they came to.
fn copy_front(files: &Files, alloc: Global, side: Side, len: u16) -> Result<Answer, AllocError> {
    let mut into = vec![in alloc; UNTOUCHED; usize::from(len)]?;
    let count = files.copy_front(side, &mut into);
    let bytes = hex::encode(alloc, into)?;
    Ok(Answer::Text(format!(in alloc; "{count} {bytes}")?))
}

/// Makes a call on a transfer or a console room.
pub fn play_transfer(
    files: &mut Files,
    alloc: Global,
    call: TransferCall,
) -> Result<Answer, Refusal> {
    match call {
        TransferCall::Look(call, buffer) => look(files, alloc, &call, buffer),
        TransferCall::WouldWait(call, buffer) => would_wait(files, &call, &buffer),
        TransferCall::Held(side) => Ok(Answer::Number(u64::from(files.held(side)))),
        TransferCall::Drain(side, n) => Ok(Answer::Is(files.drain(side, n))),
        TransferCall::CopyFront(side, len) => Ok(copy_front(files, alloc, side, len)?),
    }
}
