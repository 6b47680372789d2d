//! Pipes (`pipe_core`).

use case_words::answers::{Answer, Refusal};
use case_words::arguments::Arguments;
use case_words::subject::Subject;
use case_words::words::bytes;
use pipe_core::Pipe;
use std::alloc::{AllocError, Global};

/// What stands where no byte came.
const UNTOUCHED: u8 = 0xEE;

/// A call on a pipe.
#[derive(Drop)]
enum PipeCall {
    Put(Vec<u8>),
    Take(u16),
    CopyFront(u16),
    DropFirst(u32),
    Held,
    Free,
}

/// So many equal bytes.
pub fn equal_bytes(alloc: Global, of: Arguments<'_>) -> Result<Vec<u8>, Refusal> {
    let count = usize::from(of.number_16("count")?);
    Ok(vec![in alloc; of.number_8("byte")?; count]?)
}

/// The call of this name.
fn pipe_call(alloc: Global, name: &str, of: Arguments<'_>) -> Result<PipeCall, Refusal> {
    match name {
        "put" => Ok(PipeCall::Put(bytes(alloc, of.word("bytes")?)?)),
        "put-equal" => Ok(PipeCall::Put(equal_bytes(alloc, of)?)),
        "take" => Ok(PipeCall::Take(of.number_16("len")?)),
        "copy-front" => Ok(PipeCall::CopyFront(of.number_16("len")?)),
        "drop-first" => Ok(PipeCall::DropFirst(of.number_32("count")?)),
        "held" => Ok(PipeCall::Held),
        "free" => Ok(PipeCall::Free),
        _ => Err(Refusal::NotACall),
    }
}

/// How many bytes came, and all that stands then where they came to.
fn came(alloc: Global, count: usize, into: Vec<u8>) -> Result<Answer, AllocError> {
    let bytes = hex::encode(alloc, into)?;
    Ok(Answer::Text(format!(in alloc; "{count} {bytes}")?))
}

fn take(pipe: &mut Pipe, alloc: Global, len: u16) -> Result<Answer, AllocError> {
    let mut into = vec![in alloc; UNTOUCHED; usize::from(len)]?;
    let count = pipe.take(&mut into);
    came(alloc, count, into)
}

fn copy_front(pipe: &Pipe, alloc: Global, len: u16) -> Result<Answer, AllocError> {
    let mut into = vec![in alloc; UNTOUCHED; usize::from(len)]?;
    let count = pipe.copy_front(&mut into);
    came(alloc, count, into)
}

fn drop_first(pipe: &mut Pipe, count: u32) -> Result<Answer, Refusal> {
    if count > pipe.held() {
        return Err(Refusal::NotMet);
    }
    pipe.drop_first(count);
    Ok(Answer::Done)
}

fn played(pipe: &mut Pipe, alloc: Global, call: PipeCall) -> Result<Answer, Refusal> {
    match call {
        PipeCall::Put(bytes) => Ok(Answer::Number(pipe.put(&bytes) as u64)),
        PipeCall::Take(len) => Ok(take(pipe, alloc, len)?),
        PipeCall::CopyFront(len) => Ok(copy_front(pipe, alloc, len)?),
        PipeCall::DropFirst(count) => drop_first(pipe, count),
        PipeCall::Held => Ok(Answer::Number(u64::from(pipe.held()))),
        PipeCall::Free => Ok(Answer::Number(u64::from(pipe.free()))),
    }
}

/// A pipe, as a script makes and calls it.
#[derive(Drop)]
pub struct PipeSubject(Pipe);

impl Subject for PipeSubject {
    fn make(alloc: Global, of: Arguments<'_>) -> Result<PipeSubject, Refusal> {
        match Pipe::make(alloc, of.number_32("room")?) {
            Ok(pipe) => Ok(PipeSubject(pipe)),
            Err(_) => Err(Refusal::NoMemory),
        }
    }

    fn call(&mut self, alloc: Global, name: &str, of: Arguments<'_>) -> Result<Answer, Refusal> {
        let call = pipe_call(alloc, name, of)?;
        played(&mut self.0, alloc, call)
    }
}
