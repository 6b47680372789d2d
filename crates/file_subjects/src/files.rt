//! The files of the kernel (`bsd_files`).

use crate::descriptors::{DescriptorCall, descriptor_call, play_descriptor};
use crate::interests::{InterestCall, interest_call, play_interest};
use crate::opens::{OpenCall, open_call, play_open};
use crate::transfers::{TransferCall, play_transfer, transfer_call};
use bsd_files::Files;
use case_words::answers::{Answer, Refusal};
use case_words::arguments::Arguments;
use case_words::subject::Subject;
use case_words::words::bytes;
use std::alloc::Global;

/// A call on the files.
#[derive(Drop)]
enum FilesCall {
    OnDescriptor(DescriptorCall),
    OnOpenFile(OpenCall),
    OnTransfer(TransferCall),
    /// On the queue that an open file is.
    OnQueue(u32, InterestCall),
}

/// The call of this name that is on no queue.
fn plain_call(alloc: Global, name: &str, of: Arguments<'_>) -> Result<FilesCall, Refusal> {
    if let Some(call) = descriptor_call(name, of)? {
        return Ok(FilesCall::OnDescriptor(call));
    }
    if let Some(call) = transfer_call(alloc, name, of)? {
        return Ok(FilesCall::OnTransfer(call));
    }
    match open_call(name, of)? {
        Some(call) => Ok(FilesCall::OnOpenFile(call)),
        None => Err(Refusal::NotACall),
    }
}

/// The call of this name: behind `queue.` on the queue that the open file `queue` is.
fn files_call(alloc: Global, name: &str, of: Arguments<'_>) -> Result<FilesCall, Refusal> {
    match name.strip_prefix("queue.") {
        Some(call) => Ok(FilesCall::OnQueue(of.number_32("queue")?, interest_call(call, of)?)),
        None => plain_call(alloc, name, of),
    }
}

fn on_queue(files: &mut Files, file: u32, call: InterestCall) -> Answer {
    match files.queue(file) {
        Some(queue) => play_interest(queue, call),
        None => Answer::Nothing,
    }
}

fn played(files: &mut Files, alloc: Global, call: FilesCall) -> Result<Answer, Refusal> {
    match call {
        FilesCall::OnDescriptor(call) => play_descriptor(files, call),
        FilesCall::OnOpenFile(call) => play_open(files, alloc, call),
        FilesCall::OnTransfer(call) => play_transfer(files, alloc, call),
        FilesCall::OnQueue(file, call) => Ok(on_queue(files, file, call)),
    }
}

/// The files, as a script makes and calls them.
#[derive(Drop)]
pub struct FilesSubject(Files);

impl Subject for FilesSubject {
    fn make(alloc: Global, of: Arguments<'_>) -> Result<FilesSubject, Refusal> {
        match Files::make(alloc, bytes(alloc, of.word("input")?)?) {
            Ok(files) => Ok(FilesSubject(files)),
            Err(_) => Err(Refusal::NoMemory),
        }
    }

    fn call(&mut self, alloc: Global, name: &str, of: Arguments<'_>) -> Result<Answer, Refusal> {
        let call = files_call(alloc, name, of)?;
        played(&mut self.0, alloc, call)
    }
}
