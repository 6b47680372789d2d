//! Calls on descriptors (`bsd_files`).

use bsd_abi::BsdErrno;
use bsd_files::{Closed, Files};
use case_words::answers::{Answer, Refusal};
use case_words::arguments::Arguments;

/// A call on a descriptor.
#[derive(Clone, Copy)]
pub enum DescriptorCall {
    Lookup(u32),
    Install { file: u32, least: u32 },
    FreeNumbers,
    CloseFlag(u32),
    SetCloseFlag { fd: u32, on: bool },
    Close(u32),
    CloseWaits(u32),
}

/// The call of this name; `None`: it is none of these.
pub fn descriptor_call(name: &str, of: Arguments<'_>) -> Result<Option<DescriptorCall>, Refusal> {
    Ok(Some(match name {
        "lookup" => DescriptorCall::Lookup(of.number_32("fd")?),
        "install" => DescriptorCall::Install {
            file: of.number_32("file")?,
            least: of.number_32("least")?,
        },
        "free-numbers" => DescriptorCall::FreeNumbers,
        "close-flag" => DescriptorCall::CloseFlag(of.number_32("fd")?),
        "set-close-flag" => DescriptorCall::SetCloseFlag {
            fd: of.number_32("fd")?,
            on: of.is("on")?,
        },
        "close" => DescriptorCall::Close(of.number_32("fd")?),
        "close-waits" => DescriptorCall::CloseWaits(of.number_32("fd")?),
        _ => return Ok(None),
    }))
}

/// A number, or why there is none.
pub fn numbered(number: Result<u32, BsdErrno>) -> Answer {
    match number {
        Ok(number) => Answer::Number(u64::from(number)),
        Err(error) => Answer::Error(error),
    }
}

fn install(files: &mut Files, file: u32, least: u32) -> Result<Answer, Refusal> {
    if !files.lives(file) {
        return Err(Refusal::NotMet);
    }
    Ok(numbered(files.install(file, least)))
}

fn close_flag(files: &Files, fd: u32) -> Result<Answer, Refusal> {
    if files.lookup(fd).is_err() {
        return Err(Refusal::NotMet);
    }
    Ok(Answer::Is(files.close_flag(fd)))
}

fn close(files: &mut Files, fd: u32) -> Answer {
    match files.close(fd) {
        Ok(Closed::Done) => Answer::Done,
        Ok(Closed::Wait) => Answer::Word("wait"),
        Err(error) => Answer::Error(error),
    }
}

/// Makes a call on a descriptor.
pub fn play_descriptor(files: &mut Files, call: DescriptorCall) -> Result<Answer, Refusal> {
    match call {
        DescriptorCall::Lookup(fd) => Ok(numbered(files.lookup(fd))),
        DescriptorCall::Install { file, least } => install(files, file, least),
        DescriptorCall::FreeNumbers => Ok(Answer::Number(u64::from(files.free_numbers()))),
        DescriptorCall::CloseFlag(fd) => close_flag(files, fd),
        DescriptorCall::SetCloseFlag { fd, on } => {
            files.set_close_flag(fd, on);
            Ok(Answer::Done)
        }
        DescriptorCall::Close(fd) => Ok(close(files, fd)),
        DescriptorCall::CloseWaits(fd) => Ok(Answer::Is(files.close_waits(fd))),
    }
}
