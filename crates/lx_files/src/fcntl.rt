//! What a descriptor and its open file are (fcntl(2)).
ghost use Rattle.std.specs.Prelude.{◌%◌, ◌==◌, ◌≡◌};
ghost use Rattle.lx_machine.specs.Calls.{argument};
ghost use Rattle.lx_machine.specs.Descriptors.{answers, files_outcome};
ghost use Rattle.lx_machine.specs.Fcntl.{access_mode, fcntl, get_status, set_status, status_of};
ghost use Rattle.lx_machine.specs.Files.{descriptor, with_descriptor};
ghost use Rattle.lx_machine.specs.Lists.{at_place};

use crate::descriptors::{flags, has_nonblock, named};
use crate::dup::duplicate;
use crate::files::{descriptor, set_descriptor};
use crate::lists::{place_at, set_place};
use linux_abi::LinuxErrno;
use linux_abi::files::{DescriptorOperation, O_NONBLOCK};
use lx_machine::calls::LxCall;
use lx_machine::files::{FileKind, Files, OpenFile};

/// O_RDONLY, O_WRONLY or O_RDWR.
fn access_mode(kind: FileKind) -> u64
    ensures { result ≡ access_mode kind }
{
    match kind {
        FileKind::Input | FileKind::PipeRead(_) => 0,
        FileKind::Console(_) | FileKind::PipeWrite(_) => 1,
        FileKind::Counter(_) | FileKind::Epoll(_) => 2,
    }
}

/// The access mode, and O_NONBLOCK.
fn status(f: OpenFile) -> u64
    ensures { result ≡ status_of f }
{
    access_mode(f.kind) + u64::from(f.nonblocking) * O_NONBLOCK
}

/// F_GETFL.
fn get_status(files: &Files, call: &mut LxCall, file: u32)
    ensures { files_outcome files.now call.new ≡ get_status files.now call.old (at_place files.now.files file) }
{
    match place_at(&files.files, file) {
        Some(f) => call.answer(status(f)),
        None => call.refuse(LinuxErrno::EBADF),
    }
}

/// F_SETFL.
fn set_status(files: &mut Files, call: &mut LxCall, file: u32)
    ensures { files_outcome files.new call.new ≡ set_status files.old call.old file (at_place files.old.files file) }
{
    match place_at(&files.files, file) {
        Some(f) => {
            let changed = OpenFile {
                kind: f.kind,
                nonblocking: has_nonblock(call.arguments[2]),
                holds: f.holds,
            };
            set_place(&mut files.files, file, Some(changed));
            call.answer(0);
        }
        None => call.refuse(LinuxErrno::EBADF),
    }
}

/// F_SETFD.
fn set_close_flag(files: &mut Files, call: &mut LxCall, fd: u32, file: u32)
    ensures { files_outcome files.new call.new ≡ answers (with_descriptor files.old fd (descriptor file (argument call.old 2 % 2 == 1))) call.old 0 }
{
    let close_on_exec = call.arguments[2] % 2 == 1;
    set_descriptor(files, fd, descriptor(file, close_on_exec));
    call.answer(0);
}

/// Reads and changes what a descriptor and its open file are (fcntl(2)).
pub fn fcntl(files: &mut Files, call: &mut LxCall)
    ensures { files_outcome files.new call.new ≡ fcntl files.old call.old }
{
    let Some(d) = named(files, call, 0) else {
        call.refuse(LinuxErrno::EBADF);
        return;
    };
    let fd = call.low_argument(0);
    let argument = call.arguments[2];
    match DescriptorOperation::new(flags(call, 1)) {
        Some(DescriptorOperation::Duplicate) => duplicate(files, call, d.file, false, argument),
        Some(DescriptorOperation::DuplicateCloseOnExec) => {
            duplicate(files, call, d.file, true, argument);
        }
        Some(DescriptorOperation::GetCloseFlag) => call.answer(u64::from(d.close_on_exec)),
        Some(DescriptorOperation::SetCloseFlag) => set_close_flag(files, call, fd, d.file),
        Some(DescriptorOperation::GetStatus) => get_status(files, call, d.file),
        Some(DescriptorOperation::SetStatus) => set_status(files, call, d.file),
        None => call.refuse(LinuxErrno::EINVAL),
    }
}
