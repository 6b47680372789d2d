//! Duplicates of descriptors (dup(2), fcntl(2)).
ghost use Rattle.std.specs.Prelude.{◌≡◌};
ghost use Rattle.lx_machine.specs.Descriptors.{files_outcome};
ghost use Rattle.lx_machine.specs.Dup.{dup, dup3, dup3_to, duplicate};

use crate::descriptors::{flags, has_cloexec, lowest_from, named};
use crate::files::{close_descriptor, descriptor, set_descriptor};
use linux_abi::LinuxErrno;
use lx_machine::calls::LxCall;
use lx_machine::files::{DESCRIPTORS, Files};

/// Another descriptor for an open file, at the lowest number from `from` on.
pub(crate) fn duplicate(
    files: &mut Files,
    call: &mut LxCall,
    file: u32,
    close_on_exec: bool,
    from: u64,
)
    ensures { files_outcome files.new call.new ≡ duplicate files.old call.old file close_on_exec from }
{
    if from >= DESCRIPTORS as u64 {
        call.refuse(LinuxErrno::EINVAL);
        return;
    }
    match lowest_from(files, from as u32) {
        Some(fd) => {
            set_descriptor(files, fd, descriptor(file, close_on_exec));
            call.answer(u64::from(fd));
        }
        None => call.refuse(LinuxErrno::EMFILE),
    }
}

/// Makes another descriptor for an open file (dup(2)).
pub fn dup(files: &mut Files, call: &mut LxCall)
    ensures { files_outcome files.new call.new ≡ dup files.old call.old }
{
    match named(files, call, 0) {
        Some(d) => duplicate(files, call, d.file, false, 0),
        None => call.refuse(LinuxErrno::EBADF),
    }
}

/// The new number names the open file, and what it named before is closed.
fn dup3_to(files: &mut Files, call: &mut LxCall, file: u32, new: u32)
    ensures { files_outcome files.new call.new ≡ dup3_to files.old call.old file new }
{
    close_descriptor(files, new);
    let close_on_exec = has_cloexec(flags(call, 2));
    set_descriptor(files, new, descriptor(file, close_on_exec));
    call.answer(u64::from(new));
}

/// Makes a descriptor of a given number for an open file (dup(2)).
pub fn dup3(files: &mut Files, call: &mut LxCall)
    ensures { files_outcome files.new call.new ≡ dup3 files.old call.old }
{
    let new = call.low_argument(1);
    match named(files, call, 0) {
        Some(d) if new < DESCRIPTORS as u32 => dup3_to(files, call, d.file, new),
        _ => call.refuse(LinuxErrno::EBADF),
    }
}
