//! Counters (eventfd(2)).
ghost use Rattle.std.specs.Prelude.{◌≡◌};
ghost use Rattle.lx_machine.specs.Descriptors.{files_outcome};
ghost use Rattle.lx_machine.specs.Eventfd.{counter_at, eventfd2, eventfd_at};

use crate::descriptors::{flags, has_cloexec, has_nonblock, has_semaphore, lowest_from};
use crate::files::{add_file, descriptor, set_descriptor};
use crate::lists::{first_free, set_place};
use linux_abi::LinuxErrno;
use lx_machine::calls::LxCall;
use lx_machine::files::{Counter, FileKind, Files};

/// A counter with this value.
fn add_counter(files: &mut Files, number: u32, value: u64, flags: u64)
    ensures { files.new ≡ counter_at value flags files.old number }
{
    let counter = Counter {
        value,
        semaphore: has_semaphore(flags),
    };
    set_place(&mut files.counters, number, Some(counter));
}

/// A counter, its open file and a descriptor, at these numbers.
fn eventfd_at(files: &mut Files, call: &mut LxCall, fd: u32, file: u32, number: u32)
    ensures { files_outcome files.new call.new ≡ eventfd_at files.old call.old fd file number }
{
    let flags = flags(call, 1);
    add_counter(files, number, u64::from(call.low_argument(0)), flags);
    add_file(files, file, FileKind::Counter(number), has_nonblock(flags));
    set_descriptor(files, fd, descriptor(file, has_cloexec(flags)));
    call.answer(u64::from(fd));
}

/// Makes a counter with an open file and a descriptor (eventfd(2)).
pub fn eventfd2(files: &mut Files, call: &mut LxCall)
    ensures { files_outcome files.new call.new ≡ eventfd2 files.old call.old }
{
    let fd = lowest_from(files, 0);
    let file = first_free(&files.files);
    let number = first_free(&files.counters);
    match (fd, file, number) {
        (Some(fd), Some(file), Some(number)) => eventfd_at(files, call, fd, file, number),
        _ => call.refuse(LinuxErrno::EMFILE),
    }
}
