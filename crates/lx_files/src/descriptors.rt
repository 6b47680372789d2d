//! Words on calls on descriptors (open(2), dup(2)).
ghost use Rattle.std.specs.Prelude.{length, ◌<◌, ◌^◌, ◌≡◌, ◌≤◌};
ghost use Rattle.lx_machine.specs.Calls.{low_argument};
ghost use Rattle.lx_machine.specs.Descriptors.{files_outcome, has_cloexec, has_nonblock, has_semaphore, lowest_from, refused_where_open, second_free};
ghost use Rattle.lx_machine.specs.Lists.{at_place};

use crate::lists::{next_free, place_at};
use linux_abi::LinuxErrno;
use linux_abi::files::{EFD_SEMAPHORE, O_CLOEXEC, O_NONBLOCK};
use lx_machine::calls::LxCall;
use lx_machine::files::{Descriptor, Files};

/// Whether a new descriptor is to have its close flag set (O_CLOEXEC).
pub fn has_cloexec(flags: u64) -> bool
    ensures { result ≡ has_cloexec flags }
{
    flags / O_CLOEXEC % 2 == 1
}

/// Whether an open file is to be nonblocking (O_NONBLOCK).
pub(crate) fn has_nonblock(flags: u64) -> bool
    ensures { result ≡ has_nonblock flags }
{
    flags / O_NONBLOCK % 2 == 1
}

/// Whether a read of a counter is to take 1 alone (EFD_SEMAPHORE).
pub(crate) fn has_semaphore(flags: u64) -> bool
    ensures { result ≡ has_semaphore flags }
{
    flags / EFD_SEMAPHORE % 2 == 1
}

/// The flags that an argument gives.
pub(crate) fn flags(call: &LxCall, at: usize) -> u64
    requires { at < 6 }
    ensures { result ≡ low_argument call.now at }
{
    u64::from(call.low_argument(at))
}

/// The descriptor that an argument names, if it is open.
pub fn named(files: &Files, call: &LxCall, at: usize) -> Option<Descriptor>
    requires { at < 6 }
    ensures { result ≡ at_place files.now.descriptors (low_argument call.now at) }
{
    place_at(&files.descriptors, call.low_argument(at))
}

/// The lowest free descriptor from this number on.
pub fn lowest_from(files: &Files, from: u32) -> Option<u32>
    requires { from ≤ 256 }
    ensures { result ≡ lowest_from files.now from }
{
    next_free(&files.descriptors, from)
}

/// The lowest free place behind this one.
pub(crate) fn second_free<T>(places: &[Option<T>], first: u32) -> Option<u32>
    requires first { first < length places.now }
    requires length { length places.now < 2 ^ 31 }
    ensures { result ≡ second_free places.now first }
{
    next_free(places, first + 1)
}

/// Refuses the call so where its descriptor is open.
pub(crate) fn refuse_where_open(files: &Files, call: &mut LxCall, e: LinuxErrno)
    ensures { files_outcome files.now call.new ≡ refused_where_open files.now call.old e (at_place files.now.descriptors (low_argument call.old 0)) }
{
    match named(files, call, 0) {
        Some(_) => call.refuse(e),
        None => call.refuse(LinuxErrno::EBADF),
    }
}
