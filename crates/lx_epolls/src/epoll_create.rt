//! A new epoll (epoll_create1(2)).
ghost use Rattle.std.specs.Prelude.{◌≡◌};
ghost use Rattle.lx_machine.specs.Calls.{first_refusal};
ghost use Rattle.lx_machine.specs.Descriptors.{files_outcome};
ghost use Rattle.lx_machine.specs.EpollCreate.{epoll_create1, epoll_create_at, epoll_create_refusals};

use linux_abi::LinuxErrno;
use lx_files::descriptors::{has_cloexec, lowest_from};
use lx_files::files::{add_file, descriptor, set_descriptor};
use lx_files::lists::{first_free, set_place};
use lx_machine::calls::{LxCall, has_other, refused_if};
use lx_machine::files::{FileKind, Files, Interests};
use std::alloc::Global;

/// EPOLL_CLOEXEC (epoll_create1(2)).
const EPOLL_FLAGS: u32 = 0x80000;

/// What refuses epoll_create1(2) at its entry.
pub fn epoll_create_refusal(call: &LxCall) -> Option<LinuxErrno>
    ensures { result ≡ first_refusal (epoll_create_refusals call.now) }
{
    refused_if(
        has_other(EPOLL_FLAGS, call.low_argument(0)),
        LinuxErrno::EINVAL,
    )
}

/// An epoll without interests, its open file and a descriptor, at these numbers.
fn epoll_create_at(
    alloc: Global,
    files: &mut Files,
    call: &mut LxCall,
    fd: u32,
    file: u32,
    number: u32,
)
    ensures { files_outcome files.new call.new ≡ epoll_create_at files.old call.old fd file number }
{
    set_place(&mut files.epolls, number, Some(Interests::none(alloc)));
    add_file(files, file, FileKind::Epoll(number), false);
    let close_on_exec = has_cloexec(u64::from(call.low_argument(0)));
    set_descriptor(files, fd, descriptor(file, close_on_exec));
    call.answer(u64::from(fd));
}

/// Makes an epoll with an open file and a descriptor (epoll_create1(2)).
pub fn epoll_create1(alloc: Global, files: &mut Files, call: &mut LxCall)
    ensures { files_outcome files.new call.new ≡ epoll_create1 files.old call.old }
{
    let Some(fd) = lowest_from(files, 0) else {
        call.refuse(LinuxErrno::EMFILE);
        return;
    };
    let file = first_free(&files.files);
    let number = first_free(&files.epolls);
    match (file, number) {
        (Some(file), Some(number)) => epoll_create_at(alloc, files, call, fd, file, number),
        _ => call.refuse(LinuxErrno::ENFILE),
    }
}
