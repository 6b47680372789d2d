//! The end of a descriptor (close(2)).
ghost use Rattle.std.specs.Prelude.{◌≡◌};
ghost use Rattle.lx_machine.specs.Close.{close};
ghost use Rattle.lx_machine.specs.Descriptors.{files_outcome};

use crate::descriptors::named;
use crate::files::close_descriptor;
use linux_abi::LinuxErrno;
use lx_machine::calls::LxCall;
use lx_machine::files::Files;

/// Closes a descriptor (close(2)).
pub fn close(files: &mut Files, call: &mut LxCall)
    ensures { files_outcome files.new call.new ≡ close files.old call.old }
{
    let fd = call.low_argument(0);
    match named(files, call, 0) {
        Some(_) => {
            close_descriptor(files, fd);
            call.answer(0);
        }
        None => call.refuse(LinuxErrno::EBADF),
    }
}
