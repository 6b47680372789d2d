//! No open file is a terminal (ioctl(2)).
ghost use Rattle.std.specs.Prelude.{◌≡◌};
ghost use Rattle.lx_machine.specs.Descriptors.{files_outcome};
ghost use Rattle.lx_machine.specs.Ioctl.{ioctl};

use crate::descriptors::refuse_where_open;
use linux_abi::LinuxErrno;
use lx_machine::calls::LxCall;
use lx_machine::files::Files;

/// No open file is a terminal (ioctl(2)).
pub fn ioctl(files: &Files, call: &mut LxCall)
    ensures { files_outcome files.now call.new ≡ ioctl files.now call.old }
{
    refuse_where_open(files, call, LinuxErrno::ENOTTY);
}
