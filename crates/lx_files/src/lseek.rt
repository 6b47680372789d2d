//! No open file has a position (lseek(2)).
ghost use Rattle.std.specs.Prelude.{◌≡◌};
ghost use Rattle.lx_machine.specs.Descriptors.{files_outcome};
ghost use Rattle.lx_machine.specs.Lseek.{lseek};

use crate::descriptors::refuse_where_open;
use linux_abi::LinuxErrno;
use lx_machine::calls::LxCall;
use lx_machine::files::Files;

/// No open file has a place in it (lseek(2)).
pub fn lseek(files: &Files, call: &mut LxCall)
    ensures { files_outcome files.now call.new ≡ lseek files.now call.old }
{
    refuse_where_open(files, call, LinuxErrno::ESPIPE);
}
