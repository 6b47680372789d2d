//! The hold of the open file of a transfer, and how a move ends (read(2), write(2), readv(2)).
ghost use Rattle.std.specs.Prelude.{IfErr, None, OnErr, OnOk, Some, true, ◌≡◌};
ghost use Rattle.lx_machine.specs.Move.{MakesTransfer};
ghost use Rattle.lx_machine.specs.Transfers.{direction_refusal, ends_refused, ends_with, gives_back, has_most_holds, held, hold_file, hold_given_back, is_held_most, is_read, transfer_outcome, waits};

use linux_abi::{Call, LinuxErrno};
use lx_files::files::{give_back, hold_once, numbered_at};
use lx_files::lists::place_at;
use lx_machine::buffer::NoMemory;
use lx_machine::calls::LxCall;
use lx_machine::files::{FileKind, Files, NumberedFile};
use lx_machine::refusal::LxRefusal;

/// Whether the call reads.
pub(crate) fn is_read(call: &LxCall) -> bool
    ensures { result ≡ is_read call.now }
{
    match Call::new(call.number) {
        Some(Call::Read) => true,
        Some(Call::Readv) => true,
        _ => false,
    }
}

/// What refuses a transfer in this direction.
fn direction_refusal(reading: bool, kind: FileKind) -> Option<LinuxErrno>
    ensures { result ≡ direction_refusal reading kind }
{
    match kind {
        FileKind::Epoll(_) => Some(LinuxErrno::EINVAL),
        FileKind::Counter(_) => None,
        FileKind::Input if reading => None,
        FileKind::PipeRead(_) if reading => None,
        FileKind::Console(_) if !reading => None,
        FileKind::PipeWrite(_) if !reading => None,
        _ => Some(LinuxErrno::EBADF),
    }
}

/// Holds this open file, or refuses the call.
fn hold_file(files: &mut Files, call: &mut LxCall, f: NumberedFile) -> Result<(), NoMemory>
    ensures ok { OnOk result (transfer_outcome files.new call.new ≡ hold_file files.old call.old (Some f)) }
    ensures err { OnErr result ((files.new ≡ files.old) × (call.new ≡ call.old)) }
    ensures full { OnErr result (is_held_most (Some f.file) ≡ true) }
{
    match direction_refusal(is_read(call), f.file.kind) {
        Some(e) => call.refuse(e),
        None => {
            hold_once(files, f)?;
            call.held = Some(f.number);
        }
    }
    Ok(())
}

/// Holds the open file of the first argument, or refuses the call (read(2), write(2)). `NoMemory`: one more hold of the
/// file can't be counted; then nothing changes.
pub fn hold(files: &mut Files, call: &mut LxCall) -> Result<(), NoMemory>
    ensures ok { OnOk result (transfer_outcome files.new call.new ≡ held files.old call.old) }
    ensures err { OnErr result ((files.new ≡ files.old) × (call.new ≡ call.old)) }
    ensures full { OnErr result (has_most_holds files.old call.old ≡ true) }
{
    let Some(d) = place_at(&files.descriptors, call.low_argument(0)) else {
        call.refuse(LinuxErrno::EBADF);
        return Ok(());
    };
    let Some(f) = numbered_at(files, d.file) else {
        call.refuse(LinuxErrno::EBADF);
        return Ok(());
    };
    hold_file(files, call, f)
}

/// The call gives this open file back.
pub(crate) fn finish(files: &mut Files, call: &mut LxCall, file: u32)
    ensures { transfer_outcome files.new call.new ≡ gives_back files.old call.old file }
{
    give_back(files, file);
    call.held = None;
}

/// The call gives its open file back. Not enabled: it holds none.
pub fn drop_hold(files: &mut Files, call: &mut LxCall) -> Result<(), LxRefusal>
    ensures ok { OnOk result (hold_given_back files.old call.old ≡ Some (transfer_outcome files.new call.new)) }
    ensures err { OnErr result (hold_given_back files.old call.old ≡ None) }
    ensures kept { OnErr result ((files.new ≡ files.old) × (call.new ≡ call.old)) }
    ensures no_step { IfErr result (λ e. e ≡ LxRefusal.NoStep) }
{
    match call.held {
        Some(file) => {
            finish(files, call, file);
            Ok(())
        }
        None => Err(LxRefusal::NoStep),
    }
}

/// A move that ends with this number.
pub(crate) fn end_with(files: &mut Files, call: &mut LxCall, file: u32, n: u64)
    ensures { ends_with files.old call.old file n ≡ Some (transfer_outcome files.new call.new) }
{
    call.answer(n);
    finish(files, call, file);
}

/// A move that ends with this error.
pub(crate) fn end_refused(files: &mut Files, call: &mut LxCall, file: u32, e: LinuxErrno)
    ensures { ends_refused files.old call.old file e ≡ Some (transfer_outcome files.new call.new) }
{
    call.refuse(e);
    finish(files, call, file);
}

/// A move that has to wait.
pub(crate) fn wait(files: &mut Files, call: &mut LxCall, f: NumberedFile) -> Result<bool, LxRefusal>
    ensures { MakesTransfer (waits files.old call.old f) files.old call.old files.new call.new result }
{
    if !f.file.nonblocking {
        return Err(LxRefusal::NoStep);
    }
    end_refused(files, call, f.number, LinuxErrno::EAGAIN);
    Ok(false)
}
