//! The moves of a transfer, when it has one, and how a signal ends its wait (read(2), write(2), signal(7)).
ghost use Rattle.std.specs.Prelude.{IfErr, is_some, None, OnErr, OnOk, Some, ◌≡◌};
ghost use Rattle.lx_machine.specs.Move.{can_transfer, interrupted, interrupted_answer, MakesTransfer, may_restart, move_file, transferred};
ghost use Rattle.lx_machine.specs.Transfers.{transfer_outcome};

use crate::read::{can_read, read_move};
use crate::transfers::{end_with, is_read};
use crate::write::{can_write, write_move};
use linux_abi::{LinuxErrno, answer};
use lx_files::files::numbered_at;
use lx_machine::calls::LxCall;
use lx_machine::files::{Files, NumberedFile};
use lx_machine::refusal::LxRefusal;
use std::alloc::Global;

/// Moves bytes between the call and this open file.
fn move_file(
    alloc: Global,
    files: &mut Files,
    call: &mut LxCall,
    f: NumberedFile,
) -> Result<bool, LxRefusal>
    ensures { MakesTransfer (move_file files.old call.old f) files.old call.old files.new call.new result }
{
    if is_read(call) {
        read_move(alloc, files, call, f)
    } else {
        write_move(files, call, f)
    }
}

/// Moves bytes between the call and its open file (read(2), write(2), pipe(7), eventfd(2)), and tells whether the thread
/// gets SIGPIPE. Not enabled: it has to wait, or holds no open file that bytes move to or from. Then, and where memory is
/// wanting, nothing changes.
pub fn move_bytes(alloc: Global, files: &mut Files, call: &mut LxCall) -> Result<bool, LxRefusal>
    ensures { MakesTransfer (transferred files.old call.old) files.old call.old files.new call.new result }
{
    let Some(file) = call.held else {
        return Err(LxRefusal::NoStep);
    };
    match numbered_at(files, file) {
        Some(f) => move_file(alloc, files, call, f),
        None => Err(LxRefusal::NoStep),
    }
}

/// Whether the transfer with this open file can move.
fn can_move_file(files: &Files, call: &LxCall, f: NumberedFile) -> bool
    ensures { result ≡ is_some (move_file files.now call.now f) }
{
    if is_read(call) {
        can_read(files, call, f)
    } else {
        can_write(files, call, f)
    }
}

/// Whether a transfer can move bytes or end now (read(2), write(2)): else it has to wait.
pub fn can_move(files: &Files, call: &LxCall) -> bool
    ensures { result ≡ can_transfer files.now call.now }
{
    let Some(file) = call.held else {
        return false;
    };
    match numbered_at(files, file) {
        Some(f) => can_move_file(files, call, f),
        None => false,
    }
}

/// What the call answers where a signal ends its wait.
fn interrupted_answer(call: &LxCall) -> u64
    ensures { result ≡ interrupted_answer call.now }
{
    if call.moved > 0 {
        call.moved
    } else {
        answer(LinuxErrno::EINTR)
    }
}

/// Interrupt: a signal ends the wait of a transfer (signal(7)), which answers what it has moved before, and else EINTR. Not
/// enabled: it holds no open file; then nothing changes.
pub fn interrupt(files: &mut Files, call: &mut LxCall) -> Result<(), LxRefusal>
    ensures ok { OnOk result (interrupted files.old call.old ≡ Some (transfer_outcome files.new call.new)) }
    ensures err { OnErr result (interrupted files.old call.old ≡ None) }
    ensures kept { OnErr result ((files.new ≡ files.old) × (call.new ≡ call.old)) }
    ensures no_step { IfErr result (λ e. e ≡ LxRefusal.NoStep) }
{
    let Some(file) = call.held else {
        return Err(LxRefusal::NoStep);
    };
    let n = interrupted_answer(call);
    end_with(files, call, file, n);
    Ok(())
}

/// Whether a transfer that a signal has ended may start again (signal(7), SA_RESTART): it has moved nothing.
pub fn may_restart(call: &LxCall) -> bool
    ensures { result ≡ may_restart call.now }
{
    call.moved == 0
}
