//! nanosleep(2).
ghost use Rattle.std.specs.Prelude.{◌≡◌, Some, None, IfOk, IfErr, OnOk, OnErr};
ghost use Rattle.lx_machine.specs.Nanosleep.{nanosleep_clocked, nanosleep_expired, nanosleep_interrupted, nanosleep_pieces, nanosleep_stage, sleeping};

use crate::time::{TIME, add_time, duration, has_passed, rest_of, set_deadline, time_bytes};
use linux_abi::{LinuxErrno, answer};
use lx_machine::buffer::NoMemory;
use lx_machine::calls::{LxCall, Pieces, Stage};
use lx_machine::refusal::LxRefusal;
use std::alloc::Global;

/// What nanosleep(2) fetches first: its duration.
pub fn nanosleep_pieces(alloc: Global, call: &LxCall) -> Result<Pieces, NoMemory>
    ensures { IfOk result (λ pieces. pieces ≡ nanosleep_pieces call.now) }
{
    Pieces::one(alloc, call.arguments[0], TIME)
}

/// The deadline is set, and then the call waits.
fn sleeping(deadline: Option<u64>) -> Stage
    ensures { result ≡ sleeping deadline }
{
    match deadline {
        Some(_) => Stage::Rest,
        None => Stage::Clock,
    }
}

/// What nanosleep(2) does next.
pub fn nanosleep_stage(call: &LxCall) -> Stage
    ensures { result ≡ nanosleep_stage call.now }
{
    match call.pieces.as_slice().first() {
        Some(p) => Stage::Fetch(*p),
        None => sleeping(call.deadline),
    }
}

/// The deadline of nanosleep(2): the clock plus its duration.
pub fn nanosleep_clocked(clock: u64, call: &mut LxCall)
    ensures { call.new ≡ nanosleep_clocked clock call.old }
{
    let deadline = add_time(clock, duration(call.bytes.as_slice()));
    set_deadline(call, deadline);
}

/// nanosleep(2) ends at its deadline. Not enabled: that has not passed; then nothing changes.
pub fn nanosleep_expired(clock: u64, call: &mut LxCall) -> Result<(), LxRefusal>
    ensures ok { OnOk result (nanosleep_expired clock call.old ≡ Some call.new) }
    ensures err { OnErr result (nanosleep_expired clock call.old ≡ None) }
    ensures kept { OnErr result (call.new ≡ call.old) }
    ensures no_step { IfErr result (λ e. e ≡ LxRefusal.NoStep) }
{
    if !has_passed(clock, call.deadline) {
        return Err(LxRefusal::NoStep);
    }
    call.answer(0);
    Ok(())
}

/// A signal ends nanosleep(2): what was left is stored where it is asked for. Where memory is wanting, nothing changes.
pub fn nanosleep_interrupted(alloc: Global, clock: u64, call: &mut LxCall) -> Result<(), NoMemory>
    ensures ok { OnOk result (call.new ≡ nanosleep_interrupted clock call.old) }
    ensures err { OnErr result (call.new ≡ call.old) }
{
    let at = call.arguments[1];
    if at == 0 {
        call.refuse(LinuxErrno::EINTR);
        return Ok(());
    }
    let bytes = time_bytes(alloc, rest_of(clock, call.deadline))?;
    let pieces = Pieces::one(alloc, at, TIME)?;
    call.answer_with(answer(LinuxErrno::EINTR), pieces, bytes);
    Ok(())
}
