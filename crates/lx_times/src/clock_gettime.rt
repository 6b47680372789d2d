//! clock_gettime(2).
ghost use Rattle.std.specs.Prelude.{◌≡◌, OnOk, OnErr};
ghost use Rattle.lx_machine.specs.Calls.{first_refusal};
ghost use Rattle.lx_machine.specs.ClockGettime.{clock_gettime_clocked, clock_gettime_refusals, clock_gettime_stage};

use crate::time::{TIME, time_bytes};
use linux_abi::LinuxErrno;
use linux_abi::time::ClockId;
use lx_machine::buffer::NoMemory;
use lx_machine::calls::{LxCall, Pieces, Stage, refused_if};
use std::alloc::Global;

/// What refuses clock_gettime(2) at its entry.
pub fn clock_gettime_refusal(call: &LxCall) -> Option<LinuxErrno>
    ensures { result ≡ first_refusal (clock_gettime_refusals call.now) }
{
    let clock = ClockId::new(u64::from(call.low_argument(0)));
    refused_if(clock.is_none(), LinuxErrno::EINVAL)
}

/// What clock_gettime(2) does next.
pub fn clock_gettime_stage(_call: &LxCall) -> Stage
    ensures { result ≡ clock_gettime_stage _call.now }
{
    Stage::Clock
}

/// clock_gettime(2) stores the clock. Where memory is wanting, nothing changes.
pub fn clock_gettime_clocked(alloc: Global, clock: u64, call: &mut LxCall) -> Result<(), NoMemory>
    ensures ok { OnOk result (call.new ≡ clock_gettime_clocked clock call.old) }
    ensures err { OnErr result (call.new ≡ call.old) }
{
    let bytes = time_bytes(alloc, clock)?;
    let pieces = Pieces::one(alloc, call.arguments[1], TIME)?;
    call.answer_with(0, pieces, bytes);
    Ok(())
}
