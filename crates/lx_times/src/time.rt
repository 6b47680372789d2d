//! Times, timeouts and deadlines (clock_nanosleep(2)).
ghost use Rattle.std.specs.Prelude.{◌≡◌, IfOk};
ghost use Rattle.lx_machine.specs.Time.{add_time, duration, field, has_passed, is_bad_time, rest_of, time_bytes, timeout_fetched, with_deadline};

use byteorder::{ByteOrder, LittleEndian};
use linux_abi::LinuxErrno;
use lx_machine::buffer::{Bytes, NoMemory};
use lx_machine::calls::LxCall;
use std::alloc::Global;

/// The bytes of a struct timespec.
pub const TIME: u64 = 16;

/// The microseconds of a second.
const SECOND: u64 = 1_000_000;

/// The greatest number of nanoseconds in a struct timespec.
const MOST_NANOS: u64 = 999_999_999;

/// The number in the eight bytes from a place on, little-endian, and 0 where they are not all there.
pub fn field(bytes: &[u8], at: usize) -> u64
    ensures { result ≡ field bytes.now at }
{
    if bytes.len() < 8 || bytes.len() - 8 < at {
        0
    } else {
        LittleEndian::read_u64(&bytes[at..])
    }
}

/// A time later by so many microseconds, at most the last one.
pub fn add_time(time: u64, micros: u64) -> u64
    ensures { result ≡ add_time time micros }
{
    time.saturating_add(micros)
}

/// Whether a struct timespec has negative seconds, or nanoseconds outside 0 to 999,999,999 (nanosleep(2)).
pub fn is_bad_time(bytes: &[u8]) -> bool
    ensures { result ≡ is_bad_time bytes.now }
{
    field(bytes, 0) >= 1 << 63 || field(bytes, 8) > MOST_NANOS
}

/// A struct timespec in microseconds, rounded up, at most the last time.
pub fn duration(bytes: &[u8]) -> u64
    ensures { result ≡ duration bytes.now }
{
    let seconds = u128::from(field(bytes, 0));
    let nanos = u128::from(field(bytes, 8));
    let micros = seconds * u128::from(SECOND) + (nanos + 999) / 1000;
    micros.min(u128::from(u64::MAX)) as u64
}

/// Microseconds as a struct timespec.
pub(crate) fn time_bytes(alloc: Global, micros: u64) -> Result<Bytes, NoMemory>
    ensures { IfOk result (λ bytes. bytes ≡ time_bytes micros) }
{
    let mut numbers = [0; 16];
    LittleEndian::write_u64(&mut numbers, micros / SECOND);
    LittleEndian::write_u64(&mut numbers[8..], micros % SECOND * 1000);
    let mut bytes = Bytes::empty(alloc);
    bytes.append(&numbers)?;
    Ok(bytes)
}

/// Whether the clock has come to the deadline.
pub fn has_passed(clock: u64, deadline: Option<u64>) -> bool
    ensures { result ≡ has_passed clock deadline }
{
    match deadline {
        Some(deadline) => deadline <= clock,
        None => false,
    }
}

/// How long it is to the deadline.
pub(crate) fn rest_of(clock: u64, deadline: Option<u64>) -> u64
    ensures { result ≡ rest_of clock deadline }
{
    match deadline {
        Some(deadline) => deadline.saturating_sub(clock),
        None => 0,
    }
}

/// A call that has fetched its timeout, which refuses it where it is bad (nanosleep(2), futex(2)).
pub fn timeout_fetched(call: &mut LxCall)
    ensures { call.new ≡ timeout_fetched call.old }
{
    if is_bad_time(call.bytes.as_slice()) {
        call.refuse(LinuxErrno::EINVAL);
    }
}

/// The call has this deadline, and its timeout has been read.
pub fn set_deadline(call: &mut LxCall, deadline: u64)
    ensures { call.new ≡ with_deadline call.old deadline }
{
    call.deadline = Some(deadline);
    call.bytes.clear();
}
