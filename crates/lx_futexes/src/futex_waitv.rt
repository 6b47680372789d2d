//! futex_waitv(2): its refusals at entry, its shape, and its steps.
ghost use Rattle.std.specs.Prelude.{◌≡◌, Some, None, IfOk, IfErr, OnOk, OnErr, is_some};
ghost use Rattle.std.specs.Bool.{OnTrue, OnFalse};
ghost use Rattle.lx_machine.specs.Calls.{first_refusal};
ghost use Rattle.lx_machine.specs.FutexWaitv.{address_in_place, flags_in_place, has_bad_place, has_good_flags, has_queued, is_bad_place, place_count, place_wait, places_of, released_place, reserved_in_place, timeout_piece, value_in_place, waitv_answered, waitv_clocked, waitv_expired, waitv_fetched, waitv_given_up, waitv_pieces, waitv_refusals, waitv_restarts, waitv_resumed, waitv_stage};
ghost use Rattle.lx_machine.specs.Queue.{queue_outcome};

use crate::futexes::{
    MOST_PLACES, has_time, is_timed, is_unaligned_word, leave_queue, wait_no_more,
};
use linux_abi::LinuxErrno;
use linux_abi::futexes::{FUTEX_32, FUTEX_BITSET_MATCH_ANY, FUTEX_PRIVATE_FLAG};
use lx_machine::buffer::NoMemory;
use lx_machine::calls::{LxCall, Piece, Pieces, Restart, Stage, refused_if};
use lx_machine::futexes::Wait;
use lx_machine::queue::Queue;
use lx_machine::refusal::LxRefusal;
use lx_times::time::{TIME, duration, field, has_passed, timeout_fetched};
use std::alloc::Global;

/// The bytes of a struct futex_waitv.
const PLACE: u64 = 24;

/// How many places are asked for.
fn place_count(call: &LxCall) -> u32
    ensures { result ≡ place_count call.now }
{
    call.low_argument(1)
}

/// What refuses futex_waitv(2) at its entry.
pub fn waitv_refusal(call: &LxCall) -> Option<LinuxErrno>
    ensures { result ≡ first_refusal (waitv_refusals call.now) }
{
    let has_flags = call.low_argument(2) != 0;
    let has_bad_count = place_count(call) == 0 || place_count(call) > MOST_PLACES;
    let has_no_places = call.arguments[0] == 0;
    let has_bad_clock = is_timed(call) && call.low_argument(4) > 1;
    refused_if(
        has_flags || has_bad_count || has_no_places || has_bad_clock,
        LinuxErrno::EINVAL,
    )
}

/// What futex_waitv(2) fetches first: its timeout, if it has one, and then its places.
pub fn waitv_pieces(alloc: Global, call: &LxCall) -> Result<Pieces, NoMemory>
    ensures { IfOk result (λ pieces. pieces ≡ waitv_pieces call.now) }
{
    let [places, _, _, timeout, ..] = call.arguments;
    let mut pieces = Pieces::none(alloc);
    if is_timed(call) {
        pieces.push(Piece {
            at: timeout,
            len: TIME,
        })?;
    }
    pieces.push(Piece {
        at: places,
        len: PLACE * u64::from(place_count(call)),
    })?;
    Ok(pieces)
}

/// The value of a place.
fn value_in_place(bytes: &[u8], i: u32) -> u64
    ensures { result ≡ value_in_place bytes.now i }
{
    field(bytes, 24 * i as usize)
}

/// The address of its word.
fn address_in_place(bytes: &[u8], i: u32) -> u64
    ensures { result ≡ address_in_place bytes.now i }
{
    field(bytes, 24 * i as usize + 8)
}

/// Its flags.
fn flags_in_place(bytes: &[u8], i: u32) -> u64
    ensures { result ≡ flags_in_place bytes.now i }
{
    field(bytes, 24 * i as usize + 16) % (1 << 32)
}

/// Its reserved word.
fn reserved_in_place(bytes: &[u8], i: u32) -> u64
    ensures { result ≡ reserved_in_place bytes.now i }
{
    field(bytes, 24 * i as usize + 16) / (1 << 32)
}

/// Whether its flags are FUTEX_32, with FUTEX_PRIVATE_FLAG or without.
fn has_good_flags(bytes: &[u8], i: u32) -> bool
    ensures { result ≡ has_good_flags bytes.now i }
{
    let flags = flags_in_place(bytes, i);
    flags == u64::from(FUTEX_32) || flags == u64::from(FUTEX_32) + FUTEX_PRIVATE_FLAG
}

/// Whether it is a bad one.
fn is_bad_place(bytes: &[u8], i: u32) -> bool
    ensures { result ≡ is_bad_place bytes.now i }
{
    !has_good_flags(bytes, i)
        || reserved_in_place(bytes, i) != 0
        || is_unaligned_word(address_in_place(bytes, i))
}

/// Whether one of the first `n` places is a bad one.
#[tactic(auto, using(crate::proofs::Places::next_place, crate::proofs::Places::no_place))]
fn has_bad_place(bytes: &[u8], n: u32) -> bool
    ensures { result ≡ has_bad_place bytes.now n }
{
    for i in 0..n {
        if is_bad_place(bytes, i) {
            return true;
        }
    }
    false
}

/// The bytes of the places, behind those of a timeout.
fn places_of(call: &LxCall) -> &[u8]
    ensures { result.now ≡ places_of call.now }
{
    let bytes = call.bytes.as_slice();
    if is_timed(call) {
        &bytes[bytes.len().min(16)..]
    } else {
        bytes
    }
}

/// futex_waitv(2) once it has fetched its timeout, or its places: a bad one refuses it.
pub fn waitv_fetched(call: &mut LxCall)
    ensures { call.new ≡ waitv_fetched call.old }
{
    if !call.pieces.as_slice().is_empty() {
        timeout_fetched(call);
    } else if has_bad_place(places_of(call), place_count(call)) {
        call.refuse(LinuxErrno::EINVAL);
    }
}

/// The deadline of a wait with a timeout is set, and its places are left.
pub fn waitv_clocked(call: &mut LxCall)
    ensures { call.new ≡ waitv_clocked call.old }
{
    call.deadline = Some(duration(call.bytes.as_slice()));
    call.bytes.drop_first(16);
}

/// The place with this number, with all bits.
fn place_wait(call: &LxCall, i: u32) -> Wait
    ensures { result ≡ place_wait call.now i }
{
    let bytes = call.bytes.as_slice();
    Wait {
        at: address_in_place(bytes, i),
        expected: value_in_place(bytes, i),
        bits: FUTEX_BITSET_MATCH_ANY,
        place: i,
        many: true,
    }
}

/// Whether no place is left to be queued.
fn has_queued(call: &LxCall) -> bool
    ensures { result ≡ has_queued call.now }
{
    call.refusal.is_some() || place_count(call) <= call.queued
}

/// What futex_waitv(2) does next.
pub fn waitv_stage(call: &LxCall) -> Stage
    ensures { result ≡ waitv_stage call.now }
{
    if let Some(p) = call.pieces.as_slice().first() {
        return Stage::Fetch(*p);
    }
    if has_time(call) {
        return Stage::Clock;
    }
    if has_queued(call) {
        return Stage::WaitMany;
    }
    Stage::Queue(place_wait(call, call.queued))
}

/// Whether futex_waitv(2) starts again after a signal has ended its wait.
pub fn waitv_restarts(call: &LxCall) -> Restart
    ensures { result ≡ waitv_restarts call.now }
{
    if is_timed(call) {
        Restart::Never
    } else {
        Restart::AsAsked
    }
}

/// The least place that was released.
#[tactic(auto, using(crate::proofs::Places::next_place, crate::proofs::Places::no_place))]
fn released_place(tid: u32, queue: &Queue, call: &LxCall) -> Option<u32>
    ensures { result ≡ released_place tid queue.now call.now }
{
    for place in 0..call.queued {
        if !queue.has_place(tid, place) {
            return Some(place);
        }
    }
    None
}

/// Whether a place was released, or refused.
fn has_answer(tid: u32, queue: &Queue, call: &LxCall) -> bool
    ensures { result ≡ is_some (waitv_answered tid queue.now call.now) }
{
    released_place(tid, queue, call).is_some() || call.refusal.is_some()
}

/// The answer is a place that was released, or else what refused a place. False: there is none; then nothing changes.
fn answer_places(tid: u32, queue: &Queue, call: &mut LxCall) -> bool
    ensures answered { OnTrue result (waitv_answered tid queue.now call.old ≡ Some call.new) }
    ensures none { OnFalse result (waitv_answered tid queue.now call.old ≡ None) }
    ensures kept { OnFalse result (call.new ≡ call.old) }
{
    match (released_place(tid, queue, call), call.refusal) {
        (Some(place), _) => call.answer(u64::from(place)),
        (None, Some(e)) => call.refuse(e),
        (None, None) => return false,
    }
    true
}

/// A wait for many places has an answer, and all its places leave the queue. Not enabled: none was released or refused; then
/// nothing changes.
pub fn waitv_resumed(tid: u32, queue: &mut Queue, call: &mut LxCall) -> Result<(), LxRefusal>
    ensures ok { OnOk result (waitv_resumed tid queue.old call.old ≡ Some (queue_outcome queue.new call.new)) }
    ensures err { OnErr result (waitv_resumed tid queue.old call.old ≡ None) }
    ensures kept { OnErr result ((queue.new ≡ queue.old) × (call.new ≡ call.old)) }
    ensures no_step { IfErr result (λ e. e ≡ LxRefusal.NoStep) }
{
    if !answer_places(tid, queue, call) {
        return Err(LxRefusal::NoStep);
    }
    queue.remove(tid);
    wait_no_more(call);
    Ok(())
}

/// A wait for many places leaves the queue, as by a signal. Not enabled: it has an answer; then nothing changes.
pub fn waitv_given_up(
    e: LinuxErrno,
    tid: u32,
    queue: &mut Queue,
    call: &mut LxCall,
) -> Result<(), LxRefusal>
    ensures ok { OnOk result (waitv_given_up e tid queue.old call.old ≡ Some (queue_outcome queue.new call.new)) }
    ensures err { OnErr result (waitv_given_up e tid queue.old call.old ≡ None) }
    ensures kept { OnErr result ((queue.new ≡ queue.old) × (call.new ≡ call.old)) }
    ensures no_step { IfErr result (λ e. e ≡ LxRefusal.NoStep) }
{
    if has_answer(tid, queue, call) {
        return Err(LxRefusal::NoStep);
    }
    leave_queue(e, tid, queue, call);
    Ok(())
}

/// A wait for many places ends at its deadline. Not enabled: that has not passed, or it has an answer; then nothing changes.
pub fn waitv_expired(
    clock: u64,
    tid: u32,
    queue: &mut Queue,
    call: &mut LxCall,
) -> Result<(), LxRefusal>
    ensures ok { OnOk result (waitv_expired clock tid queue.old call.old ≡ Some (queue_outcome queue.new call.new)) }
    ensures err { OnErr result (waitv_expired clock tid queue.old call.old ≡ None) }
    ensures kept { OnErr result ((queue.new ≡ queue.old) × (call.new ≡ call.old)) }
    ensures no_step { IfErr result (λ e. e ≡ LxRefusal.NoStep) }
{
    if !has_passed(clock, call.deadline) {
        return Err(LxRefusal::NoStep);
    }
    waitv_given_up(LinuxErrno::ETIMEDOUT, tid, queue, call)
}
