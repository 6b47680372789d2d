//! futex(2): its refusals at entry, its shape, and its steps.
ghost use Rattle.std.specs.Prelude.{◌≡◌, ◌<◌, ◌≤◌, ◌^◌, length, Some, None, IfOk, IfErr, OnOk, OnErr};
ghost use Rattle.lx_machine.specs.Calls.{first_refusal, low_argument, waits_no_more};
ghost use Rattle.lx_machine.specs.Futex.{after_wake_op, bit_set_refusals, compares, comparison_in, deadline_by, extended, futex_clocked, futex_fetched, futex_pieces, futex_refusals, futex_restarts, futex_stage, has_clock_flag, has_second, has_time, is_negative, is_timed, is_unaligned_word, is_wait, left_queue, lock_of, lock_stage, may_wait, moves_on, operand_in, operated, operation_in, operation_number, operation_refusals, own_refusals, place_queued, place_refused, queued, requeue_of, requeue_refusals, requeue_releases, requeued, requeued_by, resumed, value_in, wait_expired, wait_given_up, wait_of, wait_stage, waiter, waiting_from, wake_of, wake_op_by, wake_op_refusals, wakes_after, woken, word_operation_in};
ghost use Rattle.lx_machine.specs.Queue.{queue_outcome};

use crate::words::{readable_word, set_word, writable_word};
use linux_abi::LinuxErrno;
use linux_abi::futexes::{Comparison, FUTEX_BITSET_MATCH_ANY, FutexOperation, WordOperation};
use lx_machine::buffer::NoMemory;
use lx_machine::calls::{LxCall, Pieces, Restart, Stage, refused_if};
use lx_machine::futexes::{PiLock, Requeue, Wait, Wake, WakeOp};
use lx_machine::queue::Queue;
use lx_machine::refusal::LxRefusal;
use lx_machine::threads::LxWaiter;
use lx_memory::Memory;
use lx_times::time::{TIME, add_time, duration, has_passed, set_deadline, timeout_fetched};
use std::alloc::Global;

/// The most places of a wait.
pub(crate) const MOST_PLACES: u32 = 32;

/// The operation's number: without FUTEX_PRIVATE_FLAG and FUTEX_CLOCK_REALTIME.
fn operation_number(op: u32) -> u32
    ensures { result ≡ operation_number op }
{
    op % 128 + op / 512 * 512
}

/// FUTEX_CLOCK_REALTIME.
fn has_clock_flag(op: u32) -> bool
    ensures { result ≡ has_clock_flag op }
{
    op / 256 % 2 == 1
}

/// The call's operation, if it is known.
fn operation_in(call: &LxCall) -> Option<FutexOperation>
    ensures { result ≡ operation_in call.now }
{
    FutexOperation::new(u64::from(operation_number(call.low_argument(1))))
}

/// Whether it is a wait, which may name a clock.
fn is_wait(operation: FutexOperation) -> bool
    ensures { result ≡ is_wait operation }
{
    matches!(operation, FutexOperation::Wait | FutexOperation::WaitBitset)
}

/// Whether it is an operation that may wait.
fn may_wait(operation: FutexOperation) -> bool
    ensures { result ≡ may_wait operation }
{
    matches!(
        operation,
        FutexOperation::Wait | FutexOperation::WaitBitset | FutexOperation::LockPi
    )
}

/// Whether it is an operation on two words.
fn has_second(operation: FutexOperation) -> bool
    ensures { result ≡ has_second operation }
{
    matches!(
        operation,
        FutexOperation::Requeue | FutexOperation::CompareRequeue | FutexOperation::WakeOp
    )
}

/// Whether the address is no multiple of 4.
pub fn is_unaligned_word(at: u64) -> bool
    ensures { result ≡ is_unaligned_word at }
{
    at % 4 != 0
}

/// Whether the number is negative as a signed one.
fn is_negative(n: u32) -> bool
    ensures { result ≡ is_negative n }
{
    n >= 1 << 31
}

/// The operation of a wake-op on its second word, if it is known.
fn word_operation_in(val3: u32) -> Option<WordOperation>
    ensures { result ≡ word_operation_in val3 }
{
    WordOperation::new(u64::from(val3 / (1 << 28) % 8))
}

/// The comparison of a wake-op, if it is known.
fn comparison_in(val3: u32) -> Option<Comparison>
    ensures { result ≡ comparison_in val3 }
{
    Comparison::new(u64::from(val3 / (1 << 24) % 16))
}

/// An empty bit set.
fn bit_set_refusal(call: &LxCall) -> Option<LinuxErrno>
    ensures { result ≡ first_refusal (bit_set_refusals call.now) }
{
    refused_if(call.low_argument(5) == 0, LinuxErrno::EINVAL)
}

/// A requeue with a negative number.
fn requeue_refusal(call: &LxCall) -> Option<LinuxErrno>
    ensures { result ≡ first_refusal (requeue_refusals call.now) }
{
    refused_if(
        is_negative(call.low_argument(2)) || is_negative(call.low_argument(3)),
        LinuxErrno::EINVAL,
    )
}

/// A wake-op with an unknown operation or comparison.
fn wake_op_refusal(call: &LxCall) -> Option<LinuxErrno>
    ensures { result ≡ first_refusal (wake_op_refusals call.now) }
{
    let val3 = call.low_argument(5);
    refused_if(
        word_operation_in(val3).is_none() || comparison_in(val3).is_none(),
        LinuxErrno::ENOSYS,
    )
}

/// What refuses an operation alone.
fn own_refusal(call: &LxCall, operation: FutexOperation) -> Option<LinuxErrno>
    ensures { result ≡ first_refusal (own_refusals call.now operation) }
{
    match operation {
        FutexOperation::WaitBitset | FutexOperation::WakeBitset => bit_set_refusal(call),
        FutexOperation::Requeue | FutexOperation::CompareRequeue => requeue_refusal(call),
        FutexOperation::WakeOp => wake_op_refusal(call),
        _ => None,
    }
}

/// What refuses a known operation.
fn operation_refusal(call: &LxCall, operation: FutexOperation) -> Option<LinuxErrno>
    ensures { result ≡ first_refusal (operation_refusals call.now (Some operation)) }
{
    if has_clock_flag(call.low_argument(1)) && !is_wait(operation) {
        return Some(LinuxErrno::ENOSYS);
    }
    let [first, _, _, _, second, _] = call.arguments;
    if is_unaligned_word(first) || has_second(operation) && is_unaligned_word(second) {
        return Some(LinuxErrno::EINVAL);
    }
    own_refusal(call, operation)
}

/// What refuses futex(2) at its entry.
pub fn futex_refusal(call: &LxCall) -> Option<LinuxErrno>
    ensures { result ≡ first_refusal (futex_refusals call.now) }
{
    match operation_in(call) {
        Some(operation) => operation_refusal(call, operation),
        None => Some(LinuxErrno::ENOSYS),
    }
}

/// Whether the call names a timeout (futex(2)).
pub fn is_timed(call: &LxCall) -> bool
    ensures { result ≡ is_timed call.now }
{
    call.arguments[3] != 0
}

/// What futex(2) fetches first: the timeout of an operation that may wait.
pub fn futex_pieces(alloc: Global, call: &LxCall) -> Result<Pieces, NoMemory>
    ensures { IfOk result (λ pieces. pieces ≡ futex_pieces call.now) }
{
    match operation_in(call) {
        Some(operation) if may_wait(operation) && is_timed(call) => {
            Pieces::one(alloc, call.arguments[3], TIME)
        }
        _ => Ok(Pieces::none(alloc)),
    }
}

/// futex(2) once it has fetched its timeout, which refuses it where it is bad.
pub fn futex_fetched(call: &mut LxCall)
    ensures { call.new ≡ futex_fetched call.old }
{
    timeout_fetched(call);
}

/// The call's wait.
fn wait_of(call: &LxCall, bits: u32) -> Wait
    ensures { result ≡ wait_of call.now bits }
{
    Wait {
        at: call.arguments[0],
        expected: u64::from(call.low_argument(2)),
        bits,
        place: 0,
        many: false,
    }
}

/// The call's wake.
fn wake_of(call: &LxCall, bits: u32) -> Wake
    ensures { result ≡ wake_of call.now bits }
{
    Wake {
        at: call.arguments[0],
        most: call.low_argument(2),
        bits,
    }
}

/// The call's requeue.
fn requeue_of(call: &LxCall, expected: Option<u32>) -> Requeue
    ensures { result ≡ requeue_of call.now expected }
{
    Requeue {
        from: call.arguments[0],
        to: call.arguments[4],
        wakes: call.low_argument(2),
        moves: call.low_argument(3),
        expected,
    }
}

/// A signed number of 12 bits in 32 bits.
fn extended(n: u32) -> u32
    requires { n < 2 ^ 12 }
    ensures { result ≡ extended n }
{
    if n < 2048 { n } else { n + 0xffff_f000 }
}

/// The argument of a wake-op's operation.
fn operand_in(val3: u32) -> u32
    ensures { result ≡ operand_in val3 }
{
    if val3 < 1 << 31 {
        extended(val3 / (1 << 12) % (1 << 12))
    } else {
        1 << (val3 / (1 << 12) % 32)
    }
}

/// What the comparison of a wake-op compares with.
fn value_in(val3: u32) -> i32
    ensures { result ≡ value_in val3 }
{
    extended(val3 % (1 << 12)).cast_signed()
}

/// The call's wake-op.
fn wake_op_stage(call: &LxCall) -> Stage
    ensures { result ≡ wake_op_by call.now (word_operation_in (low_argument call.now 5)) (comparison_in (low_argument call.now 5)) }
{
    let val3 = call.low_argument(5);
    let Some(operation) = word_operation_in(val3) else {
        return Stage::Return;
    };
    let Some(comparison) = comparison_in(val3) else {
        return Stage::Return;
    };
    Stage::WakeOp(WakeOp {
        from: call.arguments[0],
        to: call.arguments[4],
        wakes: call.low_argument(2),
        wakes_there: call.low_argument(3),
        operation,
        operand: operand_in(val3),
        comparison,
        value: value_in(val3),
    })
}

/// Whether the call has a timeout whose deadline is still to be set.
pub(crate) fn has_time(call: &LxCall) -> bool
    ensures { result ≡ has_time call.now }
{
    is_timed(call) && call.deadline.is_none()
}

/// What a call that may wait does next, where this is its first step, and it waits at that.
fn waiting_from(call: &LxCall, first: Stage, waits: Stage) -> Stage
    ensures { result ≡ waiting_from call.now first waits call.now.pieces }
{
    if let Some(p) = call.pieces.as_slice().first() {
        return Stage::Fetch(*p);
    }
    if has_time(call) {
        return Stage::Clock;
    }
    if call.waits { waits } else { first }
}

/// What a wait does next.
fn wait_stage(call: &LxCall, bits: u32) -> Stage
    ensures { result ≡ wait_stage call.now bits }
{
    waiting_from(call, Stage::Queue(wait_of(call, bits)), Stage::Wait)
}

/// The call's lock, which is asked for so, or tried.
fn lock_of(call: &LxCall, tries: bool) -> PiLock
    ensures { result ≡ lock_of call.now tries }
{
    PiLock {
        at: call.arguments[0],
        tries,
    }
}

/// What a call that asks for a lock does next.
fn lock_stage(call: &LxCall) -> Stage
    ensures { result ≡ lock_stage call.now }
{
    waiting_from(call, Stage::PiLock(lock_of(call, false)), Stage::PiWait)
}

/// What futex(2) does next.
pub fn futex_stage(call: &LxCall) -> Stage
    ensures { result ≡ futex_stage call.now }
{
    let Some(operation) = operation_in(call) else {
        return Stage::Return;
    };
    match operation {
        FutexOperation::Wait => wait_stage(call, FUTEX_BITSET_MATCH_ANY),
        FutexOperation::WaitBitset => wait_stage(call, call.low_argument(5)),
        FutexOperation::LockPi => lock_stage(call),
        FutexOperation::TryLockPi => Stage::PiLock(lock_of(call, true)),
        FutexOperation::UnlockPi => Stage::PiUnlock(call.arguments[0]),
        FutexOperation::Wake => Stage::Release(wake_of(call, FUTEX_BITSET_MATCH_ANY)),
        FutexOperation::WakeBitset => Stage::Release(wake_of(call, call.low_argument(5))),
        FutexOperation::Requeue => Stage::Requeue(requeue_of(call, None)),
        FutexOperation::CompareRequeue => {
            Stage::Requeue(requeue_of(call, Some(call.low_argument(5))))
        }
        FutexOperation::WakeOp => wake_op_stage(call),
    }
}

/// The deadline of a wait: the timeout of FUTEX_WAIT goes from now on, and that of the others is a time.
fn deadline_of(clock: u64, call: &LxCall) -> u64
    ensures { result ≡ deadline_by clock call.now (operation_in call.now) }
{
    let micros = duration(call.bytes.as_slice());
    match operation_in(call) {
        Some(FutexOperation::Wait) => add_time(clock, micros),
        _ => micros,
    }
}

/// The deadline of a wait with a timeout is set.
pub fn futex_clocked(clock: u64, call: &mut LxCall)
    ensures { call.new ≡ futex_clocked clock call.old }
{
    let deadline = deadline_of(clock, call);
    set_deadline(call, deadline);
}

/// Whether futex(2) starts again after a signal has ended its wait.
pub fn futex_restarts(call: &LxCall) -> Restart
    ensures { result ≡ futex_restarts call.now }
{
    match operation_in(call) {
        Some(FutexOperation::LockPi) => Restart::Always,
        _ => {
            if is_timed(call) {
                Restart::Never
            } else {
                Restart::AsAsked
            }
        }
    }
}

/// The waiter that the thread is at this place.
fn waiter(tid: u32, wait: Wait) -> LxWaiter
    ensures { result ≡ waiter tid wait }
{
    LxWaiter {
        tid,
        place: wait.place,
        many: wait.many,
        address: wait.at,
        bits: wait.bits,
    }
}

/// The call's place has queued.
fn place_queued(call: &mut LxCall, wait: Wait)
    ensures { call.new ≡ place_queued call.old wait }
{
    if wait.many {
        call.queued = call.queued.saturating_add(1).min(MOST_PLACES);
    } else {
        call.waits = true;
    }
}

/// The call's place was refused.
fn place_refused(call: &mut LxCall, wait: Wait, e: LinuxErrno)
    ensures { call.new ≡ place_refused call.old wait e }
{
    if wait.many {
        call.refusal = Some(e);
    } else {
        call.refuse(e);
    }
}

/// The place queues, unless the word is another or may not be read. `NoMemory`: the queue is full; then nothing changes.
pub fn queued(
    pages: &Memory,
    tid: u32,
    queue: &mut Queue,
    call: &mut LxCall,
    wait: Wait,
) -> Result<(), NoMemory>
    ensures ok { OnOk result (queued pages.now tid queue.old call.old wait ≡ queue_outcome queue.new call.new) }
    ensures err { OnErr result ((queue.new ≡ queue.old) × (call.new ≡ call.old)) }
    ensures full { OnErr result (4096 ≤ length queue.old) }
{
    match readable_word(pages, wait.at) {
        None => place_refused(call, wait, LinuxErrno::EFAULT),
        Some(word) if u64::from(word) == wait.expected => {
            queue.push(waiter(tid, wait))?;
            place_queued(call, wait);
        }
        Some(_) => place_refused(call, wait, LinuxErrno::EAGAIN),
    }
    Ok(())
}

/// Waiters leave the queue, and their number is the answer.
pub fn woken(queue: &mut Queue, call: &mut LxCall, wake: Wake)
    ensures { woken queue.old call.old wake ≡ queue_outcome queue.new call.new }
{
    let count = queue.release(wake.at, wake.most, wake.bits);
    call.answer(u64::from(count));
}

/// FUTEX_REQUEUE.
fn requeue(queue: &mut Queue, call: &mut LxCall, asked: Requeue)
    ensures { moves_on queue.old call.old asked (requeue_releases queue.old asked) ≡ queue_outcome queue.new call.new }
{
    let done = queue.requeue(asked.from, asked.to, asked.wakes, asked.moves);
    call.answer(u64::from(done.released));
}

/// FUTEX_CMP_REQUEUE where the word is this, or may not be read.
fn compare_requeue(
    queue: &mut Queue,
    call: &mut LxCall,
    asked: Requeue,
    expected: u32,
    word: Option<u32>,
)
    ensures { requeued_by queue.old call.old asked expected word ≡ queue_outcome queue.new call.new }
{
    match word {
        None => call.refuse(LinuxErrno::EFAULT),
        Some(word) if word == expected => {
            let done = queue.requeue(asked.from, asked.to, asked.wakes, asked.moves);
            call.answer(u64::from(done.released) + u64::from(done.moved));
        }
        Some(_) => call.refuse(LinuxErrno::EAGAIN),
    }
}

/// Waiters are released at one word, and others move to another.
pub fn requeued(pages: &Memory, queue: &mut Queue, call: &mut LxCall, asked: Requeue)
    ensures { requeued pages.now queue.old call.old asked ≡ queue_outcome queue.new call.new }
{
    match asked.expected {
        None => requeue(queue, call, asked),
        Some(expected) => {
            let word = readable_word(pages, asked.from);
            compare_requeue(queue, call, asked, expected, word);
        }
    }
}

/// What a wake-op makes of a word.
fn operated(operation: WordOperation, word: u32, operand: u32) -> u32
    ensures { result ≡ operated operation word operand }
{
    match operation {
        WordOperation::Set => operand,
        WordOperation::Add => word.wrapping_add(operand),
        WordOperation::Or => word | operand,
        WordOperation::AndNot => word & !operand,
        WordOperation::Xor => word ^ operand,
    }
}

/// Whether the comparison holds.
fn compares(comparison: Comparison, a: i32, b: i32) -> bool
    ensures { result ≡ compares comparison a b }
{
    match comparison {
        Comparison::Equal => a <= b && b <= a,
        Comparison::Unequal => !(a <= b && b <= a),
        Comparison::Less => a < b,
        Comparison::AtMost => a <= b,
        Comparison::Greater => b < a,
        Comparison::AtLeast => b <= a,
    }
}

/// How many waiters a wake-op releases at most at its second word, where that word was this.
fn wakes_after(asked: WakeOp, word: u32) -> u32
    ensures { result ≡ wakes_after asked word }
{
    if compares(asked.comparison, word.cast_signed(), asked.value) {
        asked.wakes_there
    } else {
        0
    }
}

/// How many bytes a step has written from which address on.
#[derive(Clone, Copy)]
pub struct Written {
    pub at: u64,
    pub len: u64,
}

/// Nothing is written.
pub const NOTHING: Written = Written { at: 0, len: 0 };

/// The second word changes, and waiters leave at both.
pub fn wake_op(pages: &mut Memory, queue: &mut Queue, call: &mut LxCall, asked: WakeOp) -> Written
    ensures { after_wake_op pages.old queue.old call.old asked ≡ record { pages = pages.new; queue = queue.new; call = call.new; at = result.at; written = result.len } }
{
    let Some(word) = writable_word(pages, asked.to) else {
        call.refuse(LinuxErrno::EFAULT);
        return NOTHING;
    };
    set_word(
        pages,
        asked.to,
        operated(asked.operation, word, asked.operand),
    );
    let here = queue.release(asked.from, asked.wakes, FUTEX_BITSET_MATCH_ANY);
    let there = queue.release(asked.to, wakes_after(asked, word), FUTEX_BITSET_MATCH_ANY);
    call.answer(u64::from(here) + u64::from(there));
    Written {
        at: asked.to,
        len: 4,
    }
}

/// The call waits at no futex any more.
pub(crate) fn wait_no_more(call: &mut LxCall)
    ensures { call.new ≡ waits_no_more call.old }
{
    call.waits = false;
    call.queued = 0;
    call.refusal = None;
}

/// A thread that waited and was released goes on. Not enabled: it is queued, or doesn't wait; then nothing changes.
pub fn resumed(tid: u32, queue: &Queue, call: &mut LxCall) -> Result<(), LxRefusal>
    ensures ok { OnOk result (resumed tid queue.now call.old ≡ Some call.new) }
    ensures err { OnErr result (resumed tid queue.now call.old ≡ None) }
    ensures kept { OnErr result (call.new ≡ call.old) }
    ensures no_step { IfErr result (λ e. e ≡ LxRefusal.NoStep) }
{
    if !call.waits || queue.has(tid) {
        return Err(LxRefusal::NoStep);
    }
    call.answer(0);
    wait_no_more(call);
    Ok(())
}

/// A waiting thread leaves the queue, and its call is refused.
pub(crate) fn leave_queue(e: LinuxErrno, tid: u32, queue: &mut Queue, call: &mut LxCall)
    ensures { left_queue e tid queue.old call.old ≡ queue_outcome queue.new call.new }
{
    queue.remove(tid);
    wait_no_more(call);
    call.refuse(e);
}

/// A waiting thread leaves the queue, as by a signal. Not enabled: it is not queued; then nothing changes.
pub fn wait_given_up(
    e: LinuxErrno,
    tid: u32,
    queue: &mut Queue,
    call: &mut LxCall,
) -> Result<(), LxRefusal>
    ensures ok { OnOk result (wait_given_up e tid queue.old call.old ≡ Some (queue_outcome queue.new call.new)) }
    ensures err { OnErr result (wait_given_up e tid queue.old call.old ≡ None) }
    ensures kept { OnErr result ((queue.new ≡ queue.old) × (call.new ≡ call.old)) }
    ensures no_step { IfErr result (λ e. e ≡ LxRefusal.NoStep) }
{
    if !call.waits || !queue.has(tid) {
        return Err(LxRefusal::NoStep);
    }
    leave_queue(e, tid, queue, call);
    Ok(())
}

/// A wait ends at its deadline. Not enabled: that has not passed, or it is not queued; then nothing changes.
pub fn wait_expired(
    clock: u64,
    tid: u32,
    queue: &mut Queue,
    call: &mut LxCall,
) -> Result<(), LxRefusal>
    ensures ok { OnOk result (wait_expired clock tid queue.old call.old ≡ Some (queue_outcome queue.new call.new)) }
    ensures err { OnErr result (wait_expired clock tid queue.old call.old ≡ None) }
    ensures kept { OnErr result ((queue.new ≡ queue.old) × (call.new ≡ call.old)) }
    ensures no_step { IfErr result (λ e. e ≡ LxRefusal.NoStep) }
{
    if !has_passed(clock, call.deadline) {
        return Err(LxRefusal::NoStep);
    }
    wait_given_up(LinuxErrno::ETIMEDOUT, tid, queue, call)
}
