//! The frame that a handler runs on (sigaction(2), sigreturn(2)).
ghost use Rattle.std.specs.Prelude.{◌≡◌, ◌≤◌, ◌<◌, ◌+◌, ◌*◌, ◌^◌, ◌++◌, length, true, IfSome};
ghost use Rattle.places.specs.Places.{bytes_of};
ghost use Rattle.arrayvec.specs.ArrayVec.{array_vec_len};
ghost use Rattle.a64_model.specs.VectorRecord.{vector_record};
ghost use Rattle.lx_memory.specs.Bytes.{with_bytes, IsMapped};
ghost use Rattle.lx_machine.specs.SignalFrame.{Frames, context_words, doomed, fault_address, frame_at, frame_below, frame_bytes, frame_of, frame_top, framed, handler_mask, handler_regs, if_writable, in_handler, info_words, is_writable, origin_word, place_below, record_at, restorer, storable_place, with_arguments, words};

use crate::masks::blockable;
use crate::numbers::eight_bytes;
use crate::stacks::{is_on, stack_flags};
use a64_model::regs::Regs;
use arrayvec::ArrayVec;
use linux_abi::signals::{has_restorer, is_not_deferred, wants_info, wants_stack};
use lx_machine::refusal::LxRefusal;
use lx_machine::signals::{Action, Origin, SigInfo, Taken};
use lx_machine::threads::{AltStack, LxThread};
use lx_memory::queries::is_allowed;
use lx_memory::{Memory, Right};
use lx_signals::taking::own_mask;
use vector_moves::frame_record;

/// The bytes of a frame, without its record.
const FRAME: u64 = 4688;

/// The bytes of a frame with its record.
pub const FRAME_SIZE: usize = 4704;

/// The place of ucontext in a frame.
const CONTEXT: u64 = 128;

/// Where a handler without a restorer returns to.
const RETURN_AT: u64 = 0x7fff_ff00_0000;

/// The frame goes below this.
fn frame_top(action: Action, sp: u64, stack: AltStack) -> u128
    ensures value { result ≡ frame_top action sp stack }
    ensures bound { result < 2 ^ 65 }
{
    if wants_stack(action.flags) && stack.enabled && !is_on(sp, stack) {
        u128::from(stack.at) + u128::from(stack.size)
    } else {
        u128::from(sp)
    }
}

/// The word of siginfo that tells where a signal comes from.
fn origin_word(origin: Origin) -> u64
    ensures { result ≡ origin_word origin }
{
    match origin {
        Origin::Sender { pid, uid } => u64::from(pid) + u64::from(uid) * (1 << 32),
        Origin::Address(at) => at,
    }
}

/// The address of a fault, and 0 for a signal that was sent.
fn fault_address(origin: Origin) -> u64
    ensures { result ≡ fault_address origin }
{
    match origin {
        Origin::Sender { .. } => 0,
        Origin::Address(at) => at,
    }
}

/// siginfo.
fn info_words(info: SigInfo) -> [u64; 16]
    ensures { result ≡ info_words info }
{
    [
        u64::from(info.signal.number()),
        u64::from(info.code.cast_unsigned()),
        origin_word(info.origin),
        0,
        0,
        0,
        0,
        0,
        0,
        0,
        0,
        0,
        0,
        0,
        0,
        0,
    ]
}

/// ucontext up to the registers.
fn context_words(sp: u64, stack: AltStack, mask: u64, info: SigInfo) -> [u64; 23]
    ensures { result ≡ context_words sp stack mask info }
{
    [
        0,
        0,
        stack.at,
        u64::from(stack_flags(sp, stack)),
        stack.size,
        mask,
        0,
        0,
        0,
        0,
        0,
        0,
        0,
        0,
        0,
        0,
        0,
        0,
        0,
        0,
        0,
        0,
        fault_address(info.origin),
    ]
}

/// Appends a number of 8 bytes.
fn push_word(frame: &mut ArrayVec<u8, FRAME_SIZE>, n: u64)
    requires { array_vec_len frame.old + 8 ≤ 4704 }
    ensures items { frame.new.items ≡ frame.old.items ++ bytes_of n 8 }
    ensures len { array_vec_len frame.new ≡ array_vec_len frame.old + 8 }
{
    let _ = frame.try_extend_from_slice(&eight_bytes(n));
}

/// Appends numbers of 8 bytes each.
#[tactic(auto, unfolding(lx_machine::specs::SignalFrame::words))]
fn push_words(frame: &mut ArrayVec<u8, FRAME_SIZE>, numbers: &[u64])
    requires { array_vec_len frame.old + 8 * length numbers.now ≤ 4704 }
    ensures items { frame.new.items ≡ frame.old.items ++ words numbers.now }
    ensures len { array_vec_len frame.new ≡ array_vec_len frame.old + 8 * length numbers.now }
{
    match numbers {
        [] => {}
        [n, rest @ ..] => {
            push_word(frame, *n);
            push_words(frame, rest);
        }
    }
}

/// Appends the record of the vector registers.
fn push_vectors(frame: &mut ArrayVec<u8, FRAME_SIZE>, regs: &Regs)
    requires { array_vec_len frame.old + 528 ≤ 4704 }
    ensures items { frame.new.items ≡ frame.old.items ++ vector_record regs.now.v }
    ensures len { array_vec_len frame.new ≡ array_vec_len frame.old + 528 }
{
    let _ = frame.try_extend_from_slice(&frame_record(regs));
}

/// The frame of a signal and its record: the registers and the alternative stack as they are, and the mask that is stored.
fn frame_of(regs: &Regs, stack: AltStack, mask: u64, info: SigInfo) -> ArrayVec<u8, FRAME_SIZE>
    ensures items { result.items ≡ frame_bytes regs.now stack mask info }
    ensures len { array_vec_len result ≡ 4704 }
{
    let mut frame = ArrayVec::new();
    push_words(&mut frame, &info_words(info));
    push_words(&mut frame, &context_words(regs.sp, stack, mask, info));
    push_words(&mut frame, &regs.x);
    push_words(
        &mut frame,
        &[regs.sp, regs.pc, u64::from(regs.nzcv) * (1 << 28), 0],
    );
    push_vectors(&mut frame, regs);
    push_words(&mut frame, &[0; 446]);
    push_words(&mut frame, &[regs.x[29], regs.x[30]]);
    frame
}

/// The address of the frame below this, if the frame and its record lie in the address space.
fn place_below(top: u128) -> Option<u64>
    requires { top < 2 ^ 65 }
    ensures place { result ≡ place_below top }
    ensures bound { IfSome result (λ at. at + 4704 ≤ 2 ^ 64) }
{
    if top < FRAME_SIZE as u128 {
        return None;
    }
    let record = (top - 16) / 16 * 16;
    if record + 16 > 1 << 64 {
        return None;
    }
    Some((record - u128::from(FRAME)) as u64)
}

/// Whether each byte of the frame at this address, and of its record, may be written.
#[tactic(auto, unfolding(lx_machine::specs::SignalFrame::is_writable))]
fn is_writable(memory: &Memory, at: u64) -> bool
    ensures value { result ≡ is_writable memory.now at }
    ensures mapped { result ≡ true → IsMapped memory.now at 4704 }
{
    is_allowed(memory, Right::Write, at, FRAME_SIZE as u64)
}

/// The address, if the frame there may be written.
fn if_writable(memory: &Memory, at: u64) -> Option<u64>
    requires { at + 4704 ≤ 2 ^ 64 }
    ensures place { result ≡ if_writable memory.now at }
    ensures mapped { IfSome result (λ at. IsMapped memory.now at 4704) }
    ensures bound { IfSome result (λ at. at + 4704 ≤ 2 ^ 64) }
{
    if is_writable(memory, at) {
        Some(at)
    } else {
        None
    }
}

/// The address of the frame below this, if each byte of the frame and its record may be written.
fn storable_place(memory: &Memory, top: u128) -> Option<u64>
    requires { top < 2 ^ 65 }
    ensures place { result ≡ storable_place memory.now top }
    ensures mapped { IfSome result (λ at. IsMapped memory.now at 4704) }
    ensures bound { IfSome result (λ at. at + 4704 ≤ 2 ^ 64) }
{
    match place_below(top) {
        Some(at) => if_writable(memory, at),
        None => None,
    }
}

/// The registers of the handler's arguments: the signal, and where the action asks for them the addresses of siginfo and ucontext.
fn set_arguments(action: Action, number: u8, at: u64, x: &mut [u64; 31])
    requires { at + 4704 ≤ 2 ^ 64 }
    ensures { x.new ≡ with_arguments action number at x.old }
{
    x[0] = u64::from(number);
    if wants_info(action.flags) {
        x[1] = at;
        x[2] = at + CONTEXT;
    }
}

/// Where the handler returns to.
fn restorer(action: Action) -> u64
    ensures { result ≡ restorer action }
{
    if has_restorer(action.flags) {
        action.restorer
    } else {
        RETURN_AT
    }
}

/// The registers in the handler.
fn set_handler_regs(action: Action, number: u8, at: u64, regs: &mut Regs)
    requires { at + 4704 ≤ 2 ^ 64 }
    ensures { regs.new ≡ handler_regs action number at regs.old }
{
    set_arguments(action, number, at, &mut regs.x);
    regs.x[29] = at + FRAME;
    regs.x[30] = restorer(action);
    regs.sp = at;
    regs.pc = action.handler;
}

/// The mask in the handler.
fn handler_mask(taken: Taken, mask: u64) -> u64
    ensures { result ≡ handler_mask taken mask }
{
    let signal = if is_not_deferred(taken.action.flags) {
        0
    } else {
        taken.info.signal.bit()
    };
    blockable(mask | taken.action.mask | signal)
}

/// The thread goes into its handler, with the frame at this address.
fn enter_handler(taken: Taken, at: u64, thread: &mut LxThread)
    requires { at + 4704 ≤ 2 ^ 64 }
    ensures { thread.new ≡ in_handler taken at thread.old }
{
    set_handler_regs(
        taken.action,
        taken.info.signal.number(),
        at,
        &mut thread.regs,
    );
    thread.mask = handler_mask(taken, thread.mask);
    thread.saved_mask = None;
    thread.taken = None;
}

/// The frame can't be stored, which is the thread's doom.
fn doom(thread: &mut LxThread)
    ensures { thread.new ≡ doomed thread.old }
{
    thread.taken = None;
    thread.is_doomed = true;
}

/// The frame of the taken signal is stored at this address.
fn store_frame(memory: &mut Memory, at: u64, thread: &LxThread, taken: Taken)
    requires { IsMapped memory.old at 4704 }
    ensures { memory.new ≡ with_bytes memory.old at (frame_of taken thread.now) }
{
    let mask = own_mask(thread.mask, thread.saved_mask);
    let frame = frame_of(&thread.regs, thread.alt_stack, mask, taken.info);
    memory.store(at, frame.as_slice());
}

/// The frame of the taken signal, below this.
fn frame_below(top: u128, memory: &mut Memory, thread: &mut LxThread, taken: Taken) -> Option<u64>
    requires { top < 2 ^ 65 }
    ensures pages { memory.new ≡ (frame_below top memory.old thread.old taken).pages }
    ensures thread { thread.new ≡ (frame_below top memory.old thread.old taken).thread }
    ensures stored { result ≡ (frame_below top memory.old thread.old taken).stored }
{
    match storable_place(memory, top) {
        Some(at) => {
            store_frame(memory, at, thread, taken);
            enter_handler(taken, at, thread);
            Some(at)
        }
        None => {
            doom(thread);
            None
        }
    }
}

/// Frame: the frame of the thread's taken signal is stored, and the thread goes into its handler; or, where not each byte of the
/// frame may be written, the thread is doomed. The answer is the address of the stored frame, whose `FRAME_SIZE` bytes end the
/// marks of other threads.
pub fn store_taken(memory: &mut Memory, thread: &mut LxThread) -> Result<Option<u64>, LxRefusal>
    ensures { Frames (framed memory.old thread.old) memory.old memory.new thread.old thread.new result }
{
    let Some(taken) = thread.taken else {
        return Err(LxRefusal::NoStep);
    };
    let top = frame_top(taken.action, thread.regs.sp, thread.alt_stack);
    Ok(frame_below(top, memory, thread, taken))
}
