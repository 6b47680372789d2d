//! Fetch and Store: pieces of guest memory that a call copies in and out, each whole or not at all.
ghost use Rattle.std.specs.Prelude.{◌≡◌, ◌≤◌, ◌<◌, ◌^◌, length, take, Some, Ok, IfOk, OnOk, OnErr};
ghost use Rattle.lx_memory.specs.Bytes.{bytes_at, IsMapped};
ghost use Rattle.lx_machine.specs.Calls.{refused};
ghost use Rattle.lx_machine.specs.Threads.{in_call_of};
ghost use Rattle.lx_machine.specs.Step.{fetch, fetch_of, store, store_of, with_fetched};
ghost use Rattle.lx_machine.specs.Shape.{fetched, mask_of};
ghost use Rattle.lx_call_steps.specs.Outcomes.{CallGoes};
ghost use Rattle.lx_call_steps.specs.Outcomes.{IsDecided};

use crate::marks::unmark;
use linux_abi::Call;
use lx_calls::shape::{after_fetch, after_store, mask_of, miss_fetch, miss_store};
use lx_machine::buffer::{Bytes, NoMemory, ROOM};
use lx_machine::calls::{LxCall, Piece, Pieces, Stage};
use lx_machine::refusal::LxRefusal;
use lx_machine::state::{LinuxState, Slot};
use lx_machine::threads::LxThread;
use lx_memory::queries::is_allowed;
use lx_memory::{Memory, Right};
use lx_signal_calls::masks::mask_for_call;
use std::alloc::Global;

/// The bytes of a range of mapped pages.
fn bytes_in(alloc: Global, memory: &Memory, at: u64, len: u64) -> Result<Vec<u8>, NoMemory>
    requires { IsMapped memory.now at len }
    ensures { IfOk result (λ bytes. bytes.items ≡ bytes_at memory.now at len) }
{
    if len > ROOM as u64 {
        return Err(NoMemory);
    }
    let mut bytes = vec![in alloc; 0u8; len as usize].map_err(|_| NoMemory)?;
    memory.load(at, &mut bytes);
    Ok(bytes)
}

/// The same pieces.
fn copied(alloc: Global, pieces: &[Piece]) -> Result<Pieces, NoMemory>
    ensures { IfOk result (λ copy. copy ≡ pieces.now) }
{
    let mut copy = Pieces::none(alloc);
    for p in pieces {
        copy.push(*p)?;
    }
    Ok(copy)
}

/// The call with these bytes behind its own, in the place of its first piece.
fn with_fetched(alloc: Global, call: &LxCall, more: &[u8]) -> Result<LxCall, NoMemory>
    ensures { IfOk result (λ next. next ≡ with_fetched call.now more.now) }
{
    let Some(fetched) = call.fetched.checked_add(1) else {
        return Err(NoMemory);
    };
    let mut pieces = copied(alloc, call.pieces.as_slice())?;
    pieces.remove_first();
    let mut bytes = Bytes::empty(alloc);
    bytes.append(call.bytes.as_slice())?;
    bytes.append(more)?;
    Ok(LxCall {
        number: call.number,
        arguments: call.arguments,
        fetched,
        pieces,
        bytes,
        moved: call.moved,
        held: call.held,
        deadline: call.deadline,
        waits: call.waits,
        queued: call.queued,
        refusal: call.refusal,
        child: call.child,
        death: call.death,
        result: call.result,
        kept: call.kept,
    })
}

/// These bytes come behind those of the call, in the place of its first piece. Where memory is wanting, nothing changes.
fn append_fetched(call: &mut LxCall, more: &[u8]) -> Result<(), NoMemory>
    ensures ok { OnOk result (call.new ≡ with_fetched call.old more.now) }
    ensures err { OnErr result (call.new ≡ call.old) }
{
    let Some(fetched) = call.fetched.checked_add(1) else {
        return Err(NoMemory);
    };
    call.bytes.append(more)?;
    call.fetched = fetched;
    call.pieces.remove_first();
    Ok(())
}

/// The bytes of the first piece come, and the call looks at them. Where memory is wanting, nothing changes.
fn fetch_into_copy(alloc: Global, call: &mut LxCall, more: &[u8]) -> Result<(), NoMemory>
    ensures ok { OnOk result (call.new ≡ fetched (with_fetched call.old more.now)) }
    ensures err { OnErr result (call.new ≡ call.old) }
{
    let mut next = with_fetched(alloc, call, more)?;
    after_fetch(alloc, &mut next)?;
    *call = next;
    Ok(())
}

/// The bytes of the first piece come. Where memory is wanting, nothing changes.
fn take_fetched(alloc: Global, call: &mut LxCall, more: &[u8]) -> Result<(), NoMemory>
    ensures ok { OnOk result (call.new ≡ fetched (with_fetched call.old more.now)) }
    ensures err { OnErr result (call.new ≡ call.old) }
{
    match Call::new(call.number) {
        Some(Call::Write) => append_fetched(call, more),
        Some(Call::Writev) if call.fetched != 0 => append_fetched(call, more),
        _ => fetch_into_copy(alloc, call, more),
    }
}

/// The first of some bytes, or all where there are fewer.
fn first(bytes: &[u8], len: u64) -> &[u8]
    ensures { result.now ≡ take len bytes.now }
{
    &bytes[..len.min(bytes.len() as u64) as usize]
}

/// Fetch of this piece.
fn fetch_piece(
    state: &LinuxState,
    alloc: Global,
    slot: Slot,
    thread: &mut LxThread,
    call: &mut LxCall,
    p: Piece,
) -> Result<(), NoMemory>
    ensures ok { OnOk result (fetch_of p state.now slot thread.old call.old ≡ in_call_of state.now slot thread.new call.new) }
    ensures err { OnErr result ((thread.new ≡ thread.old) × (call.new ≡ call.old)) }
{
    if !is_allowed(&state.space.pages, Right::Read, p.at, p.len) {
        return miss_fetch(alloc, call);
    }
    let bytes = bytes_in(alloc, &state.space.pages, p.at, p.len)?;
    take_fetched(alloc, call, &bytes)?;
    mask_for_call(thread, mask_of(call));
    Ok(())
}

/// Fetch: the next piece is copied in, or where any byte can't be read, the call is refused (read(2), EFAULT) or,
/// as a death, goes on.
pub fn fetch(
    state: &LinuxState,
    alloc: Global,
    slot: Slot,
    thread: &mut LxThread,
    call: &mut LxCall,
    stage: Stage,
) -> Result<(), LxRefusal>
    ensures { CallGoes (fetch stage state.now slot thread.old call.old) state.now state.now slot thread.old thread.new call.old call.new result }
{
    match stage {
        Stage::Fetch(p) => {
            fetch_piece(state, alloc, slot, thread, call, p)?;
            Ok(())
        }
        _ => Err(LxRefusal::NoStep),
    }
}

/// Store of this piece.
fn store_piece(state: &mut LinuxState, slot: Slot, thread: &LxThread, call: &mut LxCall, p: Piece)
    ensures { store_of p state.old slot thread.now call.old ≡ in_call_of state.new slot thread.now call.new }
{
    if !is_allowed(&state.space.pages, Right::Write, p.at, p.len) {
        miss_store(call);
        return;
    }
    let bytes = first(call.bytes.as_slice(), p.len);
    let count = bytes.len() as u128;
    state.space.pages.store(p.at, bytes);
    unmark(state, slot, u128::from(p.at), count);
    call.bytes.drop_first(p.len as usize);
    call.pieces.remove_first();
    after_store(call);
}

/// Store: the first bytes that are left are copied out to the next piece, or where any byte can't be written, the call is
/// refused (read(2), EFAULT) or, as a death or a clone, goes on. What is written ends the marks of other threads.
pub fn store(
    state: &mut LinuxState,
    slot: Slot,
    thread: &LxThread,
    call: &mut LxCall,
    stage: Stage,
) -> Result<(), LxRefusal>
    ensures goes { CallGoes (store stage state.old slot thread.now call.old) state.old state.new slot thread.now thread.now call.old call.new result }
    ensures decided { IsDecided result }
{
    match stage {
        Stage::Store(p) => {
            store_piece(state, slot, thread, call, p);
            Ok(())
        }
        _ => Err(LxRefusal::NoStep),
    }
}
