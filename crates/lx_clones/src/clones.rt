//! clone(2), set_robust_list(2) and get_robust_list(2).
ghost use Rattle.std.specs.Prelude.{◌≡◌, ◌≤◌, ◌<◌, ◌+◌, ◌++◌, ◌∷◌, [], length, Some, None, IfSome, IfOk, OnOk, OnErr};
ghost use Rattle.std.specs.Option.{option_map};
ghost use Rattle.places.specs.Places.{bytes_of};
ghost use Rattle.lx_machine.specs.Calls.{argument, first_refusal};
ghost use Rattle.lx_machine.specs.Lists.{first_free, first_free_from};
ghost use Rattle.lx_machine.specs.Pieces.{piece};
ghost use Rattle.lx_machine.specs.Clone.{birth_stage, child_regs, clear_address, clears_for_child, clone_not_stored, clone_refusals, clone_stage, cloned, has_clone_flag, makes_thread, no_regs, no_stack, place_count, place_for, reserved, sets_tls, shares_actions, shares_memory, started, store_at, stored_tid, stores_for_child, stores_for_parent, tid_bytes, tid_pieces, with_child, without_child};
ghost use Rattle.lx_machine.specs.RobustList.{asked_list, get_robust_list, is_living, list_answered, robust_list_of, set_robust_list, set_robust_list_refusals, with_robust_list};

use a64_model::regs::Regs;
use byteorder::{ByteOrder, LittleEndian};
use linux_abi::LinuxErrno;
use lx_machine::buffer::{Bytes, NoMemory};
use lx_machine::calls::{LxCall, Piece, Pieces, Stage, has_other, refused_if};
use lx_machine::signals::Pending;
use lx_machine::state::{Slot, THREADS};
use lx_machine::thread_table::Threads;
use lx_machine::threads::{AltStack, Life, LxThread};
use std::alloc::Global;

/// The flags without which no thread is made.
const NEEDED: u32 = 0x10f00;

/// These, and the flags that may stand beside them.
const KNOWN: u32 = 0x17d0fff;

/// The greatest tid.
const LAST_TID: u32 = (1 << 30) - 1;

/// The bytes of the head of a robust list.
const HEAD: u64 = 24;

/// A flag of the call, by its bit's number.
fn has_flag(call: &LxCall, bit: u32) -> bool
    requires { bit < 32 }
    ensures { result ≡ has_clone_flag call.now bit }
{
    call.low_argument(0) / (1 << bit) % 2 == 1
}

/// CLONE_VM.
fn shares_memory(call: &LxCall) -> bool
    ensures { result ≡ shares_memory call.now }
{
    has_flag(call, 8)
}

/// CLONE_SIGHAND.
fn shares_actions(call: &LxCall) -> bool
    ensures { result ≡ shares_actions call.now }
{
    has_flag(call, 11)
}

/// CLONE_THREAD.
fn is_thread(call: &LxCall) -> bool
    ensures { result ≡ makes_thread call.now }
{
    has_flag(call, 16)
}

/// CLONE_SETTLS.
fn sets_tls(call: &LxCall) -> bool
    ensures { result ≡ sets_tls call.now }
{
    has_flag(call, 19)
}

/// CLONE_PARENT_SETTID.
fn stores_for_parent(call: &LxCall) -> bool
    ensures { result ≡ stores_for_parent call.now }
{
    has_flag(call, 20)
}

/// CLONE_CHILD_CLEARTID.
fn clears_for_child(call: &LxCall) -> bool
    ensures { result ≡ clears_for_child call.now }
{
    has_flag(call, 21)
}

/// CLONE_CHILD_SETTID.
fn stores_for_child(call: &LxCall) -> bool
    ensures { result ≡ stores_for_child call.now }
{
    has_flag(call, 24)
}

/// What refuses clone(2) at its entry.
pub fn clone_refusal(call: &LxCall) -> Option<LinuxErrno>
    ensures { result ≡ first_refusal (clone_refusals call.now) }
{
    if is_thread(call) && !shares_actions(call) {
        return Some(LinuxErrno::EINVAL);
    }
    if shares_actions(call) && !shares_memory(call) {
        return Some(LinuxErrno::EINVAL);
    }
    let flags = call.low_argument(0);
    if flags & NEEDED != NEEDED {
        return Some(LinuxErrno::ENOSYS);
    }
    refused_if(has_other(KNOWN, flags), LinuxErrno::ENOSYS)
}

/// The lowest free place, where these are the places from `from` on.
fn first_free_from(from: u8, places: &[Option<LxThread>]) -> Option<u8>
    requires { from + length places.now ≤ 128 }
    ensures place { result ≡ first_free_from from places.now }
    ensures below { IfSome result (λ place. place < from + length places.now) }
{
    match places {
        [] => None,
        [None, ..] => Some(from),
        [Some(_), rest @ ..] => first_free_from(from + 1, rest),
    }
}

/// How many places there are for threads by these rules.
fn place_count(rules: u8) -> usize
    ensures value { result ≡ place_count rules }
    ensures below { result ≤ THREADS }
{
    if rules == 1 { 32 } else { THREADS }
}

/// The lowest free place, as long as there is a tid (clone(2)).
fn place_for(rules: u8, threads: &[Option<LxThread>], next_tid: u32) -> Option<Slot>
    requires { length threads.now ≡ THREADS }
    ensures { result ≡ place_for rules threads.now next_tid }
{
    if next_tid > LAST_TID {
        None
    } else {
        Slot::new(first_free_from(0, &threads[..place_count(rules)])?)
    }
}

/// Registers that are all 0.
fn no_regs() -> Regs
    ensures { result ≡ no_regs }
{
    Regs {
        x: [0; 31],
        sp: 0,
        pc: 0,
        nzcv: 0,
        tpidr: 0,
        v: [0; 32],
    }
}

/// No alternative stack.
fn no_stack() -> AltStack
    ensures { result ≡ no_stack }
{
    AltStack {
        at: 0,
        size: 0,
        enabled: false,
    }
}

/// A thread whose place is reserved, and which has not started.
fn reserved(tid: u32, mask: u64) -> LxThread
    ensures { result ≡ reserved tid mask }
{
    LxThread {
        tid,
        life: Life::Reserved,
        regs: no_regs(),
        mark: None,
        mask,
        saved_mask: None,
        alt_stack: no_stack(),
        clear_at: 0,
        robust_head: 0,
        pending: Pending::empty(),
        trap: None,
        taken: None,
        is_doomed: false,
        call: None,
    }
}

/// The tid is stored here too, if it is asked for.
fn add_store(pieces: &mut Pieces, asked: bool, at: u64) -> Result<(), NoMemory>
    ensures { OnOk result (pieces.new ≡ pieces.old ++ store_at asked at) }
{
    if asked {
        pieces.push(Piece { at, len: 4 })?;
    }
    Ok(())
}

/// The bytes of the tid, if it is asked for.
fn add_tid(bytes: &mut Bytes, asked: bool, tid: u32) -> Result<(), NoMemory>
    ensures { OnOk result (bytes.new ≡ bytes.old ++ stored_tid asked tid) }
{
    if asked {
        let mut number = [0; 4];
        LittleEndian::write_u32(&mut number, tid);
        bytes.append(&number)?;
    }
    Ok(())
}

/// Where the tid is stored.
fn tid_pieces(alloc: Global, call: &LxCall) -> Result<Pieces, NoMemory>
    ensures { IfOk result (λ pieces. pieces ≡ tid_pieces call.now) }
{
    let mut pieces = Pieces::none(alloc);
    add_store(&mut pieces, stores_for_parent(call), call.arguments[2])?;
    add_store(&mut pieces, stores_for_child(call), call.arguments[4])?;
    Ok(pieces)
}

/// The bytes that are stored.
fn tid_bytes(alloc: Global, call: &LxCall, tid: u32) -> Result<Bytes, NoMemory>
    ensures { IfOk result (λ bytes. bytes ≡ tid_bytes call.now tid) }
{
    let mut bytes = Bytes::empty(alloc);
    add_tid(&mut bytes, stores_for_parent(call), tid)?;
    add_tid(&mut bytes, stores_for_child(call), tid)?;
    Ok(bytes)
}

/// The call has the tid as its result, and a child in this place. Where memory is wanting, nothing changes.
fn set_child(alloc: Global, call: &mut LxCall, tid: u32, slot: Slot) -> Result<(), NoMemory>
    ensures ok { OnOk result (call.new ≡ with_child call.old tid slot) }
    ensures err { OnErr result (call.new ≡ call.old) }
{
    let pieces = tid_pieces(alloc, call)?;
    let bytes = tid_bytes(alloc, call, tid)?;
    call.answer_with(u64::from(tid), pieces, bytes);
    call.child = Some(slot);
    Ok(())
}

/// clone(2): the lowest free place and the next tid are reserved. Where memory is wanting, nothing changes.
pub fn cloned(
    alloc: Global,
    rules: u8,
    threads: &mut Threads,
    next_tid: &mut u32,
    mask: u64,
    call: &mut LxCall,
) -> Result<(), NoMemory>
    ensures ok { OnOk result (cloned rules threads.old next_tid.old mask call.old ≡ record { threads = threads.new; next_tid = next_tid.new; call = call.new }) }
    ensures err { OnErr result ((threads.new ≡ threads.old) × (next_tid.new ≡ next_tid.old) × (call.new ≡ call.old)) }
{
    let tid = *next_tid;
    let Some(slot) = place_for(rules, threads.as_slice(), tid) else {
        call.refuse(LinuxErrno::EAGAIN);
        return Ok(());
    };
    set_child(alloc, call, tid, slot)?;
    threads.put(slot, reserved(tid, mask));
    *next_tid = tid + 1;
    Ok(())
}

/// A store of the tid that could not be made is passed over.
pub fn clone_not_stored(call: &mut LxCall)
    ensures { call.new ≡ clone_not_stored call.old }
{
    call.pieces.remove_first();
    call.bytes.drop_first(4);
}

/// What clone(2) without a result does next.
pub fn clone_stage(_call: &LxCall) -> Stage
    ensures { result ≡ clone_stage _call.now }
{
    Stage::Effect
}

/// What clone(2) with a child does next.
pub fn birth_stage(call: &LxCall) -> Stage
    ensures { result ≡ birth_stage call.now }
{
    match call.pieces.as_slice().first() {
        Some(p) => Stage::Store(*p),
        None => Stage::Start,
    }
}

/// The registers of a child.
fn child_regs(regs: &Regs, call: &LxCall) -> Regs
    ensures { result ≡ child_regs regs.now call.now }
{
    let mut child = *regs;
    child.x[0] = 0;
    let [_, stack, _, tls, ..] = call.arguments;
    if stack != 0 {
        child.sp = stack;
    }
    if sets_tls(call) {
        child.tpidr = tls;
    }
    child
}

/// The clear address of a child.
fn clear_address(call: &LxCall) -> u64
    ensures { result ≡ clear_address call.now }
{
    if clears_for_child(call) {
        call.arguments[4]
    } else {
        0
    }
}

/// The child of a parent with these registers and this mask starts.
pub fn started(regs: &Regs, mask: u64, call: &mut LxCall, child: &mut LxThread)
    ensures child { child.new ≡ started regs.now mask call.old child.old }
    ensures call { call.new ≡ without_child call.old }
{
    child.life = Life::Live;
    child.regs = child_regs(regs, call);
    child.mask = mask;
    child.alt_stack = no_stack();
    child.robust_head = 0;
    child.clear_at = clear_address(call);
    call.child = None;
}

/// What refuses set_robust_list(2) at its entry.
pub fn set_robust_list_refusal(call: &LxCall) -> Option<LinuxErrno>
    ensures { result ≡ first_refusal (set_robust_list_refusals call.now) }
{
    refused_if(call.arguments[1] != HEAD, LinuxErrno::EINVAL)
}

/// The thread has this robust list (set_robust_list(2)).
pub fn set_robust_list(thread: &mut LxThread, call: &mut LxCall)
    ensures thread { thread.new ≡ with_robust_list thread.old call.old }
    ensures call { call.new ≡ set_robust_list call.old }
{
    thread.robust_head = call.arguments[0];
    call.answer(0);
}

/// Whether a live thread with this tid stands in the place.
fn is_living(tid: u32, place: &Option<LxThread>) -> bool
    ensures { result ≡ is_living tid place.now }
{
    match place {
        None => false,
        Some(thread) => thread.tid == tid && matches!(thread.life, Life::Live),
    }
}

/// The robust list of the thread in the place, if there is one.
fn robust_head(place: &Option<LxThread>) -> Option<u64>
    ensures { result ≡ option_map (λ t. t.robust_head) place.now }
{
    match place {
        None => None,
        Some(thread) => Some(thread.robust_head),
    }
}

/// The robust list of the live thread with a tid, if there is one.
fn robust_list_of(tid: u32, threads: &[Option<LxThread>]) -> Option<u64>
    ensures { result ≡ robust_list_of tid threads.now }
{
    for place in threads {
        if is_living(tid, place) {
            return robust_head(place);
        }
    }
    None
}

/// The robust list that is asked for.
fn asked_list(threads: &[Option<LxThread>], own: u64, call: &LxCall) -> Option<u64>
    ensures { result ≡ asked_list threads.now own call.now }
{
    match call.low_argument(0) {
        0 => Some(own),
        tid => robust_list_of(tid, threads),
    }
}

/// The head of a robust list and its length.
fn list_bytes(alloc: Global, head: u64) -> Result<Bytes, NoMemory>
    ensures { IfOk result (λ bytes. bytes ≡ bytes_of head 8 ++ bytes_of 24 8) }
{
    let mut numbers = [0; 16];
    LittleEndian::write_u64(&mut numbers, head);
    LittleEndian::write_u64(&mut numbers[8..], HEAD);
    let mut bytes = Bytes::empty(alloc);
    bytes.append(&numbers)?;
    Ok(bytes)
}

/// Where they are stored.
fn list_pieces(alloc: Global, call: &LxCall) -> Result<Pieces, NoMemory>
    ensures { IfOk result (λ pieces. pieces ≡ piece (argument call.now 1) 8 ∷ piece (argument call.now 2) 8 ∷ []) }
{
    let mut pieces = Pieces::none(alloc);
    let [_, head_at, size_at, ..] = call.arguments;
    pieces.push(Piece {
        at: head_at,
        len: 8,
    })?;
    pieces.push(Piece {
        at: size_at,
        len: 8,
    })?;
    Ok(pieces)
}

/// Answers the robust list of a live thread (get_robust_list(2)); `own` is the caller's. Where memory is wanting, nothing
/// changes.
pub fn get_robust_list(
    alloc: Global,
    threads: &[Option<LxThread>],
    own: u64,
    call: &mut LxCall,
) -> Result<(), NoMemory>
    ensures ok { OnOk result (call.new ≡ get_robust_list threads.now own call.old) }
    ensures err { OnErr result (call.new ≡ call.old) }
{
    match asked_list(threads, own, call) {
        None => call.refuse(LinuxErrno::ESRCH),
        Some(head) => {
            let pieces = list_pieces(alloc, call)?;
            let bytes = list_bytes(alloc, head)?;
            call.answer_with(0, pieces, bytes);
        }
    }
    Ok(())
}
