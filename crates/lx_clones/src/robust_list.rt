//! The death of a thread: its robust futexes, and its clear address (get_robust_list(2), set_tid_address(2)).
ghost use Rattle.std.specs.Prelude.{◌≡◌, ◌==◌, [], ◌∷◌, ℕ, false, if◌then◌else◌, IfOk, OnOk, OnErr};
ghost use Rattle.lx_memory.specs.Bytes.{IsMapped};
ghost use Rattle.lx_machine.specs.Futex.{writable_word};
ghost use Rattle.lx_machine.specs.FutexPi.{owner};
ghost use Rattle.lx_machine.specs.PiQueue.{first_pi};
ghost use Rattle.lx_machine.specs.RobustList.{address, after_clear, after_entries, after_walk, at_entry, at_next, begun, clearing, death_fetched, death_marked, death_not_fetched, death_released, death_stage, death_stored, fetched_at, first_death, goes_to, hands_over, has_waiters, has_word, is_address, is_given_back, is_inheriting, is_same_entry, mark_of, marked, marked_at, not_owned, orphaned, orphans, owned, pending_mark_of, stepped, with_head, word_address, Futexes};
ghost use Rattle.lx_machine.specs.Queue.{all_bits, released};

use linux_abi::futexes::{
    FUTEX_BITSET_MATCH_ANY, FUTEX_OWNER_DIED, FUTEX_WAITERS, ROBUST_HEAD_SIZE,
};
use lx_futexes::futex_pi::{hand_over, owner};
use lx_futexes::futexes::{NOTHING, Written, is_unaligned_word};
use lx_futexes::words::{readable_word, set_word, writable_word};
use lx_machine::buffer::{Bytes, NoMemory};
use lx_machine::calls::{LxCall, Piece, Stage};
use lx_machine::death::{Death, DeathPlace};
use lx_machine::futexes::{Mark, Wake};
use lx_machine::pi_queue::PiQueue;
use lx_machine::queue::Queue;
use lx_memory::Memory;
use lx_times::time::field;
use std::alloc::Global;

/// The most entries of a walk (get_robust_list(2)).
const MOST_ENTRIES: u32 = 2048;

/// The bytes of a next pointer.
const POINTER: u64 = 8;

/// The bytes of the word at the clear address.
const WORD: u64 = 4;

/// The address of an entry: the pointer with bit 0 cleared.
fn address(pointer: u64) -> u64
    ensures { result ≡ address pointer }
{
    pointer / 2 * 2
}

/// Whether the pointer tells a futex with priority inheritance.
fn is_inheriting(pointer: u64) -> bool
    ensures { result ≡ is_inheriting pointer }
{
    pointer % 2 == 1
}

/// Whether two pointers point to one entry.
fn is_same(a: u64, b: u64) -> bool
    ensures { result ≡ is_same_entry a b }
{
    address(a) == address(b)
}

/// The address of an entry's word.
fn word_address(pointer: u64, offset: u64) -> u64
    ensures { result ≡ word_address pointer offset }
{
    address(pointer).wrapping_add(offset)
}

/// Whether the address of an entry's word is one, with an offset that is signed.
fn is_address(pointer: u64, offset: u64) -> bool
    ensures { result ≡ is_address pointer offset }
{
    let sum = u128::from(address(pointer)) + u128::from(offset);
    if offset < 1 << 63 {
        sum < 1 << 64
    } else {
        sum >= 1 << 64
    }
}

/// Whether the entry has a word that can be marked.
fn has_word(pointer: u64, offset: u64) -> bool
    ensures { result ≡ has_word pointer offset }
{
    is_address(pointer, offset) && !is_unaligned_word(word_address(pointer, offset))
}

/// The mark of an entry's word.
fn mark_of(pointer: u64, offset: u64) -> Mark
    ensures { result ≡ mark_of pointer offset }
{
    Mark {
        at: word_address(pointer, offset),
        inherits: is_inheriting(pointer),
        is_pending: false,
    }
}

/// The mark of the pending entry's word.
fn pending_mark_of(pointer: u64, offset: u64) -> Mark
    ensures { result ≡ pending_mark_of pointer offset }
{
    Mark {
        is_pending: true,
        ..mark_of(pointer, offset)
    }
}

/// The death is here, with nothing fetched.
fn go_to(call: &mut LxCall, death: Death, place: DeathPlace)
    ensures { call.new ≡ goes_to call.old death place }
{
    call.death = Some(Death { place, ..death });
    call.pieces.clear();
    call.bytes.clear();
}

/// Four zeros.
fn zeros(alloc: Global) -> Result<Bytes, NoMemory>
    ensures { IfOk result (λ bytes. bytes ≡ 0 ∷ 0 ∷ 0 ∷ 0 ∷ []) }
{
    let mut bytes = Bytes::empty(alloc);
    bytes.append(&[0; 4])?;
    Ok(bytes)
}

/// The death is at its clear address.
fn clear(alloc: Global, call: &mut LxCall, death: Death) -> Result<(), NoMemory>
    ensures ok { OnOk result (call.new ≡ clearing call.old death) }
    ensures err { OnErr result (call.new ≡ call.old) }
{
    let bytes = zeros(alloc)?;
    go_to(call, death, DeathPlace::Clear);
    call.bytes = bytes;
    Ok(())
}

/// After the robust list comes the clear address, if there is one.
fn after_walk(alloc: Global, call: &mut LxCall, death: Death) -> Result<(), NoMemory>
    ensures ok { OnOk result (call.new ≡ after_walk call.old death) }
    ensures err { OnErr result (call.new ≡ call.old) }
{
    if death.clear_at == 0 {
        go_to(call, death, DeathPlace::Gone);
        Ok(())
    } else {
        clear(alloc, call, death)
    }
}

/// After the walk comes the pending entry, if there is one with a word.
fn after_entries(alloc: Global, call: &mut LxCall, death: Death) -> Result<(), NoMemory>
    ensures ok { OnOk result (call.new ≡ after_entries call.old death) }
    ensures err { OnErr result (call.new ≡ call.old) }
{
    if death.pending != 0 && has_word(death.pending, death.offset) {
        go_to(call, death, DeathPlace::Pending);
        Ok(())
    } else {
        after_walk(alloc, call, death)
    }
}

/// The walk comes to an entry.
fn at_entry(alloc: Global, call: &mut LxCall, death: Death) -> Result<(), NoMemory>
    ensures ok { OnOk result (call.new ≡ at_entry call.old death) }
    ensures err { OnErr result (call.new ≡ call.old) }
{
    if is_same(death.entry, death.head) || death.walked >= MOST_ENTRIES {
        return after_entries(alloc, call, death);
    }
    go_to(call, death, DeathPlace::Next);
    Ok(())
}

/// One more entry has been handled, and this one comes next.
fn stepped(death: Death, next: u64) -> Death
    ensures { result ≡ stepped death next }
{
    Death {
        entry: next,
        walked: death.walked.saturating_add(1).min(MOST_ENTRIES),
        ..death
    }
}

/// How a death begins.
fn first_death(robust_head: u64, clear_at: u64) -> Death
    ensures { result ≡ first_death robust_head clear_at }
{
    Death {
        place: DeathPlace::Head,
        head: robust_head,
        clear_at,
        entry: 0,
        offset: 0,
        pending: 0,
        walked: 0,
    }
}

/// The death of a thread with this robust list and this clear address, or 0, begins (_exit(2)). Where memory is wanting,
/// nothing changes.
pub fn begun(
    alloc: Global,
    robust_head: u64,
    clear_at: u64,
    call: &mut LxCall,
) -> Result<(), NoMemory>
    ensures ok { OnOk result (call.new ≡ begun robust_head clear_at call.old) }
    ensures err { OnErr result (call.new ≡ call.old) }
{
    let death = first_death(robust_head, clear_at);
    if robust_head == 0 {
        return after_walk(alloc, call, death);
    }
    go_to(call, death, DeathPlace::Head);
    Ok(())
}

/// What a death does next.
pub fn death_stage(death: Death) -> Stage
    ensures { result ≡ death_stage death }
{
    match death.place {
        DeathPlace::Head => Stage::Fetch(Piece {
            at: death.head,
            len: ROBUST_HEAD_SIZE,
        }),
        DeathPlace::Next => Stage::Fetch(Piece {
            at: address(death.entry),
            len: POINTER,
        }),
        DeathPlace::Entry(_) => Stage::Mark(mark_of(death.entry, death.offset)),
        DeathPlace::Pending => Stage::Mark(pending_mark_of(death.pending, death.offset)),
        DeathPlace::Clear => Stage::Store(Piece {
            at: death.clear_at,
            len: WORD,
        }),
        DeathPlace::Wake => Stage::Release(Wake {
            at: death.clear_at,
            most: 1,
            bits: FUTEX_BITSET_MATCH_ANY,
        }),
        DeathPlace::Gone => Stage::Gone,
    }
}

/// The death once the head of its list has been fetched.
fn with_head(death: Death, bytes: &[u8]) -> Death
    ensures { result ≡ with_head death bytes.now }
{
    Death {
        entry: field(bytes, 0),
        offset: field(bytes, 8),
        pending: field(bytes, 16),
        walked: 0,
        ..death
    }
}

/// An entry whose next pointer has been fetched.
fn at_next(alloc: Global, call: &mut LxCall, death: Death, next: u64) -> Result<(), NoMemory>
    ensures ok { OnOk result (call.new ≡ at_next call.old death next) }
    ensures err { OnErr result (call.new ≡ call.old) }
{
    if is_same(death.entry, death.pending) {
        return at_entry(alloc, call, stepped(death, next));
    }
    if has_word(death.entry, death.offset) {
        go_to(call, death, DeathPlace::Entry(next));
        return Ok(());
    }
    after_walk(alloc, call, death)
}

/// The head or a next pointer of this death has been fetched.
fn fetched_at(alloc: Global, call: &mut LxCall, death: Death) -> Result<(), NoMemory>
    ensures ok { OnOk result (call.new ≡ fetched_at call.old death death.place) }
    ensures err { OnErr result (call.new ≡ call.old) }
{
    match death.place {
        DeathPlace::Head => {
            let walk = with_head(death, call.bytes.as_slice());
            at_entry(alloc, call, walk)
        }
        DeathPlace::Next => {
            let next = field(call.bytes.as_slice(), 0);
            at_next(alloc, call, death, next)
        }
        _ => Ok(()),
    }
}

/// The head of the robust list or a next pointer has been fetched. Where memory is wanting, nothing changes.
pub fn death_fetched(alloc: Global, call: &mut LxCall) -> Result<(), NoMemory>
    ensures ok { OnOk result (call.new ≡ death_fetched call.old) }
    ensures err { OnErr result (call.new ≡ call.old) }
{
    match call.death {
        Some(death) => fetched_at(alloc, call, death),
        None => Ok(()),
    }
}

/// It could not be fetched, and the walk ends. Where memory is wanting, nothing changes.
pub fn death_not_fetched(alloc: Global, call: &mut LxCall) -> Result<(), NoMemory>
    ensures ok { OnOk result (call.new ≡ death_not_fetched call.old) }
    ensures err { OnErr result (call.new ≡ call.old) }
{
    match call.death {
        Some(death) => after_walk(alloc, call, death),
        None => Ok(()),
    }
}

/// A word of this death has been marked, or could not be.
fn marked_at(alloc: Global, fault: bool, call: &mut LxCall, death: Death) -> Result<(), NoMemory>
    ensures ok { OnOk result (call.new ≡ marked_at fault call.old death death.place) }
    ensures err { OnErr result (call.new ≡ call.old) }
{
    match death.place {
        DeathPlace::Entry(next) => {
            if fault {
                after_walk(alloc, call, death)
            } else {
                at_entry(alloc, call, stepped(death, next))
            }
        }
        DeathPlace::Pending => after_walk(alloc, call, death),
        _ => Ok(()),
    }
}

/// A word has been marked, or could not be. Where memory is wanting, nothing changes.
pub fn death_marked(alloc: Global, fault: bool, call: &mut LxCall) -> Result<(), NoMemory>
    ensures ok { OnOk result (call.new ≡ death_marked fault call.old) }
    ensures err { OnErr result (call.new ≡ call.old) }
{
    match call.death {
        Some(death) => marked_at(alloc, fault, call, death),
        None => Ok(()),
    }
}

/// What follows the clear address.
fn after_clear(call: &mut LxCall, death: Death)
    ensures { call.new ≡ after_clear call.old death }
{
    if is_unaligned_word(death.clear_at) {
        go_to(call, death, DeathPlace::Gone);
    } else {
        go_to(call, death, DeathPlace::Wake);
    }
}

/// 0 has been stored at the clear address, or could not be.
pub fn death_stored(call: &mut LxCall)
    ensures { call.new ≡ death_stored call.old }
{
    if let Some(death) = call.death {
        after_clear(call, death);
    }
}

/// A waiter at the clear address has been released.
pub fn death_released(call: &mut LxCall)
    ensures { call.new ≡ death_released call.old }
{
    if let Some(death) = call.death {
        go_to(call, death, DeathPlace::Gone);
    }
}

/// Whether someone waits.
fn has_waiters(word: u32) -> bool
    ensures { result ≡ has_waiters word }
{
    word & FUTEX_WAITERS != 0
}

/// What becomes of the word of an owner that dies.
fn orphaned(word: u32) -> u32
    ensures { result ≡ orphaned word }
{
    word & FUTEX_WAITERS | FUTEX_OWNER_DIED
}

/// Whether a Mark met a fault, and how many bytes it wrote from which address on.
#[derive(Clone, Copy)]
pub struct MarkDone {
    pub fault: bool,
    pub written: Written,
}

/// One waiter at the word is released.
fn release_one(queue: &mut Queue, mark: Mark)
    ensures { queue.new ≡ released mark.at 1 all_bits queue.old }
{
    queue.release(mark.at, 1, FUTEX_BITSET_MATCH_ANY);
}

/// The word of the mark has been written, without a fault.
fn written(mark: Mark) -> MarkDone
    ensures fault { result.fault ≡ false }
    ensures at { result.written.at ≡ mark.at }
    ensures len { result.written.len ≡ 4 }
{
    MarkDone {
        fault: false,
        written: Written {
            at: mark.at,
            len: WORD,
        },
    }
}

/// The word stays.
fn stays(fault: bool) -> MarkDone
    ensures fault { result.fault ≡ fault }
    ensures at { result.written.at ≡ 0 }
    ensures len { result.written.len ≡ 0 }
{
    MarkDone {
        fault,
        written: NOTHING,
    }
}

/// A futex is orphaned, and a waiter is released where someone waits.
fn orphan(
    pages: &mut Memory,
    queue: &mut Queue,
    pi_queue: &PiQueue,
    mark: Mark,
    word: u32,
) -> MarkDone
    requires { IsMapped pages.old mark.at 4 }
    ensures { orphans pages.old (record { queue = queue.old; pi_queue = pi_queue.now }) mark word ≡ record { pages = pages.new; left = record { queue = queue.new; pi_queue = pi_queue.now }; fault = result.fault; at = result.written.at; written = result.written.len } }
{
    set_word(pages, mark.at, orphaned(word));
    if has_waiters(word) {
        release_one(queue, mark);
    }
    written(mark)
}

/// A lock that names its owner goes to the first that waits for it, and is orphaned where nobody does.
fn give_on(
    pages: &mut Memory,
    queue: &Queue,
    pi_queue: &mut PiQueue,
    mark: Mark,
    word: u32,
) -> MarkDone
    requires { IsMapped pages.old mark.at 4 }
    ensures { hands_over pages.old (record { queue = queue.now; pi_queue = pi_queue.old }) mark word (first_pi mark.at pi_queue.old) ≡ record { pages = pages.new; left = record { queue = queue.now; pi_queue = pi_queue.new }; fault = result.fault; at = result.written.at; written = result.written.len } }
{
    match pi_queue.first(mark.at) {
        Some(heir) => hand_over(pages, pi_queue, mark.at, true, heir),
        None => set_word(pages, mark.at, orphaned(word)),
    }
    written(mark)
}

/// Marks a word of the thread itself.
fn mark_own(pages: &mut Memory, queue: &mut Queue, pi_queue: &mut PiQueue, mark: Mark) -> MarkDone
    ensures { owned pages.old (record { queue = queue.old; pi_queue = pi_queue.old }) mark (writable_word pages.old mark.at) ≡ record { pages = pages.new; left = record { queue = queue.new; pi_queue = pi_queue.new }; fault = result.fault; at = result.written.at; written = result.written.len } }
{
    match writable_word(pages, mark.at) {
        None => stays(true),
        Some(word) if mark.inherits => give_on(pages, queue, pi_queue, mark, word),
        Some(word) => orphan(pages, queue, pi_queue, mark, word),
    }
}

/// Whether the thread has given the futex of the pending entry back, and may not have woken anyone yet.
fn is_given_back(rules: u8, mark: Mark, word: u32) -> bool
    ensures { result ≡ is_given_back rules mark word }
{
    rules == 2 && mark.is_pending && !mark.inherits && word == 0
}

/// A word of another thread, or of none.
fn pass(rules: u8, queue: &mut Queue, mark: Mark, word: u32) -> MarkDone
    ensures queue { queue.new ≡ (if is_given_back rules mark word then released mark.at 1 all_bits queue.old else queue.old) }
    ensures fault { result.fault ≡ false }
    ensures at { result.written.at ≡ 0 }
    ensures len { result.written.len ≡ 0 }
{
    if is_given_back(rules, mark, word) {
        release_one(queue, mark);
    }
    stays(false)
}

/// Whether the thread owns the futex with this word.
fn is_own(tid: u32, word: u32) -> bool
    ensures { result ≡ (owner word == tid) }
{
    owner(word) == tid
}

/// Whether Mark of this word meets a fault: it may not be read, or is the thread's and may not be written.
pub fn mark_faults(pages: &Memory, tid: u32, mark: Mark) -> bool
    ensures { (rules : ℕ) (fs : Futexes) → result ≡ (marked rules pages.now tid fs mark).fault }
{
    match readable_word(pages, mark.at) {
        Some(word) if is_own(tid, word) => writable_word(pages, mark.at).is_none(),
        Some(_) => false,
        None => true,
    }
}

/// Marks a word where the thread owns it (get_robust_list(2)).
pub fn marked(
    rules: u8,
    pages: &mut Memory,
    tid: u32,
    queue: &mut Queue,
    pi_queue: &mut PiQueue,
    mark: Mark,
) -> MarkDone
    ensures { marked rules pages.old tid (record { queue = queue.old; pi_queue = pi_queue.old }) mark ≡ record { pages = pages.new; left = record { queue = queue.new; pi_queue = pi_queue.new }; fault = result.fault; at = result.written.at; written = result.written.len } }
{
    match readable_word(pages, mark.at) {
        Some(word) if is_own(tid, word) => mark_own(pages, queue, pi_queue, mark),
        Some(word) => pass(rules, queue, mark, word),
        None => stays(true),
    }
}
