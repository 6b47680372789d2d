//! Locks that name their owner: FUTEX_LOCK_PI, FUTEX_TRYLOCK_PI and FUTEX_UNLOCK_PI (futex(2)).
ghost use Rattle.std.specs.Prelude.{◌≡◌, ◌≤◌, length, Some, None, IfSome, IfOk, IfErr, OnOk, OnErr};
ghost use Rattle.lx_memory.specs.Bytes.{IsMapped};
ghost use Rattle.lx_machine.specs.Futex.{with_word};
ghost use Rattle.lx_machine.specs.FutexPi.{awaited_word, has_died, has_owner, heir_word, held_word, is_owner, lock_awaited, lock_expired, lock_given_up, lock_resumed, lock_taken, lock_word, locked, owner, pi_waiter, unlocked, unlocked_for};
ghost use Rattle.lx_machine.specs.PiQueue.{first_pi, without_first_pi};

use crate::futexes::{NOTHING, Written, wait_no_more};
use crate::words::{readable_word, set_word, writable_word};
use linux_abi::LinuxErrno;
use linux_abi::futexes::{FUTEX_OWNER_DIED, FUTEX_TID_MASK, FUTEX_WAITERS};
use lx_machine::buffer::NoMemory;
use lx_machine::calls::LxCall;
use lx_machine::futexes::PiLock;
use lx_machine::pi_queue::PiQueue;
use lx_machine::refusal::LxRefusal;
use lx_machine::threads::{Life, LxThread, PiWaiter};
use lx_memory::Memory;
use lx_times::time::has_passed;

/// The tid of the owner of a lock with this word.
pub fn owner(word: u32) -> u32
    ensures { result ≡ owner word }
{
    word & FUTEX_TID_MASK
}

/// Whether an owner has died.
fn has_died(word: u32) -> bool
    ensures { result ≡ has_died word }
{
    word & FUTEX_OWNER_DIED != 0
}

/// The word of a lock that this thread holds, where an owner has died, and where some thread waits for it.
fn held_word(tid: u32, died: bool, waits: bool) -> u32
    ensures { result ≡ held_word tid died waits }
{
    let died_bit = if died { FUTEX_OWNER_DIED } else { 0 };
    let waiters_bit = if waits { FUTEX_WAITERS } else { 0 };
    tid | died_bit | waiters_bit
}

/// The word for which a thread waits.
fn awaited_word(word: u32) -> u32
    ensures { result ≡ awaited_word word }
{
    word | FUTEX_WAITERS
}

/// The word at an address, if it may be read and written; then it is mapped.
fn lock_word(pages: &Memory, at: u64) -> Option<u32>
    ensures word { result ≡ lock_word pages.now at }
    ensures mapped { IfSome result (λ _. IsMapped pages.now at 4) }
{
    match readable_word(pages, at) {
        Some(_) => writable_word(pages, at),
        None => None,
    }
}

/// The thread that waits first for the lock holds it now, and the others are left.
pub fn hand_over(pages: &mut Memory, queue: &mut PiQueue, at: u64, died: bool, heir: PiWaiter)
    requires { IsMapped pages.old at 4 }
    ensures pages { pages.new ≡ with_word pages.old at (heir_word died at queue.old heir) }
    ensures queue { queue.new ≡ without_first_pi at queue.old }
{
    queue.remove_first(at);
    set_word(pages, at, held_word(heir.tid, died, queue.has_at(at)));
}

/// Whether it is a live or dying thread with this tid.
fn is_owner(tid: u32, thread: &Option<LxThread>) -> bool
    ensures { result ≡ is_owner tid thread.now }
{
    match thread {
        None => false,
        Some(thread) => thread.tid == tid && !matches!(thread.life, Life::Reserved),
    }
}

/// Whether a live or dying thread has this tid.
fn has_owner(threads: &[Option<LxThread>], tid: u32) -> bool
    ensures { result ≡ has_owner threads.now tid }
{
    threads.iter().any(|thread| is_owner(tid, thread))
}

/// The thread waits for the lock at this address.
fn pi_waiter(tid: u32, at: u64) -> PiWaiter
    ensures { result ≡ pi_waiter tid at }
{
    PiWaiter { tid, address: at }
}

/// A lock without an owner: the thread holds it now.
fn take(
    pages: &mut Memory,
    tid: u32,
    queue: &PiQueue,
    call: &mut LxCall,
    asked: PiLock,
    word: u32,
) -> Written
    requires { IsMapped pages.old asked.at 4 }
    ensures { lock_taken pages.old tid queue.now call.old asked word ≡ record { pages = pages.new; pi_queue = queue.now; call = call.new; at = result.at; written = result.len } }
{
    set_word(
        pages,
        asked.at,
        held_word(tid, has_died(word), queue.has_at(asked.at)),
    );
    call.answer(0);
    Written {
        at: asked.at,
        len: 4,
    }
}

/// A lock of another thread: the thread waits for it, unless it only tries. `NoMemory`: the queue is full; then nothing changes.
fn wait_for(
    pages: &mut Memory,
    tid: u32,
    queue: &mut PiQueue,
    call: &mut LxCall,
    asked: PiLock,
    word: u32,
) -> Result<Written, NoMemory>
    requires { IsMapped pages.old asked.at 4 }
    ensures ok { IfOk result (λ done. lock_awaited pages.old tid queue.old call.old asked word ≡ record { pages = pages.new; pi_queue = queue.new; call = call.new; at = done.at; written = done.len }) }
    ensures err { OnErr result ((pages.new ≡ pages.old) × (queue.new ≡ queue.old) × (call.new ≡ call.old)) }
    ensures full { OnErr result (128 ≤ length queue.old) }
{
    if asked.tries {
        call.refuse(LinuxErrno::EAGAIN);
        return Ok(NOTHING);
    }
    queue.push(pi_waiter(tid, asked.at))?;
    set_word(pages, asked.at, awaited_word(word));
    call.waits = true;
    Ok(Written {
        at: asked.at,
        len: 4,
    })
}

/// A lock is asked for by the thread with this tid, where these are the others. `NoMemory`: the queue is full; then nothing changes.
pub fn locked(
    pages: &mut Memory,
    threads: &[Option<LxThread>],
    tid: u32,
    queue: &mut PiQueue,
    call: &mut LxCall,
    asked: PiLock,
) -> Result<Written, NoMemory>
    ensures ok { IfOk result (λ done. locked pages.old threads.now tid queue.old call.old asked ≡ record { pages = pages.new; pi_queue = queue.new; call = call.new; at = done.at; written = done.len }) }
    ensures err { OnErr result ((pages.new ≡ pages.old) × (queue.new ≡ queue.old) × (call.new ≡ call.old)) }
    ensures full { OnErr result (128 ≤ length queue.old) }
{
    let refusal = match lock_word(pages, asked.at) {
        None => LinuxErrno::EFAULT,
        Some(word) if owner(word) == tid => LinuxErrno::EDEADLK,
        Some(word) if owner(word) == 0 => return Ok(take(pages, tid, queue, call, asked, word)),
        Some(word) if has_owner(threads, owner(word)) => {
            return wait_for(pages, tid, queue, call, asked, word);
        }
        Some(_) => LinuxErrno::ESRCH,
    };
    call.refuse(refusal);
    Ok(NOTHING)
}

/// The lock of the thread goes to the first that waits for it, and without one nobody holds it.
fn give_back(pages: &mut Memory, queue: &mut PiQueue, call: &mut LxCall, at: u64) -> Written
    requires { IsMapped pages.old at 4 }
    ensures { unlocked_for pages.old queue.old call.old at (first_pi at queue.old) ≡ record { pages = pages.new; pi_queue = queue.new; call = call.new; at = result.at; written = result.len } }
{
    match queue.first(at) {
        Some(heir) => hand_over(pages, queue, at, false, heir),
        None => set_word(pages, at, 0),
    }
    call.answer(0);
    Written { at, len: 4 }
}

/// The lock at an address is given back by the thread with this tid.
pub fn unlocked(
    pages: &mut Memory,
    tid: u32,
    queue: &mut PiQueue,
    call: &mut LxCall,
    at: u64,
) -> Written
    ensures { unlocked pages.old tid queue.old call.old at ≡ record { pages = pages.new; pi_queue = queue.new; call = call.new; at = result.at; written = result.len } }
{
    let refusal = match lock_word(pages, at) {
        None => LinuxErrno::EFAULT,
        Some(word) if owner(word) == tid => return give_back(pages, queue, call, at),
        Some(_) => LinuxErrno::EPERM,
    };
    call.refuse(refusal);
    NOTHING
}

/// A thread that waited for a lock and was given it goes on. Not enabled: it is queued, or doesn't wait; then nothing changes.
pub fn lock_resumed(tid: u32, queue: &PiQueue, call: &mut LxCall) -> Result<(), LxRefusal>
    ensures ok { OnOk result (lock_resumed tid queue.now call.old ≡ Some call.new) }
    ensures err { OnErr result (lock_resumed tid queue.now call.old ≡ None) }
    ensures kept { OnErr result (call.new ≡ call.old) }
    ensures no_step { IfErr result (λ e. e ≡ LxRefusal.NoStep) }
{
    if !call.waits || queue.has(tid) {
        return Err(LxRefusal::NoStep);
    }
    call.answer(0);
    wait_no_more(call);
    Ok(())
}

/// A thread waits for its lock no more, as by a signal. Not enabled: it is not queued; then nothing changes.
pub fn lock_given_up(
    e: LinuxErrno,
    tid: u32,
    queue: &mut PiQueue,
    call: &mut LxCall,
) -> Result<(), LxRefusal>
    ensures ok { OnOk result (lock_given_up e tid queue.old call.old ≡ Some (record { pi_queue = queue.new; call = call.new })) }
    ensures err { OnErr result (lock_given_up e tid queue.old call.old ≡ None) }
    ensures kept { OnErr result ((queue.new ≡ queue.old) × (call.new ≡ call.old)) }
    ensures no_step { IfErr result (λ e. e ≡ LxRefusal.NoStep) }
{
    if !call.waits || !queue.has(tid) {
        return Err(LxRefusal::NoStep);
    }
    queue.remove(tid);
    wait_no_more(call);
    call.refuse(e);
    Ok(())
}

/// A wait for a lock ends at its deadline. Not enabled: that has not passed, or it is not queued; then nothing changes.
pub fn lock_expired(
    clock: u64,
    tid: u32,
    queue: &mut PiQueue,
    call: &mut LxCall,
) -> Result<(), LxRefusal>
    ensures ok { OnOk result (lock_expired clock tid queue.old call.old ≡ Some (record { pi_queue = queue.new; call = call.new })) }
    ensures err { OnErr result (lock_expired clock tid queue.old call.old ≡ None) }
    ensures kept { OnErr result ((queue.new ≡ queue.old) × (call.new ≡ call.old)) }
    ensures no_step { IfErr result (λ e. e ≡ LxRefusal.NoStep) }
{
    if !has_passed(clock, call.deadline) {
        return Err(LxRefusal::NoStep);
    }
    lock_given_up(LinuxErrno::ETIMEDOUT, tid, queue, call)
}
