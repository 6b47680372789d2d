//! Chains of waiters (`umtx_queue`).
ghost use Rattle.std.specs.Prelude.{◌≡◌, ◌↔◌, IsTrue, IsFalse};
ghost use Rattle.umtx_queue.specs.Waiters.{who_at, is_queued, IsWaiter};
ghost use Rattle.umtx_queue.specs.PiLines.{pi_is_queued};

use case_words::answers::{Answer, Refusal};
use case_words::arguments::Arguments;
use case_words::subject::Subject;
use std::alloc::{AllocError, Global};
use umtx_queue::{Chain, Looked, PiWaiter, Waiter};

/// A call on a chain.
#[derive(Clone, Copy)]
enum ChainCall {
    Busy(u8),
    Unbusy(u8),
    MarkedBy,
    Insert(Waiter),
    Remove(u8),
    Signal { key: u64, n: u32, bits: u32 },
    Look { slot: u8, place: u8 },
    PiInsert(PiWaiter),
    PiFirst(u64),
    PiHand(u64),
    PiLook(u8),
    PiRemove(u8),
}

/// The waiter that these arguments tell.
fn waiter(of: Arguments<'_>) -> Result<Waiter, Refusal> {
    Ok(Waiter {
        slot: of.number_8("slot")?,
        place: of.number_8("place")?,
        many: of.is("many")?,
        key: of.number("key")?,
        bits: of.number_32("bits")?,
    })
}

/// The waiter of the second line that these arguments tell.
fn pi_waiter(of: Arguments<'_>) -> Result<PiWaiter, Refusal> {
    Ok(PiWaiter {
        slot: of.number_8("slot")?,
        tid: of.number_32("tid")?,
        key: of.number("key")?,
    })
}

/// The call of the second line of this name.
fn pi_call(name: &str, of: Arguments<'_>) -> Result<ChainCall, Refusal> {
    match name {
        "pi-insert" => Ok(ChainCall::PiInsert(pi_waiter(of)?)),
        "pi-first" => Ok(ChainCall::PiFirst(of.number("key")?)),
        "pi-hand" => Ok(ChainCall::PiHand(of.number("key")?)),
        "pi-look" => Ok(ChainCall::PiLook(of.number_8("slot")?)),
        "pi-remove" => Ok(ChainCall::PiRemove(of.number_8("slot")?)),
        _ => Err(Refusal::NotACall),
    }
}

/// The call of this name.
fn chain_call(name: &str, of: Arguments<'_>) -> Result<ChainCall, Refusal> {
    match name {
        "busy" => Ok(ChainCall::Busy(of.number_8("slot")?)),
        "unbusy" => Ok(ChainCall::Unbusy(of.number_8("slot")?)),
        "marked-by" => Ok(ChainCall::MarkedBy),
        "insert" => Ok(ChainCall::Insert(waiter(of)?)),
        "remove" => Ok(ChainCall::Remove(of.number_8("slot")?)),
        "signal" => Ok(ChainCall::Signal {
            key: of.number("key")?,
            n: of.number_32("n")?,
            bits: of.number_32("bits")?,
        }),
        "look" => Ok(ChainCall::Look {
            slot: of.number_8("slot")?,
            place: of.number_8("place")?,
        }),
        _ => pi_call(name, of),
    }
}

/// What a slot finds, in words.
fn found(alloc: Global, looked: Option<Looked>) -> Result<Answer, AllocError> {
    match looked {
        None => Ok(Answer::Nothing),
        Some(Looked::Queued) => Ok(Answer::Word("queued")),
        Some(Looked::Woken) => Ok(Answer::Word("woken")),
        Some(Looked::Moved { key }) => Ok(Answer::Text(format!(in alloc; "moved {key:#x}")?)),
    }
}

/// Whether the slot and place waits in the chain.
pub fn is_in(chain: &Chain, slot: u8, place: u8) -> bool
    ensures { result ≡ is_queued (who_at slot place) chain.now.line.waiters }
{
    matches!(chain.look(slot, place), Some(Looked::Queued))
}

/// Whether the slot waits in the chain's second line.
fn is_in_second_line(chain: &Chain, slot: u8) -> bool
    ensures { result ≡ pi_is_queued slot chain.now.pi.waiters }
{
    matches!(chain.pi_look(slot), Some(Looked::Queued))
}

/// Whether there can be such a waiter.
fn is_waiter(waiter: &Waiter) -> bool
    ensures { IsTrue result → IsWaiter waiter.now }
{
    waiter.slot < 128 && waiter.place < 32 && (waiter.many || waiter.place == 0)
}

fn unbusy(chain: &mut Chain, slot: u8) -> Result<Answer, Refusal> {
    if chain.marked_by() != Some(slot) {
        return Err(Refusal::NotMet);
    }
    chain.unbusy(slot);
    Ok(Answer::Done)
}

fn insert(chain: &mut Chain, waiter: Waiter) -> Result<Answer, Refusal> {
    if !is_waiter(&waiter) || is_in(chain, waiter.slot, waiter.place) {
        return Err(Refusal::NotMet);
    }
    chain.insert(waiter);
    Ok(Answer::Done)
}

fn pi_insert(chain: &mut Chain, waiter: PiWaiter) -> Result<Answer, Refusal> {
    if waiter.slot >= 128 || is_in_second_line(chain, waiter.slot) {
        return Err(Refusal::NotMet);
    }
    chain.pi_insert(waiter);
    Ok(Answer::Done)
}

#[tactic(auto, using(crate::proofs::Locks::found))]
fn pi_hand(chain: &mut Chain, key: u64) -> Result<Answer, Refusal> {
    match chain.pi_first(key) {
        Some(_) => {
            chain.pi_hand(key);
            Ok(Answer::Done)
        }
        None => Err(Refusal::NotMet),
    }
}

/// The first waiter for a lock, in words.
fn first(alloc: Global, first: Option<(u32, bool)>) -> Result<Answer, AllocError> {
    match first {
        None => Ok(Answer::Nothing),
        Some((tid, true)) => Ok(Answer::Text(format!(in alloc; "tid {tid} and others")?)),
        Some((tid, false)) => Ok(Answer::Text(format!(in alloc; "tid {tid} alone")?)),
    }
}

fn played(chain: &mut Chain, alloc: Global, call: ChainCall) -> Result<Answer, Refusal> {
    match call {
        ChainCall::Busy(slot) => Ok(Answer::Is(chain.busy(slot))),
        ChainCall::Unbusy(slot) => unbusy(chain, slot),
        ChainCall::MarkedBy => Ok(Answer::number(chain.marked_by().map(u64::from))),
        ChainCall::Insert(waiter) => insert(chain, waiter),
        ChainCall::Remove(slot) => {
            chain.remove(slot);
            Ok(Answer::Done)
        }
        ChainCall::Signal { key, n, bits } => {
            Ok(Answer::Number(u64::from(chain.signal(key, n, bits))))
        }
        ChainCall::Look { slot, place } => Ok(found(alloc, chain.look(slot, place))?),
        ChainCall::PiInsert(waiter) => pi_insert(chain, waiter),
        ChainCall::PiFirst(key) => Ok(first(alloc, chain.pi_first(key))?),
        ChainCall::PiHand(key) => pi_hand(chain, key),
        ChainCall::PiLook(slot) => Ok(found(alloc, chain.pi_look(slot))?),
        ChainCall::PiRemove(slot) => {
            chain.pi_remove(slot);
            Ok(Answer::Done)
        }
    }
}

/// A chain, as a script makes and calls it.
#[derive(Drop)]
pub struct ChainSubject(pub Chain);

impl Subject for ChainSubject {
    fn make(alloc: Global, _of: Arguments<'_>) -> Result<ChainSubject, Refusal> {
        match Chain::make(alloc) {
            Ok(chain) => Ok(ChainSubject(chain)),
            Err(_) => Err(Refusal::NoMemory),
        }
    }

    fn call(&mut self, alloc: Global, name: &str, of: Arguments<'_>) -> Result<Answer, Refusal> {
        let call = chain_call(name, of)?;
        played(&mut self.0, alloc, call)
    }
}
