//! Shards of guest memory (`guest_mem`).
ghost use Rattle.std.specs.Prelude.{◌≡◌, ◌+◌, ◌%◌, ◌<◌, ◌≤◌, ◌⊎◌, IsTrue};
ghost use Rattle.places.specs.Places as place;

use crate::rights::{rights, rights_found};
use a64_model::access::{Fault, SwapOp};
use case_words::answers::{Answer, Refusal};
use case_words::arguments::Arguments;
use case_words::subject::Subject;
use case_words::words::bytes;
use guest_mem::{Shard, ShardFull};
use page_ranges::Rights;
use std::alloc::{AllocError, Global};

/// A shard, and its index.
#[derive(Drop)]
pub struct Numbered {
    index: u8,
    shard: Shard,
    ghost numbered: { shard.index ≡ index },
}

/// An exchange of a number in memory.
#[derive(Clone, Copy)]
struct Swap {
    len: u8,
    op: SwapOp,
    value: u64,
    expected: u64,
}

/// A call on the bytes of a page, by a slot.
#[derive(Drop)]
enum AccessCall {
    Load(u16),
    Store(Vec<u8>),
    Swap(Swap),
    Mark,
    Marked,
}

/// A call on a whole page.
#[derive(Clone, Copy)]
enum PageCall {
    Rights,
    Map(Rights),
    Unmap,
    Zero,
    Protect(Rights),
}

/// A call on a shard.
#[derive(Drop)]
enum ShardCall {
    Spare,
    NextKept { first: u64, pages: u64 },
    OnPage(u64, PageCall),
    Access { slot: u8, at: u64, call: AccessCall },
}

/// The operation of this name.
fn operation(of: Arguments<'_>) -> Result<SwapOp, Refusal> {
    match of.word("op")? {
        "add" => Ok(SwapOp::Add),
        "clear" => Ok(SwapOp::Clear),
        "exclusive-or" => Ok(SwapOp::Xor),
        "set" => Ok(SwapOp::Set),
        "swap" => Ok(SwapOp::Swap),
        "compare" => Ok(SwapOp::CompareSwap),
        _ => Err(Refusal::NotACall),
    }
}

fn read_swap(of: Arguments<'_>) -> Result<Swap, Refusal> {
    Ok(Swap {
        len: of.number_8("len")?,
        op: operation(of)?,
        value: of.number("value")?,
        expected: of.number("expected")?,
    })
}

/// The call of this name on the bytes of a page.
fn access_call(alloc: Global, name: &str, of: Arguments<'_>) -> Result<AccessCall, Refusal> {
    match name {
        "load" => Ok(AccessCall::Load(of.number_16("len")?)),
        "store" => Ok(AccessCall::Store(bytes(alloc, of.word("bytes")?)?)),
        "swap" => Ok(AccessCall::Swap(read_swap(of)?)),
        "mark" => Ok(AccessCall::Mark),
        "marked" => Ok(AccessCall::Marked),
        _ => Err(Refusal::NotACall),
    }
}

/// The call of this name on a whole page; `None`: it is none of these.
fn page_call(name: &str, of: Arguments<'_>) -> Result<Option<PageCall>, Refusal> {
    Ok(Some(match name {
        "rights" => PageCall::Rights,
        "map" => PageCall::Map(rights(of)?),
        "unmap" => PageCall::Unmap,
        "zero" => PageCall::Zero,
        "protect" => PageCall::Protect(rights(of)?),
        _ => return Ok(None),
    }))
}

/// The call of this name on a page or on the bytes of one.
fn part_call(alloc: Global, name: &str, of: Arguments<'_>) -> Result<ShardCall, Refusal> {
    match page_call(name, of)? {
        Some(call) => Ok(ShardCall::OnPage(of.number("page")?, call)),
        None => Ok(ShardCall::Access {
            slot: of.number_8("slot")?,
            at: of.number("at")?,
            call: access_call(alloc, name, of)?,
        }),
    }
}

/// The call of this name.
fn shard_call(alloc: Global, name: &str, of: Arguments<'_>) -> Result<ShardCall, Refusal> {
    match name {
        "spare" => Ok(ShardCall::Spare),
        "next-kept" => Ok(ShardCall::NextKept {
            first: of.number("first")?,
            pages: of.number("pages")?,
        }),
        _ => part_call(alloc, name, of),
    }
}

/// Whether so many bytes from an address on are some, and lie in one page of the shard of this index.
fn is_in_page(index: u8, at: u64, len: usize) -> bool
    ensures some { IsTrue result → 0 < len }
    ensures one_page { IsTrue result → at % 4096 + len ≤ 4096 }
    ensures here { IsTrue result → place.shard (place.page at) ≡ index }
{
    0 < len && len <= 4096 - (at % 4096) as usize && places::shard(places::page(at)) == index
}

/// Whether an exchange may have so many bytes.
fn is_swap_len(len: u8) -> bool
    ensures { IsTrue result → (len ≡ 1) ⊎ (len ≡ 2) ⊎ (len ≡ 4) ⊎ (len ≡ 8) }
{
    matches!(len, 1 | 2 | 4 | 8)
}

/// What an access answers that may fault.
fn faulted(alloc: Global, fault: Fault) -> Result<Answer, AllocError> {
    let at = fault.address;
    Ok(Answer::Text(format!(in alloc; "fault at {at:#x}")?))
}

/// What a change of a page answers.
fn changed(change: Result<(), ShardFull>) -> Answer {
    match change {
        Ok(()) => Answer::Done,
        Err(ShardFull) => Answer::Word("full"),
    }
}

impl Numbered {
    fn load(&self, alloc: Global, at: u64, len: u16) -> Result<Answer, Refusal> {
        if !is_in_page(self.index, at, usize::from(len)) {
            return Err(Refusal::NotMet);
        }
        let mut into = vec![in alloc; 0u8; usize::from(len)]?;
        match self.shard.load(at, &mut into) {
            Ok(()) => Ok(Answer::Text(hex::encode(alloc, into)?)),
            Err(fault) => Ok(faulted(alloc, fault)?),
        }
    }

    fn store(&mut self, alloc: Global, slot: u8, at: u64, bytes: &[u8]) -> Result<Answer, Refusal> {
        if slot >= 128 || !is_in_page(self.index, at, bytes.len()) {
            return Err(Refusal::NotMet);
        }
        match self.shard.store(slot, at, bytes) {
            Ok(()) => Ok(Answer::Done),
            Err(fault) => Ok(faulted(alloc, fault)?),
        }
    }

    fn swap(&mut self, alloc: Global, slot: u8, at: u64, swap: Swap) -> Result<Answer, Refusal> {
        let len = swap.len;
        if slot >= 128 || !is_swap_len(len) || !is_in_page(self.index, at, usize::from(len)) {
            return Err(Refusal::NotMet);
        }
        match self
            .shard
            .swap_with(slot, at, len, swap.op, swap.value, swap.expected)
        {
            Ok(was) => Ok(Answer::Address(was)),
            Err(fault) => Ok(faulted(alloc, fault)?),
        }
    }

    fn mark(&mut self, slot: u8, at: u64) -> Result<Answer, Refusal> {
        if slot >= 128 {
            return Err(Refusal::NotMet);
        }
        self.shard.mark(slot, at);
        Ok(Answer::Done)
    }

    fn marked(&self, slot: u8, at: u64) -> Result<Answer, Refusal> {
        if slot >= 128 {
            return Err(Refusal::NotMet);
        }
        Ok(Answer::Is(self.shard.marked(slot, at)))
    }

    fn access(
        &mut self,
        alloc: Global,
        slot: u8,
        at: u64,
        call: AccessCall,
    ) -> Result<Answer, Refusal> {
        match call {
            AccessCall::Load(len) => self.load(alloc, at, len),
            AccessCall::Store(bytes) => self.store(alloc, slot, at, &bytes),
            AccessCall::Swap(swap) => self.swap(alloc, slot, at, swap),
            AccessCall::Mark => self.mark(slot, at),
            AccessCall::Marked => self.marked(slot, at),
        }
    }

    fn unmap(&mut self, page: u64) -> Answer {
        self.shard.unmap_page(page);
        Answer::Done
    }

    fn zero(&mut self, page: u64) -> Answer {
        self.shard.zero_page(page);
        Answer::Done
    }

    fn on_page(&mut self, alloc: Global, page: u64, call: PageCall) -> Result<Answer, Refusal> {
        match call {
            PageCall::Rights => Ok(rights_found(alloc, self.shard.rights(page))?),
            PageCall::Map(rights) => Ok(changed(self.shard.map_page(page, rights))),
            PageCall::Unmap => Ok(self.unmap(page)),
            PageCall::Zero => Ok(self.zero(page)),
            PageCall::Protect(rights) => Ok(changed(self.shard.protect(page, rights))),
        }
    }
}

impl Subject for Numbered {
    fn make(alloc: Global, of: Arguments<'_>) -> Result<Numbered, Refusal> {
        let (index, share) = (of.number_8("index")?, of.number_32("share")?);
        if index >= 16 {
            return Err(Refusal::NotMet);
        }
        match Shard::make(alloc, index, share) {
            Ok(shard) => Ok(Numbered { index, shard }),
            Err(_) => Err(Refusal::NoMemory),
        }
    }

    fn call(&mut self, alloc: Global, name: &str, of: Arguments<'_>) -> Result<Answer, Refusal> {
        match shard_call(alloc, name, of)? {
            ShardCall::Spare => Ok(Answer::Number(u64::from(self.shard.spare()))),
            ShardCall::NextKept { first, pages } => {
                Ok(Answer::address(self.shard.next_kept(first, pages)))
            }
            ShardCall::OnPage(page, call) => self.on_page(alloc, page, call),
            ShardCall::Access { slot, at, call } => self.access(alloc, slot, at, call),
        }
    }
}
