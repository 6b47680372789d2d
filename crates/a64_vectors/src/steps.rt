//! A word with the registers before it and with what it does.
ghost use Rattle.std.specs.Prelude.{IfSome, Ok};
ghost use Rattle.a64_model.specs.Exec.{IsAnswer};

use crate::numbers::{memory_bytes, word};
use crate::outcome::{tell_access, tell_changes, tell_next, tell_refused};
use crate::state::{registers, set_register};
use a64_decode::decode;
use a64_model::access::{Access, Answer, Fault};
use a64_model::regs::Regs;
use std::alloc::{AllocError, Global};
use vector_moves::every_row::{finish, need};

/// What memory does when it is asked: it stores, gives these bytes, finds no mark, or faults at the address 0x1234.
#[derive(Clone, Copy)]
enum Memory {
    Stores,
    Gives([u8; 32]),
    HasNoMark,
    Faults,
}

/// A word, and the registers and the memory before it.
#[derive(Drop)]
struct Start {
    word: u32,
    regs: Regs,
    memory: Memory,
}

/// What memory answers to an access, or none where that is no answer to it.
fn answer_to(access: Access, memory: Memory) -> Option<Answer>
    ensures { IfSome result (IsAnswer (Ok access)) }
{
    match access {
        Access::None => Some(Answer::Done),
        Access::ClearMark => Some(Answer::Done),
        Access::Load { .. } => match memory {
            Memory::Gives(bytes) => Some(Answer::Bytes(bytes)),
            Memory::Faults => Some(Answer::Fault(Fault { address: 0x1234 })),
            _ => None,
        },
        Access::Swap { .. } => match memory {
            Memory::Gives(bytes) => Some(Answer::Bytes(bytes)),
            Memory::Faults => Some(Answer::Fault(Fault { address: 0x1234 })),
            _ => None,
        },
        Access::Store { exclusive, .. } => match memory {
            Memory::Stores => Some(Answer::Done),
            Memory::HasNoMark if exclusive => Some(Answer::NoMark),
            Memory::Faults => Some(Answer::Fault(Fault { address: 0x1234 })),
            _ => None,
        },
    }
}

/// Executes a word over memory that does this, as text.
fn executed(alloc: Global, start: &Start, memory: Memory) -> Result<String, AllocError> {
    let mut text = String::new(alloc);
    let Some(instr) = decode(start.word) else {
        text.push_str(" no row")?;
        return Ok(text);
    };
    match need(&start.regs, instr) {
        Err(next) => tell_refused(&mut text, next)?,
        Ok(access) => match answer_to(access, memory) {
            None => text.push_str(" no answer")?,
            Some(answer) => {
                let mut regs = start.regs;
                let next = finish(&mut regs, instr, answer);
                tell_access(&mut text, access)?;
                tell_next(&mut text, next)?;
                tell_changes(&mut text, &start.regs, &regs, next)?;
            }
        },
    }
    Ok(text)
}

/// The access that memory may fault at.
fn faulting_access(start: &Start) -> Option<Access> {
    match need(&start.regs, decode(start.word)?) {
        Ok(Access::None | Access::ClearMark) => None,
        Ok(access) => Some(access),
        Err(_) => None,
    }
}

/// Whether a fault of the access leaves nothing but its trap.
fn is_undone_by_a_fault(alloc: Global, start: &Start) -> Result<bool, AllocError> {
    let Some(access) = faulting_access(start) else {
        return Ok(true);
    };
    let mut trap = String::new(alloc);
    tell_access(&mut trap, access)?;
    trap.push_str(" trap=11,0,1234")?;
    let faulted = executed(alloc, start, Memory::Faults)?;
    Ok(faulted.as_str() == trap.as_str())
}

/// Takes a value into the start: a register's, or what memory does.
fn take_value(start: &mut Start, value: &str) -> Option<()> {
    if value == "no-mark" {
        start.memory = Memory::HasNoMark;
        return Some(());
    }
    match value.split_once('=')? {
        ("bytes", digits) => start.memory = Memory::Gives(memory_bytes(digits)?),
        (name, digits) => set_register(&mut start.regs, name, digits)?,
    }
    Some(())
}

/// The start that a case tells: the word, and then the values of registers and what memory does.
fn read_start(text: &str) -> Option<Start> {
    let mut values = text.split_whitespace();
    let mut start = Start {
        word: word(values.next()?)?,
        regs: registers(),
        memory: Memory::Stores,
    };
    for value in values {
        take_value(&mut start, value)?;
    }
    Some(start)
}

/// What the word of a case does in place of what the case says, or none where it does that, and nothing but the trap where its
/// access faults.
pub fn other_outcome(alloc: Global, case: &str) -> Result<Option<String>, AllocError> {
    let Some((before, outcome)) = case.split_once("->") else {
        return Ok(Some(String::from_str(alloc, "no case")?));
    };
    let Some(start) = read_start(before) else {
        return Ok(Some(String::from_str(alloc, "no case")?));
    };
    let mut found = executed(alloc, &start, start.memory)?;
    if !is_undone_by_a_fault(alloc, &start)? {
        found.push_str(" and something after a fault")?;
    }
    if found.as_str().trim() == outcome.trim() {
        return Ok(None);
    }
    Ok(Some(found))
}
