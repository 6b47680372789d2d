//! Pages of the Linux machine (`lx_memory`).

use crate::areas::Range;
use crate::rights::{rights, rights_found};
use case_words::answers::{Answer, Refusal};
use case_words::arguments::Arguments;
use case_words::subject::Subject;
use lx_memory::Memory;
use page_ranges::Rights;
use std::alloc::Global;

/// A call on pages.
#[derive(Clone, Copy)]
enum MemoryCall {
    Map(Range, Rights),
    Unmap(Range),
    RightsAt(u64),
}

/// The call of this name.
fn memory_call(name: &str, of: Arguments<'_>) -> Result<MemoryCall, Refusal> {
    match name {
        "map" => Ok(MemoryCall::Map(Range::of(of)?, rights(of)?)),
        "unmap" => Ok(MemoryCall::Unmap(Range::of(of)?)),
        "rights-at" => Ok(MemoryCall::RightsAt(of.number("page")?)),
        _ => Err(Refusal::NotACall),
    }
}

fn map(memory: &mut Memory, range: Range, rights: Rights) -> Answer {
    match memory.map(range.first, range.pages, rights) {
        Ok(()) => Answer::Done,
        Err(_) => Answer::Word("no room"),
    }
}

/// Pages of the Linux machine, as a script makes and calls it.
#[derive(Drop)]
pub struct MemorySubject(Memory);

impl Subject for MemorySubject {
    fn make(alloc: Global, of: Arguments<'_>) -> Result<MemorySubject, Refusal> {
        match Memory::make(alloc, of.number_32("room")?) {
            Ok(memory) => Ok(MemorySubject(memory)),
            Err(_) => Err(Refusal::NoMemory),
        }
    }

    fn call(&mut self, alloc: Global, name: &str, of: Arguments<'_>) -> Result<Answer, Refusal> {
        match memory_call(name, of)? {
            MemoryCall::Map(range, rights) => Ok(map(&mut self.0, range, rights)),
            MemoryCall::Unmap(range) => {
                self.0.unmap(range.first, range.pages);
                Ok(Answer::Done)
            }
            MemoryCall::RightsAt(page) => Ok(rights_found(alloc, self.0.rights_at(page))?),
        }
    }
}
