//! Interests of a kqueue, and calls on them that ask no open file (`kqueue_core`).

use case_words::answers::{Answer, Refusal};
use case_words::arguments::Arguments;
use kqueue_core::{ChangeFault, Filter, Ident, KnoteFlags, Kqueue};
use std::alloc::{AllocError, Global};

/// A change of an interest.
#[derive(Clone, Copy)]
pub struct Change {
    ident: Ident,
    filter: Filter,
    flags: u16,
    asked: u32,
    user: u64,
    ready: bool,
}

/// A call on a kqueue.
#[derive(Clone, Copy)]
pub enum InterestCall {
    Change(Change),
    Activate { file: u32, filter: Filter },
    DropFile(u32),
    Flux { slot: u8, fd: u32 },
    Settle(u8),
    InFlux,
    FluxOf,
}

/// `read` or `write`.
pub fn filter(of: Arguments<'_>) -> Result<Filter, Refusal> {
    match of.word("filter")? {
        "read" => Ok(Filter::Read),
        "write" => Ok(Filter::Write),
        _ => Err(Refusal::NotACall),
    }
}

/// The flag of this name (kqueue(2)).
fn flag(name: &str) -> Result<u16, Refusal> {
    match name {
        "add" => Ok(KnoteFlags::EV_ADD),
        "delete" => Ok(KnoteFlags::EV_DELETE),
        "enable" => Ok(KnoteFlags::EV_ENABLE),
        "disable" => Ok(KnoteFlags::EV_DISABLE),
        "clear" => Ok(KnoteFlags::EV_CLEAR),
        "dispatch" => Ok(KnoteFlags::EV_DISPATCH),
        "none" => Ok(0),
        _ => Err(Refusal::NotACall),
    }
}

/// Flags by their names, with `+` between them.
fn flags(of: Arguments<'_>) -> Result<u16, Refusal> {
    let mut flags = 0;
    for name in of.word("flags")?.split("+") {
        flags |= flag(name)?;
    }
    Ok(flags)
}

fn read_change(of: Arguments<'_>) -> Result<Change, Refusal> {
    Ok(Change {
        ident: Ident {
            file: of.number_32("file")?,
            fd: of.number_32("fd")?,
        },
        filter: filter(of)?,
        flags: flags(of)?,
        asked: of.number_32("asked")?,
        user: of.number("user")?,
        ready: of.is("ready")?,
    })
}

/// The call of this name.
pub fn interest_call(name: &str, of: Arguments<'_>) -> Result<InterestCall, Refusal> {
    match name {
        "change" => Ok(InterestCall::Change(read_change(of)?)),
        "activate" => Ok(InterestCall::Activate {
            file: of.number_32("file")?,
            filter: filter(of)?,
        }),
        "drop-file" => Ok(InterestCall::DropFile(of.number_32("file")?)),
        "flux" => Ok(InterestCall::Flux {
            slot: of.number_8("slot")?,
            fd: of.number_32("fd")?,
        }),
        "settle" => Ok(InterestCall::Settle(of.number_8("slot")?)),
        "in-flux" => Ok(InterestCall::InFlux),
        "flux-of" => Ok(InterestCall::FluxOf),
        _ => Err(Refusal::NotACall),
    }
}

/// Why a change is refused, in a word.
fn fault(fault: ChangeFault) -> Answer {
    match fault {
        ChangeFault::Exists => Answer::Word("exists"),
        ChangeFault::Missing => Answer::Word("missing"),
        ChangeFault::Full => Answer::Word("full"),
    }
}

/// The name of an interest in words.
pub fn named(alloc: Global, ident: Option<Ident>) -> Result<Answer, AllocError> {
    match ident {
        None => Ok(Answer::Nothing),
        Some(ident) => {
            let (file, fd) = (ident.file, ident.fd);
            Ok(Answer::Text(format!(in alloc; "file {file} fd {fd}")?))
        }
    }
}

fn make_change(queue: &mut Kqueue, change: Change) -> Answer {
    match queue.change(
        change.ident,
        change.filter,
        change.flags,
        change.asked,
        change.user,
        change.ready,
    ) {
        Ok(()) => Answer::Done,
        Err(why) => fault(why),
    }
}

/// Makes a call on a kqueue.
pub fn play_interest(queue: &mut Kqueue, call: InterestCall) -> Answer {
    match call {
        InterestCall::Change(wanted) => make_change(queue, wanted),
        InterestCall::Activate { file, filter } => {
            queue.activate(file, filter);
            Answer::Done
        }
        InterestCall::DropFile(file) => {
            queue.drop_file(file);
            Answer::Done
        }
        InterestCall::Flux { slot, fd } => Answer::Is(queue.flux(slot, fd)),
        InterestCall::Settle(slot) => {
            queue.settle(slot);
            Answer::Done
        }
        InterestCall::InFlux => Answer::Is(queue.in_flux()),
        InterestCall::FluxOf => Answer::number(queue.flux_of().map(u64::from)),
    }
}
