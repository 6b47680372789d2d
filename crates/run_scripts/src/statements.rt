// The statements of a play.
use crate::reading::What;
use crate::script::{Deed, End, Statement, Step};
use crate::tokens::{bytes, number, number_8, number_32, register, sent, side, signed};
use std::alloc::Global;

/// The step of this name, which takes no signal.
fn plain_step(name: &str) -> Result<Step, What> {
    match name {
        "instr" => Ok(Step::Instr),
        "fetch" => Ok(Step::Fetch),
        "store" => Ok(Step::Store),
        "hold" => Ok(Step::Hold),
        "drop" => Ok(Step::Drop),
        "effect" => Ok(Step::Effect),
        "effect-short" => Ok(Step::EffectShort),
        "move" => Ok(Step::Move),
        "clock" => Ok(Step::Clock),
        "queue" => Ok(Step::Queue),
        "requeue" => Ok(Step::Requeue),
        "wake-op" => Ok(Step::WakeOp),
        "mark" => Ok(Step::Mark),
        "release" => Ok(Step::Release),
        "pi-lock" => Ok(Step::PiLock),
        "pi-unlock" => Ok(Step::PiUnlock),
        "resume" => Ok(Step::Resume),
        "expire" => Ok(Step::Expire),
        "start" => Ok(Step::Start),
        "leave" => Ok(Step::Leave),
        "gone" => Ok(Step::Gone),
        "return" => Ok(Step::Return),
        "frame" => Ok(Step::Frame),
        "kill" => Ok(Step::Kill),
        _ => Err(What::NotAStep),
    }
}

/// The step of this name that takes a signal, which is pending there.
fn taking_step(name: &str, list: &str, signal: &str) -> Result<Step, What> {
    let sent = sent(list, signal)?;
    match name {
        "interrupt" => Ok(Step::Interrupt(sent)),
        "return" => Ok(Step::ReturnTaking(sent)),
        "take" => Ok(Step::Take(sent)),
        _ => Err(What::NotAStep),
    }
}

fn step(words: &[&str]) -> Result<Step, What> {
    match words {
        [name] => plain_step(name),
        [name, list, signal] => taking_step(name, list, signal),
        _ => Err(What::NotAStep),
    }
}

/// The only word.
fn one<'a>(words: &[&'a str]) -> Result<&'a str, What> {
    match words {
        [word] => Ok(*word),
        _ => Err(What::NotAStatement),
    }
}

/// The only two words.
fn two<'a>(words: &[&'a str]) -> Result<(&'a str, &'a str), What> {
    match words {
        [first, second] => Ok((*first, *second)),
        _ => Err(What::NotAStatement),
    }
}

/// What a thread does, or what holds of it, where one word says it.
fn bare_deed(name: &str) -> Result<Deed, What> {
    match name {
        "rests" => Ok(Deed::Rests),
        "stuck" => Ok(Deed::Stuck),
        "unmarked" => Ok(Deed::Unmarked),
        "lives" => Ok(Deed::Lives),
        "absent" => Ok(Deed::Absent),
        _ => Err(What::NotAStatement),
    }
}

/// The same, where a verb and a value say it.
fn valued_deed(verb: &str, value: &str) -> Result<Deed, What> {
    match verb {
        "enters" => Ok(Deed::Enters(number(value)?)),
        "steps" => Ok(Deed::Steps(number(value)?)),
        "answers" => Ok(Deed::Answers(signed(value)?)),
        "due" => Ok(Deed::Due(signed(value)?)),
        "deadline" => Ok(Deed::Deadline(number(value)?)),
        "marks" => Ok(Deed::Marks(number(value)?)),
        "tid" => Ok(Deed::Tid(number_32(value)?)),
        "blocks" => Ok(Deed::Blocks(number(value)?)),
        _ => Err(What::NotAStatement),
    }
}

/// A register, and what it has.
fn has(words: &[&str]) -> Result<Deed, What> {
    let (name, value) = two(words)?;
    Ok(Deed::Has(register(name)?, number(value)?))
}

/// What stands behind the slot of a thread.
fn deed(words: &[&str]) -> Result<Deed, What> {
    match words {
        [name] => bare_deed(name),
        [verb, rest @ ..] => match *verb {
            "takes" => Ok(Deed::Takes(step(rest)?)),
            "lacks" => Ok(Deed::Lacks(step(rest)?)),
            "has" => has(rest),
            _ => valued_deed(verb, one(rest)?),
        },
        [] => Err(What::NotAStatement),
    }
}

/// An end in two words: `exit` and a code, or `signal` and a number.
fn numbered_end(kind: &str, value: &str) -> Result<End, What> {
    match kind {
        "exit" => Ok(End::Exit(number_8(value)?)),
        "signal" => Ok(End::Signal(number_8(value)?)),
        _ => Err(What::NotAnEnd),
    }
}

/// An end: `exit` and a code, `signal` and a number, or `standstill`.
fn end(words: &[&str]) -> Result<End, What> {
    match words {
        [kind, value] => numbered_end(kind, value),
        ["standstill"] => Ok(End::Standstill),
        _ => Err(What::NotAnEnd),
    }
}

/// The end to which a run comes, behind `to`.
fn run(words: &[&str]) -> Result<Statement, What> {
    match words {
        ["to", rest @ ..] => Ok(Statement::Run(end(rest)?)),
        _ => Err(What::NotAStatement),
    }
}

/// A time to which the clock can't be set, behind `time`.
fn no_time(words: &[&str]) -> Result<Statement, What> {
    match words {
        ["time", time] => Ok(Statement::NoTime(number(time)?)),
        _ => Err(What::NotAStatement),
    }
}

/// `goes on`.
fn goes(words: &[&str]) -> Result<Statement, What> {
    match words {
        ["on"] => Ok(Statement::GoesOn),
        _ => Err(What::NotAStatement),
    }
}

/// What is drained: a side, and how many bytes.
fn drain(words: &[&str]) -> Result<Statement, What> {
    let (of, count) = two(words)?;
    Ok(Statement::Drain(side(of)?, number(count)?))
}

/// What a console room holds: a side, and bytes, or `holds` and how many.
fn room(alloc: Global, words: &[&str]) -> Result<Statement, What> {
    match words {
        [of, "holds", count] => Ok(Statement::RoomHolds(side(of)?, number(count)?)),
        [of, content] => Ok(Statement::Room(side(of)?, bytes(alloc, content)?)),
        [of] => Ok(Statement::Room(side(of)?, Vec::new(alloc))),
        _ => Err(What::NotAStatement),
    }
}

/// What a guest has written: a side, and bytes, or `bytes` and how many.
fn wrote(alloc: Global, words: &[&str]) -> Result<Statement, What> {
    match words {
        [of, "bytes", count] => Ok(Statement::WroteBytes(side(of)?, number(count)?)),
        [of, content] => Ok(Statement::Wrote(side(of)?, bytes(alloc, content)?)),
        [of] => Ok(Statement::Wrote(side(of)?, Vec::new(alloc))),
        _ => Err(What::NotAStatement),
    }
}

/// What memory holds: an address, and a number or bytes.
fn memory(alloc: Global, kind: &str, words: &[&str]) -> Result<Statement, What> {
    let (at, value) = two(words)?;
    let at = number(at)?;
    match kind {
        "word" => Ok(Statement::Word(at, number_32(value)?)),
        "doubleword" => Ok(Statement::Doubleword(at, number(value)?)),
        _ => Ok(Statement::Bytes(at, bytes(alloc, value)?)),
    }
}

/// A time, an address that can't be read, or how many labels the run has had.
fn numbered(kind: &str, words: &[&str]) -> Result<Statement, What> {
    let number = number(one(words)?)?;
    match kind {
        "time" => Ok(Statement::Time(number)),
        "unreadable" => Ok(Statement::Unreadable(number)),
        _ => Ok(Statement::Labels(number)),
    }
}

/// The end to which the guest has come.
fn ended(words: &[&str]) -> Result<Statement, What> {
    Ok(Statement::Ended(end(words)?))
}

/// A slot, and what its thread does, or what holds of it.
fn of_thread(slot: &str, words: &[&str]) -> Result<Statement, What> {
    Ok(Statement::Thread(number_8(slot)?, deed(words)?))
}

/// A statement: of the machine, or of the thread whose slot stands first.
pub fn statement(alloc: Global, words: &[&str]) -> Result<Statement, What> {
    let Some((first, rest)) = words.split_first() else {
        return Err(What::NotAStatement);
    };
    match *first {
        "time" | "unreadable" | "labels" => numbered(first, rest),
        "no" => no_time(rest),
        "drain" => drain(rest),
        "run" => run(rest),
        "ended" => ended(rest),
        "goes" => goes(rest),
        "word" | "doubleword" | "bytes" => memory(alloc, first, rest),
        "room" => room(alloc, rest),
        "wrote" => wrote(alloc, rest),
        _ => of_thread(first, rest),
    }
}
