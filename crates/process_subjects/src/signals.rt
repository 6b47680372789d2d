//! Signals of a process (`bsd_proc`). Signals have their FreeBSD numbers, and a set is their numbers with commas between them.
ghost use Rattle.std.specs.Prelude.{◌≡◌, ◌<◌, IsTrue};
ghost use Rattle.bsd_proc.specs.Sending.{IsTarget};

use bsd_abi::{BsdErrno, BsdSig};
use bsd_proc::{Action, Origin, Process, SigInfo, Taken, Target};
use case_words::answers::{Answer, Refusal};
use case_words::arguments::Arguments;
use case_words::words::number;
use std::alloc::{AllocError, Global};

/// A call on the signals of a process.
#[derive(Clone, Copy)]
pub enum SignalCall {
    Send(Target, BsdSig, SigInfo),
    Pending(u8),
    NextTaken(u8, u128),
    Take(u8, u128),
    SeeAction(BsdSig),
    Act(BsdSig, Option<Action>),
}

/// The signal of a number.
fn signal_of(number: u64) -> Result<BsdSig, Refusal> {
    BsdSig::new(number).ok_or(Refusal::NotACall)
}

/// The signal that an argument tells.
pub fn signal(of: Arguments<'_>, name: &str) -> Result<BsdSig, Refusal> {
    signal_of(of.number(name)?)
}

/// The set of signals that an argument tells, signal n as bit n - 1.
pub fn signals(of: Arguments<'_>, name: &str) -> Result<u128, Refusal> {
    let mut set = 0;
    for word in of.word(name)?.split(",") {
        if word != "none" {
            set |= signal_of(number(word)?)?.bit();
        }
    }
    Ok(set)
}

/// The numbers of a set of signals.
pub fn signals_found(alloc: Global, set: u128) -> Result<Answer, AllocError> {
    let mut text = String::new(alloc);
    for signal in BsdSig::ALL {
        if set & signal.bit() != 0 {
            let number = signal.number();
            write!(text, "{number} ")?;
        }
    }
    if text.is_empty() {
        return Ok(Answer::Nothing);
    }
    Ok(Answer::Text(String::from_str(alloc, text.trim())?))
}

/// Whom a signal is for: `all`, or a slot.
fn target(of: Arguments<'_>) -> Result<Target, Refusal> {
    match of.word("to")? {
        "all" => Ok(Target::All),
        _ => Ok(Target::One(of.number_8("to")?)),
    }
}

/// The information of a signal that a process sent.
fn sender(of: Arguments<'_>) -> Result<SigInfo, Refusal> {
    Ok(SigInfo {
        code: 0,
        origin: Origin::Sender {
            pid: of.number_32("pid")?,
            uid: of.number_32("uid")?,
        },
    })
}

/// The information of a fault.
fn fault(of: Arguments<'_>) -> Result<SigInfo, Refusal> {
    Ok(SigInfo {
        code: 1,
        origin: Origin::Address(of.number("address")?),
    })
}

fn action(of: Arguments<'_>) -> Result<Action, Refusal> {
    Ok(Action {
        handler: of.number("handler")?,
        flags: of.number("flags")?,
        restorer: of.number("restorer")?,
        mask: signals(of, "mask")?,
    })
}

/// The call of this name.
pub fn signal_call(name: &str, of: Arguments<'_>) -> Result<SignalCall, Refusal> {
    match name {
        "send" => Ok(SignalCall::Send(target(of)?, signal(of, "sig")?, sender(of)?)),
        "fault" => Ok(SignalCall::Send(target(of)?, signal(of, "sig")?, fault(of)?)),
        "pending" => Ok(SignalCall::Pending(of.number_8("slot")?)),
        "next-taken" => Ok(SignalCall::NextTaken(of.number_8("slot")?, signals(of, "mask")?)),
        "take" => Ok(SignalCall::Take(of.number_8("slot")?, signals(of, "mask")?)),
        "see-action" => Ok(SignalCall::SeeAction(signal(of, "sig")?)),
        "ask-action" => Ok(SignalCall::Act(signal(of, "sig")?, None)),
        "act" => Ok(SignalCall::Act(signal(of, "sig")?, Some(action(of)?))),
        _ => Err(Refusal::NotACall),
    }
}

/// Whether a signal may be for it.
fn is_target(target: Target) -> bool
    ensures { IsTrue result → IsTarget target }
{
    match target {
        Target::All => true,
        Target::One(slot) => slot < 128,
    }
}

/// What a call answers that may be refused.
fn done_or_error(sent: Result<(), BsdErrno>) -> Answer {
    match sent {
        Ok(()) => Answer::Done,
        Err(error) => Answer::Error(error),
    }
}

fn send(process: &mut Process, to: Target, sig: BsdSig, info: SigInfo) -> Result<Answer, Refusal> {
    if !is_target(to) {
        return Err(Refusal::NotMet);
    }
    Ok(done_or_error(process.send(to, sig, info)))
}

fn pending(process: &Process, alloc: Global, slot: u8) -> Result<Answer, Refusal> {
    if slot >= 128 {
        return Err(Refusal::NotMet);
    }
    Ok(signals_found(alloc, process.pending(slot))?)
}

/// A signal that is to be taken, and for whom it is.
fn choice(alloc: Global, chosen: Option<(Target, BsdSig)>) -> Result<Answer, AllocError> {
    match chosen {
        None => Ok(Answer::Nothing),
        Some((to, sig)) => {
            let number = sig.number();
            Ok(Answer::Text(match to {
                Target::All => format!(in alloc; "{number} for all")?,
                Target::One(slot) => format!(in alloc; "{number} for {slot}")?,
            }))
        }
    }
}

fn next_taken(process: &Process, alloc: Global, slot: u8, mask: u128) -> Result<Answer, Refusal> {
    if slot >= 128 {
        return Err(Refusal::NotMet);
    }
    Ok(choice(alloc, process.next_taken(slot, mask))?)
}

/// A signal that was taken, with its information.
fn taken(alloc: Global, taken: Option<Taken>) -> Result<Answer, AllocError> {
    match taken {
        None => Ok(Answer::Nothing),
        Some(signal) => {
            let (number, code) = (signal.sig.number(), signal.info.code);
            Ok(Answer::Text(match signal.info.origin {
                Origin::Sender { pid, uid } => {
                    format!(in alloc; "{number} code {code} of process {pid} user {uid}")?
                }
                Origin::Address(at) => format!(in alloc; "{number} code {code} at {at:#x}")?,
            }))
        }
    }
}

fn take(process: &mut Process, alloc: Global, slot: u8, mask: u128) -> Result<Answer, Refusal> {
    if slot >= 128 {
        return Err(Refusal::NotMet);
    }
    Ok(taken(alloc, process.take(slot, mask))?)
}

/// An action in words.
fn action_found(alloc: Global, action: Action) -> Result<Answer, AllocError> {
    let (handler, flags, restorer) = (action.handler, action.flags, action.restorer);
    let mask = signals_found(alloc, action.mask)?;
    Ok(Answer::Text(format!(in alloc;
        "handler {handler:#x} flags {flags:#x} restorer {restorer:#x} mask {mask}"
    )?))
}

/// Makes a call on the signals of a process.
pub fn play_signals(
    process: &mut Process,
    alloc: Global,
    call: SignalCall,
) -> Result<Answer, Refusal> {
    match call {
        SignalCall::Send(to, sig, info) => send(process, to, sig, info),
        SignalCall::Pending(slot) => pending(process, alloc, slot),
        SignalCall::NextTaken(slot, mask) => next_taken(process, alloc, slot, mask),
        SignalCall::Take(slot, mask) => take(process, alloc, slot, mask),
        SignalCall::SeeAction(sig) => Ok(action_found(alloc, process.see_action(sig))?),
        SignalCall::Act(sig, new) => Ok(action_found(alloc, process.act(sig, new))?),
    }
}
