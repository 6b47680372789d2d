//! Threads with the call that each is in (`bsd_thread`).

use crate::calls::{CallCall, call_call, play_call};
use a64_model::regs::Regs;
use bsd_thread::{Thread, ThreadState};
use case_words::answers::{Answer, Refusal};
use case_words::arguments::Arguments;
use case_words::subject::Subject;
use process_subjects::signals::{signals, signals_found};
use std::alloc::{AllocError, Global};

/// A call on a thread.
#[derive(Drop)]
enum ThreadCall {
    Start {
        tid: u32,
        pc: u64,
        mask: u128,
        clear_at: u64,
    },
    Block(Option<u128>),
    Unblock,
    OwnMask,
    Mask,
    See,
    OnCall(CallCall),
}

/// A mask to block, or `keep` for none.
fn mask_or_none(of: Arguments<'_>) -> Result<Option<u128>, Refusal> {
    match of.word("mask")? {
        "keep" => Ok(None),
        _ => Ok(Some(signals(of, "mask")?)),
    }
}

/// The call of this name: behind `call.` on the call that the thread is in.
fn thread_call(alloc: Global, name: &str, of: Arguments<'_>) -> Result<ThreadCall, Refusal> {
    match name {
        "start" => Ok(ThreadCall::Start {
            tid: of.number_32("tid")?,
            pc: of.number("pc")?,
            mask: signals(of, "mask")?,
            clear_at: of.number("clear-at")?,
        }),
        "block" => Ok(ThreadCall::Block(mask_or_none(of)?)),
        "unblock" => Ok(ThreadCall::Unblock),
        "own-mask" => Ok(ThreadCall::OwnMask),
        "mask" => Ok(ThreadCall::Mask),
        "see" => Ok(ThreadCall::See),
        _ => match name.strip_prefix("call.") {
            Some(call) => Ok(ThreadCall::OnCall(call_call(alloc, call, of)?)),
            None => Err(Refusal::NotACall),
        },
    }
}

/// Registers that are 0 but for pc.
fn registers(pc: u64) -> Regs {
    Regs {
        x: [0; 31],
        sp: 0,
        pc,
        nzcv: 0,
        tpidr: 0,
        v: [0; 32],
    }
}

/// A thread in words.
fn seen(alloc: Global, state: &ThreadState) -> Result<Answer, AllocError> {
    let (tid, pc, clear_at) = (state.tid, state.regs.pc, state.clear_at);
    let sleeps = if state.phase.is_awake() {
        "awake"
    } else {
        "idle"
    };
    let in_call = if state.phase.has_call() {
        "in a call"
    } else {
        "in no call"
    };
    Ok(Answer::Text(format!(in alloc;
        "tid {tid} pc {pc:#x} clear {clear_at:#x} {sleeps} {in_call}"
    )?))
}

fn played(state: &mut ThreadState, alloc: Global, call: ThreadCall) -> Result<Answer, Refusal> {
    match call {
        ThreadCall::Start {
            tid,
            pc,
            mask,
            clear_at,
        } => {
            state.start(tid, registers(pc), mask, clear_at);
            Ok(Answer::Done)
        }
        ThreadCall::Block(mask) => {
            state.block(mask);
            Ok(Answer::Done)
        }
        ThreadCall::Unblock => {
            state.unblock();
            Ok(Answer::Done)
        }
        ThreadCall::OwnMask => Ok(signals_found(alloc, state.own_mask())?),
        ThreadCall::Mask => Ok(signals_found(alloc, state.mask)?),
        ThreadCall::See => Ok(seen(alloc, state)?),
        ThreadCall::OnCall(call) => play_call(&mut state.call, alloc, call),
    }
}

/// A thread, as a script makes and calls it.
#[derive(Drop)]
pub struct ThreadSubject(pub Thread);

impl Subject for ThreadSubject {
    fn make(alloc: Global, _of: Arguments<'_>) -> Result<ThreadSubject, Refusal> {
        match Thread::make(alloc) {
            Ok(thread) => Ok(ThreadSubject(thread)),
            Err(_) => Err(Refusal::NoMemory),
        }
    }

    fn call(&mut self, alloc: Global, name: &str, of: Arguments<'_>) -> Result<Answer, Refusal> {
        let call = thread_call(alloc, name, of)?;
        played(self.0.state(), alloc, call)
    }
}
