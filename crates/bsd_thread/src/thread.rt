//! Threads.
ghost use Rattle.std.specs.Prelude.{◌≡◌, IfOk};
ghost use Rattle.std.specs.Borrow.{sem};
ghost use Rattle.bsd_thread.specs.Lending.{LendsState};
ghost use Rattle.bsd_thread.specs.Threads as spec;

use crate::bounded::NoMemory;
use crate::call::Call;
use crate::phase::Phase;
use a64_model::regs::Regs;
use lx_machine::threads::AltStack;
use std::alloc::{AllocError, Global};
use std::marker::Model;

/// What is a thread's own. Its life, its robust list and its pending signals are the process's, which also keeps its deadline.
#[derive(Drop)]
pub struct ThreadState {
    /// Its slot, which is always the same.
    pub slot: u8,
    /// The rules of the process, which it notes as it dies.
    pub rules: u8,
    pub tid: u32,
    pub regs: Regs,
    /// The blocked signals, signal n as bit n - 1.
    pub mask: u128,
    /// The mask that a call gives back when it returns.
    pub saved_mask: Option<u128>,
    pub alt_stack: AltStack,
    /// The address where 0 is stored as it dies, or 0 (set_tid_address(2)).
    pub clear_at: u64,
    /// The granule of its last exclusive load.
    pub granule: Option<u64>,
    pub phase: Phase,
    /// The call that it is in, where its phase is one of a call.
    pub call: Call,
}

/// A thread, which contracts see as its `ThreadState`. It is as small as an address, so that it is cheap to move.
#[derive(Drop)]
pub struct Thread {
    state: Box<ThreadState>,
}

impl Model for Thread {
    ghost use Rattle.bsd_thread.specs.declared.thread.ThreadState.{ThreadState};

    ghost Value = { ThreadState };

    ghost view = { λ t. t.state.value };
}

impl Thread {
    /// An idle thread in no call, with all room that it can need. `NoMemory` where there is no memory for it.
    pub fn make(alloc: Global) -> Result<Thread, NoMemory>
        ensures { IfOk result (λ thread. thread ≡ spec.idle) }
    {
        let call = Call::make(alloc)?;
        let state = ThreadState {
            slot: 0,
            rules: 0,
            tid: 0,
            regs: Regs {
                x: [0; 31],
                sp: 0,
                pc: 0,
                nzcv: 0,
                tpidr: 0,
                v: [0; 32],
            },
            mask: 0,
            saved_mask: None,
            alt_stack: AltStack {
                at: 0,
                size: 0,
                enabled: false,
            },
            clear_at: 0,
            granule: None,
            phase: Phase::Idle,
            call,
        };
        let state = Box::new(alloc, state).map_err(AllocError::from)?;
        Ok(Thread { state })
    }

    /// What it is.
    pub fn see(&self) -> &ThreadState
        ensures { result.now ≡ self.now }
    {
        &self.state
    }

    /// Lends what it is: it ends as what is written there.
    pub fn state(&mut self) -> &mut ThreadState
        ensures* writes_back { sem 𝓛 (LendsState self.entry result) }
        ensures value { result.now ≡ self.old }
    {
        &mut self.state
    }
}

impl ThreadState {
    /// Starts the thread with these registers, this mask and this clear address: it takes instructions, in no call, without an
    /// alternative stack and without a granule.
    pub fn start(&mut self, tid: u32, regs: Regs, mask: u128, clear_at: u64)
        ensures { self.new ≡ spec.started self.old tid regs mask clear_at }
    {
        self.tid = tid;
        self.regs = regs;
        self.mask = mask;
        self.saved_mask = None;
        self.alt_stack = AltStack {
            at: 0,
            size: 0,
            enabled: false,
        };
        self.clear_at = clear_at;
        self.granule = None;
        self.phase = Phase::User;
        self.call.enter(0, [0; 6]);
    }

    /// Blocks the signals of this mask, if there is one, until the call returns.
    pub fn block(&mut self, mask: Option<u128>)
        ensures { self.new ≡ spec.masked mask self.old }
    {
        if let Some(mask) = mask {
            self.saved_mask = Some(self.mask);
            self.mask = mask;
        }
    }

    /// The mask that the thread has outside its call.
    pub fn own_mask(&self) -> u128
        ensures { result ≡ spec.own_mask self.now.mask self.now.saved_mask }
    {
        match self.saved_mask {
            Some(saved) => saved,
            None => self.mask,
        }
    }

    /// Gives the thread the mask back that it has outside its call.
    pub fn unblock(&mut self)
        ensures { self.new ≡ spec.unmasked self.old }
    {
        self.mask = self.own_mask();
        self.saved_mask = None;
    }
}
