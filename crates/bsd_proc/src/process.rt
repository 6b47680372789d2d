// The process.

ghost use Rattle.std.specs.Prelude.{◌≡◌, ◌+◌, ◌<◌, ◌≤◌, ◌⊎◌, ◌||◌, true, false, None, Some, Ok, Err, IfOk, IfSome, IsSome, MatchOption, OnErr, OnOk, is_some, is_none, length, take, position, count_by, sum_by, map, replicate, option_map, if◌then◌else◌};
ghost use Rattle.std.specs.List.{list_any};
ghost use Rattle.std.specs.Borrow.{sem};
ghost use Rattle.bsd_proc.specs.Actions.{action_of, acted, forgotten, without_sig};
ghost use Rattle.bsd_proc.specs.Births.{slot_for, reserved};
ghost use Rattle.bsd_proc.specs.Clock.{asking, asks_in, deadline_in, passes_in, waiting};
ghost use Rattle.bsd_proc.specs.Clock as clock;
ghost use Rattle.bsd_proc.specs.Ends as ends;
ghost use Rattle.bsd_proc.specs.Lending.{LendsAreas, LendsBreak, LendsRobust};
ghost use Rattle.bsd_proc.specs.Sending.{IsTarget, added_for, is_over_limit, queued_at, refusal, refused_by, sent};
ghost use Rattle.bsd_proc.specs.Sending as sending;
ghost use Rattle.bsd_proc.specs.Signals.{first_of, has_unblocked};
ghost use Rattle.bsd_proc.specs.Slots.{own_pending, slot_at, slot_limit, started, thread_of, with_asks};
ghost use Rattle.bsd_proc.specs.Taking.{choice, first_ready, left_by, may_take, pending_for, pending_set, without_for};
ghost use Rattle.bsd_proc.specs.Taking as taking;

use crate::lives::{GuestEnd, Life};
use crate::pending::Pending;
use crate::place::Place;
use crate::signals::{Action, SigInfo, Signal, Taken, Target};
use bsd_abi::{BsdErrno, BsdSig};
use std::alloc::{AllocError, Global};
use std::marker::Model;
use vm_areas::Areas;

// How many slots there are.
const SLOTS: usize = 128;

// How many of them rules 1 have.
const FIRST_SLOTS: usize = 32;

// How many signals, each with its action.
const ACTIONS: usize = 64;

// The tid of the first thread.
const FIRST_TID: u32 = 1000;

// The greatest tid.
const LAST_TID: u32 = (1 << 30) - 1;

// The most queued real-time signals.
const MOST_QUEUED: usize = 64;

/// There is no memory for a process.
#[derive(Clone, Copy, Debug)]
pub struct NoMemory;

impl From<AllocError> for NoMemory {
    fn from(_: AllocError) -> Self {
        NoMemory
    }
}

// What a process keeps beside its slots and its pending signals.
#[derive(Drop)]
struct Rest {
    areas: Areas,
    break_at: u64,
    break_start: u64,
    actions: Vec<Action>,
    clock: u64,
    end: Option<GuestEnd>,
}

/// The process, which contracts see as a `ProcessState`. Slots are numbered from 0 to 127. Only `make` takes memory. What no thread
/// has of its own lies behind a pointer, so that a process, which has 72 bytes, is cheap to move.
#[derive(Drop)]
pub struct Process {
    rules: u8,
    next_tid: u32,
    slots: Vec<Place>,
    pending: Pending,
    // How many real-time signals are pending for the process and all slots.
    queued: usize,
    rest: Box<Rest>,
}

impl Model for Process {
    ghost use Rattle.bsd_proc.specs.Slots.{ProcessState};

    ghost Value = { ProcessState };

    ghost use Rattle.bsd_proc.specs.ProcessFields.{state_in, IsKept};

    ghost view = { state_in };

    ghost invariant = { IsKept };
}

// Free slots, with room for what can be pending for each.
fn free_slots(alloc: Global) -> Result<Vec<Place>, AllocError>
    ensures { IfOk result (λ slots. slots.items ≡ replicate 128 None) }
{
    let mut slots = Vec::with_capacity(alloc, SLOTS)?;
    for _ in 0..SLOTS {
        slots.push(Place::make(alloc)?)?;
    }
    Ok(slots)
}

// The lowest free slot.
fn first_free(slots: &[Place]) -> Option<usize>
    ensures lowest { result ≡ position is_none slots.now }
    ensures below { IfSome result (λ at. at < length slots.now) }
{
    slots.iter().position(|place| place.is_free())
}

// How many slots are in use.
fn count_used(slots: &[Place]) -> usize
    ensures count { result ≡ count_by is_some slots.now }
    ensures most { result ≤ length slots.now }
{
    slots.iter().filter(|place| !place.is_free()).count()
}

// How many real-time signals are pending for slots alone.
fn count_queued(slots: &[Place]) -> usize
    requires { sum_by queued_at slots.now ≤ 64 }
    ensures { result ≡ sum_by queued_at slots.now }
{
    slots.iter().map(|place| place.queued()).sum()
}

// Whether some slot asks for the time.
fn any_asks(slots: &[Place]) -> bool
    ensures { result ≡ list_any asks_in slots.now }
{
    slots.iter().any(|place| place.asks())
}

// Whether some slot has a deadline that is passed as the clock rises to `now`.
fn any_passed(slots: &[Place], clock: u64, now: u64) -> bool
    ensures { result ≡ list_any (passes_in clock now) slots.now }
{
    slots.iter().any(|place| place.is_passed_by(clock, now))
}

// Ends all asks.
fn end_asks(slots: &mut [Place])
    ensures { slots.new ≡ map (option_map (with_asks false)) slots.old }
{
    for place in slots.iter_mut() {
        place.set_asks(false);
    }
}

// The signal is pending no more for any slot.
fn forget_each(slots: &mut [Place], sig: BsdSig)
    ensures { slots.new ≡ map (option_map (without_sig sig)) slots.old }
{
    for place in slots.iter_mut() {
        place.forget(sig);
    }
}

impl Process {
    /// The process at boot, with these areas, this break and these rules, 1 or 2: its first thread lives in slot 0 with the tid
    /// 1000, and all actions are the default ones. No other call takes memory. `NoMemory` where there is none for it.
    #[tactic(auto, using(crate::proofs::Queues::queued_started))]
    pub fn make(alloc: Global, areas: Areas, break_at: u64, rules: u8) -> Result<Process, NoMemory>
        requires { (rules ≡ 1) ⊎ (rules ≡ 2) }
        ensures { IfOk result (λ process. process ≡ started areas break_at rules) }
    {
        let mut slots = free_slots(alloc)?;
        slots[0].occupy(FIRST_TID, Life::Live);
        let actions = vec![in alloc; Action::by_default(); ACTIONS]?;
        let pending = Pending::make(alloc)?;
        let rest = Rest {
            areas,
            break_at,
            break_start: break_at,
            actions,
            clock: 0,
            end: None,
        };
        let Ok(rest) = Box::new(alloc, rest) else {
            return Err(NoMemory);
        };
        Ok(Process {
            rules,
            next_tid: FIRST_TID + 1,
            slots,
            pending,
            queued: 0,
            rest,
        })
    }

    /// The rules that `make` was given.
    pub fn rules(&self) -> u8
        ensures { result ≡ self.now.rules }
    {
        self.rules
    }

    // How many slots the rules have.
    fn limit(&self) -> usize
        ensures limit { result ≡ slot_limit self.now.rules }
        ensures most { result ≤ 128 }
    {
        if self.rules == 1 { FIRST_SLOTS } else { SLOTS }
    }

    /// Reserves the lowest free slot for a thread with the next tid, and answers both. EAGAIN exactly where no slot below 32
    /// (rules 1) or 128 (rules 2) is free or the next tid would be above 2^30 - 1; then nothing changes.
    pub fn reserve(&mut self) -> Result<(u8, u32), BsdErrno>
        ensures { MatchOption (slot_for self.old)
            ((result ≡ Err BsdErrno.EAGAIN) × (self.new ≡ self.old))
            (λ slot. (result ≡ Ok (slot, self.old.next_tid)) × (self.new ≡ reserved self.old slot)) }
    {
        let tid = self.next_tid;
        if tid > LAST_TID {
            return Err(BsdErrno::EAGAIN);
        }
        let limit = self.limit();
        let Some(at) = first_free(&self.slots[..limit]) else {
            return Err(BsdErrno::EAGAIN);
        };
        self.slots[at].occupy(tid, Life::Reserved);
        self.next_tid = tid + 1;
        Ok((at as u8, tid))
    }

    /// Frees the slot, and answers how many are still in use.
    pub fn leave(&mut self, slot: u8) -> u32
        requires { slot < 128 }
        ensures state { self.new ≡ ends.left self.old slot }
        ensures count { result ≡ ends.in_use self.new }
    {
        let queued = self.slots[slot as usize].queued();
        self.slots[slot as usize].free();
        self.queued -= queued;
        self.in_use()
    }

    /// The tid and the life of the slot's thread; `None` exactly where the slot is free.
    pub fn life(&self, slot: u8) -> Option<(u32, Life)>
        requires { slot < 128 }
        ensures { result ≡ option_map thread_of (slot_at self.now slot) }
    {
        self.slots[slot as usize].thread()
    }

    /// The thread of the slot, which is in use, is in this life.
    pub fn set_life(&mut self, slot: u8, life: Life)
        requires slot { slot < 128 }
        requires in_use { IsSome (slot_at self.old slot) }
        ensures { self.new ≡ ends.living self.old slot life }
    {
        self.slots[slot as usize].set_life(life);
    }

    /// How many slots are in use.
    pub fn in_use(&self) -> u32
        ensures { result ≡ ends.in_use self.now }
    {
        count_used(&self.slots) as u32
    }

    /// Whether the slot asks for the time. A free slot doesn't.
    pub fn asked(&self, slot: u8) -> bool
        requires { slot < 128 }
        ensures { result ≡ asks_in (slot_at self.now slot) }
    {
        self.slots[slot as usize].asks()
    }

    /// Lends the areas.
    pub fn areas(&mut self) -> &mut Areas
        ensures* writes_back { sem 𝓛 (LendsAreas self.entry result) }
        ensures value { result.now ≡ self.old.areas }
    {
        &mut self.rest.areas
    }

    /// The areas.
    pub fn see_areas(&self) -> &Areas
        ensures { result.now ≡ self.now.areas }
    {
        &self.rest.areas
    }

    /// Lends the break, an address.
    pub fn break_at(&mut self) -> &mut u64
        ensures* writes_back { sem 𝓛 (LendsBreak self.entry result) }
        ensures value { result.now ≡ self.old.break_at }
    {
        &mut self.rest.break_at
    }

    /// The break.
    pub fn see_break(&self) -> u64
        ensures { result ≡ self.now.break_at }
    {
        self.rest.break_at
    }

    /// The break that `make` was given.
    pub fn break_start(&self) -> u64
        ensures { result ≡ self.now.break_start }
    {
        self.rest.break_start
    }

    /// Lends the robust list of the slot, which is in use: an address, or 0 for none.
    pub fn robust(&mut self, slot: u8) -> &mut u64
        requires slot { slot < 128 }
        requires in_use { IsSome (slot_at self.old slot) }
        ensures* writes_back { sem 𝓛 (LendsRobust self.entry slot result) }
        ensures value { IfSome (slot_at self.old slot) (λ s. s.robust_head ≡ result.now) }
    {
        let place = &mut self.slots[slot as usize];
        place.robust_head_mut()
    }

    /// The robust list of the slot, which is in use.
    pub fn see_robust(&self, slot: u8) -> u64
        requires slot { slot < 128 }
        requires in_use { IsSome (slot_at self.now slot) }
        ensures { IfSome (slot_at self.now slot) (λ s. result ≡ s.robust_head) }
    {
        self.slots[slot as usize].robust_head()
    }

    /// The guest has ended so.
    pub fn finish(&mut self, end: GuestEnd)
        ensures { self.new ≡ ends.ended self.old end }
    {
        self.rest.end = Some(end);
    }

    /// How the guest ended; `None` exactly where it hasn't.
    pub fn end(&self) -> Option<GuestEnd>
        ensures { result ≡ self.now.end }
    {
        self.rest.end
    }

    /// Until when the slot waits, in microseconds of the clock; `None` exactly where it has no deadline. A free slot has none.
    pub fn deadline_of(&self, slot: u8) -> Option<u64>
        requires { slot < 128 }
        ensures { result ≡ deadline_in (slot_at self.now slot) }
    {
        self.slots[slot as usize].deadline()
    }

    /// The set of the signals that are pending for the slot or for the process, signal n as bit n - 1.
    pub fn pending(&self, slot: u8) -> u128
        requires { slot < 128 }
        ensures { result ≡ pending_set self.now slot }
    {
        self.slots[slot as usize].bits() | self.pending.bits()
    }

    // Whether the target can be sent a signal.
    fn is_alive(&self, target: Target) -> bool
        requires { IsTarget target }
        ensures { result ≡ sending.is_alive self.now target }
    {
        match target {
            Target::All => true,
            Target::One(slot) => self.slots[slot as usize].is_live(),
        }
    }

    // Adds a signal to the target's list, which has room for it.
    fn add(&mut self, target: Target, signal: Signal)
        requires target { IsTarget target }
        requires alive { sending.is_alive self.old target ≡ true }
        requires room { is_over_limit self.old signal.sig ≡ false }
        ensures { self.new ≡ added_for self.old target signal }
    {
        match target {
            Target::All => self.pending.add(signal),
            Target::One(slot) => self.slots[slot as usize].add(signal),
        }
        if signal.sig.is_real_time() {
            self.queued += 1;
        }
    }

    /// Sends a signal with its information: it is kept in the target's list, unless its action ignores or drops it, or it is a
    /// standard one that is there already. ESRCH exactly where the target is a slot whose thread isn't live, and else EAGAIN
    /// exactly where a real-time signal meets 64 queued ones, of the process and of all threads together; then nothing changes.
    pub fn send(&mut self, target: Target, sig: BsdSig, info: SigInfo) -> Result<(), BsdErrno>
        requires { IsTarget target }
        ensures answer { result ≡ refused_by (refusal self.old target sig) }
        ensures ok { OnOk result (self.new ≡ sent self.old target (record { sig = sig; info = info })) }
        ensures err { OnErr result (self.new ≡ self.old) }
    {
        if !self.is_alive(target) {
            return Err(BsdErrno::ESRCH);
        }
        if sig.is_real_time() && self.queued >= MOST_QUEUED {
            return Err(BsdErrno::EAGAIN);
        }
        if !self.see_action(sig).ignores(sig) {
            self.add(target, Signal { sig, info });
        }
        Ok(())
    }

    // The lowest signal that is pending for the slot alone and not blocked.
    fn lowest_own(&self, slot: u8, mask: u128) -> Option<BsdSig>
        requires { slot < 128 }
        ensures lowest { result ≡ first_ready mask (own_pending self.now slot) }
        ensures may { IfSome result (λ sig. may_take mask (own_pending self.now slot) sig ≡ true) }
        ensures some { is_some result ≡ has_unblocked mask (own_pending self.now slot) }
    {
        self.slots[slot as usize].lowest_unblocked(mask)
    }

    /// The signal that `take` would take, with the list in which it stands: the lowest that is pending for the slot alone and
    /// isn't in `mask`, else the lowest that is pending for the process and isn't. `None` exactly where there is none.
    pub fn next_taken(&self, slot: u8, mask: u128) -> Option<(Target, BsdSig)>
        requires { slot < 128 }
        ensures choice { result ≡ choice self.now slot mask }
        ensures may { IfSome result (λ c. may_take mask (pending_for self.now c.0) c.1 ≡ true) }
        ensures some { is_some result ≡ (has_unblocked mask (own_pending self.now slot) || has_unblocked mask self.now.pending) }
    {
        match self.lowest_own(slot, mask) {
            Some(sig) => Some((Target::One(slot), sig)),
            None => match self.pending.lowest_unblocked(mask) {
                Some(sig) => Some((Target::All, sig)),
                None => None,
            },
        }
    }

    // Takes the first signal of this kind out of the target's list, where one is.
    fn take_from(&mut self, target: Target, sig: BsdSig) -> Option<Signal>
        requires target { IsTarget target }
        requires there { is_some (first_of sig (pending_for self.old target)) ≡ true }
        ensures taken { result ≡ first_of sig (pending_for self.old target) }
        ensures left { self.new ≡ without_for self.old target sig }
    {
        self.queued -= usize::from(sig.is_real_time());
        match target {
            Target::All => self.pending.take(sig),
            Target::One(slot) => self.slots[slot as usize].take(sig),
        }
    }

    /// Takes the signal that `next_taken` answers out of its list, the first of its kind that was sent. `None` exactly where nothing
    /// is pending, for the slot or for the process, that isn't in `mask`; then nothing changes.
    pub fn take(&mut self, slot: u8, mask: u128) -> Option<Taken>
        requires { slot < 128 }
        ensures taken { result ≡ taking.taken self.old (choice self.old slot mask) }
        ensures left { self.new ≡ left_by self.old (choice self.old slot mask) }
        ensures some { is_some result ≡ (has_unblocked mask (own_pending self.old slot) || has_unblocked mask self.old.pending) }
    {
        match self.next_taken(slot, mask) {
            Some((target, sig)) => self.take_from(target, sig),
            None => None,
        }
    }

    /// The action of the signal.
    pub fn see_action(&self, sig: BsdSig) -> Action
        ensures { result ≡ action_of self.now.actions sig }
    {
        self.rest.actions[sig.place() as usize]
    }

    // The signal is pending nowhere any more.
    fn forget(&mut self, sig: BsdSig)
        ensures { self.new ≡ forgotten sig self.old }
    {
        forget_each(&mut self.slots, sig);
        self.pending.forget(sig);
        self.queued = count_queued(&self.slots) + self.pending.real_time_count();
    }

    /// Answers the action of the signal, and sets the new one, if there is one. A signal that is ignored or dropped from now on is
    /// pending nowhere any more.
    pub fn act(&mut self, sig: BsdSig, new: Option<Action>) -> Action
        ensures before { result ≡ action_of self.old.actions sig }
        ensures state { self.new ≡ acted self.old sig new }
    {
        let before = self.see_action(sig);
        if let Some(action) = new {
            self.rest.actions[sig.place() as usize] = action;
            if action.ignores(sig) {
                self.forget(sig);
            }
        }
        before
    }

    /// The slot asks for the time, unless the clock is at its end, 2^64 - 1. On a free slot nothing is noted.
    pub fn ask(&mut self, slot: u8)
        requires { slot < 128 }
        ensures { self.new ≡ asking self.old slot }
    {
        let asks = self.rest.clock != u64::MAX;
        self.slots[slot as usize].set_asks(asks);
    }

    /// The slot waits until `at`, in microseconds of the clock, or has no deadline. On a free slot nothing is noted.
    pub fn deadline(&mut self, slot: u8, at: Option<u64>)
        requires { slot < 128 }
        ensures { self.new ≡ waiting self.old slot at }
    {
        self.slots[slot as usize].set_deadline(at);
    }

    // Whether the clock may rise to `now`.
    fn may_pass(&self, now: u64) -> bool
        ensures { result ≡ clock.may_pass self.now now }
    {
        self.rest.end.is_none()
            && self.rest.clock < now
            && (any_asks(&self.slots) || any_passed(&self.slots, self.rest.clock, now))
    }

    /// The clock rises to `now`, and all asks end. False exactly where it may not: the guest has ended, the clock isn't below `now`,
    /// or no slot asks and no deadline above the clock is at `now` or below. Then nothing changes.
    #[tactic(auto, using(crate::proofs::Queues::queued_unasked))]
    pub fn pass(&mut self, now: u64) -> bool
        ensures answer { result ≡ clock.may_pass self.old now }
        ensures state { self.new ≡ (if result then clock.passed self.old now else self.old) }
    {
        if !self.may_pass(now) {
            return false;
        }
        end_asks(&mut self.slots);
        self.rest.clock = now;
        true
    }

    /// The clock, in microseconds.
    pub fn clock(&self) -> u64
        ensures { result ≡ self.now.clock }
    {
        self.rest.clock
    }
}
