//! Scripts on the Linux machine.
ghost use Rattle.std.specs.Prelude.{◌≤◌};

use code_image::image_of;
use elf_image::read_image;
use linux_abi::LinuxSig;
use lx_calls::shape::stage_of;
use lx_machine::calls::{LxCall, Stage};
use lx_machine::label::{Label, LxSide, PendingList};
use lx_machine::threads::{GuestEnd, LxThread};
use lx_memory::Right;
use lx_memory::queries::is_allowed;
use lx_scheduler::machine::Machine;
use lx_scheduler::play::{RunEnd, play};
use lx_scheduler::schedule::{SLOTS, Schedule};
use lx_scheduler::turns::{move_of, step_of};
use outside::MemSink;
use run_scripts::playable::{InCall, NoStart, Playable, ThreadSeen};
use run_scripts::script::{End, Guest, Pending, Register, Rules, Sent, Side, Step, Turns};
use std::alloc::{AllocError, Global};

/// The bytes of a granule, which an exclusive load marks.
const GRANULE: u64 = 16;

/// A guest in the Linux machine.
#[derive(Drop)]
pub struct LinuxGuest {
    machine: Machine,
}

/// The number of rules.
fn rules_number(rules: Rules) -> u8
    ensures { (1 ≤ result) × (result ≤ 2) }
{
    match rules {
        Rules::One => 1,
        Rules::Two => 2,
    }
}

/// How a guest has ended.
fn end_of(end: GuestEnd) -> End {
    match end {
        GuestEnd::Exited(code) => End::Exit(code),
        GuestEnd::Killed(signal) => End::Signal(signal.number()),
    }
}

/// A side of the machine.
fn side_of(side: Side) -> LxSide {
    match side {
        Side::Out => LxSide::Out,
        Side::Err => LxSide::Err,
    }
}

/// A list and a signal of the machine, if there is such a signal.
fn named(sent: Sent) -> Option<(PendingList, LinuxSig)> {
    let list = match sent.list {
        Pending::Own => PendingList::Own,
        Pending::Shared => PendingList::Shared,
    };
    Some((list, LinuxSig::new(u64::from(sent.signal))?))
}

/// The label of a step that takes a signal.
fn taking_label(slot: u8, step: Step) -> Option<Label> {
    match step {
        Step::Interrupt(sent) => {
            let (list, signal) = named(sent)?;
            Some(Label::Interrupt(slot, list, signal))
        }
        Step::Take(sent) => {
            let (list, signal) = named(sent)?;
            Some(Label::Take(slot, list, signal))
        }
        Step::ReturnTaking(sent) => Some(Label::Return(slot, Some(named(sent)?))),
        _ => None,
    }
}

/// The label of any other step but a move.
fn plain_label(slot: u8, step: Step) -> Option<Label> {
    match step {
        Step::Instr => Some(Label::Instr(slot)),
        Step::Fetch => Some(Label::Fetch(slot)),
        Step::Store => Some(Label::Store(slot)),
        Step::Hold => Some(Label::Hold(slot)),
        Step::Drop => Some(Label::Drop(slot)),
        Step::Effect => Some(Label::Effect(slot, false)),
        Step::EffectShort => Some(Label::Effect(slot, true)),
        Step::Clock => Some(Label::Clock(slot)),
        Step::Queue => Some(Label::Queue(slot)),
        Step::Requeue => Some(Label::Requeue(slot)),
        Step::WakeOp => Some(Label::WakeOp(slot)),
        Step::Mark => Some(Label::Mark(slot)),
        Step::Release => Some(Label::Release(slot)),
        Step::PiLock => Some(Label::PiLock(slot)),
        Step::PiUnlock => Some(Label::PiUnlock(slot)),
        Step::Resume => Some(Label::Resume(slot)),
        Step::Expire => Some(Label::Expire(slot)),
        Step::Start => Some(Label::Start(slot)),
        Step::Leave => Some(Label::Leave(slot)),
        Step::Gone => Some(Label::Gone(slot)),
        Step::Return => Some(Label::Return(slot, None)),
        Step::Frame => Some(Label::Frame(slot)),
        Step::Kill => Some(Label::Kill(slot)),
        _ => None,
    }
}

/// What a call returns, where it has only to return.
fn due_in(call: &LxCall) -> Option<u64> {
    match stage_of(call) {
        Stage::Return => call.result,
        _ => None,
    }
}

/// A call, as a script sees it.
fn call_seen(call: &LxCall) -> InCall {
    InCall {
        number: call.number,
        due: due_in(call),
        deadline: call.deadline,
    }
}

/// A thread, as a script sees it.
fn thread_seen(thread: &LxThread) -> ThreadSeen {
    let call = match &thread.call {
        Some(call) => Some(call_seen(call)),
        None => None,
    };
    ThreadSeen {
        tid: thread.tid,
        blocked: thread.mask,
        marked: thread.mark.map(|granule| granule.wrapping_mul(GRANULE)),
        call,
    }
}

impl LinuxGuest {
    /// The thread in this slot.
    fn thread_at(&self, slot: u8) -> Option<&LxThread> {
        if slot < SLOTS {
            self.machine.thread(slot)
        } else {
            None
        }
    }

    /// The step with this label, if there is such a label.
    fn take_if_any(&mut self, alloc: Global, label: Option<Label>) -> Result<bool, AllocError> {
        match label {
            Some(label) => self.machine.take(alloc, &label).map_err(|_| AllocError),
            None => Ok(false),
        }
    }

    /// The move of a thread that the player chooses.
    fn take_move(&mut self, alloc: Global, slot: u8) -> Result<bool, AllocError> {
        if slot >= SLOTS {
            return Ok(false);
        }
        let label = move_of(&self.machine, alloc, slot).map_err(|_| AllocError)?;
        self.take_if_any(alloc, label)
    }
}

impl Playable for LinuxGuest {
    fn start(alloc: Global, guest: &Guest) -> Result<LinuxGuest, NoStart> {
        let Ok(file) = image_of(alloc, &guest.code) else {
            return Err(NoStart::NoMemory);
        };
        match read_image(alloc, &file) {
            Ok(image) => {
                let rules = rules_number(guest.rules);
                match Machine::start(alloc, &image, &guest.words, &guest.input, rules) {
                    Ok(machine) => Ok(LinuxGuest { machine }),
                    Err(_) => Err(NoStart::NoMemory),
                }
            }
            Err(_) => Err(NoStart::Refused),
        }
    }

    fn step(&mut self, alloc: Global, slot: u8) -> Result<bool, AllocError> {
        if slot < SLOTS {
            step_of(&mut self.machine, alloc, &mut Schedule::rounds(), slot).map_err(|_| AllocError)
        } else {
            Ok(false)
        }
    }

    fn take(&mut self, alloc: Global, slot: u8, step: Step) -> Result<bool, AllocError> {
        match step {
            Step::Move => self.take_move(alloc, slot),
            Step::Interrupt(_) | Step::Take(_) | Step::ReturnTaking(_) => {
                self.take_if_any(alloc, taking_label(slot, step))
            }
            _ => self.take_if_any(alloc, plain_label(slot, step)),
        }
    }

    fn set_time(&mut self, alloc: Global, time: u64) -> Result<bool, AllocError> {
        self.take_if_any(alloc, Some(Label::Time(time)))
    }

    fn drain(&mut self, alloc: Global, side: Side, count: u64) -> Result<bool, AllocError> {
        self.take_if_any(alloc, Some(Label::Drain(side_of(side), count)))
    }

    fn run(&mut self, alloc: Global, turns: Turns) -> Result<Option<End>, AllocError> {
        let mut schedule = match turns {
            Turns::Rounds => Schedule::rounds(),
            Turns::Seed(seed) => Schedule::seeded(seed),
        };
        let mut out = MemSink::make(Vec::new(alloc), 100_000, Vec::new(alloc));
        let mut err = MemSink::make(Vec::new(alloc), 100_000, Vec::new(alloc));
        match play(&mut self.machine, alloc, &mut schedule, &mut out, &mut err) {
            RunEnd::Ended(end) => Ok(Some(end_of(end))),
            RunEnd::Standstill => Ok(Some(End::Standstill)),
            RunEnd::NoMemory => Err(AllocError),
            RunEnd::BudgetSpent | RunEnd::WriteFailed => Ok(None),
        }
    }

    fn labels(&self) -> u64 {
        self.machine.taken()
    }

    fn end(&self) -> Option<End> {
        match self.machine.end() {
            Some(end) => Some(end_of(end)),
            None => None,
        }
    }

    fn thread(&self, slot: u8) -> Option<ThreadSeen> {
        match self.thread_at(slot) {
            Some(thread) => Some(thread_seen(thread)),
            None => None,
        }
    }

    fn register(&self, slot: u8, register: Register) -> Option<u64> {
        let thread = self.thread_at(slot)?;
        match register {
            Register::X(number) => thread.regs.x.get(number as usize).copied(),
            Register::Sp => Some(thread.regs.sp),
            Register::Pc => Some(thread.regs.pc),
        }
    }

    fn load(&self, at: u64, bytes: &mut [u8]) -> bool {
        let pages = &self.machine.state().space.pages;
        if !is_allowed(pages, Right::Read, at, bytes.len() as u64) {
            return false;
        }
        pages.load(at, bytes);
        true
    }

    fn room(&self, side: Side) -> &[u8] {
        self.machine.room(side_of(side))
    }

    fn written(&self, side: Side) -> &[u8] {
        let files = &self.machine.state().files;
        match side {
            Side::Out => files.put_out.as_slice(),
            Side::Err => files.put_err.as_slice(),
        }
    }
}
