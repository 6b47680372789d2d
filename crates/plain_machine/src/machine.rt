// The machine's state and one entry of it.
ghost use Rattle.std.specs.Prelude.{◌≡◌, IfOk};
ghost use Rattle.a64_model.specs.Exec.{needed};
ghost use Rattle.a64_model.specs.Widths.{HasWidths};
ghost use Rattle.plain_machine.specs.Plain.{start, asks_nothing, executed, user, held, fetched, looked, returned, left, Steps, TriesTo};

use crate::program::Program;
use a64_model::access::{Access, Answer};
use a64_model::instr::Instr;
use a64_model::regs::Regs;
use std::alloc::{AllocError, Global};
use std::marker::Model;
use vector_moves::every_row::{finish, need};

/// The most bytes that a guest puts out, in all.
pub const ROOM: usize = 65_536;

const CALL_WRITE: u64 = 64;

const CALL_EXIT: u64 = 93;

// The answer EFAULT, -14.
const EFAULT_ANSWER: u64 = 0xFFFF_FFFF_FFFF_FFF2;

/// Want of memory.
#[derive(Clone, Copy)]
pub struct NoMemory;

/// Where a thread stands: at an instruction, or within a call.
#[derive(Clone, Copy)]
pub enum Phase {
    /// At the instruction at pc.
    User,
    /// A write is to find its open file.
    Hold,
    /// A write is to copy its piece in.
    Fetch,
    /// A write is to put its piece out.
    Look,
    /// A write that failed is to give its open file back.
    Drop,
    /// A call is to put its answer into x0.
    Return,
    /// The thread is to leave.
    Leave,
}

/// A range of guest memory that a call copies: its address and its length in bytes.
#[derive(Clone, Copy)]
pub struct Piece {
    pub at: u64,
    pub len: u64,
}

const NO_PIECE: Piece = Piece { at: 0, len: 0 };

/// The parts of the machine that change.
#[derive(Drop)]
pub struct Machine {
    registers: Regs,
    phase: Phase,
    piece: Piece,
    answer: u64,
    out: Vec<u8>,
    code: Option<u8>,
}

impl Model for Machine {
    ghost use Rattle.std.specs.Prelude.{◌≤◌, ◌+◌, length};
    ghost use Rattle.std.specs.Vec.{vec_capacity};
    ghost use Rattle.plain_machine.specs.Plain.{State};

    ghost Value = { State };

    ghost view = { λ m. record { registers = m.registers; phase = m.phase; piece = m.piece; answer = m.answer; out = m.out.items; code = m.code } };

    ghost invariant = { λ m. (length m.out.items + m.piece.len ≤ 65536) × (65536 ≤ vec_capacity m.out) };
}

impl Machine {
    /// The machine at its start, with room for all that it may put out.
    pub fn start(alloc: Global, program: &Program) -> Result<Machine, NoMemory>
        ensures { IfOk result (λ machine. machine ≡ start program.now) }
    {
        let Ok(out) = Vec::with_capacity(alloc, ROOM) else {
            return Err(NoMemory);
        };
        Ok(Machine {
            registers: Regs {
                x: [0; 31],
                sp: 0,
                pc: program.entry(),
                nzcv: 0,
                tpidr: 0,
                v: [0; 32],
            },
            phase: Phase::User,
            piece: NO_PIECE,
            answer: 0,
            out,
            code: None,
        })
    }

    /// All bytes that were put out so far.
    pub fn out(&self) -> &[u8]
        ensures { result.now ≡ self.now.out }
    {
        &self.out
    }

    /// The code with which the guest ended, where it has.
    pub fn code(&self) -> Option<u8>
        ensures { result ≡ self.now.code }
    {
        self.code
    }

    /// The address of the instruction at which the thread is.
    pub fn pc(&self) -> u64
        ensures { result ≡ self.now.registers.pc }
    {
        self.registers.pc
    }

    // SVC: enters the call that x8 names, where it is built.
    fn enter(&mut self) -> bool
        ensures { TriesTo (executed self.old Instr.SupervisorCall) self.old result self.new }
    {
        let (console, at, count) = (
            self.registers.x[0],
            self.registers.x[1],
            self.registers.x[2],
        );
        let room = (ROOM - self.out.len()) as u64;
        let (phase, piece) = match self.registers.x[8] {
            CALL_EXIT => (Phase::Leave, self.piece),
            CALL_WRITE if console & 0xFFFF_FFFF == 1 && count <= room => {
                (Phase::Hold, Piece { at, len: count })
            }
            _ => return false,
        };
        finish(&mut self.registers, Instr::SupervisorCall, Answer::Done);
        self.phase = phase;
        self.piece = piece;
        true
    }

    // Whether an instruction asks nothing of memory.
    fn asks_nothing(&self, instruction: Instr) -> bool
        requires { HasWidths instruction }
        ensures { result ≡ asks_nothing (needed self.now.registers instruction) }
    {
        matches!(
            need(&self.registers, instruction),
            Ok(Access::None | Access::ClearMark)
        )
    }

    // User: what an instruction does, where that is built.
    fn execute(&mut self, instruction: Instr) -> bool
        requires { HasWidths instruction }
        ensures { TriesTo (executed self.old instruction) self.old result self.new }
    {
        if !self.asks_nothing(instruction) {
            return false;
        }
        match instruction {
            Instr::SupervisorCall => self.enter(),
            Instr::Breakpoint => false,
            _ => {
                finish(&mut self.registers, instruction, Answer::Done);
                true
            }
        }
    }

    // User: the instruction at pc, where it is built.
    fn run_user(&mut self, program: &Program) -> bool
        ensures { TriesTo (user program.now self.old) self.old result self.new }
    {
        let Some(instruction) = program.instruction_at(self.registers.pc) else {
            return false;
        };
        self.execute(instruction)
    }

    // Hold: finds the console.
    fn hold(&mut self)
        ensures { self.new ≡ held self.old }
    {
        self.phase = if self.piece.len == 0 {
            Phase::Look
        } else {
            Phase::Fetch
        };
    }

    // Fetch: copies the piece in, or refuses it.
    fn fetch(&mut self, program: &Program)
        ensures { self.new ≡ fetched program.now self.old }
    {
        if program.is_inside(self.piece.at, self.piece.len) {
            self.phase = Phase::Look;
        } else {
            self.phase = Phase::Drop;
            self.answer = EFAULT_ANSWER;
            self.piece = NO_PIECE;
        }
    }

    // Look: puts the piece out.
    fn look(&mut self, program: &Program)
        ensures { self.new ≡ looked program.now self.old }
    {
        let Piece { at, len } = self.piece;
        program.append_to(&mut self.out, at, len as usize);
        self.piece = NO_PIECE;
        self.answer = len;
        self.phase = Phase::Return;
    }

    // Return: puts the answer into x0.
    fn put_answer(&mut self)
        ensures { self.new ≡ returned self.old }
    {
        self.registers.x[0] = self.answer;
        self.phase = Phase::User;
    }

    // Leave: ends the guest.
    fn leave(&mut self)
        ensures { self.new ≡ left self.old }
    {
        self.code = Some((self.registers.x[0] % 256) as u8);
    }

    /// One entry, or false where the guest has ended or what stands at pc isn't built.
    pub fn step(&mut self, program: &Program) -> bool
        ensures { Steps program.now self.old result self.new }
    {
        if self.code.is_some() {
            return false;
        }
        match self.phase {
            Phase::User => return self.run_user(program),
            Phase::Hold => self.hold(),
            Phase::Fetch => self.fetch(program),
            Phase::Look => self.look(program),
            Phase::Drop => self.phase = Phase::Return,
            Phase::Return => self.put_answer(),
            Phase::Leave => self.leave(),
        }
        true
    }
}
