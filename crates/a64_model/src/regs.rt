//! The registers of a thread, and how instructions read and write them.
ghost use Rattle.std.specs.Prelude.{◌≡◌};
ghost use Rattle.a64_model.specs.Registers.{x_zr, x_sp, with_x_zr, with_x_sp, advanced};

use crate::operands::Reg;

/// x0 to x30, the stack pointer, the program counter, the flags N, Z, C, V as bits 3 to 0, TPIDR_EL0, and the vector
/// registers v0 to v31.
#[derive(Clone, Copy)]
pub struct Regs {
    pub x: [u64; 31],
    pub sp: u64,
    pub pc: u64,
    pub nzcv: u8,
    pub tpidr: u64,
    pub v: [u128; 32],
}

impl Regs {
    /// What a register reads, where 31 is the zero register.
    pub fn x_zr(&self, r: Reg) -> u64
        ensures { result ≡ x_zr self.now r }
    {
        if r.number == 31 {
            0
        } else {
            self.x[usize::from(r.number)]
        }
    }

    /// What a register reads, where 31 is the stack pointer.
    pub fn x_sp(&self, r: Reg) -> u64
        ensures { result ≡ x_sp self.now r }
    {
        if r.number == 31 {
            self.sp
        } else {
            self.x[usize::from(r.number)]
        }
    }

    /// Writes a register, where 31 is the zero register: a write to it is lost.
    pub fn set_x_zr(&mut self, r: Reg, value: u64)
        ensures { self.new ≡ with_x_zr self.old r value }
    {
        if r.number != 31 {
            self.x[usize::from(r.number)] = value;
        }
    }

    /// Writes a register, where 31 is the stack pointer.
    pub fn set_x_sp(&mut self, r: Reg, value: u64)
        ensures { self.new ≡ with_x_sp self.old r value }
    {
        if r.number == 31 {
            self.sp = value;
        } else {
            self.x[usize::from(r.number)] = value;
        }
    }

    /// Goes to the next instruction, 4 bytes on, modulo 2^64.
    pub fn advance(&mut self)
        ensures { self.new ≡ advanced self.old }
    {
        self.pc = self.pc.wrapping_add(4);
    }
}
