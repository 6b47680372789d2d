//! Branches, and moves of the thread pointer.
ghost use Rattle.std.specs.Prelude.{◌≡◌, ◌<◌, ◌≤◌, ◌^◌};
ghost use Rattle.a64_model.specs.ExecBranches.{target, branch_where, linked, linked_by, branch, branch_conditional, compare_branch, test_branch, branch_register, read_thread_pointer, write_thread_pointer};

use a64_alu::arithmetic::low;
use a64_alu::conditions::condition_holds;
use a64_alu::shifts::sign_extended;
use a64_model::instr::{
    Branch, BranchConditional, BranchRegister, CompareBranch, ReadThreadPointer, TestBranch,
    WriteThreadPointer,
};
use a64_model::operands::BranchKind;
use a64_model::regs::Regs;

/// Where a branch goes by a signed immediate of `bits` bits that counts instructions.
fn target(regs: &Regs, bits: u32, imm: u32) -> u64
    requires bits { bits ≤ 26 }
    requires fits { imm < 2 ^ bits }
    ensures { result ≡ target regs.now bits imm }
{
    regs.pc
        .wrapping_add(sign_extended(bits + 2, u64::from(imm) * 4))
}

/// Goes to the target where the test holds, and else to the next instruction.
fn branch_where(regs: &mut Regs, holds: bool, bits: u32, imm: u32)
    requires bits { bits ≤ 26 }
    requires fits { imm < 2 ^ bits }
    ensures { regs.new ≡ branch_where holds regs.old bits imm }
{
    if holds {
        regs.pc = target(regs, bits, imm);
    } else {
        regs.advance();
    }
}

/// Puts the address of the next instruction into x30.
fn link(regs: &mut Regs)
    ensures { regs.new ≡ linked regs.old }
{
    regs.x[30] = regs.pc.wrapping_add(4);
}

/// B and BL.
pub fn branch(regs: &mut Regs, i: Branch)
    requires { i.imm26 < 2 ^ 26 }
    ensures { regs.new ≡ branch regs.old i }
{
    let to = target(regs, 26, i.imm26);
    if i.link {
        link(regs);
    }
    regs.pc = to;
}

/// B.cond.
pub fn branch_conditional(regs: &mut Regs, i: BranchConditional)
    requires { i.imm19 < 2 ^ 19 }
    ensures { regs.new ≡ branch_conditional regs.old i }
{
    let holds = condition_holds(i.condition, regs.nzcv);
    branch_where(regs, holds, 19, i.imm19);
}

/// CBZ and CBNZ.
pub fn compare_branch(regs: &mut Regs, i: CompareBranch)
    requires { i.imm19 < 2 ^ 19 }
    ensures { regs.new ≡ compare_branch regs.old i }
{
    let is_nonzero = low(i.width, regs.x_zr(i.rt)) != 0;
    branch_where(regs, is_nonzero == i.nonzero, 19, i.imm19);
}

/// TBZ and TBNZ.
pub fn test_branch(regs: &mut Regs, i: TestBranch)
    requires bit { i.bit_number < 64 }
    requires offset { i.imm14 < 2 ^ 14 }
    ensures { regs.new ≡ test_branch regs.old i }
{
    let is_set = (regs.x_zr(i.rt) >> i.bit_number) & 1 == 1;
    branch_where(regs, is_set == i.set, 14, u32::from(i.imm14));
}

/// BR, BLR and RET. The target is read before x30 is written.
pub fn branch_register(regs: &mut Regs, i: BranchRegister)
    ensures { regs.new ≡ branch_register regs.old i }
{
    let to = regs.x_zr(i.rn);
    link_by(regs, i.kind);
    regs.pc = to;
}

/// Links where the branch is a call.
fn link_by(regs: &mut Regs, kind: BranchKind)
    ensures { regs.new ≡ linked_by kind regs.old }
{
    if let BranchKind::Call = kind {
        link(regs);
    }
}

/// MRS of TPIDR_EL0.
pub fn read_thread_pointer(regs: &mut Regs, i: ReadThreadPointer)
    ensures { regs.new ≡ read_thread_pointer regs.old i }
{
    regs.set_x_zr(i.rt, regs.tpidr);
    regs.advance();
}

/// MSR of TPIDR_EL0.
pub fn write_thread_pointer(regs: &mut Regs, i: WriteThreadPointer)
    ensures { regs.new ≡ write_thread_pointer regs.old i }
{
    regs.tpidr = regs.x_zr(i.rt);
    regs.advance();
}
