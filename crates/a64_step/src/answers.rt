//! What an instruction does once memory has answered.
ghost use Rattle.std.specs.Prelude.{◌≡◌, ◌<◌, ◌^◌, false};
ghost use Rattle.a64_model.specs.ExecLoadsStores.{with_loaded, load_store_unsigned, load_store_indexed, load_store_register, load_literal, with_pair, load_store_pair, with_number, status, store_exclusive};
ghost use Rattle.a64_model.specs.Exec.{needed, after, next, IsAnswer};
ghost use Rattle.a64_model.specs.Registers.{advanced};
ghost use Rattle.a64_model.specs.VectorRows.{is_vector};
ghost use Rattle.a64_model.specs.Widths.{HasWidths};

use crate::memory::{first_loaded, literal_loaded, loaded, number_of, second_loaded};
use crate::transfers::{moved_base, moved_pair_base, write_back};
use crate::traps::faulted;
use crate::{branches, immediates, registers};
use a64_model::access::{Answer, Next};
use a64_model::instr::{Instr, LoadLiteral, LoadStoreIndexed, LoadStorePair, StoreExclusive};
use a64_model::operands::{Reg, Size, Transfer};
use a64_model::regs::Regs;

/// Puts what a transfer loaded into a register, if it loaded.
fn set_loaded(regs: &mut Regs, size: Size, transfer: Transfer, rt: Reg, answer: Answer)
    ensures { regs.new ≡ with_loaded regs.old size transfer rt answer }
{
    if let Answer::Bytes(bytes) = answer {
        regs.set_x_zr(rt, loaded(size, transfer, &bytes));
    }
}

/// LDR, STR and their kin without writeback.
fn load_store(regs: &mut Regs, size: Size, transfer: Transfer, rt: Reg, answer: Answer)
    ensures { regs.new ≡ advanced (with_loaded regs.old size transfer rt answer) }
{
    set_loaded(regs, size, transfer, rt, answer);
    regs.advance();
}

/// LDUR, STUR and their kin, and LDR, STR and their kin with post-index and pre-index.
fn load_store_indexed(regs: &mut Regs, i: LoadStoreIndexed, answer: Answer)
    requires { i.imm9 < 2 ^ 9 }
    ensures { regs.new ≡ load_store_indexed regs.old i answer }
{
    let moved = moved_base(regs, i);
    set_loaded(regs, i.size, i.transfer, i.rt, answer);
    write_back(regs, i.indexing, i.rn, moved);
    regs.advance();
}

/// LDR, LDRSW and PRFM (literal).
fn load_literal(regs: &mut Regs, i: LoadLiteral, answer: Answer)
    ensures { regs.new ≡ load_literal regs.old i answer }
{
    if let Answer::Bytes(bytes) = answer {
        regs.set_x_zr(i.rt, literal_loaded(i.kind, &bytes));
    }
    regs.advance();
}

/// Puts what a pair loaded into its registers, if it loaded.
fn set_pair(regs: &mut Regs, i: LoadStorePair, answer: Answer)
    ensures { regs.new ≡ with_pair regs.old i answer }
{
    if let Answer::Bytes(bytes) = answer {
        regs.set_x_zr(i.rt, first_loaded(i.kind, &bytes));
        regs.set_x_zr(i.rt2, second_loaded(i.kind, &bytes));
    }
}

/// LDP, LDPSW and STP.
fn load_store_pair(regs: &mut Regs, i: LoadStorePair, answer: Answer)
    requires { i.imm7 < 2 ^ 7 }
    ensures { regs.new ≡ load_store_pair regs.old i answer }
{
    let moved = moved_pair_base(regs, i);
    set_pair(regs, i, answer);
    write_back(regs, i.indexing, i.rn, moved);
    regs.advance();
}

/// STXR and its kin: the status is 1 where the mark didn't stand, and else 0.
fn store_exclusive(regs: &mut Regs, i: StoreExclusive, answer: Answer)
    ensures { regs.new ≡ store_exclusive regs.old i answer }
{
    let status = if let Answer::NoMark = answer { 1 } else { 0 };
    regs.set_x_zr(i.rs, status);
    regs.advance();
}

/// LDXR, LDAR, CAS, the atomic operations and their kin: the number that memory had goes into a register.
fn set_number(regs: &mut Regs, size: Size, r: Reg, answer: Answer)
    ensures { regs.new ≡ advanced (with_number regs.old size r answer) }
{
    if let Answer::Bytes(bytes) = answer {
        regs.set_x_zr(r, number_of(size, &bytes));
    }
    regs.advance();
}

/// Ends an instruction whose access had this answer: writes the registers, and tells what comes next. SVC is a call, at
/// the next instruction; BRK is the trap SIGTRAP with code 1 at pc; a fault is SIGSEGV at its address, and it and BRK
/// change nothing. The crate `vector_moves` has the rows that move vector registers.
pub fn finish(regs: &mut Regs, instr: Instr, answer: Answer) -> Next
    requires widths { HasWidths instr }
    requires general { is_vector instr ≡ false }
    requires answer { IsAnswer (needed regs.old instr) answer }
    ensures regs { regs.new ≡ after regs.old instr answer }
    ensures next { result ≡ next regs.old instr answer }
{
    if let Answer::Fault(fault) = answer {
        return faulted(fault);
    }
    match instr {
        Instr::PcRelative(i) => immediates::pc_relative(regs, i),
        Instr::AddImmediate(i) => immediates::add_immediate(regs, i),
        Instr::LogicalImmediate(i) => immediates::logical_immediate(regs, i),
        Instr::MoveWide(i) => immediates::move_wide(regs, i),
        Instr::Bitfield(i) => immediates::bitfield(regs, i),
        Instr::Extract(i) => immediates::extract(regs, i),
        Instr::Branch(i) => branches::branch(regs, i),
        Instr::BranchConditional(i) => branches::branch_conditional(regs, i),
        Instr::CompareBranch(i) => branches::compare_branch(regs, i),
        Instr::TestBranch(i) => branches::test_branch(regs, i),
        Instr::BranchRegister(i) => branches::branch_register(regs, i),
        Instr::SupervisorCall => {
            regs.advance();
            return Next::Call;
        }
        Instr::Breakpoint => {
            return Next::Trap {
                signal: 5,
                code: 1,
                address: regs.pc,
            };
        }
        Instr::ReadThreadPointer(i) => branches::read_thread_pointer(regs, i),
        Instr::WriteThreadPointer(i) => branches::write_thread_pointer(regs, i),
        Instr::LogicalShifted(i) => registers::logical_shifted(regs, i),
        Instr::AddShifted(i) => registers::add_shifted(regs, i),
        Instr::AddExtended(i) => registers::add_extended(regs, i),
        Instr::AddCarry(i) => registers::add_carry(regs, i),
        Instr::ConditionalCompare(i) => registers::conditional_compare(regs, i),
        Instr::ConditionalSelect(i) => registers::conditional_select(regs, i),
        Instr::OneSource(i) => registers::one_source(regs, i),
        Instr::ReverseBytes(i) => registers::reverse_bytes(regs, i),
        Instr::TwoSource(i) => registers::two_source(regs, i),
        Instr::MultiplyAdd(i) => registers::multiply_add(regs, i),
        Instr::MultiplyLong(i) => registers::multiply_long(regs, i),
        Instr::MultiplyHigh(i) => registers::multiply_high(regs, i),
        Instr::LoadStoreUnsigned(i) => load_store(regs, i.size, i.transfer, i.rt, answer),
        Instr::LoadStoreIndexed(i) => load_store_indexed(regs, i, answer),
        Instr::LoadStoreRegister(i) => load_store(regs, i.size, i.transfer, i.rt, answer),
        Instr::LoadLiteral(i) => load_literal(regs, i, answer),
        Instr::LoadStorePair(i) => load_store_pair(regs, i, answer),
        Instr::StoreExclusive(i) => store_exclusive(regs, i, answer),
        Instr::LoadExclusive(i) => set_number(regs, i.size, i.rt, answer),
        Instr::LoadOrdered(i) => set_number(regs, i.size, i.rt, answer),
        Instr::CompareSwap(i) => set_number(regs, i.size, i.rs, answer),
        Instr::Atomic(i) => set_number(regs, i.size, i.rt, answer),
        Instr::Hint | Instr::ClearExclusive | Instr::Barrier | Instr::StoreOrdered(_) => {
            regs.advance()
        }
        Instr::LoadStoreVector(_) | Instr::LoadStoreVectorPair(_) | Instr::Duplicate(_) => {
            unreachable!()
        }
    }
    Next::Go
}
