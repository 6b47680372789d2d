//! Data processing with registers.
ghost use Rattle.std.specs.Prelude.{◌≡◌, ◌<◌, ◌≤◌, ◌^◌};
ghost use Rattle.std.specs.Int.{from_bool};
ghost use Rattle.a64_model.specs.Arithmetic.{modulus};
ghost use Rattle.a64_model.specs.Operands.{width_bits};
ghost use Rattle.a64_model.specs.Widths.{HasComparandWidth};
ghost use Rattle.a64_model.specs.ExecRegisters.{operand, logical_shifted, add_shifted, add_extended, carry_flag, add_carry, compared_with, conditional_compare, selected, conditional_select, one_source, reverse_bytes, two_source_result, two_source, multiply_add, multiply_long, multiply_high};

use crate::immediates::set_added;
use a64_alu::arithmetic::{
    Sum, add_with_carry, addend, carry_in, complement, logical, logical_flags, low, sets_flags,
};
use a64_alu::conditions::{condition_holds, flag_c};
use a64_alu::products::{high_product, low_half, multiplied, signed_quotient, unsigned_quotient};
use a64_alu::reversals::reversed;
use a64_alu::shifts::{extend_reg, rotate_right, shift_left, shift_reg, shift_right_signed};
use a64_model::instr::{
    AddCarry, AddExtended, AddShifted, ConditionalCompare, ConditionalSelect, LogicalShifted,
    MultiplyAdd, MultiplyHigh, MultiplyLong, OneSource, ReverseBytes, TwoSource,
};
use a64_model::operands::{Comparand, Reg, SelectOp, TwoSourceOp, Width};
use a64_model::read::operands::width_bits;
use a64_model::regs::Regs;

/// A register's low bits, as many as the width has.
fn operand(regs: &Regs, width: Width, r: Reg) -> u64
    ensures value { result ≡ operand regs.now width r }
    ensures fits { result < modulus width }
{
    low(width, regs.x_zr(r))
}

/// AND, BIC, ORR, ORN, EOR, EON, ANDS and BICS (shifted register).
pub fn logical_shifted(regs: &mut Regs, i: LogicalShifted)
    requires { i.amount < width_bits i.width }
    ensures { regs.new ≡ logical_shifted regs.old i }
{
    let m = operand(regs, i.width, i.rm);
    let shifted = shift_reg(i.width, i.shift, m, u32::from(i.amount));
    let other = if i.invert {
        complement(i.width, shifted)
    } else {
        shifted
    };
    let result = logical(i.width, i.op, operand(regs, i.width, i.rn), other);
    regs.set_x_zr(i.rd, result);
    if sets_flags(i.op) {
        regs.nzcv = logical_flags(i.width, result);
    }
    regs.advance();
}

/// ADD, ADDS, SUB and SUBS (shifted register).
pub fn add_shifted(regs: &mut Regs, i: AddShifted)
    requires { i.amount < width_bits i.width }
    ensures { regs.new ≡ add_shifted regs.old i }
{
    let m = operand(regs, i.width, i.rm);
    let shifted = shift_reg(i.width, i.shift, m, u32::from(i.amount));
    let a = operand(regs, i.width, i.rn);
    let b = addend(i.width, i.op, shifted);
    let sum = add_with_carry(i.width, a, b, carry_in(i.op));
    regs.set_x_zr(i.rd, sum.result);
    if i.set_flags {
        regs.nzcv = sum.nzcv;
    }
    regs.advance();
}

/// ADD, ADDS, SUB and SUBS (extended register).
pub fn add_extended(regs: &mut Regs, i: AddExtended)
    requires { i.amount ≤ 4 }
    ensures { regs.new ≡ add_extended regs.old i }
{
    let m = regs.x_zr(i.rm);
    let extended = extend_reg(i.width, i.extend, m, u32::from(i.amount));
    set_added(regs, i.width, i.op, i.set_flags, i.rd, i.rn, extended);
    regs.advance();
}

/// ADC, ADCS, SBC and SBCS.
pub fn add_carry(regs: &mut Regs, i: AddCarry)
    ensures { regs.new ≡ add_carry regs.old i }
{
    let a = operand(regs, i.width, i.rn);
    let b = addend(i.width, i.op, operand(regs, i.width, i.rm));
    let sum = add_with_carry(i.width, a, b, flag_c(regs.nzcv));
    regs.set_x_zr(i.rd, sum.result);
    if i.set_flags {
        regs.nzcv = sum.nzcv;
    }
    regs.advance();
}

/// What a comparison under a condition compares with.
fn compared_with(regs: &Regs, width: Width, comparand: Comparand) -> u64
    requires { HasComparandWidth comparand }
    ensures value { result ≡ compared_with regs.now width comparand }
    ensures fits { result < modulus width }
{
    match comparand {
        Comparand::Register(r) => operand(regs, width, r),
        Comparand::Immediate(n) => u64::from(n),
    }
}

/// CCMN and CCMP.
pub fn conditional_compare(regs: &mut Regs, i: ConditionalCompare)
    requires { HasComparandWidth i.comparand }
    ensures { regs.new ≡ conditional_compare regs.old i }
{
    let b = addend(i.width, i.op, compared_with(regs, i.width, i.comparand));
    regs.nzcv = if condition_holds(i.condition, regs.nzcv) {
        add_with_carry(i.width, operand(regs, i.width, i.rn), b, carry_in(i.op)).nzcv
    } else {
        i.nzcv
    };
    regs.advance();
}

/// What is selected of a number of the width where the condition fails.
fn selected(width: Width, op: SelectOp, n: u64) -> u64
    requires { n < modulus width }
    ensures { result ≡ selected width op n }
{
    match op {
        SelectOp::Plain => n,
        SelectOp::Increment => low(width, n.wrapping_add(1)),
        SelectOp::Invert => complement(width, n),
        SelectOp::Negate => low(width, complement(width, n).wrapping_add(1)),
    }
}

/// CSEL, CSINC, CSINV and CSNEG.
pub fn conditional_select(regs: &mut Regs, i: ConditionalSelect)
    ensures { regs.new ≡ conditional_select regs.old i }
{
    let result = if condition_holds(i.condition, regs.nzcv) {
        operand(regs, i.width, i.rn)
    } else {
        selected(i.width, i.op, operand(regs, i.width, i.rm))
    };
    regs.set_x_zr(i.rd, result);
    regs.advance();
}

/// RBIT, REV16, REV32 (REV of 32 bits), CLZ and CLS.
pub fn one_source(regs: &mut Regs, i: OneSource)
    ensures { regs.new ≡ one_source regs.old i }
{
    let result = reversed(i.width, i.op, operand(regs, i.width, i.rn));
    regs.set_x_zr(i.rd, result);
    regs.advance();
}

/// REV of 64 bits.
pub fn reverse_bytes(regs: &mut Regs, i: ReverseBytes)
    ensures { regs.new ≡ reverse_bytes regs.old i }
{
    let result = regs.x_zr(i.rn).swap_bytes();
    regs.set_x_zr(i.rd, result);
    regs.advance();
}

/// What UDIV, SDIV and the shifts by a register give.
fn two_source_result(width: Width, op: TwoSourceOp, a: u64, b: u64) -> u64
    requires a_fits { a < modulus width }
    requires b_fits { b < modulus width }
    ensures { result ≡ two_source_result width op a b }
{
    let by = (b % u64::from(width_bits(width))) as u32;
    match op {
        TwoSourceOp::UnsignedDivide => unsigned_quotient(a, b),
        TwoSourceOp::SignedDivide => signed_quotient(width, a, b),
        TwoSourceOp::ShiftLeft => shift_left(width, a, by),
        TwoSourceOp::ShiftRight => a >> by,
        TwoSourceOp::ShiftRightSigned => shift_right_signed(width, a, by),
        TwoSourceOp::RotateRight => rotate_right(width, a, by),
    }
}

/// UDIV, SDIV, LSLV, LSRV, ASRV and RORV.
pub fn two_source(regs: &mut Regs, i: TwoSource)
    ensures { regs.new ≡ two_source regs.old i }
{
    let n = operand(regs, i.width, i.rn);
    let m = operand(regs, i.width, i.rm);
    regs.set_x_zr(i.rd, two_source_result(i.width, i.op, n, m));
    regs.advance();
}

/// MADD and MSUB.
pub fn multiply_add(regs: &mut Regs, i: MultiplyAdd)
    ensures { regs.new ≡ multiply_add regs.old i }
{
    let a = operand(regs, i.width, i.ra);
    let n = operand(regs, i.width, i.rn);
    let m = operand(regs, i.width, i.rm);
    regs.set_x_zr(i.rd, multiplied(i.width, i.op, a, n, m));
    regs.advance();
}

/// SMADDL, SMSUBL, UMADDL and UMSUBL.
pub fn multiply_long(regs: &mut Regs, i: MultiplyLong)
    ensures { regs.new ≡ multiply_long regs.old i }
{
    let a = regs.x_zr(i.ra);
    let n = low_half(i.signed, regs.x_zr(i.rn));
    let m = low_half(i.signed, regs.x_zr(i.rm));
    regs.set_x_zr(i.rd, multiplied(Width::X, i.op, a, n, m));
    regs.advance();
}

/// SMULH and UMULH.
pub fn multiply_high(regs: &mut Regs, i: MultiplyHigh)
    ensures { regs.new ≡ multiply_high regs.old i }
{
    let result = high_product(i.signed, regs.x_zr(i.rn), regs.x_zr(i.rm));
    regs.set_x_zr(i.rd, result);
    regs.advance();
}
