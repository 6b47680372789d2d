//! Data processing with immediates.
ghost use Rattle.std.specs.Prelude.{◌≡◌, ◌<◌, ◌≤◌, ◌*◌, ◌^◌, IsTrue};
ghost use Rattle.std.specs.Int.{from_bool};
ghost use Rattle.a64_model.specs.Arithmetic.{modulus};
ghost use Rattle.a64_model.specs.BitMasks.{is_pattern};
ghost use Rattle.a64_model.specs.Operands.{width_bits};
ghost use Rattle.a64_model.specs.ExecImmediates.{relative_address, pc_relative, with_sum, with_added, add_immediate, logical_immediate, placed_16, moved_wide, move_wide, bitfield, extract};

use a64_alu::arithmetic::{
    Sum, add_with_carry, addend, carry_in, complement, logical, logical_flags, low, sets_flags,
};
use a64_alu::bitfields::moved_field;
use a64_alu::patterns::decode_bit_masks;
use a64_alu::shifts::{extracted, sign_extended};
use a64_model::instr::{AddImmediate, Bitfield, Extract, LogicalImmediate, MoveWide, PcRelative};
use a64_model::operands::{AddOp, MoveWideOp, Reg, Width};
use a64_model::regs::Regs;

/// What ADR and ADRP give at an address.
fn relative_address(pc: u64, page: bool, imm21: u32) -> u64
    requires { imm21 < 2 ^ 21 }
    ensures { result ≡ relative_address pc page imm21 }
{
    let imm = u64::from(imm21);
    if page {
        (pc - pc % 4096).wrapping_add(sign_extended(33, imm * 4096))
    } else {
        pc.wrapping_add(sign_extended(21, imm))
    }
}

/// ADR and ADRP.
pub fn pc_relative(regs: &mut Regs, i: PcRelative)
    requires { i.imm21 < 2 ^ 21 }
    ensures { regs.new ≡ pc_relative regs.old i }
{
    let address = relative_address(regs.pc, i.page, i.imm21);
    regs.set_x_zr(i.rd, address);
    regs.advance();
}

/// Puts a sum into a register. Where the flags are set 31 is the zero register, and else the stack pointer.
fn set_sum(regs: &mut Regs, width: Width, set_flags: bool, rd: Reg, a: u64, b: u64, carry: bool)
    requires a_fits { a < modulus width }
    requires b_fits { b < modulus width }
    ensures { regs.new ≡ with_sum regs.old width set_flags rd a b (from_bool carry) }
{
    let Sum { result, nzcv } = add_with_carry(width, a, b, carry);
    if set_flags {
        regs.set_x_zr(rd, result);
        regs.nzcv = nzcv;
    } else {
        regs.set_x_sp(rd, result);
    }
}

/// Adds an operand to, or subtracts it from, a register or the stack pointer.
pub fn set_added(
    regs: &mut Regs,
    width: Width,
    op: AddOp,
    set_flags: bool,
    rd: Reg,
    rn: Reg,
    operand: u64,
)
    requires { operand < modulus width }
    ensures { regs.new ≡ with_added regs.old width op set_flags rd rn operand }
{
    let a = low(width, regs.x_sp(rn));
    set_sum(
        regs,
        width,
        set_flags,
        rd,
        a,
        addend(width, op, operand),
        carry_in(op),
    );
}

/// ADD, ADDS, SUB and SUBS (immediate).
pub fn add_immediate(regs: &mut Regs, i: AddImmediate)
    requires { i.imm12 < 2 ^ 12 }
    ensures { regs.new ≡ add_immediate regs.old i }
{
    let imm = u64::from(i.imm12);
    let operand = if i.shifted { imm * 4096 } else { imm };
    set_added(regs, i.width, i.op, i.set_flags, i.rd, i.rn, operand);
    regs.advance();
}

/// AND, ORR, EOR and ANDS (immediate).
pub fn logical_immediate(regs: &mut Regs, i: LogicalImmediate)
    requires bit { i.n < 2 }
    requires six_bits { i.imms < 2 ^ 6 }
    requires valid { IsTrue (is_pattern i.width i.n i.imms) }
    ensures { regs.new ≡ logical_immediate regs.old i }
{
    let pattern = decode_bit_masks(i.width, i.n, i.immr, i.imms);
    let n = low(i.width, regs.x_zr(i.rn));
    let result = logical(i.width, i.op, n, low(i.width, pattern));
    if sets_flags(i.op) {
        regs.set_x_zr(i.rd, result);
        regs.nzcv = logical_flags(i.width, result);
    } else {
        regs.set_x_sp(i.rd, result);
    }
    regs.advance();
}

/// 16 bits at bit 16 times `hw`.
#[tactic(auto, using(crate::proofs::PlacedLemmas::placed_16_whole, crate::proofs::PlacedLemmas::placed_16_below))]
fn placed_16(width: Width, hw: u8, imm16: u16) -> u64
    requires { hw * 16 < width_bits width }
    ensures value { result ≡ placed_16 hw imm16 }
    ensures fits { result < modulus width }
{
    u64::from(imm16) << (u32::from(hw) * 16)
}

/// What MOVN, MOVZ and MOVK leave in a register that had `d`.
fn moved_wide(width: Width, op: MoveWideOp, d: u64, hw: u8, imm16: u16) -> u64
    requires place { hw * 16 < width_bits width }
    requires d { d < modulus width }
    ensures { result ≡ moved_wide width op d hw imm16 }
{
    let placed = placed_16(width, hw, imm16);
    match op {
        MoveWideOp::Not => complement(width, placed),
        MoveWideOp::Zero => placed,
        MoveWideOp::Keep => (d & complement(width, placed_16(width, hw, 0xFFFF))) | placed,
    }
}

/// MOVN, MOVZ and MOVK.
pub fn move_wide(regs: &mut Regs, i: MoveWide)
    requires { i.hw * 16 < width_bits i.width }
    ensures { regs.new ≡ move_wide regs.old i }
{
    let d = low(i.width, regs.x_zr(i.rd));
    let result = moved_wide(i.width, i.op, d, i.hw, i.imm16);
    regs.set_x_zr(i.rd, result);
    regs.advance();
}

/// SBFM, BFM and UBFM.
pub fn bitfield(regs: &mut Regs, i: Bitfield)
    requires immr { i.immr < width_bits i.width }
    requires imms { i.imms < width_bits i.width }
    ensures { regs.new ≡ bitfield regs.old i }
{
    let d = low(i.width, regs.x_zr(i.rd));
    let n = low(i.width, regs.x_zr(i.rn));
    let result = moved_field(i.width, i.op, d, n, u32::from(i.immr), u32::from(i.imms));
    regs.set_x_zr(i.rd, result);
    regs.advance();
}

/// EXTR.
pub fn extract(regs: &mut Regs, i: Extract)
    requires { i.imms < width_bits i.width }
    ensures { regs.new ≡ extract regs.old i }
{
    let n = low(i.width, regs.x_zr(i.rn));
    let m = low(i.width, regs.x_zr(i.rm));
    regs.set_x_zr(i.rd, extracted(i.width, n, m, u32::from(i.imms)));
    regs.advance();
}
