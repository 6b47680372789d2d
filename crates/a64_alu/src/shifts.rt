//! Shifts, rotations and extensions: ShiftReg and ExtendReg.
ghost use Rattle.std.specs.Prelude.{◌≡◌, ◌<◌, ◌≤◌};
ghost use Rattle.a64_model.specs.Arithmetic.{modulus};
ghost use Rattle.a64_model.specs.Shifts.{sign_extended, widened, shift_left, shift_right, shift_right_signed, extracted, rotate_right, shift_reg, extended, extend_reg};

use crate::arithmetic::{is_negative, low};
use a64_model::operands::{Extend, ShiftKind, Width};

/// SignExtend of the low `bits` bits of a number to 64 bits.
pub fn sign_extended(bits: u32, n: u64) -> u64
    requires some { 0 < bits }
    requires in_word { bits ≤ 64 }
    ensures { result ≡ sign_extended bits n }
{
    if bits == 64 {
        return n;
    }
    let size = 1u64 << bits;
    let field = n % size;
    if field < size / 2 {
        field
    } else {
        field + (u64::MAX - size + 1)
    }
}

/// SignExtend of a number of the width to twice as many bits.
pub fn widened(width: Width, n: u64) -> u128
    ensures { result ≡ widened width n }
{
    if is_negative(width, n) {
        match width {
            Width::W => u128::from(n) + 0xFFFF_FFFF_0000_0000,
            Width::X => u128::from(n) + (u128::MAX - u128::from(u64::MAX)),
        }
    } else {
        u128::from(n)
    }
}

/// LSL by less than 64.
pub fn shift_left(width: Width, n: u64, by: u32) -> u64
    requires below { by < 64 }
    ensures value { result ≡ shift_left width n by }
    ensures fits { result < modulus width }
{
    low(width, n << by)
}

/// ASR by less than 64.
#[tactic(auto, using(crate::proofs::Widths::low_mod))]
pub fn shift_right_signed(width: Width, n: u64, by: u32) -> u64
    requires below { by < 64 }
    ensures value { result ≡ shift_right_signed width n by }
    ensures fits { result < modulus width }
{
    low(width, ((widened(width, n) >> by) % (1 << 64)) as u64)
}

/// The number of the width that stands `by` bits up in `high` followed by `n`: EXTR, and ROR where both are one.
pub fn extracted(width: Width, high: u64, n: u64, by: u32) -> u64
    requires high { high < modulus width }
    requires low { n < modulus width }
    requires below { by < 64 }
    ensures value { result ≡ extracted width high n by }
    ensures fits { result < modulus width }
{
    match width {
        Width::W => (((high << 32) | n) >> by) & 0xFFFF_FFFF,
        Width::X => ((((u128::from(high) << 64) | u128::from(n)) >> by) % (1 << 64)) as u64,
    }
}

/// ROR by less than 64.
pub fn rotate_right(width: Width, n: u64, by: u32) -> u64
    requires fits { n < modulus width }
    requires below { by < 64 }
    ensures value { result ≡ rotate_right width n by }
    ensures fits { result < modulus width }
{
    extracted(width, n, n, by)
}

/// ShiftReg, of what the register reads, by less than 64.
pub fn shift_reg(width: Width, shift: ShiftKind, n: u64, by: u32) -> u64
    requires fits { n < modulus width }
    requires below { by < 64 }
    ensures value { result ≡ shift_reg width shift n by }
    ensures fits { result < modulus width }
{
    match shift {
        ShiftKind::Left => shift_left(width, n, by),
        ShiftKind::LogicalRight => n >> by,
        ShiftKind::ArithmeticRight => shift_right_signed(width, n, by),
        ShiftKind::RotateRight => rotate_right(width, n, by),
    }
}

/// Extend, of what the register reads, to 64 bits.
pub fn extended(extend: Extend, n: u64) -> u64
    ensures { result ≡ extended extend n }
{
    match extend {
        Extend::UnsignedByte => n & 0xFF,
        Extend::UnsignedHalf => n & 0xFFFF,
        Extend::UnsignedWord => n & 0xFFFF_FFFF,
        Extend::UnsignedDouble | Extend::SignedDouble => n,
        Extend::SignedByte => sign_extended(8, n),
        Extend::SignedHalf => sign_extended(16, n),
        Extend::SignedWord => sign_extended(32, n),
    }
}

/// ExtendReg, of what the register reads: extended, then moved left by less than 64.
#[tactic(auto, using(crate::proofs::Widths::low_mod))]
pub fn extend_reg(width: Width, extend: Extend, n: u64, by: u32) -> u64
    requires below { by < 64 }
    ensures value { result ≡ extend_reg width extend n by }
    ensures fits { result < modulus width }
{
    low(width, extended(extend, n) << by)
}
