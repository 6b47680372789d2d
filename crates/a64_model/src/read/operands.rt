//! The operands that many rows have.
ghost use Rattle.std.specs.Prelude.{◌≡◌, ◌<◌, ◌↔◌, IsTrue};
ghost use Rattle.a64_model.specs.Operands.{reg, is_same, is_31, width, width_bits, size, condition, shift, extend, add_op, logical_op};

use crate::bits::{bit, bits};
use crate::operands::{AddOp, Condition, Extend, LogicalOp, Reg, ShiftKind, Size, Width};

/// The register whose number stands in the five bits from `low` upwards.
pub fn reg(word: u32, low: u32) -> Reg
    requires { low < 28 }
    ensures { result ≡ reg word low }
{
    Reg {
        number: bits(word, low + 4, low) as u8,
    }
}

/// Whether two fields name one register.
pub fn is_same(r: Reg, s: Reg) -> bool
    ensures { result ≡ is_same r s }
{
    r.number == s.number
}

/// Whether a field names the zero register or the stack pointer.
pub fn is_31(r: Reg) -> bool
    ensures { result ≡ is_31 r }
{
    r.number == 31
}

/// The width that bit 31 says.
pub fn width(word: u32) -> Width
    ensures { result ≡ width word }
{
    if bit(word, 31) { Width::X } else { Width::W }
}

/// The number of bits of a width.
pub fn width_bits(width: Width) -> u32
    ensures { result ≡ width_bits width }
{
    match width {
        Width::W => 32,
        Width::X => 64,
    }
}

/// The size whose number of bytes is 2 to this number.
pub fn size(n: u32) -> Size
    ensures { result ≡ size n }
{
    match n {
        0 => Size::Byte,
        1 => Size::Half,
        2 => Size::Word,
        _ => Size::Double,
    }
}

/// The condition of a number of four bits.
pub fn condition(n: u32) -> Condition
    ensures { result ≡ condition n }
{
    match n {
        0 => Condition::Equal,
        1 => Condition::NotEqual,
        2 => Condition::CarrySet,
        3 => Condition::CarryClear,
        4 => Condition::Minus,
        5 => Condition::Plus,
        6 => Condition::OverflowSet,
        7 => Condition::OverflowClear,
        8 => Condition::Higher,
        9 => Condition::LowerOrSame,
        10 => Condition::GreaterOrEqual,
        11 => Condition::Less,
        12 => Condition::Greater,
        13 => Condition::LessOrEqual,
        14 => Condition::Always,
        _ => Condition::AlwaysToo,
    }
}

/// The shift of a number of two bits.
pub fn shift(n: u32) -> ShiftKind
    ensures { result ≡ shift n }
{
    match n {
        0 => ShiftKind::Left,
        1 => ShiftKind::LogicalRight,
        2 => ShiftKind::ArithmeticRight,
        _ => ShiftKind::RotateRight,
    }
}

/// The extension of a number of three bits.
pub fn extend(n: u32) -> Extend
    ensures { result ≡ extend n }
{
    match n {
        0 => Extend::UnsignedByte,
        1 => Extend::UnsignedHalf,
        2 => Extend::UnsignedWord,
        3 => Extend::UnsignedDouble,
        4 => Extend::SignedByte,
        5 => Extend::SignedHalf,
        6 => Extend::SignedWord,
        _ => Extend::SignedDouble,
    }
}

/// Bit 30: a subtraction where it is set.
pub fn add_op(word: u32) -> AddOp
    ensures { result ≡ add_op word }
{
    if bit(word, 30) {
        AddOp::Subtract
    } else {
        AddOp::Add
    }
}

/// The logical operation of a number of two bits.
pub fn logical_op(opc: u32) -> LogicalOp
    ensures { result ≡ logical_op opc }
{
    match opc {
        0 => LogicalOp::And,
        1 => LogicalOp::Or,
        2 => LogicalOp::ExclusiveOr,
        _ => LogicalOp::AndSetFlags,
    }
}
