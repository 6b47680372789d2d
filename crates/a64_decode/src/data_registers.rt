//! Data processing with registers (DDI 0487, C4.1).
ghost use Rattle.std.specs.Prelude.{◌≡◌, ◌≢◌, bit_and, if◌then◌else◌, IfSome};
ghost use Rattle.std.specs.Option.{option_map};
ghost use Rattle.a64_model.specs.Bits.{bit};
ghost use Rattle.a64_model.specs.Rows.{form_of, row};
ghost use Rattle.a64_model.specs.Widths.{HasWidths};
ghost use Rattle.a64_model.specs.declared.rows.Form.TheVariants.{OneSource, TwoSource};
ghost use Rattle.a64_model.specs.declared.operands.AddOp.TheVariants.{Add, Subtract};

use a64_model::bits::bit;
use a64_model::instr::Instr;
use a64_model::operands::{AddOp, OneSourceOp, TwoSourceOp};
use a64_model::read::data_registers as read;

/// Additions of a shifted or an extended register.
pub fn add_register(word: u32) -> Option<Instr>
    requires { bit_and word 0x1F00_0000 ≡ 0x0B00_0000 }
    ensures row { result ≡ row word }
    ensures widths { IfSome result HasWidths }
{
    match word & 0x1F20_0000 {
        0x0B00_0000 => read::add_shifted(word),
        0x0B20_0000 => add_extended(word),
        _ => None,
    }
}

/// Additions of an extended register.
fn add_extended(word: u32) -> Option<Instr>
    requires { bit_and word 0x1F20_0000 ≡ 0x0B20_0000 }
    ensures row { result ≡ row word }
    ensures widths { IfSome result HasWidths }
{
    match word & 0x1FE0_0000 {
        0x0B20_0000 => read::add_extended(word),
        _ => None,
    }
}

/// ADC, CSEL and CSINC, and operations with two sources.
pub fn select_or_two_source(word: u32) -> Option<Instr>
    requires { bit_and word 0x7F00_0000 ≡ 0x1A00_0000 }
    ensures row { result ≡ row word }
    ensures widths { IfSome result HasWidths }
{
    match word & 0x1FE0_0000 {
        0x1A00_0000 => add_carry(word),
        0x1A80_0000 => conditional_select(word),
        0x1AC0_0000 => two_source(word),
        _ => None,
    }
}

/// SBC, CSINV and CSNEG, and operations with one source.
pub fn select_or_one_source(word: u32) -> Option<Instr>
    requires { bit_and word 0x7F00_0000 ≡ 0x5A00_0000 }
    ensures row { result ≡ row word }
    ensures widths { IfSome result HasWidths }
{
    match word & 0x1FE0_0000 {
        0x1A00_0000 => add_carry(word),
        0x1A80_0000 => conditional_select(word),
        0x1AC0_0000 => one_source(word),
        _ => None,
    }
}

/// ADCS and SBCS, CCMN and CCMP.
pub fn carry_or_compare(word: u32) -> Option<Instr>
    requires { bit_and word 0x3F00_0000 ≡ 0x3A00_0000 }
    ensures row { result ≡ row word }
    ensures widths { IfSome result HasWidths }
{
    match word & 0x1FE0_0000 {
        0x1A00_0000 => add_carry(word),
        0x1A40_0000 => conditional_compare(word),
        _ => None,
    }
}

/// ADC and SBC.
fn add_carry(word: u32) -> Option<Instr>
    requires { bit_and word 0x1FE0_0000 ≡ 0x1A00_0000 }
    ensures row { result ≡ row word }
    ensures widths { IfSome result HasWidths }
{
    match word & 0x1FE0_FC00 {
        0x1A00_0000 => read::add_carry(word),
        _ => None,
    }
}

/// CCMN and CCMP.
fn conditional_compare(word: u32) -> Option<Instr>
    requires { bit_and word 0x3FE0_0000 ≡ 0x3A40_0000 }
    ensures row { result ≡ row word }
    ensures widths { IfSome result HasWidths }
{
    match word & 0x3FE0_0C10 {
        0x3A40_0000 => read::conditional_compare_register(word),
        0x3A40_0800 => read::conditional_compare_immediate(word),
        _ => None,
    }
}

/// CSEL, CSINC, CSINV and CSNEG.
fn conditional_select(word: u32) -> Option<Instr>
    requires { bit_and word 0x3FE0_0000 ≡ 0x1A80_0000 }
    ensures row { result ≡ row word }
    ensures widths { IfSome result HasWidths }
{
    match word & 0x3FE0_0800 {
        0x1A80_0000 => read::conditional_select(word),
        _ => None,
    }
}

/// Which operation with two sources it is: divisions, and shifts by a register.
fn two_source_op(word: u32) -> Option<TwoSourceOp>
    requires { bit_and word 0x7FE0_0000 ≡ 0x1AC0_0000 }
    ensures { form_of word ≡ option_map TwoSource result }
{
    match word & 0x7FE0_FC00 {
        0x1AC0_0800 => Some(TwoSourceOp::UnsignedDivide),
        0x1AC0_0C00 => Some(TwoSourceOp::SignedDivide),
        0x1AC0_2000 => Some(TwoSourceOp::ShiftLeft),
        0x1AC0_2400 => Some(TwoSourceOp::ShiftRight),
        0x1AC0_2800 => Some(TwoSourceOp::ShiftRightSigned),
        0x1AC0_2C00 => Some(TwoSourceOp::RotateRight),
        _ => None,
    }
}

/// Divisions, and shifts by a register.
fn two_source(word: u32) -> Option<Instr>
    requires { bit_and word 0x7FE0_0000 ≡ 0x1AC0_0000 }
    ensures row { result ≡ row word }
    ensures widths { IfSome result HasWidths }
{
    read::two_source(two_source_op(word)?, word)
}

/// Which operation with one source it is, but for REV of 64 bits.
fn one_source_op(word: u32) -> Option<OneSourceOp>
    requires group { bit_and word 0x7FE0_0000 ≡ 0x5AC0_0000 }
    requires no_reversal { bit_and word 0x7FFF_FC00 ≢ 0x5AC0_0C00 }
    ensures { form_of word ≡ option_map OneSource result }
{
    match word & 0x7FFF_FC00 {
        0x5AC0_0000 => Some(OneSourceOp::ReverseBits),
        0x5AC0_0400 => Some(OneSourceOp::ReverseBytesOfHalves),
        0x5AC0_0800 => Some(OneSourceOp::ReverseBytesOfWords),
        0x5AC0_1000 => Some(OneSourceOp::CountLeadingZeros),
        0x5AC0_1400 => Some(OneSourceOp::CountLeadingSigns),
        _ => None,
    }
}

/// Reversals and counts.
fn one_source(word: u32) -> Option<Instr>
    requires { bit_and word 0x7FE0_0000 ≡ 0x5AC0_0000 }
    ensures row { result ≡ row word }
    ensures widths { IfSome result HasWidths }
{
    match word & 0x7FFF_FC00 {
        0x5AC0_0C00 => reverse_bytes(word),
        _ => read::one_source(one_source_op(word)?, word),
    }
}

/// REV of 64 bits.
fn reverse_bytes(word: u32) -> Option<Instr>
    requires { bit_and word 0x7FFF_FC00 ≡ 0x5AC0_0C00 }
    ensures row { result ≡ row word }
    ensures widths { IfSome result HasWidths }
{
    match word & 0xFFFF_FC00 {
        0xDAC0_0C00 => read::reverse_bytes(word),
        _ => None,
    }
}

/// Multiplications of W registers.
pub fn three_source_w(word: u32) -> Option<Instr>
    requires { bit_and word 0xFF00_0000 ≡ 0x1B00_0000 }
    ensures row { result ≡ row word }
    ensures widths { IfSome result HasWidths }
{
    match word & 0x7F60_0000 {
        0x1B00_0000 => multiply_add(word),
        _ => None,
    }
}

/// Multiplications into an X register. The long ones and the high halves have bit 23 where they are unsigned.
pub fn three_source_x(word: u32) -> Option<Instr>
    requires { bit_and word 0xFF00_0000 ≡ 0x9B00_0000 }
    ensures row { result ≡ row word }
    ensures widths { IfSome result HasWidths }
{
    match word & 0x7F60_0000 {
        0x1B00_0000 => multiply_add(word),
        0x1B20_0000 => multiply_long(word),
        0x1B40_0000 => multiply_high(word),
        _ => None,
    }
}

/// A subtraction where bit 15 is set.
fn add_op(word: u32) -> AddOp
    ensures { result ≡ (if bit word 15 then Subtract else Add) }
{
    if bit(word, 15) {
        AddOp::Subtract
    } else {
        AddOp::Add
    }
}

/// MADD and MSUB.
fn multiply_add(word: u32) -> Option<Instr>
    requires { bit_and word 0x7F60_0000 ≡ 0x1B00_0000 }
    ensures row { result ≡ row word }
    ensures widths { IfSome result HasWidths }
{
    match word & 0x7FE0_0000 {
        0x1B00_0000 => read::multiply_add(add_op(word), word),
        _ => None,
    }
}

/// SMADDL, SMSUBL, UMADDL and UMSUBL.
fn multiply_long(word: u32) -> Option<Instr>
    requires { bit_and word 0xFF60_0000 ≡ 0x9B20_0000 }
    ensures row { result ≡ row word }
    ensures widths { IfSome result HasWidths }
{
    read::multiply_long(!bit(word, 23), add_op(word), word)
}

/// SMULH and UMULH.
fn multiply_high(word: u32) -> Option<Instr>
    requires { bit_and word 0xFF60_0000 ≡ 0x9B40_0000 }
    ensures row { result ≡ row word }
    ensures widths { IfSome result HasWidths }
{
    match word & 0xFF60_FC00 {
        0x9B40_7C00 => read::multiply_high(!bit(word, 23), word),
        _ => None,
    }
}
