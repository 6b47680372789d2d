//! Data processing with registers.
ghost use Rattle.std.specs.Prelude.{◌≡◌, ◌<◌, ◌≤◌, ◌^◌, IsTrue, IfSome};
ghost use Rattle.a64_model.specs.DataRegisters.{logical_shifted, add_shifted, add_extended, add_carry, conditional_compare, conditional_compare_register, conditional_compare_immediate, select_op, conditional_select, one_source, reverse_bytes, two_source, multiply_add, multiply_long, multiply_high};
ghost use Rattle.a64_model.specs.Widths.{HasWidths, HasComparandWidth};

use super::operands::{add_op, condition, extend, logical_op, reg, shift, width, width_bits};
use crate::bits::{bit, bits};
use crate::instr::{
    AddCarry, AddExtended, AddShifted, ConditionalCompare, ConditionalSelect, Instr,
    LogicalShifted, MultiplyAdd, MultiplyHigh, MultiplyLong, OneSource, ReverseBytes, TwoSource,
    WORD_ALIGNED,
};
use crate::operands::{AddOp, Comparand, OneSourceOp, SelectOp, TwoSourceOp};

pub fn logical_shifted(word: u32) -> Option<Instr>
    ensures value { result ≡ logical_shifted word }
    ensures widths { IfSome result HasWidths }
{
    let width = width(word);
    let amount = bits(word, 15, 10);
    if amount >= width_bits(width) {
        return None;
    }
    Some(Instr::LogicalShifted(LogicalShifted {
        aligned: WORD_ALIGNED,
        width,
        op: logical_op(bits(word, 30, 29)),
        invert: bit(word, 21),
        shift: shift(bits(word, 23, 22)),
        amount: amount as u8,
        rm: reg(word, 16),
        rn: reg(word, 5),
        rd: reg(word, 0),
    }))
}

pub fn add_shifted(word: u32) -> Option<Instr>
    ensures value { result ≡ add_shifted word }
    ensures widths { IfSome result HasWidths }
{
    let width = width(word);
    let kind = bits(word, 23, 22);
    let amount = bits(word, 15, 10);
    if (kind == 3) | (amount >= width_bits(width)) {
        return None;
    }
    Some(Instr::AddShifted(AddShifted {
        aligned: WORD_ALIGNED,
        width,
        op: add_op(word),
        set_flags: bit(word, 29),
        shift: shift(kind),
        amount: amount as u8,
        rm: reg(word, 16),
        rn: reg(word, 5),
        rd: reg(word, 0),
    }))
}

pub fn add_extended(word: u32) -> Option<Instr>
    ensures value { result ≡ add_extended word }
    ensures widths { IfSome result HasWidths }
{
    let amount = bits(word, 12, 10);
    if amount > 4 {
        return None;
    }
    Some(Instr::AddExtended(AddExtended {
        aligned: WORD_ALIGNED,
        width: width(word),
        op: add_op(word),
        set_flags: bit(word, 29),
        extend: extend(bits(word, 15, 13)),
        amount: amount as u8,
        rm: reg(word, 16),
        rn: reg(word, 5),
        rd: reg(word, 0),
    }))
}

pub fn add_carry(word: u32) -> Option<Instr>
    ensures value { result ≡ add_carry word }
    ensures widths { IfSome result HasWidths }
{
    Some(Instr::AddCarry(AddCarry {
        aligned: WORD_ALIGNED,
        width: width(word),
        op: add_op(word),
        set_flags: bit(word, 29),
        rm: reg(word, 16),
        rn: reg(word, 5),
        rd: reg(word, 0),
    }))
}

/// A comparison under a condition, with either operand.
fn conditional_compare(comparand: Comparand, word: u32) -> Option<Instr>
    requires { HasComparandWidth comparand }
    ensures value { result ≡ conditional_compare comparand word }
    ensures widths { IfSome result HasWidths }
{
    Some(Instr::ConditionalCompare(ConditionalCompare {
        aligned: WORD_ALIGNED,
        width: width(word),
        op: add_op(word),
        comparand,
        condition: condition(bits(word, 15, 12)),
        nzcv: bits(word, 3, 0) as u8,
        rn: reg(word, 5),
    }))
}

pub fn conditional_compare_register(word: u32) -> Option<Instr>
    ensures value { result ≡ conditional_compare_register word }
    ensures widths { IfSome result HasWidths }
{
    conditional_compare(Comparand::Register(reg(word, 16)), word)
}

pub fn conditional_compare_immediate(word: u32) -> Option<Instr>
    ensures value { result ≡ conditional_compare_immediate word }
    ensures widths { IfSome result HasWidths }
{
    conditional_compare(Comparand::Immediate(bits(word, 20, 16) as u8), word)
}

fn select_op(invert: bool, increment: bool) -> SelectOp
    ensures { result ≡ select_op invert increment }
{
    match (invert, increment) {
        (false, false) => SelectOp::Plain,
        (false, true) => SelectOp::Increment,
        (true, false) => SelectOp::Invert,
        (true, true) => SelectOp::Negate,
    }
}

pub fn conditional_select(word: u32) -> Option<Instr>
    ensures value { result ≡ conditional_select word }
    ensures widths { IfSome result HasWidths }
{
    Some(Instr::ConditionalSelect(ConditionalSelect {
        aligned: WORD_ALIGNED,
        width: width(word),
        op: select_op(bit(word, 30), bit(word, 10)),
        condition: condition(bits(word, 15, 12)),
        rm: reg(word, 16),
        rn: reg(word, 5),
        rd: reg(word, 0),
    }))
}

pub fn one_source(op: OneSourceOp, word: u32) -> Option<Instr>
    ensures value { result ≡ one_source op word }
    ensures widths { IfSome result HasWidths }
{
    Some(Instr::OneSource(OneSource {
        aligned: WORD_ALIGNED,
        width: width(word),
        op,
        rn: reg(word, 5),
        rd: reg(word, 0),
    }))
}

pub fn reverse_bytes(word: u32) -> Option<Instr>
    ensures value { result ≡ reverse_bytes word }
    ensures widths { IfSome result HasWidths }
{
    Some(Instr::ReverseBytes(ReverseBytes {
        aligned: WORD_ALIGNED,
        rn: reg(word, 5),
        rd: reg(word, 0),
    }))
}

pub fn two_source(op: TwoSourceOp, word: u32) -> Option<Instr>
    ensures value { result ≡ two_source op word }
    ensures widths { IfSome result HasWidths }
{
    Some(Instr::TwoSource(TwoSource {
        aligned: WORD_ALIGNED,
        width: width(word),
        op,
        rm: reg(word, 16),
        rn: reg(word, 5),
        rd: reg(word, 0),
    }))
}

pub fn multiply_add(op: AddOp, word: u32) -> Option<Instr>
    ensures value { result ≡ multiply_add op word }
    ensures widths { IfSome result HasWidths }
{
    Some(Instr::MultiplyAdd(MultiplyAdd {
        aligned: WORD_ALIGNED,
        width: width(word),
        op,
        rm: reg(word, 16),
        ra: reg(word, 10),
        rn: reg(word, 5),
        rd: reg(word, 0),
    }))
}

pub fn multiply_long(signed: bool, op: AddOp, word: u32) -> Option<Instr>
    ensures value { result ≡ multiply_long signed op word }
    ensures widths { IfSome result HasWidths }
{
    Some(Instr::MultiplyLong(MultiplyLong {
        aligned: WORD_ALIGNED,
        signed,
        op,
        rm: reg(word, 16),
        ra: reg(word, 10),
        rn: reg(word, 5),
        rd: reg(word, 0),
    }))
}

pub fn multiply_high(signed: bool, word: u32) -> Option<Instr>
    ensures value { result ≡ multiply_high signed word }
    ensures widths { IfSome result HasWidths }
{
    Some(Instr::MultiplyHigh(MultiplyHigh {
        aligned: WORD_ALIGNED,
        signed,
        rm: reg(word, 16),
        rn: reg(word, 5),
        rd: reg(word, 0),
    }))
}
