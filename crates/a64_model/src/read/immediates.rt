//! Data processing with immediates.
ghost use Rattle.std.specs.Prelude.{◌≡◌, ◌*◌, ◌^◌, ◌<◌, ◌≤◌, IsTrue, IfSome};
ghost use Rattle.a64_model.specs.BitMasks.{is_pattern};
ghost use Rattle.a64_model.specs.Immediates.{pc_relative, add_immediate, logical_immediate, move_wide_op, move_wide, bitfield_op, bitfield, extract};
ghost use Rattle.a64_model.specs.Widths.{HasWidths};

use super::operands::{add_op, logical_op, reg, width, width_bits};
use crate::bits::{bit, bits};
use crate::instr::{
    AddImmediate, Bitfield, Extract, Instr, LogicalImmediate, MoveWide, PcRelative, WORD_ALIGNED,
};
use crate::operands::{BitfieldOp, MoveWideOp, Width};

pub fn pc_relative(page: bool, word: u32) -> Option<Instr>
    ensures value { result ≡ pc_relative page word }
    ensures widths { IfSome result HasWidths }
{
    Some(Instr::PcRelative(PcRelative {
        imm21: bits(word, 23, 5) * 4 + bits(word, 30, 29),
        page,
        rd: reg(word, 0),
    }))
}

pub fn add_immediate(word: u32) -> Option<Instr>
    ensures value { result ≡ add_immediate word }
    ensures widths { IfSome result HasWidths }
{
    Some(Instr::AddImmediate(AddImmediate {
        aligned: WORD_ALIGNED,
        width: width(word),
        op: add_op(word),
        set_flags: bit(word, 29),
        shifted: bit(word, 22),
        imm12: bits(word, 21, 10) as u16,
        rn: reg(word, 5),
        rd: reg(word, 0),
    }))
}

/// Whether N and imms are those of a pattern. The highest bit set in N followed by the complement of imms tells the size
/// of the element, and another one that not all bits of the element are ones: so two at least are set.
fn is_pattern(width: Width, n: u32, imms: u32) -> bool
    requires bit { n < 2 }
    requires six_bits { imms < 64 }
    ensures { result ≡ is_pattern width n imms }
{
    let may_have = match width {
        Width::W => n == 0,
        Width::X => true,
    };
    may_have && 2 <= (n * 64 + (63 - imms)).count_ones()
}

pub fn logical_immediate(word: u32) -> Option<Instr>
    ensures value { result ≡ logical_immediate word }
    ensures widths { IfSome result HasWidths }
{
    let width = width(word);
    let n = bits(word, 22, 22);
    let imms = bits(word, 15, 10);
    if !is_pattern(width, n, imms) {
        return None;
    }
    Some(Instr::LogicalImmediate(LogicalImmediate {
        aligned: WORD_ALIGNED,
        width,
        op: logical_op(bits(word, 30, 29)),
        n: n as u8,
        immr: bits(word, 21, 16) as u8,
        imms: imms as u8,
        rn: reg(word, 5),
        rd: reg(word, 0),
    }))
}

/// The wide moves by opc. A table is read without a branch on opc, which a processor would often predict wrongly from word
/// to word.
static MOVE_WIDE_OPS: [Option<MoveWideOp>; 4] = [
    Some(MoveWideOp::Not),
    None,
    Some(MoveWideOp::Zero),
    Some(MoveWideOp::Keep),
];

fn move_wide_op(opc: u32) -> Option<MoveWideOp>
    requires { opc < 4 }
    ensures { result ≡ move_wide_op opc }
{
    MOVE_WIDE_OPS[opc as usize]
}

pub fn move_wide(word: u32) -> Option<Instr>
    ensures value { result ≡ move_wide word }
    ensures widths { IfSome result HasWidths }
{
    let width = width(word);
    let hw = bits(word, 22, 21);
    if hw * 16 >= width_bits(width) {
        return None;
    }
    let op = move_wide_op(bits(word, 30, 29))?;
    Some(Instr::MoveWide(MoveWide {
        aligned: WORD_ALIGNED,
        width,
        op,
        imm16: bits(word, 20, 5) as u16,
        hw: hw as u8,
        rd: reg(word, 0),
    }))
}

/// The bitfield moves by opc.
static BITFIELD_OPS: [Option<BitfieldOp>; 4] = [
    Some(BitfieldOp::Signed),
    Some(BitfieldOp::Kept),
    Some(BitfieldOp::Unsigned),
    None,
];

fn bitfield_op(opc: u32) -> Option<BitfieldOp>
    requires { opc < 4 }
    ensures { result ≡ bitfield_op opc }
{
    BITFIELD_OPS[opc as usize]
}

pub fn bitfield(word: u32) -> Option<Instr>
    ensures value { result ≡ bitfield word }
    ensures widths { IfSome result HasWidths }
{
    let width = width(word);
    let immr = bits(word, 21, 16);
    let imms = bits(word, 15, 10);
    if (bits(word, 22, 22) != bits(word, 31, 31))
        | (immr >= width_bits(width))
        | (imms >= width_bits(width))
    {
        return None;
    }
    let op = bitfield_op(bits(word, 30, 29))?;
    Some(Instr::Bitfield(Bitfield {
        aligned: WORD_ALIGNED,
        width,
        op,
        immr: immr as u8,
        imms: imms as u8,
        rn: reg(word, 5),
        rd: reg(word, 0),
    }))
}

pub fn extract(word: u32) -> Option<Instr>
    ensures value { result ≡ extract word }
    ensures widths { IfSome result HasWidths }
{
    let width = width(word);
    let imms = bits(word, 15, 10);
    if (bits(word, 22, 22) != bits(word, 31, 31)) | (imms >= width_bits(width)) {
        return None;
    }
    Some(Instr::Extract(Extract {
        aligned: WORD_ALIGNED,
        width,
        imms: imms as u8,
        rm: reg(word, 16),
        rn: reg(word, 5),
        rd: reg(word, 0),
    }))
}
