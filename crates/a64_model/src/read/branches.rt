//! Branches and system instructions.
ghost use Rattle.std.specs.Prelude.{◌≡◌, ◌<◌, ◌^◌, IsTrue, IfSome};
ghost use Rattle.a64_model.specs.Branches.{branch, branch_conditional, compare_branch, test_branch, branch_register, read_thread_pointer, write_thread_pointer};
ghost use Rattle.a64_model.specs.Widths.{HasWidths};

use super::operands::{condition, reg, width};
use crate::bits::bits;
use crate::instr::{
    Branch, BranchConditional, BranchRegister, CompareBranch, Instr, ReadThreadPointer, TestBranch,
    WORD_ALIGNED, WriteThreadPointer,
};
use crate::operands::BranchKind;

pub fn branch(link: bool, word: u32) -> Option<Instr>
    ensures value { result ≡ branch link word }
    ensures widths { IfSome result HasWidths }
{
    Some(Instr::Branch(Branch {
        imm26: bits(word, 25, 0),
        link,
    }))
}

pub fn branch_conditional(word: u32) -> Option<Instr>
    ensures value { result ≡ branch_conditional word }
    ensures widths { IfSome result HasWidths }
{
    Some(Instr::BranchConditional(BranchConditional {
        imm19: bits(word, 23, 5),
        condition: condition(bits(word, 3, 0)),
    }))
}

pub fn compare_branch(nonzero: bool, word: u32) -> Option<Instr>
    ensures value { result ≡ compare_branch nonzero word }
    ensures widths { IfSome result HasWidths }
{
    Some(Instr::CompareBranch(CompareBranch {
        imm19: bits(word, 23, 5),
        width: width(word),
        nonzero,
        rt: reg(word, 0),
    }))
}

pub fn test_branch(set: bool, word: u32) -> Option<Instr>
    ensures value { result ≡ test_branch set word }
    ensures widths { IfSome result HasWidths }
{
    let bit_number = (bits(word, 31, 31) * 32 + bits(word, 23, 19)) as u8;
    Some(Instr::TestBranch(TestBranch {
        aligned: WORD_ALIGNED,
        set,
        bit_number,
        imm14: bits(word, 18, 5) as u16,
        rt: reg(word, 0),
    }))
}

pub fn branch_register(kind: BranchKind, word: u32) -> Option<Instr>
    ensures value { result ≡ branch_register kind word }
    ensures widths { IfSome result HasWidths }
{
    Some(Instr::BranchRegister(BranchRegister {
        aligned: WORD_ALIGNED,
        kind,
        rn: reg(word, 5),
    }))
}

pub fn read_thread_pointer(word: u32) -> Option<Instr>
    ensures value { result ≡ read_thread_pointer word }
    ensures widths { IfSome result HasWidths }
{
    Some(Instr::ReadThreadPointer(ReadThreadPointer {
        aligned: WORD_ALIGNED,
        rt: reg(word, 0),
    }))
}

pub fn write_thread_pointer(word: u32) -> Option<Instr>
    ensures value { result ≡ write_thread_pointer word }
    ensures widths { IfSome result HasWidths }
{
    Some(Instr::WriteThreadPointer(WriteThreadPointer {
        aligned: WORD_ALIGNED,
        rt: reg(word, 0),
    }))
}
