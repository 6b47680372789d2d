//! Branches, exception generating and system instructions (DDI 0487, C4.1).
ghost use Rattle.std.specs.Prelude.{◌≡◌, bit_and, IfSome};
ghost use Rattle.std.specs.Option.{option_map};
ghost use Rattle.a64_model.specs.Rows.{form_of, row};
ghost use Rattle.a64_model.specs.Widths.{HasWidths};
ghost use Rattle.a64_model.specs.declared.rows.Form.TheVariants.{BranchRegister};

use a64_model::bits::{bit, bits};
use a64_model::instr::Instr;
use a64_model::operands::BranchKind;
use a64_model::read::branches as read;

/// B, and BL where bit 31 is set.
pub fn branch(word: u32) -> Option<Instr>
    requires { bit_and word 0x7C00_0000 ≡ 0x1400_0000 }
    ensures row { result ≡ row word }
    ensures widths { IfSome result HasWidths }
{
    read::branch(bit(word, 31), word)
}

/// CBZ, and CBNZ where bit 24 is set.
pub fn compare_branch(word: u32) -> Option<Instr>
    requires { bit_and word 0x7E00_0000 ≡ 0x3400_0000 }
    ensures row { result ≡ row word }
    ensures widths { IfSome result HasWidths }
{
    read::compare_branch(bit(word, 24), word)
}

/// TBZ, and TBNZ where bit 24 is set.
pub fn test_branch(word: u32) -> Option<Instr>
    requires { bit_and word 0x7E00_0000 ≡ 0x3600_0000 }
    ensures row { result ≡ row word }
    ensures widths { IfSome result HasWidths }
{
    read::test_branch(bit(word, 24), word)
}

/// B.cond.
pub fn conditional(word: u32) -> Option<Instr>
    requires { bit_and word 0xFF00_0000 ≡ 0x5400_0000 }
    ensures row { result ≡ row word }
    ensures widths { IfSome result HasWidths }
{
    match word & 0xFF00_0010 {
        0x5400_0000 => read::branch_conditional(word),
        _ => None,
    }
}

/// SVC and BRK.
pub fn exception(word: u32) -> Option<Instr>
    requires { bit_and word 0xFF00_0000 ≡ 0xD400_0000 }
    ensures row { result ≡ row word }
    ensures widths { IfSome result HasWidths }
{
    match word & 0xFFE0_001F {
        0xD400_0001 => Some(Instr::SupervisorCall),
        0xD420_0000 => Some(Instr::Breakpoint),
        _ => None,
    }
}

/// Hints, barriers, and moves of the thread pointer.
pub fn system(word: u32) -> Option<Instr>
    requires { bit_and word 0xFF00_0000 ≡ 0xD500_0000 }
    ensures row { result ≡ row word }
    ensures widths { IfSome result HasWidths }
{
    match word & 0xFFD0_0000 {
        0xD500_0000 => hint_or_barrier(word),
        0xD510_0000 => thread_pointer(word),
        _ => None,
    }
}

/// Hints and barriers.
fn hint_or_barrier(word: u32) -> Option<Instr>
    requires { bit_and word 0xFFD0_0000 ≡ 0xD500_0000 }
    ensures row { result ≡ row word }
    ensures widths { IfSome result HasWidths }
{
    match word & 0xFFFF_F01F {
        0xD503_201F => Some(Instr::Hint),
        0xD503_301F => barrier(word),
        _ => None,
    }
}

/// CLREX, DSB, DMB and ISB.
fn barrier(word: u32) -> Option<Instr>
    requires { bit_and word 0xFFFF_F01F ≡ 0xD503_301F }
    ensures row { result ≡ row word }
    ensures widths { IfSome result HasWidths }
{
    match word & 0xFFFF_F0FF {
        0xD503_305F => Some(Instr::ClearExclusive),
        0xD503_309F => Some(Instr::Barrier),
        0xD503_30BF => Some(Instr::Barrier),
        0xD503_30DF => Some(Instr::Barrier),
        _ => None,
    }
}

/// Moves of TPIDR_EL0.
fn thread_pointer(word: u32) -> Option<Instr>
    requires { bit_and word 0xFFD0_0000 ≡ 0xD510_0000 }
    ensures row { result ≡ row word }
    ensures widths { IfSome result HasWidths }
{
    match word & 0xFFDF_FFE0 {
        0xD51B_D040 => read_or_write_thread_pointer(word),
        _ => None,
    }
}

/// MSR of TPIDR_EL0, and MRS where bit 21 is set.
fn read_or_write_thread_pointer(word: u32) -> Option<Instr>
    requires { bit_and word 0xFFDF_FFE0 ≡ 0xD51B_D040 }
    ensures row { result ≡ row word }
    ensures widths { IfSome result HasWidths }
{
    if bit(word, 21) {
        read::read_thread_pointer(word)
    } else {
        read::write_thread_pointer(word)
    }
}

/// Which branch to a register it is, by bits 22 and 21. The last has no row.
static BRANCH_KINDS: [Option<BranchKind>; 4] = [
    Some(BranchKind::Jump),
    Some(BranchKind::Call),
    Some(BranchKind::Return),
    None,
];

/// Which branch to a register it is.
fn branch_kind(word: u32) -> Option<BranchKind>
    requires { bit_and word 0xFF9F_FC1F ≡ 0xD61F_0000 }
    ensures { form_of word ≡ option_map BranchRegister result }
{
    BRANCH_KINDS[bits(word, 22, 21) as usize]
}

/// BR, BLR and RET.
pub fn branch_register(word: u32) -> Option<Instr>
    requires { bit_and word 0xFF00_0000 ≡ 0xD600_0000 }
    ensures row { result ≡ row word }
    ensures widths { IfSome result HasWidths }
{
    match word & 0xFF9F_FC1F {
        0xD61F_0000 => read::branch_register(branch_kind(word)?, word),
        _ => None,
    }
}
