//! Data processing with immediates (DDI 0487, C4.1).
ghost use Rattle.std.specs.Prelude.{◌≡◌, bit_and, IfSome};
ghost use Rattle.a64_model.specs.Rows.{row};
ghost use Rattle.a64_model.specs.Widths.{HasWidths};

use a64_model::bits::bit;
use a64_model::instr::Instr;
use a64_model::read::immediates as read;

/// ADR, and ADRP where bit 31 is set.
pub fn pc_relative(word: u32) -> Option<Instr>
    requires { bit_and word 0x1F00_0000 ≡ 0x1000_0000 }
    ensures row { result ≡ row word }
    ensures widths { IfSome result HasWidths }
{
    read::pc_relative(bit(word, 31), word)
}

/// Additions of an immediate. The other half has the tags of addresses, which have no row.
pub fn add_immediate(word: u32) -> Option<Instr>
    requires { bit_and word 0x1F00_0000 ≡ 0x1100_0000 }
    ensures row { result ≡ row word }
    ensures widths { IfSome result HasWidths }
{
    match word & 0x1F80_0000 {
        0x1100_0000 => read::add_immediate(word),
        _ => None,
    }
}

/// Logical operations with an immediate, and moves of a wide one.
pub fn logical_or_move(word: u32) -> Option<Instr>
    requires { bit_and word 0x1F00_0000 ≡ 0x1200_0000 }
    ensures row { result ≡ row word }
    ensures widths { IfSome result HasWidths }
{
    match word & 0x1F80_0000 {
        0x1200_0000 => read::logical_immediate(word),
        0x1280_0000 => read::move_wide(word),
        _ => None,
    }
}

/// Bitfields, and EXTR.
pub fn bitfield_or_extract(word: u32) -> Option<Instr>
    requires { bit_and word 0x1F00_0000 ≡ 0x1300_0000 }
    ensures row { result ≡ row word }
    ensures widths { IfSome result HasWidths }
{
    match word & 0x1F80_0000 {
        0x1300_0000 => read::bitfield(word),
        0x1380_0000 => extract(word),
        _ => None,
    }
}

/// EXTR.
fn extract(word: u32) -> Option<Instr>
    requires { bit_and word 0x1F80_0000 ≡ 0x1380_0000 }
    ensures row { result ≡ row word }
    ensures widths { IfSome result HasWidths }
{
    match word & 0x7FA0_0000 {
        0x1380_0000 => read::extract(word),
        _ => None,
    }
}
