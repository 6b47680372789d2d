//! Moves of vector registers (DDI 0487, C4.1).
ghost use Rattle.std.specs.Prelude.{◌≡◌, bit_and, IfSome};
ghost use Rattle.a64_model.specs.Rows.{row};
ghost use Rattle.a64_model.specs.Widths.{HasWidths};

use a64_model::bits::bit;
use a64_model::instr::Instr;
use a64_model::read::vectors as read;

/// STR of a Q register, and LDR where bit 22 is set.
pub fn load_store(word: u32) -> Option<Instr>
    requires { bit_and word 0xFF00_0000 ≡ 0x3D00_0000 }
    ensures row { result ≡ row word }
    ensures widths { IfSome result HasWidths }
{
    match word & 0xFF80_0000 {
        0x3D80_0000 => read::load_store_vector(bit(word, 22), word),
        _ => None,
    }
}

/// STP of Q registers, and LDP where bit 22 is set.
pub fn pair(word: u32) -> Option<Instr>
    requires { bit_and word 0xFF00_0000 ≡ 0xAD00_0000 }
    ensures row { result ≡ row word }
    ensures widths { IfSome result HasWidths }
{
    match word & 0xFF80_0000 {
        0xAD00_0000 => read::load_store_vector_pair(bit(word, 22), word),
        _ => None,
    }
}

/// DUP from a general register.
pub fn duplicate(word: u32) -> Option<Instr>
    requires { bit_and word 0xBF00_0000 ≡ 0x0E00_0000 }
    ensures row { result ≡ row word }
    ensures widths { IfSome result HasWidths }
{
    match word & 0xBFE0_FC00 {
        0x0E00_0C00 => read::duplicate(word),
        _ => None,
    }
}
