//! Bases and offsets of accesses.
ghost use Rattle.std.specs.Prelude.{◌≡◌, ◌<◌, ◌≤◌, ◌^◌};
ghost use Rattle.a64_model.specs.ExecLoadsStores.{unsigned_address, indexed_address, written_back, moved_base, scale, register_address, literal_address, pair_offset, moved_pair_base};

use crate::memory::size_bytes;
use a64_alu::shifts::{extend_reg, sign_extended};
use a64_model::instr::{
    LoadLiteral, LoadStoreIndexed, LoadStorePair, LoadStoreRegister, LoadStoreUnsigned,
};
use a64_model::operands::{Indexing, PairKind, Reg, Size, Width};
use a64_model::regs::Regs;

/// The base plus so many accesses.
pub fn unsigned_address(regs: &Regs, i: LoadStoreUnsigned) -> u64
    requires { i.imm12 < 2 ^ 12 }
    ensures { result ≡ unsigned_address regs.now i }
{
    regs.x_sp(i.rn)
        .wrapping_add(u64::from(i.imm12) * u64::from(size_bytes(i.size)))
}

/// The base plus a signed number of bytes.
pub fn moved_base(regs: &Regs, i: LoadStoreIndexed) -> u64
    requires { i.imm9 < 2 ^ 9 }
    ensures { result ≡ moved_base regs.now i }
{
    regs.x_sp(i.rn)
        .wrapping_add(sign_extended(9, u64::from(i.imm9)))
}

/// How far an offset register is moved left, where it counts accesses.
fn scale(size: Size, scaled: bool) -> u32
    ensures value { result ≡ scale size scaled }
    ensures small { result < 64 }
{
    if !scaled {
        return 0;
    }
    match size {
        Size::Byte => 0,
        Size::Half => 1,
        Size::Word => 2,
        Size::Double => 3,
    }
}

/// The base plus the extended register.
pub fn register_address(regs: &Regs, i: LoadStoreRegister) -> u64
    ensures { result ≡ register_address regs.now i }
{
    let by = scale(i.size, i.scaled);
    regs.x_sp(i.rn)
        .wrapping_add(extend_reg(Width::X, i.extend, regs.x_zr(i.rm), by))
}

/// pc plus a signed number of instructions.
pub fn literal_address(regs: &Regs, i: LoadLiteral) -> u64
    requires { i.imm19 < 2 ^ 19 }
    ensures { result ≡ literal_address regs.now i }
{
    regs.pc
        .wrapping_add(sign_extended(21, u64::from(i.imm19) * 4))
}

/// A signed number of registers, in bytes.
fn pair_offset(kind: PairKind, imm7: u8) -> u64
    requires { imm7 < 2 ^ 7 }
    ensures { result ≡ pair_offset kind imm7 }
{
    let imm = u64::from(imm7);
    match kind {
        PairKind::Double => sign_extended(10, imm * 8),
        PairKind::Word | PairKind::SignedWord => sign_extended(9, imm * 4),
    }
}

/// The base of a pair plus its offset.
pub fn moved_pair_base(regs: &Regs, i: LoadStorePair) -> u64
    requires { i.imm7 < 2 ^ 7 }
    ensures { result ≡ moved_pair_base regs.now i }
{
    regs.x_sp(i.rn).wrapping_add(pair_offset(i.kind, i.imm7))
}

/// The address of an access, from the base and the base plus the offset.
pub fn indexed_address(indexing: Indexing, base: u64, moved: u64) -> u64
    ensures { result ≡ indexed_address indexing base moved }
{
    match indexing {
        Indexing::PostIndex => base,
        Indexing::Offset | Indexing::PreIndex => moved,
    }
}

/// Writes the base back after an access, where the form does.
pub fn write_back(regs: &mut Regs, indexing: Indexing, rn: Reg, moved: u64)
    ensures { regs.new ≡ written_back regs.old indexing rn moved }
{
    match indexing {
        Indexing::Offset => {}
        Indexing::PostIndex | Indexing::PreIndex => regs.set_x_sp(rn, moved),
    }
}
