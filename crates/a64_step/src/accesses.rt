//! What an instruction asks of memory.
ghost use Rattle.std.specs.Prelude.{◌≡◌, ◌<◌, ◌^◌, false, pos};
ghost use Rattle.a64_model.specs.ExecLoadsStores.{with_aligned_base, transferred, need_unsigned, need_indexed, need_register, literal_access, literal_address, need_literal, pair_access, need_pair, need_load, need_store, need_compare_swap, swap_op, need_atomic};
ghost use Rattle.a64_model.specs.Exec.{needed};
ghost use Rattle.a64_model.specs.VectorRows.{is_vector};
ghost use Rattle.a64_model.specs.Widths.{HasWidths};

use crate::memory::{bytes_of, literal_size, low_part, pair_bytes, pair_size, size_bytes};
use crate::transfers::{
    indexed_address, literal_address, moved_base, moved_pair_base, register_address,
    unsigned_address,
};
use crate::traps::{misaligned, with_base};
use a64_model::access::{Access, Next, SwapOp};
use a64_model::instr::{
    Atomic, CompareSwap, Instr, LoadLiteral, LoadStoreIndexed, LoadStorePair, LoadStoreRegister,
    LoadStoreUnsigned,
};
use a64_model::operands::{AtomicOp, LiteralKind, Reg, Size, Transfer};
use a64_model::regs::Regs;

/// An access at a base that has to be a multiple of its size.
fn with_aligned_base(regs: &Regs, rn: Reg, size: Size, access: Access) -> Result<Access, Next>
    ensures { result ≡ with_aligned_base regs.now rn size access }
{
    if rn.number == 31 && regs.sp % 16 != 0 {
        return Err(misaligned(regs.sp));
    }
    let at = regs.x_sp(rn);
    if at % u64::from(size_bytes(size)) != 0 {
        return Err(misaligned(at));
    }
    Ok(access)
}

/// What a transfer of one register asks at an address. A prefetch asks nothing, and never traps.
fn transferred(
    regs: &Regs,
    size: Size,
    transfer: Transfer,
    rn: Reg,
    rt: Reg,
    at: u64,
) -> Result<Access, Next>
    ensures { result ≡ transferred regs.now size transfer rn rt at }
{
    let len = size_bytes(size);
    match transfer {
        Transfer::Store => {
            let bytes = bytes_of(low_part(size, regs.x_zr(rt)));
            let access = Access::Store {
                at,
                len,
                bytes,
                exclusive: false,
            };
            with_base(regs, rn, access)
        }
        Transfer::Prefetch => Ok(Access::None),
        Transfer::Load | Transfer::LoadSigned64 | Transfer::LoadSigned32 => {
            let access = Access::Load {
                at,
                len,
                mark: false,
            };
            with_base(regs, rn, access)
        }
    }
}

/// LDR, STR and their kin (unsigned offset).
fn need_unsigned(regs: &Regs, i: LoadStoreUnsigned) -> Result<Access, Next>
    requires { i.imm12 < 2 ^ 12 }
    ensures { result ≡ need_unsigned regs.now i }
{
    let at = unsigned_address(regs, i);
    transferred(regs, i.size, i.transfer, i.rn, i.rt, at)
}

/// LDUR, STUR and their kin, and LDR, STR and their kin with post-index and pre-index.
fn need_indexed(regs: &Regs, i: LoadStoreIndexed) -> Result<Access, Next>
    requires { i.imm9 < 2 ^ 9 }
    ensures { result ≡ need_indexed regs.now i }
{
    let at = indexed_address(i.indexing, regs.x_sp(i.rn), moved_base(regs, i));
    transferred(regs, i.size, i.transfer, i.rn, i.rt, at)
}

/// LDR, STR and their kin (register offset).
fn need_register(regs: &Regs, i: LoadStoreRegister) -> Result<Access, Next>
    ensures { result ≡ need_register regs.now i }
{
    let at = register_address(regs, i);
    transferred(regs, i.size, i.transfer, i.rn, i.rt, at)
}

/// LDR, LDRSW and PRFM (literal).
fn need_literal(regs: &Regs, i: LoadLiteral) -> Access
    requires { i.imm19 < 2 ^ 19 }
    ensures { result ≡ literal_access i.kind (literal_address regs.now i) }
{
    match i.kind {
        LiteralKind::Prefetch => Access::None,
        LiteralKind::Word | LiteralKind::Double | LiteralKind::SignedWord => Access::Load {
            at: literal_address(regs, i),
            len: size_bytes(literal_size(i.kind)),
            mark: false,
        },
    }
}

/// What a pair asks at an address.
fn pair_access(regs: &Regs, i: LoadStorePair, at: u64) -> Access
    ensures { result ≡ pair_access regs.now i at }
{
    let len = 2 * pair_size(i.kind);
    if i.load {
        Access::Load {
            at,
            len,
            mark: false,
        }
    } else {
        Access::Store {
            at,
            len,
            bytes: pair_bytes(i.kind, regs.x_zr(i.rt), regs.x_zr(i.rt2)),
            exclusive: false,
        }
    }
}

/// LDP, LDPSW and STP.
fn need_pair(regs: &Regs, i: LoadStorePair) -> Result<Access, Next>
    requires { i.imm7 < 2 ^ 7 }
    ensures { result ≡ need_pair regs.now i }
{
    let at = indexed_address(i.indexing, regs.x_sp(i.rn), moved_pair_base(regs, i));
    with_base(regs, i.rn, pair_access(regs, i, at))
}

/// LDXR and its kin, which leave a mark, and LDAR and its kin.
fn need_load(regs: &Regs, size: Size, rn: Reg, mark: bool) -> Result<Access, Next>
    ensures { result ≡ need_load regs.now size rn mark }
{
    let access = Access::Load {
        at: regs.x_sp(rn),
        len: size_bytes(size),
        mark,
    };
    with_aligned_base(regs, rn, size, access)
}

/// STXR and its kin, which are exclusive, and STLR and its kin.
fn need_store(regs: &Regs, size: Size, rn: Reg, rt: Reg, exclusive: bool) -> Result<Access, Next>
    ensures { result ≡ need_store regs.now size rn rt exclusive }
{
    let access = Access::Store {
        at: regs.x_sp(rn),
        len: size_bytes(size),
        bytes: bytes_of(low_part(size, regs.x_zr(rt))),
        exclusive,
    };
    with_aligned_base(regs, rn, size, access)
}

/// CAS and its kin: Rs is expected, and Rt stored.
fn need_compare_swap(regs: &Regs, i: CompareSwap) -> Result<Access, Next>
    ensures { result ≡ need_compare_swap regs.now i }
{
    let access = Access::Swap {
        at: regs.x_sp(i.rn),
        len: size_bytes(i.size),
        op: SwapOp::CompareSwap,
        value: low_part(i.size, regs.x_zr(i.rt)),
        expected: low_part(i.size, regs.x_zr(i.rs)),
    };
    with_aligned_base(regs, i.rn, i.size, access)
}

/// What an atomic operation leaves in memory.
fn swap_op(op: AtomicOp) -> SwapOp
    ensures { result ≡ swap_op op }
{
    match op {
        AtomicOp::Add => SwapOp::Add,
        AtomicOp::Clear => SwapOp::Clear,
        AtomicOp::ExclusiveOr => SwapOp::Xor,
        AtomicOp::Set => SwapOp::Set,
        AtomicOp::Swap => SwapOp::Swap,
    }
}

/// LDADD, LDCLR, LDEOR, LDSET, SWP and their kin.
fn need_atomic(regs: &Regs, i: Atomic) -> Result<Access, Next>
    ensures { result ≡ need_atomic regs.now i }
{
    let access = Access::Swap {
        at: regs.x_sp(i.rn),
        len: size_bytes(i.size),
        op: swap_op(i.op),
        value: low_part(i.size, regs.x_zr(i.rs)),
        expected: 0,
    };
    with_aligned_base(regs, i.rn, i.size, access)
}

/// What the instruction asks of memory: `Err` with the trap exactly where alignment refuses the access, which is SIGBUS
/// with code 1 and the address of the stack pointer or of the access. A row that makes no access asks nothing. The crate
/// `vector_moves` has the rows that move vector registers.
pub fn need(regs: &Regs, instr: Instr) -> Result<Access, Next>
    requires widths { HasWidths instr }
    requires general { is_vector instr ≡ false }
    ensures { result ≡ needed regs.now instr }
{
    match instr {
        Instr::LoadStoreUnsigned(i) => need_unsigned(regs, i),
        Instr::LoadStoreIndexed(i) => need_indexed(regs, i),
        Instr::LoadStoreRegister(i) => need_register(regs, i),
        Instr::LoadLiteral(i) => Ok(need_literal(regs, i)),
        Instr::LoadStorePair(i) => need_pair(regs, i),
        Instr::StoreExclusive(i) => need_store(regs, i.size, i.rn, i.rt, true),
        Instr::LoadExclusive(i) => need_load(regs, i.size, i.rn, true),
        Instr::StoreOrdered(i) => need_store(regs, i.size, i.rn, i.rt, false),
        Instr::LoadOrdered(i) => need_load(regs, i.size, i.rn, false),
        Instr::CompareSwap(i) => need_compare_swap(regs, i),
        Instr::Atomic(i) => need_atomic(regs, i),
        Instr::ClearExclusive => Ok(Access::ClearMark),
        _ => Ok(Access::None),
    }
}
