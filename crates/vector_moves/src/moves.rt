//! Moves of vector registers.
ghost use Rattle.std.specs.Prelude.{◌≡◌, ◌<◌, ◌^◌, true};
ghost use Rattle.a64_model.specs.Exec.{needed, after, next, IsAnswer};
ghost use Rattle.a64_model.specs.Memory.{low_part};
ghost use Rattle.a64_model.specs.VectorMoves.{vector, with_vector, vector_address, vector_bytes, vector_access, need_vector_access, with_loaded_vector, load_store_vector, vector_pair_address, vector_pair_bytes, vector_pair_access, need_vector_pair, with_vector_pair, load_store_vector_pair, repeated, duplicated, duplicate};
ghost use Rattle.a64_model.specs.VectorRows.{is_vector};
ghost use Rattle.a64_model.specs.Widths.{HasWidths};

use crate::records::first_vector;
use a64_alu::shifts::sign_extended;
use a64_model::access::{Access, Answer, Next};
use a64_model::instr::{Duplicate, Instr, LoadStoreVector, LoadStoreVectorPair};
use a64_model::operands::{Reg, Size};
use a64_model::regs::Regs;
use a64_step::traps::{faulted, with_base};

/// Whether an instruction is of a row that moves vector registers.
pub fn is_vector(instr: Instr) -> bool
    ensures { result ≡ is_vector instr }
{
    matches!(
        instr,
        Instr::LoadStoreVector(_) | Instr::LoadStoreVectorPair(_) | Instr::Duplicate(_)
    )
}

/// What a vector register holds.
fn vector(regs: &Regs, r: Reg) -> u128
    ensures { result ≡ vector regs.now r }
{
    regs.v[usize::from(r.number)]
}

/// Writes a vector register.
fn set_vector(regs: &mut Regs, r: Reg, value: u128)
    ensures { regs.new ≡ with_vector regs.old r value }
{
    regs.v[usize::from(r.number)] = value;
}

/// The base plus so many accesses.
fn vector_address(regs: &Regs, i: LoadStoreVector) -> u64
    requires { i.imm12 < 2 ^ 12 }
    ensures { result ≡ vector_address regs.now i }
{
    regs.x_sp(i.rn).wrapping_add(u64::from(i.imm12) * 16)
}

/// The base plus a signed number of registers.
fn vector_pair_address(regs: &Regs, i: LoadStoreVectorPair) -> u64
    requires { i.imm7 < 2 ^ 7 }
    ensures { result ≡ vector_pair_address regs.now i }
{
    regs.x_sp(i.rn)
        .wrapping_add(sign_extended(11, u64::from(i.imm7) * 16))
}

/// The bytes of two registers, the first one first.
fn vector_pair_bytes(a: u128, b: u128) -> [u8; 32]
    ensures { result ≡ vector_pair_bytes a b }
{
    let mut bytes = [0; 32];
    bytes[..16].copy_from_slice(&a.to_le_bytes());
    bytes[16..].copy_from_slice(&b.to_le_bytes());
    bytes
}

/// The 16 bytes of a register, and zeros.
fn vector_bytes(n: u128) -> [u8; 32]
    ensures { result ≡ vector_bytes n }
{
    vector_pair_bytes(n, 0)
}

/// STR and LDR of a Q register.
fn need_access(regs: &Regs, i: LoadStoreVector) -> Result<Access, Next>
    requires { i.imm12 < 2 ^ 12 }
    ensures { result ≡ need_vector_access regs.now i }
{
    let at = vector_address(regs, i);
    let access = if i.load {
        Access::Load {
            at,
            len: 16,
            mark: false,
        }
    } else {
        Access::Store {
            at,
            len: 16,
            bytes: vector_bytes(vector(regs, i.rt)),
            exclusive: false,
        }
    };
    with_base(regs, i.rn, access)
}

/// STP and LDP of Q registers.
fn need_pair(regs: &Regs, i: LoadStoreVectorPair) -> Result<Access, Next>
    requires { i.imm7 < 2 ^ 7 }
    ensures { result ≡ need_vector_pair regs.now i }
{
    let at = vector_pair_address(regs, i);
    let access = if i.load {
        Access::Load {
            at,
            len: 32,
            mark: false,
        }
    } else {
        Access::Store {
            at,
            len: 32,
            bytes: vector_pair_bytes(vector(regs, i.rt), vector(regs, i.rt2)),
            exclusive: false,
        }
    };
    with_base(regs, i.rn, access)
}

/// What an instruction that moves vector registers asks of memory: `Err` with the trap exactly where alignment refuses the
/// access, which is SIGBUS with code 1 and the address of the stack pointer. DUP asks nothing.
pub fn need_vector(regs: &Regs, instr: Instr) -> Result<Access, Next>
    requires widths { HasWidths instr }
    requires vector { is_vector instr ≡ true }
    ensures { result ≡ needed regs.now instr }
{
    match instr {
        Instr::LoadStoreVector(i) => need_access(regs, i),
        Instr::LoadStoreVectorPair(i) => need_pair(regs, i),
        _ => Ok(Access::None),
    }
}

/// LDR and STR of a Q register.
fn load_store(regs: &mut Regs, i: LoadStoreVector, answer: Answer)
    ensures { regs.new ≡ load_store_vector regs.old i answer }
{
    if let Answer::Bytes(bytes) = answer {
        set_vector(regs, i.rt, first_vector(&bytes));
    }
    regs.advance();
}

/// LDP and STP of Q registers.
fn load_store_pair(regs: &mut Regs, i: LoadStoreVectorPair, answer: Answer)
    ensures { regs.new ≡ load_store_vector_pair regs.old i answer }
{
    if let Answer::Bytes(bytes) = answer {
        set_vector(regs, i.rt, first_vector(&bytes));
        set_vector(regs, i.rt2, first_vector(&bytes[16..]));
    }
    regs.advance();
}

/// The low bytes of a number over 8 bytes.
fn repeated(size: Size, n: u64) -> u64
    ensures { result ≡ repeated size n }
{
    match size {
        Size::Byte => (n & 0xFF) * 0x0101_0101_0101_0101,
        Size::Half => (n & 0xFFFF) * 0x0001_0001_0001_0001,
        Size::Word => (n & 0xFFFF_FFFF) * 0x0000_0001_0000_0001,
        Size::Double => n,
    }
}

/// The low bytes of a number over 8 bytes, with zeros above them, or over a whole register.
fn duplicated(size: Size, whole: bool, n: u64) -> u128
    ensures { result ≡ duplicated size whole n }
{
    let low = u128::from(repeated(size, n));
    if whole { low * ((1 << 64) + 1) } else { low }
}

/// DUP (general).
fn duplicate(regs: &mut Regs, i: Duplicate)
    ensures { regs.new ≡ duplicate regs.old i }
{
    let value = duplicated(i.size, i.whole, regs.x_zr(i.rn));
    set_vector(regs, i.rd, value);
    regs.advance();
}

/// Ends an instruction that moves vector registers, whose access had this answer: writes the registers, and tells what comes
/// next. A fault is SIGSEGV at its address, and changes nothing.
pub fn finish_vector(regs: &mut Regs, instr: Instr, answer: Answer) -> Next
    requires widths { HasWidths instr }
    requires vector { is_vector instr ≡ true }
    requires answer { IsAnswer (needed regs.old instr) answer }
    ensures regs { regs.new ≡ after regs.old instr answer }
    ensures next { result ≡ next regs.old instr answer }
{
    if let Answer::Fault(fault) = answer {
        return faulted(fault);
    }
    match instr {
        Instr::LoadStoreVector(i) => load_store(regs, i, answer),
        Instr::LoadStoreVectorPair(i) => load_store_pair(regs, i, answer),
        Instr::Duplicate(i) => duplicate(regs, i),
        _ => unreachable!(),
    }
    Next::Go
}
