//! Loads and stores.
ghost use Rattle.std.specs.Prelude.{◌≡◌, ◌<◌, ◌≤◌, ◌^◌, IsTrue, IfSome};
ghost use Rattle.std.specs.Option.{is_some};
ghost use Rattle.a64_model.specs.LoadsStores.{is_offset, transfer, may_write_back, load_store_unsigned, load_store_indexed, load_store_register, literal_kind, load_literal, pair_kind, may_pair, load_store_pair, may_take_status, store_exclusive, load_exclusive, store_ordered, load_ordered, compare_swap, atomic};
ghost use Rattle.a64_model.specs.Widths.{HasWidths, may_transfer, is_pair_kind, is_wide_extend};

use super::operands::{extend, is_31, is_same, reg, size};
use crate::bits::{bit, bits};
use crate::instr::{
    Atomic, CompareSwap, Instr, LoadExclusive, LoadLiteral, LoadOrdered, LoadStoreIndexed,
    LoadStorePair, LoadStoreRegister, LoadStoreUnsigned, StoreExclusive, StoreOrdered,
    WORD_ALIGNED,
};
use crate::operands::{AtomicOp, Indexing, LiteralKind, PairKind, Reg, Size, Transfer};

/// Whether the base register stays as it is.
fn is_offset(indexing: Indexing) -> bool
    ensures { result ≡ is_offset indexing }
{
    matches!(indexing, Indexing::Offset)
}

/// Whether a size has an access with this opc, in a form that has prefetches or has not. All parts are computed, without
/// a branch on opc, which a processor would often predict wrongly from word to word.
fn has_opc(size: Size, opc: u32, prefetches: bool) -> bool
    ensures { result ≡ is_some (transfer size opc prefetches) }
{
    let is_double = matches!(size, Size::Double);
    let is_narrow = matches!(size, Size::Byte | Size::Half);
    (opc < 2) | ((opc == 2) & (prefetches | !is_double)) | ((2 < opc) & is_narrow)
}

/// What opc does at a size, in a form that has prefetches or has not.
fn transfer(size: Size, opc: u32, prefetches: bool) -> Option<Transfer>
    ensures value { result ≡ transfer size opc prefetches }
    ensures can { IfSome result (λ t. IsTrue (may_transfer size t prefetches)) }
{
    if !has_opc(size, opc, prefetches) {
        return None;
    }
    if (opc == 2) & matches!(size, Size::Double) {
        return Some(Transfer::Prefetch);
    }
    Some(match opc {
        0 => Transfer::Store,
        1 => Transfer::Load,
        2 => Transfer::LoadSigned64,
        _ => Transfer::LoadSigned32,
    })
}

/// Whether the base, if it is written back, is the stack pointer or no register that is moved.
fn may_write_back(indexing: Indexing, rn: Reg, rt: Reg) -> bool
    ensures { result ≡ may_write_back indexing rn rt }
{
    is_offset(indexing) | is_31(rn) | !is_same(rn, rt)
}

pub fn load_store_unsigned(word: u32) -> Option<Instr>
    ensures value { result ≡ load_store_unsigned word }
    ensures widths { IfSome result HasWidths }
{
    let size = size(bits(word, 31, 30));
    let transfer = transfer(size, bits(word, 23, 22), true)?;
    Some(Instr::LoadStoreUnsigned(LoadStoreUnsigned {
        aligned: WORD_ALIGNED,
        size,
        transfer,
        imm12: bits(word, 21, 10) as u16,
        rn: reg(word, 5),
        rt: reg(word, 0),
    }))
}

pub fn load_store_indexed(indexing: Indexing, word: u32) -> Option<Instr>
    ensures value { result ≡ load_store_indexed indexing word }
    ensures widths { IfSome result HasWidths }
{
    let rn = reg(word, 5);
    let rt = reg(word, 0);
    if !may_write_back(indexing, rn, rt) {
        return None;
    }
    let size = size(bits(word, 31, 30));
    let transfer = transfer(size, bits(word, 23, 22), is_offset(indexing))?;
    Some(Instr::LoadStoreIndexed(LoadStoreIndexed {
        aligned: WORD_ALIGNED,
        imm9: bits(word, 20, 12) as u16,
        size,
        transfer,
        indexing,
        rn,
        rt,
    }))
}

pub fn load_store_register(word: u32) -> Option<Instr>
    ensures value { result ≡ load_store_register word }
    ensures widths { IfSome result HasWidths }
{
    if !bit(word, 14) {
        return None;
    }
    let size = size(bits(word, 31, 30));
    let transfer = transfer(size, bits(word, 23, 22), true)?;
    Some(Instr::LoadStoreRegister(LoadStoreRegister {
        aligned: WORD_ALIGNED,
        size,
        transfer,
        extend: extend(bits(word, 15, 13)),
        scaled: bit(word, 12),
        rm: reg(word, 16),
        rn: reg(word, 5),
        rt: reg(word, 0),
    }))
}

fn literal_kind(opc: u32) -> LiteralKind
    ensures { result ≡ literal_kind opc }
{
    match opc {
        0 => LiteralKind::Word,
        1 => LiteralKind::Double,
        2 => LiteralKind::SignedWord,
        _ => LiteralKind::Prefetch,
    }
}

pub fn load_literal(word: u32) -> Option<Instr>
    ensures value { result ≡ load_literal word }
    ensures widths { IfSome result HasWidths }
{
    Some(Instr::LoadLiteral(LoadLiteral {
        imm19: bits(word, 23, 5),
        kind: literal_kind(bits(word, 31, 30)),
        rt: reg(word, 0),
    }))
}

/// The pairs that are loaded, by opc.
static LOADED_PAIRS: [Option<PairKind>; 4] = [
    Some(PairKind::Word),
    Some(PairKind::SignedWord),
    Some(PairKind::Double),
    None,
];

/// The pairs that are stored, by opc.
static STORED_PAIRS: [Option<PairKind>; 4] = [
    Some(PairKind::Word),
    None,
    Some(PairKind::Double),
    None,
];

fn pair_kind(opc: u32, load: bool) -> Option<PairKind>
    requires { opc < 4 }
    ensures value { result ≡ pair_kind opc load }
    ensures signed { IfSome result (λ kind. IsTrue (is_pair_kind kind load)) }
{
    if load {
        LOADED_PAIRS[opc as usize]
    } else {
        STORED_PAIRS[opc as usize]
    }
}

/// Whether a load into two registers has two different ones.
pub fn may_pair(load: bool, rt: Reg, rt2: Reg) -> bool
    ensures { result ≡ may_pair load rt rt2 }
{
    !(load && is_same(rt, rt2))
}

pub fn load_store_pair(indexing: Indexing, word: u32) -> Option<Instr>
    ensures value { result ≡ load_store_pair indexing word }
    ensures widths { IfSome result HasWidths }
{
    let load = bit(word, 22);
    let rn = reg(word, 5);
    let rt = reg(word, 0);
    let rt2 = reg(word, 10);
    if !(may_write_back(indexing, rn, rt)
        & may_write_back(indexing, rn, rt2)
        & may_pair(load, rt, rt2))
    {
        return None;
    }
    let kind = pair_kind(bits(word, 31, 30), load)?;
    Some(Instr::LoadStorePair(LoadStorePair {
        aligned: WORD_ALIGNED,
        kind,
        load,
        indexing,
        imm7: bits(word, 21, 15) as u8,
        rt2,
        rn,
        rt,
    }))
}

/// Whether the status goes to a register that is neither stored nor the base.
fn may_take_status(rs: Reg, rt: Reg, rn: Reg) -> bool
    ensures { result ≡ may_take_status rs rt rn }
{
    !is_same(rs, rt) && (is_31(rn) || !is_same(rs, rn))
}

pub fn store_exclusive(word: u32) -> Option<Instr>
    ensures value { result ≡ store_exclusive word }
    ensures widths { IfSome result HasWidths }
{
    let rs = reg(word, 16);
    let rn = reg(word, 5);
    let rt = reg(word, 0);
    if !may_take_status(rs, rt, rn) {
        return None;
    }
    Some(Instr::StoreExclusive(StoreExclusive {
        aligned: WORD_ALIGNED,
        size: size(bits(word, 31, 30)),
        rs,
        rn,
        rt,
    }))
}

pub fn load_exclusive(word: u32) -> Option<Instr>
    ensures value { result ≡ load_exclusive word }
    ensures widths { IfSome result HasWidths }
{
    Some(Instr::LoadExclusive(LoadExclusive {
        aligned: WORD_ALIGNED,
        size: size(bits(word, 31, 30)),
        rn: reg(word, 5),
        rt: reg(word, 0),
    }))
}

pub fn store_ordered(word: u32) -> Option<Instr>
    ensures value { result ≡ store_ordered word }
    ensures widths { IfSome result HasWidths }
{
    Some(Instr::StoreOrdered(StoreOrdered {
        aligned: WORD_ALIGNED,
        size: size(bits(word, 31, 30)),
        rn: reg(word, 5),
        rt: reg(word, 0),
    }))
}

pub fn load_ordered(word: u32) -> Option<Instr>
    ensures value { result ≡ load_ordered word }
    ensures widths { IfSome result HasWidths }
{
    Some(Instr::LoadOrdered(LoadOrdered {
        aligned: WORD_ALIGNED,
        size: size(bits(word, 31, 30)),
        rn: reg(word, 5),
        rt: reg(word, 0),
    }))
}

pub fn compare_swap(word: u32) -> Option<Instr>
    ensures value { result ≡ compare_swap word }
    ensures widths { IfSome result HasWidths }
{
    Some(Instr::CompareSwap(CompareSwap {
        aligned: WORD_ALIGNED,
        size: size(bits(word, 31, 30)),
        rs: reg(word, 16),
        rn: reg(word, 5),
        rt: reg(word, 0),
    }))
}

pub fn atomic(op: AtomicOp, word: u32) -> Option<Instr>
    ensures value { result ≡ atomic op word }
    ensures widths { IfSome result HasWidths }
{
    Some(Instr::Atomic(Atomic {
        aligned: WORD_ALIGNED,
        size: size(bits(word, 31, 30)),
        op,
        rs: reg(word, 16),
        rn: reg(word, 5),
        rt: reg(word, 0),
    }))
}
