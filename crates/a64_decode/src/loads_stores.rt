//! Loads and stores (DDI 0487, C4.1).
ghost use Rattle.std.specs.Prelude.{◌≡◌, bit_and, IfSome};
ghost use Rattle.std.specs.Option.{option_map};
ghost use Rattle.a64_model.specs.Rows.{form_of, row};
ghost use Rattle.a64_model.specs.Widths.{HasWidths};
ghost use Rattle.a64_model.specs.declared.rows.Form.TheVariants.{LoadStoreIndexed, LoadStorePair, Atomic};

use a64_model::bits::{bit, bits};
use a64_model::instr::Instr;
use a64_model::operands::{AtomicOp, Indexing};
use a64_model::read::loads_stores as read;

/// Exclusive and ordered accesses, and CAS.
pub fn exclusive_or_ordered(word: u32) -> Option<Instr>
    requires { bit_and word 0x3F00_0000 ≡ 0x0800_0000 }
    ensures row { result ≡ row word }
    ensures widths { IfSome result HasWidths }
{
    match word & 0x3FA0_0000 {
        0x0800_0000 => exclusive(word),
        0x0880_0000 => ordered(word),
        0x08A0_0000 => compare_swap(word),
        _ => None,
    }
}

/// Exclusive accesses.
fn exclusive(word: u32) -> Option<Instr>
    requires { bit_and word 0x3FA0_0000 ≡ 0x0800_0000 }
    ensures row { result ≡ row word }
    ensures widths { IfSome result HasWidths }
{
    match word & 0x3FE0_0000 {
        0x0800_0000 => store_exclusive(word),
        0x0840_0000 => load_exclusive(word),
        _ => None,
    }
}

/// STXR, and STLXR, which has bit 15 for its release semantics.
fn store_exclusive(word: u32) -> Option<Instr>
    requires { bit_and word 0x3FE0_0000 ≡ 0x0800_0000 }
    ensures row { result ≡ row word }
    ensures widths { IfSome result HasWidths }
{
    match word & 0x3FE0_FC00 {
        0x0800_7C00 | 0x0800_FC00 => read::store_exclusive(word),
        _ => None,
    }
}

/// LDXR, and LDAXR, which has bit 15 for its acquire semantics.
fn load_exclusive(word: u32) -> Option<Instr>
    requires { bit_and word 0x3FE0_0000 ≡ 0x0840_0000 }
    ensures row { result ≡ row word }
    ensures widths { IfSome result HasWidths }
{
    match word & 0x3FFF_FC00 {
        0x085F_7C00 | 0x085F_FC00 => read::load_exclusive(word),
        _ => None,
    }
}

/// STLR and LDAR.
fn ordered(word: u32) -> Option<Instr>
    requires { bit_and word 0x3FA0_0000 ≡ 0x0880_0000 }
    ensures row { result ≡ row word }
    ensures widths { IfSome result HasWidths }
{
    match word & 0x3FBF_FC00 {
        0x089F_FC00 => load_or_store_ordered(word),
        _ => None,
    }
}

/// STLR, and LDAR where bit 22 is set.
fn load_or_store_ordered(word: u32) -> Option<Instr>
    requires { bit_and word 0x3FBF_FC00 ≡ 0x089F_FC00 }
    ensures row { result ≡ row word }
    ensures widths { IfSome result HasWidths }
{
    if bit(word, 22) {
        read::load_ordered(word)
    } else {
        read::store_ordered(word)
    }
}

/// CAS.
fn compare_swap(word: u32) -> Option<Instr>
    requires { bit_and word 0x3FA0_0000 ≡ 0x08A0_0000 }
    ensures row { result ≡ row word }
    ensures widths { IfSome result HasWidths }
{
    match word & 0x3FA0_7C00 {
        0x08A0_7C00 => read::compare_swap(word),
        _ => None,
    }
}

/// How a pair makes its address, by bits 24 and 23. The first has other rules, and no row: it is not temporal.
static PAIR_INDEXINGS: [Option<Indexing>; 4] = [
    None,
    Some(Indexing::PostIndex),
    Some(Indexing::Offset),
    Some(Indexing::PreIndex),
];

/// How a pair makes its address.
fn pair_indexing(word: u32) -> Option<Indexing>
    requires { bit_and word 0x3E00_0000 ≡ 0x2800_0000 }
    ensures { form_of word ≡ option_map LoadStorePair result }
{
    PAIR_INDEXINGS[bits(word, 24, 23) as usize]
}

/// Pairs.
pub fn pair(word: u32) -> Option<Instr>
    requires { bit_and word 0x3E00_0000 ≡ 0x2800_0000 }
    ensures row { result ≡ row word }
    ensures widths { IfSome result HasWidths }
{
    read::load_store_pair(pair_indexing(word)?, word)
}

/// Accesses by a signed offset or a register, and atomic operations.
pub fn indexed_or_atomic(word: u32) -> Option<Instr>
    requires { bit_and word 0x3F00_0000 ≡ 0x3800_0000 }
    ensures row { result ≡ row word }
    ensures widths { IfSome result HasWidths }
{
    match word & 0x3F20_0000 {
        0x3800_0000 => indexed(word),
        0x3820_0000 => register_or_atomic(word),
        _ => None,
    }
}

/// How an access by a signed offset makes its address, by bits 11 and 10. The third has other rules, and no row.
static INDEXINGS: [Option<Indexing>; 4] = [
    Some(Indexing::Offset),
    Some(Indexing::PostIndex),
    None,
    Some(Indexing::PreIndex),
];

/// How an access by a signed offset makes its address.
fn indexing(word: u32) -> Option<Indexing>
    requires { bit_and word 0x3F20_0000 ≡ 0x3800_0000 }
    ensures { form_of word ≡ option_map LoadStoreIndexed result }
{
    INDEXINGS[bits(word, 11, 10) as usize]
}

/// Accesses by a signed offset.
fn indexed(word: u32) -> Option<Instr>
    requires { bit_and word 0x3F20_0000 ≡ 0x3800_0000 }
    ensures row { result ≡ row word }
    ensures widths { IfSome result HasWidths }
{
    read::load_store_indexed(indexing(word)?, word)
}

/// Accesses by a register, and atomic operations.
fn register_or_atomic(word: u32) -> Option<Instr>
    requires { bit_and word 0x3F20_0000 ≡ 0x3820_0000 }
    ensures row { result ≡ row word }
    ensures widths { IfSome result HasWidths }
{
    match word & 0x3F20_0C00 {
        0x3820_0000 => atomic(word),
        0x3820_0800 => read::load_store_register(word),
        _ => None,
    }
}

/// Which atomic operation it is.
fn atomic_op(word: u32) -> Option<AtomicOp>
    requires { bit_and word 0x3F20_0C00 ≡ 0x3820_0000 }
    ensures { form_of word ≡ option_map Atomic result }
{
    match word & 0x3F20_FC00 {
        0x3820_0000 => Some(AtomicOp::Add),
        0x3820_1000 => Some(AtomicOp::Clear),
        0x3820_2000 => Some(AtomicOp::ExclusiveOr),
        0x3820_3000 => Some(AtomicOp::Set),
        0x3820_8000 => Some(AtomicOp::Swap),
        _ => None,
    }
}

/// Atomic operations.
fn atomic(word: u32) -> Option<Instr>
    requires { bit_and word 0x3F20_0C00 ≡ 0x3820_0000 }
    ensures row { result ≡ row word }
    ensures widths { IfSome result HasWidths }
{
    read::atomic(atomic_op(word)?, word)
}
