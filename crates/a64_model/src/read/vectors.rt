//! Moves of vector registers.
ghost use Rattle.std.specs.Prelude.{◌≡◌, ◌<◌, ◌^◌, IsTrue, IfSome};
ghost use Rattle.a64_model.specs.VectorRows.{load_store_vector, load_store_vector_pair, element_size, may_duplicate, duplicate};
ghost use Rattle.a64_model.specs.Widths.{HasWidths};

use super::loads_stores::may_pair;
use super::operands::reg;
use crate::bits::{bit, bits};
use crate::instr::{Duplicate, Instr, LoadStoreVector, LoadStoreVectorPair, WORD_ALIGNED};
use crate::operands::Size;

pub fn load_store_vector(load: bool, word: u32) -> Option<Instr>
    ensures value { result ≡ load_store_vector load word }
    ensures widths { IfSome result HasWidths }
{
    Some(Instr::LoadStoreVector(LoadStoreVector {
        aligned: WORD_ALIGNED,
        load,
        imm12: bits(word, 21, 10) as u16,
        rn: reg(word, 5),
        rt: reg(word, 0),
    }))
}

pub fn load_store_vector_pair(load: bool, word: u32) -> Option<Instr>
    ensures value { result ≡ load_store_vector_pair load word }
    ensures widths { IfSome result HasWidths }
{
    let rt = reg(word, 0);
    let rt2 = reg(word, 10);
    if !may_pair(load, rt, rt2) {
        return None;
    }
    Some(Instr::LoadStoreVectorPair(LoadStoreVectorPair {
        aligned: WORD_ALIGNED,
        load,
        imm7: bits(word, 21, 15) as u8,
        rt2,
        rn: reg(word, 5),
        rt,
    }))
}

/// The size of an element, by the lowest bit that is set of bits 20 to 16.
fn element_size(word: u32) -> Option<Size>
    ensures { result ≡ element_size word }
{
    if bit(word, 16) {
        Some(Size::Byte)
    } else if bit(word, 17) {
        Some(Size::Half)
    } else if bit(word, 18) {
        Some(Size::Word)
    } else if bit(word, 19) {
        Some(Size::Double)
    } else {
        None
    }
}

/// Whether elements of this size fill the whole register, or its low half with more than one.
fn may_duplicate(size: Size, whole: bool) -> bool
    ensures { result ≡ may_duplicate size whole }
{
    match size {
        Size::Double => whole,
        Size::Byte | Size::Half | Size::Word => true,
    }
}

pub fn duplicate(word: u32) -> Option<Instr>
    ensures value { result ≡ duplicate word }
    ensures widths { IfSome result HasWidths }
{
    let size = element_size(word)?;
    let whole = bit(word, 30);
    if !may_duplicate(size, whole) {
        return None;
    }
    Some(Instr::Duplicate(Duplicate {
        aligned: WORD_ALIGNED,
        size,
        whole,
        rn: reg(word, 5),
        rd: reg(word, 0),
    }))
}
