//! Decodes A64 words by nested masks, from the main encoding groups of the Arm manual (DDI 0487, C4.1) down.
//!
//! Each function knows the bits that were tested so far, by its `requires`, and tests more of them. What it answers
//! is what the table of rows says of the word, so a test that is wrong or comes too early has no proof.
//!
//! A processor predicts one branch of many targets better than a chain of branches, and a value needs no prediction. So
//! `decode` tells the groups apart by the whole first byte, and where several rows have one layout, what tells them apart
//! is computed: from a bit, as in `branch`, or from a table that a field indexes, as in `indexing`.
#![tactic(auto)]

ghost use Rattle.std.specs.Prelude.{◌≡◌, IfSome};
ghost use Rattle.a64_model.specs.Rows.{row};
ghost use Rattle.a64_model.specs.Widths.{HasWidths};

use a64_model::instr::Instr;
use a64_model::read;

mod branches;
mod data_registers;
mod immediates;
mod loads_stores;
mod vectors;

/// The instruction of the row that the word fits, with its fields, and none exactly where no row fits. The first byte,
/// bits 31 to 24, tells the encoding groups apart; the bits of it that are free in a group are the group's operands.
pub fn decode(word: u32) -> Option<Instr>
    ensures row { result ≡ row word }
    ensures widths { IfSome result HasWidths }
{
    match word >> 24 {
        // Data processing with immediates
        0x10 | 0x30 | 0x50 | 0x70 | 0x90 | 0xB0 | 0xD0 | 0xF0 => immediates::pc_relative(word),
        0x11 | 0x31 | 0x51 | 0x71 | 0x91 | 0xB1 | 0xD1 | 0xF1 => immediates::add_immediate(word),
        0x12 | 0x32 | 0x52 | 0x72 | 0x92 | 0xB2 | 0xD2 | 0xF2 => immediates::logical_or_move(word),
        0x13 | 0x33 | 0x53 | 0x73 | 0x93 | 0xB3 | 0xD3 | 0xF3 => {
            immediates::bitfield_or_extract(word)
        }
        // Branches, exception generating and system instructions. Bytes that follow one another stand in two arms, since a
        // row of bytes would be compared with first, and not jumped to.
        0x14 | 0x16 | 0x94 | 0x96 => branches::branch(word),
        0x15 | 0x17 | 0x95 | 0x97 => branches::branch(word),
        0x34 | 0xB4 => branches::compare_branch(word),
        0x35 | 0xB5 => branches::compare_branch(word),
        0x36 | 0xB6 => branches::test_branch(word),
        0x37 | 0xB7 => branches::test_branch(word),
        0x54 => branches::conditional(word),
        0xD4 => branches::exception(word),
        0xD5 => branches::system(word),
        0xD6 => branches::branch_register(word),
        // Loads and stores
        0x08 | 0x48 | 0x88 | 0xC8 => loads_stores::exclusive_or_ordered(word),
        0x18 | 0x58 | 0x98 | 0xD8 => read::loads_stores::load_literal(word),
        0x28 | 0x68 | 0xA8 | 0xE8 => loads_stores::pair(word),
        0x29 | 0x69 | 0xA9 | 0xE9 => loads_stores::pair(word),
        0x38 | 0x78 | 0xB8 | 0xF8 => loads_stores::indexed_or_atomic(word),
        0x39 | 0x79 | 0xB9 | 0xF9 => read::loads_stores::load_store_unsigned(word),
        // Data processing with registers
        0x0A | 0x2A | 0x4A | 0x6A | 0x8A | 0xAA | 0xCA | 0xEA => {
            read::data_registers::logical_shifted(word)
        }
        0x0B | 0x2B | 0x4B | 0x6B | 0x8B | 0xAB | 0xCB | 0xEB => data_registers::add_register(word),
        0x1A | 0x9A => data_registers::select_or_two_source(word),
        0x5A | 0xDA => data_registers::select_or_one_source(word),
        0x3A | 0x7A | 0xBA | 0xFA => data_registers::carry_or_compare(word),
        0x1B => data_registers::three_source_w(word),
        0x9B => data_registers::three_source_x(word),
        // Moves of vector registers
        0x0E | 0x4E => vectors::duplicate(word),
        0x3D => vectors::load_store(word),
        0xAD => vectors::pair(word),
        _ => None,
    }
}
