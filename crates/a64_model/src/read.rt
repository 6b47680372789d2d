//! The plain reader: it looks at each row in turn, and then reads the fields of the form.
ghost use Rattle.std.specs.Prelude.{◌≡◌, ◌*◌, ◌^◌, ◌<◌, ◌≤◌, IsTrue, IfSome};
ghost use Rattle.a64_model.specs.Fields.{fields};
ghost use Rattle.a64_model.specs.Rows.{form_among, form_of, row, AtMostOneRow};
ghost use Rattle.a64_model.specs.Widths.{HasWidths};

use crate::instr::Instr;
use crate::rows::{Form, ROWS, Row};

pub mod branches;
pub mod data_registers;
pub mod immediates;
pub mod loads_stores;
pub mod operands;
pub mod vectors;

use branches::{
    branch, branch_conditional, branch_register, compare_branch, read_thread_pointer, test_branch,
    write_thread_pointer,
};
use data_registers::{
    add_carry, add_extended, add_shifted, conditional_compare_immediate,
    conditional_compare_register, conditional_select, logical_shifted, multiply_add, multiply_high,
    multiply_long, one_source, reverse_bytes, two_source,
};
use immediates::{add_immediate, bitfield, extract, logical_immediate, move_wide, pc_relative};
use loads_stores::{
    atomic, compare_swap, load_exclusive, load_literal, load_ordered, load_store_indexed,
    load_store_pair, load_store_register, load_store_unsigned, store_exclusive, store_ordered,
};
use vectors::{duplicate, load_store_vector, load_store_vector_pair};

/// The instruction of a word of this form, or none where the form's condition fails.
pub fn fields(form: Form, word: u32) -> Option<Instr>
    ensures value { result ≡ fields form word }
    ensures widths { IfSome result HasWidths }
{
    match form {
        Form::PcRelative { page } => pc_relative(page, word),
        Form::AddImmediate => add_immediate(word),
        Form::LogicalImmediate => logical_immediate(word),
        Form::MoveWide => move_wide(word),
        Form::Bitfield => bitfield(word),
        Form::Extract => extract(word),
        Form::Branch { link } => branch(link, word),
        Form::BranchConditional => branch_conditional(word),
        Form::CompareBranch { nonzero } => compare_branch(nonzero, word),
        Form::TestBranch { set } => test_branch(set, word),
        Form::BranchRegister(kind) => branch_register(kind, word),
        Form::SupervisorCall => Some(Instr::SupervisorCall),
        Form::Breakpoint => Some(Instr::Breakpoint),
        Form::Hint => Some(Instr::Hint),
        Form::ClearExclusive => Some(Instr::ClearExclusive),
        Form::Barrier => Some(Instr::Barrier),
        Form::ReadThreadPointer => read_thread_pointer(word),
        Form::WriteThreadPointer => write_thread_pointer(word),
        Form::LogicalShifted => logical_shifted(word),
        Form::AddShifted => add_shifted(word),
        Form::AddExtended => add_extended(word),
        Form::AddCarry => add_carry(word),
        Form::ConditionalCompareRegister => conditional_compare_register(word),
        Form::ConditionalCompareImmediate => conditional_compare_immediate(word),
        Form::ConditionalSelect => conditional_select(word),
        Form::OneSource(op) => one_source(op, word),
        Form::ReverseBytes => reverse_bytes(word),
        Form::TwoSource(op) => two_source(op, word),
        Form::MultiplyAdd(op) => multiply_add(op, word),
        Form::MultiplyLong { signed, op } => multiply_long(signed, op, word),
        Form::MultiplyHigh { signed } => multiply_high(signed, word),
        Form::LoadStoreUnsigned => load_store_unsigned(word),
        Form::LoadStoreIndexed(indexing) => load_store_indexed(indexing, word),
        Form::LoadStoreRegister => load_store_register(word),
        Form::LoadLiteral => load_literal(word),
        Form::LoadStorePair(indexing) => load_store_pair(indexing, word),
        Form::StoreExclusive => store_exclusive(word),
        Form::LoadExclusive => load_exclusive(word),
        Form::StoreOrdered => store_ordered(word),
        Form::LoadOrdered => load_ordered(word),
        Form::CompareSwap => compare_swap(word),
        Form::Atomic(op) => atomic(op, word),
        Form::LoadStoreVector { load } => load_store_vector(load, word),
        Form::LoadStoreVectorPair { load } => load_store_vector_pair(load, word),
        Form::Duplicate => duplicate(word),
    }
}

/// The form of the first of these rows that the word fits.
fn form_among(rows: &[Row], word: u32) -> Option<Form>
    ensures { result ≡ form_among rows.now word }
{
    rows.iter()
        .find(|row| word & row.mask == row.value)
        .map(|row| row.form)
}

/// The form of the row of the table that the word fits.
#[tactic(auto, unfolding(crate::specs::Rows::form_of))]
fn form_of(word: u32) -> Option<Form>
    ensures { result ≡ form_of word }
{
    form_among(&ROWS, word)
}

/// The instruction of the row that the word fits, with its fields, and none exactly where no row fits. No word fits
/// two rows.
#[tactic(auto, using(crate::proofs::ApartLemmas::at_most_one))]
pub fn read_row(word: u32) -> Option<Instr>
    ensures row { result ≡ row word }
    ensures widths { IfSome result HasWidths }
    ensures one { AtMostOneRow word }
{
    fields(form_of(word)?, word)
}
