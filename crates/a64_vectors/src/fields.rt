//! An instruction as its class and its fields with their names. A register is its number, and an enum the place of its variant.

use a64_model::instr::{ConditionalCompare, Instr};
use a64_model::operands::Comparand;
use std::alloc::{AllocError, Global};
use std::fmt::Write;

/// The class of an instruction, the names of its fields, with blanks between them, and their values, with zeros behind them.
#[derive(Clone, Copy)]
pub struct Fields {
    class: &'static str,
    names: &'static str,
    values: [u64; 8],
}

impl Fields {
    /// Whether these are the same class and values.
    pub fn are_those_of(&self, other: &Fields) -> bool {
        self.class == other.class && self.values == other.values
    }

    /// The class and each field with its value.
    pub fn to_text(&self, alloc: Global) -> Result<String, AllocError> {
        let mut text = String::from_str(alloc, self.class)?;
        for (name, value) in self.names.split_whitespace().zip(&self.values) {
            write!(text, " {name}={value:X}")?;
        }
        Ok(text)
    }
}

/// A class, the names of its fields, and these fields of a value as numbers.
macro_rules! fields {
    ($value:ident $class:literal $names:literal => $($($field:ident).+),*) => {
        Fields { class: $class, names: $names, values: padded(&[$($value.$($field).+ as u64),*]) }
    };
}

/// A class without fields.
fn bare(class: &'static str) -> Fields {
    Fields {
        class,
        names: "",
        values: [0; 8],
    }
}

/// The class of an instruction and its fields.
pub fn fields_of(instr: Instr) -> Fields {
    match instr {
        Instr::PcRelative(i) => fields!(i "pc-relative" "imm21 page rd" => imm21, page, rd.number),
        Instr::AddImmediate(i) =>
            fields!(i "add-immediate" "width op set-flags shifted imm12 rn rd" => width, op, set_flags, shifted, imm12, rn.number, rd.number),
        Instr::LogicalImmediate(i) =>
            fields!(i "logical-immediate" "width op n immr imms rn rd" => width, op, n, immr, imms, rn.number, rd.number),
        Instr::MoveWide(i) =>
            fields!(i "move-wide" "width op imm16 hw rd" => width, op, imm16, hw, rd.number),
        Instr::Bitfield(i) =>
            fields!(i "bitfield" "width op immr imms rn rd" => width, op, immr, imms, rn.number, rd.number),
        Instr::Extract(i) =>
            fields!(i "extract" "width imms rm rn rd" => width, imms, rm.number, rn.number, rd.number),
        Instr::Branch(i) => fields!(i "branch" "imm26 link" => imm26, link),
        Instr::BranchConditional(i) =>
            fields!(i "branch-conditional" "imm19 condition" => imm19, condition),
        Instr::CompareBranch(i) =>
            fields!(i "compare-branch" "imm19 width nonzero rt" => imm19, width, nonzero, rt.number),
        Instr::TestBranch(i) =>
            fields!(i "test-branch" "set bit-number imm14 rt" => set, bit_number, imm14, rt.number),
        Instr::BranchRegister(i) => fields!(i "branch-register" "kind rn" => kind, rn.number),
        Instr::SupervisorCall => bare("supervisor-call"),
        Instr::Breakpoint => bare("breakpoint"),
        Instr::Hint => bare("hint"),
        Instr::ClearExclusive => bare("clear-exclusive"),
        Instr::Barrier => bare("barrier"),
        Instr::ReadThreadPointer(i) => fields!(i "read-thread-pointer" "rt" => rt.number),
        Instr::WriteThreadPointer(i) => fields!(i "write-thread-pointer" "rt" => rt.number),
        Instr::LogicalShifted(i) =>
            fields!(i "logical-shifted" "width op invert shift amount rm rn rd" => width, op, invert, shift, amount, rm.number, rn.number, rd.number),
        Instr::AddShifted(i) =>
            fields!(i "add-shifted" "width op set-flags shift amount rm rn rd" => width, op, set_flags, shift, amount, rm.number, rn.number, rd.number),
        Instr::AddExtended(i) =>
            fields!(i "add-extended" "width op set-flags extend amount rm rn rd" => width, op, set_flags, extend, amount, rm.number, rn.number, rd.number),
        Instr::AddCarry(i) =>
            fields!(i "add-carry" "width op set-flags rm rn rd" => width, op, set_flags, rm.number, rn.number, rd.number),
        Instr::ConditionalCompare(i) => conditional_compare(i),
        Instr::ConditionalSelect(i) =>
            fields!(i "conditional-select" "width op condition rm rn rd" => width, op, condition, rm.number, rn.number, rd.number),
        Instr::OneSource(i) =>
            fields!(i "one-source" "width op rn rd" => width, op, rn.number, rd.number),
        Instr::ReverseBytes(i) => fields!(i "reverse-bytes" "rn rd" => rn.number, rd.number),
        Instr::TwoSource(i) =>
            fields!(i "two-source" "width op rm rn rd" => width, op, rm.number, rn.number, rd.number),
        Instr::MultiplyAdd(i) =>
            fields!(i "multiply-add" "width op rm ra rn rd" => width, op, rm.number, ra.number, rn.number, rd.number),
        Instr::MultiplyLong(i) =>
            fields!(i "multiply-long" "signed op rm ra rn rd" => signed, op, rm.number, ra.number, rn.number, rd.number),
        Instr::MultiplyHigh(i) =>
            fields!(i "multiply-high" "signed rm rn rd" => signed, rm.number, rn.number, rd.number),
        Instr::LoadStoreUnsigned(i) =>
            fields!(i "load-store-unsigned" "size transfer imm12 rn rt" => size, transfer, imm12, rn.number, rt.number),
        Instr::LoadStoreIndexed(i) =>
            fields!(i "load-store-indexed" "imm9 size transfer indexing rn rt" => imm9, size, transfer, indexing, rn.number, rt.number),
        Instr::LoadStoreRegister(i) =>
            fields!(i "load-store-register" "size transfer extend scaled rm rn rt" => size, transfer, extend, scaled, rm.number, rn.number, rt.number),
        Instr::LoadLiteral(i) =>
            fields!(i "load-literal" "imm19 kind rt" => imm19, kind, rt.number),
        Instr::LoadStorePair(i) =>
            fields!(i "load-store-pair" "kind load indexing imm7 rt2 rn rt" => kind, load, indexing, imm7, rt2.number, rn.number, rt.number),
        Instr::StoreExclusive(i) =>
            fields!(i "store-exclusive" "size rs rn rt" => size, rs.number, rn.number, rt.number),
        Instr::LoadExclusive(i) =>
            fields!(i "load-exclusive" "size rn rt" => size, rn.number, rt.number),
        Instr::StoreOrdered(i) =>
            fields!(i "store-ordered" "size rn rt" => size, rn.number, rt.number),
        Instr::LoadOrdered(i) =>
            fields!(i "load-ordered" "size rn rt" => size, rn.number, rt.number),
        Instr::CompareSwap(i) =>
            fields!(i "compare-swap" "size rs rn rt" => size, rs.number, rn.number, rt.number),
        Instr::Atomic(i) =>
            fields!(i "atomic" "size op rs rn rt" => size, op, rs.number, rn.number, rt.number),
        Instr::LoadStoreVector(i) =>
            fields!(i "load-store-vector" "load imm12 rn rt" => load, imm12, rn.number, rt.number),
        Instr::LoadStoreVectorPair(i) =>
            fields!(i "load-store-vector-pair" "load imm7 rt2 rn rt" => load, imm7, rt2.number, rn.number, rt.number),
        Instr::Duplicate(i) =>
            fields!(i "duplicate" "size whole rn rd" => size, whole, rn.number, rd.number),
    }
}

/// The same of a comparison under a condition; before the comparand stands whether it is an immediate.
fn conditional_compare(i: ConditionalCompare) -> Fields {
    let (immediate, comparand) = match i.comparand {
        Comparand::Register(rm) => (false, rm.number),
        Comparand::Immediate(imm5) => (true, imm5),
    };
    Fields {
        class: "conditional-compare",
        names: "width op immediate comparand condition nzcv rn",
        values: [
            i.width as u64,
            i.op as u64,
            immediate as u64,
            comparand as u64,
            i.condition as u64,
            i.nzcv as u64,
            i.rn.number as u64,
            0,
        ],
    }
}

/// These numbers, and then zeros.
fn padded(numbers: &[u64]) -> [u64; 8] {
    let mut all = [0; 8];
    for (place, number) in all.iter_mut().zip(numbers) {
        *place = *number;
    }
    all
}
