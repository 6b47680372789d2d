//! The table of rows: which words are which instructions.

use crate::operands::{AddOp, AtomicOp, BranchKind, Indexing, OneSourceOp, TwoSourceOp};

/// What a row's words are. A variant is a layout of fields; what it carries tells apart the rows of one layout.
#[derive(Clone, Copy)]
pub enum Form {
    PcRelative { page: bool },
    AddImmediate,
    LogicalImmediate,
    MoveWide,
    Bitfield,
    Extract,
    Branch { link: bool },
    BranchConditional,
    CompareBranch { nonzero: bool },
    TestBranch { set: bool },
    BranchRegister(BranchKind),
    SupervisorCall,
    Breakpoint,
    Hint,
    ClearExclusive,
    Barrier,
    ReadThreadPointer,
    WriteThreadPointer,
    LogicalShifted,
    AddShifted,
    AddExtended,
    AddCarry,
    ConditionalCompareRegister,
    ConditionalCompareImmediate,
    ConditionalSelect,
    OneSource(OneSourceOp),
    ReverseBytes,
    TwoSource(TwoSourceOp),
    MultiplyAdd(AddOp),
    MultiplyLong { signed: bool, op: AddOp },
    MultiplyHigh { signed: bool },
    LoadStoreUnsigned,
    LoadStoreIndexed(Indexing),
    LoadStoreRegister,
    LoadLiteral,
    LoadStorePair(Indexing),
    StoreExclusive,
    LoadExclusive,
    StoreOrdered,
    LoadOrdered,
    CompareSwap,
    Atomic(AtomicOp),
    LoadStoreVector { load: bool },
    LoadStoreVectorPair { load: bool },
    Duplicate,
}

/// A row: a word fits it where the bits of the mask have the row's value and the condition of its form holds.
#[derive(Clone, Copy)]
pub struct Row {
    pub mask: u32,
    pub value: u32,
    pub form: Form,
}

/// A row by its mask, its value and its form.
macro_rules! row {
    ($mask:literal, $value:literal => $form:expr) => {
        Row { mask: $mask, value: $value, form: $form }
    };
}

/// All rows, by the encoding groups of DDI 0487, C4.1. No two of them fit one word.
pub const ROWS: [Row; 79] = [
    // Data processing -- immediate
    row!(0x9F00_0000, 0x1000_0000 => Form::PcRelative { page: false }), // ADR
    row!(0x9F00_0000, 0x9000_0000 => Form::PcRelative { page: true }), // ADRP
    row!(0x1F80_0000, 0x1100_0000 => Form::AddImmediate), // ADD, SUB (immediate)
    row!(0x1F80_0000, 0x1200_0000 => Form::LogicalImmediate), // AND, ORR, EOR, ANDS (immediate)
    row!(0x1F80_0000, 0x1280_0000 => Form::MoveWide), // MOVN, MOVZ, MOVK
    row!(0x1F80_0000, 0x1300_0000 => Form::Bitfield), // SBFM, BFM, UBFM
    row!(0x7FA0_0000, 0x1380_0000 => Form::Extract), // EXTR
    // Branches, exception generating and system instructions
    row!(0xFC00_0000, 0x1400_0000 => Form::Branch { link: false }), // B
    row!(0xFC00_0000, 0x9400_0000 => Form::Branch { link: true }), // BL
    row!(0xFF00_0010, 0x5400_0000 => Form::BranchConditional), // B.cond
    row!(0x7F00_0000, 0x3400_0000 => Form::CompareBranch { nonzero: false }), // CBZ
    row!(0x7F00_0000, 0x3500_0000 => Form::CompareBranch { nonzero: true }), // CBNZ
    row!(0x7F00_0000, 0x3600_0000 => Form::TestBranch { set: false }), // TBZ
    row!(0x7F00_0000, 0x3700_0000 => Form::TestBranch { set: true }), // TBNZ
    row!(0xFFFF_FC1F, 0xD61F_0000 => Form::BranchRegister(BranchKind::Jump)), // BR
    row!(0xFFFF_FC1F, 0xD63F_0000 => Form::BranchRegister(BranchKind::Call)), // BLR
    row!(0xFFFF_FC1F, 0xD65F_0000 => Form::BranchRegister(BranchKind::Return)), // RET
    row!(0xFFE0_001F, 0xD400_0001 => Form::SupervisorCall), // SVC
    row!(0xFFE0_001F, 0xD420_0000 => Form::Breakpoint), // BRK
    row!(0xFFFF_F01F, 0xD503_201F => Form::Hint), // NOP and every other hint
    row!(0xFFFF_F0FF, 0xD503_305F => Form::ClearExclusive), // CLREX
    row!(0xFFFF_F0FF, 0xD503_309F => Form::Barrier), // DSB, SSBB and PSSBB
    row!(0xFFFF_F0FF, 0xD503_30BF => Form::Barrier), // DMB
    row!(0xFFFF_F0FF, 0xD503_30DF => Form::Barrier), // ISB
    row!(0xFFFF_FFE0, 0xD53B_D040 => Form::ReadThreadPointer), // MRS TPIDR_EL0
    row!(0xFFFF_FFE0, 0xD51B_D040 => Form::WriteThreadPointer), // MSR TPIDR_EL0
    // Data processing -- register
    row!(0x1F00_0000, 0x0A00_0000 => Form::LogicalShifted), // AND .. BICS (shifted register)
    row!(0x1F20_0000, 0x0B00_0000 => Form::AddShifted), // ADD, SUB (shifted register)
    row!(0x1FE0_0000, 0x0B20_0000 => Form::AddExtended), // ADD, SUB (extended register)
    row!(0x1FE0_FC00, 0x1A00_0000 => Form::AddCarry), // ADC, SBC
    row!(0x3FE0_0C10, 0x3A40_0000 => Form::ConditionalCompareRegister), // CCMN, CCMP (register)
    row!(0x3FE0_0C10, 0x3A40_0800 => Form::ConditionalCompareImmediate), // CCMN, CCMP (immediate)
    row!(0x3FE0_0800, 0x1A80_0000 => Form::ConditionalSelect), // CSEL, CSINC, CSINV, CSNEG
    row!(0x7FFF_FC00, 0x5AC0_0000 => Form::OneSource(OneSourceOp::ReverseBits)), // RBIT
    row!(0x7FFF_FC00, 0x5AC0_0400 => Form::OneSource(OneSourceOp::ReverseBytesOfHalves)), // REV16
    row!(0x7FFF_FC00, 0x5AC0_0800 => Form::OneSource(OneSourceOp::ReverseBytesOfWords)), // REV32
    row!(0x7FFF_FC00, 0x5AC0_1000 => Form::OneSource(OneSourceOp::CountLeadingZeros)), // CLZ
    row!(0x7FFF_FC00, 0x5AC0_1400 => Form::OneSource(OneSourceOp::CountLeadingSigns)), // CLS
    row!(0xFFFF_FC00, 0xDAC0_0C00 => Form::ReverseBytes), // REV (64-bit)
    row!(0x7FE0_FC00, 0x1AC0_0800 => Form::TwoSource(TwoSourceOp::UnsignedDivide)), // UDIV
    row!(0x7FE0_FC00, 0x1AC0_0C00 => Form::TwoSource(TwoSourceOp::SignedDivide)), // SDIV
    row!(0x7FE0_FC00, 0x1AC0_2000 => Form::TwoSource(TwoSourceOp::ShiftLeft)), // LSLV
    row!(0x7FE0_FC00, 0x1AC0_2400 => Form::TwoSource(TwoSourceOp::ShiftRight)), // LSRV
    row!(0x7FE0_FC00, 0x1AC0_2800 => Form::TwoSource(TwoSourceOp::ShiftRightSigned)), // ASRV
    row!(0x7FE0_FC00, 0x1AC0_2C00 => Form::TwoSource(TwoSourceOp::RotateRight)), // RORV
    row!(0x7FE0_8000, 0x1B00_0000 => Form::MultiplyAdd(AddOp::Add)), // MADD
    row!(0x7FE0_8000, 0x1B00_8000 => Form::MultiplyAdd(AddOp::Subtract)), // MSUB
    row!(0xFFE0_8000, 0x9B20_0000 => Form::MultiplyLong { signed: true, op: AddOp::Add }), // SMADDL
    row!(0xFFE0_8000, 0x9B20_8000 => Form::MultiplyLong { signed: true, op: AddOp::Subtract }), // SMSUBL
    row!(0xFFE0_8000, 0x9BA0_0000 => Form::MultiplyLong { signed: false, op: AddOp::Add }), // UMADDL
    row!(0xFFE0_8000, 0x9BA0_8000 => Form::MultiplyLong { signed: false, op: AddOp::Subtract }), // UMSUBL
    row!(0xFFE0_FC00, 0x9B40_7C00 => Form::MultiplyHigh { signed: true }), // SMULH
    row!(0xFFE0_FC00, 0x9BC0_7C00 => Form::MultiplyHigh { signed: false }), // UMULH
    // Loads and stores
    row!(0x3F00_0000, 0x3900_0000 => Form::LoadStoreUnsigned), // LDR, STR and their kin, PRFM (unsigned offset)
    row!(0x3F20_0C00, 0x3800_0000 => Form::LoadStoreIndexed(Indexing::Offset)), // LDUR, STUR and their kin, PRFUM
    row!(0x3F20_0C00, 0x3800_0400 => Form::LoadStoreIndexed(Indexing::PostIndex)), // LDR, STR and their kin (post-index)
    row!(0x3F20_0C00, 0x3800_0C00 => Form::LoadStoreIndexed(Indexing::PreIndex)), // LDR, STR and their kin (pre-index)
    row!(0x3F20_0C00, 0x3820_0800 => Form::LoadStoreRegister), // LDR, STR and their kin, PRFM (register offset)
    row!(0x3F00_0000, 0x1800_0000 => Form::LoadLiteral), // LDR, LDRSW, PRFM (literal)
    row!(0x3F80_0000, 0x2880_0000 => Form::LoadStorePair(Indexing::PostIndex)), // LDP, STP, LDPSW (post-index)
    row!(0x3F80_0000, 0x2900_0000 => Form::LoadStorePair(Indexing::Offset)), // LDP, STP, LDPSW (signed offset)
    row!(0x3F80_0000, 0x2980_0000 => Form::LoadStorePair(Indexing::PreIndex)), // LDP, STP, LDPSW (pre-index)
    row!(0x3FE0_FC00, 0x0800_7C00 => Form::StoreExclusive), // STXR and its kin
    row!(0x3FE0_FC00, 0x0800_FC00 => Form::StoreExclusive), // STLXR and its kin
    row!(0x3FFF_FC00, 0x085F_7C00 => Form::LoadExclusive), // LDXR and its kin
    row!(0x3FFF_FC00, 0x085F_FC00 => Form::LoadExclusive), // LDAXR and its kin
    row!(0x3FFF_FC00, 0x089F_FC00 => Form::StoreOrdered), // STLR and its kin
    row!(0x3FFF_FC00, 0x08DF_FC00 => Form::LoadOrdered), // LDAR and its kin
    row!(0x3FA0_7C00, 0x08A0_7C00 => Form::CompareSwap), // CAS and its kin, with A and L
    row!(0x3F20_FC00, 0x3820_0000 => Form::Atomic(AtomicOp::Add)), // LDADD and its kin
    row!(0x3F20_FC00, 0x3820_1000 => Form::Atomic(AtomicOp::Clear)), // LDCLR and its kin
    row!(0x3F20_FC00, 0x3820_2000 => Form::Atomic(AtomicOp::ExclusiveOr)), // LDEOR and its kin
    row!(0x3F20_FC00, 0x3820_3000 => Form::Atomic(AtomicOp::Set)), // LDSET and its kin
    row!(0x3F20_FC00, 0x3820_8000 => Form::Atomic(AtomicOp::Swap)), // SWP and its kin
    // Moves of vector registers
    row!(0xFFC0_0000, 0x3D80_0000 => Form::LoadStoreVector { load: false }), // STR Q (unsigned offset)
    row!(0xFFC0_0000, 0x3DC0_0000 => Form::LoadStoreVector { load: true }), // LDR Q (unsigned offset)
    row!(0xFFC0_0000, 0xAD00_0000 => Form::LoadStoreVectorPair { load: false }), // STP Q (signed offset)
    row!(0xFFC0_0000, 0xAD40_0000 => Form::LoadStoreVectorPair { load: true }), // LDP Q (signed offset)
    row!(0xBFE0_FC00, 0x0E00_0C00 => Form::Duplicate), // DUP (general)
];
