//! The instructions: one variant for each row class, with its fields. `rd` and `rt` are the registers written (or
//! stored), `rn` the first source or the base, `rm` the second source, `ra` the addend, `rs` the register of an
//! exclusive or atomic access, `rt2` the second of a pair. An immediate `immN` is the field of N bits as it stands in the
//! word. An instruction is 12 bytes: its variant and two words of fields.

use crate::operands::{
    AddOp, AtomicOp, BitfieldOp, BranchKind, Comparand, Condition, Extend, Indexing, LiteralKind,
    LogicalOp, MoveWideOp, OneSourceOp, PairKind, Reg, SelectOp, ShiftKind, Size, Transfer,
    TwoSourceOp, Width,
};

/// Lets the fields of a row begin at a multiple of 4 bytes, and takes no space. So the fields of all rows lie in the same
/// two words of an instruction, which a compiler moves as words.
#[derive(Clone, Copy)]
pub struct WordAligned {
    words: [u32; 0],
}

/// The one value of its type.
pub const WORD_ALIGNED: WordAligned = WordAligned { words: [] };

// Data processing -- immediate

/// ADR, and ADRP, which goes by pages from the page of this instruction. The immediate is signed.
#[derive(Clone, Copy)]
pub struct PcRelative {
    pub imm21: u32,
    pub page: bool,
    pub rd: Reg,
}

/// ADD, ADDS, SUB and SUBS (immediate). The immediate may be shifted left by 12.
#[derive(Clone, Copy)]
pub struct AddImmediate {
    pub aligned: WordAligned,
    pub width: Width,
    pub op: AddOp,
    pub set_flags: bool,
    pub shifted: bool,
    pub imm12: u16,
    pub rn: Reg,
    pub rd: Reg,
}

/// AND, ORR, EOR and ANDS (immediate). N, immr and imms are those of a pattern of bits.
#[derive(Clone, Copy)]
pub struct LogicalImmediate {
    pub aligned: WordAligned,
    pub width: Width,
    pub op: LogicalOp,
    pub n: u8,
    pub immr: u8,
    pub imms: u8,
    pub rn: Reg,
    pub rd: Reg,
}

/// MOVN, MOVZ and MOVK. The immediate stands at bit 16 times `hw`.
#[derive(Clone, Copy)]
pub struct MoveWide {
    pub aligned: WordAligned,
    pub width: Width,
    pub op: MoveWideOp,
    pub imm16: u16,
    pub hw: u8,
    pub rd: Reg,
}

/// SBFM, BFM and UBFM.
#[derive(Clone, Copy)]
pub struct Bitfield {
    pub aligned: WordAligned,
    pub width: Width,
    pub op: BitfieldOp,
    pub immr: u8,
    pub imms: u8,
    pub rn: Reg,
    pub rd: Reg,
}

/// EXTR.
#[derive(Clone, Copy)]
pub struct Extract {
    pub aligned: WordAligned,
    pub width: Width,
    pub imms: u8,
    pub rm: Reg,
    pub rn: Reg,
    pub rd: Reg,
}

// Branches, exception generating and system instructions

/// B, and BL where it links. The immediate is signed and counts instructions.
#[derive(Clone, Copy)]
pub struct Branch {
    pub imm26: u32,
    pub link: bool,
}

/// B.cond. The immediate is signed and counts instructions.
#[derive(Clone, Copy)]
pub struct BranchConditional {
    pub imm19: u32,
    pub condition: Condition,
}

/// CBZ, and CBNZ, which branches where the register is not 0. The immediate is signed and counts instructions.
#[derive(Clone, Copy)]
pub struct CompareBranch {
    pub imm19: u32,
    pub width: Width,
    pub nonzero: bool,
    pub rt: Reg,
}

/// TBZ, and TBNZ, which branches where the bit is set. The immediate is signed and counts instructions.
#[derive(Clone, Copy)]
pub struct TestBranch {
    pub aligned: WordAligned,
    pub set: bool,
    pub bit_number: u8,
    pub imm14: u16,
    pub rt: Reg,
}

/// BR, BLR and RET.
#[derive(Clone, Copy)]
pub struct BranchRegister {
    pub aligned: WordAligned,
    pub kind: BranchKind,
    pub rn: Reg,
}

/// MRS of TPIDR_EL0.
#[derive(Clone, Copy)]
pub struct ReadThreadPointer {
    pub aligned: WordAligned,
    pub rt: Reg,
}

/// MSR of TPIDR_EL0.
#[derive(Clone, Copy)]
pub struct WriteThreadPointer {
    pub aligned: WordAligned,
    pub rt: Reg,
}

// Data processing -- register

/// AND, BIC, ORR, ORN, EOR, EON, ANDS and BICS (shifted register).
#[derive(Clone, Copy)]
pub struct LogicalShifted {
    pub aligned: WordAligned,
    pub width: Width,
    pub op: LogicalOp,
    pub invert: bool,
    pub shift: ShiftKind,
    pub amount: u8,
    pub rm: Reg,
    pub rn: Reg,
    pub rd: Reg,
}

/// ADD, ADDS, SUB and SUBS (shifted register). The shift is no rotation.
#[derive(Clone, Copy)]
pub struct AddShifted {
    pub aligned: WordAligned,
    pub width: Width,
    pub op: AddOp,
    pub set_flags: bool,
    pub shift: ShiftKind,
    pub amount: u8,
    pub rm: Reg,
    pub rn: Reg,
    pub rd: Reg,
}

/// ADD, ADDS, SUB and SUBS (extended register). The extended register is shifted left by the amount.
#[derive(Clone, Copy)]
pub struct AddExtended {
    pub aligned: WordAligned,
    pub width: Width,
    pub op: AddOp,
    pub set_flags: bool,
    pub extend: Extend,
    pub amount: u8,
    pub rm: Reg,
    pub rn: Reg,
    pub rd: Reg,
}

/// ADC, ADCS, SBC and SBCS.
#[derive(Clone, Copy)]
pub struct AddCarry {
    pub aligned: WordAligned,
    pub width: Width,
    pub op: AddOp,
    pub set_flags: bool,
    pub rm: Reg,
    pub rn: Reg,
    pub rd: Reg,
}

/// CCMN (an addition) and CCMP (a subtraction). Where the condition fails the flags become `nzcv`.
#[derive(Clone, Copy)]
pub struct ConditionalCompare {
    pub aligned: WordAligned,
    pub width: Width,
    pub op: AddOp,
    pub comparand: Comparand,
    pub condition: Condition,
    pub nzcv: u8,
    pub rn: Reg,
}

/// CSEL, CSINC, CSINV and CSNEG.
#[derive(Clone, Copy)]
pub struct ConditionalSelect {
    pub aligned: WordAligned,
    pub width: Width,
    pub op: SelectOp,
    pub condition: Condition,
    pub rm: Reg,
    pub rn: Reg,
    pub rd: Reg,
}

/// RBIT, REV16, REV32, CLZ and CLS.
#[derive(Clone, Copy)]
pub struct OneSource {
    pub aligned: WordAligned,
    pub width: Width,
    pub op: OneSourceOp,
    pub rn: Reg,
    pub rd: Reg,
}

/// REV of an X register.
#[derive(Clone, Copy)]
pub struct ReverseBytes {
    pub aligned: WordAligned,
    pub rn: Reg,
    pub rd: Reg,
}

/// UDIV, SDIV, LSLV, LSRV, ASRV and RORV.
#[derive(Clone, Copy)]
pub struct TwoSource {
    pub aligned: WordAligned,
    pub width: Width,
    pub op: TwoSourceOp,
    pub rm: Reg,
    pub rn: Reg,
    pub rd: Reg,
}

/// MADD and MSUB.
#[derive(Clone, Copy)]
pub struct MultiplyAdd {
    pub aligned: WordAligned,
    pub width: Width,
    pub op: AddOp,
    pub rm: Reg,
    pub ra: Reg,
    pub rn: Reg,
    pub rd: Reg,
}

/// SMADDL, SMSUBL, UMADDL and UMSUBL.
#[derive(Clone, Copy)]
pub struct MultiplyLong {
    pub aligned: WordAligned,
    pub signed: bool,
    pub op: AddOp,
    pub rm: Reg,
    pub ra: Reg,
    pub rn: Reg,
    pub rd: Reg,
}

/// SMULH and UMULH.
#[derive(Clone, Copy)]
pub struct MultiplyHigh {
    pub aligned: WordAligned,
    pub signed: bool,
    pub rm: Reg,
    pub rn: Reg,
    pub rd: Reg,
}

// Loads and stores

/// LDR, LDRB, LDRH, LDRSB, LDRSH, LDRSW, PRFM, STR, STRB and STRH (unsigned offset). The immediate counts accesses of
/// this size.
#[derive(Clone, Copy)]
pub struct LoadStoreUnsigned {
    pub aligned: WordAligned,
    pub size: Size,
    pub transfer: Transfer,
    pub imm12: u16,
    pub rn: Reg,
    pub rt: Reg,
}

/// LDUR, PRFUM, STUR and their kin, and LDR, STR and their kin with post-index and pre-index. The immediate is signed
/// and counts bytes.
#[derive(Clone, Copy)]
pub struct LoadStoreIndexed {
    pub aligned: WordAligned,
    pub imm9: u16,
    pub size: Size,
    pub transfer: Transfer,
    pub indexing: Indexing,
    pub rn: Reg,
    pub rt: Reg,
}

/// LDR, PRFM, STR and their kin (register offset). The extended register may count accesses of this size.
#[derive(Clone, Copy)]
pub struct LoadStoreRegister {
    pub aligned: WordAligned,
    pub size: Size,
    pub transfer: Transfer,
    pub extend: Extend,
    pub scaled: bool,
    pub rm: Reg,
    pub rn: Reg,
    pub rt: Reg,
}

/// LDR, LDRSW and PRFM (literal). The immediate is signed and counts instructions from this one.
#[derive(Clone, Copy)]
pub struct LoadLiteral {
    pub imm19: u32,
    pub kind: LiteralKind,
    pub rt: Reg,
}

/// LDP, LDPSW and STP. The immediate is signed and counts registers.
#[derive(Clone, Copy)]
pub struct LoadStorePair {
    pub aligned: WordAligned,
    pub kind: PairKind,
    pub load: bool,
    pub indexing: Indexing,
    pub imm7: u8,
    pub rt2: Reg,
    pub rn: Reg,
    pub rt: Reg,
}

/// STXR, STLXR and their kin.
#[derive(Clone, Copy)]
pub struct StoreExclusive {
    pub aligned: WordAligned,
    pub size: Size,
    pub rs: Reg,
    pub rn: Reg,
    pub rt: Reg,
}

/// LDXR, LDAXR and their kin.
#[derive(Clone, Copy)]
pub struct LoadExclusive {
    pub aligned: WordAligned,
    pub size: Size,
    pub rn: Reg,
    pub rt: Reg,
}

/// STLR, STLRB and STLRH.
#[derive(Clone, Copy)]
pub struct StoreOrdered {
    pub aligned: WordAligned,
    pub size: Size,
    pub rn: Reg,
    pub rt: Reg,
}

/// LDAR, LDARB and LDARH.
#[derive(Clone, Copy)]
pub struct LoadOrdered {
    pub aligned: WordAligned,
    pub size: Size,
    pub rn: Reg,
    pub rt: Reg,
}

/// CAS, CASA, CASL, CASAL and their kin.
#[derive(Clone, Copy)]
pub struct CompareSwap {
    pub aligned: WordAligned,
    pub size: Size,
    pub rs: Reg,
    pub rn: Reg,
    pub rt: Reg,
}

/// LDADD, LDCLR, LDEOR, LDSET, SWP and their kin.
#[derive(Clone, Copy)]
pub struct Atomic {
    pub aligned: WordAligned,
    pub size: Size,
    pub op: AtomicOp,
    pub rs: Reg,
    pub rn: Reg,
    pub rt: Reg,
}

// Moves of vector registers

/// LDR, or STR, of a Q register (unsigned offset), where `rt` is a vector register. The immediate counts accesses of 16
/// bytes.
#[derive(Clone, Copy)]
pub struct LoadStoreVector {
    pub aligned: WordAligned,
    pub load: bool,
    pub imm12: u16,
    pub rn: Reg,
    pub rt: Reg,
}

/// LDP, or STP, of Q registers (signed offset), where `rt` and `rt2` are vector registers. The immediate is signed and
/// counts registers of 16 bytes.
#[derive(Clone, Copy)]
pub struct LoadStoreVectorPair {
    pub aligned: WordAligned,
    pub load: bool,
    pub imm7: u8,
    pub rt2: Reg,
    pub rn: Reg,
    pub rt: Reg,
}

/// DUP (general): the low bytes of a general register, over the whole vector register `rd` or over its low 8 bytes.
#[derive(Clone, Copy)]
pub struct Duplicate {
    pub aligned: WordAligned,
    pub size: Size,
    pub whole: bool,
    pub rn: Reg,
    pub rd: Reg,
}

/// An instruction, with the fields of its row.
#[derive(Clone, Copy)]
pub enum Instr {
    PcRelative(PcRelative),
    AddImmediate(AddImmediate),
    LogicalImmediate(LogicalImmediate),
    MoveWide(MoveWide),
    Bitfield(Bitfield),
    Extract(Extract),
    Branch(Branch),
    BranchConditional(BranchConditional),
    CompareBranch(CompareBranch),
    TestBranch(TestBranch),
    BranchRegister(BranchRegister),
    /// SVC.
    SupervisorCall,
    /// BRK.
    Breakpoint,
    /// NOP, YIELD and every other hint: without effect.
    Hint,
    /// CLREX.
    ClearExclusive,
    /// DSB, DMB and ISB: without effect.
    Barrier,
    ReadThreadPointer(ReadThreadPointer),
    WriteThreadPointer(WriteThreadPointer),
    LogicalShifted(LogicalShifted),
    AddShifted(AddShifted),
    AddExtended(AddExtended),
    AddCarry(AddCarry),
    ConditionalCompare(ConditionalCompare),
    ConditionalSelect(ConditionalSelect),
    OneSource(OneSource),
    ReverseBytes(ReverseBytes),
    TwoSource(TwoSource),
    MultiplyAdd(MultiplyAdd),
    MultiplyLong(MultiplyLong),
    MultiplyHigh(MultiplyHigh),
    LoadStoreUnsigned(LoadStoreUnsigned),
    LoadStoreIndexed(LoadStoreIndexed),
    LoadStoreRegister(LoadStoreRegister),
    LoadLiteral(LoadLiteral),
    LoadStorePair(LoadStorePair),
    StoreExclusive(StoreExclusive),
    LoadExclusive(LoadExclusive),
    StoreOrdered(StoreOrdered),
    LoadOrdered(LoadOrdered),
    CompareSwap(CompareSwap),
    Atomic(Atomic),
    LoadStoreVector(LoadStoreVector),
    LoadStoreVectorPair(LoadStoreVectorPair),
    Duplicate(Duplicate),
}
