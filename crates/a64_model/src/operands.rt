//! The operands of instructions: registers, widths, conditions, and what tells apart the operations that one
//! encoding has.
ghost use Rattle.std.specs.Prelude.{◌<◌};

/// The width of an operation: W has the low 32 bits of its registers and X all 64.
#[derive(Clone, Copy)]
pub enum Width {
    W,
    X,
}

/// A register by its number, 0 to 31. Number 31 is the zero register or the stack pointer, as the instruction says.
#[derive(Clone, Copy)]
pub struct Reg {
    pub number: u8,
    pub ghost in_range: { number < 32 },
}

/// A condition on the flags. DDI 0487, C1.2.4: EQ, NE, CS, CC, MI, PL, VS, VC, HI, LS, GE, LT, GT, LE, AL, NV.
#[derive(Clone, Copy)]
pub enum Condition {
    Equal,
    NotEqual,
    CarrySet,
    CarryClear,
    Minus,
    Plus,
    OverflowSet,
    OverflowClear,
    Higher,
    LowerOrSame,
    GreaterOrEqual,
    Less,
    Greater,
    LessOrEqual,
    Always,
    /// NV, which always holds too.
    AlwaysToo,
}

/// How a register is shifted: LSL, LSR, ASR, ROR.
#[derive(Clone, Copy)]
pub enum ShiftKind {
    Left,
    LogicalRight,
    ArithmeticRight,
    RotateRight,
}

/// Which low part of a register is extended to 64 bits, and whether with its sign: UXTB, UXTH, UXTW, UXTX, SXTB,
/// SXTH, SXTW, SXTX.
#[derive(Clone, Copy)]
pub enum Extend {
    UnsignedByte,
    UnsignedHalf,
    UnsignedWord,
    UnsignedDouble,
    SignedByte,
    SignedHalf,
    SignedWord,
    SignedDouble,
}

/// How many bytes an access of one register moves: 1, 2, 4 or 8.
#[derive(Clone, Copy)]
pub enum Size {
    Byte,
    Half,
    Word,
    Double,
}

/// An addition or a subtraction.
#[derive(Clone, Copy)]
pub enum AddOp {
    Add,
    Subtract,
}

/// AND, ORR, EOR, and ANDS, which is AND and sets the flags.
#[derive(Clone, Copy)]
pub enum LogicalOp {
    And,
    Or,
    ExclusiveOr,
    AndSetFlags,
}

/// What becomes of a 16-bit immediate: MOVN, MOVZ, MOVK.
#[derive(Clone, Copy)]
pub enum MoveWideOp {
    Not,
    Zero,
    Keep,
}

/// What stands round a moved bitfield: copies of its sign (SBFM), what the register had (BFM), zeros (UBFM).
#[derive(Clone, Copy)]
pub enum BitfieldOp {
    Signed,
    Kept,
    Unsigned,
}

/// Where a register branch goes: BR, BLR, RET.
#[derive(Clone, Copy)]
pub enum BranchKind {
    Jump,
    Call,
    Return,
}

/// What a comparison under a condition compares with: a register, or an unsigned number of 5 bits.
#[derive(Clone, Copy)]
pub enum Comparand {
    Register(Reg),
    Immediate(u8),
}

/// What is selected where the condition fails: CSEL, CSINC, CSINV, CSNEG.
#[derive(Clone, Copy)]
pub enum SelectOp {
    Plain,
    Increment,
    Invert,
    Negate,
}

/// RBIT, REV16, REV32 (REV of a W register), CLZ, CLS.
#[derive(Clone, Copy)]
pub enum OneSourceOp {
    ReverseBits,
    ReverseBytesOfHalves,
    ReverseBytesOfWords,
    CountLeadingZeros,
    CountLeadingSigns,
}

/// UDIV, SDIV, LSLV, LSRV, ASRV, RORV.
#[derive(Clone, Copy)]
pub enum TwoSourceOp {
    UnsignedDivide,
    SignedDivide,
    ShiftLeft,
    ShiftRight,
    ShiftRightSigned,
    RotateRight,
}

/// How a base register and an offset make an address, and what becomes of the base: it stays, the sum is written
/// back after an access at the base, or the sum is written back after an access at the sum.
#[derive(Clone, Copy)]
pub enum Indexing {
    Offset,
    PostIndex,
    PreIndex,
}

/// What an access of one register does. A load without a sign fills up with zeros.
#[derive(Clone, Copy)]
pub enum Transfer {
    Store,
    Load,
    LoadSigned64,
    LoadSigned32,
    Prefetch,
}

/// What a load from an address near this instruction loads, if it does: LDR of W and X, LDRSW, PRFM.
#[derive(Clone, Copy)]
pub enum LiteralKind {
    Word,
    Double,
    SignedWord,
    Prefetch,
}

/// What each register of a pair moves: 4 bytes, 4 bytes with a sign (LDPSW), or 8 bytes.
#[derive(Clone, Copy)]
pub enum PairKind {
    Word,
    SignedWord,
    Double,
}

/// What an atomic operation leaves in memory: the sum (LDADD), the old value without the bits of the register
/// (LDCLR), their exclusive or (LDEOR), their or (LDSET), the register (SWP).
#[derive(Clone, Copy)]
pub enum AtomicOp {
    Add,
    Clear,
    ExclusiveOr,
    Set,
    Swap,
}
