//! Numbers in memory, with the lowest byte first. An access has 32 bytes, of which the first ones count.
ghost use Rattle.std.specs.Prelude.{◌≡◌, ◌≤◌, ◌<◌, drop};
ghost use Rattle.a64_model.specs.Memory.{size_bytes, number_of, signed_number, low_part, bytes_of, loaded, literal_size, literal_loaded, pair_size, pair_bytes, pair_loaded};

use a64_alu::arithmetic::low;
use a64_alu::shifts::sign_extended;
use a64_model::operands::{LiteralKind, PairKind, Size, Transfer, Width};

/// The number of bytes of an access of one register.
pub fn size_bytes(size: Size) -> u8
    ensures value { result ≡ size_bytes size }
    ensures some { 0 < result }
    ensures small { result ≤ 8 }
{
    match size {
        Size::Byte => 1,
        Size::Half => 2,
        Size::Word => 4,
        Size::Double => 8,
    }
}

/// The number that the first bytes are.
pub fn number_of(size: Size, bytes: &[u8; 32]) -> u64
    ensures { result ≡ number_of size bytes.now }
{
    match size {
        Size::Byte => u64::from(bytes[0]),
        Size::Half => u64::from(u16::from_le_bytes([bytes[0], bytes[1]])),
        Size::Word => u64::from(u32::from_le_bytes([bytes[0], bytes[1], bytes[2], bytes[3]])),
        Size::Double => u64::from_le_bytes([
            bytes[0], bytes[1], bytes[2], bytes[3], bytes[4], bytes[5], bytes[6], bytes[7],
        ]),
    }
}

/// SignExtend of a number of this size to 64 bits.
fn signed_number(size: Size, n: u64) -> u64
    ensures { result ≡ signed_number size n }
{
    match size {
        Size::Byte => sign_extended(8, n),
        Size::Half => sign_extended(16, n),
        Size::Word => sign_extended(32, n),
        Size::Double => n,
    }
}

/// The part of a register that an access of this size moves.
pub fn low_part(size: Size, n: u64) -> u64
    ensures { result ≡ low_part size n }
{
    match size {
        Size::Byte => n & 0xFF,
        Size::Half => n & 0xFFFF,
        Size::Word => n & 0xFFFF_FFFF,
        Size::Double => n,
    }
}

/// The 8 bytes of a number, and zeros.
pub fn bytes_of(n: u64) -> [u8; 32]
    ensures { result ≡ bytes_of n }
{
    let [a, b, c, d, e, f, g, h] = n.to_le_bytes();
    [
        a, b, c, d, e, f, g, h, 0, 0, 0, 0, 0, 0, 0, 0, 0, 0, 0, 0, 0, 0, 0, 0, 0, 0, 0, 0, 0, 0,
        0, 0,
    ]
}

/// What a load of one register leaves in it.
pub fn loaded(size: Size, transfer: Transfer, bytes: &[u8; 32]) -> u64
    ensures { result ≡ loaded size transfer bytes.now }
{
    let n = number_of(size, bytes);
    match transfer {
        Transfer::LoadSigned64 => signed_number(size, n),
        Transfer::LoadSigned32 => low(Width::W, signed_number(size, n)),
        Transfer::Store | Transfer::Load | Transfer::Prefetch => n,
    }
}

/// The size of a literal.
pub fn literal_size(kind: LiteralKind) -> Size
    ensures { result ≡ literal_size kind }
{
    match kind {
        LiteralKind::Double => Size::Double,
        LiteralKind::Word | LiteralKind::SignedWord | LiteralKind::Prefetch => Size::Word,
    }
}

/// What a load of a literal leaves in a register.
pub fn literal_loaded(kind: LiteralKind, bytes: &[u8; 32]) -> u64
    ensures { result ≡ literal_loaded kind bytes.now }
{
    match kind {
        LiteralKind::Double => number_of(Size::Double, bytes),
        LiteralKind::SignedWord => signed_number(Size::Word, number_of(Size::Word, bytes)),
        LiteralKind::Word | LiteralKind::Prefetch => number_of(Size::Word, bytes),
    }
}

/// The number of bytes of each register of a pair.
pub fn pair_size(kind: PairKind) -> u8
    ensures value { result ≡ pair_size kind }
    ensures small { result ≤ 8 }
{
    match kind {
        PairKind::Double => 8,
        PairKind::Word | PairKind::SignedWord => 4,
    }
}

/// The bytes of a pair of registers, the first one first, and zeros.
pub fn pair_bytes(kind: PairKind, a: u64, b: u64) -> [u8; 32]
    ensures { result ≡ pair_bytes kind a b }
{
    match kind {
        PairKind::Double => {
            let [a0, a1, a2, a3, a4, a5, a6, a7] = a.to_le_bytes();
            let [b0, b1, b2, b3, b4, b5, b6, b7] = b.to_le_bytes();
            [
                a0, a1, a2, a3, a4, a5, a6, a7, b0, b1, b2, b3, b4, b5, b6, b7, 0, 0, 0, 0, 0, 0,
                0, 0, 0, 0, 0, 0, 0, 0, 0, 0,
            ]
        }
        PairKind::Word | PairKind::SignedWord => {
            let [a0, a1, a2, a3] = ((a & 0xFFFF_FFFF) as u32).to_le_bytes();
            let [b0, b1, b2, b3] = ((b & 0xFFFF_FFFF) as u32).to_le_bytes();
            [
                a0, a1, a2, a3, b0, b1, b2, b3, 0, 0, 0, 0, 0, 0, 0, 0, 0, 0, 0, 0, 0, 0, 0, 0, 0,
                0, 0, 0, 0, 0, 0, 0,
            ]
        }
    }
}

/// What a load of a pair leaves in the first register.
pub fn first_loaded(kind: PairKind, bytes: &[u8; 32]) -> u64
    ensures { result ≡ pair_loaded kind bytes.now }
{
    match kind {
        PairKind::Word => number_of(Size::Word, bytes),
        PairKind::SignedWord => sign_extended(32, number_of(Size::Word, bytes)),
        PairKind::Double => number_of(Size::Double, bytes),
    }
}

/// What a load of a pair leaves in the second register.
pub fn second_loaded(kind: PairKind, bytes: &[u8; 32]) -> u64
    ensures { result ≡ pair_loaded kind (drop (pair_size kind) bytes.now) }
{
    let word = u64::from(u32::from_le_bytes([bytes[4], bytes[5], bytes[6], bytes[7]]));
    match kind {
        PairKind::Word => word,
        PairKind::SignedWord => sign_extended(32, word),
        PairKind::Double => u64::from_le_bytes([
            bytes[8], bytes[9], bytes[10], bytes[11], bytes[12], bytes[13], bytes[14], bytes[15],
        ]),
    }
}
