//! Vectors (readv(2), struct iovec).
ghost use Rattle.std.specs.Prelude.{IfOk, length, ◌+◌, ◌≡◌, ◌≤◌};
ghost use Rattle.places.specs.Places.{number_at};
ghost use Rattle.lx_machine.specs.Pieces.{piece};
ghost use Rattle.lx_machine.specs.Readv.{has_negative, vectors};
ghost use Rattle.lx_machine.specs.Write.{count};

use byteorder::{ByteOrder, LittleEndian};
use lx_machine::buffer::NoMemory;
use lx_machine::calls::{Piece, Pieces};
use std::alloc::Global;

/// The bytes of a vector.
const VECTOR: usize = 16;

/// The number in the eight bytes from a place on, little-endian.
pub(crate) fn number(bytes: &[u8], at: usize) -> u64
    requires { at + 8 ≤ length bytes.now }
    ensures { result ≡ number_at bytes.now at 8 }
{
    LittleEndian::read_u64(&bytes[at..])
}

/// The first vector.
fn vector(bytes: &[u8]) -> Piece
    requires { 16 ≤ length bytes.now }
    ensures { result ≡ piece (number_at bytes.now 0 8) (number_at bytes.now 8 8) }
{
    Piece {
        at: number(bytes, 0),
        len: number(bytes, 8),
    }
}

/// So many vectors, one after the other, as far as the bytes reach.
#[tactic(auto, using(crate::proofs::VectorSteps::vectors_more))]
pub fn read_vectors(alloc: Global, count: u32, bytes: &[u8]) -> Result<Pieces, NoMemory>
    ensures { IfOk result (λ pieces. pieces ≡ vectors count bytes.now) }
{
    let mut pieces = Pieces::none(alloc);
    let mut rest = bytes;
    for i in 0..count {
        if rest.len() < VECTOR {
            break;
        }
        pieces.push(vector(rest))?;
        rest = &rest[VECTOR..];
    }
    Ok(pieces)
}

/// Whether some length is negative as a signed number.
pub fn has_negative(pieces: &[Piece]) -> bool
    ensures { result ≡ has_negative pieces.now }
{
    pieces.iter().any(|p| p.len >= 1 << 63)
}
