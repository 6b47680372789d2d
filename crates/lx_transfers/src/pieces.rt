//! The pieces of a transfer (readv(2)).
ghost use Rattle.std.specs.Prelude.{IfOk, min, ◌-◌, ◌^◌, ◌≡◌};
ghost use Rattle.lx_machine.specs.Pieces.{clipped, total};

use lx_machine::buffer::NoMemory;
use lx_machine::calls::{Piece, Pieces};
use std::alloc::Global;

/// The lengths of the pieces together, as far as they are counted.
#[tactic(auto, using(std::proofs::lemmas::List::drop_all))]
pub(crate) fn total(pieces: &[Piece]) -> u64
    ensures { result ≡ min (total pieces.now) (2 ^ 64 - 1) }
{
    let mut sum = 0u64;
    for p in pieces {
        sum = sum.saturating_add(p.len);
    }
    sum
}

/// The first `most` bytes of the pieces, without empty pieces.
pub fn clip(alloc: Global, most: u64, pieces: &[Piece]) -> Result<Pieces, NoMemory>
    ensures { IfOk result (λ clip. clip ≡ clipped most pieces.now) }
{
    let mut clipped = Pieces::none(alloc);
    let mut left = most;
    for p in pieces {
        let len = left.min(p.len);
        if len > 0 {
            clipped.push(Piece { at: p.at, len })?;
            left -= len;
        }
    }
    Ok(clipped)
}
