//! Little-endian numbers in the bytes that the signal calls fetch and store, and what these calls share.
ghost use Rattle.std.specs.Prelude.{◌≡◌, ◌≤◌, ◌++◌, ◌∷◌, [], drop, length, slice_index, OnOk, OnErr, IfOk};
ghost use Rattle.places.specs.Places.{bytes_of, number_at};
ghost use Rattle.byteorder.specs.Endian.{little_number};
ghost use Rattle.lx_machine.specs.Pieces.{piece};
ghost use Rattle.lx_machine.specs.Calls.{answered_with};
ghost use Rattle.lx_machine.specs.SignalCalls.{fetch_then, optional_piece};

use byteorder::{ByteOrder, LittleEndian};
use lx_machine::buffer::{Bytes, NoMemory};
use lx_machine::calls::{LxCall, Piece, Pieces, Stage};
use std::alloc::Global;

/// The byte at a place, and 0 behind the last.
fn byte(bytes: &[u8], at: usize) -> u8
    ensures { result ≡ slice_index bytes.now at }
{
    if at < bytes.len() { bytes[at] } else { 0 }
}

/// The bytes from a place on.
pub(crate) fn rest(bytes: &[u8], at: usize) -> &[u8]
    ensures { result.now ≡ drop at bytes.now }
{
    if at < bytes.len() { &bytes[at..] } else { &[] }
}

/// The number in the first eight bytes, with zeros behind the last.
fn first_number(bytes: &[u8]) -> u64
    ensures { result ≡ little_number 8 bytes.now }
{
    LittleEndian::read_u64(&[
        byte(bytes, 0),
        byte(bytes, 1),
        byte(bytes, 2),
        byte(bytes, 3),
        byte(bytes, 4),
        byte(bytes, 5),
        byte(bytes, 6),
        byte(bytes, 7),
    ])
}

/// The number in the first four bytes, with zeros behind the last.
fn first_small_number(bytes: &[u8]) -> u32
    ensures { result ≡ little_number 4 bytes.now }
{
    LittleEndian::read_u32(&[
        byte(bytes, 0),
        byte(bytes, 1),
        byte(bytes, 2),
        byte(bytes, 3),
    ])
}

/// The number in the eight bytes from a place on.
pub(crate) fn number(bytes: &[u8], at: usize) -> u64
    ensures { result ≡ number_at bytes.now at 8 }
{
    first_number(rest(bytes, at))
}

/// The number in the four bytes from a place on.
pub(crate) fn small_number(bytes: &[u8], at: usize) -> u32
    ensures { result ≡ number_at bytes.now at 4 }
{
    first_small_number(rest(bytes, at))
}

/// The eight bytes of a number.
pub(crate) fn eight_bytes(n: u64) -> [u8; 8]
    ensures { result ≡ bytes_of n 8 }
{
    let mut number = [0; 8];
    LittleEndian::write_u64(&mut number, n);
    number
}

/// Appends the eight bytes of a number. Where memory is wanting, nothing is appended.
pub(crate) fn append_number(bytes: &mut Bytes, n: u64) -> Result<(), NoMemory>
    ensures ok { OnOk result (bytes.new ≡ bytes.old ++ bytes_of n 8) }
    ensures err { OnErr result (bytes.new ≡ bytes.old) }
{
    bytes.append(&eight_bytes(n))
}

/// A piece at an address that is optional: 0 means none, and takes no memory.
pub(crate) fn optional_piece(alloc: Global, at: u64, len: u64) -> Result<Pieces, NoMemory>
    ensures value { IfOk result (λ pieces. pieces ≡ optional_piece at len) }
    ensures taken { OnErr result (1 ≤ length (optional_piece at len)) }
{
    if at == 0 {
        Ok(Pieces::none(alloc))
    } else {
        Pieces::one(alloc, at, len)
    }
}

/// The next piece is fetched, and then comes this.
pub(crate) fn fetch_then(next: Stage, pieces: &Pieces) -> Stage
    ensures { result ≡ fetch_then next pieces.now }
{
    match pieces.as_slice() {
        [] => next,
        [piece, ..] => Stage::Fetch(*piece),
    }
}

/// The call answers 0 and stores these bytes at this address. Where memory is wanting, nothing changes.
pub(crate) fn answer_storing(
    alloc: Global,
    call: &mut LxCall,
    at: u64,
    bytes: Bytes,
) -> Result<(), NoMemory>
    ensures ok { OnOk result (call.new ≡ answered_with call.old 0 (piece at (length bytes) ∷ []) bytes) }
    ensures err { OnErr result (call.new ≡ call.old) }
{
    let len = bytes.as_slice().len() as u64;
    let pieces = Pieces::one(alloc, at, len)?;
    call.answer_with(0, pieces, bytes);
    Ok(())
}
