//! What memory does, and answers, at an access of an instruction.
ghost use Rattle.std.specs.Prelude.{◌≡◌, ◌≤◌, take, length, None};
ghost use Rattle.lx_memory.specs.Bytes.{bytes_at, IsMapped};
ghost use Rattle.lx_memory.specs.Queries.{first_lacking};
ghost use Rattle.lx_machine.specs.Instruction.{Answered, accessed, filled, has_mark, loaded, store_exclusive, stored_at, swapped, writes};
ghost use Rattle.a64_model.specs.Swaps.{outcome};
ghost use Rattle.places.specs.Places.{bytes_of, number_of};
ghost use Rattle.lx_instructions.specs.Accesses.{Has, IsSmall};

use a64_model::access::{Access, Answer, Fault, SwapOp};
use a64_model::swaps::{has_outcome_of, outcome_of};
use byteorder::{ByteOrder, LittleEndian};
use lx_memory::queries::first_lacking;
use lx_memory::{Memory, Right};

/// What memory has answered, the thread's mark then, and how many bytes it has written from which address on.
#[derive(Clone, Copy)]
pub struct Answered {
    pub mark: Option<u64>,
    pub answer: Answer,
    pub at: u64,
    pub written: u64,
}

/// Nothing was written.
fn answers(mark: Option<u64>, answer: Answer) -> Answered
    ensures { result ≡ record { mark = mark; answer = answer; at = 0; written = 0 } }
{
    Answered {
        mark,
        answer,
        at: 0,
        written: 0,
    }
}

/// The access lacks its right at an address.
fn faults_at(mark: Option<u64>, address: u64) -> Answered
    ensures { result ≡ record { mark = mark; answer = Answer.Fault record { address = address }; at = 0; written = 0 } }
{
    answers(mark, Answer::Fault(Fault { address }))
}

/// The bytes of a range of mapped pages, in 32 bytes.
fn bytes_in(memory: &Memory, at: u64, len: u8) -> [u8; 32]
    requires fits { len ≤ 32 }
    requires mapped { IsMapped memory.now at len }
    ensures filled { result ≡ filled (bytes_at memory.now at len) }
    ensures taken { take len result ≡ bytes_at memory.now at len }
{
    let mut bytes = [0; 32];
    memory.load(at, &mut bytes[..len as usize]);
    bytes
}

/// A load, which may leave a mark.
fn load(memory: &Memory, mark: Option<u64>, at: u64, len: u8, marks: bool) -> Answered
    requires { len ≤ 32 }
    ensures { Has memory.now result (loaded memory.now mark at len marks (first_lacking Right.Read memory.now at len)) }
{
    if let Some(lacking) = first_lacking(memory, Right::Read, at, u64::from(len)) {
        return faults_at(mark, lacking);
    }
    let bytes = bytes_in(memory, at, len);
    let left = if marks { Some(at / 16) } else { mark };
    answers(left, Answer::Bytes(bytes))
}

/// Writes bytes into mapped pages, and answers so.
fn writes(memory: &mut Memory, mark: Option<u64>, at: u64, bytes: &[u8], answer: Answer) -> Answered
    requires { IsMapped memory.old at (length bytes.now) }
    ensures { Has memory.new result (writes memory.old mark at bytes.now answer) }
{
    memory.store(at, bytes);
    Answered {
        mark,
        answer,
        at,
        written: bytes.len() as u64,
    }
}

/// A store.
fn store(memory: &mut Memory, mark: Option<u64>, at: u64, bytes: &[u8]) -> Answered
    ensures { Has memory.new result (stored_at memory.old mark at bytes.now (first_lacking Right.Write memory.old at (length bytes.now))) }
{
    if let Some(lacking) = first_lacking(memory, Right::Write, at, bytes.len() as u64) {
        return faults_at(mark, lacking);
    }
    writes(memory, mark, at, bytes, Answer::Done)
}

/// Whether the mark stands on the granule of an address.
fn has_mark(mark: Option<u64>, at: u64) -> bool
    ensures { result ≡ has_mark mark at }
{
    match mark {
        Some(granule) => granule == at / 16,
        None => false,
    }
}

/// An exclusive store: it stores where the mark stands, and ends the mark.
fn store_exclusive(memory: &mut Memory, mark: Option<u64>, at: u64, bytes: &[u8]) -> Answered
    ensures { Has memory.new result (store_exclusive memory.old mark at bytes.now (first_lacking Right.Write memory.old at (length bytes.now))) }
{
    if let Some(lacking) = first_lacking(memory, Right::Write, at, bytes.len() as u64) {
        return faults_at(mark, lacking);
    }
    if has_mark(mark, at) {
        writes(memory, None, at, bytes, Answer::Done)
    } else {
        answers(None, Answer::NoMark)
    }
}

/// The number that 1 to 8 bytes are.
fn number_in(bytes: &[u8]) -> u64
    requires some { 1 ≤ length bytes.now }
    requires most { length bytes.now ≤ 8 }
    ensures { result ≡ number_of bytes.now }
{
    LittleEndian::read_uint(bytes, bytes.len())
}

/// The 8 bytes of what an atomic access writes.
fn outcome_bytes(op: SwapOp, old: u64, value: u64) -> [u8; 8]
    ensures { result ≡ bytes_of (outcome op old value) 8 }
{
    outcome_of(op, old, value).to_le_bytes()
}

/// The exchange, where all bytes may be written: `bytes` are the old ones, in 32 bytes.
fn exchange(
    memory: &mut Memory,
    mark: Option<u64>,
    at: u64,
    len: u8,
    op: SwapOp,
    value: u64,
    expected: u64,
) -> Answered
    requires some { 1 ≤ len }
    requires most { len ≤ 8 }
    requires mapped { IsMapped memory.old at len }
    ensures { Has memory.new result (swapped memory.old mark at len op value expected None) }
{
    let bytes = bytes_in(memory, at, len);
    let old = number_in(&bytes[..len as usize]);
    if !has_outcome_of(op, old, expected) {
        return answers(mark, Answer::Bytes(bytes));
    }
    let new = outcome_bytes(op, old, value);
    writes(memory, mark, at, &new[..len as usize], Answer::Bytes(bytes))
}

/// An atomic access to a number of 1 to 8 bytes: it answers the old number.
fn swap(
    memory: &mut Memory,
    mark: Option<u64>,
    at: u64,
    len: u8,
    op: SwapOp,
    value: u64,
    expected: u64,
) -> Answered
    requires some { 1 ≤ len }
    requires most { len ≤ 8 }
    ensures { Has memory.new result (swapped memory.old mark at len op value expected (first_lacking Right.Write memory.old at len)) }
{
    if let Some(lacking) = first_lacking(memory, Right::Write, at, u64::from(len)) {
        return faults_at(mark, lacking);
    }
    exchange(memory, mark, at, len, op, value, expected)
}

/// What memory does, and answers, at an access: the bytes of a load, `Done` at a store, the old bytes at an atomic access,
/// `NoMark` at an exclusive store whose mark doesn't stand, and `Fault` with the first byte that lacks its right.
pub fn accessed(memory: &mut Memory, mark: Option<u64>, access: Access) -> Answered
    requires { IsSmall access }
    ensures { Has memory.new result (accessed memory.old mark access) }
{
    match access {
        Access::None => answers(mark, Answer::Done),
        Access::Load {
            at,
            len,
            mark: marks,
        } => load(memory, mark, at, len, marks),
        Access::Store {
            at,
            len,
            bytes,
            exclusive: false,
        } => store(memory, mark, at, &bytes[..len as usize]),
        Access::Store {
            at,
            len,
            bytes,
            exclusive: true,
        } => store_exclusive(memory, mark, at, &bytes[..len as usize]),
        Access::Swap {
            at,
            len,
            op,
            value,
            expected,
        } => swap(memory, mark, at, len, op, value, expected),
        Access::ClearMark => answers(None, Answer::Done),
    }
}
