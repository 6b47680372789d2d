//! The record of the vector registers in a signal frame (Linux for arm64: struct fpsimd_context).
ghost use Rattle.std.specs.Prelude.{◌≡◌, ◌≤◌, ◌*◌, drop, length, Some};
ghost use Rattle.std.specs.Int.{from_le_bytes, w128};
ghost use Rattle.a64_model.specs.VectorRecord.{vectors_bytes, vector_record, vectors_in, is_vector_record, recorded_vectors};

use a64_model::regs::Regs;

/// The magic number of the record, FPSIMD_MAGIC.
const MAGIC: u32 = 0x4650_8001;

/// The bytes of the record.
const SIZE: u32 = 528;

/// Writes vector registers, one after the other.
#[tactic(auto, unfolding(a64_model::specs::VectorRecord::vectors_bytes))]
fn write_vectors(bytes: &mut [u8], v: &[u128])
    requires { length bytes.old ≡ 16 * length v.now }
    ensures { bytes.new ≡ vectors_bytes v.now }
{
    if let [n, rest @ ..] = v {
        let (first, others) = bytes.split_at_mut(16);
        first.copy_from_slice(&n.to_le_bytes());
        write_vectors(others, rest);
    }
}

/// The record of these registers.
fn written_record(v: &[u128; 32]) -> [u8; 528]
    ensures { result ≡ vector_record v.now }
{
    let mut record = [0; 528];
    record[..4].copy_from_slice(&MAGIC.to_le_bytes());
    record[4..8].copy_from_slice(&SIZE.to_le_bytes());
    write_vectors(&mut record[16..], v);
    record
}

/// The record of these registers, which has them.
fn record_of(v: &[u128; 32]) -> [u8; 528]
    ensures record { result ≡ vector_record v.now }
    ensures again { recorded_vectors result ≡ Some v.now }
{
    written_record(v)
}

/// The record of the vector registers, of which `read_record` gives these registers again.
pub fn frame_record(regs: &Regs) -> [u8; 528]
    ensures record { result ≡ vector_record regs.now.v }
    ensures again { recorded_vectors result ≡ Some regs.now.v }
{
    record_of(&regs.v)
}

/// The number in the first 16 bytes.
pub(crate) fn first_vector(bytes: &[u8]) -> u128
    requires { 16 ≤ length bytes.now }
    ensures { result ≡ from_le_bytes w128 bytes.now }
{
    u128::from_le_bytes([
        bytes[0], bytes[1], bytes[2], bytes[3], bytes[4], bytes[5], bytes[6], bytes[7], bytes[8],
        bytes[9], bytes[10], bytes[11], bytes[12], bytes[13], bytes[14], bytes[15],
    ])
}

/// Reads vector registers, one after the other.
#[tactic(auto, unfolding(a64_model::specs::VectorRecord::vectors_in))]
fn read_vectors(v: &mut [u128], bytes: &[u8])
    requires { length bytes.now ≡ 16 * length v.old }
    ensures { v.new ≡ vectors_in bytes.now (length v.old) }
{
    if let Some((n, others)) = v.split_first_mut() {
        *n = first_vector(bytes);
        read_vectors(others, &bytes[16..]);
    }
}

/// The registers behind the first 16 bytes.
fn vectors_behind(bytes: &[u8; 528]) -> [u128; 32]
    ensures { result ≡ vectors_in (drop 16 bytes.now) 32 }
{
    let mut v = [0; 32];
    read_vectors(&mut v, &bytes[16..]);
    v
}

/// Whether these bytes begin as a record does.
fn is_record(bytes: &[u8; 528]) -> bool
    ensures { result ≡ is_vector_record bytes.now }
{
    u32::from_le_bytes([bytes[0], bytes[1], bytes[2], bytes[3]]) == MAGIC
        && u32::from_le_bytes([bytes[4], bytes[5], bytes[6], bytes[7]]) == SIZE
}

/// The registers v0 to v31 of a record. `None` exactly where its first four bytes aren't the magic number 0x46508001, or the
/// next four aren't its size of 528 bytes.
pub fn read_record(bytes: &[u8; 528]) -> Option<[u128; 32]>
    ensures { result ≡ recorded_vectors bytes.now }
{
    if is_record(bytes) {
        Some(vectors_behind(bytes))
    } else {
        None
    }
}
