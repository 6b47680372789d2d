//! Bitfields that are moved: SBFM, BFM, UBFM.
ghost use Rattle.std.specs.Prelude.{◌≡◌, ◌<◌, ◌≤◌, ◌^◌, ◌-◌, ◌%◌};
ghost use Rattle.a64_model.specs.Arithmetic.{modulus};
ghost use Rattle.a64_model.specs.Operands.{width_bits};
ghost use Rattle.a64_model.specs.Bitfields.{field_length, field_from, field_to, field_of, unsigned_field, signed_field, field_mask, kept_field, moved_field};

use crate::arithmetic::{complement, low};
use crate::shifts::sign_extended;
use a64_model::operands::{BitfieldOp, Width};
use a64_model::read::operands::width_bits;

/// The number whose low `count` bits are set, and no other.
fn ones(count: u32) -> u64
    requires some { 0 < count }
    requires in_word { count ≤ 64 }
    ensures value { result ≡ 2 ^ count - 1 }
    ensures fits { result < 2 ^ count }
{
    u64::MAX >> (64 - count)
}

/// The low `count` bits.
#[tactic(auto, using(std::proofs::lemmas::Nat::and_mask))]
fn low_bits(n: u64, count: u32) -> u64
    requires some { 0 < count }
    requires in_word { count ≤ 64 }
    ensures { result ≡ n % 2 ^ count }
{
    n & ones(count)
}

/// The number of bits of a field.
fn field_length(immr: u32, imms: u32) -> u32
    requires { imms < 64 }
    ensures { result ≡ field_length immr imms }
{
    if immr <= imms {
        imms + 1 - immr
    } else {
        imms + 1
    }
}

/// The lowest bit of a field where it is put.
fn field_to(bits: u32, immr: u32, imms: u32) -> u32
    requires { immr < bits }
    ensures { result ≡ field_to bits immr imms }
{
    if immr <= imms { 0 } else { bits - immr }
}

/// A field of a register.
fn field_of(n: u64, immr: u32, imms: u32) -> u64
    requires { imms < 64 }
    ensures { result ≡ field_of n immr imms }
{
    let from = if immr <= imms { immr } else { 0 };
    low_bits(n >> from, field_length(immr, imms))
}

/// UBFM: the field at its place, among zeros.
fn unsigned_field(width: Width, n: u64, immr: u32, imms: u32) -> u64
    requires immr { immr < width_bits width }
    requires imms { imms < width_bits width }
    ensures { result ≡ unsigned_field width n immr imms }
{
    field_of(n, immr, imms) << field_to(width_bits(width), immr, imms)
}

/// SBFM: the field at its place, zeros below, and copies of its highest bit above.
fn signed_field(width: Width, n: u64, immr: u32, imms: u32) -> u64
    requires immr { immr < width_bits width }
    requires imms { imms < width_bits width }
    ensures { result ≡ signed_field width n immr imms }
{
    let field = sign_extended(field_length(immr, imms), field_of(n, immr, imms));
    low(width, field << field_to(width_bits(width), immr, imms))
}

/// Ones where a field is put.
fn field_mask(width: Width, immr: u32, imms: u32) -> u64
    requires immr { immr < width_bits width }
    requires imms { imms < width_bits width }
    ensures value { result ≡ field_mask width immr imms }
    ensures fits { result < modulus width }
{
    ones(field_length(immr, imms)) << field_to(width_bits(width), immr, imms)
}

/// BFM: the field at its place, among the bits of `d`.
fn kept_field(width: Width, d: u64, n: u64, immr: u32, imms: u32) -> u64
    requires d { d < modulus width }
    requires immr { immr < width_bits width }
    requires imms { imms < width_bits width }
    ensures { result ≡ kept_field width d n immr imms }
{
    (d & complement(width, field_mask(width, immr, imms))) | unsigned_field(width, n, immr, imms)
}

/// The field of `n` from bit `immr` to bit `imms` moved down to bit 0, or where `imms` is less the field from bit 0 to
/// bit `imms` moved up to the width less `immr`; round it copies of its sign, the bits of `d`, or zeros.
pub fn moved_field(width: Width, op: BitfieldOp, d: u64, n: u64, immr: u32, imms: u32) -> u64
    requires d { d < modulus width }
    requires immr { immr < width_bits width }
    requires imms { imms < width_bits width }
    ensures { result ≡ moved_field width op d n immr imms }
{
    match op {
        BitfieldOp::Signed => signed_field(width, n, immr, imms),
        BitfieldOp::Kept => kept_field(width, d, n, immr, imms),
        BitfieldOp::Unsigned => unsigned_field(width, n, immr, imms),
    }
}
