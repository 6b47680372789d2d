//! Products and quotients.
ghost use Rattle.std.specs.Prelude.{◌≡◌, ◌<◌};
ghost use Rattle.a64_model.specs.Arithmetic.{modulus};
ghost use Rattle.a64_model.specs.Products.{multiplied, low_half, high_product, unsigned_quotient, magnitude, signed_quotient};

use crate::arithmetic::{complement, is_negative, low};
use crate::shifts::{sign_extended, widened};
use a64_model::operands::{AddOp, Width};

/// MADD, MSUB: the addend plus or minus the product, in the width.
pub fn multiplied(width: Width, op: AddOp, c: u64, a: u64, b: u64) -> u64
    requires { c < modulus width }
    ensures { result ≡ multiplied width op c a b }
{
    let product = a.wrapping_mul(b);
    match op {
        AddOp::Add => low(width, c.wrapping_add(product)),
        AddOp::Subtract => low(width, c.wrapping_sub(product)),
    }
}

/// The low half of a register, read with a sign or without, as 64 bits.
pub fn low_half(signed: bool, n: u64) -> u64
    ensures { result ≡ low_half signed n }
{
    if signed {
        sign_extended(32, n)
    } else {
        n & 0xFFFF_FFFF
    }
}

/// SMULH, UMULH: the upper 64 bits of the product of 128 bits.
pub fn high_product(signed: bool, a: u64, b: u64) -> u64
    ensures { result ≡ high_product signed a b }
{
    let product = if signed {
        widened(Width::X, a).wrapping_mul(widened(Width::X, b))
    } else {
        u128::from(a) * u128::from(b)
    };
    (product >> 64) as u64
}

/// UDIV: 0 where the divisor is 0.
pub fn unsigned_quotient(a: u64, b: u64) -> u64
    ensures { result ≡ unsigned_quotient a b }
{
    a.checked_div(b).unwrap_or(0)
}

/// The absolute value of a number of the width that is read with a sign.
fn magnitude(width: Width, n: u64) -> u64
    requires { n < modulus width }
    ensures { result ≡ magnitude width n }
{
    if is_negative(width, n) {
        complement(width, n) + 1
    } else {
        n
    }
}

/// SDIV: the quotient rounded towards zero, and 0 where the divisor is 0. The least number by -1 gives itself.
pub fn signed_quotient(width: Width, a: u64, b: u64) -> u64
    requires a_fits { a < modulus width }
    requires b_fits { b < modulus width }
    ensures { result ≡ signed_quotient width a b }
{
    if b == 0 {
        return 0;
    }
    let quotient = magnitude(width, a) / magnitude(width, b);
    if is_negative(width, a) != is_negative(width, b) {
        low(width, complement(width, quotient).wrapping_add(1))
    } else {
        quotient
    }
}
