//! Reversals and counts.
ghost use Rattle.std.specs.Prelude.{◌≡◌, ◌<◌};
ghost use Rattle.a64_model.specs.Arithmetic.{modulus};
ghost use Rattle.a64_model.specs.Reversals.{int_width, reverse_halves, reverse_words, leading_signs, reversed};
ghost use Rattle.std.specs.Int.{leading_zeros, reverse_bits};

use crate::arithmetic::{complement, is_negative};
use a64_model::operands::{OneSourceOp, Width};

/// RBIT.
fn reverse_bits(width: Width, n: u64) -> u64
    requires { n < modulus width }
    ensures { result ≡ reverse_bits (int_width width) n }
{
    match width {
        Width::W => u64::from((n as u32).reverse_bits()),
        Width::X => n.reverse_bits(),
    }
}

/// REV16.
fn reverse_halves(width: Width, n: u64) -> u64
    requires { n < modulus width }
    ensures { result ≡ reverse_halves width n }
{
    match width {
        Width::W => {
            let [a, b, c, d] = (n as u32).to_le_bytes();
            u64::from(u32::from_le_bytes([b, a, d, c]))
        }
        Width::X => {
            let [a, b, c, d, e, f, g, h] = n.to_le_bytes();
            u64::from_le_bytes([b, a, d, c, f, e, h, g])
        }
    }
}

/// REV32, and REV of 32 bits.
fn reverse_words(width: Width, n: u64) -> u64
    requires { n < modulus width }
    ensures { result ≡ reverse_words width n }
{
    match width {
        Width::W => u64::from((n as u32).swap_bytes()),
        Width::X => {
            let high = u64::from(((n >> 32) as u32).swap_bytes());
            let low = u64::from(((n & 0xFFFF_FFFF) as u32).swap_bytes());
            high * (1 << 32) + low
        }
    }
}

/// CLZ.
fn leading_zeros(width: Width, n: u64) -> u64
    requires { n < modulus width }
    ensures { result ≡ leading_zeros (int_width width) n }
{
    match width {
        Width::W => u64::from((n as u32).leading_zeros()),
        Width::X => u64::from(n.leading_zeros()),
    }
}

/// CLS.
fn leading_signs(width: Width, n: u64) -> u64
    requires { n < modulus width }
    ensures { result ≡ leading_signs width n }
{
    let unlike = if is_negative(width, n) {
        complement(width, n)
    } else {
        n
    };
    leading_zeros(width, unlike).saturating_sub(1)
}

/// RBIT, REV16, REV32 (REV of 32 bits), CLZ and CLS of a number of the width.
pub fn reversed(width: Width, op: OneSourceOp, n: u64) -> u64
    requires { n < modulus width }
    ensures { result ≡ reversed width op n }
{
    match op {
        OneSourceOp::ReverseBits => reverse_bits(width, n),
        OneSourceOp::ReverseBytesOfHalves => reverse_halves(width, n),
        OneSourceOp::ReverseBytesOfWords => reverse_words(width, n),
        OneSourceOp::CountLeadingZeros => leading_zeros(width, n),
        OneSourceOp::CountLeadingSigns => leading_signs(width, n),
    }
}
