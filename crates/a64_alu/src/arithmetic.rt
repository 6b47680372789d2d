//! AddWithCarry, logical operations, and the flags.
ghost use Rattle.std.specs.Prelude.{◌≡◌, ◌<◌};
ghost use Rattle.std.specs.Int.{from_bool};
ghost use Rattle.a64_model.specs.Arithmetic.{modulus, low, is_negative, complement, flags, add_with_carry, carries, overflows, add_with_carry_flags, addend, carry_in, logical, sets_flags, logical_flags};

use a64_model::operands::{AddOp, LogicalOp, Width};

/// The low bits of a number, as many as the width has.
pub fn low(width: Width, n: u64) -> u64
    ensures value { result ≡ low width n }
    ensures fits { result < modulus width }
{
    match width {
        Width::W => n & 0xFFFF_FFFF,
        Width::X => n,
    }
}

/// Whether the highest bit of a number of the width is set.
pub fn is_negative(width: Width, n: u64) -> bool
    ensures { result ≡ is_negative width n }
{
    match width {
        Width::W => n >= 1 << 31,
        Width::X => n >= 1 << 63,
    }
}

/// NOT of a number of the width.
pub fn complement(width: Width, n: u64) -> u64
    requires { n < modulus width }
    ensures value { result ≡ complement width n }
    ensures fits { result < modulus width }
{
    match width {
        Width::W => 0xFFFF_FFFF - n,
        Width::X => !n,
    }
}

/// The flags N, Z, C and V as bits 3 to 0.
pub fn flags(n: bool, z: bool, c: bool, v: bool) -> u8
    ensures { result ≡ flags n z c v }
{
    u8::from(n) * 8 + u8::from(z) * 4 + u8::from(c) * 2 + u8::from(v)
}

/// The result of an addition, and its flags N, Z, C and V as bits 3 to 0.
#[derive(Clone, Copy)]
pub struct Sum {
    pub result: u64,
    pub nzcv: u8,
}

/// C: whether the exact sum of two numbers and a carry has a bit above the width.
#[tactic(auto, using(crate::proofs::SumFlags::carries_past))]
fn carries(width: Width, a: u64, b: u64, carry: bool) -> bool
    requires a_fits { a < modulus width }
    requires b_fits { b < modulus width }
    ensures { result ≡ carries width a b (from_bool carry) }
{
    let exact = u128::from(a) + u128::from(b) + u128::from(carry);
    match width {
        Width::W => exact >= 1 << 32,
        Width::X => exact >= 1 << 64,
    }
}

/// V: whether both numbers are negative and their sum is not, or neither is and their sum is.
#[tactic(auto, using(crate::proofs::SumFlags::overflows_by_signs))]
fn overflows(width: Width, a: u64, b: u64, carry: bool) -> bool
    requires a_fits { a < modulus width }
    requires b_fits { b < modulus width }
    ensures { result ≡ overflows width a b (from_bool carry) }
{
    let negative = is_negative(width, added(width, a, b, carry));
    if is_negative(width, a) {
        is_negative(width, b) && !negative
    } else {
        !is_negative(width, b) && negative
    }
}

/// The low bits of the sum of two numbers and a carry.
#[tactic(auto, using(crate::proofs::Widths::low_mod))]
fn added(width: Width, a: u64, b: u64, carry: bool) -> u64
    ensures value { result ≡ add_with_carry width a b (from_bool carry) }
    ensures fits { result < modulus width }
{
    low(width, a.wrapping_add(b).wrapping_add(u64::from(carry)))
}

/// AddWithCarry: the sum of two numbers of the width and a carry, with its flags.
pub fn add_with_carry(width: Width, a: u64, b: u64, carry: bool) -> Sum
    requires a_fits { a < modulus width }
    requires b_fits { b < modulus width }
    ensures sum { result.result ≡ add_with_carry width a b (from_bool carry) }
    ensures fits { result.result < modulus width }
    ensures flags { result.nzcv ≡ add_with_carry_flags width a b (from_bool carry) }
{
    let result = added(width, a, b, carry);
    let nzcv = flags(
        is_negative(width, result),
        result == 0,
        carries(width, a, b, carry),
        overflows(width, a, b, carry),
    );
    Sum { result, nzcv }
}

/// What is added for an operand: a subtraction adds NOT of it, and 1.
pub fn addend(width: Width, op: AddOp, n: u64) -> u64
    requires { n < modulus width }
    ensures value { result ≡ addend width op n }
    ensures fits { result < modulus width }
{
    match op {
        AddOp::Add => n,
        AddOp::Subtract => complement(width, n),
    }
}

/// The carry in, where it is not the C flag.
pub fn carry_in(op: AddOp) -> bool
    ensures { from_bool result ≡ carry_in op }
{
    matches!(op, AddOp::Subtract)
}

/// A logical operation on two numbers of the width.
#[tactic(auto, using(crate::proofs::Widths::or_below, crate::proofs::Widths::xor_below))]
pub fn logical(width: Width, op: LogicalOp, a: u64, b: u64) -> u64
    requires a_fits { a < modulus width }
    requires b_fits { b < modulus width }
    ensures value { result ≡ logical op a b }
    ensures fits { result < modulus width }
{
    match op {
        LogicalOp::And | LogicalOp::AndSetFlags => a & b,
        LogicalOp::Or => a | b,
        LogicalOp::ExclusiveOr => a ^ b,
    }
}

/// Whether a logical operation sets the flags.
pub fn sets_flags(op: LogicalOp) -> bool
    ensures { result ≡ sets_flags op }
{
    matches!(op, LogicalOp::AndSetFlags)
}

/// The flags of the result of a logical operation.
pub fn logical_flags(width: Width, n: u64) -> u8
    ensures { result ≡ logical_flags width n }
{
    flags(is_negative(width, n), n == 0, false, false)
}
