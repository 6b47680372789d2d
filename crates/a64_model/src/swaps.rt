//! What an atomic access writes (DDI 0487, C6.2: LDADD, LDCLR, LDEOR, LDSET, SWP, CAS).

ghost use Rattle.std.specs.Prelude.{◌≡◌, ◌%◌, ◌^◌};
ghost use Rattle.a64_model.specs.Swaps.{outcome, has_outcome};

use crate::access::SwapOp;

/// Whether the access writes, where the old number is `old`: a compare-and-swap does where it is the expected one.
pub fn has_outcome_of(op: SwapOp, old: u64, expected: u64) -> bool
    ensures { result ≡ has_outcome op old expected }
{
    match op {
        SwapOp::CompareSwap => old == expected,
        SwapOp::Add | SwapOp::Clear | SwapOp::Xor | SwapOp::Set | SwapOp::Swap => true,
    }
}

/// The number whose low bytes it writes.
pub fn outcome_of(op: SwapOp, old: u64, value: u64) -> u64
    ensures { result ≡ outcome op old value % 2 ^ 64 }
{
    match op {
        SwapOp::Add => old.wrapping_add(value),
        SwapOp::Clear => old ^ (old & value),
        SwapOp::Xor => old ^ value,
        SwapOp::Set => old | value,
        SwapOp::Swap | SwapOp::CompareSwap => value,
    }
}
