//! DecodeBitMasks: the immediates of logical operations.
ghost use Rattle.std.specs.Prelude.{◌≡◌, ◌<◌, ◌≤◌, ◌^◌, IsTrue};
ghost use Rattle.a64_model.specs.BitMasks.{element_log, element_size, is_pattern, pattern, decode_bit_masks};

use a64_model::operands::Width;

/// The binary logarithm of the size of the elements that a logical immediate repeats.
fn element_log(n: u32, imms: u32) -> u32
    requires bit { n < 2 }
    requires six_bits { imms < 64 }
    ensures value { result ≡ element_log n imms }
    ensures small { result ≤ 6 }
{
    31u32.saturating_sub((n * 64 + (63 - imms)).leading_zeros())
}

/// The number of bits of those elements.
fn element_size(n: u32, imms: u32) -> u32
    requires bit { n < 2 }
    requires six_bits { imms < 64 }
    ensures value { result ≡ element_size n imms }
    ensures in_word { result ≤ 64 }
    ensures some { 1 ≤ element_log n imms → 1 < result }
{
    1 << element_log(n, imms)
}

/// An element of `size` bits with imms + 1 ones, rotated right by immr, over 64 bits; both modulo `size`.
fn pattern(size: u32, immr: u32, imms: u32) -> u64
    requires some { 1 < size }
    requires in_word { size ≤ 64 }
    ensures { result ≡ pattern size immr imms }
{
    let ones = (1u128 << (imms % size + 1)) - 1;
    let mask = (1u128 << size) - 1;
    let element = (((ones << size) + ones) >> (immr % size)) & mask;
    element as u64 * (u64::MAX / mask as u64)
}

/// The 64 bits that N, immr and imms of a logical operation of this width mean, which have to be those of a pattern.
pub fn decode_bit_masks(width: Width, n: u8, immr: u8, imms: u8) -> u64
    requires bit { n < 2 }
    requires six_bits { imms < 2 ^ 6 }
    requires valid { IsTrue (is_pattern width n imms) }
    ensures { result ≡ decode_bit_masks n immr imms }
{
    pattern(
        element_size(u32::from(n), u32::from(imms)),
        u32::from(immr),
        u32::from(imms),
    )
}
