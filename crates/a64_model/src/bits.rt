//! Fields of an instruction word.
ghost use Rattle.std.specs.Prelude.{◌≡◌, ◌<◌, ◌≤◌};
ghost use Rattle.a64_model.specs.Bits.{bit, bits};

/// The bits `high` down to `low` of a word, as a number.
pub fn bits(word: u32, high: u32, low: u32) -> u32
    requires order { low ≤ high }
    requires in_word { high < 32 }
    ensures { result ≡ bits word high low }
{
    (word >> low) & (u32::MAX >> (31 - (high - low)))
}

/// Whether the bit `at` of a word is set.
pub fn bit(word: u32, at: u32) -> bool
    requires { at < 32 }
    ensures { result ≡ bit word at }
{
    (word >> at) & 1 == 1
}
