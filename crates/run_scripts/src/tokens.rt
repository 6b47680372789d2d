// The words of a line: numbers, names and bytes.
ghost use Rattle.std.specs.Prelude.{◌≡◌, ◌≤◌, length, IfOk, IfSome};

use crate::reading::What;
use crate::script::{Pending, Register, Sent, Side};
use std::alloc::Global;

/// A number: in decimal, or in hexadecimal after `0x`.
pub fn number(word: &str) -> Result<u64, What> {
    let read = match word.strip_prefix("0x") {
        Some(digits) => u64::from_str_radix(digits, 16),
        None => u64::from_str_radix(word, 10),
    };
    Ok(read?)
}

/// A number of 32 bits.
pub fn number_32(word: &str) -> Result<u32, What> {
    Ok(u32::try_from(number(word)?)?)
}

/// A number of 8 bits.
pub fn number_8(word: &str) -> Result<u8, What> {
    Ok(u8::try_from(number(word)?)?)
}

/// A number with a sign, in decimal.
pub fn signed(word: &str) -> Result<i64, What> {
    Ok(i64::from_str_radix(word, 10)?)
}

/// Bytes, as two digits each.
pub fn bytes(alloc: Global, word: &str) -> Result<Vec<u8>, What> {
    match hex::decode(alloc, word) {
        Ok(bytes) => Ok(bytes),
        Err(hex::FromHexError::OutOfMemory) => Err(What::NoMemory),
        Err(_) => Err(What::NotBytes),
    }
}

/// A word of code, as eight digits.
pub fn code_word(word: &str) -> Option<u32>
    ensures { IfSome result (λ _. length word.now ≡ 8) }
{
    if word.len() == 8 {
        u32::from_str_radix(word, 16).ok()
    } else {
        None
    }
}

/// `out` or `err`.
pub fn side(word: &str) -> Result<Side, What> {
    match word {
        "out" => Ok(Side::Out),
        "err" => Ok(Side::Err),
        _ => Err(What::NotASide),
    }
}

/// The number of one of the registers x0 to x30.
fn x_number(digits: &str) -> Result<u8, What>
    ensures { IfOk result (λ n. n ≤ 30) }
{
    match number_8(digits) {
        Ok(n) if n <= 30 => Ok(n),
        _ => Err(What::NotARegister),
    }
}

/// A register: `x0` to `x30`, `sp` or `pc`.
pub fn register(word: &str) -> Result<Register, What> {
    match word {
        "sp" => Ok(Register::Sp),
        "pc" => Ok(Register::Pc),
        _ => match word.strip_prefix("x") {
            Some(digits) => Ok(Register::X(x_number(digits)?)),
            None => Err(What::NotARegister),
        },
    }
}

/// The number of a signal.
fn signal_number(word: &str) -> Result<u8, What>
    ensures { IfOk result (λ n. (1 ≤ n) × (n ≤ 64)) }
{
    match number_8(word) {
        Ok(n) if n >= 1 && n <= 64 => Ok(n),
        _ => Err(What::NotASignal),
    }
}

/// The list in which a signal is pending: `own` or `shared`.
fn list(word: &str) -> Result<Pending, What> {
    match word {
        "own" => Ok(Pending::Own),
        "shared" => Ok(Pending::Shared),
        _ => Err(What::NotASignal),
    }
}

/// A pending signal: its list, and its number.
pub fn sent(named: &str, signal: &str) -> Result<Sent, What> {
    Ok(Sent {
        list: list(named)?,
        signal: signal_number(signal)?,
    })
}
