//! Numbers in hexadecimal.
ghost use Rattle.std.specs.Prelude.{◌<◌, IfSome};

/// The number of a digit.
fn digit(letter: u8) -> Option<u8>
    ensures { IfSome result (λ n. n < 16) }
{
    match letter {
        b'0'..=b'9' => Some(letter - b'0'),
        b'A'..=b'F' => Some(letter - b'A' + 10),
        _ => None,
    }
}

/// The number that these digits are.
pub fn number(digits: &str) -> Option<u128> {
    let mut number: u128 = 0;
    for letter in digits.bytes() {
        let value = digit(letter)?;
        number = number.checked_mul(16)?.checked_add(u128::from(value))?;
    }
    Some(number)
}

/// The same of a number of 64 bits.
pub fn number_64(digits: &str) -> Option<u64> {
    u64::try_from(number(digits)?).ok()
}

/// The same of a word.
pub fn word(digits: &str) -> Option<u32> {
    u32::try_from(number(digits)?).ok()
}

/// The flags N, Z, C and V as four binary digits.
pub fn flags(digits: &str) -> Option<u8> {
    let mut flags = 0;
    for letter in digits.bytes() {
        let bit = digit(letter)?;
        if 1 < bit || 7 < flags {
            return None;
        }
        flags = flags * 2 + bit;
    }
    Some(flags)
}

/// 16 bytes of memory of which nothing is told.
const UNTOLD: u128 = 0xEEEE_EEEE_EEEE_EEEE_EEEE_EEEE_EEEE_EEEE;

/// The bytes of memory, the last one first, and behind them others that don't count.
pub fn memory_bytes(digits: &str) -> Option<[u8; 32]> {
    let (mut high, mut low) = (UNTOLD, UNTOLD);
    for letter in digits.bytes() {
        let value = digit(letter)?;
        high = (high << 4) | (low >> 124);
        low = (low << 4) | u128::from(value);
    }
    let mut bytes = [0; 32];
    bytes[..16].copy_from_slice(&low.to_le_bytes());
    bytes[16..].copy_from_slice(&high.to_le_bytes());
    Some(bytes)
}
