//! The arguments of a call: words `NAME=VALUE`.

use crate::answers::Refusal;
use crate::words::number;

/// The arguments of a call that is made several times, and which time it is, from 0. The number `@` is that of the time, and `N@`
/// N times it.
#[derive(Clone, Copy)]
pub struct Arguments<'a> {
    pub words: &'a [&'a str],
    pub time: u64,
}

impl<'a> Arguments<'a> {
    /// The value of this name.
    pub fn word(&self, name: &str) -> Result<&'a str, Refusal> {
        for word in self.words {
            if let Some((named, value)) = word.split_once("=")
                && named == name
            {
                return Ok(value);
            }
        }
        Err(Refusal::NotACall)
    }

    /// The same as a number.
    pub fn number(&self, name: &str) -> Result<u64, Refusal> {
        let word = self.word(name)?;
        match word.strip_suffix("@") {
            None => number(word),
            Some("") => Ok(self.time),
            Some(factor) => number(factor)?
                .checked_mul(self.time)
                .ok_or(Refusal::NotANumber),
        }
    }

    /// The same of 32 bits.
    pub fn number_32(&self, name: &str) -> Result<u32, Refusal> {
        u32::try_from(self.number(name)?).map_err(|_| Refusal::NotANumber)
    }

    /// The same of 16 bits.
    pub fn number_16(&self, name: &str) -> Result<u16, Refusal> {
        u16::try_from(self.number(name)?).map_err(|_| Refusal::NotANumber)
    }

    /// The same of 8 bits.
    pub fn number_8(&self, name: &str) -> Result<u8, Refusal> {
        u8::try_from(self.number(name)?).map_err(|_| Refusal::NotANumber)
    }

    /// `yes` or `no`.
    pub fn is(&self, name: &str) -> Result<bool, Refusal> {
        match self.word(name)? {
            "yes" => Ok(true),
            "no" => Ok(false),
            _ => Err(Refusal::NotACall),
        }
    }
}
