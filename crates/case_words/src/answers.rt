//! What a call answers, and why a line has no answer.

use bsd_abi::BsdErrno;
use std::alloc::AllocError;
use std::fmt;

/// What a call answers.
#[derive(Drop)]
pub enum Answer {
    /// The call answers nothing.
    Done,
    /// Whether something is so.
    Is(bool),
    /// There is none.
    Nothing,
    Number(u64),
    Address(u64),
    /// One of a few words.
    Word(&'static str),
    Error(BsdErrno),
    /// Several of these.
    Text(String),
}

impl Answer {
    /// The number, if there is one.
    pub fn number(number: Option<u64>) -> Answer {
        match number {
            Some(number) => Answer::Number(number),
            None => Answer::Nothing,
        }
    }

    /// The address, if there is one.
    pub fn address(address: Option<u64>) -> Answer {
        match address {
            Some(address) => Answer::Address(address),
            None => Answer::Nothing,
        }
    }
}

impl fmt::Display for Answer {
    fn fmt<W: fmt::Write>(&self, f: &mut fmt::Formatter<W>) -> fmt::Result {
        match self {
            Answer::Done => f.write_str("done"),
            Answer::Is(true) => f.write_str("yes"),
            Answer::Is(false) => f.write_str("no"),
            Answer::Nothing => f.write_str("none"),
            Answer::Number(number) => write!(f, "{number}"),
            Answer::Address(address) => write!(f, "{address:#x}"),
            Answer::Word(word) => f.write_str(word),
            Answer::Error(error) => write!(f, "{error:?}"),
            Answer::Text(text) => f.write_str(text),
        }
    }
}

/// Why a call has no answer.
#[derive(Clone, Copy, Debug)]
pub enum Refusal {
    /// There is no such call, or it has other arguments.
    NotACall,
    /// An argument is no number, or too large a one.
    NotANumber,
    /// An argument is no bytes.
    NotBytes,
    /// The call may not be made so.
    NotMet,
    /// Nothing is made on which it could be made.
    NotMade,
    NoMemory,
}

impl From<AllocError> for Refusal {
    fn from(_: AllocError) -> Refusal {
        Refusal::NoMemory
    }
}

impl fmt::Display for Refusal {
    fn fmt<W: fmt::Write>(&self, f: &mut fmt::Formatter<W>) -> fmt::Result {
        f.write_str(match self {
            Refusal::NotACall => "not a call",
            Refusal::NotANumber => "not a number",
            Refusal::NotBytes => "not bytes",
            Refusal::NotMet => "condition not met",
            Refusal::NotMade => "not made",
            Refusal::NoMemory => "no memory",
        })
    }
}
