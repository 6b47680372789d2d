//! What a line expects, and what was found.
use crate::script::End;
use std::fmt;

/// What a line expects, or what was found in its place.
#[derive(Clone, Copy, PartialEq, Eq)]
pub enum Seen {
    /// There is no such thing.
    Nothing,
    /// A number, as of a register.
    Number(u64),
    /// What a call answers.
    Answer(i64),
    /// A call that was entered, by its number.
    Call(u64),
    /// So many steps.
    Steps(u64),
    /// More steps than a line takes.
    NoRest,
    /// A step was taken, or there is none.
    Step(bool),
    /// A thread is there, or not.
    Thread(bool),
    /// How a guest ends. `None`: it goes on.
    End(Option<End>),
    /// The bytes of the script.
    Same,
    /// The first byte that differs, by its place.
    Byte(usize, u8),
    /// So many bytes.
    Length(u64),
    /// So many labels.
    Labels(u64),
}

// An end in words.
fn write_end<W: fmt::Write>(end: End, f: &mut fmt::Formatter<W>) -> fmt::Result {
    match end {
        End::Exit(code) => write!(f, "exit {code}"),
        End::Signal(signal) => write!(f, "signal {signal}"),
        End::Standstill => f.write_str("standstill"),
    }
}

// What no number stands in, in words.
fn plain_words(seen: Seen) -> &'static str {
    match seen {
        Seen::NoRest => "no rest",
        Seen::Step(true) => "a step",
        Seen::Step(false) => "no step",
        Seen::Thread(true) => "a thread",
        Seen::Thread(false) => "no thread",
        Seen::End(_) => "no end",
        Seen::Same => "the bytes",
        _ => "nothing",
    }
}

impl fmt::Display for Seen {
    fn fmt<W: fmt::Write>(&self, f: &mut fmt::Formatter<W>) -> fmt::Result {
        match *self {
            Seen::Number(n) => write!(f, "{n:#x}"),
            Seen::Answer(n) => write!(f, "answer {n}"),
            Seen::Call(n) => write!(f, "call {n}"),
            Seen::Steps(n) => write!(f, "{n} steps"),
            Seen::End(Some(end)) => write_end(end, f),
            Seen::Byte(place, byte) => write!(f, "byte {byte:02x} at {place}"),
            Seen::Length(n) => write!(f, "{n} bytes"),
            Seen::Labels(n) => write!(f, "{n} labels"),
            seen => f.write_str(plain_words(seen)),
        }
    }
}
