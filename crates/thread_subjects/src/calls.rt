//! The call that a thread is in, with the bytes and pieces that it copies (`bsd_thread`).

use bsd_abi::BsdErrno;
use bsd_thread::{Answer as CallAnswer, Call, Full};
use case_words::answers::{Answer, Refusal};
use case_words::arguments::Arguments;
use case_words::words::{bytes, number};
use lx_machine::calls::Piece;
use std::alloc::{AllocError, Global};

/// The most pieces that a call copies.
const MOST_PIECES: usize = 1024;

/// The most bytes that a call copies.
const MOST_BYTES: usize = 65_536;

/// A call on the bytes and pieces that a call copies.
#[derive(Drop)]
pub enum CopyCall {
    Fetch(Vec<u8>),
    PassFetched,
    PassStored(u16),
    Append(Vec<u8>),
    AppendEqual(u32),
    DropFirst(u32),
    Truncate(u32),
    Bytes,
    Pieces,
    See,
}

/// A call on the call of a thread.
#[derive(Drop)]
pub enum CallCall {
    Enter(u64, [u64; 6]),
    LowArgument(u8),
    CopyNext(Vec<Piece>),
    RefuseOrCopy(bool, Vec<Piece>),
    Answer(u64),
    Refuse,
    AnswerWith(u64, Vec<Piece>, Vec<u8>),
    Copy(CopyCall),
}

/// A piece that is told as `ADDRESS+LENGTH`.
fn piece(word: &str) -> Result<Piece, Refusal> {
    match word.split_once("+") {
        Some((at, len)) => Ok(Piece {
            at: number(at)?,
            len: number(len)?,
        }),
        None => Err(Refusal::NotACall),
    }
}

/// Pieces with commas between them, or `none`.
fn pieces(alloc: Global, of: Arguments<'_>) -> Result<Vec<Piece>, Refusal> {
    let mut pieces = Vec::new(alloc);
    for word in of.word("pieces")?.split(",") {
        if word != "none" {
            pieces.push(piece(word)?).map_err(AllocError::from)?;
        }
    }
    Ok(pieces)
}

/// The call of this name on what is copied.
fn copy_call(alloc: Global, name: &str, of: Arguments<'_>) -> Result<CopyCall, Refusal> {
    match name {
        "fetch" => Ok(CopyCall::Fetch(bytes(alloc, of.word("bytes")?)?)),
        "pass-fetched" => Ok(CopyCall::PassFetched),
        "pass-stored" => Ok(CopyCall::PassStored(of.number_16("len")?)),
        "append" => Ok(CopyCall::Append(bytes(alloc, of.word("bytes")?)?)),
        "append-equal" => Ok(CopyCall::AppendEqual(of.number_32("count")?)),
        "drop-first" => Ok(CopyCall::DropFirst(of.number_32("count")?)),
        "truncate" => Ok(CopyCall::Truncate(of.number_32("count")?)),
        "bytes" => Ok(CopyCall::Bytes),
        "pieces" => Ok(CopyCall::Pieces),
        "see" => Ok(CopyCall::See),
        _ => Err(Refusal::NotACall),
    }
}

/// The call of this name.
pub fn call_call(alloc: Global, name: &str, of: Arguments<'_>) -> Result<CallCall, Refusal> {
    match name {
        "enter" => Ok(CallCall::Enter(
            of.number("number")?,
            [of.number("first")?, of.number("second")?, 0, 0, 0, 0],
        )),
        "low-argument" => Ok(CallCall::LowArgument(of.number_8("at")?)),
        "copy-next" => Ok(CallCall::CopyNext(pieces(alloc, of)?)),
        "refuse-or-copy" => Ok(CallCall::RefuseOrCopy(of.is("refused")?, pieces(alloc, of)?)),
        "answer" => Ok(CallCall::Answer(of.number("value")?)),
        "refuse" => Ok(CallCall::Refuse),
        "answer-with" => Ok(CallCall::AnswerWith(
            of.number("value")?,
            pieces(alloc, of)?,
            bytes(alloc, of.word("bytes")?)?,
        )),
        _ => Ok(CallCall::Copy(copy_call(alloc, name, of)?)),
    }
}

fn low_argument(call: &Call, at: u8) -> Result<Answer, Refusal> {
    if at >= 6 {
        return Err(Refusal::NotMet);
    }
    Ok(Answer::Address(u64::from(call.low_argument(usize::from(at)))))
}

fn copy_next(call: &mut Call, pieces: &[Piece]) -> Result<Answer, Refusal> {
    if pieces.len() > MOST_PIECES {
        return Err(Refusal::NotMet);
    }
    call.copy_next(pieces);
    Ok(Answer::Done)
}

fn refuse_or_copy(call: &mut Call, refused: bool, pieces: &[Piece]) -> Result<Answer, Refusal> {
    if pieces.len() > MOST_PIECES {
        return Err(Refusal::NotMet);
    }
    let refusal = if refused {
        Some(BsdErrno::EAGAIN)
    } else {
        None
    };
    call.refuse_or_copy(refusal, pieces);
    Ok(Answer::Done)
}

fn answer_with(
    call: &mut Call,
    value: u64,
    pieces: &[Piece],
    bytes: &[u8],
) -> Result<Answer, Refusal> {
    if pieces.len() > MOST_PIECES || bytes.len() > MOST_BYTES {
        return Err(Refusal::NotMet);
    }
    call.answer_with(CallAnswer::Number(value), pieces, bytes);
    Ok(Answer::Done)
}

fn fetch(call: &mut Call, bytes: &[u8]) -> Result<Answer, Refusal> {
    if bytes.len() > MOST_BYTES - call.bytes.len() || call.fetched == u32::MAX {
        return Err(Refusal::NotMet);
    }
    call.fetch(bytes);
    Ok(Answer::Done)
}

fn pass_fetched(call: &mut Call) -> Result<Answer, Refusal> {
    if call.fetched == u32::MAX {
        return Err(Refusal::NotMet);
    }
    call.pass_fetched();
    Ok(Answer::Done)
}

/// What a list answers that may be full.
fn appended(put: Result<(), Full>) -> Answer {
    match put {
        Ok(()) => Answer::Done,
        Err(Full) => Answer::Word("full"),
    }
}

/// Bytes in hexadecimal, if there are any.
fn bytes_found(alloc: Global, bytes: &[u8]) -> Result<Answer, AllocError> {
    if bytes.is_empty() {
        return Ok(Answer::Nothing);
    }
    Ok(Answer::Text(hex::encode(alloc, bytes.to_vec(alloc)?)?))
}

/// Pieces in words, if there are any.
fn pieces_found(alloc: Global, pieces: &[Piece]) -> Result<Answer, AllocError> {
    let mut text = String::new(alloc);
    for piece in pieces {
        let (at, len) = (piece.at, piece.len);
        write!(text, "{at:#x}+{len} ")?;
    }
    if text.is_empty() {
        return Ok(Answer::Nothing);
    }
    Ok(Answer::Text(String::from_str(alloc, text.trim())?))
}

/// What a call has answered.
fn answer_found(answer: Option<CallAnswer>) -> Answer {
    match answer {
        None => Answer::Nothing,
        Some(CallAnswer::Number(number)) => Answer::Number(number),
        Some(CallAnswer::Error(error)) => Answer::Error(error),
    }
}

/// A call in words.
fn seen(alloc: Global, call: &Call) -> Result<Answer, AllocError> {
    let (number, fetched) = (call.number, call.fetched);
    let (pieces, bytes) = (call.pieces.len(), call.bytes.len());
    let answer = answer_found(call.answer);
    Ok(Answer::Text(format!(in alloc;
        "call {number} fetched {fetched} pieces {pieces} bytes {bytes} answer {answer}"
    )?))
}

/// Makes a call on the bytes and pieces of a call.
fn play_copies(call: &mut Call, alloc: Global, what: CopyCall) -> Result<Answer, Refusal> {
    match what {
        CopyCall::Fetch(bytes) => fetch(call, &bytes),
        CopyCall::PassFetched => pass_fetched(call),
        CopyCall::PassStored(len) => {
            call.pass_stored(usize::from(len));
            Ok(Answer::Done)
        }
        CopyCall::Append(bytes) => Ok(appended(call.bytes.append(&bytes))),
        CopyCall::AppendEqual(count) => Ok(appended(call.bytes.append_equal(count as usize, 7))),
        CopyCall::DropFirst(count) => {
            call.bytes.drop_first(count as usize);
            Ok(Answer::Done)
        }
        CopyCall::Truncate(count) => {
            call.bytes.truncate(count as usize);
            Ok(Answer::Done)
        }
        CopyCall::Bytes => Ok(bytes_found(alloc, call.bytes.as_slice())?),
        CopyCall::Pieces => Ok(pieces_found(alloc, call.pieces.as_slice())?),
        CopyCall::See => Ok(seen(alloc, call)?),
    }
}

/// Makes a call on the call of a thread.
pub fn play_call(call: &mut Call, alloc: Global, what: CallCall) -> Result<Answer, Refusal> {
    match what {
        CallCall::Enter(number, arguments) => {
            call.enter(number, arguments);
            Ok(Answer::Done)
        }
        CallCall::LowArgument(at) => low_argument(call, at),
        CallCall::CopyNext(pieces) => copy_next(call, &pieces),
        CallCall::RefuseOrCopy(refused, pieces) => refuse_or_copy(call, refused, &pieces),
        CallCall::Answer(value) => {
            call.answer(CallAnswer::Number(value));
            Ok(Answer::Done)
        }
        CallCall::Refuse => {
            call.refuse(BsdErrno::EAGAIN);
            Ok(Answer::Done)
        }
        CallCall::AnswerWith(value, pieces, bytes) => answer_with(call, value, &pieces, &bytes),
        CallCall::Copy(what) => play_copies(call, alloc, what),
    }
}
