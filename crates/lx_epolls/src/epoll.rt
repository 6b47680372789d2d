//! What of an open file is ready, and what an epoll answers of its interests (epoll(7), epoll_wait(2)).
ghost use Rattle.std.specs.List.{list_any};
ghost use Rattle.std.specs.Prelude.{IfOk, length, OnOk, ◌++◌, ◌≡◌, ◌≤◌};
ghost use Rattle.places.specs.Places.{bytes_of};
ghost use Rattle.lx_machine.specs.Epoll.{are_distinct, are_due, epoll_number, event_of, events, interests_of, is_answer, is_due, is_due_interest, is_left, is_same, kind_of, named, pipe_holds, ready, ready_at, ready_counter, reported, told};
ghost use Rattle.lx_machine.specs.Interests.{side_holds};
ghost use Rattle.lx_machine.specs.Lists.{at_place};
ghost use Rattle.lx_machine.specs.declared.files.FileKind.TheVariants as kind;

use byteorder::{ByteOrder, LittleEndian};
use linux_abi::epoll::{is_edge, wanted};
use lx_files::files::{has_reader, has_writer};
use lx_files::lists::place_at;
use lx_machine::buffer::{Bytes, NoMemory};
use lx_machine::files::{Counter, FileKind, Files, Interest, is_named, is_picked};
use lx_machine::label::{LxSide, Pick};
use ready_bits::{console_events, counter_events, input_events, read_end_events, write_end_events};
use std::alloc::Global;

/// The bytes of an event (epoll_event(3type)).
pub(crate) const EVENT: u64 = 16;

/// What of a counter is ready.
fn ready_counter(counter: Option<Counter>) -> u32
    ensures { result ≡ ready_counter counter }
{
    match counter {
        Some(n) => counter_events(n.value),
        None => 0,
    }
}

/// How many bytes a pipe holds.
fn pipe_holds(files: &Files, pipe: u32) -> usize
    ensures { result ≡ length (pipe_holds files.now pipe) }
{
    match files.pipes.get(pipe as usize) {
        Some(Some(room)) => room.held(),
        _ => 0,
    }
}

/// How many bytes a console room holds.
fn side_holds(files: &Files, which: LxSide) -> usize
    ensures { result ≡ length (side_holds files.now which) }
{
    match which {
        LxSide::Out => files.out.held(),
        LxSide::Err => files.err.held(),
    }
}

/// What of the read end of a pipe is ready.
fn ready_read_end(files: &Files, pipe: u32) -> u32
    ensures { result ≡ ready files.now (kind.PipeRead pipe) }
{
    read_end_events(pipe_holds(files, pipe), has_writer(files, pipe))
}

/// What of the write end of a pipe is ready.
fn ready_write_end(files: &Files, pipe: u32) -> u32
    ensures { result ≡ ready files.now (kind.PipeWrite pipe) }
{
    write_end_events(pipe_holds(files, pipe), has_reader(files, pipe))
}

/// The bits that hold of an open file now.
pub fn ready(files: &Files, kind: FileKind) -> u32
    ensures { result ≡ ready files.now kind }
{
    match kind {
        FileKind::Input => input_events(files.input.left().len()),
        FileKind::PipeRead(pipe) => ready_read_end(files, pipe),
        FileKind::PipeWrite(pipe) => ready_write_end(files, pipe),
        FileKind::Console(which) => console_events(side_holds(files, which)),
        FileKind::Counter(number) => ready_counter(place_at(&files.counters, number)),
        FileKind::Epoll(_) => 0,
    }
}

/// The bits that hold of the open file of this number now.
fn ready_at(files: &Files, file: u32) -> u32
    ensures { result ≡ ready_at files.now (at_place files.now.files file) }
{
    match place_at(&files.files, file) {
        Some(f) => ready(files, f.kind),
        None => 0,
    }
}

/// The bits that are reported of an open file, where these are asked for.
pub fn told(files: &Files, file: u32, asked: u32) -> u32
    ensures { result ≡ told files.now file asked }
{
    ready_at(files, file) & wanted(asked)
}

/// The bits that an interest reports.
pub fn reported(files: &Files, interest: Interest) -> u32
    ensures { result ≡ reported files.now interest }
{
    told(files, interest.file, interest.asked)
}

/// Whether the interest has something to report now.
pub fn is_due(files: &Files, interest: Interest) -> bool
    ensures { result ≡ is_due files.now interest }
{
    interest.enabled
        && (interest.armed || !is_edge(interest.asked))
        && reported(files, interest) != 0
}

/// Whether some interest is due.
pub fn has_due(files: &Files, interests: &[Interest]) -> bool
    ensures { result ≡ list_any (is_due files.now) interests.now }
{
    interests.iter().any(|i| is_due(files, *i))
}

/// The interest that a pick names.
pub(crate) fn named(interests: &[Interest], pick: Pick) -> Option<Interest>
    ensures { result ≡ named interests.now pick }
{
    match interests {
        [] => None,
        [first, rest @ ..] => {
            if is_named(pick.file, pick.descriptor, *first) {
                Some(*first)
            } else {
                named(rest, pick)
            }
        }
    }
}

/// Whether a pick names a due interest.
fn is_due_pick(files: &Files, interests: &[Interest], pick: Pick) -> bool
    ensures { result ≡ is_due_interest files.now (named interests.now pick) }
{
    match named(interests, pick) {
        Some(interest) => is_due(files, interest),
        None => false,
    }
}

/// Whether each pick names a due interest.
fn are_due(files: &Files, interests: &[Interest], picks: &[Pick]) -> bool
    ensures { result ≡ are_due files.now interests.now picks.now }
{
    match picks {
        [] => true,
        [first, rest @ ..] => {
            is_due_pick(files, interests, *first) && are_due(files, interests, rest)
        }
    }
}

/// Whether both name the same interest.
fn is_same(a: Pick, b: Pick) -> bool
    ensures { result ≡ is_same a b }
{
    a.file == b.file && a.descriptor == b.descriptor
}

/// Whether the same interest is picked again.
fn is_again(pick: Pick, picks: &[Pick]) -> bool
    ensures { result ≡ list_any (is_same pick) picks.now }
{
    picks.iter().any(|p| is_same(pick, *p))
}

/// Whether no interest is picked twice.
fn are_distinct(picks: &[Pick]) -> bool
    ensures { result ≡ are_distinct picks.now }
{
    match picks {
        [] => true,
        [first, rest @ ..] => !is_again(*first, rest) && are_distinct(rest),
    }
}

/// Whether the interest is due and isn't picked.
fn is_left(files: &Files, picks: &[Pick], interest: Interest) -> bool
    ensures { result ≡ is_left files.now picks.now interest }
{
    is_due(files, interest) && !is_picked(picks, interest)
}

/// Whether some interest is due and isn't picked.
fn any_left(files: &Files, picks: &[Pick], interests: &[Interest]) -> bool
    ensures { result ≡ list_any (is_left files.now picks.now) interests.now }
{
    interests.iter().any(|i| is_left(files, picks, *i))
}

/// Whether these picks are an answer of an epoll with these interests that is asked for at most so many.
pub fn is_answer(files: &Files, interests: &[Interest], most: usize, picks: &[Pick]) -> bool
    ensures { result ≡ is_answer files.now interests.now most picks.now }
{
    !picks.is_empty()
        && picks.len() <= most
        && are_distinct(picks)
        && are_due(files, interests, picks)
        && (picks.len() == most || !any_left(files, picks, interests))
}

/// The event of an interest: its bits, 4 bytes that aren't used, and its data.
fn event(reported: u32, user: u64) -> [u8; 16]
    ensures { result ≡ bytes_of reported 4 ++ bytes_of 0 4 ++ bytes_of user 8 }
{
    let mut event = [0; 16];
    LittleEndian::write_u32(&mut event, reported);
    LittleEndian::write_u64(&mut event[8..], user);
    event
}

/// Appends the event of the interest that a pick names.
fn append_named(
    bytes: &mut Bytes,
    files: &Files,
    interests: &[Interest],
    pick: Pick,
) -> Result<(), NoMemory>
    ensures { OnOk result (bytes.new ≡ bytes.old ++ event_of files.now (named interests.now pick)) }
{
    match named(interests, pick) {
        Some(interest) => bytes.append(&event(reported(files, interest), interest.data)),
        None => Ok(()),
    }
}

/// Appends the events of the interests that are picked, in the order of the picks.
pub fn append_events(
    bytes: &mut Bytes,
    files: &Files,
    interests: &[Interest],
    picks: &[Pick],
) -> Result<(), NoMemory>
    ensures { OnOk result (bytes.new ≡ bytes.old ++ events files.now interests.now picks.now) }
{
    match picks {
        [] => Ok(()),
        [first, rest @ ..] => {
            append_named(bytes, files, interests, *first)?;
            append_events(bytes, files, interests, rest)
        }
    }
}

/// The events of the interests that are picked, in their order.
pub(crate) fn events(
    alloc: Global,
    files: &Files,
    interests: &[Interest],
    picks: &[Pick],
) -> Result<Bytes, NoMemory>
    ensures { IfOk result (λ bytes. bytes ≡ events files.now interests.now picks.now) }
{
    let mut bytes = Bytes::empty(alloc);
    append_events(&mut bytes, files, interests, picks)?;
    Ok(bytes)
}

/// What the open file is that a descriptor names.
pub(crate) fn kind_of(files: &Files, fd: u32) -> Option<FileKind>
    ensures { result ≡ kind_of files.now fd }
{
    let d = place_at(&files.descriptors, fd)?;
    let f = place_at(&files.files, d.file)?;
    Some(f.kind)
}

/// The number of an epoll.
pub(crate) fn epoll_number(kind: FileKind) -> Option<u32>
    ensures { result ≡ epoll_number kind }
{
    match kind {
        FileKind::Epoll(number) => Some(number),
        _ => None,
    }
}

/// The interests of an epoll, and none where there is no such epoll.
pub(crate) fn interests_of(files: &Files, epoll: Option<u32>) -> &[Interest]
    ensures { result.now ≡ interests_of files.now epoll }
{
    let Some(number) = epoll else {
        return &[];
    };
    match files.epolls.get(number as usize) {
        Some(Some(interests)) => interests.as_slice(),
        _ => &[],
    }
}
