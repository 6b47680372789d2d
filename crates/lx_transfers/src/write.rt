//! The bytes of write(2) and writev(2): into a pipe, a console or a counter (pipe(7), eventfd(2)).
ghost use Rattle.std.specs.Option.{option_map};
ghost use Rattle.std.specs.Prelude.{IfErr, IfOk, if◌then◌else◌, is_some, length, nat_le, nat_lt, OnErr, OnOk, slice_set, Some, true, ℕ, ◌++◌, ◌+◌, ◌-◌, ◌<◌, ◌^◌, ◌≡◌, ◌≤◌};
ghost use Rattle.lx_machine.specs.Files.{held_in};
ghost use Rattle.lx_machine.specs.Interests.{side_holds};
ghost use Rattle.lx_machine.specs.Lists.{at_place, bind};
ghost use Rattle.lx_machine.specs.Move.{MakesTransfer};
ghost use Rattle.lx_machine.specs.Read.{with_counter};
ghost use Rattle.lx_machine.specs.Transfers.{ends_with, transfer_outcome, waits};
ghost use Rattle.lx_machine.specs.Write.{breaks, count, goes_in, into_console, write_console, write_counter, write_move, write_pipe, write_waits, wrote};
ghost use Rattle.lx_machine.specs.declared.files.FileKind.TheVariants as kind;
ghost use Rattle.lx_machine.specs.declared.files.Files.{Files};

use crate::read::set_counter;
use crate::readv::number;
use crate::transfers::{end_refused, end_with, wait};
use linux_abi::{LinuxErrno, answer};
use lx_files::files::has_reader;
use lx_files::interests::arm_on;
use lx_files::lists::place_at;
use lx_machine::buffer::{Bytes, NoMemory, Room};
use lx_machine::calls::LxCall;
use lx_machine::files::{Counter, FileKind, Files, NumberedFile};
use lx_machine::label::LxSide;
use lx_machine::refusal::LxRefusal;

/// The most bytes that a write moves all or none of (pipe(7), PIPE_BUF).
const PIPE_BUF: u64 = 4096;

/// Whether a write is of at most so many bytes in all.
fn is_at_most(call: &LxCall, most: u64) -> bool
    ensures { result ≡ nat_le (count call.now) most }
{
    let left = call.bytes.as_slice().len() as u64;
    call.moved <= most && left <= most - call.moved
}

/// How many bytes now go into a room.
fn goes_in(call: &LxCall, room: &Room) -> usize
    ensures value { result ≡ goes_in call.now (length room.now) }
    ensures fits { 0 < result → length room.now + result ≤ 65536 }
    ensures most { result ≤ length call.now.bytes }
{
    let len = call.bytes.as_slice().len();
    let free = room.free();
    if is_at_most(call, PIPE_BUF) {
        if len <= free { len } else { 0 }
    } else {
        free.min(len)
    }
}

/// A write whose first n bytes have gone in, so that it has moved so many in all.
fn wrote(files: &mut Files, call: &mut LxCall, f: NumberedFile, n: usize, moved: u64)
    requires { moved ≡ call.old.moved + n }
    ensures { wrote files.old call.old f n ≡ Some (transfer_outcome files.new call.new) }
{
    if f.file.nonblocking || call.bytes.as_slice().len() <= n {
        end_with(files, call, f.number, moved);
    } else {
        call.moved = moved;
        call.bytes.drop_first(n);
    }
}

/// A write that can move nothing.
fn write_nothing(files: &mut Files, call: &mut LxCall, f: NumberedFile) -> Result<bool, LxRefusal>
    ensures { MakesTransfer (write_waits files.old call.old f) files.old call.old files.new call.new result }
{
    if f.file.nonblocking && call.moved > 0 {
        let moved = call.moved;
        end_with(files, call, f.number, moved);
        return Ok(false);
    }
    wait(files, call, f)
}

/// A write to a pipe without a reader.
fn break_pipe(files: &mut Files, call: &mut LxCall, file: u32)
    ensures { breaks files.old call.old file ≡ Some record (transfer_outcome files.new call.new) { is_broken = true } }
{
    let n = if call.moved > 0 {
        call.moved
    } else {
        answer(LinuxErrno::EPIPE)
    };
    end_with(files, call, file, n);
}

/// What a write has moved once n more bytes have gone in.
fn moved_with(call: &LxCall, n: usize) -> Result<u64, LxRefusal>
    ensures ok { IfOk result (λ moved. moved ≡ call.now.moved + n) }
    ensures err { IfErr result (λ e. e ≡ LxRefusal.NoMemory) }
{
    match call.moved.checked_add(n as u64) {
        Some(moved) => Ok(moved),
        None => Err(LxRefusal::NoMemory),
    }
}

/// Bytes go into the pipe of a place, if there is one.
fn put_into_place(place: &mut Option<Room>, bytes: &[u8])
    requires { length (held_in place.old) + length bytes.now ≤ 65536 }
    ensures { place.new ≡ option_map (λ held. held ++ bytes.now) place.old }
{
    if let Some(room) = place {
        room.put(bytes);
    }
}

/// Bytes go into a pipe.
#[tactic(auto, using(std::proofs::lemmas::List::set_past))]
fn put_into_pipe(pipes: &mut [Option<Room>], pipe: u32, bytes: &[u8])
    requires { length (held_in (at_place pipes.old pipe)) + length bytes.now ≤ 65536 }
    ensures { pipes.new ≡ slice_set pipes.old pipe (option_map (λ held. held ++ bytes.now) (at_place pipes.old pipe)) }
{
    let at = pipe as usize;
    if at < pipes.len() {
        put_into_place(&mut pipes[at], bytes);
    }
}

/// A write of some bytes to a pipe.
fn write_to_pipe(
    files: &mut Files,
    call: &mut LxCall,
    f: NumberedFile,
    pipe: u32,
) -> Result<bool, LxRefusal>
    ensures { MakesTransfer (bind (at_place files.old.pipes pipe) (write_pipe files.old call.old f pipe)) files.old call.old files.new call.new result }
{
    let Some(Some(room)) = files.pipes.get(pipe as usize) else {
        return Err(LxRefusal::NoStep);
    };
    let n = goes_in(call, room);
    if !has_reader(files, pipe) {
        break_pipe(files, call, f.number);
        return Ok(true);
    }
    if n == 0 {
        return write_nothing(files, call, f);
    }
    let moved = moved_with(call, n)?;
    put_into_pipe(&mut files.pipes, pipe, &call.bytes.as_slice()[..n]);
    arm_on(files, FileKind::PipeRead(pipe));
    wrote(files, call, f, n, moved);
    Ok(false)
}

/// A write to a pipe: one of no bytes answers 0.
fn write_pipe(
    files: &mut Files,
    call: &mut LxCall,
    f: NumberedFile,
    pipe: u32,
) -> Result<bool, LxRefusal>
    ensures { MakesTransfer (write_move files.old call.old f (kind.PipeWrite pipe)) files.old call.old files.new call.new result }
{
    if is_at_most(call, 0) {
        end_with(files, call, f.number, 0);
        return Ok(false);
    }
    write_to_pipe(files, call, f, pipe)
}

/// Bytes go into a console room, and behind those that were ever put into it.
fn put(room: &mut Room, ever: &mut Bytes, bytes: &[u8]) -> Result<(), NoMemory>
    requires { length room.old + length bytes.now ≤ 65536 }
    ensures room { OnOk result (room.new ≡ room.old ++ bytes.now) }
    ensures ever { OnOk result (ever.new ≡ ever.old ++ bytes.now) }
    ensures err { OnErr result ((room.new ≡ room.old) × (ever.new ≡ ever.old)) }
{
    ever.append(bytes)?;
    room.put(bytes);
    Ok(())
}

/// How many bytes now go into a console.
fn goes_into_console(files: &Files, call: &LxCall, which: LxSide) -> usize
    ensures value { result ≡ goes_in call.now (length (side_holds files.now which)) }
    ensures fits { 0 < result → length (side_holds files.now which) + result ≤ 65536 }
    ensures most { result ≤ length call.now.bytes }
{
    match which {
        LxSide::Out => goes_in(call, &files.out),
        LxSide::Err => goes_in(call, &files.err),
    }
}

/// Bytes go into a console.
fn put_into_console(files: &mut Files, which: LxSide, bytes: &[u8]) -> Result<(), NoMemory>
    requires { length (side_holds files.old which) + length bytes.now ≤ 65536 }
    ensures ok { OnOk result (files.new ≡ into_console files.old which bytes.now) }
    ensures err { OnErr result (files.new ≡ files.old) }
{
    match which {
        LxSide::Out => put(&mut files.out, &mut files.put_out, bytes),
        LxSide::Err => put(&mut files.err, &mut files.put_err, bytes),
    }
}

/// A write of some bytes to a console.
fn write_to_console(
    files: &mut Files,
    call: &mut LxCall,
    f: NumberedFile,
    which: LxSide,
) -> Result<bool, LxRefusal>
    ensures { MakesTransfer (write_console files.old call.old f which) files.old call.old files.new call.new result }
{
    let n = goes_into_console(files, call, which);
    if n == 0 {
        return write_nothing(files, call, f);
    }
    let moved = moved_with(call, n)?;
    put_into_console(files, which, &call.bytes.as_slice()[..n])?;
    wrote(files, call, f, n, moved);
    Ok(false)
}

/// A write to a console: one of no bytes answers 0.
fn write_console(
    files: &mut Files,
    call: &mut LxCall,
    f: NumberedFile,
    which: LxSide,
) -> Result<bool, LxRefusal>
    ensures { MakesTransfer (write_move files.old call.old f (kind.Console which)) files.old call.old files.new call.new result }
{
    if is_at_most(call, 0) {
        end_with(files, call, f.number, 0);
        return Ok(false);
    }
    write_to_console(files, call, f, which)
}

/// A write that adds this number to a counter.
fn add_to_counter(
    files: &mut Files,
    call: &mut LxCall,
    f: NumberedFile,
    number: u32,
    counter: Counter,
    added: u64,
) -> Result<bool, LxRefusal>
    ensures { MakesTransfer (if nat_lt (2 ^ 64 - 2) (counter.value + added) then waits files.old call.old f else ends_with (with_counter files.old number record counter { value = counter.value + added }) call.old f.number 8) files.old call.old files.new call.new result }
{
    match counter.value.checked_add(added) {
        Some(value) if value < u64::MAX => {
            let more = Counter {
                value,
                semaphore: counter.semaphore,
            };
            set_counter(files, number, more);
            end_with(files, call, f.number, 8);
            Ok(false)
        }
        _ => wait(files, call, f),
    }
}

/// A write to this counter.
fn write_count(
    files: &mut Files,
    call: &mut LxCall,
    f: NumberedFile,
    at: u32,
    counter: Counter,
) -> Result<bool, LxRefusal>
    ensures { MakesTransfer (write_counter files.old call.old f at counter) files.old call.old files.new call.new result }
{
    let bytes = call.bytes.as_slice();
    if bytes.len() < 8 {
        end_refused(files, call, f.number, LinuxErrno::EINVAL);
        return Ok(false);
    }
    let added = number(bytes, 0);
    if added == u64::MAX {
        end_refused(files, call, f.number, LinuxErrno::EINVAL);
        return Ok(false);
    }
    add_to_counter(files, call, f, at, counter, added)
}

/// A write to a counter.
fn write_counter(
    files: &mut Files,
    call: &mut LxCall,
    f: NumberedFile,
    at: u32,
) -> Result<bool, LxRefusal>
    ensures { MakesTransfer (write_move files.old call.old f (kind.Counter at)) files.old call.old files.new call.new result }
{
    match place_at(&files.counters, at) {
        Some(counter) => write_count(files, call, f, at, counter),
        None => Err(LxRefusal::NoStep),
    }
}

/// Moves the bytes of a write.
pub(crate) fn write_move(
    files: &mut Files,
    call: &mut LxCall,
    f: NumberedFile,
) -> Result<bool, LxRefusal>
    ensures { MakesTransfer (write_move files.old call.old f f.file.kind) files.old call.old files.new call.new result }
{
    match f.file.kind {
        FileKind::Console(which) => write_console(files, call, f, which),
        FileKind::PipeWrite(pipe) => write_pipe(files, call, f, pipe),
        FileKind::Counter(number) => write_counter(files, call, f, number),
        FileKind::Input => Err(LxRefusal::NoStep),
        FileKind::PipeRead(_) => Err(LxRefusal::NoStep),
        FileKind::Epoll(_) => Err(LxRefusal::NoStep),
    }
}

/// Whether a write of some bytes to a pipe can move.
fn can_write_to_pipe(files: &Files, call: &LxCall, f: NumberedFile, pipe: u32) -> bool
    ensures { result ≡ is_some (bind (at_place files.now.pipes pipe) (write_pipe files.now call.now f pipe)) }
{
    match files.pipes.get(pipe as usize) {
        Some(Some(room)) => {
            !has_reader(files, pipe) || goes_in(call, room) > 0 || f.file.nonblocking
        }
        _ => false,
    }
}

/// Whether a write to a pipe can move.
fn can_write_pipe(files: &Files, call: &LxCall, f: NumberedFile, pipe: u32) -> bool
    ensures { result ≡ is_some (write_move files.now call.now f (kind.PipeWrite pipe)) }
{
    is_at_most(call, 0) || can_write_to_pipe(files, call, f, pipe)
}

/// Whether a write to a console can move.
fn can_write_console(files: &Files, call: &LxCall, f: NumberedFile, which: LxSide) -> bool
    ensures { result ≡ is_some (write_move files.now call.now f (kind.Console which)) }
{
    is_at_most(call, 0) || goes_into_console(files, call, which) > 0 || f.file.nonblocking
}

/// Whether a write to this counter can move.
fn can_write_count(call: &LxCall, f: NumberedFile, counter: Counter) -> bool
    ensures { (F : Files) (at : ℕ) → result ≡ is_some (write_counter F call.now f at counter) }
{
    let bytes = call.bytes.as_slice();
    if bytes.len() < 8 {
        return true;
    }
    let added = number(bytes, 0);
    if added == u64::MAX || f.file.nonblocking {
        return true;
    }
    match counter.value.checked_add(added) {
        Some(value) => value < u64::MAX,
        None => false,
    }
}

/// Whether a write to a counter can move.
fn can_write_counter(files: &Files, call: &LxCall, f: NumberedFile, at: u32) -> bool
    ensures { result ≡ is_some (write_move files.now call.now f (kind.Counter at)) }
{
    match place_at(&files.counters, at) {
        Some(counter) => can_write_count(call, f, counter),
        None => false,
    }
}

/// Whether a write can move.
pub(crate) fn can_write(files: &Files, call: &LxCall, f: NumberedFile) -> bool
    ensures { result ≡ is_some (write_move files.now call.now f f.file.kind) }
{
    match f.file.kind {
        FileKind::Console(which) => can_write_console(files, call, f, which),
        FileKind::PipeWrite(pipe) => can_write_pipe(files, call, f, pipe),
        FileKind::Counter(at) => can_write_counter(files, call, f, at),
        FileKind::Input => false,
        FileKind::PipeRead(_) => false,
        FileKind::Epoll(_) => false,
    }
}
