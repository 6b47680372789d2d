//! The bytes of read(2) and readv(2): out of a pipe, the input or a counter (pipe(7), eventfd(2)).
ghost use Rattle.std.specs.Option.{option_map};
ghost use Rattle.std.specs.Prelude.{[], drop, IfOk, is_some, OnErr, OnOk, slice_set, Some, take, ℕ, ◌<◌, ◌≡◌};
ghost use Rattle.places.specs.Places.{bytes_of};
ghost use Rattle.lx_machine.specs.Files.{held_in};
ghost use Rattle.lx_machine.specs.Lists.{at_place, bind};
ghost use Rattle.lx_machine.specs.Move.{MakesTransfer};
ghost use Rattle.lx_machine.specs.Pieces.{total};
ghost use Rattle.lx_machine.specs.Read.{counted, counted_down, read_counter, read_move, read_pipe, reads_bytes, with_counter};
ghost use Rattle.lx_machine.specs.Transfers.{transfer_outcome};
ghost use Rattle.lx_machine.specs.declared.files.FileKind.TheVariants as kind;
ghost use Rattle.lx_machine.specs.declared.files.Files.{Files};

use crate::pieces::total;
use crate::transfers::{end_refused, end_with, finish, wait};
use byteorder::{ByteOrder, LittleEndian};
use linux_abi::LinuxErrno;
use lx_files::files::has_writer;
use lx_files::interests::arm_on;
use lx_files::lists::{place_at, set_place};
use lx_machine::buffer::{Bytes, NoMemory, Room};
use lx_machine::calls::{LxCall, Piece};
use lx_machine::files::{Counter, FileKind, Files, Input, NumberedFile};
use lx_machine::refusal::LxRefusal;
use std::alloc::Global;

/// The first bytes of a room, as many as the pieces take, are taken out.
fn take_out(alloc: Global, room: &mut Room, pieces: &[Piece]) -> Result<Bytes, NoMemory>
    ensures bytes { IfOk result (λ bytes. bytes ≡ take (total pieces.now) room.old) }
    ensures left { OnOk result (room.new ≡ drop (total pieces.now) room.old) }
    ensures err { OnErr result (room.new ≡ room.old) }
{
    let len = total(pieces).min(room.held() as u64) as usize;
    let mut bytes = vec![in alloc; 0u8; len].map_err(|_| NoMemory)?;
    room.take(&mut bytes);
    Ok(Bytes::from_vec(bytes))
}

/// The first bytes of the input, as many as the pieces take, are taken out.
fn take_input(alloc: Global, input: &mut Input, pieces: &[Piece]) -> Result<Bytes, NoMemory>
    ensures bytes { IfOk result (λ bytes. bytes ≡ take (total pieces.now) input.old) }
    ensures left { OnOk result (input.new ≡ drop (total pieces.now) input.old) }
    ensures err { OnErr result (input.new ≡ input.old) }
{
    let left = input.left();
    let len = total(pieces).min(left.len() as u64) as usize;
    let bytes = left[..len].to_vec(alloc).map_err(|_| NoMemory)?;
    input.drop_first(len);
    Ok(Bytes::from_vec(bytes))
}

/// A read that ends with these bytes.
fn end_with_bytes(files: &mut Files, call: &mut LxCall, file: u32, bytes: Bytes)
    ensures { reads_bytes files.old call.old file bytes ≡ Some (transfer_outcome files.new call.new) }
{
    call.result = Some(bytes.as_slice().len() as u64);
    call.bytes = bytes;
    finish(files, call, file);
}

/// A read from a pipe that holds nothing.
fn read_nothing(
    files: &mut Files,
    call: &mut LxCall,
    f: NumberedFile,
    pipe: u32,
) -> Result<bool, LxRefusal>
    ensures { MakesTransfer (read_pipe files.old call.old f pipe []) files.old call.old files.new call.new result }
{
    if has_writer(files, pipe) {
        return wait(files, call, f);
    }
    end_with(files, call, f.number, 0);
    Ok(false)
}

/// The first bytes of the pipe of a place, if there is one, as many as the pieces take, are taken out.
fn take_from_place(
    alloc: Global,
    place: &mut Option<Room>,
    pieces: &[Piece],
) -> Result<Bytes, NoMemory>
    ensures bytes { IfOk result (λ bytes. bytes ≡ take (total pieces.now) (held_in place.old)) }
    ensures left { OnOk result (place.new ≡ option_map (drop (total pieces.now)) place.old) }
    ensures err { OnErr result (place.new ≡ place.old) }
{
    match place {
        Some(room) => take_out(alloc, room, pieces),
        None => Ok(Bytes::empty(alloc)),
    }
}

/// The first bytes of a pipe, as many as the pieces take, are taken out.
#[tactic(auto, using(std::proofs::lemmas::List::set_past))]
fn take_from_pipe(
    alloc: Global,
    pipes: &mut [Option<Room>],
    pipe: u32,
    pieces: &[Piece],
) -> Result<Bytes, NoMemory>
    ensures bytes { IfOk result (λ bytes. bytes ≡ take (total pieces.now) (held_in (at_place pipes.old pipe))) }
    ensures left { OnOk result (pipes.new ≡ slice_set pipes.old pipe (option_map (drop (total pieces.now)) (at_place pipes.old pipe))) }
    ensures err { OnErr result (pipes.new ≡ pipes.old) }
{
    let at = pipe as usize;
    if at < pipes.len() {
        take_from_place(alloc, &mut pipes[at], pieces)
    } else {
        Ok(Bytes::empty(alloc))
    }
}

/// A read of some bytes from a pipe.
fn read_from_pipe(
    alloc: Global,
    files: &mut Files,
    call: &mut LxCall,
    f: NumberedFile,
    pipe: u32,
) -> Result<bool, LxRefusal>
    ensures { MakesTransfer (bind (at_place files.old.pipes pipe) (read_pipe files.old call.old f pipe)) files.old call.old files.new call.new result }
{
    let Some(Some(room)) = files.pipes.get(pipe as usize) else {
        return Err(LxRefusal::NoStep);
    };
    if room.held() == 0 {
        return read_nothing(files, call, f, pipe);
    }
    let bytes = take_from_pipe(alloc, &mut files.pipes, pipe, call.pieces.as_slice())?;
    arm_on(files, FileKind::PipeWrite(pipe));
    end_with_bytes(files, call, f.number, bytes);
    Ok(false)
}

/// A read from a pipe: one of no bytes answers 0.
fn read_pipe(
    alloc: Global,
    files: &mut Files,
    call: &mut LxCall,
    f: NumberedFile,
    pipe: u32,
) -> Result<bool, LxRefusal>
    ensures { MakesTransfer (read_move files.old call.old f (kind.PipeRead pipe)) files.old call.old files.new call.new result }
{
    if total(call.pieces.as_slice()) == 0 {
        end_with(files, call, f.number, 0);
        return Ok(false);
    }
    read_from_pipe(alloc, files, call, f, pipe)
}

/// A read from the input: one of no bytes answers 0.
fn read_input(
    alloc: Global,
    files: &mut Files,
    call: &mut LxCall,
    f: NumberedFile,
) -> Result<bool, LxRefusal>
    ensures { MakesTransfer (read_move files.old call.old f kind.Input) files.old call.old files.new call.new result }
{
    if total(call.pieces.as_slice()) == 0 {
        end_with(files, call, f.number, 0);
        return Ok(false);
    }
    let bytes = take_input(alloc, &mut files.input, call.pieces.as_slice())?;
    end_with_bytes(files, call, f.number, bytes);
    Ok(false)
}

/// What a read of a counter gives.
fn counted(counter: Counter) -> u64
    ensures { result ≡ counted counter }
{
    if counter.semaphore { 1 } else { counter.value }
}

/// The eight bytes of a number.
fn eight_bytes(alloc: Global, n: u64) -> Result<Bytes, NoMemory>
    ensures { IfOk result (λ bytes. bytes ≡ bytes_of n 8) }
{
    let mut number = [0; 8];
    LittleEndian::write_u64(&mut number, n);
    let mut bytes = Bytes::empty(alloc);
    bytes.append(&number)?;
    Ok(bytes)
}

/// A counter after a read or a write, which arms the interests in it.
pub(crate) fn set_counter(files: &mut Files, number: u32, counter: Counter)
    ensures { files.new ≡ with_counter files.old number counter }
{
    set_place(&mut files.counters, number, Some(counter));
    arm_on(files, FileKind::Counter(number));
}

/// A read of a counter that is not 0 takes this from it.
fn count_down(
    alloc: Global,
    files: &mut Files,
    call: &mut LxCall,
    file: u32,
    number: u32,
    counter: Counter,
) -> Result<(), NoMemory>
    requires { 0 < counter.value }
    ensures ok { OnOk result (reads_bytes (with_counter files.old number (counted_down counter)) call.old file (bytes_of (counted counter) 8) ≡ Some (transfer_outcome files.new call.new)) }
    ensures err { OnErr result ((files.new ≡ files.old) × (call.new ≡ call.old)) }
{
    let taken = counted(counter);
    let bytes = eight_bytes(alloc, taken)?;
    let left = Counter {
        value: counter.value - taken,
        semaphore: counter.semaphore,
    };
    set_counter(files, number, left);
    end_with_bytes(files, call, file, bytes);
    Ok(())
}

/// A read of this counter.
fn read_count(
    alloc: Global,
    files: &mut Files,
    call: &mut LxCall,
    f: NumberedFile,
    number: u32,
    counter: Counter,
) -> Result<bool, LxRefusal>
    ensures { MakesTransfer (read_counter files.old call.old f number counter) files.old call.old files.new call.new result }
{
    if total(call.pieces.as_slice()) < 8 {
        end_refused(files, call, f.number, LinuxErrno::EINVAL);
        return Ok(false);
    }
    if counter.value == 0 {
        return wait(files, call, f);
    }
    count_down(alloc, files, call, f.number, number, counter)?;
    Ok(false)
}

/// A read of a counter.
fn read_counter(
    alloc: Global,
    files: &mut Files,
    call: &mut LxCall,
    f: NumberedFile,
    number: u32,
) -> Result<bool, LxRefusal>
    ensures { MakesTransfer (read_move files.old call.old f (kind.Counter number)) files.old call.old files.new call.new result }
{
    match place_at(&files.counters, number) {
        Some(counter) => read_count(alloc, files, call, f, number, counter),
        None => Err(LxRefusal::NoStep),
    }
}

/// Moves the bytes of a read.
pub(crate) fn read_move(
    alloc: Global,
    files: &mut Files,
    call: &mut LxCall,
    f: NumberedFile,
) -> Result<bool, LxRefusal>
    ensures { MakesTransfer (read_move files.old call.old f f.file.kind) files.old call.old files.new call.new result }
{
    match f.file.kind {
        FileKind::Input => read_input(alloc, files, call, f),
        FileKind::PipeRead(pipe) => read_pipe(alloc, files, call, f, pipe),
        FileKind::Counter(number) => read_counter(alloc, files, call, f, number),
        FileKind::Console(_) => Err(LxRefusal::NoStep),
        FileKind::PipeWrite(_) => Err(LxRefusal::NoStep),
        FileKind::Epoll(_) => Err(LxRefusal::NoStep),
    }
}

/// Whether a read of some bytes from a pipe can move.
fn can_read_from_pipe(files: &Files, call: &LxCall, f: NumberedFile, pipe: u32) -> bool
    ensures { result ≡ is_some (bind (at_place files.now.pipes pipe) (read_pipe files.now call.now f pipe)) }
{
    match files.pipes.get(pipe as usize) {
        Some(Some(room)) => room.held() > 0 || f.file.nonblocking || !has_writer(files, pipe),
        _ => false,
    }
}

/// Whether a read from a pipe can move.
fn can_read_pipe(files: &Files, call: &LxCall, f: NumberedFile, pipe: u32) -> bool
    ensures { result ≡ is_some (read_move files.now call.now f (kind.PipeRead pipe)) }
{
    total(call.pieces.as_slice()) == 0 || can_read_from_pipe(files, call, f, pipe)
}

/// Whether a read of this counter can move.
fn can_read_count(call: &LxCall, f: NumberedFile, counter: Counter) -> bool
    ensures { (F : Files) (at : ℕ) → result ≡ is_some (read_counter F call.now f at counter) }
{
    total(call.pieces.as_slice()) < 8 || counter.value > 0 || f.file.nonblocking
}

/// Whether a read of a counter can move.
fn can_read_counter(files: &Files, call: &LxCall, f: NumberedFile, at: u32) -> bool
    ensures { result ≡ is_some (read_move files.now call.now f (kind.Counter at)) }
{
    match place_at(&files.counters, at) {
        Some(counter) => can_read_count(call, f, counter),
        None => false,
    }
}

/// Whether a read can move.
pub(crate) fn can_read(files: &Files, call: &LxCall, f: NumberedFile) -> bool
    ensures { result ≡ is_some (read_move files.now call.now f f.file.kind) }
{
    match f.file.kind {
        FileKind::Input => true,
        FileKind::PipeRead(pipe) => can_read_pipe(files, call, f, pipe),
        FileKind::Counter(at) => can_read_counter(files, call, f, at),
        FileKind::Console(_) => false,
        FileKind::PipeWrite(_) => false,
        FileKind::Epoll(_) => false,
    }
}
