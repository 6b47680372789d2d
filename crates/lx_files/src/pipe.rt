//! Pipes (pipe(2)).
ghost use Rattle.std.specs.Prelude.{[], IfErr, IfOk, OnErr, OnOk, ◌++◌, ◌∷◌, ◌≡◌};
ghost use Rattle.places.specs.Places.{bytes_of};
ghost use Rattle.lx_machine.specs.Descriptors.{files_outcome, refuses};
ghost use Rattle.lx_machine.specs.Pieces.{piece};
ghost use Rattle.lx_machine.specs.Pipe.{pipe2, pipe_at, pipe_from};
ghost use Rattle.lx_machine.specs.declared.calls.LxCall.{LxCall};

use crate::descriptors::{flags, has_cloexec, has_nonblock, second_free};
use crate::files::{add_file, descriptor, set_descriptor};
use crate::lists::{first_free, set_place};
use byteorder::{ByteOrder, LittleEndian};
use linux_abi::LinuxErrno;
use lx_machine::buffer::{Bytes, NoMemory, Room};
use lx_machine::calls::{LxCall, Pieces};
use lx_machine::files::{FileKind, Files};
use std::alloc::Global;

/// The numbers of a pipe, and of the open files and descriptors of its two ends.
#[derive(Clone, Copy)]
struct PipeNumbers {
    pipe: u32,
    read_file: u32,
    write_file: u32,
    read_fd: u32,
    write_fd: u32,
}

/// What a new pipe needs memory for: its room, and the piece and the bytes that are stored.
#[derive(Drop)]
struct PipeParts {
    room: Room,
    pieces: Pieces,
    bytes: Bytes,
}

/// The two descriptors, 4 bytes each.
fn two_descriptors(alloc: Global, read_fd: u32, write_fd: u32) -> Result<Bytes, NoMemory>
    ensures { IfOk result (λ bytes. bytes ≡ bytes_of read_fd 4 ++ bytes_of write_fd 4) }
{
    let mut numbers = [0; 8];
    LittleEndian::write_u32(&mut numbers, read_fd);
    LittleEndian::write_u32(&mut numbers[4..], write_fd);
    let mut bytes = Bytes::empty(alloc);
    bytes.append(&numbers)?;
    Ok(bytes)
}

/// What a new pipe needs memory for.
fn pipe_parts(alloc: Global, at: u64, read_fd: u32, write_fd: u32) -> Result<PipeParts, NoMemory>
    ensures room { IfOk result (λ parts. parts.room ≡ []) }
    ensures pieces { IfOk result (λ parts. parts.pieces ≡ piece at 8 ∷ []) }
    ensures bytes { IfOk result (λ parts. parts.bytes ≡ bytes_of read_fd 4 ++ bytes_of write_fd 4) }
{
    let room = Room::make(alloc)?;
    let pieces = Pieces::one(alloc, at, 8)?;
    let bytes = two_descriptors(alloc, read_fd, write_fd)?;
    Ok(PipeParts {
        room,
        pieces,
        bytes,
    })
}

/// A pipe at these numbers.
fn pipe_at(
    alloc: Global,
    files: &mut Files,
    call: &mut LxCall,
    at: PipeNumbers,
) -> Result<(), NoMemory>
    ensures ok { OnOk result (files_outcome files.new call.new ≡ pipe_at files.old call.old at.pipe at.read_file at.write_file at.read_fd at.write_fd) }
    ensures err { OnErr result ((files.new ≡ files.old) × (call.new ≡ call.old)) }
{
    let parts = pipe_parts(alloc, call.arguments[0], at.read_fd, at.write_fd)?;
    let flags = flags(call, 1);
    set_place(&mut files.pipes, at.pipe, Some(parts.room));
    let nonblocking = has_nonblock(flags);
    add_file(
        files,
        at.read_file,
        FileKind::PipeRead(at.pipe),
        nonblocking,
    );
    add_file(
        files,
        at.write_file,
        FileKind::PipeWrite(at.pipe),
        nonblocking,
    );
    let close_on_exec = has_cloexec(flags);
    set_descriptor(files, at.read_fd, descriptor(at.read_file, close_on_exec));
    set_descriptor(files, at.write_fd, descriptor(at.write_file, close_on_exec));
    call.answer_with(0, parts.pieces, parts.bytes);
    Ok(())
}

/// The least free numbers for a pipe with these two descriptors, or the error where too few are free.
fn numbers_for(files: &Files, read_fd: u32, write_fd: u32) -> Result<PipeNumbers, LinuxErrno>
    ensures ok { IfOk result (λ at. (c : LxCall) → pipe_from files.now c read_fd (Some write_fd) ≡ pipe_at files.now c at.pipe at.read_file at.write_file at.read_fd at.write_fd) }
    ensures err { IfErr result (λ e. (c : LxCall) → pipe_from files.now c read_fd (Some write_fd) ≡ refuses files.now c e) }
{
    let Some(read_file) = first_free(&files.files) else {
        return Err(LinuxErrno::ENFILE);
    };
    let Some(pipe) = first_free(&files.pipes) else {
        return Err(LinuxErrno::ENFILE);
    };
    let Some(write_file) = second_free(&files.files, read_file) else {
        return Err(LinuxErrno::ENFILE);
    };
    Ok(PipeNumbers {
        pipe,
        read_file,
        write_file,
        read_fd,
        write_fd,
    })
}

/// The least free numbers for a pipe, or the error where too few are free.
fn free_numbers(files: &Files) -> Result<PipeNumbers, LinuxErrno>
    ensures ok { IfOk result (λ at. (c : LxCall) → pipe2 files.now c ≡ pipe_at files.now c at.pipe at.read_file at.write_file at.read_fd at.write_fd) }
    ensures err { IfErr result (λ e. (c : LxCall) → pipe2 files.now c ≡ refuses files.now c e) }
{
    let Some(read_fd) = first_free(&files.descriptors) else {
        return Err(LinuxErrno::EMFILE);
    };
    let Some(write_fd) = second_free(&files.descriptors, read_fd) else {
        return Err(LinuxErrno::EMFILE);
    };
    numbers_for(files, read_fd, write_fd)
}

/// Makes a pipe with an open file and a descriptor for each of its ends (pipe(2)). Where memory is wanting, nothing
/// changes.
pub fn pipe2(alloc: Global, files: &mut Files, call: &mut LxCall) -> Result<(), NoMemory>
    ensures ok { OnOk result (files_outcome files.new call.new ≡ pipe2 files.old call.old) }
    ensures err { OnErr result ((files.new ≡ files.old) × (call.new ≡ call.old)) }
{
    match free_numbers(files) {
        Ok(at) => pipe_at(alloc, files, call, at),
        Err(e) => {
            call.refuse(e);
            Ok(())
        }
    }
}
