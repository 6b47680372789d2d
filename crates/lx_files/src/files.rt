//! Open files, and what ends with them (open(2), close(2)).
ghost use Rattle.std.specs.List.{list_any};
ghost use Rattle.std.specs.Prelude.{OnErr, OnOk, ◌≡◌};
ghost use Rattle.lx_machine.specs.Files.{after_end_of, closed, closed_if_unnamed, descriptor, ended_if_unnamed, given_back, has_reader, has_writer, is_read_end, is_unnamed, is_write_end, names, numbered_at, with_descriptor, with_file, with_hold, without_file, without_pipe};
ghost use Rattle.lx_machine.specs.Interests.{armed_on};

use crate::interests::{arm_on, remove_interests};
use crate::lists::{place_at, set_place};
use lx_machine::buffer::NoMemory;
use lx_machine::files::{Descriptor, FileKind, Files, NumberedFile, OpenFile};

/// The open file of this number, if there is one.
pub fn numbered_at(files: &Files, number: u32) -> Option<NumberedFile>
    ensures { result ≡ numbered_at files.now number }
{
    let file = place_at(&files.files, number)?;
    Some(NumberedFile { number, file })
}

/// Whether a descriptor names this open file.
fn names(file: u32, descriptor: Option<Descriptor>) -> bool
    ensures { result ≡ names file descriptor }
{
    match descriptor {
        Some(d) => d.file == file,
        None => false,
    }
}

/// Whether some descriptor names the open file.
fn is_named(files: &Files, file: u32) -> bool
    ensures { result ≡ list_any (names file) files.now.descriptors }
{
    files.descriptors.iter().any(|d| names(file, *d))
}

/// Whether no descriptor and no hold names the open file any more.
fn is_unnamed(files: &Files, f: NumberedFile) -> bool
    ensures { result ≡ is_unnamed files.now f }
{
    f.file.holds == 0 && !is_named(files, f.number)
}

/// Whether it is the read end of this pipe.
fn is_read_end(pipe: u32, kind: FileKind) -> bool
    ensures { result ≡ is_read_end pipe kind }
{
    match kind {
        FileKind::PipeRead(p) => p == pipe,
        _ => false,
    }
}

/// Whether it is the write end of this pipe.
fn is_write_end(pipe: u32, kind: FileKind) -> bool
    ensures { result ≡ is_write_end pipe kind }
{
    match kind {
        FileKind::PipeWrite(p) => p == pipe,
        _ => false,
    }
}

/// Whether the pipe has a reader.
pub fn has_reader(files: &Files, pipe: u32) -> bool
    ensures { result ≡ has_reader files.now pipe }
{
    files
        .files
        .iter()
        .any(|f| f.is_some_and(|f| is_read_end(pipe, f.kind)))
}

/// Whether the pipe has a writer.
pub fn has_writer(files: &Files, pipe: u32) -> bool
    ensures { result ≡ has_writer files.now pipe }
{
    files
        .files
        .iter()
        .any(|f| f.is_some_and(|f| is_write_end(pipe, f.kind)))
}

/// Lets the pipe go where neither of its ends lives.
fn let_pipe_go(files: &mut Files, pipe: u32)
    ensures { files.new ≡ without_pipe files.old pipe }
{
    if !(has_reader(files, pipe) || has_writer(files, pipe)) {
        set_place(&mut files.pipes, pipe, None);
    }
}

/// After an end of a pipe has ended, of which this is the other end: it arms the interests in that one.
fn end_of_pipe(files: &mut Files, pipe: u32, other: FileKind)
    ensures { files.new ≡ without_pipe (armed_on other files.old) pipe }
{
    arm_on(files, other);
    let_pipe_go(files, pipe);
}

/// Lets go of what an open file of this kind was.
fn end_kind(files: &mut Files, kind: FileKind)
    ensures { files.new ≡ after_end_of kind files.old }
{
    match kind {
        FileKind::PipeRead(pipe) => end_of_pipe(files, pipe, FileKind::PipeWrite(pipe)),
        FileKind::PipeWrite(pipe) => end_of_pipe(files, pipe, FileKind::PipeRead(pipe)),
        FileKind::Counter(number) => set_place(&mut files.counters, number, None),
        FileKind::Epoll(number) => set_place(&mut files.epolls, number, None),
        FileKind::Input => {}
        FileKind::Console(_) => {}
    }
}

/// Ends an open file of this kind.
fn end_file(files: &mut Files, file: u32, kind: FileKind)
    ensures { files.new ≡ without_file files.old file kind }
{
    set_place(&mut files.files, file, None);
    remove_interests(files, file);
    end_kind(files, kind);
}

/// Ends this open file where nothing names it any more.
fn end_if_unnamed(files: &mut Files, f: NumberedFile)
    ensures { files.new ≡ ended_if_unnamed files.old f }
{
    if is_unnamed(files, f) {
        end_file(files, f.number, f.file.kind);
    }
}

/// Ends the open file of this number, if there is one, where nothing names it any more.
fn settle(files: &mut Files, file: u32)
    ensures { files.new ≡ closed_if_unnamed files.old file }
{
    if let Some(f) = numbered_at(files, file) {
        end_if_unnamed(files, f);
    }
}

/// One more call holds the open file, which stands so. `NoMemory`: one more hold can't be counted; then nothing changes.
pub fn hold_once(files: &mut Files, f: NumberedFile) -> Result<(), NoMemory>
    ensures ok { OnOk result (files.new ≡ with_hold files.old f) }
    ensures err { OnErr result (files.new ≡ files.old) }
    ensures full { OnErr result (f.file.holds ≡ u32.MAX) }
{
    if f.file.holds == u32::MAX {
        return Err(NoMemory);
    }
    let held = OpenFile {
        kind: f.file.kind,
        nonblocking: f.file.nonblocking,
        holds: f.file.holds + 1,
    };
    set_place(&mut files.files, f.number, Some(held));
    Ok(())
}

/// A call gives the open file back.
pub fn give_back(files: &mut Files, file: u32)
    ensures { files.new ≡ given_back files.old file }
{
    if let Some(f) = place_at(&files.files, file) {
        let left = OpenFile {
            kind: f.kind,
            nonblocking: f.nonblocking,
            holds: f.holds.saturating_sub(1),
        };
        set_place(&mut files.files, file, Some(left));
        settle(files, file);
    }
}

/// A descriptor for this open file.
pub fn descriptor(file: u32, close_on_exec: bool) -> Descriptor
    ensures { result ≡ descriptor file close_on_exec }
{
    Descriptor {
        file,
        close_on_exec,
    }
}

/// A descriptor names this open file.
pub fn set_descriptor(files: &mut Files, number: u32, d: Descriptor)
    ensures { files.new ≡ with_descriptor files.old number d }
{
    set_place(&mut files.descriptors, number, Some(d));
}

/// Closes a descriptor, if it is open.
pub fn close_descriptor(files: &mut Files, number: u32)
    ensures { files.new ≡ closed files.old number }
{
    if let Some(d) = place_at(&files.descriptors, number) {
        set_place(&mut files.descriptors, number, None);
        settle(files, d.file);
    }
}

/// Makes an open file that nothing names yet.
pub fn add_file(files: &mut Files, file: u32, kind: FileKind, nonblocking: bool)
    ensures { files.new ≡ with_file files.old file kind nonblocking }
{
    let made = OpenFile {
        kind,
        nonblocking,
        holds: 0,
    };
    set_place(&mut files.files, file, Some(made));
}
