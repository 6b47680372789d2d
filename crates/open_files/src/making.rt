//! New pipes and counters, with their open files (pipe(2), eventfd(2)).
ghost use Rattle.std.specs.Prelude.{◌≡◌, ◌<◌, ◌^◌, false, length, Some, IfSome, is_some};
ghost use Rattle.std.specs.Option.{option_map};
ghost use Rattle.lx_machine.specs.Files.{with_file};
ghost use Rattle.open_files.specs.Making as calls;
ghost use Rattle.open_files.specs.Kinds.{kind_out};
ghost use Rattle.open_files.specs.PlainParts.{plain_in};

use crate::kinds::File;
use crate::numbers::{first_free, second_free, set_place};
use crate::open_file::{Count, OpenFile};
use crate::plain::Plain;

/// The numbers of a new pipe, and of the open files of its ends.
#[derive(Clone, Copy)]
pub struct PipeNumbers {
    pub pipe: u32,
    pub read_file: u32,
    pub write_file: u32,
}

/// The number of a new queue or counter, and of its open file.
#[derive(Clone, Copy)]
pub struct FileNumbers {
    pub number: u32,
    pub file: u32,
}

/// The least free numbers for a pipe, if there are any.
pub fn pipe_numbers(plain: &Plain) -> Option<PipeNumbers>
    ensures numbers { result ≡ calls.pipe_numbers (plain_in plain.now) }
    ensures fits { IfSome result (λ at. at.pipe < length plain.now.pipes) }
{
    let read_file = first_free(&plain.files)?;
    let pipe = plain.pipes.first_free()?;
    let write_file = second_free(&plain.files, read_file)?;
    Some(PipeNumbers {
        pipe,
        read_file,
        write_file,
    })
}

/// The least free numbers for a counter, if there are any.
pub fn counter_numbers(plain: &Plain) -> Option<FileNumbers>
    ensures { result ≡ calls.numbers_in (plain_in plain.now) plain.now.counters }
{
    let file = first_free(&plain.files)?;
    let number = first_free(&plain.counters)?;
    Some(FileNumbers { number, file })
}

/// An open file that nothing names yet.
pub fn add_file(plain: &mut Plain, file: u32, kind: File)
    ensures { plain_in plain.new ≡ with_file (plain_in plain.old) file (kind_out kind) false }
{
    set_place(&mut plain.files, file, Some(OpenFile::new(kind)));
}

/// A pipe at these numbers.
pub fn add_pipe(plain: &mut Plain, at: PipeNumbers)
    requires { at.pipe < length plain.old.pipes }
    ensures { plain_in plain.new ≡ calls.with_pipe_at (plain_in plain.old) at }
{
    plain.pipes.open(at.pipe);
    add_file(plain, at.read_file, File::ReadEnd(at.pipe));
    add_file(plain, at.write_file, File::WriteEnd(at.pipe));
}

/// A counter at these numbers.
pub fn add_counter(plain: &mut Plain, at: FileNumbers, value: u64, semaphore: bool)
    ensures { plain_in plain.new ≡ calls.with_counter_at (plain_in plain.old) at value semaphore }
{
    set_place(
        &mut plain.counters,
        at.number,
        Some(Count::new(value, semaphore)),
    );
    add_file(plain, at.file, File::Counter(at.number));
}
