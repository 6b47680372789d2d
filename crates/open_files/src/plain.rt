//! The files without the queues: descriptors, open files, pipes, counters, the input and the console rooms.
ghost use Rattle.std.specs.Prelude.{◌≡◌, ◌≤◌, ◌<◌, ◌^◌, sum_by, length, Some, None, IfOk, replicate, MatchOption, slice_set};
ghost use Rattle.std.specs.List.{list_any};
ghost use Rattle.std.specs.Option.{option_map};
ghost use Rattle.kqueue_core.specs.declared.knotes.Filter.{Filter as TheFilter};
ghost use Rattle.lx_machine.specs.Epoll.{ready, ready_at, ready_counter};
ghost use Rattle.lx_machine.specs.Files.{has_reader, has_writer, is_unnamed, names, numbered, with_descriptor, with_file};
ghost use Rattle.lx_machine.specs.Interests.{side_holds};
ghost use Rattle.lx_machine.specs.Lists.{at_place, first_free, without_place};
ghost use Rattle.lx_machine.specs.Start.{first_files};
ghost use Rattle.open_files.specs.Kinds.{kind_out, side_out};
ghost use Rattle.open_files.specs.PlainParts.{plain_in};
ghost use Rattle.open_files.specs.Named.{holds_in, holds_of};
ghost use Rattle.open_files.specs.Plain.{plain_of, queue_number, readiness};
ghost use Rattle.lx_machine.specs.declared.files.FileKind.TheVariants as kind;

use crate::kinds::{File, NoMemory, Side};
use crate::numbers::place_at;
use crate::open_file::{Count, Descriptor, OpenFile};
use crate::rooms::{Pipes, Room};
use kqueue_core::{Filter, Readiness};
use lx_machine::files::Input;
use std::alloc::Global;

/// How many descriptors there can be.
pub const DESCRIPTORS: usize = 256;

/// How many places there are for open files, and for counters, as in the Linux machine.
pub const OPEN_FILES: usize = 384;

/// The files without the queues, each at its number.
#[derive(Drop)]
pub struct Plain {
    pub descriptors: [Option<Descriptor>; DESCRIPTORS],
    pub files: [Option<OpenFile>; OPEN_FILES],
    pub pipes: Pipes,
    pub counters: [Option<Count>; OPEN_FILES],
    pub input: Input,
    pub out: Room,
    pub err: Room,
}

// How many holds a place has.
fn holds_of(place: Option<OpenFile>) -> u32
    ensures { result ≡ holds_of place }
{
    match place {
        Some(f) => f.holds(),
        None => 0,
    }
}

// How many holds open files have, all together.
fn count_holds(files: &[Option<OpenFile>]) -> u32
    requires { sum_by holds_of files.now < 2 ^ 32 }
    ensures { result ≡ sum_by holds_of files.now }
{
    let mut count = 0;
    for file in files {
        count += holds_of(*file);
    }
    count
}

impl Plain {
    /// The input and the two consoles, on the descriptors 0, 1 and 2.
    pub fn make(alloc: Global, input: Vec<u8>) -> Result<Plain, NoMemory>
        ensures { IfOk result (λ plain. plain_in plain ≡ plain_of (first_files input.items)) }
    {
        let mut descriptors = [None; DESCRIPTORS];
        let mut files = [None; OPEN_FILES];
        descriptors[0] = Some(Descriptor::new(0, false));
        descriptors[1] = Some(Descriptor::new(1, false));
        descriptors[2] = Some(Descriptor::new(2, false));
        files[0] = Some(OpenFile::new(File::Input));
        files[1] = Some(OpenFile::new(File::Console(Side::Out)));
        files[2] = Some(OpenFile::new(File::Console(Side::Err)));
        let pipes = Pipes::make(alloc)?;
        let out = Room::make(alloc)?;
        let err = Room::make(alloc)?;
        Ok(Plain {
            descriptors,
            files,
            pipes,
            counters: [None; OPEN_FILES],
            input: Input::from_vec(input),
            out,
            err,
        })
    }

    /// The open file of a number, if it lives.
    pub fn file(&self, file: u32) -> Option<OpenFile>
        ensures { result ≡ at_place self.now.files file }
    {
        place_at(&self.files, file)
    }

    /// How many holds stand.
    pub fn count_holds(&self) -> u32
        requires { holds_in (plain_in self.now) < 2 ^ 32 }
        ensures { result ≡ holds_in (plain_in self.now) }
    {
        count_holds(&self.files)
    }

    /// The number of the queue that the open file is.
    pub fn queue_number(&self, file: u32) -> Option<u32>
        ensures { result ≡ queue_number (plain_in self.now) file }
    {
        match self.file(file) {
            Some(f) => f.queue_number(),
            None => None,
        }
    }

    /// Whether some descriptor names the open file.
    fn is_named(&self, file: u32) -> bool
        ensures { result ≡ list_any (names file) self.now.descriptors }
    {
        self.descriptors
            .iter()
            .any(|descriptor| descriptor.is_some_and(|d| d.file() == file))
    }

    /// Whether no descriptor and no hold names the open file any more.
    pub fn is_unnamed(&self, file: u32, f: OpenFile) -> bool
        ensures { result ≡ is_unnamed (plain_in self.now) (numbered file f) }
    {
        f.holds() == 0 && !self.is_named(file)
    }

    /// Whether the pipe has a reader.
    pub fn has_reader(&self, pipe: u32) -> bool
        ensures { result ≡ has_reader (plain_in self.now) pipe }
    {
        self.files
            .iter()
            .any(|f| f.is_some_and(|f| f.is_read_end(pipe)))
    }

    /// Whether the pipe has a writer.
    pub fn has_writer(&self, pipe: u32) -> bool
        ensures { result ≡ has_writer (plain_in self.now) pipe }
    {
        self.files
            .iter()
            .any(|f| f.is_some_and(|f| f.is_write_end(pipe)))
    }

    /// The room of a side of the console.
    pub fn room(&self, side: Side) -> &Room
        ensures { result.now ≡ side_holds (plain_in self.now) (side_out side) }
    {
        match side {
            Side::Out => &self.out,
            Side::Err => &self.err,
        }
    }

    /// The events that hold of the read end of the pipe.
    fn read_end_events(&self, pipe: u32) -> u32
        ensures { result ≡ ready (plain_in self.now) (kind.PipeRead pipe) }
    {
        let held = self.pipes.held(pipe).unwrap_or(0);
        ready_bits::read_end_events(held as usize, self.has_writer(pipe))
    }

    /// The events that hold of the write end of the pipe.
    fn write_end_events(&self, pipe: u32) -> u32
        ensures { result ≡ ready (plain_in self.now) (kind.PipeWrite pipe) }
    {
        let held = self.pipes.held(pipe).unwrap_or(0);
        ready_bits::write_end_events(held as usize, self.has_reader(pipe))
    }

    /// The events that hold of a side of the console.
    fn console_events(&self, side: Side) -> u32
        ensures { result ≡ ready (plain_in self.now) (kind.Console (side_out side)) }
    {
        ready_bits::console_events(self.room(side).held() as usize)
    }

    /// The events that hold of the counter.
    fn counter_events(&self, number: u32) -> u32
        ensures { result ≡ ready (plain_in self.now) (kind.Counter number) }
    {
        match place_at(&self.counters, number) {
            Some(count) => ready_bits::counter_events(count.value()),
            None => 0,
        }
    }

    /// The events that hold of what an open file is.
    fn events(&self, file: File) -> u32
        ensures { result ≡ ready (plain_in self.now) (kind_out file) }
    {
        match file {
            File::Input => ready_bits::input_events(self.input.left().len()),
            File::ReadEnd(pipe) => self.read_end_events(pipe),
            File::WriteEnd(pipe) => self.write_end_events(pipe),
            File::Console(side) => self.console_events(side),
            File::Counter(number) => self.counter_events(number),
            File::Queue(_) => 0,
        }
    }
}

impl Readiness for Plain {
    ghost told = { λ p file filter. readiness (plain_in p) file filter };

    fn bits(&self, file: u32, filter: Filter) -> u32 {
        match self.file(file) {
            Some(f) => self.events(f.file()) & filter.events(),
            None => 0,
        }
    }
}
