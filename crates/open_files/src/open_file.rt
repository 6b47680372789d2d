//! An open file, a descriptor and a counter, which contracts see as the Linux machine's.
ghost use Rattle.std.specs.Prelude.{◌≡◌, ◌+◌, ◌-◌, ◌<◌, ◌^◌, false, nat_lt, if◌then◌else◌, Some, None};
ghost use Rattle.lx_machine.specs.Epoll.{epoll_number};
ghost use Rattle.lx_machine.specs.Files.{descriptor, held_once_less, held_once_more, is_read_end, is_write_end};
ghost use Rattle.lx_machine.specs.Interests.{is_kind, is_open_of, is_side};
ghost use Rattle.lx_machine.specs.Read.{counted, counted_down};
ghost use Rattle.open_files.specs.Kinds.{kind_out, side_out};

use crate::kinds::{File, Side};
use pipe_core::Counter;
use std::marker::Model;

/// An open file: what it is, whether it is nonblocking, and how many calls hold it.
#[derive(Clone, Copy)]
pub struct OpenFile {
    file: File,
    nonblocking: bool,
    holds: u32,
}

impl Model for OpenFile {
    ghost use Rattle.lx_machine.specs.declared.files.OpenFile.{OpenFile as LxFile};

    ghost Value = { LxFile };

    ghost use Rattle.open_files.specs.FileParts.{file_out, file_in, file_back};

    ghost view = { file_out };

    ghost inverse = { file_in };

    ghost inverse_ok = { λ f h. file_back f };
}

impl OpenFile {
    // One that nothing holds.
    pub fn new(file: File) -> OpenFile
        ensures { result ≡ record { kind = kind_out file; nonblocking = false; holds = 0 } }
    {
        OpenFile {
            file,
            nonblocking: false,
            holds: 0,
        }
    }

    // What it is.
    pub fn file(self) -> File
        ensures { kind_out result ≡ self.kind }
    {
        self.file
    }

    // Whether a transfer that would wait is refused.
    pub fn is_nonblocking(self) -> bool
        ensures { result ≡ self.nonblocking }
    {
        self.nonblocking
    }

    // The same, nonblocking or not.
    pub fn with_nonblocking(self, on: bool) -> OpenFile
        ensures { result ≡ record self { nonblocking = on } }
    {
        OpenFile {
            nonblocking: on,
            ..self
        }
    }

    // How many calls hold it.
    pub fn holds(self) -> u32
        ensures value { result ≡ self.holds }
    {
        self.holds
    }

    // One more call holds it.
    pub fn held_once_more(self) -> OpenFile
        requires { self.holds + 1 < 2 ^ 32 }
        ensures { result ≡ held_once_more self }
    {
        OpenFile {
            holds: self.holds + 1,
            ..self
        }
    }

    // One call less holds it.
    pub fn held_once_less(self) -> OpenFile
        ensures { result ≡ held_once_less self }
    {
        OpenFile {
            holds: self.holds.saturating_sub(1),
            ..self
        }
    }

    // The number of the queue that it is.
    pub fn queue_number(self) -> Option<u32>
        ensures { result ≡ epoll_number self.kind }
    {
        match self.file {
            File::Queue(number) => Some(number),
            _ => None,
        }
    }

    // Whether it is the read end of the pipe.
    pub fn is_read_end(self, pipe: u32) -> bool
        ensures { result ≡ is_read_end pipe self.kind }
    {
        matches!(self.file, File::ReadEnd(p) if p == pipe)
    }

    // Whether it is the write end of the pipe.
    pub fn is_write_end(self, pipe: u32) -> bool
        ensures { result ≡ is_write_end pipe self.kind }
    {
        matches!(self.file, File::WriteEnd(p) if p == pipe)
    }
}

/// A descriptor: the number of its open file, and its close-on-exec flag.
#[derive(Clone, Copy)]
pub struct Descriptor {
    file: u32,
    close_on_exec: bool,
}

impl Model for Descriptor {
    ghost use Rattle.lx_machine.specs.declared.files.Descriptor.{Descriptor as LxDescriptor};

    ghost Value = { LxDescriptor };

    ghost view = { λ d. record { file = d.file; close_on_exec = d.close_on_exec } };

    ghost inverse = { λ d. record { file = d.file; close_on_exec = d.close_on_exec } };
}

impl Descriptor {
    // One of this open file.
    pub fn new(file: u32, close_on_exec: bool) -> Descriptor
        ensures { result ≡ descriptor file close_on_exec }
    {
        Descriptor {
            file,
            close_on_exec,
        }
    }

    // Its open file.
    pub fn file(self) -> u32
        ensures { result ≡ self.file }
    {
        self.file
    }

    // Its close-on-exec flag.
    pub fn closes_on_exec(self) -> bool
        ensures { result ≡ self.close_on_exec }
    {
        self.close_on_exec
    }
}

/// A counter.
#[derive(Clone, Copy)]
pub struct Count {
    counter: Counter,
}

impl Model for Count {
    ghost use Rattle.lx_machine.specs.declared.files.Counter.{Counter as LxCounter};

    ghost Value = { LxCounter };

    ghost view = { λ c. record { value = c.counter.value; semaphore = c.counter.semaphore } };

    ghost inverse = { λ c. record { counter = record { value = c.value; semaphore = c.semaphore } } };
}

impl Count {
    // A counter of this value.
    pub fn new(value: u64, semaphore: bool) -> Count
        ensures { result ≡ record { value = value; semaphore = semaphore } }
    {
        Count {
            counter: Counter::new(value, semaphore),
        }
    }

    // Its value.
    pub fn value(self) -> u64
        ensures { result ≡ self.value }
    {
        self.counter.value
    }

    // What a read takes of it, which isn't 0.
    pub fn counted(self) -> u64
        requires { 0 < self.value }
        ensures { result ≡ counted self }
    {
        let mut left = self.counter;
        left.read().unwrap_or(0)
    }

    // What a read leaves of it.
    pub fn counted_down(self) -> Count
        requires { 0 < self.value }
        ensures { result ≡ counted_down self }
    {
        let mut left = self.counter;
        left.read();
        Count { counter: left }
    }

    // What an addition leaves of it; `None` exactly where the sum would pass 2^64 - 2.
    pub fn added(self, n: u64) -> Option<Count>
        ensures { result ≡ (if nat_lt (2 ^ 64 - 2) (self.value + n) then None else Some record self { value = self.value + n }) }
    {
        let mut more = self.counter;
        if more.add(n) {
            Some(Count { counter: more })
        } else {
            None
        }
    }
}

// Whether it is the same side.
fn is_side(a: Side, b: Side) -> bool
    ensures { result ≡ is_side (side_out a) (side_out b) }
{
    matches!((a, b), (Side::Out, Side::Out) | (Side::Err, Side::Err))
}

// Whether an open file is exactly this: the input, this side of the console, this end of this pipe, this counter, this queue.
fn is_kind(wanted: File, file: File) -> bool
    ensures { result ≡ is_kind (kind_out wanted) (kind_out file) }
{
    match (wanted, file) {
        (File::Input, File::Input) => true,
        (File::Console(a), File::Console(b)) => is_side(a, b),
        (File::ReadEnd(a), File::ReadEnd(b)) => a == b,
        (File::WriteEnd(a), File::WriteEnd(b)) => a == b,
        (File::Counter(a), File::Counter(b)) => a == b,
        (File::Queue(a), File::Queue(b)) => a == b,
        _ => false,
    }
}

/// Whether a place has an open file that is exactly this.
pub fn is_open_of(kind: File, place: Option<OpenFile>) -> bool
    ensures { result ≡ is_open_of (kind_out kind) place }
{
    match place {
        Some(f) => is_kind(kind, f.file()),
        None => false,
    }
}
