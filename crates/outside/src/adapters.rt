// The real source, sinks, folder and clock, over the runtime's own objects: the trusted edge. A source
// and a sink tell what their reader and writer tell, and those of the system tell nothing.
ghost use Rattle.std.specs.Prelude.{◌≡◌, ◌≤◌, ℕ, None, ⊤, IfOk, vec_len};

use crate::pieces::{put_all, take_all};
use crate::traits::{Clock, Failed, LoadFault, Shelf, Sink, Source};
use std::alloc::Global;
use std::io::{ErrorKind, Read, Write};
use std::marker::Model;
use std::rt::Files;
use std::{fs, time};

/// A source over a reader of the runtime, as standard input.
#[derive(Drop)]
pub struct StdSource<R: Read> {
    from: R,
    faults: u64,
}

impl<R: Read> StdSource<R> {
    ghost use Rattle.outside.specs.Adapters.{source_reader, source_faults};

    /// A source that has not failed.
    pub fn make(from: R) -> StdSource<R>
        ensures reader { source_reader result ≡ from }
        ensures faults { source_faults result ≡ 0 }
    {
        StdSource { from, faults: 0 }
    }
}

impl<R: Read> Source for StdSource<R> {
    ghost left = { λ s. R.remaining s.from };

    ghost faults = { λ s. s.faults };

    fn read(&mut self, buf: &mut [u8]) -> Result<usize, Failed> {
        match self.from.read(buf) {
            Ok(count) => Ok(count),
            Err(_) => {
                self.faults = self.faults.saturating_add(1);
                Err(Failed)
            }
        }
    }
}

/// A sink over a writer of the runtime, as standard output or error.
#[derive(Drop)]
pub struct StdSink<W: Write> {
    to: W,
    faults: u64,
}

impl<W: Write> StdSink<W> {
    ghost use Rattle.outside.specs.Adapters.{sink_writer, sink_faults};

    /// A sink that has not failed.
    pub fn make(to: W) -> StdSink<W>
        ensures writer { sink_writer result ≡ to }
        ensures faults { sink_faults result ≡ 0 }
    {
        StdSink { to, faults: 0 }
    }
}

impl<W: Write> Sink for StdSink<W> {
    ghost taken = { λ s. W.contents s.to };

    ghost faults = { λ s. s.faults };

    /// A writer that takes nothing has failed.
    fn write(&mut self, piece: &[u8]) -> Result<usize, Failed> {
        match self.to.write(piece) {
            Ok(count) if count > 0 => Ok(count),
            _ => {
                self.faults = self.faults.saturating_add(1);
                Err(Failed)
            }
        }
    }
}

/// The working folder.
#[derive(Drop)]
pub struct DirShelf<'a, R: Files> {
    files: &'a R,
    loads: u64,
    saves: u64,
}

impl<'a, R: Files> Model for DirShelf<'a, R> {
    ghost use Rattle.outside.specs.Shelves.{FolderCounts};

    ghost Value = { FolderCounts };

    ghost view = { λ s. record { loads = s.loads; saves = s.saves } };
}

// All bytes of a file.
fn read_file<R: Files>(
    files: &R,
    alloc: Global,
    name: &str,
    limit: u64,
) -> Result<Vec<u8>, LoadFault>
    ensures { IfOk result (λ bytes. vec_len bytes ≤ limit) }
{
    match fs::open(files, name) {
        Ok(file) => take_all(&mut StdSource::make(file), alloc, limit),
        Err(error) if error.kind() == ErrorKind::OutOfMemory => Err(LoadFault::NoMemory),
        Err(_) => Err(LoadFault::Failed),
    }
}

// Makes a file of these bytes, in the place of one of that name.
fn write_file<R: Files>(files: &R, name: &str, bytes: &[u8]) -> Result<(), Failed> {
    match fs::create(files, name) {
        Ok(file) => put_all(&mut StdSink::make(file), bytes),
        Err(_) => Err(Failed),
    }
}

impl<'a, R: Files> DirShelf<'a, R> {
    /// A shelf that has not failed.
    pub fn make(files: &'a R) -> DirShelf<'a, R>
        ensures { result ≡ record { loads = 0; saves = 0 } }
    {
        DirShelf {
            files,
            loads: 0,
            saves: 0,
        }
    }
}

impl<'a, R: Files> Shelf for DirShelf<'a, R> {
    ghost file = { λ s name. None };

    ghost loads = { λ s. s.loads };

    ghost saves = { λ s. s.saves };

    fn load(&mut self, alloc: Global, name: &str, limit: u64) -> Result<Vec<u8>, LoadFault> {
        match read_file(self.files, alloc, name, limit) {
            Ok(bytes) => Ok(bytes),
            Err(LoadFault::TooLong { .. }) => Err(LoadFault::TooLong { limit }),
            Err(LoadFault::NoMemory) => Err(LoadFault::NoMemory),
            Err(LoadFault::Failed) => {
                self.loads = self.loads.saturating_add(1);
                Err(LoadFault::Failed)
            }
        }
    }

    fn save(&mut self, name: &str, bytes: &[u8]) -> Result<(), Failed> {
        match write_file(self.files, name, bytes) {
            Ok(()) => Ok(()),
            Err(Failed) => {
                self.saves = self.saves.saturating_add(1);
                Err(Failed)
            }
        }
    }
}

/// The system's clock, in microseconds since the Unix epoch. It tells every number: 0 where the system
/// tells none, or a time before the epoch, and 2^64 - 1 past its own end.
#[derive(Drop)]
pub struct StdClock<'a, R: time::Clock> {
    clock: &'a R,
}

impl<'a, R: time::Clock> StdClock<'a, R> {
    /// The clock of this runtime.
    pub fn make(clock: &'a R) -> StdClock<'a, R> {
        StdClock { clock }
    }
}

impl<'a, R: time::Clock> Clock for StdClock<'a, R> {
    ghost Tells = { λ clock now. ⊤ };

    fn now_us(&self) -> u64 {
        match self.clock.since_1970() {
            Ok(passed) => u64::try_from(passed.as_micros()).unwrap_or(u64::MAX),
            Err(_) => 0,
        }
    }
}
