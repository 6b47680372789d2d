// The outside as traits: each with what it tells, and a count of its faults that never falls.
ghost use Rattle.std.specs.Prelude.{◌≡◌, ◌≢◌, ◌≤◌, ◌<◌, List, ℕ, length, IfOk, Some};
ghost use Rattle.std.specs.Io.{ReadsAtMost};
ghost use Rattle.std.specs.Io.KnownBytes.{ReadConsumes, WriteAppends};
ghost use Rattle.std.specs.declared.option.Option.{Option};
ghost use Rattle.outside.specs.Causes.{HasCause, LoadCause};
ghost use Rattle.outside.specs.Shelves.{Told, Loads, MayHold};

use std::alloc::Global;

/// A call on an outside object failed. The object's count of faults rose in that call, or stands at
/// 2^64 - 1.
#[derive(Clone, Copy)]
pub struct Failed;

/// Why a shelf gave no file.
#[derive(Clone, Copy)]
pub enum LoadFault {
    /// The file was found and is longer than `limit` bytes.
    TooLong { limit: u64 },
    /// The load failed, or no file has the name. The shelf's count of loads rose.
    Failed,
    /// Want of memory for a file that is not too long.
    NoMemory,
}

/// Bytes that come in.
pub trait Source {
    /// The bytes that are left, where it tells them.
    ghost left: { Self → Option (List ℕ) };

    /// How often it has failed.
    ghost faults: { Self → ℕ };

    /// Moves some of the first bytes left into the buffer's front, and answers how many. `Ok(0)` for a
    /// nonempty buffer is the end. After `Failed` the bytes left are as before.
    fn read(&mut self, buf: &mut [u8]) -> Result<usize, Failed>
        ensures bound { ReadsAtMost result buf.new }
        ensures bytes { ReadConsumes (left self.old) (left self.new) result buf.new }
        ensures cause { HasCause (faults self.old) (faults self.new) result };
}

/// A taker of bytes.
pub trait Sink {
    /// The bytes that it has taken, where it tells them.
    ghost taken: { Self → Option (List ℕ) };

    /// How often it has failed.
    ghost faults: { Self → ℕ };

    /// Takes some of the piece's first bytes, at least one, and answers how many. After `Failed` the
    /// bytes taken are as before.
    fn write(&mut self, piece: &[u8]) -> Result<usize, Failed>
        requires { 0 < length piece.now }
        ensures count { IfOk result (λ n. (1 ≤ n) × (n ≤ length piece.now)) }
        ensures bytes { WriteAppends (taken self.old) (taken self.new) result piece.now }
        ensures cause { HasCause (faults self.old) (faults self.new) result };
}

/// Files by name.
pub trait Shelf {
    /// The file of each name, where it tells it.
    ghost file: { Self → List ℕ → Told };

    /// How many loads have failed.
    ghost loads: { Self → ℕ };

    /// How many saves have failed.
    ghost saves: { Self → ℕ };

    /// The bytes of a file of at most `limit` bytes. A load changes no file and leaves the count of
    /// saves.
    fn load(&mut self, alloc: Global, name: &str, limit: u64) -> Result<Vec<u8>, LoadFault>
        ensures bytes { Loads (λ v. v.items) (file self.old name.now) limit result }
        ensures files { (other : List ℕ) → file self.new other ≡ file self.old other }
        ensures cause { LoadCause (loads self.old) (loads self.new) result }
        ensures saves { saves self.new ≡ saves self.old };

    /// Puts or replaces the file of that name. After `Failed` that file is unknown. All other files and
    /// the count of loads are as before.
    fn save(&mut self, name: &str, bytes: &[u8]) -> Result<(), Failed>
        ensures saved { IfOk result (λ _. MayHold (file self.new name.now) bytes.now) }
        ensures others { (other : List ℕ) → other ≢ name.now → file self.new other ≡ file self.old other }
        ensures cause { HasCause (saves self.old) (saves self.new) result }
        ensures loads { loads self.new ≡ loads self.old };
}

/// A clock of microseconds.
pub trait Clock {
    /// Which numbers it tells.
    ghost Tells: { Self → ℕ → Type 0 };

    /// One of the numbers that it tells, in microseconds.
    fn now_us(&self) -> u64
        ensures { Tells self.now result };
}

/// Two calls round each turn of a guest thread, for whoever wants to see or to order the turns. Each has
/// the thread's slot and the number of entries that it has committed.
pub trait Gate {
    /// Comes before each attempt, while the worker holds no lock and no object.
    fn before(&self, slot: u32, count: u64);

    /// Comes, for turns with amount 0 alone, while the worker holds exactly the objects of the plan and
    /// hasn't the tape's word.
    fn holding(&self, slot: u32, count: u64);
}
