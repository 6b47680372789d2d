// A source in memory, which fails at the calls that it is told.
ghost use Rattle.std.specs.Prelude.{◌≡◌, ◌↔◌, ◌≤◌, List, ℕ, min, length, Contains, IsErr, IsTrue, Some, IfOk, OnErr, take};

use crate::calls::Calls;
use crate::traits::{Failed, Source};
use std::marker::Model;

/// Bytes in memory that are read from the front. A read that doesn't fail gives as many bytes as are
/// left and fit.
#[derive(Drop)]
pub struct MemSource {
    bytes: Vec<u8>,
    place: usize,
    calls: Calls,
    faults: u64,
}

impl Model for MemSource {
    ghost use Rattle.std.specs.Prelude.{◌≤◌, drop, length};
    ghost use Rattle.outside.specs.Memory.{MemorySource};

    ghost Value = { MemorySource };

    ghost view = { λ s. record { left = drop s.place s.bytes.items; failing = s.calls.failing.items; calls = s.calls.made; faults = s.faults } };

    ghost invariant = { λ s. s.place ≤ length s.bytes.items };
}

impl MemSource {
    /// A source of these bytes. `failing` lists the calls, counted from 0, that fail. It takes no memory.
    pub fn make(bytes: Vec<u8>, failing: Vec<u64>) -> MemSource
        ensures { result ≡ record { left = bytes.items; failing = failing.items; calls = 0; faults = 0 } }
    {
        MemSource {
            bytes,
            place: 0,
            calls: Calls::new(failing),
            faults: 0,
        }
    }
}

// Copies as many first bytes as are there and fit.
fn copy_front(left: &[u8], into: &mut [u8]) -> usize
    ensures count { result ≡ min (length into.new) (length left.now) }
    ensures copied { take result into.new ≡ take result left.now }
{
    let count = left.len().min(into.len());
    into[..count].copy_from_slice(&left[..count]);
    count
}

impl Source for MemSource {
    ghost use Rattle.std.specs.Io.{ReadsAtMost};
    ghost use Rattle.std.specs.Io.KnownBytes.{ReadConsumes};
    ghost use Rattle.outside.specs.Causes.{HasCause};
    ghost use Rattle.outside.specs.Memory.{counted};

    ghost left = { λ s. Some s.left };

    ghost faults = { λ s. s.faults };

    /// `Failed` exactly where `failing` has the call's number. The count of faults rises by one there, and
    /// nowhere else.
    fn read(&mut self, buf: &mut [u8]) -> Result<usize, Failed>
        ensures bound { ReadsAtMost result buf.new }
        ensures bytes { ReadConsumes (Some self.old.left) (Some self.new.left) result buf.new }
        ensures cause { HasCause self.old.faults self.new.faults result }
        ensures failed { IsErr result ↔ Contains self.old.failing self.old.calls }
        ensures rises { OnErr result (self.new.faults ≡ counted self.old.faults) }
        ensures fits { IfOk result (λ n. n ≡ min (length buf.new) (length self.old.left)) }
        ensures calls { self.new.calls ≡ counted self.old.calls }
        ensures failing { self.new.failing ≡ self.old.failing }
    {
        if self.calls.fails_next() {
            self.faults = self.faults.saturating_add(1);
            return Err(Failed);
        }
        let count = copy_front(&self.bytes[self.place..], buf);
        self.place += count;
        Ok(count)
    }
}
