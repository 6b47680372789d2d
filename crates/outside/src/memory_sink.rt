// A sink in memory, which fails at the calls that it is told.
ghost use Rattle.std.specs.Prelude.{◌≡◌, ◌≤◌, ◌<◌, ◌+◌, ◌⊎◌, min, length, Contains, IsErr, IsOk, IsTrue, Some, IfOk, OnErr};
ghost use Rattle.std.specs.Vec.{vec_capacity};

use crate::calls::Calls;
use crate::traits::{Failed, Sink};
use std::marker::Model;

/// Bytes that are taken into memory, at most `piece` of them a call. A write that doesn't fail takes as
/// many bytes as it is given, but at most `piece`.
#[derive(Drop)]
pub struct MemSink {
    taken: Vec<u8>,
    piece: usize,
    calls: Calls,
    faults: u64,
}

impl Model for MemSink {
    ghost use Rattle.std.specs.Prelude.{◌≤◌};
    ghost use Rattle.std.specs.Vec.{vec_capacity};
    ghost use Rattle.outside.specs.Memory.{MemorySink};

    ghost Value = { MemorySink };

    ghost view = { λ s. record { taken = s.taken.items; piece = s.piece; failing = s.calls.failing.items; calls = s.calls.made; faults = s.faults; room = vec_capacity s.taken } };

    ghost invariant = { λ s. 1 ≤ s.piece };
}

impl MemSink {
    /// A sink that holds `taken` already. `failing` lists the calls, counted from 0, that fail. It takes
    /// no memory.
    pub fn make(taken: Vec<u8>, piece: usize, failing: Vec<u64>) -> MemSink
        requires { 1 ≤ piece }
        ensures { result ≡ record { taken = taken.items; piece = piece; failing = failing.items; calls = 0; faults = 0; room = vec_capacity taken } }
    {
        MemSink {
            taken,
            piece,
            calls: Calls::new(failing),
            faults: 0,
        }
    }

    /// The bytes taken so far.
    pub fn taken(&self) -> &[u8]
        ensures { result.now ≡ self.now.taken }
    {
        &self.taken
    }
}

impl Sink for MemSink {
    ghost use Rattle.outside.specs.Causes.{HasCause};
    ghost use Rattle.outside.specs.Memory.{counted};
    ghost use Rattle.std.specs.Io.KnownBytes.{WriteAppends};

    ghost taken = { λ s. Some s.taken };

    ghost faults = { λ s. s.faults };

    /// `Failed` exactly where `failing` has the call's number, and besides, free, for want of memory
    /// past the room that has been had already, which stays. The count of faults rises by one there, and
    /// nowhere else.
    fn write(&mut self, piece: &[u8]) -> Result<usize, Failed>
        requires { 0 < length piece.now }
        ensures count { IfOk result (λ n. (1 ≤ n) × (n ≤ length piece.now)) }
        ensures bytes { WriteAppends (Some self.old.taken) (Some self.new.taken) result piece.now }
        ensures cause { HasCause self.old.faults self.new.faults result }
        ensures told { Contains self.old.failing self.old.calls → IsErr result }
        ensures failed { IsErr result →
            Contains self.old.failing self.old.calls ⊎ (self.old.room < length self.old.taken + min (length piece.now) self.old.piece) }
        ensures rises { OnErr result (self.new.faults ≡ counted self.old.faults) }
        ensures fits { IfOk result (λ n. n ≡ min (length piece.now) self.old.piece) }
        ensures calls { self.new.calls ≡ counted self.old.calls }
        ensures failing { self.new.failing ≡ self.old.failing }
        ensures piece { self.new.piece ≡ self.old.piece }
        ensures room { self.old.room ≤ self.new.room }
    {
        let count = piece.len().min(self.piece);
        if self.calls.fails_next() || self.taken.extend_from_slice(&piece[..count]).is_err() {
            self.faults = self.faults.saturating_add(1);
            return Err(Failed);
        }
        Ok(count)
    }
}
