//! Bytes on the heap: of a call, and of a pipe or console room.
ghost use Rattle.std.specs.Prelude.{◌≡◌, ◌≤◌, ◌+◌, ◌-◌, ◌++◌, length, take, drop, min, IfOk, OnOk, OnErr, []};

use circular_buffer::HeapCircularBuffer;
use std::alloc::Global;
use std::marker::Model;

/// Want of memory.
#[derive(Clone, Copy, Debug, PartialEq, Eq)]
pub struct NoMemory;

/// The most bytes that a pipe or a console room holds, and that one transfer moves (pipe(7), the capacity of a pipe).
pub const ROOM: usize = 65_536;

/// Bytes in order, which contracts see as a list.
#[derive(Drop)]
pub struct Bytes {
    items: Vec<u8>,
}

impl Model for Bytes {
    ghost use Rattle.std.specs.Prelude.{List, ℕ};

    ghost Value = { List ℕ };

    ghost view = { λ b. b.items.items };
}

impl Bytes {
    /// No bytes. Takes no memory.
    pub fn empty(alloc: Global) -> Bytes
        ensures { result ≡ [] }
    {
        Bytes {
            items: Vec::new(alloc),
        }
    }

    /// These bytes. Takes no memory.
    pub fn from_vec(items: Vec<u8>) -> Bytes
        ensures { result ≡ items.items }
    {
        Bytes { items }
    }

    /// The bytes.
    pub fn as_slice(&self) -> &[u8]
        ensures { result.now ≡ self.now }
    {
        self.items.as_slice()
    }

    /// Appends bytes. Where memory is wanting, nothing is appended.
    pub fn append(&mut self, more: &[u8]) -> Result<(), NoMemory>
        ensures ok { OnOk result (self.new ≡ self.old ++ more.now) }
        ensures err { OnErr result (self.new ≡ self.old) }
    {
        self.items.extend_from_slice(more).map_err(|_| NoMemory)
    }

    /// Lets all bytes go.
    pub fn clear(&mut self)
        ensures { self.new ≡ [] }
    {
        self.items.clear();
    }

    /// Lets the first bytes go, or all where there are fewer.
    pub fn drop_first(&mut self, count: usize)
        ensures { self.new ≡ drop count self.old }
    {
        if count < self.items.len() {
            self.items.drain(..count);
        } else {
            self.items.clear();
        }
    }
}

/// What a pipe or a console holds, at most `ROOM` bytes, which contracts see as a list, the first that was put first.
#[derive(Drop)]
pub struct Room {
    ring: HeapCircularBuffer<u8>,
}

impl Model for Room {
    ghost use Rattle.std.specs.Prelude.{◌≡◌, List, ℕ};

    ghost Value = { List ℕ };

    ghost view = { λ r. r.ring.items };

    ghost invariant = { λ r. r.ring.capacity ≡ 65536 };
}

impl Room {
    /// An empty room.
    pub fn make(alloc: Global) -> Result<Room, NoMemory>
        ensures { IfOk result (λ room. room ≡ []) }
    {
        let Ok(ring) = HeapCircularBuffer::with_capacity(alloc, ROOM) else {
            return Err(NoMemory);
        };
        Ok(Room { ring })
    }

    /// How many bytes it holds.
    pub fn held(&self) -> usize
        ensures { result ≡ length self.now }
    {
        self.ring.len()
    }

    /// How many more bytes fit.
    pub fn free(&self) -> usize
        ensures { result ≡ 65536 - length self.now }
    {
        ROOM - self.ring.len()
    }

    /// Puts bytes behind those that it holds. They have to fit.
    pub fn put(&mut self, bytes: &[u8])
        requires { length self.old + length bytes.now ≤ 65536 }
        ensures { self.new ≡ self.old ++ bytes.now }
    {
        self.ring.fill_from_slice(bytes);
    }

    /// Takes the first bytes that it holds out, as many as `into` has. It has to hold so many.
    pub fn take(&mut self, into: &mut [u8])
        requires { length into.old ≤ length self.old }
        ensures taken { into.new ≡ take (length into.old) self.old }
        ensures left { self.new ≡ drop (length into.old) self.old }
    {
        self.ring.read_into(into);
    }

    /// Lets the first bytes go. It has to hold so many.
    pub fn drop_first(&mut self, count: usize)
        requires { count ≤ length self.old }
        ensures { self.new ≡ drop count self.old }
    {
        let left = self.ring.len() - count;
        self.ring.truncate_front(left);
    }
}
