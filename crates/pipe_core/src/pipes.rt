//! A pipe (pipe(2)), or a console room: bytes in a ring.
ghost use Rattle.std.specs.Prelude.{◌≡◌, ◌≤◌, ◌-◌, ◌++◌, [], length, take, drop, min, IfOk};

use circular_buffer::HeapCircularBuffer;
use std::alloc::Global;
use std::marker::Model;

/// There is no memory for the room of a pipe.
#[derive(Clone, Copy, Debug, PartialEq, Eq)]
pub struct NoMemory;

/// The bytes that a pipe holds, the first that was put first, and its room, the most that it can hold. Only `make` takes
/// memory, which is touched as bytes come.
#[derive(Drop)]
pub struct Pipe {
    ring: HeapCircularBuffer<u8>,
    room: u32,
}

impl Model for Pipe {
    ghost use Rattle.std.specs.Prelude.{◌≡◌};
    ghost use Rattle.pipe_core.specs.Pipes.{PipeBytes};

    ghost Value = { PipeBytes };

    ghost view = { λ p. record { bytes = p.ring.items; room = p.room } };

    ghost invariant = { λ p. p.ring.capacity ≡ p.room };
}

impl Pipe {
    ghost use Rattle.pipe_core.specs.Pipes.{fitting, with_put, without_first};

    /// An empty pipe with room for so many bytes. `NoMemory` where there is no memory for the room.
    pub fn make(alloc: Global, room: u32) -> Result<Pipe, NoMemory>
        ensures { IfOk result (λ pipe. pipe ≡ record { bytes = []; room = room }) }
    {
        let Ok(ring) = HeapCircularBuffer::with_capacity(alloc, room as usize) else {
            return Err(NoMemory);
        };
        Ok(Pipe { ring, room })
    }

    /// Appends as many first bytes of `bytes` as fit, and answers how many.
    pub fn put(&mut self, bytes: &[u8]) -> usize
        ensures count { result ≡ fitting (length bytes.now) self.old }
        ensures pipe { self.new ≡ with_put bytes.now self.old }
    {
        self.ring.fill_from_slice(bytes)
    }

    /// Moves as many first bytes as are held and fit into `into` out to its front, and answers how many. What lies behind
    /// them in `into` stays.
    pub fn take(&mut self, into: &mut [u8]) -> usize
        ensures count { result ≡ min (length into.old) (length self.old.bytes) }
        ensures taken { into.new ≡ take result self.old.bytes ++ drop result into.old }
        ensures pipe { self.new ≡ without_first result self.old }
    {
        self.ring.read_into(into)
    }

    /// Copies as many first bytes as are held and fit into `into` to its front, and answers how many. They stay in the pipe,
    /// and so does what lies behind them in `into`.
    pub fn copy_front(&self, into: &mut [u8]) -> usize
        ensures count { result ≡ min (length into.old) (length self.now.bytes) }
        ensures copied { into.new ≡ take result self.now.bytes ++ drop result into.old }
    {
        let (front, back) = self.ring.as_slices();
        let from_front = front.len().min(into.len());
        let from_back = back.len().min(into.len() - from_front);
        let count = from_front + from_back;
        into[..from_front].copy_from_slice(&front[..from_front]);
        into[from_front..count].copy_from_slice(&back[..from_back]);
        count
    }

    /// Lets the first `count` bytes go. The pipe has to hold so many.
    pub fn drop_first(&mut self, count: u32)
        requires { count ≤ length self.old.bytes }
        ensures { self.new ≡ without_first count self.old }
    {
        let left = self.ring.len() - count as usize;
        self.ring.truncate_front(left);
    }

    /// How many bytes it holds, which are at most as many as its room.
    pub fn held(&self) -> u32
        ensures held { result ≡ length self.now.bytes }
        ensures within { length self.now.bytes ≤ self.now.room }
    {
        self.room - self.free()
    }

    /// How many more bytes fit.
    pub fn free(&self) -> u32
        ensures free { result ≡ self.now.room - length self.now.bytes }
        ensures within { length self.now.bytes ≤ self.now.room }
    {
        (self.room as usize - self.ring.len()) as u32
    }
}
