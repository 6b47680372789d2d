// A program of one segment.
ghost use Rattle.std.specs.Prelude.{IfSome, Some, None, if◌then◌else◌, ◌≡◌, ◌≤◌, ◌<◌, ◌+◌, ◌-◌, ◌^◌, slice_index, length, take, drop, ◌++◌, replicate};
ghost use Rattle.std.specs.Vec.{vec_capacity};

use a64_decode::decode;
use a64_model::instr::Instr;
use std::marker::Model;

/// What runs: a segment of code and data, and the address at which it begins.
#[derive(Drop)]
pub struct Program {
    entry: u64,
    at: u64,
    size: u64,
    bytes: Vec<u8>,
}

impl Model for Program {
    ghost use Rattle.plain_machine.specs.Program.{ProgramView};

    ghost Value = { ProgramView };

    ghost view = { λ p. record { entry = p.entry; at = p.at; size = p.size; bytes = p.bytes.items } };
}

// Appends to a vector that has room.
fn append(out: &mut Vec<u8>, part: &[u8])
    requires { length out.old.items + length part.now ≤ vec_capacity out.old }
    ensures items { out.new.items ≡ out.old.items ++ part.now }
    ensures room { vec_capacity out.old ≤ vec_capacity out.new }
{
    let _ = out.extend_from_slice(part);
}

// Fills a vector that has room with zeros up to a length.
fn pad(out: &mut Vec<u8>, len: usize)
    requires room { len ≤ vec_capacity out.old }
    requires more { length out.old.items ≤ len }
    ensures items { out.new.items ≡ out.old.items ++ replicate (len - length out.old.items) 0 }
    ensures room { vec_capacity out.old ≤ vec_capacity out.new }
{
    let _ = out.resize(len, 0);
}

impl Program {
    ghost use Rattle.a64_model.specs.Widths.{HasWidths};
    ghost use Rattle.plain_machine.specs.Program.{is_inside, word_at, instruction_at, bytes_at};

    /// The program that begins at the address `entry`, with its segment at the address `at`, of `size`
    /// bytes in memory: `bytes` and zeros behind them.
    pub fn new(entry: u64, at: u64, size: u64, bytes: Vec<u8>) -> Program
        ensures { result ≡ record { entry = entry; at = at; size = size; bytes = bytes.items } }
    {
        Program {
            entry,
            at,
            size,
            bytes,
        }
    }

    /// The address at which it begins.
    pub fn entry(&self) -> u64
        ensures { result ≡ self.now.entry }
    {
        self.entry
    }

    // How far a range of `len` bytes lies from the segment's start, where it lies in the segment.
    fn distance_to(&self, address: u64, len: u64) -> Option<u64>
        ensures some { result ≡ (if is_inside self.now address len then Some (address - self.now.at) else None) }
        ensures fits { IfSome result (λ distance. distance + len < 2 ^ 64) }
    {
        let distance = address.checked_sub(self.at)?;
        if len <= self.size && distance <= self.size - len {
            Some(distance)
        } else {
            None
        }
    }

    /// Whether a range of `len` bytes lies in the segment.
    pub fn is_inside(&self, address: u64, len: u64) -> bool
        ensures { result ≡ is_inside self.now address len }
    {
        self.distance_to(address, len).is_some()
    }

    // The byte at a distance from the segment's start.
    fn byte(&self, distance: u64) -> u8
        ensures { result ≡ slice_index self.now.bytes distance }
    {
        self.bytes.get(distance as usize).copied().unwrap_or(0)
    }

    /// The instruction word at an address, or none where it isn't in the segment.
    pub fn word_at(&self, address: u64) -> Option<u32>
        ensures { result ≡ word_at self.now address }
    {
        let distance = self.distance_to(address, 4)?;
        let bytes = [
            self.byte(distance),
            self.byte(distance + 1),
            self.byte(distance + 2),
            self.byte(distance + 3),
        ];
        Some(u32::from_le_bytes(bytes))
    }

    /// The instruction at an address, or none where the address isn't a multiple of 4, isn't in the
    /// segment, or has a word that fits no row.
    pub fn instruction_at(&self, address: u64) -> Option<Instr>
        ensures row { result ≡ instruction_at self.now address }
        ensures widths { IfSome result HasWidths }
    {
        if address % 4 == 0 {
            decode(self.word_at(address)?)
        } else {
            None
        }
    }

    // The part of a range that the file has.
    fn part(&self, address: u64, len: usize) -> &[u8]
        ensures { result.now ≡ take len (drop (address - self.now.at) self.now.bytes) }
    {
        let distance = address.saturating_sub(self.at) as usize;
        let start = distance.min(self.bytes.len());
        let rest = &self.bytes[start..];
        &rest[..len.min(rest.len())]
    }

    /// Appends the bytes of a range to `out`, which has room for them.
    pub fn append_to(&self, out: &mut Vec<u8>, address: u64, len: usize)
        requires { length out.old.items + len ≤ vec_capacity out.old }
        ensures items { out.new.items ≡ out.old.items ++ bytes_at self.now address len }
        ensures room { vec_capacity out.old ≤ vec_capacity out.new }
    {
        let whole = out.len() + len;
        append(out, self.part(address, len));
        pad(out, whole);
    }
}
