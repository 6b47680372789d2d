// All the bytes of a source, and all of a text into a sink.
ghost use Rattle.std.specs.Prelude.{◌≡◌, ◌<◌, ◌^◌, ◌-◌, length, vec_len, IfOk, OnOk, OnErr};
ghost use Rattle.std.specs.Io.KnownBytes.{Appends, IsAtEnd};
ghost use Rattle.outside.specs.Causes.{HasCause, LoadCause};
ghost use Rattle.outside.specs.Sources.{ReadsWhole};
ghost use Rattle.outside.specs.Sinks.{AppendsSome, Took, TookPart, TookAsFaults, sink_view};

use crate::traits::{Failed, LoadFault, Sink, Source};
use std::alloc::{AllocError, Global};

// The most bytes of one read.
const READ_AT_ONCE: usize = 65_536;

// Room for one read.
fn make_room(alloc: Global, len: usize) -> Result<Vec<u8>, AllocError>
    ensures { IfOk result (λ room. vec_len room ≡ len) }
{
    vec![in alloc; 0; len]
}

// Reads all the bytes that are left, as many at a time as fit the room.
fn read_rest<S: Source>(
    source: &mut S,
    room: &mut [u8],
    alloc: Global,
    limit: u64,
) -> Result<Vec<u8>, LoadFault>
    requires { 0 < length room.old }
    ensures bytes { ReadsWhole (λ v. v.items) (S.left source.old) limit result }
    ensures end { OnOk result (IsAtEnd (S.left source.new)) }
    ensures cause { LoadCause (S.faults source.old) (S.faults source.new) result }
{
    let mut bytes = Vec::new(alloc);
    loop {
        let Ok(count) = source.read(room) else {
            return Err(LoadFault::Failed);
        };
        if count == 0 {
            return Ok(bytes);
        }
        if count as u64 > limit - bytes.len() as u64 {
            return Err(LoadFault::TooLong { limit });
        }
        if bytes.extend_from_slice(&room[..count]).is_err() {
            return Err(LoadFault::NoMemory);
        }
    }
}

/// Reads all the bytes that are left of a source, at most `limit` of them. `Failed` only where the
/// source failed; its count tells.
pub fn take_all<S: Source>(source: &mut S, alloc: Global, limit: u64) -> Result<Vec<u8>, LoadFault>
    ensures bytes { ReadsWhole (λ v. v.items) (S.left source.old) limit result }
    ensures end { OnOk result (IsAtEnd (S.left source.new)) }
    ensures cause { LoadCause (S.faults source.old) (S.faults source.new) result }
{
    match make_room(alloc, READ_AT_ONCE) {
        Ok(mut room) => read_rest(source, &mut room, alloc, limit),
        Err(_) => Err(LoadFault::NoMemory),
    }
}

/// Writes all the bytes, or a first part of them where the sink fails.
pub fn put_all<S: Sink>(sink: &mut S, bytes: &[u8]) -> Result<(), Failed>
    ensures whole { OnOk result (Appends (S.taken sink.old) (S.taken sink.new) bytes.now) }
    ensures part { OnErr result (AppendsSome (S.taken sink.old) (S.taken sink.new) bytes.now) }
    ensures cause { HasCause (S.faults sink.old) (S.faults sink.new) result }
{
    let mut rest = bytes;
    while !rest.is_empty() {
        let count = sink.write(rest)?;
        rest = &rest[count..];
    }
    Ok(())
}

/// The same, where the sink's count of faults can still rise: `Failed` exactly where it rose.
pub fn put<S: Sink>(sink: &mut S, bytes: &[u8]) -> Result<(), Failed>
    requires { S.faults sink.old < 2 ^ 64 - 1 }
    ensures whole { OnOk result (Took (sink_view S.taken S.faults sink.old) (sink_view S.taken S.faults sink.new) bytes.now) }
    ensures part { OnErr result (TookPart (sink_view S.taken S.faults sink.old) (sink_view S.taken S.faults sink.new) bytes.now) }
{
    put_all(sink, bytes)
}

/// Writes as many of the bytes as the sink takes. Its count of faults tells whether it took all.
pub fn put_some<S: Sink>(sink: &mut S, bytes: &[u8])
    ensures { TookAsFaults (sink_view S.taken S.faults sink.old) (sink_view S.taken S.faults sink.new) bytes.now }
{
    let _ = put_all(sink, bytes);
}
