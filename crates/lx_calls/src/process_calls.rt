//! uname(2). Which names these are is this project's own.
ghost use Rattle.std.specs.Prelude.{◌≡◌, ◌≤◌, ◌++◌, length, IfOk, OnErr, OnOk};
ghost use Rattle.lx_machine.specs.Uname.{name_field, names, uname};

use lx_machine::buffer::{Bytes, NoMemory};
use lx_machine::calls::{LxCall, Piece, Pieces};
use std::alloc::Global;

/// The bytes of a name.
const NAME: usize = 65;

/// A name in 65 bytes.
fn field_of(name: &[u8]) -> [u8; NAME]
    requires { length name.now ≤ 65 }
    ensures { result ≡ name_field name.now }
{
    let mut field = [0u8; NAME];
    field[..name.len()].copy_from_slice(name);
    field
}

/// A name in 65 bytes goes behind these bytes.
fn add_name(bytes: &mut Bytes, name: &[u8]) -> Result<(), NoMemory>
    requires { length name.now ≤ 65 }
    ensures { OnOk result (bytes.new ≡ bytes.old ++ name_field name.now) }
{
    bytes.append(&field_of(name))
}

/// The names of the system.
fn names(alloc: Global) -> Result<Bytes, NoMemory>
    ensures { IfOk result (λ bytes. bytes ≡ names) }
{
    let mut bytes = Bytes::empty(alloc);
    add_name(&mut bytes, b"Linux")?;
    add_name(&mut bytes, b"freebsd")?;
    add_name(&mut bytes, b"5.15.0")?;
    add_name(&mut bytes, b"Linuxulator")?;
    add_name(&mut bytes, b"aarch64")?;
    add_name(&mut bytes, b"(none)")?;
    Ok(bytes)
}

/// Answers the names of the system (uname(2)). Where memory is wanting, nothing changes.
pub fn uname(alloc: Global, call: &mut LxCall) -> Result<(), NoMemory>
    ensures ok { OnOk result (call.new ≡ uname call.old) }
    ensures err { OnErr result (call.new ≡ call.old) }
{
    let bytes = names(alloc)?;
    let pieces = Pieces::one(alloc, call.arguments[0], 390)?;
    call.answer_with(0, pieces, bytes);
    Ok(())
}
