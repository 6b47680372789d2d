//! What is held of the machine.
ghost use Rattle.std.specs.Prelude.{◌≡◌, ◌<◌, ◌+◌, true, IfOk, MatchOption, Some, None, is_some, replicate, slice_set};
ghost use Rattle.machine_parts.specs.Objects.{exists, number};
ghost use Rattle.machine_parts.specs.Parts.{held_at, is_of_kind, lacking, part_at, put_thread, thread_at, without};

use crate::object::{OBJECTS, Object};
use crate::part::Part;
use bsd_thread::Thread;
use std::alloc::{AllocError, Global};
use std::marker::Model;

/// There is no memory for the room of all objects.
#[derive(Clone, Copy, Debug, PartialEq, Eq)]
pub struct NoMemory;

impl From<AllocError> for NoMemory {
    fn from(_: AllocError) -> Self {
        NoMemory
    }
}

/// The parts that are held, each at its object's number, and gaps in the place of the others.
#[derive(Drop)]
pub struct Held {
    pub(crate) parts: Vec<Option<Part>>,
}

impl Model for Held {
    ghost use Rattle.std.specs.Prelude.{◌≡◌, List, Option, length};
    ghost use Rattle.std.specs.Coded.{coded_list, coded_option};
    ghost use Rattle.machine_parts.specs.declared.part.Part.{Part};
    ghost use Rattle.machine_parts.specs.contracts.part.Part as part;

    ghost Value = { List (Option Part) };

    ghost coded = { coded_list (coded_option part.the_row.coded) };

    ghost view = { λ h. h.parts.items };

    ghost invariant = { λ h. length h.parts.items ≡ 210 };
}

impl Held {
    /// Nothing is held, with room for all objects. `NoMemory` where there is no memory for it.
    pub fn make(alloc: Global) -> Result<Held, NoMemory>
        ensures { IfOk result (λ held. held ≡ replicate 210 None) }
    {
        let mut parts = Vec::with_capacity(alloc, OBJECTS)?;
        for _ in 0..OBJECTS {
            parts.push_reserved(None);
        }
        Ok(Held { parts })
    }

    /// Holds the part of an object. The object isn't held, and the part is of its kind.
    pub fn put(&mut self, object: Object, part: Part)
        requires exists { exists object ≡ true }
        requires vacant { part_at self.old (number object) ≡ None }
        requires kind { is_of_kind object part ≡ true }
        ensures { self.new ≡ slice_set self.old (number object) (Some part) }
    {
        self.parts[object.number()] = Some(part);
    }

    /// Gives the part of an object away. `None` exactly where the object isn't held; then nothing changes.
    pub fn take(&mut self, object: Object) -> Option<Part>
        ensures taken { result ≡ held_at self.old object }
        ensures left { self.new ≡ without self.old object }
    {
        if object.exists() {
            self.parts[object.number()].take()
        } else {
            None
        }
    }

    /// The part of an object. `None` exactly where the object isn't held.
    pub fn see(&self, object: Object) -> Option<&Part>
        ensures { MatchOption result (held_at self.now object ≡ None) (λ part. held_at self.now object ≡ Some part.now) }
    {
        if object.exists() {
            self.parts[object.number()].as_ref()
        } else {
            None
        }
    }

    /// Takes out the thread in a slot, which is held.
    pub fn take_thread(&mut self, slot: u8) -> Thread
        requires { is_some (thread_at self.old slot) ≡ true }
        ensures taken { thread_at self.old slot ≡ Some result }
        ensures left { self.new ≡ lacking self.old slot }
    {
        match self.parts[Object::Thread(slot).number()].take() {
            Some(Part::Thread(thread)) => thread,
            Some(_other) => unreachable!(),
            None => unreachable!(),
        }
    }

    /// Puts back the thread in a slot, which isn't held.
    pub fn put_thread(&mut self, slot: u8, thread: Thread)
        requires slot { slot < 128 }
        requires vacant { part_at self.old slot ≡ None }
        ensures { self.new ≡ put_thread self.old slot thread }
    {
        self.parts[Object::Thread(slot).number()] = Some(Part::Thread(thread));
    }
}
