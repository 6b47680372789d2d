//! The objects of the machine.
ghost use Rattle.std.specs.Prelude.{◌≡◌, ◌<◌, ◌≤◌, true, MatchOption};
ghost use Rattle.machine_parts.specs.Objects.{exists, number};
ghost use Rattle.machine_parts.specs.declared.object.Object.{Object as AnObject};

use places::limits::{CHAINS, SHARDS, SLOTS};

/// The name of an object. The machine has the threads 0 to 127, the shards 0 to 15 and the chains 0 to 63.
#[derive(Clone, Copy, Debug, Default, PartialEq, Eq)]
pub enum Object {
    /// The thread in a slot.
    Thread(u8),
    /// The shard of this index.
    Shard(u8),
    /// The chain of this index.
    Chain(u8),
    #[default]
    Process,
    Files,
}

/// The numbers of the first shard, the first chain, the process and the files.
const FIRST_SHARD: usize = SLOTS;

const FIRST_CHAIN: usize = FIRST_SHARD + SHARDS as usize;

const PROCESS: usize = FIRST_CHAIN + CHAINS as usize;

const FILES: usize = PROCESS + 1;

/// How many objects there are.
pub(crate) const OBJECTS: usize = FILES + 1;

impl Object {
    /// Whether the machine has this object.
    pub fn exists(self) -> bool
        ensures { result ≡ exists self }
    {
        match self {
            Object::Thread(slot) => (slot as usize) < SLOTS,
            Object::Shard(index) => index < SHARDS,
            Object::Chain(index) => index < CHAINS,
            Object::Process | Object::Files => true,
        }
    }

    /// Its place among all objects: threads have 0 to 127, shards 128 to 143, chains 144 to 207, the process 208, the files 209.
    pub fn number(self) -> usize
        ensures value { result ≡ number self }
        ensures fits { exists self ≡ true → result < OBJECTS }
        ensures one { (other : AnObject) → exists self ≡ true → exists other ≡ true → number other ≡ result → other ≡ self }
    {
        match self {
            Object::Thread(slot) => slot as usize,
            Object::Shard(index) => FIRST_SHARD + index as usize,
            Object::Chain(index) => FIRST_CHAIN + index as usize,
            Object::Process => PROCESS,
            Object::Files => FILES,
        }
    }

    /// The object of this number. `None` exactly where there is none, from 210 on.
    pub fn at(place: usize) -> Option<Object>
        ensures { MatchOption result (OBJECTS ≤ place) (λ object. (exists object ≡ true) × (number object ≡ place)) }
    {
        if place < FIRST_SHARD {
            Some(Object::Thread(place as u8))
        } else if place < FIRST_CHAIN {
            Some(Object::Shard((place - FIRST_SHARD) as u8))
        } else if place < PROCESS {
            Some(Object::Chain((place - FIRST_CHAIN) as u8))
        } else if place == PROCESS {
            Some(Object::Process)
        } else if place == FILES {
            Some(Object::Files)
        } else {
            None
        }
    }
}
