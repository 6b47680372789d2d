//! Plans.
ghost use Rattle.std.specs.Prelude.{◌≡◌, ◌+◌, ◌<◌, ◌≤◌, [], ◌∷◌, ◌++◌, length};
ghost use Rattle.machine_parts.specs.Plans.{shards_of};

use crate::object::Object;
use arrayvec::ArrayVec;
use places::PageRange;
use std::marker::Model;

/// The objects that an entry needs, at most 40. Contracts see the list of them.
#[derive(Drop)]
pub struct Plan {
    objects: ArrayVec<Object, 40>,
}

impl Model for Plan {
    ghost use Rattle.std.specs.Prelude.{List};
    ghost use Rattle.machine_parts.specs.declared.object.Object.{Object};

    ghost Value = { List Object };

    ghost view = { λ p. p.objects.items };
}

impl Plan {
    /// No object.
    pub fn make() -> Plan
        ensures { result ≡ [] }
    {
        Plan {
            objects: ArrayVec::new(),
        }
    }

    /// This object alone.
    pub fn just(object: Object) -> Plan
        ensures { result ≡ object ∷ [] }
    {
        Plan::make().with(object)
    }

    /// One more object, for which there has to be room.
    pub fn with(self, object: Object) -> Plan
        requires { length self < 40 }
        ensures { result ≡ self ++ object ∷ [] }
    {
        let mut plan = self;
        plan.add(object);
        plan
    }

    /// The shards of a range of pages besides, each once, for which there has to be room.
    pub fn with_shards(self, range: PageRange) -> Plan
        requires { length self + 16 ≤ 40 }
        ensures { result ≡ self ++ shards_of range.first range.count }
    {
        let mut plan = self;
        for i in 0..range.shard_count() {
            plan.add(Object::Shard(range.shard_at(i)));
        }
        plan
    }

    /// Adds an object, for which there has to be room.
    pub fn add(&mut self, object: Object)
        requires { length self.old < 40 }
        ensures { self.new ≡ self.old ++ object ∷ [] }
    {
        self.objects.push(object);
    }

    /// The objects.
    pub fn objects(&self) -> &[Object]
        ensures value { result.now ≡ self.now }
        ensures few { length result.now ≤ 40 }
    {
        self.objects.as_slice()
    }
}
