//! What is lent of what is held. Each kind of part has a lend, which ends as what is written there, and a look.
ghost use Rattle.std.specs.Prelude.{◌≡◌, ◌<◌, true, length, MatchOption, Some, None, is_some};
ghost use Rattle.std.specs.Borrow.{sem};
ghost use Rattle.machine_parts.specs.Parts.{held_at, part_at, thread_at, shard_at, chain_at, process_at, files_at};
ghost use Rattle.machine_parts.specs.Lending.{LendsAt, LendsPart, LendsThread, LendsShard, LendsChain, LendsProcess, LendsFiles};

use crate::held::Held;
use crate::object::Object;
use crate::part::Part;
use bsd_files::Files;
use bsd_proc::Process;
use bsd_thread::Thread;
use guest_mem::Shard;
use umtx_queue::Chain;

impl Held {
    // Lends the part of this number, if it is held.
    fn lend(&mut self, number: usize) -> Option<&mut Part>
        requires { number < length self.old }
        ensures* writes_back { sem 𝓛 (LendsAt self.entry number result) }
        ensures value { MatchOption result (part_at self.old number ≡ None) (λ part. part_at self.old number ≡ Some part.now) }
    {
        self.parts[number].as_mut()
    }

    /// Lends the part of an object. `None` exactly where the object isn't held.
    pub fn part(&mut self, object: Object) -> Option<&mut Part>
        ensures* writes_back { sem 𝓛 (LendsPart self.entry object result) }
        ensures value { MatchOption result (held_at self.old object ≡ None) (λ part. held_at self.old object ≡ Some part.now) }
    {
        if object.exists() {
            self.parts[object.number()].as_mut()
        } else {
            None
        }
    }

    /// Lends the thread in a slot, which is held.
    #[tactic(auto, using(crate::proofs::PartKinds::thread_there))]
    pub fn thread(&mut self, slot: u8) -> &mut Thread
        requires { is_some (thread_at self.old slot) ≡ true }
        ensures* writes_back { sem 𝓛 (LendsThread self.entry slot result) }
        ensures value { thread_at self.old slot ≡ Some result.now }
    {
        match self.lend(Object::Thread(slot).number()) {
            Some(Part::Thread(thread)) => thread,
            Some(_other) => unreachable!(),
            None => unreachable!(),
        }
    }

    /// The thread in a slot, which is held.
    pub fn see_thread(&self, slot: u8) -> &Thread
        requires { is_some (thread_at self.now slot) ≡ true }
        ensures { thread_at self.now slot ≡ Some result.now }
    {
        match &self.parts[Object::Thread(slot).number()] {
            Some(Part::Thread(thread)) => thread,
            Some(_other) => unreachable!(),
            None => unreachable!(),
        }
    }

    /// Lends the shard of this index, which is held.
    #[tactic(auto, using(crate::proofs::PartKinds::shard_there))]
    pub fn shard(&mut self, index: u8) -> &mut Shard
        requires { is_some (shard_at self.old index) ≡ true }
        ensures* writes_back { sem 𝓛 (LendsShard self.entry index result) }
        ensures value { shard_at self.old index ≡ Some result.now }
    {
        match self.lend(Object::Shard(index).number()) {
            Some(Part::Shard(shard)) => shard,
            Some(_other) => unreachable!(),
            None => unreachable!(),
        }
    }

    /// The shard of this index, which is held.
    pub fn see_shard(&self, index: u8) -> &Shard
        requires { is_some (shard_at self.now index) ≡ true }
        ensures { shard_at self.now index ≡ Some result.now }
    {
        match &self.parts[Object::Shard(index).number()] {
            Some(Part::Shard(shard)) => shard,
            Some(_other) => unreachable!(),
            None => unreachable!(),
        }
    }

    /// Lends the chain of this index, which is held.
    #[tactic(auto, using(crate::proofs::PartKinds::chain_there))]
    pub fn chain(&mut self, index: u8) -> &mut Chain
        requires { is_some (chain_at self.old index) ≡ true }
        ensures* writes_back { sem 𝓛 (LendsChain self.entry index result) }
        ensures value { chain_at self.old index ≡ Some result.now }
    {
        match self.lend(Object::Chain(index).number()) {
            Some(Part::Chain(chain)) => chain,
            Some(_other) => unreachable!(),
            None => unreachable!(),
        }
    }

    /// The chain of this index, which is held.
    pub fn see_chain(&self, index: u8) -> &Chain
        requires { is_some (chain_at self.now index) ≡ true }
        ensures { chain_at self.now index ≡ Some result.now }
    {
        match &self.parts[Object::Chain(index).number()] {
            Some(Part::Chain(chain)) => chain,
            Some(_other) => unreachable!(),
            None => unreachable!(),
        }
    }

    /// Lends the process, which is held.
    #[tactic(auto, using(crate::proofs::PartKinds::process_there))]
    pub fn process(&mut self) -> &mut Process
        requires { is_some (process_at self.old) ≡ true }
        ensures* writes_back { sem 𝓛 (LendsProcess self.entry result) }
        ensures value { process_at self.old ≡ Some result.now }
    {
        match self.lend(Object::Process.number()) {
            Some(Part::Process(process)) => process,
            Some(_other) => unreachable!(),
            None => unreachable!(),
        }
    }

    /// The process, which is held.
    pub fn see_process(&self) -> &Process
        requires { is_some (process_at self.now) ≡ true }
        ensures { process_at self.now ≡ Some result.now }
    {
        match &self.parts[Object::Process.number()] {
            Some(Part::Process(process)) => process,
            Some(_other) => unreachable!(),
            None => unreachable!(),
        }
    }

    /// Lends the files, which are held.
    #[tactic(auto, using(crate::proofs::PartKinds::files_there))]
    pub fn files(&mut self) -> &mut Files
        requires { is_some (files_at self.old) ≡ true }
        ensures* writes_back { sem 𝓛 (LendsFiles self.entry result) }
        ensures value { files_at self.old ≡ Some result.now }
    {
        match self.lend(Object::Files.number()) {
            Some(Part::Files(files)) => files,
            Some(_other) => unreachable!(),
            None => unreachable!(),
        }
    }

    /// The files, which are held.
    pub fn see_files(&self) -> &Files
        requires { is_some (files_at self.now) ≡ true }
        ensures { files_at self.now ≡ Some result.now }
    {
        match &self.parts[Object::Files.number()] {
            Some(Part::Files(files)) => files,
            Some(_other) => unreachable!(),
            None => unreachable!(),
        }
    }
}
