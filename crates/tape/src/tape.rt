//! A tape in memory.

ghost use Rattle.std.specs.Prelude.{◌≡◌, ◌<◌, ◌≤◌, ◌+◌, ◌^◌, ◌↔◌, ◌++◌, ◌∷◌, [], length, take, IfOk, IsErr, OnOk, OnErr};
ghost use Rattle.tape.specs.Entry.{IsRules};
ghost use Rattle.tape.specs.Runs.{entries_of};

use crate::entry::Entry;
use crate::fault::NoMemory;
use crate::run::Run;
use std::alloc::Global;
use std::marker::Model;

/// The tape holds as many entries as it has room for.
#[derive(Clone, Copy)]
pub struct Full;

/// The entries of a run in order, with the seed, the number of pages and the rules that it was begun with. Its room,
/// the number of entries that it can hold, is taken at once, so that a push takes no memory.
#[derive(Drop)]
pub struct Tape {
    seed: u64,
    pages: u32,
    rules: u8,
    room: u32,
    entries: Vec<Entry>,
}

impl Model for Tape {
    ghost use Rattle.std.specs.Prelude.{◌<◌, ◌≤◌, ◌^◌, vec_len, vec_capacity};
    ghost use Rattle.tape.specs.Tape.{Recording};
    ghost use Rattle.tape.specs.Entry.{IsRules};

    ghost Value = { Recording };

    ghost view = { λ t. record { seed = t.seed; pages = t.pages; rules = t.rules; room = t.room; entries = t.entries.items } };

    ghost invariant = { λ t. (vec_len t.entries ≤ t.room) × (t.room ≤ vec_capacity t.entries) × (t.room < 2 ^ 32) × IsRules t.rules };
}

impl Tape {
    /// A tape without entries that can hold `room` of them. Its rules are 1 or 2.
    pub fn with_room(
        alloc: Global,
        seed: u64,
        pages: u32,
        rules: u8,
        room: u32,
    ) -> Result<Tape, NoMemory>
        requires { IsRules rules }
        ensures { IfOk result (λ tape. tape ≡ record { seed = seed; pages = pages; rules = rules; room = room; entries = [] }) }
    {
        let entries = Vec::with_capacity(alloc, room as usize)?;
        Ok(Tape {
            seed,
            pages,
            rules,
            room,
            entries,
        })
    }

    /// A tape without entries and without room. Its rules are 1 or 2. It takes no memory.
    pub fn empty(alloc: Global, seed: u64, pages: u32, rules: u8) -> Tape
        requires { IsRules rules }
        ensures { result ≡ record { seed = seed; pages = pages; rules = rules; room = 0; entries = [] } }
    {
        Tape {
            seed,
            pages,
            rules,
            room: 0,
            entries: Vec::new(alloc),
        }
    }

    /// Keeps the first `count` entries, and drops those after them.
    pub fn keep(&mut self, count: u64)
        requires { count ≤ length self.old.entries }
        ensures { self.new ≡ record self.old { entries = take count self.old.entries } }
    {
        self.entries.truncate(count as usize);
    }

    /// Adds an entry at the end. It takes no memory, and is refused exactly where the room is full.
    pub fn push(&mut self, entry: Entry) -> Result<(), Full>
        ensures full { IsErr result ↔ (length self.old.entries ≡ self.old.room) }
        ensures ok { OnOk result (self.new ≡ record self.old { entries = self.old.entries ++ entry ∷ [] }) }
        ensures err { OnErr result (self.new ≡ self.old) }
    {
        if self.entries.len() == self.room as usize {
            return Err(Full);
        }
        self.entries.push_reserved(entry);
        Ok(())
    }

    /// Adds the entries of a run at the end, where there is room for them. It takes no memory.
    pub(crate) fn push_run(&mut self, run: Run)
        requires { length self.old.entries + run.length ≤ self.old.room }
        ensures { self.new ≡ record self.old { entries = self.old.entries ++ entries_of run } }
    {
        let length = self.entries.len() + run.length as usize;
        let Ok(()) = self.entries.resize(length, run.entry) else {
            unreachable!()
        };
    }

    /// The entries, the first one first.
    pub fn entries(&self) -> &[Entry]
        ensures value { result.now ≡ self.now.entries }
        ensures within { length self.now.entries ≤ self.now.room }
        ensures few { length self.now.entries < 2 ^ 32 }
    {
        self.entries.as_slice()
    }

    /// The seed that the run was begun with.
    pub fn seed(&self) -> u64
        ensures { result ≡ self.now.seed }
    {
        self.seed
    }

    /// How many pages of memory the guest has.
    pub fn pages(&self) -> u32
        ensures { result ≡ self.now.pages }
    {
        self.pages
    }

    /// The rules that the run was begun with, 1 or 2.
    pub fn rules(&self) -> u8
        ensures value { result ≡ self.now.rules }
        ensures known { IsRules self.now.rules }
    {
        self.rules
    }

    /// How many entries the tape can hold.
    pub fn room(&self) -> u32
        ensures { result ≡ self.now.room }
    {
        self.room
    }
}
