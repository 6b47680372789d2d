// A shelf in memory, which fails at the calls that it is told.
ghost use Rattle.std.specs.Prelude.{◌≡◌, ◌≢◌, ◌↔◌, ◌⊎◌, ◌<◌, List, ℕ, length, map, Contains, IsErr, IsTrue, Some, None, MatchOption, OnOk, OnErr, IfOk, string_bytes};
ghost use Rattle.outside.specs.Memory.{file_in, file_of};

use crate::calls::Calls;
use crate::traits::{Failed, LoadFault, Shelf};
use std::alloc::{AllocError, Global};
use std::marker::Model;

/// Files in memory. Of entries of one name the last counts.
#[derive(Drop)]
pub struct MemShelf {
    alloc: Global,
    files: Vec<(String, Vec<u8>)>,
    calls: Calls,
    loads: u64,
    saves: u64,
}

impl Model for MemShelf {
    ghost use Rattle.std.specs.Prelude.{map};
    ghost use Rattle.outside.specs.Memory.{MemoryShelf, file_of};

    ghost Value = { MemoryShelf };

    ghost view = { λ s. record { files = map file_of s.files.items; failing = s.calls.failing.items; calls = s.calls.made; loads = s.loads; saves = s.saves } };
}

// The last file of that name.
fn find<'a>(files: &'a [(String, Vec<u8>)], name: &str) -> Option<&'a Vec<u8>>
    ensures { MatchOption result
        (file_in (map file_of files.now) name.now ≡ None)
        (λ found. file_in (map file_of files.now) name.now ≡ Some found.now.items) }
{
    match files {
        [] => None,
        [first, rest @ ..] => match find(rest, name) {
            Some(found) => Some(found),
            None if first.0.as_str() == name => Some(&first.1),
            None => None,
        },
    }
}

// A file of its own with that name and these bytes.
fn make_file(alloc: Global, name: &str, bytes: &[u8]) -> Result<(String, Vec<u8>), AllocError>
    ensures name { IfOk result (λ f. string_bytes f.0 ≡ name.now) }
    ensures bytes { IfOk result (λ f. f.1.items ≡ bytes.now) }
{
    let name = String::from_str(alloc, name)?;
    let bytes = bytes.to_vec(alloc)?;
    Ok((name, bytes))
}

impl MemShelf {
    /// A shelf with these files. `failing` lists the calls, counted from 0, loads and saves together,
    /// that fail. It keeps the allocator for its saves.
    pub fn make(alloc: Global, files: Vec<(String, Vec<u8>)>, failing: Vec<u64>) -> MemShelf
        ensures { result ≡ record { files = map file_of files.items; failing = failing.items; calls = 0; loads = 0; saves = 0 } }
    {
        MemShelf {
            alloc,
            files,
            calls: Calls::new(failing),
            loads: 0,
            saves: 0,
        }
    }

    // Puts or replaces a file.
    fn put(&mut self, name: &str, bytes: &[u8]) -> Result<(), AllocError>
        ensures same { OnOk result (file_in self.new.files name.now ≡ Some bytes.now) }
        ensures others { OnOk result ((other : List ℕ) → other ≢ name.now → file_in self.new.files other ≡ file_in self.old.files other) }
        ensures err { OnErr result (self.new.files ≡ self.old.files) }
        ensures counts { self.new ≡ record self.old { files = self.new.files } }
    {
        let file = make_file(self.alloc, name, bytes)?;
        self.files.push(file)?;
        Ok(())
    }
}

impl Shelf for MemShelf {
    ghost use Rattle.outside.specs.Causes.{HasCause, LoadCause};
    ghost use Rattle.outside.specs.Shelves.{Loads, MayHold};
    ghost use Rattle.outside.specs.Memory.{counted};

    ghost file = { λ s name. Some (file_in s.files name) };

    ghost loads = { λ s. s.loads };

    ghost saves = { λ s. s.saves };

    /// `Failed` exactly where `failing` has the call's number or no file has the name. `TooLong`
    /// exactly where the call doesn't fail so and the file is longer than `limit`. The count of loads
    /// rises by one where the call fails so, and nowhere else.
    fn load(&mut self, alloc: Global, name: &str, limit: u64) -> Result<Vec<u8>, LoadFault>
        ensures bytes { Loads (λ v. v.items) (Some (file_in self.old.files name.now)) limit result }
        ensures files { (other : List ℕ) → Some (file_in self.new.files other) ≡ Some (file_in self.old.files other) }
        ensures cause { LoadCause self.old.loads self.new.loads result }
        ensures saves { self.new.saves ≡ self.old.saves }
        ensures failed { result ≡ Err LoadFault.Failed → Contains self.old.failing self.old.calls ⊎ (file_in self.old.files name.now ≡ None) }
        ensures told { Contains self.old.failing self.old.calls → result ≡ Err LoadFault.Failed }
        ensures rises { result ≡ Err LoadFault.Failed → self.new.loads ≡ counted self.old.loads }
        ensures missing { file_in self.old.files name.now ≡ None → result ≡ Err LoadFault.Failed }
        ensures calls { self.new.calls ≡ counted self.old.calls }
        ensures failing { self.new.failing ≡ self.old.failing }
    {
        if self.calls.fails_next() {
            self.loads = self.loads.saturating_add(1);
            return Err(LoadFault::Failed);
        }
        let Some(found) = find(&self.files, name) else {
            self.loads = self.loads.saturating_add(1);
            return Err(LoadFault::Failed);
        };
        if found.len() as u64 > limit {
            return Err(LoadFault::TooLong { limit });
        }
        match found.to_vec(alloc) {
            Ok(bytes) => Ok(bytes),
            Err(_) => Err(LoadFault::NoMemory),
        }
    }

    /// `Failed` where `failing` has the call's number, and besides, free, for want of memory. The count of
    /// saves rises by one there, and nowhere else.
    fn save(&mut self, name: &str, bytes: &[u8]) -> Result<(), Failed>
        ensures saved { IfOk result (λ _. MayHold (Some (file_in self.new.files name.now)) bytes.now) }
        ensures others { (other : List ℕ) → other ≢ name.now → Some (file_in self.new.files other) ≡ Some (file_in self.old.files other) }
        ensures cause { HasCause self.old.saves self.new.saves result }
        ensures loads { self.new.loads ≡ self.old.loads }
        ensures told { Contains self.old.failing self.old.calls → IsErr result }
        ensures rises { OnErr result (self.new.saves ≡ counted self.old.saves) }
        ensures kept { OnErr result (self.new.files ≡ self.old.files) }
        ensures calls { self.new.calls ≡ counted self.old.calls }
        ensures failing { self.new.failing ≡ self.old.failing }
    {
        if !self.calls.fails_next() && self.put(name, bytes).is_ok() {
            return Ok(());
        }
        self.saves = self.saves.saturating_add(1);
        Err(Failed)
    }
}
