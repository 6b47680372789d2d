//! Console rooms, and the places of pipes (pipe(2)).
ghost use Rattle.std.specs.Prelude.{◌≡◌, ◌≤◌, ◌<◌, ◌+◌, ◌^◌, ◌++◌, [], Some, None, IfOk, IfSome, is_none, position, length, take, drop, slice_set, replicate};
ghost use Rattle.std.specs.Option.{option_map};
ghost use Rattle.lx_machine.specs.Files.{held_in};
ghost use Rattle.lx_machine.specs.Lists.{at_place, first_free, with_place, without_place};

use crate::kinds::NoMemory;
use crate::reused::{Place, Reused, close_place, first_free_place};
use pipe_core::Pipe;
use std::alloc::Global;
use std::marker::Model;

/// The most bytes that a pipe or a console room holds (pipe(7), the capacity of a pipe).
pub const ROOM: u32 = 65_536;

/// How many pipes there can be.
const PIPES: usize = 64;

/// At most 65,536 bytes, which contracts see as a list, the first that was put first.
#[derive(Drop)]
pub struct Room {
    pipe: Pipe,
}

impl Model for Room {
    ghost use Rattle.std.specs.Prelude.{◌≡◌, List, ℕ};

    ghost Value = { List ℕ };

    ghost view = { λ r. r.pipe.bytes };

    ghost invariant = { λ r. r.pipe.room ≡ 65536 };
}

impl Room {
    // No bytes.
    pub fn make(alloc: Global) -> Result<Room, NoMemory>
        ensures { IfOk result (λ room. room ≡ []) }
    {
        let Ok(pipe) = Pipe::make(alloc, ROOM) else {
            return Err(NoMemory);
        };
        Ok(Room { pipe })
    }

    // How many bytes it holds.
    pub fn held(&self) -> u32
        ensures held { result ≡ length self.now }
        ensures most { result ≤ 65536 }
    {
        self.pipe.held()
    }

    // Puts bytes behind those that it holds. They have to fit.
    #[tactic(auto, using(std::proofs::lemmas::List::take_all))]
    pub fn put(&mut self, bytes: &[u8])
        requires { length self.old + length bytes.now ≤ 65536 }
        ensures { self.new ≡ self.old ++ bytes.now }
    {
        self.pipe.put(bytes);
    }

    // Takes as many first bytes out as it holds and `into` has.
    #[tactic(auto, using(std::proofs::lemmas::List::take_min, std::proofs::lemmas::List::drop_min))]
    pub fn take(&mut self, into: &mut [u8]) -> usize
        ensures count { result ≡ length (take (length into.old) self.old) }
        ensures taken { into.new ≡ take (length into.old) self.old ++ drop result into.old }
        ensures left { self.new ≡ drop (length into.old) self.old }
    {
        self.pipe.take(into)
    }

    // Copies as many first bytes as it holds and `into` has.
    #[tactic(auto, using(std::proofs::lemmas::List::take_min))]
    pub fn copy_front(&self, into: &mut [u8]) -> usize
        ensures count { result ≡ length (take (length into.old) self.now) }
        ensures copied { into.new ≡ take (length into.old) self.now ++ drop result into.old }
    {
        self.pipe.copy_front(into)
    }

    // Lets the first bytes go. It has to hold so many.
    pub fn drop_first(&mut self, count: u32)
        requires { count ≤ length self.old }
        ensures { self.new ≡ drop count self.old }
    {
        self.pipe.drop_first(count);
    }

    // Lets all bytes go.
    #[tactic(auto, using(std::proofs::lemmas::List::drop_all))]
    fn clear(&mut self)
        ensures { self.new ≡ [] }
    {
        let held = self.held();
        self.drop_first(held);
    }
}

impl Reused for Room {
    ghost blank = { [] };

    fn empty(&mut self) {
        self.clear();
    }
}

/// The place of a pipe.
type PipePlace = Place<Room>;

// Takes as many first bytes out as the pipe of a place holds and `into` has.
fn take_from(place: &mut PipePlace, into: &mut [u8])
    ensures taken { into.new ≡ take (length into.old) (held_in place.old) ++ drop (length (take (length into.old) (held_in place.old))) into.old }
    ensures left { place.new ≡ option_map (drop (length into.old)) place.old }
{
    if !place.is_free() {
        place.get_mut().take(into);
    }
}

// Puts bytes into the pipe of a place, if there is one. They have to fit.
fn put_into(place: &mut PipePlace, bytes: &[u8])
    requires { length (held_in place.old) + length bytes.now ≤ 65536 }
    ensures { place.new ≡ option_map (λ held. held ++ bytes.now) place.old }
{
    if !place.is_free() {
        place.get_mut().put(bytes);
    }
}

// A new pipe at a place.
fn open_place(places: &mut [PipePlace], at: u32)
    requires { at < length places.old }
    ensures { places.new ≡ with_place places.old at [] }
{
    places[at as usize].take();
}

// Takes as many first bytes out of a pipe as it holds and `into` has.
#[tactic(auto, using(std::proofs::lemmas::List::set_past))]
fn take_from_place(places: &mut [PipePlace], at: u32, into: &mut [u8])
    ensures taken { into.new ≡ take (length into.old) (held_in (at_place places.old at)) ++ drop (length (take (length into.old) (held_in (at_place places.old at)))) into.old }
    ensures left { places.new ≡ slice_set places.old at (option_map (drop (length into.old)) (at_place places.old at)) }
{
    let at = at as usize;
    if at < places.len() {
        take_from(&mut places[at], into);
    }
}

// Takes as many first bytes out of a pipe as it holds and are asked for, to the front of the buffer.
fn take_to_front(places: &mut [PipePlace], at: u32, len: u32, buffer: &mut [u8])
    requires { len ≤ length buffer.old }
    ensures buffer { buffer.new ≡ take len (held_in (at_place places.old at)) ++ drop (length (take len (held_in (at_place places.old at)))) buffer.old }
    ensures left { places.new ≡ slice_set places.old at (option_map (drop len) (at_place places.old at)) }
{
    take_from_place(places, at, &mut buffer[..len as usize]);
}

// Puts bytes into a pipe, if there is one of this number. They have to fit.
#[tactic(auto, using(std::proofs::lemmas::List::set_past))]
fn put_into_place(places: &mut [PipePlace], at: u32, bytes: &[u8])
    requires { length (held_in (at_place places.old at)) + length bytes.now ≤ 65536 }
    ensures { places.new ≡ slice_set places.old at (option_map (λ held. held ++ bytes.now) (at_place places.old at)) }
{
    let at = at as usize;
    if at < places.len() {
        put_into(&mut places[at], bytes);
    }
}

// Places without pipes.
fn free_places(alloc: Global) -> Result<Vec<PipePlace>, NoMemory>
    ensures { IfOk result (λ places. places.items ≡ replicate 64 None) }
{
    let Ok(mut places) = Vec::with_capacity(alloc, PIPES) else {
        return Err(NoMemory);
    };
    for _ in 0..PIPES {
        places.push_reserved(Place::free(Room::make(alloc)?));
    }
    Ok(places)
}

/// The pipes, each at its number, which contracts see as a list of places.
#[derive(Drop)]
pub struct Pipes {
    places: Vec<PipePlace>,
}

impl Model for Pipes {
    ghost use Rattle.std.specs.Prelude.{◌<◌, ◌^◌, List, Option, ℕ, length};

    ghost Value = { List (Option (List ℕ)) };

    ghost view = { λ p. p.places.items };

    ghost invariant = { λ p. length p.places.items < 2 ^ 32 };
}

impl Pipes {
    // No pipes.
    pub fn make(alloc: Global) -> Result<Pipes, NoMemory>
        ensures { IfOk result (λ pipes. pipes ≡ replicate 64 None) }
    {
        let places = free_places(alloc)?;
        Ok(Pipes { places })
    }

    // The lowest number without a pipe.
    pub fn first_free(&self) -> Option<u32>
        ensures number { result ≡ first_free self.now }
        ensures fits { IfSome result (λ n. n < length self.now) }
    {
        first_free_place(&self.places)
    }

    // A new pipe at a number.
    pub fn open(&mut self, number: u32)
        requires { number < length self.old }
        ensures { self.new ≡ with_place self.old number [] }
    {
        open_place(&mut self.places, number);
    }

    // The pipe of a number is gone.
    pub fn close(&mut self, number: u32)
        ensures { self.new ≡ without_place self.old number }
    {
        close_place(&mut self.places, number);
    }

    // How many bytes the pipe of a number holds, if there is one.
    pub fn held(&self, number: u32) -> Option<u32>
        ensures { result ≡ option_map length (at_place self.now number) }
    {
        let place = self.places.get(number as usize)?;
        match place.get() {
            Some(room) => Some(room.held()),
            None => None,
        }
    }

    // Takes as many first bytes out of a pipe as it holds and are asked for, to the front of the buffer.
    pub fn take(&mut self, number: u32, len: u32, buffer: &mut [u8])
        requires { len ≤ length buffer.old }
        ensures buffer { buffer.new ≡ take len (held_in (at_place self.old number)) ++ drop (length (take len (held_in (at_place self.old number)))) buffer.old }
        ensures left { self.new ≡ slice_set self.old number (option_map (drop len) (at_place self.old number)) }
    {
        take_to_front(&mut self.places, number, len, buffer);
    }

    // Puts bytes into a pipe, if there is one of this number. They have to fit.
    pub fn put(&mut self, number: u32, bytes: &[u8])
        requires { length (held_in (at_place self.old number)) + length bytes.now ≤ 65536 }
        ensures { self.new ≡ slice_set self.old number (option_map (λ held. held ++ bytes.now) (at_place self.old number)) }
    {
        put_into_place(&mut self.places, number, bytes);
    }
}
