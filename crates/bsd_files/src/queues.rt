//! The queues (kqueue(2)), and what an event of an open file does to all of them.
ghost use Rattle.std.specs.Prelude.{◌≡◌, ◌<◌, ◌^◌, ◌==◌, [], true, length, map, replicate, position, is_none, is_some, IsSome, Some, None, IfOk, IfSome, MatchOption};
ghost use Rattle.std.specs.Option.{option_map};
ghost use Rattle.std.specs.List.{list_all, list_any};
ghost use Rattle.std.specs.Borrow.{sem};
ghost use Rattle.lx_machine.specs.Lists.{at_place, first_free, with_place, without_place};
ghost use Rattle.open_files.specs.Kinds.{kind_out};
ghost use Rattle.bsd_files.specs.Lending.{LendsQueue};
ghost use Rattle.bsd_files.specs.Ops.{Arm, Leave, activated_for, active_after, in_queues, is_below, left_by};
ghost use Rattle.bsd_files.specs.State.{has_flux, has_flux_on};

use kqueue_core::{Filter, Kqueue};
use open_files::open_file::is_open_of;
use open_files::reused::{Place, close_place, first_free_place};
use open_files::{File, NoMemory, OpenFile};
use std::alloc::Global;
use std::marker::Model;

/// How many queues there can be.
pub(crate) const QUEUES: usize = 32;

/// The place of a queue.
type QueuePlace = Place<Kqueue>;

// Makes the knotes of an open file and a filter active, in the queue of a place.
fn activate_in(place: &mut QueuePlace, file: u32, filter: Filter)
    ensures { place.new ≡ option_map (active_after (λ i. i == file) filter) place.old }
{
    if !place.is_free() {
        place.get_mut().activate(file, filter);
    }
}

// A number that no open file passes in which the queue of a place has an interest.
fn last_watched_in(place: &QueuePlace) -> u32
    ensures { is_below result place.now ≡ true }
{
    match place.get() {
        Some(queue) => queue.last_watched(),
        None => 0,
    }
}

// Takes the knotes of an open file out of the queue of a place.
fn drop_file_in(place: &mut QueuePlace, file: u32)
    ensures { place.new ≡ option_map (left_by file) place.old }
{
    if !place.is_free() {
        place.get_mut().drop_file(file);
    }
}

// Whether a flux on this descriptor stands in the queue of a place.
fn in_flux_on(place: &QueuePlace, fd: u32) -> bool
    ensures { result ≡ has_flux_on fd place.now }
{
    match place.get() {
        Some(queue) => queue.flux_of() == Some(fd),
        None => false,
    }
}

/// The queues, each at its number, which contracts see as a list of places. Until the first is made no open file has knotes, and
/// `is_used` says so: then an event of an open file costs nothing.
#[derive(Drop)]
pub(crate) struct Queues {
    places: Vec<QueuePlace>,
    is_used: bool,
}

impl Model for Queues {
    ghost use Rattle.std.specs.Prelude.{◌≡◌, ◌<◌, ◌^◌, List, Option, None, false, length, replicate};
    ghost use Rattle.kqueue_core.specs.Queues.{Queue};

    ghost Value = { List (Option Queue) };

    ghost view = { λ q. q.places.items };

    ghost invariant = { λ q. (q.is_used ≡ false → q.places.items ≡ replicate 32 None) × (length q.places.items < 2 ^ 32) };
}

// Makes the knotes of an open file and a filter active, in each queue.
fn activate_file(places: &mut [QueuePlace], file: u32, filter: Filter)
    ensures { places.new ≡ map (option_map (active_after (λ i. i == file) filter)) places.old }
{
    for place in places.iter_mut() {
        activate_in(place, file, filter);
    }
}

// A number that no open file passes in which a queue has an interest.
fn last_watched(places: &[QueuePlace]) -> u32
    ensures { list_all (is_below result) places.now ≡ true }
{
    let mut last = 0;
    for place in places {
        last = last.max(last_watched_in(place));
    }
    last
}

// Makes the knotes of the open files that are this and of a filter active, in each queue. It walks over the open files in which there
// may be interests, and over the interests of a queue only where it may have one in such a file.
fn activate_each(places: &mut [QueuePlace], kind: File, filter: Filter, files: &[Option<OpenFile>])
    ensures { places.new ≡ map (option_map (activated_for (kind_out kind) filter files.now)) places.old }
{
    let last = last_watched(places);
    let count = files.len().min(last as usize + 1);
    for at in 0..count {
        if is_open_of(kind, files[at]) {
            activate_file(places, at as u32, filter);
        }
    }
}

// Takes out the knotes of an open file, in each queue.
fn drop_file_each(places: &mut [QueuePlace], file: u32)
    ensures { places.new ≡ map (option_map (left_by file)) places.old }
{
    for place in places.iter_mut() {
        drop_file_in(place, file);
    }
}

// Places without queues.
fn free_places(alloc: Global) -> Result<Vec<QueuePlace>, NoMemory>
    ensures { IfOk result (λ places. places.items ≡ replicate 32 None) }
{
    let Ok(mut places) = Vec::with_capacity(alloc, QUEUES) else {
        return Err(NoMemory);
    };
    for _ in 0..QUEUES {
        let Ok(queue) = Kqueue::make(alloc) else {
            return Err(NoMemory);
        };
        places.push_reserved(Place::free(queue));
    }
    Ok(places)
}

impl Queues {
    // No queues.
    pub(crate) fn make(alloc: Global) -> Result<Queues, NoMemory>
        ensures { IfOk result (λ queues. queues ≡ replicate 32 None) }
    {
        let places = free_places(alloc)?;
        Ok(Queues {
            places,
            is_used: false,
        })
    }

    // A new queue at a number.
    pub(crate) fn open(&mut self, number: u32)
        requires { number < length self.old }
        ensures { self.new ≡ with_place self.old number record { watches = []; flux = None } }
    {
        self.is_used = true;
        let place = &mut self.places[number as usize];
        place.take();
    }

    // The queue of a number is gone.
    pub(crate) fn close(&mut self, number: u32)
        ensures { self.new ≡ without_place self.old number }
    {
        self.is_used = true;
        close_place(&mut self.places, number);
    }

    // The lowest number without a queue.
    pub(crate) fn first_free(&self) -> Option<u32>
        ensures number { result ≡ first_free self.now }
        ensures fits { IfSome result (λ n. n < length self.now) }
    {
        first_free_place(&self.places)
    }

    // Takes out the knotes of an open file.
    pub(crate) fn drop_file(&mut self, file: u32)
        ensures { self.new ≡ in_queues (Leave file) self.old }
    {
        if self.is_used {
            drop_file_each(&mut self.places, file);
        }
    }

    // Makes the knotes of the open files that are this active, of one filter.
    pub(crate) fn activate(&mut self, kind: File, filter: Filter, files: &[Option<OpenFile>])
        ensures { self.new ≡ in_queues (Arm (kind_out kind) filter files.now) self.old }
    {
        if self.is_used {
            activate_each(&mut self.places, kind, filter, files);
        }
    }

    // Whether a flux on this descriptor stands in some queue.
    pub(crate) fn in_flux_on(&self, fd: u32) -> bool
        ensures { result ≡ list_any (has_flux_on fd) self.now }
    {
        self.places.iter().any(|place| in_flux_on(place, fd))
    }

    // The queue of a number.
    pub(crate) fn queue(&self, number: u32) -> Option<&Kqueue>
        ensures { MatchOption result (at_place self.now number ≡ None) (λ q. at_place self.now number ≡ Some q.now) }
    {
        match self.places.get(number as usize) {
            Some(place) => place.get(),
            None => None,
        }
    }

    // Whether there is a queue of this number.
    fn is_open(&self, number: u32) -> bool
        ensures { result ≡ is_some (at_place self.now number) }
    {
        match self.places.get(number as usize) {
            Some(place) => !place.is_free(),
            None => false,
        }
    }

    // Lends the queue of a number.
    pub(crate) fn queue_mut(&mut self, number: u32) -> Option<&mut Kqueue>
        ensures* writes_back { sem 𝓛 (LendsQueue self.entry number result) }
        ensures value { MatchOption result (at_place self.old number ≡ None) (λ q. at_place self.old number ≡ Some q.now) }
    {
        if self.is_open(number) {
            self.is_used = true;
            let place = &mut self.places[number as usize];
            Some(place.get_mut())
        } else {
            None
        }
    }
}
