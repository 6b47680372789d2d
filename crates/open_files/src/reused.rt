//! Places that keep what they were made with while they are free, so that no call after the first takes memory.
ghost use Rattle.std.specs.Prelude.{◌≡◌, [], ◌<◌, ◌^◌, length, is_none, is_some, position, IfSome, IsSome, MatchOption, Some, None};
ghost use Rattle.std.specs.Borrow.{Lends, sem};
ghost use Rattle.open_files.specs.contracts.reused.Place.{the_row};
ghost use Rattle.lx_machine.specs.Lists.{at_place, first_free, without_place};

use kqueue_core::Kqueue;
use std::marker::Model;

/// What a place keeps while it is free, and what it is like when the place is taken.
pub trait Reused {
    ghost blank: { Self };

    /// Makes it as it is when its place is taken.
    fn empty(&mut self)
        ensures { self.new ≡ blank };
}

impl Reused for Kqueue {
    ghost blank = { record { watches = []; flux = None } };

    fn empty(&mut self) {
        self.clear();
    }
}

/// A place, which contracts see as what stands there, if there is something. It keeps the room while there is nothing.
#[derive(Drop)]
pub struct Place<T> {
    value: T,
    is_taken: bool,
}

impl<T> Model for Place<T> {
    ghost use Rattle.std.specs.Prelude.{Option, Some, None, if◌then◌else◌};

    ghost Value = { Option T };

    ghost view = { λ p. if p.is_taken then Some p.value else None };
}

impl<T: Reused> Place<T> {
    /// A free place that keeps this.
    pub fn free(value: T) -> Place<T>
        ensures { result ≡ None }
    {
        Place {
            value,
            is_taken: false,
        }
    }

    /// The place is taken.
    pub fn take(&mut self)
        ensures { self.new ≡ Some T.blank }
    {
        self.value.empty();
        self.is_taken = true;
    }

    /// The place is free.
    pub fn let_go(&mut self)
        ensures { self.new ≡ None }
    {
        self.is_taken = false;
    }

    /// Whether it is free.
    pub fn is_free(&self) -> bool
        ensures { result ≡ is_none self.now }
    {
        !self.is_taken
    }

    /// What stands there.
    pub fn get(&self) -> Option<&T>
        ensures { MatchOption result (self.now ≡ None) (λ x. self.now ≡ Some x.now) }
    {
        if self.is_taken {
            Some(&self.value)
        } else {
            None
        }
    }

    /// Lends what stands there. The place has to be taken.
    pub fn get_mut(&mut self) -> &mut T
        requires { IsSome self.old }
        ensures* writes_back { sem 𝓛 (Lends (the_row T.row) T.row self.entry result (λ x. Some x)) }
        ensures value { self.old ≡ Some result.now }
    {
        &mut self.value
    }
}

// Where the first free place stands.
fn free_at<T: Reused>(places: &[Place<T>]) -> Option<usize>
    ensures place { result ≡ position is_none places.now }
    ensures fits { IfSome result (λ i. i < length places.now) }
{
    places.iter().position(|place| place.is_free())
}

/// The lowest free place.
#[tactic(auto, using(crate::proofs::Free::free_position))]
pub fn first_free_place<T: Reused>(places: &[Place<T>]) -> Option<u32>
    requires { length places.now < 2 ^ 32 }
    ensures number { result ≡ first_free places.now }
    ensures fits { IfSome result (λ n. n < length places.now) }
{
    match free_at(places) {
        Some(at) => Some(at as u32),
        None => None,
    }
}

/// A place is free, if there is one of this number.
#[tactic(auto, using(std::proofs::lemmas::List::set_past))]
pub fn close_place<T: Reused>(places: &mut [Place<T>], at: u32)
    ensures { places.new ≡ without_place places.old at }
{
    let at = at as usize;
    if at < places.len() {
        places[at].let_go();
    }
}
