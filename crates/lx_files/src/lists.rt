//! Places with numbers of their own, of which some are free.
ghost use Rattle.std.specs.Prelude.{drop, IfSome, length, slice_set, ◌+◌, ◌<◌, ◌^◌, ◌≡◌, ◌≤◌};
ghost use Rattle.lx_machine.specs.Lists.{at_place, first_free, first_free_from};

/// The lowest free place, where these are the places from `from` on.
pub fn first_free_from<T>(from: u32, places: &[Option<T>]) -> Option<u32>
    requires { from + length places.now < 2 ^ 32 }
    ensures place { result ≡ first_free_from from places.now }
    ensures fits { IfSome result (λ i. i < from + length places.now) }
{
    match places {
        [] => None,
        [None, ..] => Some(from),
        [Some(_), rest @ ..] => first_free_from(from + 1, rest),
    }
}

/// The lowest free place.
pub fn first_free<T>(places: &[Option<T>]) -> Option<u32>
    requires { length places.now < 2 ^ 32 }
    ensures place { result ≡ first_free places.now }
    ensures fits { IfSome result (λ i. i < length places.now) }
{
    first_free_from(0, places)
}

/// The lowest free place from `from` on.
#[tactic(auto, using(std::proofs::lemmas::List::take_rest))]
pub fn next_free<T>(places: &[Option<T>], from: u32) -> Option<u32>
    requires from { from ≤ length places.now }
    requires length { length places.now < 2 ^ 31 }
    ensures place { result ≡ first_free_from from (drop from places.now) }
    ensures fits { IfSome result (λ i. i < length places.now) }
{
    first_free_from(from, &places[from as usize..])
}

/// What stands at a place, if there is such a place and it isn't free.
pub fn place_at<T: Copy>(places: &[Option<T>], at: u32) -> Option<T>
    ensures { result ≡ at_place places.now at }
{
    match places.get(at as usize) {
        Some(place) => *place,
        None => None,
    }
}

/// Sets a place, if there is one of this number.
#[tactic(auto, using(std::proofs::lemmas::List::set_past))]
pub fn set_place<T: Drop>(places: &mut [Option<T>], at: u32, place: Option<T>)
    ensures { places.new ≡ slice_set places.old at place }
{
    let at = at as usize;
    if at < places.len() {
        places[at] = place;
    }
}
