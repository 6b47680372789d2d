//! Lists of places, each free or taken.
ghost use Rattle.std.specs.Prelude.{◌≡◌, ◌<◌, ◌+◌, ◌^◌, ◌≤◌, drop, length, slice_set, count_by, is_none, position, IfSome};
ghost use Rattle.lx_machine.specs.Descriptors.{second_free};
ghost use Rattle.lx_machine.specs.Lists.{at_place, first_free, first_free_from};

// Where the first free place stands.
fn free_at<T>(places: &[Option<T>]) -> Option<usize>
    ensures place { result ≡ position is_none places.now }
    ensures fits { IfSome result (λ i. i < length places.now) }
{
    places.iter().position(|place| place.is_none())
}

/// The lowest free place.
#[tactic(auto, using(crate::proofs::Free::free_position))]
pub fn first_free<T>(places: &[Option<T>]) -> Option<u32>
    requires { length places.now < 2 ^ 32 }
    ensures place { result ≡ first_free places.now }
    ensures fits { IfSome result (λ i. i < length places.now) }
{
    match free_at(places) {
        Some(at) => Some(at as u32),
        None => None,
    }
}

/// The lowest free place from `from` on.
pub fn next_free<T>(places: &[Option<T>], from: u32) -> Option<u32>
    requires { length places.now < 2 ^ 31 }
    ensures place { result ≡ first_free_from from (drop from places.now) }
    ensures fits { IfSome result (λ i. i < length places.now) }
{
    if from as usize > places.len() {
        return None;
    }
    match free_at(&places[from as usize..]) {
        Some(at) => Some(from + at as u32),
        None => None,
    }
}

/// The lowest free place behind this one.
pub fn second_free<T>(places: &[Option<T>], first: u32) -> Option<u32>
    requires first { first < length places.now }
    requires length { length places.now < 2 ^ 31 }
    ensures { result ≡ second_free places.now first }
{
    next_free(places, first + 1)
}

/// How many places are free.
pub fn count_free<T>(places: &[Option<T>]) -> usize
    ensures { result ≡ count_by is_none places.now }
{
    places.iter().filter(|place| place.is_none()).count()
}

/// What stands at a place, if there is such a place and it isn't free.
pub fn place_at<T: Copy>(places: &[Option<T>], at: u32) -> Option<T>
    ensures { result ≡ at_place places.now at }
{
    match places.get(at as usize) {
        Some(place) => *place,
        None => None,
    }
}

/// Sets a place, if there is one of this number.
#[tactic(auto, using(std::proofs::lemmas::List::set_past))]
pub fn set_place<T: Drop>(places: &mut [Option<T>], at: u32, place: Option<T>)
    ensures { places.new ≡ slice_set places.old at place }
{
    let at = at as usize;
    if at < places.len() {
        places[at] = place;
    }
}
