//! What a script can make and call.

use crate::answers::{Answer, Refusal};
use crate::arguments::Arguments;
use std::alloc::Global;

/// An object of the kernel's parts, as a script sees it.
pub trait Subject: Drop {
    /// Makes one.
    fn make(alloc: Global, of: Arguments<'_>) -> Result<Self, Refusal>;

    /// Makes the call of this name on it.
    fn call(&mut self, alloc: Global, name: &str, of: Arguments<'_>) -> Result<Answer, Refusal>;
}

/// Makes an object at its place, with `make`, or makes another call on the one that stands there.
pub fn play_at<S: Subject>(
    place: &mut Option<S>,
    alloc: Global,
    name: &str,
    of: Arguments<'_>,
) -> Result<Answer, Refusal> {
    if name == "make" {
        *place = Some(S::make(alloc, of)?);
        return Ok(Answer::Done);
    }
    match place {
        Some(subject) => subject.call(alloc, name, of),
        None => Err(Refusal::NotMade),
    }
}

/// All objects of a case.
pub trait Objects: Drop {
    /// None is made yet.
    fn empty() -> Self;

    /// Makes a call on the one of this name.
    fn play(
        &mut self,
        alloc: Global,
        object: &str,
        name: &str,
        of: Arguments<'_>,
    ) -> Result<Answer, Refusal>;
}
