//! The top call: from the words of the command line to the status, over the outside as traits. It reads
//! the words, loads the image that they name, runs it on the plain machine, puts out what the guest
//! wrote, and says in a last line how it ended.
#![tactic(auto)]

mod image;
mod lines;
mod outcome;
mod program;
mod words;

pub use image::read_program;
pub use lines::{Line, last_line, status_of};
pub use outcome::{End, FUEL, IMAGE_LIMIT, Outcome};
pub use program::{run_before_last_line, run_program};
pub use words::{UsageFault, UsageKind, read_words};
