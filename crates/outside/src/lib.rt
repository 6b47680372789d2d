//! What lies outside of the machine: a source of input, sinks of output, a shelf of files, a clock and
//! a gate. Each is a trait with a written meaning and, where it can fail, a count of its faults that
//! never falls; a failure is answered only where the count rose. Beside the traits stand their forms in
//! memory, which fail at the calls that they are told, and thin adapters over the runtime's own objects.
#![tactic(auto)]

mod adapters;
mod calls;
mod clocks;
mod memory_shelf;
mod memory_sink;
mod memory_source;
mod pieces;
mod traits;

pub use adapters::{DirShelf, StdClock, StdSink, StdSource};
pub use clocks::{OpenGate, StillClock, TickClock};
pub use memory_shelf::MemShelf;
pub use memory_sink::MemSink;
pub use memory_source::MemSource;
pub use pieces::{put, put_all, put_some, take_all};
pub use traits::{Clock, Failed, Gate, LoadFault, Shelf, Sink, Source};
