//! Kqueues of the FreeBSD kernel: interests with their knotes, what changes and activates them, and what a scan reports of
//! them. Contracts see a kqueue as the list of its watches, in the order of reports, and the flux that stands.
#![tactic(auto)]

mod changes;
mod knotes;
mod queue;
mod ready;
mod scans;
mod watched;

pub use crate::knotes::{ChangeFault, Event, Filter, Flux, Ident, Knote, KnoteFlags, Watch};
pub use crate::queue::{Kqueue, NoMemory};
pub use crate::ready::Readiness;
