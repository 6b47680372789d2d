//! What is outside of memory: the folder, the clocks and a gate.

use outside::{Clock, DirShelf, Gate, LoadFault, OpenGate, Shelf, StdClock, StillClock, TickClock};
use std::alloc::{AllocError, Global};

// The first second of 2020, in microseconds since the epoch.
const YEAR_2020: u64 = 1_577_836_800_000_000;

// One load: how many bytes came, or why none.
fn write_load<H: Shelf>(
    text: &mut String,
    alloc: Global,
    shelf: &mut H,
    name: &str,
    limit: u64,
) -> Result<(), AllocError> {
    match shelf.load(alloc, name, limit) {
        Ok(bytes) => write!(text, "{} bytes", bytes.len())?,
        Err(LoadFault::TooLong { limit }) => write!(text, "more than {limit} bytes")?,
        Err(LoadFault::Failed) => text.push_str("failed")?,
        Err(LoadFault::NoMemory) => text.push_str("no memory")?,
    }
    text.push_str("; ")
}

// What a clock tells, twice.
fn write_clock<C: Clock>(text: &mut String, clock: &C) -> Result<(), AllocError> {
    let first = clock.now_us();
    let second = clock.now_us();
    write!(text, "{first} {second}; ")
}

fn pass<G: Gate>(gate: &G) {
    gate.before(0, 1);
    gate.holding(0, 1);
}

/// Saves and loads a file of the folder, reads each clock, and passes a gate.
pub fn write_sides(text: &mut String, rt: &HostRuntime) -> Result<(), AllocError> {
    let alloc = rt.alloc();
    let mut folder = DirShelf::make(rt);
    let saved = folder.save("saved", b"one");
    text.push_str(if saved.is_ok() {
        "saved; "
    } else {
        "not saved; "
    })?;
    for (name, limit) in [("saved", 3), ("saved", 2), ("saved", 0), ("absent", 9)] {
        write_load(text, alloc, &mut folder, name, limit)?;
    }
    write_clock(text, &TickClock::make(5))?;
    write_clock(text, &StillClock::make(7))?;
    let now = StdClock::make(rt).now_us();
    text.push_str(if now > YEAR_2020 {
        "after 2020"
    } else {
        "before 2020"
    })?;
    pass(&OpenGate);
    Ok(())
}
