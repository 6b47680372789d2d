// Clocks that no system keeps, and a gate that does nothing.
ghost use Rattle.std.specs.Prelude.{◌≡◌, ◌≤◌, ⊤};

use crate::traits::{Clock, Gate};
use std::marker::Model;
use std::sync::atomic::{AtomicU64, Ordering};

/// A clock that goes on by one step at each call. It tells every number.
#[derive(Drop)]
pub struct TickClock {
    last: AtomicU64,
    step: u64,
}

impl Model for TickClock {
    ghost use Rattle.std.specs.Prelude.{ℕ, ◌≤◌};

    ghost Value = { ℕ };

    ghost view = { λ clock. clock.step };

    ghost invariant = { λ clock. 1 ≤ clock.step };
}

impl TickClock {
    /// A clock that answers `step` microseconds first, and at each further call a number larger by
    /// `step`, modulo 2^64. It takes no memory.
    pub fn make(step: u64) -> TickClock
        requires { 1 ≤ step }
        ensures { result ≡ step }
    {
        TickClock {
            last: AtomicU64::new(0),
            step,
        }
    }
}

impl Clock for TickClock {
    ghost Tells = { λ clock now. ⊤ };

    fn now_us(&self) -> u64 {
        let last = self.last.fetch_add(self.step, Ordering::SeqCst);
        last.wrapping_add(self.step)
    }
}

/// A clock that stands still. It tells its one number alone.
#[derive(Clone, Copy)]
pub struct StillClock {
    /// What it tells, in microseconds.
    pub at: u64,
}

impl StillClock {
    /// A clock that always answers `at` microseconds.
    pub fn make(at: u64) -> StillClock
        ensures { result.at ≡ at }
    {
        StillClock { at }
    }
}

impl Clock for StillClock {
    ghost Tells = { λ clock now. now ≡ clock.at };

    fn now_us(&self) -> u64 {
        self.at
    }
}

/// A gate that does nothing: the program's own.
#[derive(Clone, Copy)]
pub struct OpenGate;

impl Gate for OpenGate {
    fn before(&self, _slot: u32, _count: u64) {}

    fn holding(&self, _slot: u32, _count: u64) {}
}
