//! Whose turn it is, how long a turn is, and what is chosen where the machine leaves it open.
ghost use Rattle.std.specs.Prelude.{◌<◌};

use rand_core::{Rng, SeedableRng};
use rand_xoshiro::SplitMix64;

/// The places for threads.
pub const SLOTS: u8 = 128;

/// The most steps that a thread takes one after the other.
const TURN: u64 = 100;

/// The order of the turns: rounds over all slots, or by a generator.
#[derive(Drop)]
pub struct Schedule {
    generator: Option<SplitMix64>,
    next: u8,
}

impl Schedule {
    /// Rounds over the slots, with turns of the same length.
    pub fn rounds() -> Schedule {
        Schedule {
            generator: None,
            next: 0,
        }
    }

    /// Turns of any thread and of any length, which are the same for the same seed.
    pub fn seeded(seed: u64) -> Schedule {
        Schedule {
            generator: Some(SplitMix64::seed_from_u64(seed)),
            next: 0,
        }
    }

    /// Which one of so many threads has the next turn, if it has a step.
    pub fn pick(&mut self, count: u8) -> u8
        requires { 0 < count }
        ensures { result < count }
    {
        let word = match &mut self.generator {
            Some(generator) => generator.next_u64(),
            None => {
                self.next = self.next.wrapping_add(1);
                u64::from(self.next)
            }
        };
        (word % u64::from(count)) as u8
    }

    /// Which one of so many things is chosen, where the machine leaves it open: the first, or by a generator any one.
    pub fn choose(&mut self, count: u64) -> u64
        requires { 0 < count }
        ensures { result < count }
    {
        match &mut self.generator {
            Some(generator) => generator.next_u64() % count,
            None => 0,
        }
    }

    /// How many steps the next turn has at most: by a generator short ones as often as long ones.
    pub fn length(&mut self) -> u64 {
        match &mut self.generator {
            Some(generator) => {
                let word = generator.next_u64();
                let most = if word % 2 == 0 { 4 } else { TURN };
                1 + word / 2 % most
            }
            None => TURN,
        }
    }
}
