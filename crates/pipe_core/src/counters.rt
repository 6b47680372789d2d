//! A counter (eventfd(2)): a number that a write adds to and a read takes.
ghost use Rattle.std.specs.Prelude.{◌≡◌};

/// The value of a counter, and whether it is a semaphore, of which a read takes 1 alone (EFD_SEMAPHORE).
#[derive(Clone, Copy, Debug, PartialEq, Eq)]
pub struct Counter {
    pub value: u64,
    pub semaphore: bool,
}

/// The greatest value that an addition leaves: 2^64 - 2.
const MOST: u64 = u64::MAX - 1;

impl Counter {
    ghost use Rattle.pipe_core.specs.Counters.{read_of, after_read, can_add, after_add};

    /// A counter of this value.
    pub fn new(value: u64, semaphore: bool) -> Counter
        ensures { result ≡ record { value = value; semaphore = semaphore } }
    {
        Counter { value, semaphore }
    }

    /// Takes the value, or 1 of it in a semaphore, and answers what was taken; `None` exactly at 0, and then nothing changes.
    pub fn read(&mut self) -> Option<u64>
        ensures taken { result ≡ read_of self.old }
        ensures counter { self.new ≡ after_read self.old }
    {
        if self.value == 0 {
            return None;
        }
        let taken = if self.semaphore { 1 } else { self.value };
        self.value -= taken;
        Some(taken)
    }

    /// Adds `n`; false exactly where the sum would pass 2^64 - 2, and then nothing changes.
    pub fn add(&mut self, n: u64) -> bool
        ensures fits { result ≡ can_add n self.old }
        ensures counter { self.new ≡ after_add n self.old }
    {
        match self.value.checked_add(n) {
            Some(sum) if sum <= MOST => {
                self.value = sum;
                true
            }
            _ => false,
        }
    }
}
