// The pages of a range of bytes, and their shards.

ghost use Rattle.std.specs.Prelude.{◌≡◌, ◌+◌, ◌<◌, ◌↔◌, min, IsTrue};
ghost use Rattle.places.specs.Places as place;
ghost use Rattle.places.specs.PageRanges.{page_count, HasPageIn};

use crate::addresses::page;
use crate::limits::SHARDS;

/// Pages one behind the other. Their shards are `shard_at(0)` to `shard_at(shard_count() - 1)`, each once.
#[derive(Clone, Copy, Debug, PartialEq, Eq)]
pub struct PageRange {
    /// The first of them.
    pub first: u64,
    /// How many there are.
    pub count: u64,
}

impl PageRange {
    /// The pages that `len` bytes from the address `at` on touch: from that of the first byte to that of the last. A page
    /// past the 2^52 ones of 64-bit addresses has the number that it would have.
    pub fn touched(at: u64, len: u64) -> PageRange
        ensures first { result.first ≡ place.page at }
        ensures count { result.count ≡ page_count at len }
    {
        let first = page(at);
        if len == 0 {
            return PageRange { first, count: 0 };
        }
        let rest = len - 1;
        let over = page(at % 4096 + rest % 4096);
        PageRange {
            first,
            count: page(rest) + over + 1,
        }
    }

    /// In how many shards they lie.
    pub fn shard_count(self) -> u8
        ensures { result ≡ min self.count 16 }
    {
        self.count.min(u64::from(SHARDS)) as u8
    }

    /// The shard of the page that stands so many pages behind the first one.
    pub fn shard_at(self, i: u8) -> u8
        ensures { result ≡ place.shard (self.first + i) }
    {
        ((self.first % 16) as u8 + i % 16) % SHARDS
    }

    /// Whether one of them lies in a shard, 0 to 15.
    pub fn has_page_in(self, shard: u8) -> bool
        requires { shard < SHARDS }
        ensures { IsTrue result ↔ HasPageIn self.first self.count shard }
    {
        let until = (shard + SHARDS - (self.first % 16) as u8) % SHARDS;
        u64::from(until) < self.count
    }
}
