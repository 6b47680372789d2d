// The page, shard, granule and chain of an address.

ghost use Rattle.std.specs.Prelude.{◌≡◌};
ghost use Rattle.places.specs.Places as place;

/// The page of an address.
#[inline(always)]
pub fn page(address: u64) -> u64
    ensures { result ≡ place.page address }
{
    address / 4096
}

/// The shard of a page, 0 to 15.
#[inline(always)]
pub fn shard(page: u64) -> u8
    ensures { result ≡ place.shard page }
{
    (page % 16) as u8
}

/// The granule of an address.
#[inline(always)]
pub fn granule(address: u64) -> u64
    ensures { result ≡ place.granule address }
{
    address / 16
}

/// The chain of the word at an address, 0 to 63.
#[inline(always)]
pub fn chain(address: u64) -> u8
    ensures { result ≡ place.chain address }
{
    (address / 4 % 64) as u8
}
