//! A range of bytes, in a file or in memory.

ghost use Rattle.std.specs.Prelude.{◌≡◌, ◌<◌};
ghost use Rattle.std.specs.Bool.{OnFalse, OnTrue};
ghost use Rattle.places.specs.Places.{page};
ghost use Rattle.elf_image.specs.Spans.{end_of, first_page, holds, last_page, shares_page, AreApart, SharesPage};

/// The bytes of a page.
const PAGE_SIZE: u64 = 4096;

/// A range of bytes, by its start and its size. Its end may lie past the largest `u64`.
#[derive(Clone, Copy)]
pub struct Span {
    pub start: u64,
    pub size: u64,
}

impl Span {
    /// The first byte after the range.
    pub fn end(self) -> u128
        ensures { result ≡ end_of self }
    {
        u128::from(self.start) + u128::from(self.size)
    }

    /// Whether `inner` lies inside this range.
    pub fn holds(self, inner: Span) -> bool
        ensures { result ≡ holds self inner }
    {
        self.start <= inner.start && inner.end() <= self.end()
    }

    /// Whether some page has bytes of both ranges, neither of which is empty.
    #[tactic(auto, using(crate::proofs::Pages::pages))]
    pub fn shares_page(self, other: Span) -> bool
        ensures value { result ≡ shares_page self other }
        ensures apart { OnFalse result (AreApart self other) }
        ensures shared { 0 < self.size → 0 < other.size → OnTrue result (SharesPage self other) }
    {
        self.first_page() <= other.last_page() && other.first_page() <= self.last_page()
    }

    fn first_page(self) -> u128
        ensures { result ≡ first_page self }
    {
        u128::from(self.start / PAGE_SIZE)
    }

    fn last_page(self) -> u128
        ensures { result ≡ last_page self }
    {
        self.end().saturating_sub(1) / u128::from(PAGE_SIZE)
    }
}
