// Rights, and runs of pages with equal rights.

ghost use Rattle.std.specs.Prelude.{◌≡◌, ◌+◌, ◌^◌, ◌<◌, ◌≤◌};
ghost use Rattle.page_ranges.specs.Ranges.{within};
ghost use Rattle.vm_areas.specs.PageMap.{end_of};
ghost use Rattle.vm_areas.specs.Painted.{clipped, grown, touches};

use page_ranges::Rights;

/// A run of mapped pages with equal rights.
#[derive(Clone, Copy)]
pub struct Area {
    /// The first page.
    pub first: u64,
    /// How many pages it has.
    pub pages: u64,
    /// The rights of each of them.
    pub rights: Rights,
}

impl Area {
    // The first page after it.
    pub(crate) fn end(self) -> u64
        requires { end_of self ≤ 2 ^ 53 }
        ensures { result ≡ end_of self }
    {
        self.first + self.pages
    }

    // Whether the page is one of it.
    pub(crate) fn holds(self, page: u64) -> bool
        ensures { result ≡ within self.first self.pages page }
    {
        self.first <= page && page - self.first < self.pages
    }

    // The part of it from page `from` on and below page `to`.
    pub(crate) fn clipped(self, from: u64, to: u64) -> Area
        ensures { result ≡ clipped from to self }
    {
        let first = self.first.max(from);
        let left = self.pages.saturating_sub(first - self.first);
        Area {
            first,
            pages: left.min(to.saturating_sub(first)),
            rights: self.rights,
        }
    }

    // Whether it is one run with the next.
    pub(crate) fn touches(self, next: Area) -> bool
        ensures { result ≡ touches self next }
    {
        self.first <= next.first
            && next.first - self.first == self.pages
            && self.rights.same(next.rights)
    }
}
