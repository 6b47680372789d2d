// The rights of a page.

ghost use Rattle.std.specs.Prelude.{◌≡◌};
ghost use Rattle.page_ranges.specs.RightsRules.{same_rights};

/// What may be done with the bytes of a page (mmap(2): `PROT_READ`, `PROT_WRITE`, `PROT_EXEC`).
#[derive(Clone, Copy, Debug, PartialEq, Eq)]
pub struct Rights {
    pub read: bool,
    pub write: bool,
    pub execute: bool,
}

impl Rights {
    /// Whether the rights are equal.
    pub fn same(self, other: Rights) -> bool
        ensures { result ≡ same_rights self other }
    {
        self.read == other.read && self.write == other.write && self.execute == other.execute
    }
}
