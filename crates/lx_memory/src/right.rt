// A right, and the first page of a range that lacks it.

ghost use Rattle.std.specs.Prelude.{◌≡◌, ◌+◌, ◌^◌, ◌≤◌, option_map};
ghost use Rattle.lx_memory.specs.Access.{allows, IsFirstPageWithout};
ghost use Rattle.lx_memory.specs.Space.{IsInSpace};

use page_ranges::Rights;
use page_store::PageStore;

/// What an access does with the bytes of a page (mmap(2): `PROT_READ`, `PROT_WRITE`, `PROT_EXEC`).
#[derive(Clone, Copy, Debug, PartialEq, Eq)]
pub enum Right {
    Read,
    Write,
    Execute,
}

impl Right {
    // Whether these rights have it.
    pub(crate) fn is_among(self, rights: Rights) -> bool
        ensures { result ≡ allows self rights }
    {
        match self {
            Right::Read => rights.read,
            Right::Write => rights.write,
            Right::Execute => rights.execute,
        }
    }
}

// The first page of a range that is not mapped or lacks the right.
pub(crate) fn page_without(pages: &PageStore, right: Right, first: u64, count: u64) -> Option<u64>
    requires { first + count ≤ 2 ^ 52 + 1 }
    ensures { IsFirstPageWithout pages.now.pages (allows right) first count result }
{
    for i in 0..count {
        match pages.rights(first + i) {
            Some(rights) if right.is_among(rights) => {}
            _ => return Some(first + i),
        }
    }
    None
}
