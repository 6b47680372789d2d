// The bytes of a range of addresses, page by page.

ghost use Rattle.std.specs.Prelude.{◌≡◌, ℕ, ◌+◌, ◌-◌, ◌%◌, ◌<◌, ◌≤◌, min, length};
ghost use Rattle.lx_memory.specs.Bytes.{IsMapped, bytes_at, with_bytes};
ghost use Rattle.lx_memory.specs.Space.{IsInSpace};

use page_store::PageStore;
use places::limits::PAGE;

// How many of so many bytes from an address on lie in its page.
fn piece(at: u64, len: usize) -> usize
    ensures { result ≡ min len (4096 - at % 4096) }
{
    len.min((PAGE - at % PAGE) as usize)
}

// Reads the bytes from an address on.
pub(crate) fn load_pieces(pages: &PageStore, at: u64, into: &mut [u8])
    requires mapped { IsMapped pages.now.pages at (length into.old) }
    requires space { IsInSpace pages.now.pages }
    ensures { into.new ≡ bytes_at pages.now.pages at (length into.old) }
{
    let mut done = 0;
    while done < into.len() {
        let here = at + done as u64;
        let end = done + piece(here, into.len() - done);
        let _ = pages.peek(here, &mut into[done..end]);
        done = end;
    }
}

// Writes bytes from an address on.
pub(crate) fn store_pieces(pages: &mut PageStore, at: u64, bytes: &[u8])
    requires mapped { IsMapped pages.old.pages at (length bytes.now) }
    requires space { IsInSpace pages.old.pages }
    ensures { pages.new.pages ≡ with_bytes pages.old.pages at bytes.now }
{
    let mut done = 0;
    while done < bytes.len() {
        let here = at + done as u64;
        let end = done + piece(here, bytes.len() - done);
        let _ = pages.poke(here, &bytes[done..end]);
        done = end;
    }
}
