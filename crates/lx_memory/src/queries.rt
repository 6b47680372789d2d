//! How instructions and calls look at memory (mmap(2), mprotect(2)).
ghost use Rattle.std.specs.Prelude.{◌≡◌, ◌+◌, ◌≤◌, true, None, IfSome};
ghost use Rattle.lx_memory.specs.Bytes.{IsMapped};
ghost use Rattle.lx_memory.specs.Queries.{first_lacking, is_allowed, all_mapped, all_free, any_executable, highest_gap};

use crate::{Memory, Right};

/// The first byte of a range that may not be accessed so, if there is one (sigaction(2), `si_addr`). After `None`, the
/// range may be loaded and stored.
pub fn first_lacking(memory: &Memory, right: Right, at: u64, len: u64) -> Option<u64>
    ensures value { result ≡ first_lacking right memory.now at len }
    ensures mapped { result ≡ None → IsMapped memory.now at len }
{
    memory.first_lacking(right, at, len)
}

/// Whether each page of a range is mapped.
pub fn all_mapped(memory: &Memory, first: u64, count: u64) -> bool
    ensures { result ≡ all_mapped memory.now first count }
{
    memory.all_mapped(first, count)
}

/// Whether no page of a range is mapped.
pub fn all_free(memory: &Memory, first: u64, count: u64) -> bool
    ensures { result ≡ all_free memory.now first count }
{
    memory.all_free(first, count)
}

/// Whether some page of a range is mapped with the right to execute.
pub fn any_executable(memory: &Memory, first: u64, count: u64) -> bool
    ensures { result ≡ any_executable memory.now first count }
{
    memory.any_executable(first, count)
}

/// The greatest first page of so many free pages between two pages, if there is one.
pub fn highest_gap(memory: &Memory, count: u64, low: u64, high: u64) -> Option<u64>
    ensures value { result ≡ highest_gap memory.now count low high }
    ensures below { IfSome result (λ first. first + count ≤ high) }
{
    memory.highest_gap(count, low, high)
}

/// Whether each byte of a range may be accessed so. After `true`, the range may be loaded and stored.
pub fn is_allowed(memory: &Memory, right: Right, at: u64, len: u64) -> bool
    ensures value { result ≡ is_allowed right memory.now at len }
    ensures mapped { result ≡ true → IsMapped memory.now at len }
{
    first_lacking(memory, right, at, len).is_none()
}
