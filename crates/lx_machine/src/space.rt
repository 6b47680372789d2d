//! The address space of the guest.
use lx_memory::Memory;

/// Memory: the mapped pages, the break, and where it began (brk(2)).
#[derive(Drop)]
pub struct Space {
    pub pages: Memory,
    pub break_at: u64,
    pub break_start: u64,
}
