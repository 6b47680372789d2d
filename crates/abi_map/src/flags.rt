//! Flags of open files and of mappings. A bit that a map doesn't name is dropped.
ghost use Rattle.std.specs.Prelude.{◌≡◌};
ghost use Rattle.abi_map.specs.Flags.{open_flags_in_of, open_flags_out_of, map_flags_in_of, open_flag_table, map_flag_table, turned, bit_of, IsMovedBy};

use bsd_abi::{files as bsd_files, memory as bsd_memory};
use linux_abi::{files as linux_files, memory as linux_memory};

/// The mask `to` where the flags have the bit `from`, and else none.
fn moved(flags: u64, from: u64, to: u64) -> u64
    ensures { result ≡ bit_of (from, to) flags }
{
    if flags & from == 0 { 0 } else { to }
}

/// Linux's flags of an open file as FreeBSD's (open(2) of both).
pub fn open_flags_in(flags: u64) -> u64
    ensures value { result ≡ open_flags_in_of flags }
    ensures table { IsMovedBy open_flag_table flags result }
{
    moved(flags, linux_files::O_WRONLY, bsd_files::O_WRONLY)
        | moved(flags, linux_files::O_RDWR, bsd_files::O_RDWR)
        | moved(flags, linux_files::O_NONBLOCK, bsd_files::O_NONBLOCK)
        | moved(flags, linux_files::O_CLOEXEC, bsd_files::O_CLOEXEC)
}

/// FreeBSD's flags of an open file as Linux's (open(2) of both).
pub fn open_flags_out(flags: u64) -> u64
    ensures value { result ≡ open_flags_out_of flags }
    ensures table { IsMovedBy (turned open_flag_table) flags result }
{
    moved(flags, bsd_files::O_WRONLY, linux_files::O_WRONLY)
        | moved(flags, bsd_files::O_RDWR, linux_files::O_RDWR)
        | moved(flags, bsd_files::O_NONBLOCK, linux_files::O_NONBLOCK)
        | moved(flags, bsd_files::O_CLOEXEC, linux_files::O_CLOEXEC)
}

/// Linux's flags of a mapping as FreeBSD's (mmap(2) of both).
pub fn map_flags_in(flags: u64) -> u64
    ensures value { result ≡ map_flags_in_of flags }
    ensures table { IsMovedBy map_flag_table flags result }
{
    moved(flags, linux_memory::MAP_SHARED, bsd_memory::MAP_SHARED)
        | moved(flags, linux_memory::MAP_PRIVATE, bsd_memory::MAP_PRIVATE)
        | moved(flags, linux_memory::MAP_FIXED, bsd_memory::MAP_FIXED)
        | moved(flags, linux_memory::MAP_ANONYMOUS, bsd_memory::MAP_ANON)
}
