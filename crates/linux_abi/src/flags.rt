//! Flags in one number, a bit each.
ghost use Rattle.std.specs.Prelude.{◌≡◌, ◌<◌};
ghost use Rattle.linux_abi.specs.Flags.{has_flag};

/// Whether a flag, a power of two, is set.
pub fn has_flag(flag: u64, flags: u64) -> bool
    requires { 0 < flag }
    ensures { result ≡ has_flag flag flags }
{
    flags / flag % 2 == 1
}
