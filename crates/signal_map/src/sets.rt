//! Sets of signals: signal n is bit n - 1.
ghost use Rattle.std.specs.Prelude.{◌≡◌};
ghost use Rattle.bsd_abi.specs.BsdSig.{bsd_bit};
ghost use Rattle.signal_map.specs.Sets.{linux_bit_of, moved_bits, set_in_of, set_out_of, MovesSignals};

use crate::signals::signal_out;
use bsd_abi::BsdSig;

/// A Linux set of signals as a FreeBSD set (sigprocmask(2) of both).
pub fn set_in(linux: u64) -> u128
    ensures value { result ≡ set_in_of linux }
    ensures bits { MovesSignals linux_bit_of bsd_bit linux result }
    ensures back { set_out_of result ≡ linux }
{
    moved_in(&BsdSig::ALL, linux)
}

/// A FreeBSD set of signals as a Linux set (sigprocmask(2) of both). A bit of no signal is dropped.
pub fn set_out(bsd: u128) -> u64
    ensures value { result ≡ set_out_of bsd }
    ensures bits { MovesSignals bsd_bit linux_bit_of bsd result }
{
    moved_out(&BsdSig::ALL, bsd)
}

/// The FreeBSD set of those of these signals that the Linux set has.
fn moved_in(signals: &[BsdSig], linux: u64) -> u128
    ensures { result ≡ moved_bits linux_bit_of bsd_bit signals.now linux }
{
    let mut bsd = 0;
    for &signal in signals {
        if linux & signal_out(signal).bit() != 0 {
            bsd |= signal.bit();
        }
    }
    bsd
}

/// The Linux set of those of these signals that the FreeBSD set has.
fn moved_out(signals: &[BsdSig], bsd: u128) -> u64
    ensures { result ≡ moved_bits bsd_bit linux_bit_of signals.now bsd }
{
    let mut linux = 0;
    for &signal in signals {
        if bsd & signal.bit() != 0 {
            linux |= signal_out(signal).bit();
        }
    }
    linux
}
