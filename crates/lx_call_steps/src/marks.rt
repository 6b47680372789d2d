//! The ends of marks: a write of a thread ends the marks of the others on what it wrote (DDI 0487, B2.9).
ghost use Rattle.std.specs.Prelude.{◌≡◌, ◌<◌, ◌+◌, ◌^◌};
ghost use Rattle.lx_machine.specs.Threads.{after_write};

use lx_machine::state::{LinuxState, Slot};

/// Ends the marks of other threads after the thread in `slot` has written so many bytes from an address on.
pub fn unmark(state: &mut LinuxState, slot: Slot, at: u128, len: u128)
    requires { at + len < 2 ^ 128 }
    ensures { state.new ≡ record state.old { threads = after_write slot at len state.old.threads } }
{
    if len != 0 {
        state.threads.unmark(slot, at / 16, (at + len - 1) / 16);
    }
}
