//! Why the Linux machine takes no step.
use crate::buffer::NoMemory;

/// Why a step is not made; then nothing changes.
#[derive(Clone, Copy, Debug)]
pub enum LxRefusal {
    /// The machine has no such step from where it stands.
    NoStep,
    /// Memory is wanting, which tells nothing of the step.
    NoMemory,
}

impl From<NoMemory> for LxRefusal {
    ghost use Rattle.std.specs.Prelude.{◌≡◌};
    ghost use Rattle.lx_machine.specs.declared.refusal.LxRefusal.TheVariants.{NoMemory};

    ghost from_gives = { λ _ e. e ≡ NoMemory };

    fn from(_: NoMemory) -> LxRefusal {
        LxRefusal::NoMemory
    }
}
