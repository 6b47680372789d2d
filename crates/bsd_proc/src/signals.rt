// Signals with their information, their actions, and whom they are for.

ghost use Rattle.std.specs.Prelude.{◌≡◌};
ghost use Rattle.bsd_proc.specs.Actions.{is_ignored};
ghost use Rattle.bsd_proc.specs.Signals as spec;
ghost use Rattle.bsd_proc.specs.Slots.{default_action};

use bsd_abi::BsdSig;

// The handler of the default action (sigaction(2)).
const SIG_DFL: u64 = 0;

// The handler of an ignored signal (sigaction(2)).
const SIG_IGN: u64 = 1;

/// Where a signal comes from.
#[derive(Clone, Copy)]
pub enum Origin {
    /// A process that sent it, with its process and user number.
    Sender { pid: u32, uid: u32 },
    /// An instruction that trapped, with the address of the fault.
    Address(u64),
}

/// The information of a signal (sigaction(2), siginfo_t): its code, and where it comes from.
#[derive(Clone, Copy)]
pub struct SigInfo {
    pub code: i32,
    pub origin: Origin,
}

/// A signal that was sent, with its information.
#[derive(Clone, Copy)]
pub struct Signal {
    pub sig: BsdSig,
    pub info: SigInfo,
}

/// A signal that was taken, with its information.
pub type Taken = Signal;

/// Whom a signal is for: the process, that is any of its threads, or the thread in a slot alone.
#[derive(Clone, Copy)]
pub enum Target {
    All,
    One(u8),
}

/// What is done at a signal (sigaction(2)): the handler's address, or 0 for the default action or 1 for none, the flags SA_*,
/// the restorer's address, and the signals that are blocked meanwhile, signal n as bit n - 1.
#[derive(Clone, Copy)]
pub struct Action {
    pub handler: u64,
    pub flags: u64,
    pub restorer: u64,
    pub mask: u128,
}

impl Action {
    // The default action.
    pub(crate) fn by_default() -> Action
        ensures { result ≡ default_action }
    {
        Action {
            handler: SIG_DFL,
            flags: 0,
            restorer: 0,
            mask: 0,
        }
    }

    // Whether it ignores the signal, or drops it by default.
    pub(crate) fn ignores(&self, sig: BsdSig) -> bool
        ensures { result ≡ is_ignored self.now sig }
    {
        self.handler == SIG_IGN || (self.handler == SIG_DFL && sig.is_dropped_by_default())
    }
}

impl Signal {
    // Whether it is of this kind.
    pub(crate) fn is_of(&self, sig: BsdSig) -> bool
        ensures { result ≡ spec.is_of sig self.now }
    {
        self.sig.place() == sig.place()
    }
}

// Whether the set, signal n as bit n - 1, has this signal.
pub(crate) fn has_signal(set: u128, sig: BsdSig) -> bool
    ensures { result ≡ spec.has_signal set sig }
{
    (set >> (sig.number() - 1)) & 1 == 1
}
