//! Signals, their information and their actions, in Linux numbers (signal(7), sigaction(2)).
ghost use Rattle.std.specs.Prelude.{◌≡◌, ◌≤◌, ◌<◌, ◌^◌, ◌==◌, ◌++◌, ◌∷◌, [], length, OnErr, OnOk};
ghost use Rattle.std.specs.List.{fold, list_any, position_or_len};
ghost use Rattle.lx_machine.specs.Signal.{first_info, has_signal, has_unblocked, is_before, is_of, may_take, real_time_count, set_of, with_bit, without_all, without_signal};

use crate::buffer::NoMemory;
use arrayvec::ArrayVec;
use linux_abi::{LinuxErrno, LinuxSig};
use std::marker::Model;

/// Where a signal comes from.
#[derive(Clone, Copy)]
pub enum Origin {
    /// A process that sent it, with its process and user number.
    Sender { pid: u32, uid: u32 },
    /// An instruction that trapped, with the address of the fault.
    Address(u64),
}

/// A signal with its information (sigaction(2), siginfo_t).
#[derive(Clone, Copy)]
pub struct SigInfo {
    pub signal: LinuxSig,
    pub code: i32,
    pub origin: Origin,
}

/// What stands in a place of a list that holds no signal.
impl Default for SigInfo {
    fn default() -> SigInfo {
        SigInfo {
            signal: LinuxSig::SIGHUP,
            code: 0,
            origin: Origin::Address(0),
        }
    }
}

/// What is done at a signal: the handler's address, or 0 for the default action or 1 for none, the flags SA_*, the
/// restorer's address, and the signals that are blocked meanwhile, signal n as bit n - 1.
#[derive(Clone, Copy)]
pub struct Action {
    pub handler: u64,
    pub flags: u64,
    pub restorer: u64,
    pub mask: u64,
}

/// A signal that was taken, with the action that was taken with it.
#[derive(Clone, Copy)]
pub struct Taken {
    pub info: SigInfo,
    pub action: Action,
}

/// What a call sends.
#[derive(Clone, Copy)]
pub enum Sending {
    /// Nothing: the call is refused.
    Refused(LinuxErrno),
    /// Nothing: it is only checked that a signal could be sent.
    Checked,
    /// A signal to the process.
    ToProcess(SigInfo),
    /// A signal to the thread in this slot.
    ToThread(usize, SigInfo),
}

/// What follows of a delivered signal: the signal that ends the guest, if one does, and the signal whose pending ones end in
/// all lists, if there is one.
#[derive(Clone, Copy)]
pub struct Fate {
    pub ends: Option<LinuxSig>,
    pub forgets: Option<LinuxSig>,
}

/// The most signals that are pending in one list: each standard signal once, and 64 real-time signals.
pub const MOST_PENDING: usize = 95;

/// The pending signals of a thread or of the process in the order in which they were sent, which contracts see as a
/// list.
#[derive(Drop)]
pub struct Pending {
    infos: ArrayVec<SigInfo, MOST_PENDING>,
}

impl Model for Pending {
    ghost use Rattle.std.specs.Prelude.{List};
    ghost use Rattle.lx_machine.specs.declared.signals.SigInfo.{SigInfo};

    ghost Value = { List SigInfo };

    ghost view = { λ p. p.infos.items };
}

/// Whether a set of signals, signal n as bit n - 1, has this one.
pub fn has_signal(set: u64, signal: LinuxSig) -> bool
    ensures { result ≡ has_signal set signal }
{
    (set >> (signal.number() - 1)) & 1 == 1
}

/// Whether it is this signal.
fn is_of(signal: LinuxSig, info: SigInfo) -> bool
    ensures { result ≡ is_of signal info }
{
    info.signal.number() == signal.number()
}

/// Whether it is an unblocked real-time signal of a lower number.
fn is_before(mask: u64, signal: LinuxSig, info: SigInfo) -> bool
    ensures { result ≡ is_before mask signal info }
{
    info.signal.is_real_time()
        && info.signal.number() < signal.number()
        && !has_signal(mask, info.signal)
}

/// The place of the first signal of this kind, and the length where there is none.
fn place_of(signal: LinuxSig, infos: &[SigInfo]) -> usize
    requires { length infos.now < 2 ^ 63 }
    ensures place { result ≡ position_or_len (is_of signal) infos.now }
    ensures most { result ≤ length infos.now }
{
    match infos {
        [] => 0,
        [info, rest @ ..] => {
            if is_of(signal, *info) {
                0
            } else {
                1 + place_of(signal, rest)
            }
        }
    }
}

/// The first signal of this kind.
fn first_of(signal: LinuxSig, infos: &[SigInfo]) -> Option<SigInfo>
    ensures { result ≡ first_info signal infos.now }
{
    match infos {
        [] => None,
        [info, rest @ ..] => {
            if is_of(signal, *info) {
                Some(*info)
            } else {
                first_of(signal, rest)
            }
        }
    }
}

/// The set with these signals too.
fn with_bits(set: u64, infos: &[SigInfo]) -> u64
    ensures { result ≡ fold with_bit set infos.now }
{
    match infos {
        [] => set,
        [info, rest @ ..] => with_bits(set | info.signal.bit(), rest),
    }
}

/// Lets all signals of this kind go.
fn remove_each(signal: LinuxSig, infos: &mut ArrayVec<SigInfo, MOST_PENDING>)
    ensures { infos.new.items ≡ without_all signal infos.old.items }
{
    infos.retain(|info| info.signal.number() != signal.number());
}

impl Pending {
    /// No signals. Takes no memory.
    pub fn empty() -> Pending
        ensures { result ≡ [] }
    {
        Pending {
            infos: ArrayVec::new(),
        }
    }

    /// Whether the signal is pending.
    pub fn has(&self, signal: LinuxSig) -> bool
        ensures { result ≡ list_any (is_of signal) self.now }
    {
        self.infos
            .iter()
            .any(|info| info.signal.number() == signal.number())
    }

    /// Whether `MOST_PENDING` signals are there.
    pub fn is_full(&self) -> bool
        ensures { result ≡ (length self.now == MOST_PENDING) }
    {
        self.infos.is_full()
    }

    /// Puts a signal behind the others. `NoMemory`: `MOST_PENDING` of them are there; then nothing changes.
    pub fn push(&mut self, info: SigInfo) -> Result<(), NoMemory>
        ensures ok { OnOk result (self.new ≡ self.old ++ info ∷ []) }
        ensures err { OnErr result (self.new ≡ self.old) }
        ensures full { OnErr result (length self.old ≡ MOST_PENDING) }
    {
        if self.infos.is_full() {
            return Err(NoMemory);
        }
        self.infos.push(info);
        Ok(())
    }

    /// Whether some pending signal is not blocked.
    pub fn has_unblocked(&self, mask: u64) -> bool
        ensures { result ≡ has_unblocked mask self.now }
    {
        self.infos.iter().any(|info| !has_signal(mask, info.signal))
    }

    /// Whether some unblocked real-time signal of a lower number is pending.
    fn has_before(&self, mask: u64, signal: LinuxSig) -> bool
        ensures { result ≡ list_any (is_before mask signal) self.now }
    {
        self.infos.iter().any(|info| is_before(mask, signal, *info))
    }

    /// Whether a thread with this mask may take the signal from this list (signal(7)).
    pub fn may_take(&self, mask: u64, signal: LinuxSig) -> bool
        ensures { result ≡ may_take mask self.now signal }
    {
        self.has(signal)
            && !has_signal(mask, signal)
            && !(signal.is_real_time() && self.has_before(mask, signal))
    }

    /// The first signal of this kind is pending no more.
    pub fn remove(&mut self, signal: LinuxSig)
        ensures { self.new ≡ without_signal signal self.old }
    {
        let at = place_of(signal, &self.infos);
        if at < self.infos.len() {
            self.infos.remove(at);
        }
    }

    /// The first signal of this kind, if there is one.
    pub fn first(&self, signal: LinuxSig) -> Option<SigInfo>
        ensures { result ≡ first_info signal self.now }
    {
        first_of(signal, &self.infos)
    }

    /// No signal of this kind is pending any more.
    pub fn remove_all(&mut self, signal: LinuxSig)
        ensures { self.new ≡ without_all signal self.old }
    {
        remove_each(signal, &mut self.infos);
    }

    /// How many real-time signals are pending.
    pub fn real_time_count(&self) -> usize
        ensures value { result ≡ real_time_count self.now }
        ensures most { result ≤ MOST_PENDING }
    {
        self.infos
            .iter()
            .filter(|info| info.signal.is_real_time())
            .count()
    }

    /// The set of the pending signals, signal n as bit n - 1.
    pub fn bits(&self) -> u64
        ensures { result ≡ set_of self.now }
    {
        with_bits(0, &self.infos)
    }
}
