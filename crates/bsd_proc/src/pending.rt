// The signals that are pending for a thread or for the process.

ghost use Rattle.std.specs.Prelude.{◌≡◌, ◌^◌, ◌<◌, ◌≤◌, true, [], None, IfOk, IfSome, is_some, length, remove, slice_get, vec_capacity};
ghost use Rattle.std.specs.List.{list_any};
ghost use Rattle.bsd_abi.specs.BsdSig.{is_real_time};
ghost use Rattle.bsd_proc.specs.Signals.{first_of, has_unblocked, is_of, real_time_count, set_of, without, without_all};
ghost use Rattle.bsd_proc.specs.Sending.{added, is_there};
ghost use Rattle.bsd_proc.specs.Taking.{first_ready, may_take};
ghost use Rattle.bsd_proc.specs.Steps as step;

use crate::signals::{Signal, has_signal};
use bsd_abi::BsdSig;
use std::alloc::{AllocError, Global};
use std::marker::Model;

// The most signals of one list: each of the 31 standard signals once, and 64 real-time signals.
const MOST_PENDING: usize = 95;

// Pending signals in the order in which they were sent, with room for as many as can be, which contracts see as a list.
#[derive(Drop)]
pub(crate) struct Pending {
    signals: Vec<Signal>,
}

impl Model for Pending {
    ghost use Rattle.std.specs.Prelude.{List};
    ghost use Rattle.bsd_proc.specs.declared.signals.Signal.{Signal};

    ghost Value = { List Signal };

    ghost use Rattle.bsd_proc.specs.PendingFields.{HasRoom};

    ghost view = { λ p. p.signals.items };

    ghost invariant = { HasRoom };
}

// Whether a signal of this kind is among them.
fn has(signals: &[Signal], sig: BsdSig) -> bool
    ensures { result ≡ list_any (is_of sig) signals.now }
{
    signals.iter().any(|signal| signal.is_of(sig))
}

// Whether the signal is a standard one that is among them already.
fn is_there(signals: &[Signal], signal: &Signal) -> bool
    ensures { result ≡ is_there signal.now signals.now }
{
    !signal.sig.is_real_time() && has(signals, signal.sig)
}

// The place of the first signal of this kind, and the length where there is none.
fn place_of(signals: &[Signal], sig: BsdSig) -> usize
    requires { length signals.now < 2 ^ 63 }
    ensures most { result ≤ length signals.now }
    ensures there { result < length signals.now → (first_of sig signals.now ≡ slice_get signals.now result) × (remove signals.now result ≡ without sig signals.now) }
    ensures nowhere { result ≡ length signals.now → (first_of sig signals.now ≡ None) × (without sig signals.now ≡ signals.now) }
{
    match signals {
        [] => 0,
        [signal, rest @ ..] => {
            if signal.is_of(sig) {
                0
            } else {
                1 + place_of(rest, sig)
            }
        }
    }
}

// Takes the first signal of this kind out.
fn take_first(signals: &mut Vec<Signal>, sig: BsdSig) -> Option<Signal>
    ensures taken { result ≡ first_of sig signals.old.items }
    ensures left { signals.new.items ≡ without sig signals.old.items }
    ensures capacity { vec_capacity signals.new ≡ vec_capacity signals.old }
{
    let at = place_of(signals, sig);
    if at < signals.len() {
        Some(signals.remove(at))
    } else {
        None
    }
}

// Lets all signals of this kind go.
fn remove_each(signals: &mut Vec<Signal>, sig: BsdSig)
    ensures left { signals.new.items ≡ without_all sig signals.old.items }
    ensures capacity { vec_capacity signals.new ≡ vec_capacity signals.old }
{
    signals.retain(|signal| signal.sig.place() != sig.place());
}

// How many of them are real-time signals.
fn count_real_time(signals: &[Signal]) -> usize
    ensures { result ≡ real_time_count signals.now }
{
    signals
        .iter()
        .filter(|signal| signal.sig.is_real_time())
        .count()
}

// The lower of a signal and what was found so far.
fn lower(found: Option<BsdSig>, sig: BsdSig) -> Option<BsdSig>
    ensures { result ≡ step.lower found sig }
{
    match found {
        Some(first) if first.place() <= sig.place() => found,
        _ => Some(sig),
    }
}

// The lowest of them that is not blocked.
fn lowest_unblocked(signals: &[Signal], mask: u128) -> Option<BsdSig>
    ensures lowest { result ≡ first_ready mask signals.now }
    ensures may { IfSome result (λ sig. may_take mask signals.now sig ≡ true) }
    ensures some { is_some result ≡ has_unblocked mask signals.now }
{
    let mut found = None;
    for signal in signals {
        if !has_signal(mask, signal.sig) {
            found = lower(found, signal.sig);
        }
    }
    found
}

// The set of them.
fn bits_of(signals: &[Signal]) -> u128
    ensures { result ≡ set_of signals.now }
{
    match signals {
        [] => 0,
        [signal, rest @ ..] => signal.sig.bit() | bits_of(rest),
    }
}

impl Pending {
    // No signals, with room for all that can be pending.
    pub(crate) fn make(alloc: Global) -> Result<Pending, AllocError>
        ensures { IfOk result (λ pending. pending ≡ []) }
    {
        let signals = Vec::with_capacity(alloc, MOST_PENDING)?;
        Ok(Pending { signals })
    }

    // Puts a signal behind the others, unless it is a standard one that is there already.
    pub(crate) fn add(&mut self, signal: Signal)
        requires few { real_time_count self.old ≤ 64 }
        requires room { is_real_time signal.sig ≡ true → real_time_count self.old < 64 }
        ensures { self.new ≡ added signal self.old }
    {
        if !is_there(&self.signals, &signal) {
            self.signals.push_reserved(signal);
        }
    }

    // Takes the first signal of this kind out.
    pub(crate) fn take(&mut self, sig: BsdSig) -> Option<Signal>
        ensures taken { result ≡ first_of sig self.old }
        ensures left { self.new ≡ without sig self.old }
    {
        take_first(&mut self.signals, sig)
    }

    // Lets all signals of this kind go.
    pub(crate) fn forget(&mut self, sig: BsdSig)
        ensures { self.new ≡ without_all sig self.old }
    {
        remove_each(&mut self.signals, sig);
    }

    // Lets all signals go.
    pub(crate) fn clear(&mut self)
        ensures { self.new ≡ [] }
    {
        self.signals.clear();
    }

    // How many real-time signals are pending.
    pub(crate) fn real_time_count(&self) -> usize
        ensures { result ≡ real_time_count self.now }
    {
        count_real_time(&self.signals)
    }

    // The lowest pending signal that is not blocked.
    pub(crate) fn lowest_unblocked(&self, mask: u128) -> Option<BsdSig>
        ensures lowest { result ≡ first_ready mask self.now }
        ensures may { IfSome result (λ sig. may_take mask self.now sig ≡ true) }
        ensures some { is_some result ≡ has_unblocked mask self.now }
    {
        lowest_unblocked(&self.signals, mask)
    }

    // The set of the pending signals, signal n as bit n - 1.
    pub(crate) fn bits(&self) -> u128
        ensures { result ≡ set_of self.now }
    {
        bits_of(&self.signals)
    }
}
