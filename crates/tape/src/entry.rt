//! One entry of a tape.

ghost use Rattle.std.specs.Prelude.{◌≡◌};
ghost use Rattle.tape.specs.Entry as spec;

/// One step of a run. A tape keeps any entry; a file keeps only those of an actor.
#[derive(Clone, Copy)]
pub struct Entry {
    /// Who acted: a slot, 0 to 31 under rules 1 and 0 to 127 under rules 2, or 253 for the clock, 254 for
    /// the drain of standard output, 255 for the drain of standard error.
    pub actor: u8,
    /// For the clock the time that it is set to, in microseconds; for a drain the bytes that it takes;
    /// for a slot 1 where it takes a signal, else 0.
    pub amount: u64,
}

/// Whether a byte names an actor under these rules.
pub(crate) fn is_actor(rules: u8, actor: u8) -> bool
    ensures { result ≡ spec.is_actor rules actor }
{
    let slots = if rules == 1 { 32 } else { 128 };
    actor < slots || actor >= 253
}

/// Whether two entries are equal.
pub(crate) fn same_entry(first: &Entry, second: &Entry) -> bool
    ensures { result ≡ spec.same_entry first.now second.now }
{
    first.actor == second.actor && first.amount == second.amount
}
