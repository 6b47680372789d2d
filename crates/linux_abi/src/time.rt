//! The clocks of clock_gettime(2).
ghost use Rattle.std.specs.Prelude.{◌≡◌, Some, IfSome};
ghost use Rattle.linux_abi.specs.ClockId.{clock_number, clock_of};

/// The clocks that can be read. All of them give the machine's one clock.
#[derive(Clone, Copy)]
pub enum ClockId {
    /// CLOCK_REALTIME.
    Realtime,
    /// CLOCK_MONOTONIC.
    Monotonic,
    /// CLOCK_MONOTONIC_RAW.
    MonotonicRaw,
    /// CLOCK_REALTIME_COARSE.
    RealtimeCoarse,
    /// CLOCK_MONOTONIC_COARSE.
    MonotonicCoarse,
    /// CLOCK_BOOTTIME.
    Boottime,
}

impl ClockId {
    /// The clock of a number, and None exactly where none that can be read has it.
    #[tactic(auto, unfolding(crate::specs::ClockId::clock_of))]
    pub fn new(number: u64) -> Option<ClockId>
        ensures value { result ≡ clock_of number }
        ensures some { IfSome result (λ clock. clock_number clock ≡ number) }
    {
        match number {
            0 => Some(ClockId::Realtime),
            1 => Some(ClockId::Monotonic),
            4 => Some(ClockId::MonotonicRaw),
            5 => Some(ClockId::RealtimeCoarse),
            6 => Some(ClockId::MonotonicCoarse),
            7 => Some(ClockId::Boottime),
            _ => None,
        }
    }

    /// The clock's number (clock_gettime(2)).
    #[tactic(auto, unfolding(crate::specs::ClockId::clock_of))]
    pub fn number(self) -> u64
        ensures value { result ≡ clock_number self }
        ensures back { clock_of result ≡ Some self }
    {
        match self {
            ClockId::Realtime => 0,
            ClockId::Monotonic => 1,
            ClockId::MonotonicRaw => 4,
            ClockId::RealtimeCoarse => 5,
            ClockId::MonotonicCoarse => 6,
            ClockId::Boottime => 7,
        }
    }
}
