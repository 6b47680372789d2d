// Laws of the definitions, each the contract of a function that does nothing.

ghost use Rattle.umtx_queue.specs.Laws.{FirstsInPlainWords, LinesStayLines, FindsAfterEachCall, PiLinesStayPiLines, PiFindsAfterEachCall, PiFirstIsHanded};

/// The first waiters that pass a test, and the rest, in the library's words.
pub fn firsts_in_plain_words()
    ensures { FirstsInPlainWords }
{}

/// Each call leaves a line of waiters, with each slot and place once, and the conditions of `insert` and `requeue_in` are what that
/// asks.
pub fn lines_stay_lines()
    ensures { LinesStayLines }
{}

/// What each slot and place finds after each call.
pub fn finds_after_each_call()
    ensures { FindsAfterEachCall }
{}

/// Each call leaves a second line of waiters, with each slot once, and the condition of `pi_insert` is what that asks.
pub fn pi_lines_stay_pi_lines()
    ensures { PiLinesStayPiLines }
{}

/// What each slot finds in the second line after each call.
pub fn pi_finds_after_each_call()
    ensures { PiFindsAfterEachCall }
{}

/// `pi_hand` wakes the waiter that `pi_first` tells of.
pub fn pi_first_is_handed()
    ensures { PiFirstIsHanded }
{}
