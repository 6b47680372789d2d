//! Laws of the Linux machine: what holds of each of its steps, and of its runs. Each law is the contract of a function that
//! does nothing. The laws are stated in `specs/`; a step and a run, `LStep` and `LRun`, are those of `lx_machine`.
#![tactic(auto)]

ghost use Rattle.lx_laws.specs.Clock.{ClockNeverFalls, ClockNeverFallsInARun};
ghost use Rattle.lx_laws.specs.Consoles.{ConsolesAccountFor, ConsolesAccountFromTheStart};
ghost use Rattle.lx_laws.specs.Interests.{InterestsApart};
ghost use Rattle.lx_laws.specs.Kept.{HoldsAlways, HoldsAtStart, IsKept};
ghost use Rattle.lx_laws.specs.Tids.{TidsDiffer};
ghost use Rattle.lx_laws.specs.Locks.{OnlyPiLockWaits, OnlyTheGivenLeave};
ghost use Rattle.lx_laws.specs.Waiters.{OnlyItsOwnQueues, OnlyQueueQueues, OnlyTheReleasedResume, ResumeAnswers, ResumedWaitsNoMore, ResumesOnce, TheReleasedMayResume};

/// The clock never falls (clock_gettime(2), CLOCK_MONOTONIC): neither by a step nor over a run.
pub fn clock_never_falls()
    ensures step { ClockNeverFalls }
    ensures run { ClockNeverFallsInARun }
{}

/// The bytes that were ever put into a console room are those that Drain took from it and those that it still holds, in their
/// order: over a run from any state for which bytes that were taken before account, and over a run from the start.
pub fn consoles_account_for_their_bytes()
    ensures run { ConsolesAccountFor }
    ensures from_the_start { ConsolesAccountFromTheStart }
{}

/// No two interests of an epoll have the same name, the open file and the descriptor for which they were added (epoll_ctl(2)):
/// so it is as a program starts, each step keeps it, and so it is after each run from the start.
pub fn interests_have_different_names()
    ensures start { HoldsAtStart InterestsApart }
    ensures step { IsKept InterestsApart }
    ensures run { HoldsAlways InterestsApart }
{}

/// Threads in different places have different tids, and each tid is less than the one that the next thread gets (gettid(2),
/// clone(2)): so it is as a program starts, each step keeps it, and so it is after each run from the start.
pub fn tids_differ()
    ensures start { HoldsAtStart TidsDiffer }
    ensures step { IsKept TidsDiffer }
    ensures run { HoldsAlways TidsDiffer }
{}

/// A place of a thread's wait comes into the futex queue by its own Queue alone (futex(2), futex_waitv(2)): once it has been
/// released, nothing else puts it back, so a waiter is released at most once.
pub fn only_queue_queues()
    ensures place { OnlyQueueQueues }
    ensures thread { OnlyItsOwnQueues }
{}

/// A thread comes to wait for a lock that names its owner by its own PiLock of it alone (futex(2), FUTEX_LOCK_PI), and waits
/// until the lock is given to it, as the first that waits for it, by PiUnlock or by the Mark of an owner that dies, or until
/// its own wait ends by its deadline or a signal.
pub fn only_pi_lock_waits()
    ensures waits { OnlyPiLockWaits }
    ensures given { OnlyTheGivenLeave }
{}

/// A wait resumes exactly if it has been released, or if a place of a wait in many was refused (futex(2), futex_waitv(2)): a
/// plain wait whose thread stands no more in the queue, a wait in many places of which one has queued and stands there no more,
/// and a wait for a lock whose thread waits for none. Its answer is 0, or of many places the least that was released, or
/// else the refusal. After that its call waits no more, so it resumes once.
pub fn the_released_resume_once()
    ensures only { OnlyTheReleasedResume }
    ensures each { TheReleasedMayResume }
    ensures answer { ResumeAnswers }
    ensures ended { ResumedWaitsNoMore }
    ensures once { ResumesOnce }
{}
