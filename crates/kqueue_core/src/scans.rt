//! What a scan reports of interests, and what it leaves of them.
ghost use Rattle.std.specs.Prelude.{◌≡◌, ◌+◌, ◌≤◌, ◌<◌, ◌&&◌, ◌++◌, [], length, slice_set, slice_index_or, take, drop, map, Some, None, if◌then◌else◌, vec_len, vec_capacity};
ghost use Rattle.kqueue_core.specs.declared.knotes.Watch.{Watch as TheWatch};
ghost use Rattle.kqueue_core.specs.Watches.{told_watch};
ghost use Rattle.kqueue_core.specs.Reports.{knote_bits, watch_bits, is_reported, event_of, without_first, reports, scanned, pick_of};

use crate::knotes::{Event, Filter, Ident, Knote, Watch};
use crate::ready::Readiness;

// The bits of a knote.
fn knote_bits<R: Readiness>(ready: &R, file: u32, filter: Filter, knote: Option<Knote>) -> u32
    ensures { result ≡ knote_bits (R.told ready.now) file filter knote }
{
    match knote {
        Some(knote) => ready.bits(file, filter) & linux_abi::epoll::wanted(knote.asked),
        None => 0,
    }
}

// The bits of an interest.
fn watch_bits<R: Readiness>(ready: &R, watch: &Watch) -> u32
    ensures { result ≡ watch_bits (R.told ready.now) watch.now }
{
    knote_bits(ready, watch.file, Filter::Read, watch.read)
        | knote_bits(ready, watch.file, Filter::Write, watch.write)
}

// The bits of an interest that is reported; `None` exactly where it isn't.
pub(crate) fn reported_bits<R: Readiness>(ready: &R, watch: &Watch) -> Option<u32>
    ensures { result ≡ (if is_reported (R.told ready.now) watch.now then Some (watch_bits (R.told ready.now) watch.now) else None) }
{
    if !watch.is_watched() {
        return None;
    }
    match watch_bits(ready, watch) {
        0 => None,
        bits => Some(bits),
    }
}

// The bits of an interest, where it may be reported and is.
fn next_bits<R: Readiness>(ready: &R, watch: &Watch, may: bool) -> Option<u32>
    ensures { result ≡ (if may && is_reported (R.told ready.now) watch.now then Some (watch_bits (R.told ready.now) watch.now) else None) }
{
    if may {
        reported_bits(ready, watch)
    } else {
        None
    }
}

// Puts the interest at a place to an earlier one, if it isn't there.
fn move_up(watches: &mut [Watch], from: usize, to: usize)
    requires within { from < length watches.old }
    requires up { to ≤ from }
    ensures { (w : TheWatch) → watches.new ≡ slice_set watches.old to (slice_index_or watches.old from w) }
{
    if to < from {
        watches[to] = watches[from];
    }
}

// Puts the events of the first `most` interests that are reported into `into` and what a report leaves of these into
// `reported`, moves the others to the front in their order, and answers how many these are.
fn sort_out<R: Readiness>(
    watches: &mut [Watch],
    reported: &mut Vec<Watch>,
    most: usize,
    ready: &R,
    into: &mut [Event],
) -> usize
    requires into { most ≤ length into.old }
    requires empty { reported.old.items ≡ [] }
    requires room { length watches.old ≤ vec_capacity reported.old }
    ensures others { take result watches.new ≡ without_first (is_reported (R.told ready.now)) most watches.old }
    ensures within { result + vec_len reported.new ≡ length watches.old }
    ensures reported { reported.new.items ≡ map told_watch (reports (R.told ready.now) most watches.old) }
    ensures events { into.new ≡ map (event_of (R.told ready.now)) (reports (R.told ready.now) most watches.old) ++ drop (vec_len reported.new) into.old }
    ensures capacity { vec_capacity reported.new ≡ vec_capacity reported.old }
{
    let mut kept = 0;
    for at in 0..watches.len() {
        match next_bits(ready, &watches[at], reported.len() < most) {
            Some(bits) => {
                into[reported.len()] = Event {
                    bits,
                    user: watches[at].user(),
                };
                reported.push_reserved(watches[at].told());
            }
            None => {
                move_up(watches, at, kept);
                kept += 1;
            }
        }
    }
    kept
}

// Reports the first `most` interests that are reported, or all where there are fewer: answers how many, puts their events into
// `into`, and puts what a report leaves of them behind the others. `reported` has to have room for them.
pub(crate) fn report<R: Readiness>(
    watches: &mut Vec<Watch>,
    reported: &mut Vec<Watch>,
    most: u32,
    ready: &R,
    into: &mut [Event],
) -> u32
    requires into { most ≤ length into.old }
    requires room { vec_len watches.old ≤ vec_capacity reported.old }
    ensures count { result ≡ length (reports (R.told ready.now) most watches.old.items) }
    ensures watches { watches.new.items ≡ scanned (R.told ready.now) most watches.old.items }
    ensures events { into.new ≡ map (event_of (R.told ready.now)) (reports (R.told ready.now) most watches.old.items) ++ drop result into.old }
    ensures capacity { vec_capacity watches.old ≤ vec_capacity watches.new }
    ensures reported { vec_capacity reported.new ≡ vec_capacity reported.old }
{
    reported.clear();
    let kept = sort_out(watches, reported, most as usize, ready, into);
    watches.truncate(kept);
    match watches.extend_from_slice(reported) {
        Ok(()) => reported.len() as u32,
        Err(_) => unreachable!(),
    }
}

// The name of the interest that a scan without a bound reports at a place.
pub(crate) fn pick<R: Readiness>(watches: &[Watch], at: u32, ready: &R) -> Option<Ident>
    ensures { result ≡ pick_of (R.told ready.now) at watches.now }
{
    let mut left = at;
    for watch in watches {
        if reported_bits(ready, watch).is_some() {
            if left == 0 {
                return Some(watch.ident());
            }
            left -= 1;
        }
    }
    None
}
