// Loops over the waiters and notes of a line. Each looks at each of them once.

ghost use Rattle.std.specs.Prelude.{◌≡◌, ◌+◌, ◌≤◌, ◌&&◌, nat_lt, [], ◌++◌, length, map, take, option_map, vec_len, vec_capacity};
ghost use Rattle.umtx_queue.specs.declared.waiter.Note.TheVariants as note;
ghost use Rattle.umtx_queue.specs.Lists.{first_of, without_first, tally};
ghost use Rattle.umtx_queue.specs.Waiters.{who_at, is_plain_at, is_queued, matches, rekeyed, without_slot};
ghost use Rattle.umtx_queue.specs.Notes.{told};
ghost use Rattle.umtx_queue.specs.Kept.{note_at, noted_as, notes_apart, notes_elsewhere};

use crate::line::SLOTS;
use crate::waiter::{Looked, Note, Noted, Waiter};
use arrayvec::ArrayVec;

// Whether the slot and place is among the waiters.
pub(crate) fn waits(waiters: &[Waiter], slot: u8, place: u8) -> bool
    ensures { result ≡ is_queued (who_at slot place) waiters.now }
{
    waiters.iter().any(|waiter| waiter.is_at(slot, place))
}

// What the notes tell the slot and place.
pub(crate) fn told_of(notes: &[Noted], slot: u8, place: u8) -> Option<Looked>
    ensures { result ≡ option_map told (note_at (who_at slot place) notes.now) }
{
    for noted in notes {
        if noted.is_at(slot, place) {
            return Some(noted.note.told());
        }
    }
    None
}

// Whether a waiter is picked, of which `left` more are to be.
fn picks(left: u32, passes: bool) -> bool
    ensures { result ≡ (nat_lt 0 left && passes) }
{
    left > 0 && passes
}

// Notes that the first `n` waiters that match are woken, and puts the others in their places. Answers how many they are.
pub(crate) fn wake_first(
    waiters: &mut [Waiter],
    notes: &mut Vec<Noted>,
    key: u64,
    n: u32,
    bits: u32,
) -> usize
    requires room { length waiters.old + vec_len notes.old ≤ vec_capacity notes.old }
    ensures left { take result waiters.new ≡ without_first (matches key bits) n waiters.old }
    ensures notes { notes.new.items ≡ notes.old.items ++ map (noted_as note.Woken) (first_of (matches key bits) n waiters.old) }
    ensures count { length (first_of (matches key bits) n waiters.old) + result ≡ length waiters.old }
    ensures capacity { vec_capacity notes.new ≡ vec_capacity notes.old }
{
    let mut left = n;
    let mut kept = 0;
    for at in 0..waiters.len() {
        let waiter = waiters[at];
        if picks(left, waiter.matches(key, bits)) {
            notes.push_reserved(waiter.noted(Note::Woken));
            left -= 1;
        } else {
            waiters[kept] = waiter;
            kept += 1;
        }
    }
    kept
}

// Notes that the first `n` waiters of plain waits with this key are moved, carries them with their new key, and puts the others in
// their places. Answers how many these are.
pub(crate) fn take_first(
    waiters: &mut [Waiter],
    notes: &mut Vec<Noted>,
    key: u64,
    n: u32,
    to: u64,
    carry: &mut ArrayVec<Waiter, SLOTS>,
) -> usize
    requires room { length waiters.old + vec_len notes.old ≤ vec_capacity notes.old }
    requires few { tally (is_plain_at key) waiters.old ≤ 128 }
    requires empty { carry.old.items ≡ [] }
    ensures left { take result waiters.new ≡ without_first (is_plain_at key) n waiters.old }
    ensures notes { notes.new.items ≡ notes.old.items ++ map (noted_as (note.Moved to)) (first_of (is_plain_at key) n waiters.old) }
    ensures carry { carry.new.items ≡ rekeyed to (first_of (is_plain_at key) n waiters.old) }
    ensures count { length (first_of (is_plain_at key) n waiters.old) + result ≡ length waiters.old }
    ensures capacity { vec_capacity notes.new ≡ vec_capacity notes.old }
{
    let mut left = n;
    let mut kept = 0;
    for at in 0..waiters.len() {
        let waiter = waiters[at];
        if picks(left, waiter.is_plain_at(key)) {
            notes.push_reserved(waiter.noted(Note::Moved { key: to }));
            carry.push(waiter.with_key(to));
            left -= 1;
        } else {
            waiters[kept] = waiter;
            kept += 1;
        }
    }
    kept
}

// Puts waiters behind the others.
pub(crate) fn append(waiters: &mut Vec<Waiter>, more: &[Waiter])
    requires { vec_len waiters.old + length more.now ≤ vec_capacity waiters.old }
    ensures items { waiters.new.items ≡ waiters.old.items ++ more.now }
    ensures capacity { vec_capacity waiters.new ≡ vec_capacity waiters.old }
{
    for waiter in more {
        waiters.push_reserved(*waiter);
    }
}

// Drops the notes of these waiters.
pub(crate) fn drop_notes(notes: &mut Vec<Noted>, waiters: &[Waiter])
    ensures items { notes.new.items ≡ notes_apart waiters.now notes.old.items }
    ensures capacity { vec_capacity notes.new ≡ vec_capacity notes.old }
{
    notes.retain(|noted| !waits(waiters, noted.slot, noted.place));
}

// Drops the notes of a slot.
pub(crate) fn drop_notes_of(notes: &mut Vec<Noted>, slot: u8)
    ensures items { notes.new.items ≡ notes_elsewhere slot notes.old.items }
    ensures capacity { vec_capacity notes.new ≡ vec_capacity notes.old }
{
    notes.retain(|noted| noted.slot != slot);
}

// Drops the waiters of a slot.
pub(crate) fn drop_waiters_of(waiters: &mut Vec<Waiter>, slot: u8)
    ensures items { waiters.new.items ≡ without_slot slot waiters.old.items }
    ensures capacity { vec_capacity waiters.new ≡ vec_capacity waiters.old }
{
    waiters.retain(|waiter| waiter.slot != slot);
}
