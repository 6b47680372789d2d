//! What a queue reports, as bytes of a buffer (epoll_wait(2), kqueue(2)).
ghost use Rattle.std.specs.Prelude.{◌≡◌, ◌≤◌, ◌*◌, ◌/◌, ◌++◌, if◌then◌else◌, length, drop, flat_map};
ghost use Rattle.kqueue_core.specs.Reports.{pick_of};
ghost use Rattle.open_files.specs.PlainParts.{plain_in};
ghost use Rattle.open_files.specs.declared.kinds.FileLook.TheVariants.{Moved, Wait};
ghost use Rattle.bsd_files.specs.Queues.{after_scan, event_bytes, has_report, report_bytes};
ghost use Rattle.open_files.specs.Plain.{readiness};

use byteorder::{ByteOrder, LittleEndian};
use kqueue_core::{Event, Ident, Kqueue};
use open_files::{FileLook, Plain};

/// How many bytes an event has (epoll_wait(2), struct epoll_event).
pub(crate) const EVENT: usize = 16;

/// The most interests of a queue.
pub(crate) const MOST: usize = 512;

// Puts an event to the front of 16 bytes.
fn put_event(event: Event, bytes: &mut [u8])
    requires { length bytes.old ≡ 16 }
    ensures { bytes.new ≡ event_bytes event }
{
    LittleEndian::write_u32(&mut bytes[..4], event.bits);
    LittleEndian::write_u32(&mut bytes[4..8], 0);
    LittleEndian::write_u64(&mut bytes[8..], event.user);
}

// Puts events to the front of the buffer.
fn put_events(events: &[Event], buffer: &mut [u8])
    requires { length events.now * 16 ≤ length buffer.old }
    ensures { buffer.new ≡ flat_map event_bytes events.now ++ drop (length (flat_map event_bytes events.now)) buffer.old }
{
    if let [first, rest @ ..] = events {
        let (front, back) = buffer.split_at_mut(EVENT);
        put_event(*first, front);
        put_events(rest, back);
    }
}

/// The name of the interest that a scan without a bound would report at a place.
pub(crate) fn pick(queue: &Kqueue, plain: &Plain, at: u32) -> Option<Ident>
    ensures { result ≡ pick_of (readiness (plain_in plain.now)) at queue.now.watches }
{
    queue.pick(at, plain)
}

/// Whether a scan would report an interest.
pub(crate) fn has_report(queue: &Kqueue, plain: &Plain) -> bool
    ensures { result ≡ has_report (plain_in plain.now) queue.now }
{
    pick(queue, plain, 0).is_some()
}

/// Reports at most so many interests: their events come to the front of the buffer, and the answer is how many bytes these are.
#[tactic(auto, using(crate::proofs::Reporting::enough_scanned))]
fn report(
    queue: &mut Kqueue,
    plain: &Plain,
    most: u32,
    events: &mut [Event],
    buffer: &mut [u8],
) -> u32
    requires events { 512 ≤ length events.old }
    requires room { most * 16 ≤ length buffer.old }
    ensures count { result ≡ length (report_bytes (plain_in plain.now) most queue.old) }
    ensures buffer { buffer.new ≡ report_bytes (plain_in plain.now) most queue.old ++ drop result buffer.old }
    ensures queue { queue.new ≡ after_scan (plain_in plain.now) most queue.old }
    ensures events { length events.new ≡ length events.old }
{
    let most = (most as usize).min(queue.count());
    let count = queue.scan(most as u32, plain, events) as usize;
    put_events(&events[..count], buffer);
    (count * EVENT) as u32
}

/// Looks at a queue: it waits where a scan would report nothing, and else reports as many interests as there is room for in so many
/// bytes.
pub(crate) fn look_at_queue(
    queue: &mut Kqueue,
    plain: &Plain,
    len: u32,
    events: &mut [Event],
    buffer: &mut [u8],
) -> FileLook
    requires events { 512 ≤ length events.old }
    requires room { len ≤ length buffer.old }
    ensures answer { result ≡ (if has_report (plain_in plain.now) queue.old then Moved (length (report_bytes (plain_in plain.now) (len / 16) queue.old)) else Wait) }
    ensures buffer { buffer.new ≡ (if has_report (plain_in plain.now) queue.old then report_bytes (plain_in plain.now) (len / 16) queue.old ++ drop (length (report_bytes (plain_in plain.now) (len / 16) queue.old)) buffer.old else buffer.old) }
    ensures queue { queue.new ≡ (if has_report (plain_in plain.now) queue.old then after_scan (plain_in plain.now) (len / 16) queue.old else queue.old) }
    ensures events { length events.new ≡ length events.old }
{
    if !has_report(queue, plain) {
        return FileLook::Wait;
    }
    FileLook::Moved(report(queue, plain, len / 16, events, buffer))
}
