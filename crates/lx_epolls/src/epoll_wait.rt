//! Waits for events of an epoll (epoll_wait(2)).
ghost use Rattle.std.specs.Option.{option_map};
ghost use Rattle.std.specs.Prelude.{[], IfErr, IfOk, is_some, length, OnErr, OnOk, slice_set, Some, true, ◌*◌, ◌++◌, ◌<◌, ◌∷◌, ◌≡◌, ◌≤◌};
ghost use Rattle.lx_machine.specs.Calls.{first_refusal, low_argument};
ghost use Rattle.lx_machine.specs.Descriptors.{files_outcome};
ghost use Rattle.lx_machine.specs.Epoll.{are_apart, events, interests_of};
ghost use Rattle.lx_machine.specs.EpollWait.{epoll_can_move, epoll_expired, epoll_held, epoll_held_file, epoll_interrupted, epoll_moved, epoll_pwait_clock, epoll_pwait_held, epoll_pwait_pieces, epoll_pwait_refusals, epoll_pwait_stage, first_due, first_picks, gives_epoll_back, has_timeout, held_epoll, is_no_count, MakesFiles, most_of, pick_of, reports_of, with_timeout};
ghost use Rattle.lx_machine.specs.Interests.{after_report};
ghost use Rattle.lx_machine.specs.Lists.{at_place};
ghost use Rattle.lx_machine.specs.Pieces.{piece};
ghost use Rattle.lx_machine.specs.Transfers.{has_most_holds, is_held_most};

use crate::epoll::{EVENT, epoll_number, events, has_due, interests_of, is_answer, is_due};
use linux_abi::LinuxErrno;
use lx_files::descriptors::named;
use lx_files::files::{give_back, hold_once, numbered_at};
use lx_files::lists::place_at;
use lx_machine::buffer::{Bytes, NoMemory};
use lx_machine::calls::{LxCall, Pieces, Stage, refused_if};
use lx_machine::files::{Files, Interest, Interests, NumberedFile};
use lx_machine::label::{Pick, Picks};
use lx_machine::refusal::LxRefusal;
use std::alloc::Global;

/// The most events that one call reports.
const EVENTS: u32 = 4096;

/// The most events that the call reports.
fn most_of(call: &LxCall) -> u32
    ensures { result ≡ most_of call.now }
{
    call.low_argument(2).min(EVENTS)
}

/// Whether it is no positive number, as a signed one.
fn is_not_positive(most: u32) -> bool
    ensures { result ≡ is_no_count most }
{
    most == 0 || most >= 1 << 31
}

/// What refuses epoll_pwait(2) at its entry.
pub fn epoll_pwait_refusal(call: &LxCall) -> Option<LinuxErrno>
    ensures { result ≡ first_refusal (epoll_pwait_refusals call.now) }
{
    if is_not_positive(call.low_argument(2)) {
        return Some(LinuxErrno::EINVAL);
    }
    refused_if(
        call.arguments[4] != 0 && call.arguments[5] != 8,
        LinuxErrno::EINVAL,
    )
}

/// The pieces that epoll_pwait(2) fetches: its mask, where one is given.
pub fn epoll_pwait_pieces(alloc: Global, call: &LxCall) -> Result<Pieces, NoMemory>
    ensures { IfOk result (λ pieces. pieces ≡ epoll_pwait_pieces call.now) }
{
    if call.arguments[4] == 0 {
        return Ok(Pieces::none(alloc));
    }
    Pieces::one(alloc, call.arguments[4], 8)
}

/// Whether it waits for so long at most.
pub fn has_timeout(call: &LxCall) -> bool
    ensures { result ≡ has_timeout call.now }
{
    call.low_argument(3) < 1 << 31
}

/// The deadline is set, and then events are reported.
fn epoll_pwait_clock(call: &LxCall) -> Stage
    ensures { result ≡ epoll_pwait_clock call.now }
{
    if has_timeout(call) && call.deadline.is_none() {
        Stage::Clock
    } else {
        Stage::Move
    }
}

/// The epoll is held first.
fn epoll_pwait_held(call: &LxCall) -> Stage
    ensures { result ≡ epoll_pwait_held call.now call.now.held }
{
    match call.held {
        Some(_) => epoll_pwait_clock(call),
        None => Stage::Hold,
    }
}

/// What epoll_pwait(2) does next.
pub fn epoll_pwait_stage(call: &LxCall) -> Stage
    ensures { result ≡ epoll_pwait_stage call.now }
{
    match call.pieces.as_slice().first() {
        Some(p) => Stage::Fetch(*p),
        None => epoll_pwait_held(call),
    }
}

/// Sets the deadline from the clock, in microseconds.
pub fn set_timeout(call: &mut LxCall, clock: u64)
    ensures { call.new ≡ with_timeout clock call.old }
{
    let micros = 1000 * u64::from(call.low_argument(3));
    call.deadline = Some(clock.saturating_add(micros));
}

/// The call holds this open file, if it is an epoll. `NoMemory`: one more hold can't be counted.
fn hold_epoll(files: &mut Files, call: &mut LxCall, f: NumberedFile) -> Result<(), NoMemory>
    ensures ok { OnOk result (files_outcome files.new call.new ≡ epoll_held_file files.old call.old (Some f)) }
    ensures err { OnErr result ((files.new ≡ files.old) × (call.new ≡ call.old)) }
    ensures full { OnErr result (is_held_most (Some f.file) ≡ true) }
{
    match epoll_number(f.file.kind) {
        Some(_) => {
            hold_once(files, f)?;
            call.held = Some(f.number);
        }
        None => call.refuse(LinuxErrno::EINVAL),
    }
    Ok(())
}

/// Hold: the call holds the epoll of its first argument, or is refused. `NoMemory`: one more hold can't be counted; then
/// nothing changes.
pub fn epoll_hold(files: &mut Files, call: &mut LxCall) -> Result<(), NoMemory>
    ensures ok { OnOk result (files_outcome files.new call.new ≡ epoll_held files.old call.old) }
    ensures err { OnErr result ((files.new ≡ files.old) × (call.new ≡ call.old)) }
    ensures full { OnErr result (has_most_holds files.old call.old ≡ true) }
{
    let Some(d) = named(files, call, 0) else {
        call.refuse(LinuxErrno::EBADF);
        return Ok(());
    };
    match numbered_at(files, d.file) {
        Some(f) => hold_epoll(files, call, f),
        None => {
            call.refuse(LinuxErrno::EBADF);
            Ok(())
        }
    }
}

/// The call gives its epoll back.
fn let_epoll_go(files: &mut Files, call: &mut LxCall, file: u32)
    ensures { files_outcome files.new call.new ≡ gives_epoll_back files.old call.old file }
{
    give_back(files, file);
    call.held = None;
}

/// The epoll that the call holds.
fn held_epoll(files: &Files, call: &LxCall) -> Option<u32>
    ensures { result ≡ held_epoll files.now call.now }
{
    let file = call.held?;
    let f = place_at(&files.files, file)?;
    epoll_number(f.kind)
}

/// Whether the epoll that the call holds has something to report (epoll_wait(2)).
pub fn epoll_can_move(files: &Files, call: &LxCall) -> bool
    ensures { result ≡ epoll_can_move files.now call.now }
{
    has_due(files, interests_of(files, held_epoll(files, call)))
}

/// The pick that names an interest.
fn pick_of(interest: Interest) -> Pick
    ensures { result ≡ pick_of interest }
{
    Pick {
        file: interest.file,
        descriptor: interest.descriptor,
    }
}

/// Puts the pick of an interest behind these.
fn push_pick(picks: &mut Vec<Pick>, interest: Interest) -> Result<(), NoMemory>
    ensures { OnOk result (picks.new.items ≡ picks.old.items ++ pick_of interest ∷ []) }
{
    picks.push(pick_of(interest)).map_err(|_| NoMemory)
}

/// Puts the first due interests behind these, at most so many.
pub fn push_due(
    picks: &mut Vec<Pick>,
    files: &Files,
    most: u32,
    interests: &[Interest],
) -> Result<(), NoMemory>
    ensures { OnOk result (picks.new.items ≡ picks.old.items ++ first_due files.now most interests.now) }
{
    if most == 0 {
        return Ok(());
    }
    match interests {
        [] => Ok(()),
        [first, rest @ ..] => {
            if !is_due(files, *first) {
                return push_due(picks, files, most, rest);
            }
            push_pick(picks, *first)?;
            push_due(picks, files, most - 1, rest)
        }
    }
}

/// What the epoll that the call holds can report first: its first due interests, as many as the call takes. Where no two
/// interests have the same name, and something is to be reported, these are an answer.
#[tactic(auto, using(crate::proofs::FirstAnswer::moves))]
pub fn first_picks(alloc: Global, files: &Files, call: &LxCall) -> Result<Picks, NoMemory>
    ensures value { IfOk result (λ picks. picks ≡ first_picks files.now call.now) }
    ensures moves { IfOk result (λ picks. are_apart (interests_of files.now (held_epoll files.now call.now)) ≡ true → 0 < low_argument call.now 2 → epoll_can_move files.now call.now ≡ true → is_some (epoll_moved files.now call.now picks) ≡ true) }
{
    let interests = interests_of(files, held_epoll(files, call));
    let mut picks = Vec::new(alloc);
    push_due(&mut picks, files, most_of(call), interests)?;
    Ok(Picks::from_vec(picks))
}

/// The interests of the epoll of a place, if there is one, have been reported.
fn report_place(place: &mut Option<Interests>, picks: &[Pick])
    ensures { place.new ≡ option_map (after_report picks.now) place.old }
{
    if let Some(interests) = place {
        interests.report(picks);
    }
}

/// The interests of an epoll have been reported.
#[tactic(auto, using(std::proofs::lemmas::List::set_past))]
fn report_at(epolls: &mut [Option<Interests>], number: u32, picks: &[Pick])
    ensures { epolls.new ≡ slice_set epolls.old number (option_map (after_report picks.now) (at_place epolls.old number)) }
{
    let at = number as usize;
    if at < epolls.len() {
        report_place(&mut epolls[at], picks);
    }
}

/// What an answer stores: where, and the events.
#[derive(Drop)]
struct Report {
    pieces: Pieces,
    bytes: Bytes,
}

/// What the call stores where the epoll reports these.
fn report_parts(
    alloc: Global,
    files: &Files,
    at: u64,
    interests: &[Interest],
    picks: &[Pick],
) -> Result<Report, NoMemory>
    requires { length picks.now ≤ 4096 }
    ensures pieces { IfOk result (λ s. s.pieces ≡ piece at (16 * length picks.now) ∷ []) }
    ensures bytes { IfOk result (λ s. s.bytes ≡ events files.now interests.now picks.now) }
{
    let pieces = Pieces::one(alloc, at, EVENT * picks.len() as u64)?;
    let bytes = events(alloc, files, interests, picks)?;
    Ok(Report { pieces, bytes })
}

/// The epoll of this number reports these, where they are an answer.
fn report_of(
    alloc: Global,
    files: &mut Files,
    call: &mut LxCall,
    picks: &[Pick],
    file: u32,
    number: u32,
) -> Result<(), LxRefusal>
    ensures { MakesFiles (reports_of files.old call.old picks.now file number) files.old call.old files.new call.new result }
{
    let Some(Some(interests)) = files.epolls.get(number as usize) else {
        return Err(LxRefusal::NoStep);
    };
    if !is_answer(files, interests.as_slice(), most_of(call) as usize, picks) {
        return Err(LxRefusal::NoStep);
    }
    let parts = report_parts(alloc, files, call.arguments[1], interests.as_slice(), picks)?;
    report_at(&mut files.epolls, number, picks);
    call.answer_with(picks.len() as u64, parts.pieces, parts.bytes);
    let_epoll_go(files, call, file);
    Ok(())
}

/// Move: the epoll that the call holds reports these interests (epoll_wait(2)). Not enabled: they are no answer. Then, and
/// where memory is wanting, nothing changes.
pub fn epoll_move(
    alloc: Global,
    files: &mut Files,
    call: &mut LxCall,
    picks: &[Pick],
) -> Result<(), LxRefusal>
    ensures { MakesFiles (epoll_moved files.old call.old picks.now) files.old call.old files.new call.new result }
{
    let Some(file) = call.held else {
        return Err(LxRefusal::NoStep);
    };
    match held_epoll(files, call) {
        Some(number) => report_of(alloc, files, call, picks, file, number),
        None => Err(LxRefusal::NoStep),
    }
}

/// Expire: the wait ends by its deadline, and the call answers 0. Not enabled: it holds no epoll.
pub fn epoll_expire(files: &mut Files, call: &mut LxCall) -> Result<(), LxRefusal>
    ensures makes { MakesFiles (epoll_expired files.old call.old) files.old call.old files.new call.new result }
    ensures no_step { IfErr result (λ e. e ≡ LxRefusal.NoStep) }
{
    let Some(file) = call.held else {
        return Err(LxRefusal::NoStep);
    };
    call.answer(0);
    let_epoll_go(files, call, file);
    Ok(())
}

/// Interrupt: the wait ends by a signal, with EINTR. Not enabled: it holds no epoll.
pub fn epoll_interrupt(files: &mut Files, call: &mut LxCall) -> Result<(), LxRefusal>
    ensures goes { MakesFiles (epoll_interrupted files.old call.old) files.old call.old files.new call.new result }
    ensures no_step { IfErr result (λ e. e ≡ LxRefusal.NoStep) }
{
    let Some(file) = call.held else {
        return Err(LxRefusal::NoStep);
    };
    call.refuse(LinuxErrno::EINTR);
    let_epoll_go(files, call, file);
    Ok(())
}
