//! The interests of an epoll, and how they change (epoll_ctl(2)).
ghost use Rattle.std.specs.Option.{option_map};
ghost use Rattle.std.specs.Prelude.{IfOk, OnErr, OnOk, slice_set, ◌≡◌};
ghost use Rattle.lx_machine.specs.Calls.{first_refusal, low_argument};
ghost use Rattle.lx_machine.specs.Descriptors.{files_outcome};
ghost use Rattle.lx_machine.specs.EpollCtl.{asked_of, control, control_of, control_refusal, controlled, data_of, descriptor_refusals, epoll_ctl, epoll_ctl_pieces, epoll_ctl_refusals, epoll_ctl_stage, epoll_of, file_of, interest_refusals, is_add, new_interest, stands_in};
ghost use Rattle.lx_machine.specs.Interests.{stands};
ghost use Rattle.lx_machine.specs.Lists.{at_place};

use crate::epoll::{EVENT, epoll_number, interests_of, kind_of, told};
use byteorder::{ByteOrder, LittleEndian};
use linux_abi::LinuxErrno;
use linux_abi::epoll::{EpollOperation, is_exclusive};
use lx_files::descriptors::named;
use lx_files::lists::place_at;
use lx_machine::buffer::NoMemory;
use lx_machine::calls::{LxCall, Pieces, Stage, refused_if};
use lx_machine::files::{Files, Interest, Interests, is_named};
use std::alloc::Global;

/// The most interests of an epoll.
const INTERESTS: usize = 512;

/// What epoll_ctl(2) is to do.
fn control_of(call: &LxCall) -> Option<EpollOperation>
    ensures { result ≡ control_of call.now }
{
    EpollOperation::new(u64::from(call.low_argument(1)))
}

/// What refuses epoll_ctl(2) at its entry.
pub fn epoll_ctl_refusal(call: &LxCall) -> Option<LinuxErrno>
    ensures { result ≡ first_refusal (epoll_ctl_refusals call.now) }
{
    refused_if(control_of(call).is_none(), LinuxErrno::EINVAL)
}

/// The pieces that epoll_ctl(2) fetches: the event, for an add and a change.
pub fn epoll_ctl_pieces(alloc: Global, call: &LxCall) -> Result<Pieces, NoMemory>
    ensures { IfOk result (λ pieces. pieces ≡ epoll_ctl_pieces call.now) }
{
    match control_of(call) {
        Some(EpollOperation::Add) => Pieces::one(alloc, call.arguments[3], EVENT),
        Some(EpollOperation::Change) => Pieces::one(alloc, call.arguments[3], EVENT),
        Some(EpollOperation::Delete) => Ok(Pieces::none(alloc)),
        None => Ok(Pieces::none(alloc)),
    }
}

/// What epoll_ctl(2) does next.
pub fn epoll_ctl_stage(call: &LxCall) -> Stage
    ensures { result ≡ epoll_ctl_stage call.now }
{
    match call.pieces.as_slice().first() {
        Some(p) => Stage::Fetch(*p),
        None => Stage::Effect,
    }
}

/// The epoll that a descriptor names.
fn epoll_of(files: &Files, fd: u32) -> Option<u32>
    ensures { result ≡ epoll_of files.now fd }
{
    epoll_number(kind_of(files, fd)?)
}

/// The open file of a descriptor.
fn file_of(files: &Files, fd: u32) -> Option<u32>
    ensures { result ≡ file_of files.now fd }
{
    match place_at(&files.descriptors, fd) {
        Some(d) => Some(d.file),
        None => None,
    }
}

/// The bits of the event that was fetched.
fn asked_of(call: &LxCall) -> u32
    ensures { result ≡ asked_of call.now }
{
    let bytes = call.bytes.as_slice();
    if bytes.len() < EVENT as usize {
        return 0;
    }
    LittleEndian::read_u32(bytes)
}

/// The data of the event that was fetched.
fn data_of(call: &LxCall) -> u64
    ensures { result ≡ data_of call.now }
{
    let bytes = call.bytes.as_slice();
    if bytes.len() < EVENT as usize {
        return 0;
    }
    LittleEndian::read_u64(&bytes[8..])
}

/// Whether an interest is to be added.
fn is_add(operation: Option<EpollOperation>) -> bool
    ensures { result ≡ is_add operation }
{
    match operation {
        Some(EpollOperation::Add) => true,
        _ => false,
    }
}

/// Whether the interest of this name stands.
fn stands(interests: &[Interest], file: u32, fd: u32) -> bool
    ensures { result ≡ stands file fd interests.now }
{
    interests.iter().any(|i| is_named(file, fd, *i))
}

/// Whether the interest that the call names stands.
fn stands_in(interests: &[Interest], file: Option<u32>, fd: u32) -> bool
    ensures { result ≡ stands_in interests.now file fd }
{
    match file {
        Some(file) => stands(interests, file, fd),
        None => false,
    }
}

/// What refuses a change of the descriptors.
fn descriptor_refusal(files: &Files, call: &LxCall) -> Option<LinuxErrno>
    ensures { result ≡ first_refusal (descriptor_refusals files.now call.now) }
{
    let epoll = call.low_argument(0);
    let fd = call.low_argument(2);
    if named(files, call, 0).is_none() || named(files, call, 2).is_none() {
        return Some(LinuxErrno::EBADF);
    }
    if epoll_of(files, epoll).is_none() || epoll == fd {
        return Some(LinuxErrno::EINVAL);
    }
    refused_if(epoll_of(files, fd).is_some(), LinuxErrno::ELOOP)
}

/// What refuses a change of these interests.
fn interest_refusal(interests: &[Interest], file: Option<u32>, call: &LxCall) -> Option<LinuxErrno>
    ensures { result ≡ first_refusal (interest_refusals interests.now file call.now) }
{
    let adds = is_add(control_of(call));
    let stood = stands_in(interests, file, call.low_argument(2));
    if is_exclusive(asked_of(call)) {
        return Some(LinuxErrno::EINVAL);
    }
    if adds && stood {
        return Some(LinuxErrno::EEXIST);
    }
    if adds && interests.len() >= INTERESTS {
        return Some(LinuxErrno::ENOSPC);
    }
    refused_if(!adds && !stood, LinuxErrno::ENOENT)
}

/// What refuses the change.
fn control_refusal(files: &Files, call: &LxCall) -> Option<LinuxErrno>
    ensures { result ≡ control_refusal files.now call.now }
{
    match descriptor_refusal(files, call) {
        Some(e) => Some(e),
        None => {
            let interests = interests_of(files, epoll_of(files, call.low_argument(0)));
            interest_refusal(interests, file_of(files, call.low_argument(2)), call)
        }
    }
}

/// The interest that an add or a change makes.
fn new_interest(files: &Files, call: &LxCall, file: u32) -> Interest
    ensures { result ≡ new_interest files.now call.now file }
{
    let asked = asked_of(call);
    Interest {
        descriptor: call.low_argument(2),
        file,
        asked,
        data: data_of(call),
        armed: told(files, file, asked) != 0,
        enabled: true,
    }
}

/// Adds, changes or removes an interest of these.
fn control_interests(
    interests: &mut Interests,
    operation: Option<EpollOperation>,
    new: Interest,
) -> Result<(), NoMemory>
    ensures ok { OnOk result (interests.new ≡ controlled operation new interests.old) }
    ensures err { OnErr result (interests.new ≡ interests.old) }
{
    match operation {
        Some(EpollOperation::Add) => return interests.add(new),
        Some(EpollOperation::Change) => interests.change(new),
        Some(EpollOperation::Delete) => interests.remove(new.file, new.descriptor),
        None => {}
    }
    Ok(())
}

/// Adds, changes or removes an interest of the epoll of a place, if there is one.
fn control_place(
    place: &mut Option<Interests>,
    operation: Option<EpollOperation>,
    new: Interest,
) -> Result<(), NoMemory>
    ensures ok { OnOk result (place.new ≡ option_map (controlled operation new) place.old) }
    ensures err { OnErr result (place.new ≡ place.old) }
{
    match place {
        Some(interests) => control_interests(interests, operation, new),
        None => Ok(()),
    }
}

/// Adds, changes or removes an interest of an epoll.
#[tactic(auto, using(std::proofs::lemmas::List::set_past))]
fn control_at(
    epolls: &mut [Option<Interests>],
    number: u32,
    operation: Option<EpollOperation>,
    new: Interest,
) -> Result<(), NoMemory>
    ensures ok { OnOk result (epolls.new ≡ slice_set epolls.old number (option_map (controlled operation new) (at_place epolls.old number))) }
    ensures err { OnErr result (epolls.new ≡ epolls.old) }
{
    let at = number as usize;
    if at < epolls.len() {
        control_place(&mut epolls[at], operation, new)
    } else {
        Ok(())
    }
}

/// The change that the call asks for.
fn control(files: &mut Files, call: &LxCall) -> Result<(), NoMemory>
    ensures ok { OnOk result (files.new ≡ control files.old call.now (epoll_of files.old (low_argument call.now 0)) (file_of files.old (low_argument call.now 2))) }
    ensures err { OnErr result (files.new ≡ files.old) }
{
    let number = epoll_of(files, call.low_argument(0));
    let file = file_of(files, call.low_argument(2));
    match (number, file) {
        (Some(number), Some(file)) => {
            let new = new_interest(files, call, file);
            control_at(&mut files.epolls, number, control_of(call), new)
        }
        _ => Ok(()),
    }
}

/// Adds, changes or removes an interest of an epoll (epoll_ctl(2)). Where memory is wanting, nothing changes.
pub fn epoll_ctl(files: &mut Files, call: &mut LxCall) -> Result<(), NoMemory>
    ensures ok { OnOk result (files_outcome files.new call.new ≡ epoll_ctl files.old call.old) }
    ensures err { OnErr result ((files.new ≡ files.old) × (call.new ≡ call.old)) }
{
    match control_refusal(files, call) {
        Some(e) => call.refuse(e),
        None => {
            control(files, call)?;
            call.answer(0);
        }
    }
    Ok(())
}
