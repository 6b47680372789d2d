//! Descriptors, open files, counters and interests (open(2), pipe(7), eventfd(2), epoll(7)), and all of them together.
ghost use Rattle.std.specs.Prelude.{◌≡◌, ◌≤◌, ◌++◌, ◌∷◌, drop, take, length, map, OnOk, OnErr, []};
ghost use Rattle.lx_machine.specs.Lists.{at_place};
ghost use Rattle.lx_machine.specs.Interests.{after_report, armed_for, changed, if_armed, if_reported, in_place_of, is_kind, is_named, is_open_of, is_picked, is_side, reported_once, without_interest, without_those_in};

use crate::buffer::{Bytes, NoMemory, Room};
use crate::label::{LxSide, Pick};
use linux_abi::epoll::{is_edge, is_one_shot};
use std::alloc::Global;
use std::marker::Model;

/// What an open file is. Pipes, counters and epolls have numbers of their own.
#[derive(Clone, Copy)]
pub enum FileKind {
    /// Standard input.
    Input,
    /// Standard output or standard error.
    Console(LxSide),
    /// The read end of a pipe.
    PipeRead(u32),
    /// The write end of a pipe.
    PipeWrite(u32),
    /// An eventfd counter.
    Counter(u32),
    /// An epoll.
    Epoll(u32),
}

/// An open file: what it is, whether it is nonblocking, and how many calls hold it.
#[derive(Clone, Copy)]
pub struct OpenFile {
    pub kind: FileKind,
    pub nonblocking: bool,
    pub holds: u32,
}

/// An open file with its number.
#[derive(Clone, Copy)]
pub struct NumberedFile {
    pub number: u32,
    pub file: OpenFile,
}

/// A descriptor: its open file's number, and its close-on-exec flag.
#[derive(Clone, Copy)]
pub struct Descriptor {
    pub file: u32,
    pub close_on_exec: bool,
}

/// An eventfd counter: its value, and whether a read takes 1 alone (EFD_SEMAPHORE).
#[derive(Clone, Copy)]
pub struct Counter {
    pub value: u64,
    pub semaphore: bool,
}

/// An interest of an epoll: its open file and the descriptor for which it was added, the events that are asked for
/// (EPOLL*), the user's data, whether it is armed (for EPOLLET), and whether it is enabled (for EPOLLONESHOT).
#[derive(Clone, Copy)]
pub struct Interest {
    pub descriptor: u32,
    pub file: u32,
    pub asked: u32,
    pub data: u64,
    pub armed: bool,
    pub enabled: bool,
}

/// The interests of an epoll in their order, which contracts see as a list.
#[derive(Drop)]
pub struct Interests {
    items: Vec<Interest>,
}

impl Model for Interests {
    ghost use Rattle.std.specs.Prelude.{List};
    ghost use Rattle.lx_machine.specs.declared.files.Interest.{Interest};

    ghost Value = { List Interest };

    ghost view = { λ i. i.items.items };
}

impl Interests {
    /// No interests. Takes no memory.
    pub fn none(alloc: Global) -> Interests
        ensures { result ≡ [] }
    {
        Interests {
            items: Vec::new(alloc),
        }
    }

    /// The interests.
    pub fn as_slice(&self) -> &[Interest]
        ensures { result.now ≡ self.now }
    {
        self.items.as_slice()
    }

    /// Puts an interest behind the others (EPOLL_CTL_ADD). Where memory is wanting, nothing changes.
    pub fn add(&mut self, interest: Interest) -> Result<(), NoMemory>
        ensures ok { OnOk result (self.new ≡ self.old ++ interest ∷ []) }
        ensures err { OnErr result (self.new ≡ self.old) }
    {
        self.items.push(interest).map_err(|_| NoMemory)
    }

    /// This interest stands where one of its name stood (EPOLL_CTL_MOD).
    pub fn change(&mut self, new: Interest)
        ensures { self.new ≡ changed new self.old }
    {
        change_from(0, &mut self.items, new);
    }

    /// Lets the interest of this name go (EPOLL_CTL_DEL).
    pub fn remove(&mut self, file: u32, descriptor: u32)
        ensures { self.new ≡ without_interest file descriptor self.old }
    {
        let_go_of(&mut self.items, file, descriptor);
    }

    /// Lets all interests in an open file go, which has ended.
    pub fn remove_file(&mut self, file: u32)
        ensures { self.new ≡ without_those_in file self.old }
    {
        let_go_in(&mut self.items, file);
    }

    /// These interests have been reported.
    pub fn report(&mut self, picks: &[Pick])
        ensures { self.new ≡ after_report picks.now self.old }
    {
        report_from(0, &mut self.items, picks);
    }

    /// Arms the interests whose open file is this.
    pub fn arm(&mut self, kind: FileKind, files: &[Option<OpenFile>])
        ensures { self.new ≡ armed_for kind files.now self.old }
    {
        arm_from(0, &mut self.items, kind, files);
    }
}

/// Whether the interest has this name.
pub fn is_named(file: u32, descriptor: u32, interest: Interest) -> bool
    ensures { result ≡ is_named file descriptor interest }
{
    interest.file == file && interest.descriptor == descriptor
}

/// Lets the interest of this name go.
fn let_go_of(items: &mut Vec<Interest>, file: u32, descriptor: u32)
    ensures { items.new.items ≡ without_interest file descriptor items.old.items }
{
    items.retain(|i| !is_named(file, descriptor, *i));
}

/// Lets the interests in this open file go.
fn let_go_in(items: &mut Vec<Interest>, file: u32)
    ensures { items.new.items ≡ without_those_in file items.old.items }
{
    items.retain(|i| i.file != file);
}

/// This interest, if the other one has its name, and else the other one.
fn in_place_of(new: Interest, interest: Interest) -> Interest
    ensures { result ≡ in_place_of new interest }
{
    if is_named(new.file, new.descriptor, interest) {
        new
    } else {
        interest
    }
}

/// From this place on, this interest stands where one of its name stood.
fn change_from(at: usize, interests: &mut [Interest], new: Interest)
    requires { at ≤ length interests.old }
    ensures { interests.new ≡ take at interests.old ++ map (in_place_of new) (drop at interests.old) }
{
    if at < interests.len() {
        interests[at] = in_place_of(new, interests[at]);
        change_from(at + 1, interests, new);
    }
}

/// An interest that has been reported.
fn reported_once(interest: Interest) -> Interest
    ensures { result ≡ reported_once interest }
{
    Interest {
        descriptor: interest.descriptor,
        file: interest.file,
        asked: interest.asked,
        data: interest.data,
        armed: interest.armed && !is_edge(interest.asked),
        enabled: interest.enabled && !is_one_shot(interest.asked),
    }
}

/// Whether the interest is among those that are picked.
pub fn is_picked(picks: &[Pick], interest: Interest) -> bool
    ensures { result ≡ is_picked picks.now interest }
{
    picks
        .iter()
        .any(|p| is_named(p.file, p.descriptor, interest))
}

/// The interest after these have been reported.
fn if_reported(picks: &[Pick], interest: Interest) -> Interest
    ensures { result ≡ if_reported picks.now interest }
{
    if is_picked(picks, interest) {
        reported_once(interest)
    } else {
        interest
    }
}

/// From this place on, these interests have been reported.
fn report_from(at: usize, interests: &mut [Interest], picks: &[Pick])
    requires { at ≤ length interests.old }
    ensures { interests.new ≡ take at interests.old ++ map (if_reported picks.now) (drop at interests.old) }
{
    if at < interests.len() {
        interests[at] = if_reported(picks, interests[at]);
        report_from(at + 1, interests, picks);
    }
}

/// Whether both are the same side.
fn is_side(a: LxSide, b: LxSide) -> bool
    ensures { result ≡ is_side a b }
{
    matches!(
        (a, b),
        (LxSide::Out, LxSide::Out) | (LxSide::Err, LxSide::Err)
    )
}

/// Whether an open file is exactly this: the input, this console, this end of this pipe, this counter, this epoll.
pub fn is_kind(wanted: FileKind, kind: FileKind) -> bool
    ensures { result ≡ is_kind wanted kind }
{
    match (wanted, kind) {
        (FileKind::Input, FileKind::Input) => true,
        (FileKind::Console(a), FileKind::Console(b)) => is_side(a, b),
        (FileKind::PipeRead(a), FileKind::PipeRead(b)) => a == b,
        (FileKind::PipeWrite(a), FileKind::PipeWrite(b)) => a == b,
        (FileKind::Counter(a), FileKind::Counter(b)) => a == b,
        (FileKind::Epoll(a), FileKind::Epoll(b)) => a == b,
        _ => false,
    }
}

/// Whether the open file of this number is exactly this.
fn is_open_of(kind: FileKind, files: &[Option<OpenFile>], file: u32) -> bool
    ensures { result ≡ is_open_of kind (at_place files.now file) }
{
    match files.get(file as usize) {
        Some(Some(f)) => is_kind(kind, f.kind),
        _ => false,
    }
}

/// The interest, armed where its open file is this.
fn if_armed(kind: FileKind, files: &[Option<OpenFile>], interest: Interest) -> Interest
    ensures { result ≡ if_armed kind files.now interest }
{
    Interest {
        descriptor: interest.descriptor,
        file: interest.file,
        asked: interest.asked,
        data: interest.data,
        armed: interest.armed || is_open_of(kind, files, interest.file),
        enabled: interest.enabled,
    }
}

/// From this place on, arms the interests whose open file is this.
fn arm_from(at: usize, interests: &mut [Interest], kind: FileKind, files: &[Option<OpenFile>])
    requires { at ≤ length interests.old }
    ensures { interests.new ≡ take at interests.old ++ map (if_armed kind files.now) (drop at interests.old) }
{
    if at < interests.len() {
        interests[at] = if_armed(kind, files, interests[at]);
        arm_from(at + 1, interests, kind, files);
    }
}

/// The input of the guest, of which contracts see the bytes that are left.
#[derive(Drop)]
pub struct Input {
    bytes: Vec<u8>,
    at: usize,
}

impl Model for Input {
    ghost use Rattle.std.specs.Prelude.{List, ℕ, ◌≤◌, drop, length};

    ghost Value = { List ℕ };

    ghost view = { λ i. drop i.at i.bytes.items };

    ghost invariant = { λ i. i.at ≤ length i.bytes.items };
}

impl Input {
    /// All of these bytes are left. Takes no memory.
    pub fn from_vec(bytes: Vec<u8>) -> Input
        ensures { result ≡ bytes.items }
    {
        Input { bytes, at: 0 }
    }

    /// The bytes that are left.
    pub fn left(&self) -> &[u8]
        ensures { result.now ≡ self.now }
    {
        &self.bytes[self.at..]
    }

    /// Lets the first bytes go. So many have to be left.
    pub fn drop_first(&mut self, count: usize)
        requires { count ≤ length self.old }
        ensures { self.new ≡ drop count self.old }
    {
        self.at += count;
    }
}

/// How many descriptors there can be.
pub const DESCRIPTORS: usize = 256;

/// How many places there are for open files, and for counters: one for each descriptor, and one for each call's hold.
pub const OPEN_FILES: usize = 384;

/// How many pipes there can be.
pub const PIPES: usize = 64;

/// How many epolls there can be.
pub const EPOLLS: usize = 32;

/// The files of the guest: descriptors, open files, pipes, counters and epolls, each at its number; the input; what the
/// two console rooms hold; and all bytes that were ever put into each.
#[derive(Drop)]
pub struct Files {
    pub descriptors: [Option<Descriptor>; DESCRIPTORS],
    pub files: [Option<OpenFile>; OPEN_FILES],
    pub pipes: [Option<Room>; PIPES],
    pub counters: [Option<Counter>; OPEN_FILES],
    pub epolls: [Option<Interests>; EPOLLS],
    pub input: Input,
    pub out: Room,
    pub err: Room,
    pub put_out: Bytes,
    pub put_err: Bytes,
}
