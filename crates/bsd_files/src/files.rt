//! All files, and what the kernel's calls do with them.
ghost use Rattle.std.specs.Prelude.{◌≡◌, ◌≤◌, ◌<◌, ◌+◌, ◌^◌, ◌*◌, ◌++◌, ◌==◌, ◌||◌, [], true, false, not, nat_lt, count_by, is_none, is_some, length, drop, take, sum_by, Some, None, Ok, Err, IfOk, IfSome, IsSome, MatchOption, if◌then◌else◌};
ghost use Rattle.std.specs.Borrow.{sem};
ghost use Rattle.kqueue_core.specs.declared.knotes.Filter.{Filter as TheFilter};
ghost use Rattle.kqueue_core.specs.Reports.{pick_of};
ghost use Rattle.lx_machine.specs.Descriptors.{lowest_from};
ghost use Rattle.lx_machine.specs.Files.{closed, descriptor, given_back, with_descriptor};
ghost use Rattle.lx_machine.specs.Interests.{drained_side, side_holds};
ghost use Rattle.lx_machine.specs.Lists.{at_place, first_free};
ghost use Rattle.lx_machine.specs.Start.{first_files};
ghost use Rattle.bsd_files.specs.Calls as calls;
ghost use Rattle.open_files.specs.Kinds.{is_wait, kind_out, side_out};
ghost use Rattle.bsd_files.specs.FileLending.{LendsFileQueue};
ghost use Rattle.bsd_files.specs.Look.{looked};
ghost use Rattle.bsd_files.specs.State.{first_state, is_awaited, is_in_flux, queue_at};
ghost use Rattle.open_files.specs.Making as made;
ghost use Rattle.open_files.specs.Named.{AllNamed, holds_in};
ghost use Rattle.open_files.specs.Plain.{named_by, plain_of, readiness};
ghost use Rattle.open_files.specs.PlainParts.{plain_in};

use crate::closed::Closed;
use crate::ends::{close_descriptor, give_back};
use crate::looks::{bytes_left, look_at_read, look_at_write, plain_answer};
use crate::making::queue_numbers;
use crate::queues::Queues;
use crate::reports::{MOST, has_report, look_at_queue, pick};
use bsd_abi::BsdErrno;
use kqueue_core::{Event, Filter, Ident, Kqueue, Readiness};
use open_files::numbers::{count_free, next_free, place_at, set_place};
use open_files::{Descriptor, File, FileCall, FileLook, NoMemory, Plain, Side, making};
use std::alloc::Global;
use std::marker::Model;

/// The files of the kernel's model. Contracts see them as a `FilesState`: the Linux machine's files but for the epolls, and the
/// queues, each at its number. Only `make` takes memory, which is touched as it is used. What is big lies behind pointers, so that
/// they are cheap to move.
#[derive(Drop)]
pub struct Files {
    plain: Box<Plain>,
    queues: Queues,
    // The events of a look at a queue, until they are bytes.
    events: Vec<Event>,
}

impl Model for Files {
    ghost use Rattle.bsd_files.specs.State.{FilesState};

    ghost Value = { FilesState };

    ghost use Rattle.bsd_files.specs.StateParts.{state_in, IsSound};

    ghost view = { state_in };

    ghost invariant = { IsSound };
}

// The files without the queues at the start, behind a pointer.
fn first_plain(alloc: Global, input: Vec<u8>) -> Result<Box<Plain>, NoMemory>
    ensures { IfOk result (λ plain. plain_in plain.value ≡ plain_of (first_files input.items)) }
{
    let plain = Plain::make(alloc, input)?;
    match Box::new(alloc, plain) {
        Ok(boxed) => Ok(boxed),
        Err(_) => Err(NoMemory),
    }
}

impl Files {
    /// The files at the start: the descriptors 0, 1 and 2 are open, of the input, which has these bytes, and of the two console
    /// rooms. No other call takes memory. `NoMemory` where there is none for them.
    pub fn make(alloc: Global, input: Vec<u8>) -> Result<Files, NoMemory>
        ensures { IfOk result (λ files. files ≡ first_state input.items) }
    {
        let plain = first_plain(alloc, input)?;
        let queues = Queues::make(alloc)?;
        let Ok(events) = vec![in alloc; Event { bits: 0, user: 0 }; MOST] else {
            return Err(NoMemory);
        };
        Ok(Files {
            plain,
            queues,
            events,
        })
    }

    // ---- descriptors

    /// The open file that a descriptor names. EBADF exactly where the descriptor isn't open.
    pub fn lookup(&self, fd: u32) -> Result<u32, BsdErrno>
        ensures { MatchOption (named_by self.now.plain fd) (result ≡ Err BsdErrno.EBADF) (λ file. result ≡ Ok file) }
    {
        match place_at(&self.plain.descriptors, fd) {
            Some(descriptor) => Ok(descriptor.file()),
            None => Err(BsdErrno::EBADF),
        }
    }

    /// Gives the open file the lowest free descriptor from `least` on, with its close flag clear, and answers it. EMFILE exactly
    /// where none from `least` to 255 is free; then nothing changes. The open file has to live (dup(2), open(2)).
    pub fn install(&mut self, file: u32, least: u32) -> Result<u32, BsdErrno>
        requires { IsSome (at_place self.old.plain.files file) }
        ensures { MatchOption (lowest_from self.old.plain least)
            ((result ≡ Err BsdErrno.EMFILE) × (self.new ≡ self.old))
            (λ fd. (result ≡ Ok fd) × (self.new ≡ calls.with_plain self.old (with_descriptor self.old.plain fd (descriptor file false)))) }
    {
        match next_free(&self.plain.descriptors, least) {
            Some(fd) => {
                let descriptor = Descriptor::new(file, false);
                set_place(&mut self.plain.descriptors, fd, Some(descriptor));
                Ok(fd)
            }
            None => Err(BsdErrno::EMFILE),
        }
    }

    /// How many descriptors are free.
    pub fn free_numbers(&self) -> u32
        ensures { result ≡ count_by is_none self.now.plain.descriptors }
    {
        count_free(&self.plain.descriptors) as u32
    }

    /// Whether the descriptor closes on exec. It has to be open (fcntl(2), FD_CLOEXEC).
    pub fn close_flag(&self, fd: u32) -> bool
        requires { IsSome (at_place self.now.plain.descriptors fd) }
        ensures { IfSome (at_place self.now.plain.descriptors fd) (λ d. result ≡ d.close_on_exec) }
    {
        match place_at(&self.plain.descriptors, fd) {
            Some(descriptor) => descriptor.closes_on_exec(),
            None => unreachable!(),
        }
    }

    /// Sets whether the descriptor closes on exec, if it is open.
    pub fn set_close_flag(&mut self, fd: u32, on: bool)
        ensures { self.new ≡ calls.with_plain self.old (calls.set_flag self.old.plain fd on) }
    {
        if let Some(descriptor) = place_at(&self.plain.descriptors, fd) {
            let changed = Descriptor::new(descriptor.file(), on);
            set_place(&mut self.plain.descriptors, fd, Some(changed));
        }
    }

    /// Closes a descriptor: its open file ends where nothing names it any more, and then its knotes are gone, and those of the
    /// other end of a pipe active (close(2)). EBADF exactly where the descriptor isn't open, and else `Wait` exactly where a flux
    /// is on it or in its queue; then nothing changes.
    pub fn close(&mut self, fd: u32) -> Result<Closed, BsdErrno>
        ensures answer { result ≡ calls.close_answer self.old fd }
        ensures files { self.new ≡ calls.after_close self.old fd }
    {
        if place_at(&self.plain.descriptors, fd).is_none() {
            return Err(BsdErrno::EBADF);
        }
        if self.close_waits(fd) {
            return Ok(Closed::Wait);
        }
        close_descriptor(&mut self.plain, &mut self.queues, fd);
        Ok(Closed::Done)
    }

    /// Whether `close` of the descriptor would answer `Wait`.
    pub fn close_waits(&self, fd: u32) -> bool
        ensures { result ≡ is_awaited self.now fd }
    {
        match place_at(&self.plain.descriptors, fd) {
            Some(descriptor) => { self.queues.in_flux_on(fd) || self.in_flux(descriptor.file()) }
            None => false,
        }
    }

    // ---- pipes, queues and counters

    /// Makes a pipe, and answers the open files of its read end and its write end, which live until nothing names them any more
    /// (pipe(2)). ENFILE exactly where 64 pipes live or fewer than two places for open files are free; then nothing changes. Where
    /// two descriptors are free and no open file waits for its first, it is exactly where 64 pipes live.
    pub fn make_pipe(&mut self) -> Result<(u32, u32), BsdErrno>
        ensures made { MatchOption (made.pipe_numbers self.old.plain)
            ((result ≡ Err BsdErrno.ENFILE) × (self.new ≡ self.old))
            (λ at. (result ≡ Ok (at.read_file, at.write_file)) × (self.new ≡ calls.with_plain self.old (made.with_pipe_at self.old.plain at))) }
        ensures room { AllNamed self.old.plain → 2 ≤ count_by is_none self.old.plain.descriptors → is_some (made.pipe_numbers self.old.plain) ≡ is_some (first_free self.old.plain.pipes) }
    {
        match making::pipe_numbers(&self.plain) {
            Some(at) => {
                making::add_pipe(&mut self.plain, at);
                Ok((at.read_file, at.write_file))
            }
            None => Err(BsdErrno::ENFILE),
        }
    }

    /// Makes a queue, and answers its open file (kqueue(2)). ENFILE exactly where 32 queues live or no place for an open file is
    /// free; then nothing changes. Where a descriptor is free and no open file waits for its first, it is exactly where 32 queues live.
    pub fn make_queue(&mut self) -> Result<u32, BsdErrno>
        ensures made { MatchOption (made.numbers_in self.old.plain self.old.queues)
            ((result ≡ Err BsdErrno.ENFILE) × (self.new ≡ self.old))
            (λ at. (result ≡ Ok at.file) × (self.new ≡ calls.with_queue_at self.old at)) }
        ensures room { AllNamed self.old.plain → 1 ≤ count_by is_none self.old.plain.descriptors → is_some (made.numbers_in self.old.plain self.old.queues) ≡ is_some (first_free self.old.queues) }
    {
        match queue_numbers(&self.plain, &self.queues) {
            Some(at) => {
                making::add_file(&mut self.plain, at.file, File::Queue(at.number));
                self.queues.open(at.number);
                Ok(at.file)
            }
            None => Err(BsdErrno::ENFILE),
        }
    }

    /// Whether there is a place for one more counter and its open file. There is one wherever a descriptor is free and no open file
    /// waits for its first.
    pub fn has_counter_room(&self) -> bool
        ensures room { result ≡ is_some (made.numbers_in self.now.plain self.now.plain.counters) }
        ensures always { AllNamed self.now.plain → 1 ≤ count_by is_none self.now.plain.descriptors → result ≡ true }
    {
        making::counter_numbers(&self.plain).is_some()
    }

    /// Makes a counter of this value, and answers its open file (eventfd(2)). There has to be room for it (`has_counter_room`).
    pub fn make_counter(&mut self, value: u64, semaphore: bool) -> u32
        requires { IsSome (made.numbers_in self.old.plain self.old.plain.counters) }
        ensures { IfSome (made.numbers_in self.old.plain self.old.plain.counters) (λ at. (result ≡ at.file) × (self.new ≡ calls.with_plain self.old (made.with_counter_at self.old.plain at value semaphore))) }
    {
        match making::counter_numbers(&self.plain) {
            Some(at) => {
                making::add_counter(&mut self.plain, at, value, semaphore);
                at.file
            }
            None => unreachable!(),
        }
    }

    // ---- open files

    /// Whether an open file of this number lives.
    pub fn lives(&self, file: u32) -> bool
        ensures { result ≡ is_some (at_place self.now.plain.files file) }
    {
        self.plain.file(file).is_some()
    }

    /// How many holds stand.
    pub fn holds(&self) -> u32
        ensures { result ≡ holds_in self.now.plain }
    {
        self.plain.count_holds()
    }

    /// What the open file is. It has to live.
    pub fn kind(&self, file: u32) -> File
        requires { IsSome (at_place self.now.plain.files file) }
        ensures { IfSome (at_place self.now.plain.files file) (λ f. kind_out result ≡ f.kind) }
    {
        match self.plain.file(file) {
            Some(f) => f.file(),
            None => unreachable!(),
        }
    }

    /// Whether the open file is nonblocking (O_NONBLOCK). It has to live.
    pub fn nonblocking(&self, file: u32) -> bool
        requires { IsSome (at_place self.now.plain.files file) }
        ensures { IfSome (at_place self.now.plain.files file) (λ f. result ≡ f.nonblocking) }
    {
        match self.plain.file(file) {
            Some(f) => f.is_nonblocking(),
            None => unreachable!(),
        }
    }

    /// Sets whether the open file is nonblocking, if it lives.
    pub fn set_nonblocking(&mut self, file: u32, on: bool)
        ensures { self.new ≡ calls.with_plain self.old (calls.set_blocking self.old.plain file on) }
    {
        if let Some(f) = self.plain.file(file) {
            set_place(&mut self.plain.files, file, Some(f.with_nonblocking(on)));
        }
    }

    /// A call holds the open file, which has to live. Fewer than 128 holds may stand.
    pub fn hold(&mut self, file: u32)
        requires lives { IsSome (at_place self.old.plain.files file) }
        requires few { holds_in self.old.plain < 128 }
        ensures { self.new ≡ calls.with_plain self.old (calls.held self.old.plain file) }
    {
        if let Some(f) = self.plain.file(file) {
            set_place(&mut self.plain.files, file, Some(f.held_once_more()));
        }
    }

    /// A call gives the open file back: it ends where nothing names it any more, as at `close`.
    pub fn drop_hold(&mut self, file: u32)
        ensures { self.new ≡ calls.dropped self.old file }
    {
        give_back(&mut self.plain, &mut self.queues, file);
    }

    // ---- queues

    /// Lends the queue that the open file is; `None` exactly where it isn't a queue.
    pub fn queue(&mut self, file: u32) -> Option<&mut Kqueue>
        ensures* writes_back { sem 𝓛 (LendsFileQueue self.entry file result) }
        ensures value { MatchOption result (queue_at self.old file ≡ None) (λ q. queue_at self.old file ≡ Some q.now) }
    {
        match self.plain.queue_number(file) {
            Some(number) => self.queues.queue_mut(number),
            None => None,
        }
    }

    // The queue that the open file is.
    fn see_queue(&self, file: u32) -> Option<&Kqueue>
        ensures { MatchOption result (queue_at self.now file ≡ None) (λ q. queue_at self.now file ≡ Some q.now) }
    {
        match self.plain.queue_number(file) {
            Some(number) => self.queues.queue(number),
            None => None,
        }
    }

    /// Whether the open file is a queue in which a flux stands.
    pub fn in_flux(&self, file: u32) -> bool
        ensures { result ≡ is_in_flux self.now file }
    {
        match self.see_queue(file) {
            Some(queue) => queue.in_flux(),
            None => false,
        }
    }

    /// The name of the interest that a look at the queue would report at this place, counted from 0, if it had room for all.
    /// `None` exactly where it would report no more than `at`, or the open file isn't a queue.
    pub fn pick(&self, file: u32, at: u32) -> Option<Ident>
        ensures { result ≡ calls.picked self.now file at }
    {
        match self.see_queue(file) {
            Some(queue) => pick(queue, &self.plain, at),
            None => None,
        }
    }

    // ---- transfers

    /// Looks at a transfer: moves what can be moved now between the open file and the front of the buffer (read(2), write(2)). A
    /// write has all its bytes in the buffer, those that it has moved before first. At a queue it is events that are moved, 16 bytes
    /// each, and `len` has room for them.
    ///
    /// `Wait` where nothing can be moved yet, `Refused` with EAGAIN where the open file is nonblocking then, `Refused` with EINVAL
    /// where fewer than 8 bytes, or 2^64 - 1, are moved of a counter, `Broken` exactly where a write finds its pipe without a
    /// reader. In these cases nothing changes. A transfer in the direction that the open file doesn't have waits for ever: whoever
    /// holds the open file has judged that.
    #[tactic(auto, using(crate::proofs::Looking::set_same))]
    pub fn look(&mut self, call: &FileCall, buffer: &mut [u8]) -> FileLook
        requires len { call.now.len ≤ length buffer.old }
        requires done { call.now.done ≤ call.now.len }
        ensures answer { result ≡ (looked self.old call.now buffer.old).answer }
        ensures files { self.new ≡ (looked self.old call.now buffer.old).files }
        ensures buffer { buffer.new ≡ (looked self.old call.now buffer.old).buffer }
    {
        let Some(f) = self.plain.file(call.file) else {
            return FileLook::Wait;
        };
        let plain: &mut Plain = &mut self.plain;
        let queues = &mut self.queues;
        if let File::Queue(number) = f.file() {
            return match queues.queue_mut(number) {
                Some(queue) => look_at_queue(queue, plain, call.len, &mut self.events, buffer),
                None => FileLook::Wait,
            };
        }
        if call.write {
            look_at_write(plain, queues, call.done, bytes_left(call, buffer), f)
        } else {
            look_at_read(plain, queues, call.len, f, buffer)
        }
    }

    /// Whether `look` of that call and buffer would answer `Wait`.
    pub fn would_wait(&self, call: &FileCall, buffer: &[u8]) -> bool
        requires len { call.now.len ≤ length buffer.now }
        requires done { call.now.done ≤ call.now.len }
        ensures { result ≡ is_wait (looked self.now call.now buffer.now).answer }
    {
        let Some(f) = self.plain.file(call.file) else {
            return true;
        };
        if let File::Queue(number) = f.file() {
            return match self.queues.queue(number) {
                Some(queue) => !has_report(queue, &self.plain),
                None => true,
            };
        }
        plain_answer(&self.plain, call, f, buffer).is_wait()
    }

    // ---- the console rooms

    /// How many bytes the console room holds.
    pub fn held(&self, side: Side) -> u32
        ensures { result ≡ length (side_holds self.now.plain (side_out side)) }
    {
        self.plain.room(side).held()
    }

    /// Lets the first `n` bytes of a console room go, which activates the knotes of its console. False exactly where `n` is 0 or
    /// more than the room holds; then nothing changes.
    pub fn drain(&mut self, side: Side, n: u32) -> bool
        ensures drains { result ≡ calls.can_drain self.old.plain (side_out side) n }
        ensures files { self.new ≡ (if calls.can_drain self.old.plain (side_out side) n then calls.drained self.old (side_out side) n else self.old) }
    {
        if n == 0 || n > self.held(side) {
            return false;
        }
        match side {
            Side::Out => self.plain.out.drop_first(n),
            Side::Err => self.plain.err.drop_first(n),
        }
        self.queues
            .activate(File::Console(side), Filter::Write, &self.plain.files);
        true
    }

    /// Copies as many first bytes of a console room as it holds and fit into `into` to its front, and answers how many.
    pub fn copy_front(&self, side: Side, into: &mut [u8]) -> usize
        ensures count { result ≡ length (take (length into.old) (side_holds self.now.plain (side_out side))) }
        ensures copied { into.new ≡ take (length into.old) (side_holds self.now.plain (side_out side)) ++ drop result into.old }
    {
        self.plain.room(side).copy_front(into)
    }
}

impl Readiness for Files {
    ghost told = { λ S. readiness S.plain };

    /// The events that hold of an open file now, as far as a filter tells of them: EPOLLIN and EPOLLHUP for Read, EPOLLOUT and
    /// EPOLLERR for Write. 0 of a queue, and where no such open file lives (epoll_ctl(2), poll(2)).
    fn bits(&self, file: u32, filter: Filter) -> u32 {
        self.plain.bits(file, filter)
    }
}
