//! Knotes and watches (kqueue(2)), and what a change makes of them.
ghost use Rattle.std.specs.Prelude.{◌≡◌, ◌<◌, true};
ghost use Rattle.kqueue_core.specs.Knotes.{awake, is_on, told_knote};

use linux_abi::epoll::{EPOLLERR, EPOLLHUP, EPOLLIN, EPOLLOUT};

/// What a knote tells of (kqueue(2)).
#[derive(Clone, Copy)]
pub enum Filter {
    /// EVFILT_READ: there is something to read.
    Read,
    /// EVFILT_WRITE: there is room to write.
    Write,
}

impl Filter {
    ghost use Rattle.kqueue_core.specs.Knotes.{filter_number, filter_events};

    /// The filter's number (kqueue(2)).
    pub fn number(self) -> i16
        ensures { result ≡ filter_number self }
    {
        match self {
            Filter::Read => -1,
            Filter::Write => -2,
        }
    }

    /// The events, as bits of epoll, that a knote of this filter tells of: EPOLLIN and EPOLLHUP, or EPOLLOUT and EPOLLERR.
    pub fn events(self) -> u32
        ensures { result ≡ filter_events self }
    {
        match self {
            Filter::Read => EPOLLIN + EPOLLHUP,
            Filter::Write => EPOLLOUT + EPOLLERR,
        }
    }
}

/// The flags of a change (kqueue(2)).
#[derive(Clone, Copy)]
pub struct KnoteFlags {
    pub bits: u16,
}

impl KnoteFlags {
    ghost use Rattle.kqueue_core.specs.Knotes.{has_flag, adds, deletes, enabled_by};

    /// Adds a knote. Beside EV_DELETE it counts alone.
    pub const EV_ADD: u16 = 1;
    /// Takes a knote out.
    pub const EV_DELETE: u16 = 2;
    /// Enables a knote.
    pub const EV_ENABLE: u16 = 4;
    /// Disables a knote. Beside EV_ENABLE it counts alone.
    pub const EV_DISABLE: u16 = 8;
    /// A report ends the activity.
    pub const EV_CLEAR: u16 = 0x20;
    /// A report disables the knote.
    pub const EV_DISPATCH: u16 = 0x80;
    /// The other end is gone. No change sets it.
    pub const EV_EOF: u16 = 0x8000;

    // Whether a flag is set.
    fn has(self, flag: u16) -> bool
        requires { 0 < flag }
        ensures { result ≡ has_flag self.bits flag }
    {
        self.bits / flag % 2 == 1
    }

    // Whether the change adds a knote.
    pub(crate) fn adds(self) -> bool
        ensures { result ≡ adds self.bits }
    {
        self.has(KnoteFlags::EV_ADD)
    }

    // Whether the change takes a knote out.
    fn deletes(self) -> bool
        ensures { result ≡ deletes self.bits }
    {
        self.has(KnoteFlags::EV_DELETE) && !self.adds()
    }

    // Whether a knote is enabled after the change that was so before it.
    fn enables(self, was: bool) -> bool
        ensures { result ≡ enabled_by self.bits was }
    {
        (was || self.has(KnoteFlags::EV_ENABLE)) && !self.has(KnoteFlags::EV_DISABLE)
    }
}

/// An open file, and the descriptor for which an interest in it was added.
#[derive(Clone, Copy, Debug, PartialEq, Eq)]
pub struct Ident {
    pub file: u32,
    pub fd: u32,
}

/// A knote: the events that it asks for (EPOLL*), the word that its event has, whether a report ends its activity (EV_CLEAR)
/// and disables it (EV_DISPATCH), whether it is enabled, and whether it is active.
#[derive(Clone, Copy)]
pub struct Knote {
    pub asked: u32,
    pub user: u64,
    pub clear: bool,
    pub dispatch: bool,
    pub enabled: bool,
    pub active: bool,
}

/// An interest: its open file and its descriptor, and its two knotes where they stand.
#[derive(Clone, Copy)]
pub struct Watch {
    pub file: u32,
    pub descriptor: u32,
    pub read: Option<Knote>,
    pub write: Option<Knote>,
}

/// A change of an interest that is at work: whose it is, and the descriptor that it names.
#[derive(Clone, Copy)]
pub struct Flux {
    pub slot: u8,
    pub descriptor: u32,
}

/// An event: which bits hold, and the word of its interest (epoll_wait(2)).
#[derive(Clone, Copy, Debug, PartialEq, Eq)]
pub struct Event {
    pub bits: u32,
    pub user: u64,
}

/// Why a change is refused.
#[derive(Clone, Copy, Debug, PartialEq, Eq)]
pub enum ChangeFault {
    /// An add of a knote that stands.
    Exists,
    /// A change of a knote that doesn't stand.
    Missing,
    /// An add of an interest where 512 stand.
    Full,
}

// What a change asks for.
#[derive(Clone, Copy)]
pub(crate) struct Change {
    pub(crate) ident: Ident,
    pub(crate) filter: Filter,
    pub(crate) flags: KnoteFlags,
    pub(crate) asked: u32,
    pub(crate) user: u64,
    pub(crate) ready: bool,
}

impl Change {
    ghost use Rattle.kqueue_core.specs.Knotes.{made, remade};
    ghost use Rattle.kqueue_core.specs.Watches.{fresh, changed_watch};

    // The knote that it makes of one that was enabled so.
    fn made(self, was: bool) -> Knote
        ensures { result ≡ made self.flags.bits self.asked self.user self.ready was }
    {
        Knote {
            asked: self.asked,
            user: self.user,
            clear: self.flags.has(KnoteFlags::EV_CLEAR),
            dispatch: self.flags.has(KnoteFlags::EV_DISPATCH),
            enabled: self.flags.enables(was),
            active: self.ready,
        }
    }

    // What it leaves of a knote.
    fn remade(self, knote: Option<Knote>) -> Option<Knote>
        ensures { result ≡ remade self.flags.bits self.asked self.user self.ready knote }
    {
        match knote {
            None => Some(self.made(true)),
            Some(_) if self.flags.deletes() => None,
            Some(knote) => Some(self.made(knote.enabled)),
        }
    }

    // A new interest with the knote that it asks for.
    pub(crate) fn fresh(self) -> Watch
        ensures { result ≡ fresh self.ident.file self.ident.fd self.filter (made self.flags.bits self.asked self.user self.ready true) }
    {
        Watch {
            file: self.ident.file,
            descriptor: self.ident.fd,
            read: None,
            write: None,
        }
        .with_knote(self.filter, Some(self.made(true)))
    }

    // What it leaves of an interest.
    pub(crate) fn changed(self, watch: Watch) -> Watch
        ensures { result ≡ changed_watch self.ident.file self.ident.fd self.filter self.flags.bits self.asked self.user self.ready watch }
    {
        if watch.is_of(self.ident) {
            watch.with_knote(self.filter, self.remade(watch.knote(self.filter)))
        } else {
            watch
        }
    }
}

impl Watch {
    ghost use Rattle.kqueue_core.specs.Watches.{ident_of, is_of, knote_at, with_knote, has_knote, is_watched, told_watch, user_of};
    ghost use Rattle.kqueue_core.specs.Watches.{activated_watch};

    // Its name.
    pub(crate) fn ident(self) -> Ident
        ensures { result ≡ ident_of self }
    {
        Ident {
            file: self.file,
            fd: self.descriptor,
        }
    }

    // Whether it has this name.
    pub(crate) fn is_of(&self, ident: Ident) -> bool
        ensures { result ≡ is_of ident.file ident.fd self.now }
    {
        self.file == ident.file && self.descriptor == ident.fd
    }

    // Its knote of a filter.
    pub(crate) fn knote(&self, filter: Filter) -> Option<Knote>
        ensures { result ≡ knote_at filter self.now }
    {
        match filter {
            Filter::Read => self.read,
            Filter::Write => self.write,
        }
    }

    // The same with this knote of a filter, or without one.
    fn with_knote(self, filter: Filter, knote: Option<Knote>) -> Watch
        ensures { result ≡ with_knote filter knote self }
    {
        match filter {
            Filter::Read => Watch {
                read: knote,
                ..self
            },
            Filter::Write => Watch {
                write: knote,
                ..self
            },
        }
    }

    // Whether it has a knote.
    pub(crate) fn has_knote(&self) -> bool
        ensures { result ≡ has_knote self.now }
    {
        self.read.is_some() || self.write.is_some()
    }

    // The same, its knote of a filter active.
    pub(crate) fn activated(self, filter: Filter) -> Watch
        ensures { result ≡ activated_watch filter self }
    {
        self.with_knote(filter, awake(self.knote(filter)))
    }

    // Whether it has a knote that is enabled and active.
    pub(crate) fn is_watched(&self) -> bool
        ensures { result ≡ is_watched self.now }
    {
        is_on(self.read) || is_on(self.write)
    }

    // What a report leaves of it.
    pub(crate) fn told(self) -> Watch
        ensures { result ≡ told_watch self }
    {
        Watch {
            file: self.file,
            descriptor: self.descriptor,
            read: told_knote(self.read),
            write: told_knote(self.write),
        }
    }

    // The word that its event has.
    pub(crate) fn user(&self) -> u64
        ensures { result ≡ user_of self.now }
    {
        match (self.read, self.write) {
            (Some(read), _) => read.user,
            (None, Some(write)) => write.user,
            (None, None) => 0,
        }
    }
}

// The knote, active.
fn awake(knote: Option<Knote>) -> Option<Knote>
    ensures { result ≡ awake knote }
{
    match knote {
        Some(knote) => Some(Knote {
            active: true,
            ..knote
        }),
        None => None,
    }
}

// Whether a knote stands that is enabled and active.
fn is_on(knote: Option<Knote>) -> bool
    ensures { result ≡ is_on knote }
{
    match knote {
        Some(knote) => knote.enabled && knote.active,
        None => false,
    }
}

// What a report leaves of a knote.
fn told_knote(knote: Option<Knote>) -> Option<Knote>
    ensures { result ≡ told_knote knote }
{
    match knote {
        Some(knote) => Some(Knote {
            active: knote.active && !knote.clear,
            enabled: knote.enabled && !knote.dispatch,
            ..knote
        }),
        None => None,
    }
}
