//! A kqueue: its interests, and whose flux stands.
ghost use Rattle.std.specs.Prelude.{◌≡◌, ◌≤◌, ◌++◌, [], length, drop, map, IfOk, OnOk, OnErr, MatchResult, Some, None, is_some, nat_le, true};
ghost use Rattle.std.specs.List.{list_all};
ghost use Rattle.kqueue_core.specs.Changes.{IsWatches, change_fault, changed_by, activated, without_file};
ghost use Rattle.kqueue_core.specs.Reports.{event_of, reports, scanned, pick_of};

use crate::changes::{self, MOST};
use crate::knotes::{Change, ChangeFault, Event, Filter, Flux, Ident, KnoteFlags, Watch};
use crate::ready::Readiness;
use crate::scans;
use crate::watched::Watched;
use std::alloc::Global;
use std::marker::Model;

/// There is no memory for the room of a kqueue.
#[derive(Clone, Copy, Debug, PartialEq, Eq)]
pub struct NoMemory;

/// The interests of a kqueue, at most 512, in the order of reports, and the flux that stands. Only `make` takes memory, which
/// is touched as interests come.
#[derive(Drop)]
pub struct Kqueue {
    watches: Vec<Watch>,
    // What a scan has reported, until it puts it behind the others.
    reported: Vec<Watch>,
    // The open files in which there may be interests.
    watched: Watched,
    flux: Option<Flux>,
}

impl Model for Kqueue {
    ghost use Rattle.kqueue_core.specs.Queues.{Queue};

    ghost Value = { Queue };

    ghost use Rattle.kqueue_core.specs.Kept.{HasRoom};

    ghost view = { λ q. record { watches = q.watches.items; flux = q.flux } };

    ghost invariant = { HasRoom };
}

impl Kqueue {
    ghost use Rattle.kqueue_core.specs.Queues.{is_free_for, with_flux, without_flux, flux_descriptor};

    /// A kqueue without interests, with room for 512. `NoMemory` where there is no memory for the room.
    pub fn make(alloc: Global) -> Result<Kqueue, NoMemory>
        ensures { IfOk result (λ queue. queue ≡ record { watches = []; flux = None }) }
    {
        let Ok(watches) = Vec::with_capacity(alloc, MOST) else {
            return Err(NoMemory);
        };
        let Ok(reported) = Vec::with_capacity(alloc, MOST) else {
            return Err(NoMemory);
        };
        Ok(Kqueue {
            watches,
            reported,
            watched: Watched::none(),
            flux: None,
        })
    }

    /// Changes the knote of an interest and a filter. With EV_ADD it adds it, with EV_DELETE it takes it out, and else it
    /// changes it; EV_ADD beside EV_DELETE counts alone, and so does EV_DISABLE beside EV_ENABLE. A change that doesn't take it
    /// out gives it the bits that are asked for, the user's word, and EV_CLEAR and EV_DISPATCH as the flags say, and makes it
    /// active exactly where `ready`. A new interest stands last.
    ///
    /// `Exists` exactly where EV_ADD meets a knote that stands, `Missing` exactly where a change without EV_ADD meets none, `Full`
    /// exactly where EV_ADD names an interest without knotes and 512 others stand. Then nothing changes.
    pub fn change(
        &mut self,
        ident: Ident,
        filter: Filter,
        flags: u16,
        asked: u32,
        user: u64,
        ready: bool,
    ) -> Result<(), ChangeFault>
        ensures cause { MatchResult result (λ _. change_fault ident.file ident.fd filter flags self.old.watches ≡ None) (λ e. change_fault ident.file ident.fd filter flags self.old.watches ≡ Some e) }
        ensures ok { OnOk result (self.new ≡ record self.old { watches = changed_by ident.file ident.fd filter flags asked user ready self.old.watches }) }
        ensures err { OnErr result (self.new ≡ self.old) }
        ensures watches { IsWatches self.new.watches }
    {
        let change = Change {
            ident,
            filter,
            flags: KnoteFlags { bits: flags },
            asked,
            user,
            ready,
        };
        if let Some(fault) = changes::fault_of(&self.watches, change) {
            return Err(fault);
        }
        self.watched.note(ident.file);
        changes::apply(&mut self.watches, change);
        Ok(())
    }

    /// Makes the knotes of an open file and a filter active. Where there is no interest in the file it costs no walk over the
    /// interests, except where one was taken out before.
    pub fn activate(&mut self, file: u32, filter: Filter)
        ensures queue { self.new ≡ record self.old { watches = activated file filter self.old.watches } }
        ensures watches { IsWatches self.new.watches }
    {
        if self.watched.may_have(file) {
            changes::activate(&mut self.watches, file, filter);
        }
    }

    /// Takes out every knote of an open file.
    pub fn drop_file(&mut self, file: u32)
        ensures queue { self.new ≡ record self.old { watches = without_file file self.old.watches } }
        ensures watches { IsWatches self.new.watches }
    {
        if self.watched.may_have(file) {
            changes::drop_file(&mut self.watches, file);
            self.watched.forget(file);
        }
    }

    /// Reports the first `most` interests that have some bits and a knote that is enabled and active, or all where there are
    /// fewer, and answers how many. Their events come to the front of `into`, each with exactly the bits of its interest and the
    /// word of its Read knote, or of its Write knote where it has no Read knote. A report ends the activity of knotes with
    /// EV_CLEAR, disables those with EV_DISPATCH, and puts the interest at the end of the order. All else stays.
    pub fn scan<R: Readiness>(&mut self, most: u32, ready: &R, into: &mut [Event]) -> u32
        requires { most ≤ length into.old }
        ensures count { result ≡ length (reports (R.told ready.now) most self.old.watches) }
        ensures events { into.new ≡ map (event_of (R.told ready.now)) (reports (R.told ready.now) most self.old.watches) ++ drop result into.old }
        ensures queue { self.new ≡ record self.old { watches = scanned (R.told ready.now) most self.old.watches } }
        ensures watches { IsWatches self.new.watches }
    {
        scans::report(&mut self.watches, &mut self.reported, most, ready, into)
    }

    /// The name of the interest that a scan without a bound would now report at this place, counted from 0; `None` exactly where
    /// that scan would report no more than `at`.
    pub fn pick<R: Readiness>(&self, at: u32, ready: &R) -> Option<Ident>
        ensures { result ≡ pick_of (R.told ready.now) at self.now.watches }
    {
        scans::pick(&self.watches, at, ready)
    }

    /// Puts the queue in flux by the slot on this descriptor; false exactly where another slot's flux stands, and then nothing
    /// changes.
    pub fn flux(&mut self, slot: u8, fd: u32) -> bool
        ensures free { result ≡ is_free_for slot self.old.flux }
        ensures queue { self.new ≡ with_flux slot fd self.old }
    {
        if let Some(flux) = self.flux
            && flux.slot != slot
        {
            return false;
        }
        self.flux = Some(Flux {
            slot,
            descriptor: fd,
        });
        true
    }

    /// Ends the slot's flux. Another slot's stays.
    pub fn settle(&mut self, slot: u8)
        ensures { self.new ≡ without_flux slot self.old }
    {
        if let Some(flux) = self.flux
            && flux.slot == slot
        {
            self.flux = None;
        }
    }

    /// Lets all interests and the flux go.
    pub fn clear(&mut self)
        ensures { self.new ≡ record { watches = []; flux = None } }
    {
        self.watches.clear();
        self.watched = Watched::none();
        self.flux = None;
    }

    /// How many interests stand.
    pub fn count(&self) -> usize
        ensures count { result ≡ length self.now.watches }
        ensures most { result ≤ 512 }
    {
        self.watches.len()
    }

    /// A number that no open file in which there is an interest passes.
    pub fn last_watched(&self) -> u32
        ensures { list_all (λ w. nat_le w.file result) self.now.watches ≡ true }
    {
        self.watched.last
    }

    /// Whether a flux stands.
    pub fn in_flux(&self) -> bool
        ensures { result ≡ is_some self.now.flux }
    {
        self.flux.is_some()
    }

    /// The descriptor of the flux that stands; `None` exactly where none does.
    pub fn flux_of(&self) -> Option<u32>
        ensures { result ≡ flux_descriptor self.now }
    {
        self.flux.map(|flux| flux.descriptor)
    }
}
