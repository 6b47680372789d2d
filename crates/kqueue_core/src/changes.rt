//! Changes of interests, and what an event of their file does to them.
ghost use Rattle.std.specs.Prelude.{◌≡◌, ◌+◌, ◌≤◌, ◌<◌, ◌++◌, ◌∷◌, [], ◌&&◌, false, true, map, filter, length, vec_len, vec_capacity};
ghost use Rattle.std.proofs.Math.Bool.{not};
ghost use Rattle.std.specs.List.{list_any};
ghost use Rattle.kqueue_core.specs.Knotes.{adds};
ghost use Rattle.kqueue_core.specs.Watches.{is_of, changed_watch};
ghost use Rattle.kqueue_core.specs.Changes.{is_named, has_filter, change_fault, stays, changed_by, activated, without_file};

use crate::knotes::{Change, ChangeFault, Filter, Ident, Watch};

/// The most interests that may stand.
pub(crate) const MOST: usize = 512;

// Whether an interest of this name stands.
fn is_named(watches: &[Watch], ident: Ident) -> bool
    ensures { result ≡ is_named ident.file ident.fd watches.now }
{
    watches.iter().any(|watch| watch.is_of(ident))
}

// Whether the knote of this name and filter stands.
fn has_filter(watches: &[Watch], ident: Ident, filter: Filter) -> bool
    ensures { result ≡ list_any (has_filter ident.file ident.fd filter) watches.now }
{
    watches.iter().any(|watch| watch.is_of(ident) && watch.knote(filter).is_some())
}

// Why the change is refused; `None` exactly where it isn't.
pub(crate) fn fault_of(watches: &[Watch], change: Change) -> Option<ChangeFault>
    ensures { result ≡ change_fault change.ident.file change.ident.fd change.filter change.flags.bits watches.now }
{
    let stood = has_filter(watches, change.ident, change.filter);
    if !change.flags.adds() {
        return if stood {
            None
        } else {
            Some(ChangeFault::Missing)
        };
    }
    if stood {
        return Some(ChangeFault::Exists);
    }
    if watches.len() >= MOST && !is_named(watches, change.ident) {
        return Some(ChangeFault::Full);
    }
    None
}

// Changes the interest of the name, if one stands.
fn change_each(watches: &mut [Watch], change: Change)
    ensures { watches.new ≡ map (changed_watch change.ident.file change.ident.fd change.filter change.flags.bits change.asked change.user change.ready) watches.old }
{
    for at in 0..watches.len() {
        if watches[at].is_of(change.ident) {
            let changed = change.changed(watches[at]);
            watches[at] = changed;
        }
    }
}

// Lets the interest of the name go where it has no knote.
fn keep_whole(watches: &mut Vec<Watch>, ident: Ident)
    ensures items { watches.new.items ≡ filter (stays ident.file ident.fd) watches.old.items }
    ensures capacity { vec_capacity watches.new ≡ vec_capacity watches.old }
{
    watches.retain(|watch| !watch.is_of(ident) || watch.has_knote());
}

// Makes the change, which isn't refused. There has to be room for a new name.
pub(crate) fn apply(watches: &mut Vec<Watch>, change: Change)
    requires room { (adds change.flags.bits && not (is_named change.ident.file change.ident.fd watches.old.items)) ≡ true → vec_len watches.old < vec_capacity watches.old }
    ensures items { watches.new.items ≡ changed_by change.ident.file change.ident.fd change.filter change.flags.bits change.asked change.user change.ready watches.old.items }
    ensures capacity { vec_capacity watches.new ≡ vec_capacity watches.old }
{
    if change.flags.adds() && !is_named(watches, change.ident) {
        watches.push_reserved(change.fresh());
        return;
    }
    change_each(watches, change);
    keep_whole(watches, change.ident);
}

// Makes the knotes of an open file and a filter active.
fn activate_each(watches: &mut [Watch], file: u32, filter: Filter)
    ensures { watches.new ≡ activated file filter watches.old }
{
    for at in 0..watches.len() {
        if watches[at].file == file {
            let active = watches[at].activated(filter);
            watches[at] = active;
        }
    }
}

// The same, of all interests.
pub(crate) fn activate(watches: &mut Vec<Watch>, file: u32, filter: Filter)
    ensures items { watches.new.items ≡ activated file filter watches.old.items }
    ensures capacity { vec_capacity watches.new ≡ vec_capacity watches.old }
{
    activate_each(watches, file, filter);
}

// Lets the interests in an open file go.
pub(crate) fn drop_file(watches: &mut Vec<Watch>, file: u32)
    ensures items { watches.new.items ≡ without_file file watches.old.items }
    ensures capacity { vec_capacity watches.new ≡ vec_capacity watches.old }
{
    watches.retain(|watch| watch.file != file);
}
