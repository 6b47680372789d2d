//! Lists with a room that was taken before.
ghost use Rattle.std.specs.Prelude.{◌≡◌, ◌≤◌, ◌+◌, ◌-◌, ◌++◌, ◌==◌, ◌↔◌, [], IsOk, IfOk, OnOk, OnErr, drop, length, replicate, take};
ghost use Rattle.std.specs.Borrow.{sem};
ghost use Rattle.bsd_thread.specs.Lending.{LendsItems};

use std::alloc::{AllocError, Global};
use std::marker::Model;

/// There is no memory for a thread.
#[derive(Clone, Copy, Debug, PartialEq, Eq)]
pub struct NoMemory;

impl From<AllocError> for NoMemory {
    fn from(_: AllocError) -> Self {
        NoMemory
    }
}

/// What was to be put into a room doesn't fit.
#[derive(Clone, Copy, Debug, PartialEq, Eq)]
pub struct Full;

/// At most `N` values, which contracts see as a list. Its room is taken by `make`, and touched as it is used.
#[derive(Drop)]
pub struct Bounded<T, const N: usize> {
    items: Vec<T>,
}

impl<T, const N: usize> Model for Bounded<T, N> {
    ghost use Rattle.std.specs.Prelude.{◌≤◌, List, length, vec_capacity};

    ghost Value = { List T };

    ghost view = { λ b. b.items.items };

    ghost invariant = { λ b. (length b.items.items ≤ N) × (N ≤ vec_capacity b.items) };
}

impl<T: Copy, const N: usize> Bounded<T, N> {
    /// No values, with room for `N`. `NoMemory` where there is no memory for it.
    pub fn make(alloc: Global) -> Result<Bounded<T, N>, NoMemory>
        ensures { IfOk result (λ bounded. bounded ≡ []) }
    {
        let items = Vec::with_capacity(alloc, N)?;
        Ok(Bounded { items })
    }

    /// How many values there are.
    pub fn len(&self) -> usize
        ensures len { result ≡ length self.now }
        ensures fits { result ≤ N }
    {
        self.items.len()
    }

    /// Whether there are none.
    pub fn is_empty(&self) -> bool
        ensures { result ≡ (length self.now == 0) }
    {
        self.items.is_empty()
    }

    /// The values.
    pub fn as_slice(&self) -> &[T]
        ensures value { result.now ≡ self.now }
        ensures fits { length result.now ≤ N }
    {
        self.items.as_slice()
    }

    /// Lends the values: they end as those that are written there.
    pub fn as_mut_slice(&mut self) -> &mut [T]
        ensures* writes_back { sem 𝓛 (LendsItems T.row N.row self.entry result) }
        ensures value { result.now ≡ self.old }
    {
        self.items.as_mut_slice()
    }

    /// Puts these values behind the others. `Full` exactly where they don't fit; then nothing changes.
    pub fn append(&mut self, more: &[T]) -> Result<(), Full>
        ensures fits { IsOk result ↔ (length self.old + length more.now ≤ N) }
        ensures ok { OnOk result (self.new ≡ self.old ++ more.now) }
        ensures err { OnErr result (self.new ≡ self.old) }
    {
        if more.len() > N - self.items.len() {
            return Err(Full);
        }
        self.items.extend_from_slice(more).map_err(|_| Full)
    }

    /// Puts so many equal values behind the others. `Full` exactly where they don't fit; then nothing changes.
    pub fn append_equal(&mut self, count: usize, value: T) -> Result<(), Full>
        ensures fits { IsOk result ↔ (length self.old + count ≤ N) }
        ensures ok { OnOk result (self.new ≡ self.old ++ replicate count value) }
        ensures err { OnErr result (self.new ≡ self.old) }
    {
        let held = self.items.len();
        if count > N - held {
            return Err(Full);
        }
        self.items.resize(held + count, value).map_err(|_| Full)
    }

    /// Has these values and no others. They have to fit.
    pub fn set(&mut self, values: &[T])
        requires { length values.now ≤ N }
        ensures { self.new ≡ values.now }
    {
        self.items.clear();
        let _ = self.items.extend_from_slice(values);
    }

    /// Lets the first values go, or all where there are fewer.
    pub fn drop_first(&mut self, count: usize)
        ensures { self.new ≡ drop count self.old }
    {
        if count < self.items.len() {
            self.items.drain(..count);
        } else {
            self.items.clear();
        }
    }

    /// Keeps the first values, or all where there are fewer.
    pub fn truncate(&mut self, count: usize)
        ensures { self.new ≡ take count self.old }
    {
        self.items.truncate(count);
    }

    /// Lets all values go.
    pub fn clear(&mut self)
        ensures { self.new ≡ [] }
    {
        self.items.clear();
    }
}
