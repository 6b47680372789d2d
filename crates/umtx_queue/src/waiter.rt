// Waiters, what is noted of them, and what a look finds.

ghost use Rattle.std.specs.Prelude.{◌≡◌};
ghost use Rattle.umtx_queue.specs.Waiters.{who_at, is_of, is_plain_at, matches, with_key};
ghost use Rattle.umtx_queue.specs.Notes.{told};
ghost use Rattle.umtx_queue.specs.Kept.{is_note_of, noted_as};

/// A waiter of a chain: a thread at one place of its wait, as `umtx_q` in FreeBSD's kernel. A plain wait has place 0 and
/// `many` false; the places of a wait at many words have their numbers, from 0, and `many` true.
#[derive(Clone, Copy, Default)]
pub struct Waiter {
    /// The slot of the thread, below 128.
    pub slot: u8,
    /// The place of its wait, below 32, and 0 where `many` is false.
    pub place: u8,
    /// Whether the wait is at many places.
    pub many: bool,
    /// The address of the word.
    pub key: u64,
    /// Its bit set: a signal reaches it by a common bit.
    pub bits: u32,
}

/// What a slot and place finds in a chain.
#[derive(Clone, Copy, Debug, PartialEq, Eq)]
pub enum Looked {
    /// It waits there.
    Queued,
    /// It was woken there.
    Woken,
    /// It was moved from there to this key.
    Moved { key: u64 },
}

/// What is noted of a slot and place that has left a chain.
#[derive(Clone, Copy)]
pub enum Note {
    /// It was woken.
    Woken,
    /// It was moved to this key.
    Moved { key: u64 },
}

// A slot and place with what is noted of it.
#[derive(Clone, Copy)]
pub(crate) struct Noted {
    pub(crate) slot: u8,
    pub(crate) place: u8,
    pub(crate) note: Note,
}

impl Waiter {
    // Whether it waits at this place of this slot.
    pub(crate) fn is_at(self, slot: u8, place: u8) -> bool
        ensures { result ≡ is_of (who_at slot place) self }
    {
        self.slot == slot && self.place == place
    }

    // Whether it has this key and one of these bits.
    pub(crate) fn matches(self, key: u64, bits: u32) -> bool
        ensures { result ≡ matches key bits self }
    {
        self.key == key && self.bits & bits != 0
    }

    // Whether it has this key and isn't one of many places.
    pub(crate) fn is_plain_at(self, key: u64) -> bool
        ensures { result ≡ is_plain_at key self }
    {
        self.key == key && !self.many
    }

    // The waiter with another key.
    pub(crate) fn with_key(self, key: u64) -> Waiter
        ensures { result ≡ with_key key self }
    {
        Waiter { key, ..self }
    }

    // Its slot and place with a note.
    pub(crate) fn noted(self, note: Note) -> Noted
        ensures { result ≡ noted_as note self }
    {
        Noted {
            slot: self.slot,
            place: self.place,
            note,
        }
    }
}

impl Note {
    // What it tells who looks.
    pub(crate) fn told(self) -> Looked
        ensures { result ≡ told self }
    {
        match self {
            Note::Woken => Looked::Woken,
            Note::Moved { key } => Looked::Moved { key },
        }
    }
}

impl Noted {
    // Whether it is of this place of this slot.
    pub(crate) fn is_at(self, slot: u8, place: u8) -> bool
        ensures { result ≡ is_note_of (who_at slot place) self }
    {
        self.slot == slot && self.place == place
    }
}
