//! Kqueues, with the events that hold of open files (`kqueue_core`).
ghost use Rattle.std.specs.Prelude.{◌≡◌, slice_index, bit_and};
ghost use Rattle.kqueue_core.specs.Knotes.{filter_events};

use crate::interests::{InterestCall, interest_call, named, play_interest};
use case_words::answers::{Answer, Refusal};
use case_words::arguments::Arguments;
use case_words::subject::Subject;
use kqueue_core::{Event, Filter, Kqueue, Readiness};
use std::alloc::{AllocError, Global};

/// The most events that one scan is asked for.
const MOST: usize = 512;

/// The events that hold of the open files 0 to 7.
#[derive(Drop)]
struct Files {
    events: [u32; 8],
}

impl Readiness for Files {
    ghost told = { λ files file filter. bit_and (slice_index files.events file) (filter_events filter) };

    fn bits(&self, file: u32, filter: Filter) -> u32 {
        let events = match self.events.get(file as usize) {
            Some(events) => *events,
            None => 0,
        };
        events & filter.events()
    }
}

/// A kqueue, and the open files that it may watch.
#[derive(Drop)]
pub struct Watched {
    queue: Kqueue,
    files: Files,
}

/// A call on a kqueue, or these events now hold of an open file.
#[derive(Clone, Copy)]
enum KqueueCall {
    Holds { file: u32, events: u32 },
    Scan(u32),
    Pick(u32),
    OnInterests(InterestCall),
}

/// The call of this name.
fn kqueue_call(name: &str, of: Arguments<'_>) -> Result<KqueueCall, Refusal> {
    match name {
        "holds" => Ok(KqueueCall::Holds {
            file: of.number_32("file")?,
            events: of.number_32("events")?,
        }),
        "scan" => Ok(KqueueCall::Scan(of.number_32("most")?)),
        "pick" => Ok(KqueueCall::Pick(of.number_32("at")?)),
        _ => Ok(KqueueCall::OnInterests(interest_call(name, of)?)),
    }
}

/// How many events came, and each with its bits and its word.
fn came(alloc: Global, count: u32, events: &[Event]) -> Result<Answer, AllocError> {
    let mut text = format!(in alloc; "{count}:")?;
    for event in events.iter().take(count as usize) {
        let (bits, user) = (event.bits, event.user);
        write!(text, " {bits:#x} for {user}")?;
    }
    Ok(Answer::Text(text))
}

impl Watched {
    fn set_events(&mut self, file: u32, events: u32) -> Result<Answer, Refusal> {
        match self.files.events.get_mut(file as usize) {
            Some(place) => {
                *place = events;
                Ok(Answer::Done)
            }
            None => Err(Refusal::NotMade),
        }
    }

    fn scan(&mut self, alloc: Global, most: u32) -> Result<Answer, Refusal> {
        let mut events = [Event { bits: 0, user: 0 }; MOST];
        if most as usize > MOST {
            return Err(Refusal::NotMet);
        }
        let count = self.queue.scan(most, &self.files, &mut events);
        Ok(came(alloc, count, &events)?)
    }

    fn played(&mut self, alloc: Global, call: KqueueCall) -> Result<Answer, Refusal> {
        match call {
            KqueueCall::Holds { file, events } => self.set_events(file, events),
            KqueueCall::Scan(most) => self.scan(alloc, most),
            KqueueCall::Pick(at) => Ok(named(alloc, self.queue.pick(at, &self.files))?),
            KqueueCall::OnInterests(call) => Ok(play_interest(&mut self.queue, call)),
        }
    }
}

impl Subject for Watched {
    fn make(alloc: Global, _of: Arguments<'_>) -> Result<Watched, Refusal> {
        let queue = Kqueue::make(alloc).map_err(|_| Refusal::NoMemory)?;
        Ok(Watched {
            queue,
            files: Files { events: [0; 8] },
        })
    }

    fn call(&mut self, alloc: Global, name: &str, of: Arguments<'_>) -> Result<Answer, Refusal> {
        let call = kqueue_call(name, of)?;
        self.played(alloc, call)
    }
}
