//! Counters (`pipe_core`).

use case_words::answers::{Answer, Refusal};
use case_words::arguments::Arguments;
use case_words::subject::Subject;
use pipe_core::Counter;
use std::alloc::Global;

/// A call on a counter.
#[derive(Clone, Copy)]
enum CounterCall {
    Read,
    Add(u64),
}

/// The call of this name.
fn counter_call(name: &str, of: Arguments<'_>) -> Result<CounterCall, Refusal> {
    match name {
        "read" => Ok(CounterCall::Read),
        "add" => Ok(CounterCall::Add(of.number("n")?)),
        _ => Err(Refusal::NotACall),
    }
}

/// A counter, as a script makes and calls it.
#[derive(Drop)]
pub struct CounterSubject(Counter);

impl Subject for CounterSubject {
    fn make(_alloc: Global, of: Arguments<'_>) -> Result<CounterSubject, Refusal> {
        Ok(CounterSubject(Counter::new(of.number("value")?, of.is("semaphore")?)))
    }

    fn call(&mut self, _alloc: Global, name: &str, of: Arguments<'_>) -> Result<Answer, Refusal> {
        match counter_call(name, of)? {
            CounterCall::Read => Ok(Answer::number(self.0.read())),
            CounterCall::Add(n) => Ok(Answer::Is(self.0.add(n))),
        }
    }
}
