//! The objects of a case.

use case_words::answers::{Answer, Refusal};
use case_words::arguments::Arguments;
use case_words::subject::{Objects, play_at};
use file_subjects::counters::CounterSubject;
use file_subjects::files::FilesSubject;
use file_subjects::kqueues::Watched;
use file_subjects::pipes::PipeSubject;
use memory_subjects::areas::AreasSubject;
use memory_subjects::memories::MemorySubject;
use memory_subjects::shards::Numbered;
use process_subjects::processes::ProcessSubject;
use std::alloc::Global;
use thread_subjects::carries::play_carry;
use thread_subjects::chains::ChainSubject;
use thread_subjects::threads::ThreadSubject;

/// The objects that a case has made so far.
#[derive(Drop)]
pub struct Kernel {
    chain: Option<ChainSubject>,
    second_chain: Option<ChainSubject>,
    pipe: Option<PipeSubject>,
    counter: Option<CounterSubject>,
    kqueue: Option<Watched>,
    files: Option<FilesSubject>,
    process: Option<ProcessSubject>,
    thread: Option<ThreadSubject>,
    areas: Option<AreasSubject>,
    shard: Option<Numbered>,
    memory: Option<MemorySubject>,
}

/// Makes a call on the waiters that the thread carries, and on a chain.
fn carry(
    thread: &mut Option<ThreadSubject>,
    chain: &mut Option<ChainSubject>,
    name: &str,
    of: Arguments<'_>,
) -> Result<Answer, Refusal> {
    let Some(ThreadSubject(thread)) = thread else {
        return Err(Refusal::NotMade);
    };
    match chain {
        Some(ChainSubject(chain)) => { play_carry(&mut thread.state().call.carry, chain, name, of) }
        None => Err(Refusal::NotMade),
    }
}

impl Kernel {
    /// Makes a call on the waiters that the thread carries, and on one of the chains.
    fn carry(&mut self, name: &str, of: Arguments<'_>) -> Result<Answer, Refusal> {
        match of.word("chain")? {
            "first" => carry(&mut self.thread, &mut self.chain, name, of),
            "second" => carry(&mut self.thread, &mut self.second_chain, name, of),
            _ => Err(Refusal::NotACall),
        }
    }
}

impl Objects for Kernel {
    fn empty() -> Kernel {
        Kernel {
            chain: None,
            second_chain: None,
            pipe: None,
            counter: None,
            kqueue: None,
            files: None,
            process: None,
            thread: None,
            areas: None,
            shard: None,
            memory: None,
        }
    }

    fn play(
        &mut self,
        alloc: Global,
        object: &str,
        name: &str,
        of: Arguments<'_>,
    ) -> Result<Answer, Refusal> {
        match object {
            "chain" => play_at(&mut self.chain, alloc, name, of),
            "second-chain" => play_at(&mut self.second_chain, alloc, name, of),
            "carry" => self.carry(name, of),
            "pipe" => play_at(&mut self.pipe, alloc, name, of),
            "counter" => play_at(&mut self.counter, alloc, name, of),
            "kqueue" => play_at(&mut self.kqueue, alloc, name, of),
            "files" => play_at(&mut self.files, alloc, name, of),
            "process" => play_at(&mut self.process, alloc, name, of),
            "thread" => play_at(&mut self.thread, alloc, name, of),
            "areas" => play_at(&mut self.areas, alloc, name, of),
            "shard" => play_at(&mut self.shard, alloc, name, of),
            "memory" => play_at(&mut self.memory, alloc, name, of),
            _ => Err(Refusal::NotACall),
        }
    }
}
