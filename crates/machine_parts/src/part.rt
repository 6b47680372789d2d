//! The parts of the machine.
use bsd_files::Files;
use bsd_proc::Process;
use bsd_thread::Thread;
use guest_mem::Shard;
use umtx_queue::Chain;

/// What an object of the machine is. What is big in it lies behind a pointer, so that it is cheap to move.
#[derive(Drop)]
pub enum Part {
    Thread(Thread),
    Shard(Shard),
    Chain(Chain),
    Process(Process),
    Files(Files),
}
