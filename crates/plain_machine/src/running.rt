// A run of a program.
ghost use Rattle.std.specs.Prelude.{◌≡◌, IfOk, Some};
ghost use Rattle.plain_machine.specs.Plain.{plain, EndsBy, stopped, spent};

use crate::machine::{Machine, NoMemory};
use crate::program::Program;
use std::alloc::Global;

/// How a run ended.
#[derive(Clone, Copy)]
pub enum RunEnd {
    /// The guest exited with this code.
    Exited(u8),
    /// The fuel was spent before the guest ended.
    FuelSpent,
    /// What stands at this address isn't built.
    NotBuilt { pc: u64 },
}

/// A machine that ran, how its run ended, and after how many entries.
#[derive(Drop)]
pub struct Ran {
    pub machine: Machine,
    pub end: RunEnd,
    pub count: u64,
}

// How the run of a machine with no further entry ended.
fn stop(machine: &Machine) -> RunEnd
    ensures { result ≡ stopped machine.now }
{
    match machine.code() {
        Some(code) => RunEnd::Exited(code),
        None => RunEnd::NotBuilt { pc: machine.pc() },
    }
}

// How the run of a machine whose fuel is spent ended.
fn spend(machine: &Machine) -> RunEnd
    ensures { result ≡ spent machine.now }
{
    match machine.code() {
        Some(code) => RunEnd::Exited(code),
        None => RunEnd::FuelSpent,
    }
}

/// Runs a program for at most `fuel` entries. It takes memory at the start alone.
pub fn run(alloc: Global, program: &Program, fuel: u64) -> Result<Ran, NoMemory>
    ensures state { IfOk result (λ ran. plain program.now ran.count ≡ Some ran.machine) }
    ensures end { IfOk result (λ ran. EndsBy program.now fuel ran.count ran.machine ran.end) }
{
    let mut machine = Machine::start(alloc, program)?;
    for count in 0..fuel {
        if !machine.step(program) {
            let end = stop(&machine);
            return Ok(Ran {
                machine,
                end,
                count,
            });
        }
    }
    let end = spend(&machine);
    Ok(Ran {
        machine,
        end,
        count: fuel,
    })
}
