// The Linux machine, as the player uses it.
ghost use Rattle.std.specs.Prelude.{◌≡◌, ◌<◌, ◌≤◌, All, IfOk, length, map, option_copied, string_bytes};
ghost use Rattle.elf_image.specs.Layout.{IsPlaced};
ghost use Rattle.lx_machine.specs.Lists.{at_place};
ghost use Rattle.lx_machine.specs.Interests.{side_holds};
ghost use Rattle.lx_machine.specs.Step.{LStep};
ghost use Rattle.lx_machine.specs.Start.{start};
ghost use Rattle.lx_machine.specs.Stack.{arguments_of, name_of};
ghost use Rattle.lx_scheduler.specs.Play.{stage_in, trap_in, last_put, Takes, Reaches};

use elf_image::Image;
use linux_abi::LinuxSig;
use lx_calls::shape::stage_of;
use lx_machine::buffer::NoMemory;
use lx_machine::calls::Stage;
use lx_machine::label::{Label, LxSide};
use lx_machine::refusal::LxRefusal;
use lx_machine::state::LinuxState;
use lx_machine::threads::{GuestEnd, LxThread};
use lx_step::state::LxState;
use std::alloc::Global;

/// A guest in the Linux machine, and how many steps it has taken.
#[derive(Drop)]
pub struct Machine {
    state: LxState,
    taken: u64,
}

impl Machine {
    /// The guest at its start, by these rules, 1 or 2. The words are the image's name and the arguments.
    pub fn start(
        alloc: Global,
        image: &Image,
        words: &[String],
        input: &[u8],
        rules: u8,
    ) -> Result<Machine, NoMemory>
        requires placed { All IsPlaced image.now.segments }
        requires known { (1 ≤ rules) × (rules ≤ 2) }
        ensures { IfOk result (λ machine. machine.state.state ≡ start image.now (name_of (map string_bytes words.now)) (arguments_of (map string_bytes words.now)) input.now 0 rules) }
    {
        let state = LxState::start(alloc, image, words, input, 0, rules)?;
        Ok(Machine { state, taken: 0 })
    }

    /// Takes the step with this label, and answers whether there is one.
    #[tactic(auto, using(crate::proofs::Runs::one, crate::proofs::Runs::stays))]
    pub fn take(&mut self, alloc: Global, label: &Label) -> Result<bool, NoMemory>
        ensures takes { Takes (LStep self.old.state.state label.now) self.old.state.state self.new.state.state result }
        ensures reaches { Reaches self.old.state.state self.new.state.state }
    {
        match self.state.step(alloc, label) {
            Ok(()) => {
                self.taken = self.taken.saturating_add(1);
                Ok(true)
            }
            Err(LxRefusal::NoStep) => Ok(false),
            Err(LxRefusal::NoMemory) => Err(NoMemory),
        }
    }

    /// How many steps the guest has taken, up to 2^64 - 1.
    pub fn taken(&self) -> u64
        ensures { result ≡ self.now.taken }
    {
        self.taken
    }

    /// How the guest has ended, once it has.
    pub fn end(&self) -> Option<GuestEnd>
        ensures { result ≡ self.now.state.state.end }
    {
        self.state.state().end
    }

    /// The state of the guest.
    pub fn state(&self) -> &LinuxState
        ensures { result.now ≡ self.now.state.state }
    {
        self.state.state()
    }

    /// The thread in this slot.
    pub fn thread(&self, slot: u8) -> Option<&LxThread>
        requires { slot < 128 }
        ensures { option_copied result ≡ at_place self.now.state.state.threads slot }
    {
        self.state.state().threads.as_slice()[slot as usize].as_ref()
    }

    /// What the call of the thread in this slot does next, where there is a thread in a call.
    pub fn stage(&self, slot: u8) -> Option<Stage>
        requires { slot < 128 }
        ensures { result ≡ stage_in self.now.state.state slot }
    {
        let call = self.thread(slot)?.call.as_ref()?;
        Some(stage_of(call))
    }

    /// The signal of the trap of the thread in this slot, where there is one that has trapped.
    pub fn trap(&self, slot: u8) -> Option<LinuxSig>
        requires { slot < 128 }
        ensures { result ≡ trap_in self.now.state.state slot }
    {
        let trap = self.thread(slot)?.trap?;
        Some(trap.signal)
    }

    /// How many bytes a console room holds.
    pub fn held(&self, side: LxSide) -> usize
        ensures { result ≡ length (side_holds self.now.state.state.files side) }
    {
        let files = &self.state.state().files;
        match side {
            LxSide::Out => files.out.held(),
            LxSide::Err => files.err.held(),
        }
    }

    /// The bytes that a console room holds, which are the last ones that were ever put into it.
    pub fn room(&self, side: LxSide) -> &[u8]
        ensures { result.now ≡ last_put self.now.state.state side }
    {
        let files = &self.state.state().files;
        let put = match side {
            LxSide::Out => files.put_out.as_slice(),
            LxSide::Err => files.put_err.as_slice(),
        };
        let first = put.len().saturating_sub(self.held(side));
        &put[first..]
    }

    /// Takes all bytes out of a console room.
    #[tactic(auto, using(crate::proofs::Runs::here))]
    pub fn drain(&mut self, alloc: Global, side: LxSide) -> Result<Vec<u8>, NoMemory>
        ensures bytes { IfOk result (λ bytes. bytes.items ≡ last_put self.old.state.state side) }
        ensures reaches { Reaches self.old.state.state self.new.state.state }
    {
        let Ok(bytes) = Vec::from_slice(alloc, self.room(side)) else {
            return Err(NoMemory);
        };
        let n = bytes.len() as u64;
        self.take(alloc, &Label::Drain(side, n))?;
        Ok(bytes)
    }
}
