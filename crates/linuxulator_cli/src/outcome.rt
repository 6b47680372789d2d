// How the program ends.
ghost use Rattle.std.specs.Prelude.{◌≡◌};
ghost use Rattle.linuxulator_cli.specs.Lines.{status_of as status_number};

use crate::lines::status_of;
use crate::words::UsageFault;
use elf_image::ElfFault;

/// The most bytes of an image: 16 MiB.
pub const IMAGE_LIMIT: u64 = 16_777_216;

/// The most entries of a run.
pub const FUEL: u64 = 2_000_000;

/// How a top call ends.
#[derive(Clone, Copy)]
pub enum End {
    /// The guest exited with this code.
    Exited(u8),
    /// The run had all its entries, and the guest hasn't ended.
    FuelSpent,
    /// The words aren't in the grammar.
    Usage(UsageFault),
    /// The image can't be read. The shelf's count of loads rose.
    LoadFault,
    /// A sink failed. The count of out or err rose.
    WriteFault,
    /// The image is refused.
    BadImage(ElfFault),
    /// The image is longer than `IMAGE_LIMIT` bytes.
    TooLong,
    /// What stands at this address isn't built; at 0, the image itself.
    NotBuilt { pc: u64 },
    /// Want of memory.
    NoMemory,
}

/// The end, its status, and the number of entries that were made.
#[derive(Clone, Copy)]
pub struct Outcome {
    pub end: End,
    pub status: u8,
    pub count: u64,
}

impl End {
    /// The outcome of this end after that many entries.
    pub fn after(self, count: u64) -> Outcome
        ensures { result ≡ record { end = self; status = status_number self; count = count } }
    {
        Outcome {
            end: self,
            status: status_of(self),
            count,
        }
    }
}
