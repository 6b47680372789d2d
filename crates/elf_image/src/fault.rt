//! Why a file is refused.

ghost use Rattle.std.specs.Prelude.{◌≡◌};
ghost use Rattle.elf_image.specs.Faults.{kind_text, no_memory};

use std::alloc::{AllocError, AllocFailed};

/// Why a file is refused.
#[derive(Clone, Copy, Debug)]
pub enum ElfKind {
    /// The file is shorter than a file header, or does not begin with the magic number.
    NotElf,
    /// The file is not of 64 bits, not little-endian, or not of version 1.
    WrongClass,
    /// The file is not an executable with fixed addresses.
    WrongType,
    /// The file is not for arm64.
    WrongMachine,
    /// The file has more than 64 program headers.
    TooManySegments,
    /// The program headers have another size, or do not end within the file.
    HeaderOutside,
    /// The program asks for an interpreter.
    Interpreter,
    /// A segment is both writable and executable.
    WriteAndExecute,
    /// A segment does not lie in the file, or not in memory where it may.
    SegmentOutside,
    /// A segment has a page in common with an earlier one.
    SegmentsOverlap,
    /// The entry is not the address of an instruction in an executable segment.
    EntryOutside,
    /// Memory ran out; this says nothing of the file.
    NoMemory,
}

impl ElfKind {
    /// The reason in words, as the last line of a run has it.
    pub fn text(self) -> &'static str
        ensures { result.now ≡ kind_text self }
    {
        match self {
            ElfKind::NotElf => "not an ELF file",
            ElfKind::WrongClass => "wrong class",
            ElfKind::WrongType => "wrong type",
            ElfKind::WrongMachine => "wrong machine",
            ElfKind::TooManySegments => "too many segments",
            ElfKind::HeaderOutside => "header outside",
            ElfKind::Interpreter => "interpreter",
            ElfKind::WriteAndExecute => "write and execute",
            ElfKind::SegmentOutside => "segment outside",
            ElfKind::SegmentsOverlap => "segments overlap",
            ElfKind::EntryOutside => "entry outside",
            ElfKind::NoMemory => "no memory",
        }
    }

    /// The refusal for this reason at a place.
    pub(crate) fn at(self, place: u64) -> ElfFault
        ensures { result ≡ record { kind = self; place = place } }
    {
        ElfFault { kind: self, place }
    }
}

/// A refusal: why, and where. The place is an offset in the file, for the rules of a program header
/// its index, and 0 for want of memory.
#[derive(Clone, Copy, Debug)]
pub struct ElfFault {
    pub kind: ElfKind,
    pub place: u64,
}

impl From<AllocError> for ElfFault {
    ghost from_gives = { λ _ fault. fault ≡ no_memory };

    fn from(_error: AllocError) -> ElfFault {
        ElfKind::NoMemory.at(0)
    }
}

impl<T: Drop> From<AllocFailed<T>> for ElfFault {
    ghost from_gives = { λ _ fault. fault ≡ no_memory };

    fn from(_error: AllocFailed<T>) -> ElfFault {
        ElfKind::NoMemory.at(0)
    }
}
