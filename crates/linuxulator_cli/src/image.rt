// From the bytes of a file to the program that runs.
ghost use Rattle.std.specs.Prelude.{◌≡◌, ◌≢◌, ◌<◌, length, IfOk, IfErr, IfNone};
ghost use Rattle.linuxulator_cli.specs.Programs.{IsProgramOf, RefusesImage, program_of, segment_program, refusal};

use crate::outcome::End;
use elf_image::{ElfFault, ElfKind, Image, Segment, read_image};
use plain_machine::Program;
use std::alloc::Global;

// The program that begins at `entry` in this segment.
fn make_program(entry: u64, segment: Segment) -> Program
    ensures { result ≡ segment_program entry segment }
{
    Program::new(entry, segment.at, segment.size, segment.bytes.into_vec())
}

// The program of an image, where it has one header.
fn single_program(image: Image) -> Option<Program>
    requires { 0 < length image.segments }
    ensures program { result ≡ program_of image }
    ensures none { IfNone result (image.header_count ≢ 1) }
{
    if image.header_count != 1 {
        return None;
    }
    let entry = image.entry;
    let mut segments = image.segments.into_vec();
    Some(make_program(entry, segments.remove(0)))
}

// The end of a run whose image is refused.
fn refuse(fault: ElfFault) -> End
    ensures { result ≡ refusal fault }
{
    match fault.kind {
        ElfKind::NoMemory => End::NoMemory,
        ElfKind::NotElf
        | ElfKind::WrongClass
        | ElfKind::WrongType
        | ElfKind::WrongMachine
        | ElfKind::TooManySegments
        | ElfKind::HeaderOutside
        | ElfKind::Interpreter
        | ElfKind::WriteAndExecute
        | ElfKind::SegmentOutside
        | ElfKind::SegmentsOverlap
        | ElfKind::EntryOutside => End::BadImage(fault),
    }
}

/// The program that a file is, or the end of a run whose image is refused or has other than one header.
pub fn read_program(alloc: Global, file: &[u8]) -> Result<Program, End>
    ensures accepted { IfOk result (IsProgramOf file.now) }
    ensures refused { IfErr result (RefusesImage file.now) }
{
    let image = match read_image(alloc, file) {
        Ok(image) => image,
        Err(fault) => return Err(refuse(fault)),
    };
    match single_program(image) {
        Some(program) => Ok(program),
        None => Err(End::NotBuilt { pc: 0 }),
    }
}
