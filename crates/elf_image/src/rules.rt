//! The rules that an image keeps, in their order: those of the file header, those of each program
//! header, and that of the entry.

ghost use Rattle.std.specs.Prelude.{◌≡◌, ◌≤◌, ◌&&◌, length, IsTrue, IfNone, IfOk, OnOk, MatchResult, All};
ghost use Rattle.std.specs.Bool.{OnFalse};
ghost use Rattle.std.specs.List.{list_any};
ghost use Rattle.elf_image.specs.Faults.{first_fault};
ghost use Rattle.elf_image.specs.Headers.{file_header};
ghost use Rattle.elf_image.specs.Rules.{entry_outside, faults_of, file_header_fault, header_fault, holds_instruction, is_executable, is_outside, is_writable, overlaps, table_range, IfSegment, IsInFile, IsInMemory};
ghost use Rattle.elf_image.specs.Spans.{end_of};

use crate::fault::{ElfFault, ElfKind};
use crate::headers::{FILE_HEADER_SIZE, FileHeader, PROGRAM_HEADER_SIZE, ProgramHeader};
use crate::span::Span;

/// The first bytes of e_ident.
const MAGIC: [u8; 4] = *b"\x7fELF";

/// e_ident[EI_CLASS]: 64 bits.
const ELFCLASS64: u8 = 2;

/// e_ident[EI_DATA]: little-endian.
const ELFDATA2LSB: u8 = 1;

/// e_ident[EI_VERSION]: the one version.
const EV_CURRENT: u8 = 1;

/// e_type: an executable with fixed addresses.
const ET_EXEC: u16 = 2;

/// e_machine: arm64.
const EM_AARCH64: u16 = 183;

/// p_type: the path of an interpreter.
const PT_INTERP: u32 = 3;

/// The most program headers.
const MOST_HEADERS: u16 = 64;

/// The lowest address of a segment.
const LOWEST_ADDRESS: u64 = 0x10000;

/// The first address past all segments.
const ADDRESS_LIMIT: u64 = 0x7f00_0000_0000;

/// The bytes of an instruction.
const INSTRUCTION_SIZE: u64 = 4;

/// The places of fields in the file header, each under its name.
const EI_CLASS: u64 = 4;

const EI_DATA: u64 = 5;

const EI_VERSION: u64 = 6;

const E_TYPE: u64 = 16;

const E_MACHINE: u64 = 18;

const E_ENTRY: u64 = 24;

const E_PHOFF: u64 = 32;

const E_PHNUM: u64 = 56;

/// The file header, or its fault.
#[tactic(auto, unfolding(crate::specs::Rules::file_header_fault))]
pub fn read_file_header(file: &[u8]) -> Result<FileHeader, ElfFault>
    ensures fault { MatchResult result (λ _. file_header_fault file.now ≡ None) (λ fault. file_header_fault file.now ≡ Some fault) }
    ensures header { IfOk result (λ header. header ≡ file_header file.now) }
    ensures inside { IfOk result (λ header. end_of (table_range header) ≤ length file.now) }
{
    if file.len() < FILE_HEADER_SIZE || !file.starts_with(&MAGIC) {
        return Err(ElfKind::NotElf.at(0));
    }
    let header = FileHeader::read(file);
    if header.class != ELFCLASS64 {
        return Err(ElfKind::WrongClass.at(EI_CLASS));
    }
    if header.encoding != ELFDATA2LSB {
        return Err(ElfKind::WrongClass.at(EI_DATA));
    }
    if header.version != EV_CURRENT {
        return Err(ElfKind::WrongClass.at(EI_VERSION));
    }
    if header.kind != ET_EXEC {
        return Err(ElfKind::WrongType.at(E_TYPE));
    }
    if header.machine != EM_AARCH64 {
        return Err(ElfKind::WrongMachine.at(E_MACHINE));
    }
    if header.header_count > MOST_HEADERS {
        return Err(ElfKind::TooManySegments.at(E_PHNUM));
    }
    if header.header_size != PROGRAM_HEADER_SIZE
        || header.table_range().end() > file.len() as u128
    {
        return Err(ElfKind::HeaderOutside.at(E_PHOFF));
    }
    Ok(header)
}

impl ProgramHeader {
    /// Whether the segment's bytes may be both written and executed.
    fn is_writable_code(&self) -> bool
        ensures { result ≡ (is_writable self.now && is_executable self.now) }
    {
        self.is_writable() && self.is_executable()
    }

    /// Whether the segment does not lie in a file of this length, or not in memory where it may.
    fn is_outside(&self, file_length: usize) -> bool
        ensures value { result ≡ is_outside file_length self.now }
        ensures in_file { OnFalse result (IsInFile file_length self.now) }
        ensures in_memory { OnFalse result (IsInMemory self.now) }
    {
        self.file_range().end() > file_length as u128
            || self.memory_size < self.file_size
            || self.address < LOWEST_ADDRESS
            || self.memory_range().end() > u128::from(ADDRESS_LIMIT)
    }

    /// Whether this segment has a page in common with an earlier one.
    fn overlaps(&self, earlier: &ProgramHeader) -> bool
        ensures { result ≡ overlaps self.now earlier.now }
    {
        earlier.is_segment() && earlier.memory_range().shares_page(self.memory_range())
    }

    /// Whether this segment has a page in common with any of these.
    fn overlaps_any(&self, earlier: &[ProgramHeader]) -> bool
        ensures { result ≡ list_any (overlaps self.now) earlier.now }
    {
        earlier.iter().any(|earlier| self.overlaps(earlier))
    }

    /// Whether the instruction at an address lies inside this executable segment.
    fn holds_instruction(&self, address: u64) -> bool
        ensures { result ≡ holds_instruction address self.now }
    {
        let instruction = Span {
            start: address,
            size: INSTRUCTION_SIZE,
        };
        self.is_segment() && self.is_executable() && self.memory_range().holds(instruction)
    }

    /// The fault of this program header, by the length of the file, the headers before it and its index.
    #[tactic(auto, unfolding(crate::specs::Rules::header_fault))]
    fn fault(&self, file_length: usize, earlier: &[ProgramHeader], index: u64) -> Option<ElfFault>
        ensures fault { result ≡ header_fault file_length earlier.now index self.now }
        ensures in_file { IfNone result (IfSegment (IsInFile file_length) self.now) }
        ensures in_memory { IfNone result (IfSegment IsInMemory self.now) }
    {
        if self.kind == PT_INTERP {
            return Some(ElfKind::Interpreter.at(index));
        }
        if !self.is_segment() {
            return None;
        }
        if self.is_writable_code() {
            return Some(ElfKind::WriteAndExecute.at(index));
        }
        if self.is_outside(file_length) {
            return Some(ElfKind::SegmentOutside.at(index));
        }
        if self.overlaps_any(earlier) {
            return Some(ElfKind::SegmentsOverlap.at(index));
        }
        None
    }
}

/// Checks the program headers of a file of this length, in their order.
pub fn check_headers(file_length: usize, headers: &[ProgramHeader]) -> Result<(), ElfFault>
    ensures fault { MatchResult result (λ _. first_fault (faults_of file_length headers.now) ≡ None) (λ fault. first_fault (faults_of file_length headers.now) ≡ Some fault) }
    ensures in_file { OnOk result (All (IfSegment (IsInFile file_length)) headers.now) }
    ensures in_memory { OnOk result (All (IfSegment IsInMemory) headers.now) }
{
    for (index, header) in headers.iter().enumerate() {
        if let Some(fault) = header.fault(file_length, &headers[..index], index as u64) {
            return Err(fault);
        }
    }
    Ok(())
}

/// Whether the instruction at an address lies inside an executable segment.
fn any_holds_instruction(headers: &[ProgramHeader], address: u64) -> bool
    ensures { result ≡ list_any (holds_instruction address) headers.now }
{
    headers
        .iter()
        .any(|header| header.holds_instruction(address))
}

/// Checks the address of the first instruction.
#[tactic(auto, unfolding(crate::specs::Rules::entry_outside))]
pub fn check_entry(entry: u64, headers: &[ProgramHeader]) -> Result<(), ElfFault>
    ensures { MatchResult result (λ _. entry_outside entry headers.now ≡ None) (λ fault. entry_outside entry headers.now ≡ Some fault) }
{
    if entry % INSTRUCTION_SIZE != 0 || !any_holds_instruction(headers, entry) {
        return Err(ElfKind::EntryOutside.at(E_ENTRY));
    }
    Ok(())
}
