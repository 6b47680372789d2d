//! The file header and the program headers of an ELF-64 file.

ghost use Rattle.std.specs.Prelude.{◌≡◌, ◌≤◌, ◌+◌, length};
ghost use Rattle.elf_image.specs.Headers.{file_header, program_header};
ghost use Rattle.elf_image.specs.Rules.{file_range, is_executable, is_readable, is_segment, is_writable, memory_range, table_range};

use crate::cursor::Cursor;
use crate::span::Span;

/// The bytes of a file header.
pub const FILE_HEADER_SIZE: usize = 64;

/// The bytes of a program header.
pub const PROGRAM_HEADER_SIZE: u16 = 56;

/// PT_LOAD: the header of a segment to be loaded.
const PT_LOAD: u32 = 1;

/// PF_X: a segment's bytes may be executed.
const PF_X: u32 = 1;

/// PF_W: they may be written.
const PF_W: u32 = 2;

/// PF_R: they may be read.
const PF_R: u32 = 4;

/// What is used of a file header.
#[derive(Clone, Copy)]
pub struct FileHeader {
    /// e_ident[EI_CLASS].
    pub class: u8,
    /// e_ident[EI_DATA].
    pub encoding: u8,
    /// e_ident[EI_VERSION].
    pub version: u8,
    /// e_type.
    pub kind: u16,
    /// e_machine.
    pub machine: u16,
    /// e_entry: the address of the first instruction.
    pub entry: u64,
    /// e_phoff: the place of the program headers in the file.
    pub table: u64,
    /// e_phentsize: the bytes of a program header.
    pub header_size: u16,
    /// e_phnum: the number of program headers.
    pub header_count: u16,
}

impl FileHeader {
    /// The header at the start of a file.
    #[tactic(auto, unfolding(crate::specs::Headers::file_header))]
    pub fn read(file: &[u8]) -> FileHeader
        requires { 64 ≤ length file.now }
        ensures { result ≡ file_header file.now }
    {
        let mut cursor = Cursor { file, place: 0 };
        cursor.skip(4);
        let class = cursor.byte();
        let encoding = cursor.byte();
        let version = cursor.byte();
        cursor.skip(9);
        let kind = cursor.half();
        let machine = cursor.half();
        cursor.skip(4);
        let entry = cursor.xword();
        let table = cursor.xword();
        cursor.skip(14);
        let header_size = cursor.half();
        let header_count = cursor.half();
        FileHeader {
            class,
            encoding,
            version,
            kind,
            machine,
            entry,
            table,
            header_size,
            header_count,
        }
    }

    /// Where the program headers lie in the file.
    pub fn table_range(&self) -> Span
        ensures { result ≡ table_range self.now }
    {
        Span {
            start: self.table,
            size: u64::from(PROGRAM_HEADER_SIZE) * u64::from(self.header_count),
        }
    }
}

/// What is used of a program header.
#[derive(Clone, Copy)]
pub struct ProgramHeader {
    /// p_type.
    pub kind: u32,
    /// p_flags.
    pub flags: u32,
    /// p_offset: the place of the segment's bytes in the file.
    pub offset: u64,
    /// p_vaddr: the address of the segment.
    pub address: u64,
    /// p_filesz: the bytes of the segment in the file.
    pub file_size: u64,
    /// p_memsz: the bytes of the segment in memory.
    pub memory_size: u64,
}

impl ProgramHeader {
    /// The next header of a file.
    #[tactic(auto, unfolding(crate::specs::Headers::program_header))]
    pub fn read(cursor: &mut Cursor<'_>) -> ProgramHeader
        requires { cursor.old.place + 56 ≤ length cursor.old.file.now }
        ensures value { result ≡ program_header cursor.old.file.now cursor.old.place }
        ensures file { cursor.new.file ≡ cursor.old.file }
        ensures place { cursor.new.place ≡ cursor.old.place + 56 }
    {
        let kind = cursor.word();
        let flags = cursor.word();
        let offset = cursor.xword();
        let address = cursor.xword();
        cursor.skip(8);
        let file_size = cursor.xword();
        let memory_size = cursor.xword();
        cursor.skip(8);
        ProgramHeader {
            kind,
            flags,
            offset,
            address,
            file_size,
            memory_size,
        }
    }

    /// Whether this is a segment to be loaded, and not an empty one.
    pub fn is_segment(&self) -> bool
        ensures { result ≡ is_segment self.now }
    {
        self.kind == PT_LOAD && !(self.memory_size == 0 && self.file_size == 0)
    }

    /// Whether the segment's bytes may be executed.
    pub fn is_executable(&self) -> bool
        ensures { result ≡ is_executable self.now }
    {
        self.flags & PF_X != 0
    }

    /// Whether the segment's bytes may be written.
    pub fn is_writable(&self) -> bool
        ensures { result ≡ is_writable self.now }
    {
        self.flags & PF_W != 0
    }

    /// Whether the segment's bytes may be read.
    pub fn is_readable(&self) -> bool
        ensures { result ≡ is_readable self.now }
    {
        self.flags & PF_R != 0
    }

    /// The segment's bytes in the file.
    pub fn file_range(&self) -> Span
        ensures { result ≡ file_range self.now }
    {
        Span {
            start: self.offset,
            size: self.file_size,
        }
    }

    /// The bytes that the segment takes in memory.
    pub fn memory_range(&self) -> Span
        ensures { result ≡ memory_range self.now }
    {
        Span {
            start: self.address,
            size: self.memory_size,
        }
    }
}
