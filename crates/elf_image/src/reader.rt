//! Reading the image of a program.

ghost use Rattle.std.specs.Prelude.{◌≡◌, ◌≢◌, ◌≤◌, length, All, IfOk, IfErr, IsOkUnless};
ghost use Rattle.elf_image.specs.Faults.{no_memory};
ghost use Rattle.elf_image.specs.Headers.{program_headers};
ghost use Rattle.elf_image.specs.Images.{headers_address, holds_headers, segment_of, segments_of, IsImage};
ghost use Rattle.elf_image.specs.Layout.{IsLaidOut};
ghost use Rattle.elf_image.specs.Rules.{file_range, image_fault, table_range, IfSegment, IsInFile, IsInMemory};
ghost use Rattle.elf_image.specs.Spans.{end_of};

use crate::cursor::Cursor;
use crate::fault::{ElfFault, ElfKind};
use crate::headers::{FileHeader, ProgramHeader};
use crate::parts::{Bytes, Image, Segment, Segments};
use crate::rules::{check_entry, check_headers, read_file_header};
use std::alloc::{AllocError, Global};

/// The program headers that a file header names.
#[tactic(auto, using(crate::proofs::Tables::tables))]
fn read_program_headers(
    alloc: Global,
    file: &[u8],
    header: &FileHeader,
) -> Result<Vec<ProgramHeader>, AllocError>
    requires { end_of (table_range header.now) ≤ length file.now }
    ensures { IfOk result (λ headers. headers.items ≡ program_headers file.now header.now.table header.now.header_count) }
{
    let mut headers = Vec::with_capacity(alloc, usize::from(header.header_count))?;
    let mut cursor = Cursor {
        file,
        place: header.table as usize,
    };
    for _index in 0..header.header_count {
        headers.push(ProgramHeader::read(&mut cursor))?;
    }
    Ok(headers)
}

/// The segment of a program header, with its bytes in the file.
fn copy_segment(alloc: Global, file: &[u8], header: &ProgramHeader) -> Result<Segment, AllocError>
    requires { IsInFile (length file.now) header.now }
    ensures { IfOk result (λ segment. segment ≡ segment_of file.now header.now) }
{
    let start = header.offset as usize;
    let end = (header.offset + header.file_size) as usize;
    Ok(Segment {
        at: header.address,
        size: header.memory_size,
        bytes: Bytes::from_vec(Vec::from_slice(alloc, &file[start..end])?),
        read: header.is_readable(),
        write: header.is_writable(),
        execute: header.is_executable(),
    })
}

/// The segments of a file, in its order.
#[tactic(auto, unfolding(crate::specs::Images::segments_of))]
fn copy_segments(
    alloc: Global,
    file: &[u8],
    headers: &[ProgramHeader],
) -> Result<Vec<Segment>, AllocError>
    requires { All (IfSegment (IsInFile (length file.now))) headers.now }
    ensures { IfOk result (λ segments. segments.items ≡ segments_of file.now headers.now) }
{
    let mut segments = Vec::new(alloc);
    for header in headers {
        if header.is_segment() {
            segments.push(copy_segment(alloc, file, header)?)?;
        }
    }
    Ok(segments)
}

impl ProgramHeader {
    /// Whether the file range of this segment holds all program headers.
    fn holds_headers(&self, file_header: &FileHeader) -> bool
        ensures { result ≡ holds_headers file_header.now self.now }
    {
        self.is_segment() && self.file_range().holds(file_header.table_range())
    }
}

/// The address of the program headers in the first segment whose file range holds them all, or 0.
#[tactic(auto, unfolding(crate::specs::Images::headers_address))]
fn headers_address(file_header: &FileHeader, headers: &[ProgramHeader]) -> u64
    requires { All (IfSegment IsInMemory) headers.now }
    ensures { result ≡ headers_address file_header.now headers.now }
{
    for header in headers {
        if header.holds_headers(file_header) {
            return header.address + (file_header.table - header.offset);
        }
    }
    0
}

/// Reads the image of a program: a static ELF-64 executable for arm64.
///
/// `Ok` comes exactly where the bytes are an image, and it is that image; `Err` with a kind other
/// than `NoMemory` exactly where they are none, and it is the first rule that fails, with its place.
/// `NoMemory`, with place 0, may come where memory runs out, whatever the bytes.
#[tactic(auto, using(crate::proofs::RuleKinds::kinds), unfolding(crate::specs::Rules::image_fault, crate::specs::Images::image_of))]
pub fn read_image(alloc: Global, bytes: &[u8]) -> Result<Image, ElfFault>
    ensures ok { IfOk result (IsImage bytes.now) }
    ensures laid_out { IfOk result IsLaidOut }
    ensures fault { IfErr result (λ fault. fault.kind ≢ ElfKind.NoMemory → image_fault bytes.now ≡ Some fault) }
    ensures memory { IfErr result (λ fault. fault.kind ≡ ElfKind.NoMemory → fault ≡ no_memory) }
    ensures complete { image_fault bytes.now ≡ None → IsOkUnless result no_memory }
{
    let header = read_file_header(bytes)?;
    let headers = read_program_headers(alloc, bytes, &header)?;
    check_headers(bytes.len(), &headers)?;
    check_entry(header.entry, &headers)?;
    let segments = copy_segments(alloc, bytes, &headers)?;
    Ok(Image {
        entry: header.entry,
        headers_at: headers_address(&header, &headers),
        header_count: header.header_count,
        segments: Segments::from_vec(segments),
    })
}
