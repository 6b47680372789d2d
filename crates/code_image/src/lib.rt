//! Images of programs that are nothing but code, as tests run them.
#![tactic(auto)]

ghost use Rattle.std.specs.Prelude.{◌≡◌, ◌++◌, IfOk, OnOk};
ghost use Rattle.code_image.specs.CodeImage as spec;
ghost use Rattle.code_image.specs.CodeImage.{words, program_header};

use std::alloc::{AllocError, Global};

/// The file header (elf(5), Elf64_Ehdr): a static program for arm64 that starts at 0x400078, with one program header.
static FILE_HEADER: [u32; 16] = [
    0x464c_457f,
    0x0001_0102,
    0,
    0,
    0x00b7_0002,
    1,
    0x0040_0078,
    0,
    0x40,
    0,
    0,
    0,
    0,
    0x0038_0040,
    1,
    0,
];

/// The bytes of both headers.
const HEADERS: u64 = 120;

/// The program header (elf(5), Elf64_Phdr): a file of so many bytes, all of it at 0x400000, with the rights to read and
/// execute.
fn program_header(len: u64) -> [u32; 14]
    ensures { result ≡ program_header len }
{
    let low = (len % (1 << 32)) as u32;
    let high = (len / (1 << 32)) as u32;
    [
        1,
        5,
        0,
        0,
        0x0040_0000,
        0,
        0x0040_0000,
        0,
        low,
        high,
        low,
        high,
        0x1000,
        0,
    ]
}

/// Words of 4 bytes each go behind these bytes.
fn push_words(bytes: &mut Vec<u8>, all: &[u32]) -> Result<(), AllocError>
    ensures { OnOk result (bytes.new.items ≡ bytes.old.items ++ words all.now) }
{
    match all {
        [] => Ok(()),
        [word, rest @ ..] => {
            bytes.extend_from_slice(&word.to_le_bytes())?;
            push_words(bytes, rest)
        }
    }
}

/// The image of a program that is this code: it is loaded at 0x400000, and starts with its first word, at 0x400078.
pub fn image_of(alloc: Global, code: &[u32]) -> Result<Vec<u8>, AllocError>
    ensures { IfOk result (λ file. file.items ≡ spec.image_of code.now) }
{
    let mut file = Vec::new(alloc);
    push_words(&mut file, &FILE_HEADER)?;
    push_words(&mut file, &program_header(HEADERS + 4 * code.len() as u64))?;
    push_words(&mut file, code)?;
    Ok(file)
}
