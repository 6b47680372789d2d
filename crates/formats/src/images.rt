//! What is read of bytes as an image.

use elf_image::read_image;
use std::alloc::{AllocError, Global};

// The letter of a right, where it is there.
fn letter(right: bool, letter: &'static str) -> &'static str {
    if right { letter } else { "-" }
}

/// The image that is read of the bytes, or why there is none.
pub fn write_image(text: &mut String, alloc: Global, bytes: &[u8]) -> Result<(), AllocError> {
    match read_image(alloc, bytes) {
        Ok(image) => {
            write!(
                text,
                "entry 0x{:x}, {} headers at 0x{:x}",
                image.entry, image.header_count, image.headers_at
            )?;
            for segment in image.segments.as_slice() {
                write!(text, "; 0x{:x} 0x{:x} ", segment.at, segment.size)?;
                text.push_str(letter(segment.read, "r"))?;
                text.push_str(letter(segment.write, "w"))?;
                text.push_str(letter(segment.execute, "x"))?;
                write!(text, " {} bytes", segment.bytes.as_slice().len())?;
            }
            Ok(())
        }
        Err(fault) => write!(text, "{} at {}", fault.kind.text(), fault.place),
    }
}
