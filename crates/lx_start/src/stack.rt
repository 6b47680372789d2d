//! The first stack: what a program finds at sp (execve(2), getauxval(3)).
ghost use Rattle.std.specs.Prelude.{◌≡◌, ℕ, ◌+◌, ◌-◌, ◌*◌, ◌/◌, ◌<◌, ◌≤◌, ◌++◌, ◌∷◌, [], ◌^◌, map, length, string_bytes, IfOk, OnOk};
ghost use Rattle.places.specs.Places.{bytes_of};
ghost use Rattle.lx_machine.specs.Stack.{argument_places, auxiliary, ended_texts, random_bytes, stack_words, texts};
ghost use Rattle.lx_machine.specs.Start.{headers_of};
ghost use Rattle.lx_start.specs.FirstStack.{IsFirstStack, IsTexts};

use elf_image::Image;
use linux_abi::auxv::{
    AT_EGID, AT_ENTRY, AT_EUID, AT_EXECFN, AT_GID, AT_HWCAP, AT_NULL, AT_PAGESZ, AT_PHDR, AT_PHENT,
    AT_PHNUM, AT_RANDOM, AT_SECURE, AT_UID, HWCAP_ATOMICS,
};
use lx_machine::buffer::NoMemory;
use std::alloc::{AllocError, Global};

/// Where the stack ends. The page of the return code stands there.
pub const STACK_END: u64 = 0x7fff_ff00_0000;

/// How many pages the stack has.
pub const STACK_PAGES: u64 = 64;

/// The lowest address of the stack.
const STACK_START: u64 = 0x7fff_fefc_0000;

/// The bytes of the stack, and the words of 8 bytes that it has room for.
const STACK_BYTES: usize = 0x4_0000;

const STACK_WORDS: usize = 0x8000;

/// What stands above the image name: its zero byte, and 8 more.
const NAME_END: u64 = 9;

/// The bits of 2^64 over the golden ratio, which the second half of the random bytes has turned.
const GOLDEN: u64 = 0x9e37_79b9_7f4a_7c15;

/// The user and the group of the program.
const USER: u64 = 1000;

/// The bytes of a program header (ELF-64, Elf64_Phdr) and of a page.
const HEADER_BYTES: u64 = 56;

const PAGE_BYTES: u64 = 4096;

/// What a first stack has above its table: the random bytes and the texts behind them, where they stand, and where the
/// image name stands among them.
#[derive(Drop)]
pub struct Texts {
    pub at: u64,
    pub name_at: u64,
    pub bytes: Vec<u8>,
}

/// What a first stack has: sp, at which the bytes of the table stand, and the random bytes and texts with their address.
#[derive(Drop)]
pub struct FirstStack {
    pub sp: u64,
    pub table: Vec<u8>,
    pub texts_at: u64,
    pub texts: Vec<u8>,
}

/// Appends a text and a zero byte.
fn push_text(bytes: &mut Vec<u8>, text: &[u8]) -> Result<(), AllocError>
    ensures { OnOk result (bytes.new.items ≡ bytes.old.items ++ (text.now ++ 0 ∷ [])) }
{
    bytes.extend_from_slice(text)?;
    Ok(bytes.push(0)?)
}

/// Appends texts with a zero byte behind each.
fn push_texts(bytes: &mut Vec<u8>, texts: &[String]) -> Result<(), AllocError>
    ensures { OnOk result (bytes.new.items ≡ bytes.old.items ++ ended_texts (map string_bytes texts.now)) }
{
    for text in texts {
        push_text(bytes, text.as_bytes())?;
    }
    Ok(())
}

/// Appends 16 bytes at random (AT_RANDOM).
fn push_random(bytes: &mut Vec<u8>, seed: u64) -> Result<(), AllocError>
    ensures { OnOk result (bytes.new.items ≡ bytes.old.items ++ random_bytes seed) }
{
    bytes.extend_from_slice(&seed.to_le_bytes())?;
    bytes.extend_from_slice(&(seed ^ GOLDEN).to_le_bytes())
}

/// Appends the arguments, the image name behind them, and 8 zero bytes.
fn push_all_texts(bytes: &mut Vec<u8>, name: &[u8], arguments: &[String]) -> Result<(), AllocError>
    ensures { OnOk result (bytes.new.items ≡ bytes.old.items ++ texts name.now (map string_bytes arguments.now)) }
{
    push_texts(bytes, arguments)?;
    push_text(bytes, name)?;
    bytes.extend_from_slice(&[0; 8])
}

/// The bytes above the table.
fn bytes_above(
    alloc: Global,
    name: &[u8],
    arguments: &[String],
    seed: u64,
) -> Result<Vec<u8>, AllocError>
    ensures { IfOk result (λ bytes. bytes.items ≡ random_bytes seed ++ texts name.now (map string_bytes arguments.now)) }
{
    let mut bytes = Vec::new(alloc);
    push_random(&mut bytes, seed)?;
    push_all_texts(&mut bytes, name, arguments)?;
    Ok(bytes)
}

/// What the stack has above the table. `NoMemory`: memory is wanting, or the stack has no room for so many bytes.
fn texts_of(alloc: Global, name: &[u8], arguments: &[String], seed: u64) -> Result<Texts, NoMemory>
    ensures { IfOk result (IsTexts name.now (map string_bytes arguments.now) seed) }
{
    let Ok(bytes) = bytes_above(alloc, name, arguments, seed) else {
        return Err(NoMemory);
    };
    if bytes.len() > STACK_BYTES {
        return Err(NoMemory);
    }
    let at = STACK_END - bytes.len() as u64;
    let name_at = STACK_END - NAME_END - name.len() as u64;
    Ok(Texts { at, name_at, bytes })
}

/// Appends the address of each text, the first of which stands at `at`.
fn push_places(words: &mut Vec<u64>, at: u64, texts: &[String]) -> Result<(), AllocError>
    requires { at + length (ended_texts (map string_bytes texts.now)) < 2 ^ 64 }
    ensures { OnOk result (words.new.items ≡ words.old.items ++ argument_places at (map string_bytes texts.now)) }
{
    let mut next = at;
    for text in texts {
        words.push(next)?;
        next += text.len() as u64 + 1;
    }
    Ok(())
}

/// The auxiliary vector (getauxval(3)).
fn auxiliary(image: &Image, random: u64, name: u64) -> [u64; 28]
    ensures { result ≡ auxiliary (headers_of image.now) random name }
{
    [
        AT_PHDR,
        image.headers_at,
        AT_PHENT,
        HEADER_BYTES,
        AT_PHNUM,
        u64::from(image.header_count),
        AT_PAGESZ,
        PAGE_BYTES,
        AT_ENTRY,
        image.entry,
        AT_UID,
        USER,
        AT_EUID,
        USER,
        AT_GID,
        USER,
        AT_EGID,
        USER,
        AT_HWCAP,
        HWCAP_ATOMICS,
        AT_SECURE,
        0,
        AT_RANDOM,
        random,
        AT_EXECFN,
        name,
        AT_NULL,
        0,
    ]
}

/// Appends the count of arguments, the image name's address and those of the arguments.
fn push_arguments(
    words: &mut Vec<u64>,
    texts: &Texts,
    arguments: &[String],
) -> Result<(), AllocError>
    requires few { length arguments.now ≤ 0x8000 }
    requires fits { texts.now.at + 16 + length (ended_texts (map string_bytes arguments.now)) < 2 ^ 64 }
    ensures { OnOk result (words.new.items ≡ words.old.items ++ (length arguments.now + 1) ∷ texts.now.name_at ∷ argument_places (texts.now.at + 16) (map string_bytes arguments.now)) }
{
    words.push(arguments.len() as u64 + 1)?;
    words.push(texts.name_at)?;
    push_places(words, texts.at + 16, arguments)
}

/// The table: what stands at sp, in words.
fn table_of(
    alloc: Global,
    image: &Image,
    texts: &Texts,
    arguments: &[String],
) -> Result<Vec<u64>, AllocError>
    requires few { length arguments.now ≤ 0x8000 }
    requires fits { texts.now.at + 16 + length (ended_texts (map string_bytes arguments.now)) < 2 ^ 64 }
    ensures { IfOk result (λ words. words.items ≡ (length arguments.now + 1) ∷ texts.now.name_at ∷ (argument_places (texts.now.at + 16) (map string_bytes arguments.now) ++ 0 ∷ 0 ∷ auxiliary (headers_of image.now) texts.now.at texts.now.name_at)) }
{
    let mut words = Vec::new(alloc);
    push_arguments(&mut words, texts, arguments)?;
    words.extend_from_slice(&[0, 0])?;
    words.extend_from_slice(&auxiliary(image, texts.at, texts.name_at))?;
    Ok(words)
}

/// Appends words of 8 bytes each.
fn push_words(bytes: &mut Vec<u8>, words: &[u64]) -> Result<(), AllocError>
    ensures { OnOk result (bytes.new.items ≡ bytes.old.items ++ stack_words words.now) }
{
    for word in words {
        bytes.extend_from_slice(&word.to_le_bytes())?;
    }
    Ok(())
}

/// The bytes of words.
fn bytes_of_words(alloc: Global, words: &[u64]) -> Result<Vec<u8>, AllocError>
    ensures { IfOk result (λ bytes. bytes.items ≡ stack_words words.now) }
{
    let mut bytes = Vec::new(alloc);
    push_words(&mut bytes, words)?;
    Ok(bytes)
}

/// sp: the greatest multiple of 16 that leaves room for a table of so many words below the texts. `NoMemory`: the stack
/// has no room for it.
fn sp_below(at: u64, words: usize) -> Result<u64, NoMemory>
    ensures { IfOk result (λ sp. (sp ≡ (at - 8 * words) / 16 * 16) × (0x7ffffefc0000 ≤ sp) × (sp + 8 * words ≤ at)) }
{
    if words > STACK_WORDS || at < STACK_END - STACK_BYTES as u64 {
        return Err(NoMemory);
    }
    let sp = (at - 8 * words as u64) / 16 * 16;
    if sp < STACK_START {
        return Err(NoMemory);
    }
    Ok(sp)
}

/// The first stack of a program with this name and these arguments. `NoMemory`: memory is wanting, or the stack's 64
/// pages have no room for the texts and the table.
pub fn first_stack(
    alloc: Global,
    image: &Image,
    name: &[u8],
    arguments: &[String],
    seed: u64,
) -> Result<FirstStack, NoMemory>
    ensures { IfOk result (IsFirstStack (headers_of image.now) name.now (map string_bytes arguments.now) seed) }
{
    if arguments.len() > STACK_WORDS {
        return Err(NoMemory);
    }
    let texts = texts_of(alloc, name, arguments, seed)?;
    let Ok(words) = table_of(alloc, image, &texts, arguments) else {
        return Err(NoMemory);
    };
    let sp = sp_below(texts.at, words.len())?;
    let Ok(table) = bytes_of_words(alloc, &words) else {
        return Err(NoMemory);
    };
    Ok(FirstStack {
        sp,
        table,
        texts_at: texts.at,
        texts: texts.bytes,
    })
}
