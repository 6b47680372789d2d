//! A line of a file of cases.

ghost use Rattle.std.specs.Prelude.{◌<◌, length, IfSome};

use crate::images::write_image;
use crate::numbers::write_numbers;
use crate::runs::{write_run, write_source};
use crate::sides::write_sides;
use crate::store::Store;
use crate::tapes::{write_record, write_tape_of};
use crate::texts::{bytes_of, code_of, number};
use crate::trouble::Trouble;
use code_image::image_of;
use std::alloc::{AllocError, Global};

const BAD_LINE: &str = "no such line, or a word of it isn't as it has to be";

// Gives bytes a name.
fn add(store: &mut Store, name: &str, bytes: Option<Vec<u8>>) -> Result<bool, Trouble> {
    match bytes {
        Some(bytes) => {
            store.add(name, bytes)?;
            Ok(true)
        }
        None => Ok(false),
    }
}

// The image of a program of these words.
fn image_of_words(alloc: Global, words: &[&str]) -> Result<Option<Vec<u8>>, Trouble> {
    match code_of(alloc, words)? {
        Some(code) => Ok(Some(image_of(alloc, &code)?)),
        None => Ok(None),
    }
}

// What is read of the bytes as an image or a tape file.
fn write_read(text: &mut String, alloc: Global, kind: &str, bytes: &[u8]) -> Result<(), Trouble> {
    if kind == "image" || kind == "images" {
        write_image(text, alloc, bytes)?;
        return Ok(());
    }
    write_tape_of(text, alloc, bytes)
}

// Reads each first part of fewer bytes than that.
fn write_parts(
    text: &mut String,
    alloc: Global,
    kind: &str,
    case: &str,
    bytes: &[u8],
    to: usize,
) -> Result<(), Trouble> {
    for length in 0..to.min(bytes.len()) {
        write!(text, "{case} of {length}: ")?;
        write_read(text, alloc, kind, &bytes[..length])?;
        text.push_str("\n")?;
    }
    Ok(())
}

// The five numbers at the head of a record.
fn head_of(words: [&str; 5]) -> Option<[u64; 5]> {
    let [first, second, third, fourth, fifth] = words;
    Some([
        number(first)?,
        number(second)?,
        number(third)?,
        number(fourth)?,
        number(fifth)?,
    ])
}

// Which calls on the shelf and on the sinks fail.
fn fails_of(load: &str, out: &str, err: &str) -> Option<[u64; 3]> {
    Some([number(load)?, number(out)?, number(err)?])
}

// The place of the colon among words.
fn colon_in(words: &[&str]) -> Option<usize>
    ensures { IfSome result (λ at. at < length words.now) }
{
    for at in 0..words.len() {
        if words[at] == ":" {
            return Some(at);
        }
    }
    None
}

// Calls the top call with the file edited.
fn write_call(
    text: &mut String,
    alloc: Global,
    store: &Store,
    fails: [u64; 3],
    name: &str,
    rest: &[&str],
) -> Result<bool, Trouble> {
    let Some(colon) = colon_in(rest) else {
        return Ok(false);
    };
    let Some(file) = store.edited(name, &rest[..colon])? else {
        return Ok(false);
    };
    write_run(text, alloc, fails, file, &rest[colon + 1..])?;
    Ok(true)
}

// Tells whether the bytes of two names are equal.
fn write_same(
    text: &mut String,
    store: &Store,
    case: &str,
    first: &str,
    second: &str,
) -> Result<(), AllocError> {
    let same = store.find(first) == store.find(second);
    let told = if same { "the same" } else { "not the same" };
    writeln!(text, "{case}: {told}")
}

// Gives bytes a name, as the words behind `bytes` or `code` tell them.
fn play_bytes(
    alloc: Global,
    kind: &str,
    name: &str,
    words: &[&str],
    store: &mut Store,
) -> Result<bool, Trouble> {
    let bytes = if kind == "bytes" {
        bytes_of(alloc, words)?
    } else {
        image_of_words(alloc, words)?
    };
    add(store, name, bytes)
}

// Reads the first parts of the bytes of a name.
fn play_parts(
    text: &mut String,
    alloc: Global,
    store: &Store,
    kind: &str,
    words: [&str; 3],
) -> Result<bool, Trouble> {
    let [case, name, to] = words;
    let (Some(bytes), Some(to)) = (store.find(name), number(to)) else {
        return Ok(false);
    };
    write_parts(text, alloc, kind, case, bytes, to as usize)?;
    Ok(true)
}

// Plays the words of a line, and answers whether they are a line of cases.
fn play_words(
    rt: &HostRuntime,
    words: &[&str],
    store: &mut Store,
    text: &mut String,
) -> Result<bool, Trouble> {
    let alloc = rt.alloc();
    match *words {
        [kind @ ("bytes" | "code"), name, ref more @ ..] => play_bytes(
            alloc, kind, name, more, store,
        ),
        ["same", case, first, second] => {
            write_same(text, store, case, first, second)?;
            Ok(true)
        }
        [kind @ ("images" | "tapes"), case, name, to] => play_parts(
            text,
            alloc,
            store,
            kind,
            [case, name, to],
        ),
        ["numbers"] => {
            write_numbers(text)?;
            Ok(true)
        }
        [kind, case, ref rest @ ..] => {
            write!(text, "{case}: ")?;
            let played = play_case(rt, kind, rest, store, text)?;
            text.push_str("\n")?;
            Ok(played)
        }
        _ => Ok(false),
    }
}

// Reads the bytes of a name, edited, as an image or a tape file.
fn play_read(
    text: &mut String,
    alloc: Global,
    store: &Store,
    kind: &str,
    words: &[&str],
) -> Result<bool, Trouble> {
    let [name, edits @ ..] = words else {
        return Ok(false);
    };
    let Some(bytes) = store.edited(name, edits)? else {
        return Ok(false);
    };
    write_read(text, alloc, kind, &bytes)?;
    Ok(true)
}

// Writes a tape of entries, and reads it again.
fn play_record(text: &mut String, alloc: Global, words: &[&str]) -> Result<bool, Trouble> {
    let [seed, pages, rules, room, kept, entries @ ..] = words else {
        return Ok(false);
    };
    let Some(head) = head_of([seed, pages, rules, room, kept]) else {
        return Ok(false);
    };
    write_record(text, alloc, head, entries)?;
    Ok(true)
}

// Calls the top call: the edits of the file stand before the colon, and the words of the call behind it.
fn play_run(
    text: &mut String,
    alloc: Global,
    store: &Store,
    words: &[&str],
) -> Result<bool, Trouble> {
    let [load, out, err, name, rest @ ..] = words else {
        return Ok(false);
    };
    let Some(fails) = fails_of(load, out, err) else {
        return Ok(false);
    };
    write_call(text, alloc, store, fails, name, rest)
}

// Reads a source in memory.
fn play_source(
    text: &mut String,
    alloc: Global,
    store: &Store,
    words: &[&str],
) -> Result<bool, Trouble> {
    let [size, fails, name] = *words else {
        return Ok(false);
    };
    let (Some(size), Some(fails), Some(bytes)) = (number(size), number(fails), store.find(name))
    else {
        return Ok(false);
    };
    write_source(text, alloc, size, fails, bytes)?;
    Ok(true)
}

// Plays a case of one line, by the words behind its name.
fn play_case(
    rt: &HostRuntime,
    kind: &str,
    words: &[&str],
    store: &Store,
    text: &mut String,
) -> Result<bool, Trouble> {
    let alloc = rt.alloc();
    match kind {
        "image" | "tape" => play_read(text, alloc, store, kind, words),
        "record" => play_record(text, alloc, words),
        "run" => play_run(text, alloc, store, words),
        "source" => play_source(text, alloc, store, words),
        "outside" if words.is_empty() => {
            write_sides(text, rt)?;
            Ok(true)
        }
        _ => Ok(false),
    }
}

/// Plays a line of a file of cases, and puts what is to be printed into the text.
pub fn play(
    rt: &HostRuntime,
    line: &str,
    store: &mut Store,
    text: &mut String,
) -> Result<(), Trouble> {
    let words: Vec<&str> = line.split_whitespace().collect(rt.alloc())?;
    match words.first() {
        None => return Ok(()),
        Some(first) if first.starts_with("#") => return Ok(()),
        Some(_) => {}
    }
    if !play_words(rt, &words, store, text)? {
        text.push_str(line)?;
        text.push_str(": ")?;
        text.push_str(BAD_LINE)?;
        text.push_str("\n")?;
    }
    Ok(())
}
