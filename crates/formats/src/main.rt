//! The program `formats`: it plays cases of the file formats, the tables of numbers and the command line, and prints a line for
//! each answer.
//!
//! Standard input names files of cases, a line each. In such a file a line gives bytes a name or is a case; `#` begins a comment.
//! `NAME` names bytes, `CASE` is printed before the answer, and numbers are decimal or, behind `0x`, hexadecimal.
//!
//! | Line | What it does |
//! |---|---|
//! | `bytes NAME HEX ..` | gives these bytes the name, behind those that have it already |
//! | `code NAME WORD ..` | gives it to the image of a program of these words, in hexadecimal |
//! | `same CASE NAME NAME` | tells whether the bytes of both are equal |
//! | `image CASE NAME EDIT ..` | reads the bytes as an image |
//! | `images CASE NAME TO` | so with each first part of fewer than TO bytes |
//! | `tape CASE NAME EDIT ..` | reads the bytes as a tape file, and writes the tape |
//! | `tapes CASE NAME TO` | reads each first part of fewer than TO bytes |
//! | `record CASE SEED PAGES RULES ROOM KEPT ENTRIES ..` | puts entries, each `COUNT ACTOR AMOUNT`, into a new tape, and keeps the first of them |
//! | `run CASE LOAD OUT ERR NAME EDIT .. : WORD ..` | calls the top call with these words, and with the bytes as the file `guest`; the numbers are the calls on the shelf and on the sinks that fail |
//! | `source CASE SIZE FAILS NAME` | reads so many bytes at a time, where one call fails |
//! | `numbers` | prints the tables of numbers |
//! | `outside` | calls what is outside of memory: the folder, the clocks, a gate |
//!
//! An EDIT is `len N`, which cuts bytes or puts zeros behind them, or `set PLACE SIZE VALUE`, a little-endian number.
#![tactic(auto)]

mod cases;
mod images;
mod numbers;
mod runs;
mod sides;
mod store;
mod tapes;
mod texts;
mod trouble;

use outside::{DirShelf, Shelf, Sink, StdSink, StdSource, put_all, take_all};
use std::io;
use std::process::ExitCode;
use store::Store;
use trouble::Trouble;

// The most bytes of a file of cases.
const LIMIT: u64 = 1_000_000;

// Plays each file of cases that the input names.
fn play_all<O: Sink>(rt: &HostRuntime, out: &mut O) -> Result<(), Trouble> {
    let alloc = rt.alloc();
    let names = take_all(&mut StdSource::make(rt.reader()), alloc, LIMIT)?;
    let mut shelf = DirShelf::make(rt);
    let mut store = Store::new(alloc);
    for name in texts::text_of(&names).lines() {
        let file = shelf.load(alloc, name, LIMIT)?;
        for line in texts::text_of(&file).lines() {
            let mut text = String::new(alloc);
            cases::play(rt, line, &mut store, &mut text)?;
            put_all(out, text.as_bytes())?;
        }
    }
    Ok(())
}

fn main(rt: HostRuntime) -> ExitCode {
    let to_out = rt.stdout();
    let mut out = StdSink::make(io::writer(&to_out));
    match play_all(&rt, &mut out) {
        Ok(()) => ExitCode::from(0),
        Err(trouble) => {
            let _ = put_all(&mut out, trouble.text().as_bytes());
            ExitCode::from(1)
        }
    }
}
