//! The program `a64_vectors`: it compares the A64 crates with vectors from outside. `a64_vectors FILE ..` reads tables of words
//! with what they are, and of words with what they do, a case a line, and prints for each table how many of its cases hold,
//! and each case that doesn't. Then it compares the decoder with the slow reader over many words.
#![tactic(auto)]

mod agreement;
mod fields;
mod numbers;
mod outcome;
mod state;
mod steps;
mod tables;
mod words;

use crate::agreement::{words_everywhere, words_of_rows};
use crate::tables::play_tables;
use std::process::ExitCode;
use std::{env, fs, io};

/// Plays the tables of each file that the words name.
fn play_files(rt: &HostRuntime) -> io::Result<()> {
    for name in env::args(rt)?.skip(1) {
        let text = fs::read_to_string(rt, name.as_str())?;
        play_tables(rt, text.as_str())?;
    }
    Ok(())
}

/// Plays all tables, and compares the decoder with the slow reader.
fn play(rt: &HostRuntime) -> io::Result<()> {
    play_files(rt)?;
    println!(rt; "decoder and reader: {}", words_everywhere())?;
    println!(rt; "decoder and reader in the rows: {}", words_of_rows())
}

fn main(rt: HostRuntime) -> ExitCode {
    match play(&rt) {
        Ok(()) => ExitCode::SUCCESS,
        Err(_) => ExitCode::FAILURE,
    }
}
