//! The program `worked_runs`: it plays scripts on the Linux machine, and prints a line for each.
//!
//! `worked_runs LIST` reads the file LIST, which has the name of a script on each line. The script NAME stands in the file
//! NAME.run. Its line is `NAME: ok (N labels)`, or says which line of the script is wrong or doesn't hold. The status is 1
//! where some script is not played to its end.
#![tactic(auto)]

mod linux;

use linux::LinuxGuest;
use outside::{DirShelf, Shelf};
use run_scripts::playing::{Stopped, play_script};
use run_scripts::reading::read_script;
use std::alloc::Global;
use std::process::ExitCode;
use std::{env, io};

// The most bytes of a file: 1 MiB.
const LIMIT: u64 = 1_048_576;

// The text of a file, if it can be read.
fn text_of<H: Shelf>(alloc: Global, shelf: &mut H, name: &str) -> Option<String> {
    match shelf.load(alloc, name, LIMIT) {
        Ok(bytes) => String::from_utf8(bytes).ok(),
        Err(_) => None,
    }
}

// Plays a script that was read, and prints its line. It answers whether it was played to its end.
fn play_text(rt: &HostRuntime, name: &str, text: &str) -> io::Result<bool> {
    let alloc = rt.alloc();
    let script = match read_script(alloc, name, text) {
        Ok(script) => script,
        Err(fault) => {
            let line = fault.line;
            let what = fault.what;
            println!(rt; "{name}: line {line}: {what}")?;
            return Ok(false);
        }
    };
    match play_script::<LinuxGuest>(alloc, &script) {
        Ok(labels) => {
            println!(rt; "{name}: ok ({labels} labels)")?;
            return Ok(true);
        }
        Err(Stopped::Missed(miss)) => {
            let line = miss.line;
            let expected = miss.expected;
            let found = miss.found;
            println!(rt; "{name}: line {line}: expected {expected}, found {found}")?;
        }
        Err(Stopped::Refused) => println!(rt; "{name}: the guest is refused")?,
        Err(Stopped::NoMemory) => println!(rt; "{name}: no memory")?,
    }
    Ok(false)
}

// Plays the script of this name, and prints its line.
fn play_file(rt: &HostRuntime, name: &str) -> io::Result<bool> {
    let file = format!(in rt.alloc(); "{name}.run")?;
    match text_of(rt.alloc(), &mut DirShelf::make(rt), &file) {
        Some(text) => play_text(rt, name, &text),
        None => {
            println!(rt; "{name}: can't be read")?;
            Ok(false)
        }
    }
}

// Plays the scripts of a list.
fn play_list(rt: &HostRuntime, list: &str) -> io::Result<bool> {
    let mut all = true;
    for name in list.lines() {
        let played = play_file(rt, name)?;
        all = all && played;
    }
    Ok(all)
}

// Plays the scripts that the list of this name names.
fn play_all(rt: &HostRuntime) -> io::Result<bool> {
    let mut words = env::args(rt)?;
    words.next();
    let Some(name) = words.next() else {
        println!(rt; "usage: worked_runs LIST")?;
        return Ok(false);
    };
    match text_of(rt.alloc(), &mut DirShelf::make(rt), &name) {
        Some(list) => play_list(rt, &list),
        None => {
            println!(rt; "{name}: can't be read")?;
            Ok(false)
        }
    }
}

fn main(rt: HostRuntime) -> ExitCode {
    match play_all(&rt) {
        Ok(true) => ExitCode::from(0),
        _ => ExitCode::from(1),
    }
}
