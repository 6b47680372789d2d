//! The program `linuxulator`: it makes the real objects and hands them to the top call. It answers
//! `--help` and `--version` by itself.
#![tactic(auto)]

mod about;

use about::about;
use linuxulator_cli::run_program;
use outside::{DirShelf, StdSink, put};
use std::process::ExitCode;
use std::{env, io};

// The status of a failed write to standard output.
const WRITE_FAILED: u8 = 123;

// The words after the program's own name.
fn read_arguments(rt: &HostRuntime) -> io::Result<Vec<String>> {
    let mut arguments = env::args(rt)?;
    arguments.next();
    Ok(arguments.collect(rt.alloc())?)
}

fn main(rt: HostRuntime) -> ExitCode {
    let alloc = rt.alloc();
    let words = read_arguments(&rt).unwrap_or(Vec::new(alloc));
    let (to_out, to_err) = (rt.stdout(), rt.stderr());
    let mut out = StdSink::make(io::writer(&to_out));
    if let Some(text) = about(&words) {
        let status = match put(&mut out, text.as_bytes()) {
            Ok(()) => 0,
            Err(_) => WRITE_FAILED,
        };
        return ExitCode::from(status);
    }
    let mut err = StdSink::make(io::writer(&to_err));
    let mut shelf = DirShelf::make(&rt);
    ExitCode::from(run_program(alloc, &words, &mut shelf, &mut out, &mut err).status)
}
