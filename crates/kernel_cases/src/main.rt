//! The program `kernel_cases`: it plays scripts of cases on the parts of the FreeBSD kernel, and prints a line for each case.
//!
//! `kernel_cases FILE ..` plays the cases of each file. The line of a case is `NAME: ok`, or says which line of the file doesn't
//! hold, and what it found. The status is 0 where all hold. `docs/KERNEL-CASES.md` describes the language.
#![tactic(auto)]

mod kernel;

use crate::kernel::Kernel;
use case_words::cases::play_cases;
use std::process::ExitCode;
use std::{env, fs, io};

/// Plays the cases of each file that the words name. It answers whether all hold.
fn play_files(rt: &HostRuntime) -> io::Result<bool> {
    let mut all = true;
    for name in env::args(rt)?.skip(1) {
        let text = fs::read_to_string(rt, name.as_str())?;
        let mut told = String::new(rt.alloc());
        all = play_cases::<Kernel>(rt.alloc(), text.as_str(), &mut told)? && all;
        print!(rt; "{told}")?;
    }
    Ok(all)
}

fn main(rt: HostRuntime) -> ExitCode {
    match play_files(&rt) {
        Ok(true) => ExitCode::SUCCESS,
        _ => ExitCode::FAILURE,
    }
}
