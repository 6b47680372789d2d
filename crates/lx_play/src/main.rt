//! The program `lx_play`: it runs a guest in the Linux machine alone, without a FreeBSD kernel below it.
//!
//! `lx_play [--seed N] IMAGE [ARG ..]` reads standard input whole, and then gives each thread of the guest its turns: in rounds,
//! or with a seed in an order and for lengths that the seed decides. It ends with the code of the guest, with 128 and the number
//! of the signal that ended it, or else with a message and one of the statuses below.
#![tactic(auto)]

ghost use Rattle.std.specs.Prelude.{IfOk};
ghost use Rattle.elf_image.specs.Layout.{IsLaidOut};

use elf_image::{Image, read_image};
use lx_machine::threads::GuestEnd;
use lx_scheduler::machine::Machine;
use lx_scheduler::play::{RunEnd, play};
use lx_scheduler::schedule::Schedule;
use outside::{DirShelf, Shelf, Sink, StdSink, put_all};
use std::alloc::Global;
use std::env;
use std::io::{self, Read};
use std::process::ExitCode;

// The most bytes of an image: 16 MiB.
const IMAGE_LIMIT: u64 = 16_777_216;

// The most bytes of the input that are read: 64 MiB.
const INPUT_LIMIT: u64 = 67_108_864;

// The statuses of runs that no guest ends.
const NO_MEMORY: u8 = 122;

const WRITE_FAILED: u8 = 123;

const BUDGET_SPENT: u8 = 124;

const STANDSTILL: u8 = 125;

const NO_IMAGE: u8 = 126;

const NO_INPUT: u8 = 121;

const NO_WORDS: u8 = 2;

// The rules of the guest: 128 places for threads.
const RULES: u8 = 2;

const USAGE: &str = "usage: lx_play [--seed N] IMAGE [ARG ..]\n";

// The status, and the message that tells of it.
#[derive(Clone, Copy)]
struct Verdict {
    status: u8,
    message: &'static str,
}

fn told(status: u8, message: &'static str) -> Verdict {
    Verdict { status, message }
}

// The words behind the program's own name: the image and the arguments.
fn read_words(rt: &HostRuntime) -> io::Result<Vec<String>> {
    let mut words = env::args(rt)?;
    words.next();
    Ok(words.collect(rt.alloc())?)
}

// All of standard input.
fn read_input(rt: &HostRuntime) -> io::Result<Vec<u8>> {
    let mut bytes = Vec::new(rt.alloc());
    rt.reader().take(INPUT_LIMIT).read_to_end(&mut bytes)?;
    Ok(bytes)
}

// The image of this name.
fn load_image<H: Shelf>(alloc: Global, shelf: &mut H, name: &str) -> Result<Image, Verdict>
    ensures { IfOk result IsLaidOut }
{
    match shelf.load(alloc, name, IMAGE_LIMIT) {
        Ok(file) => match read_image(alloc, &file) {
            Ok(image) => Ok(image),
            Err(_) => Err(told(NO_IMAGE, "lx_play: the image is refused\n")),
        },
        Err(_) => Err(told(NO_IMAGE, "lx_play: the image can't be read\n")),
    }
}

// The status of a run.
fn verdict_of(end: RunEnd) -> Verdict {
    match end {
        RunEnd::Ended(GuestEnd::Exited(code)) => told(code, ""),
        RunEnd::Ended(GuestEnd::Killed(signal)) => {
            told(128_u8.saturating_add(signal.number()), "")
        }
        RunEnd::Standstill => told(STANDSTILL, "standstill\n"),
        RunEnd::BudgetSpent => told(BUDGET_SPENT, "budget spent\n"),
        RunEnd::NoMemory => told(NO_MEMORY, "lx_play: out of memory\n"),
        RunEnd::WriteFailed => told(WRITE_FAILED, "lx_play: the output can't be written\n"),
    }
}

// The schedule that the words ask for, and the words behind it.
fn scheduled(words: &[String]) -> Result<(Schedule, &[String]), Verdict> {
    match words {
        [option, seed, rest @ ..] if option.as_str() == "--seed" => match seed.parse::<u64>() {
            Ok(seed) => Ok((Schedule::seeded(seed), rest)),
            Err(_) => Err(told(NO_WORDS, USAGE)),
        },
        _ => Ok((Schedule::rounds(), words)),
    }
}

// Runs the guest that the words name.
fn run_guest<O: Sink, E: Sink>(
    rt: &HostRuntime,
    words: &[String],
    out: &mut O,
    err: &mut E,
) -> Result<RunEnd, Verdict> {
    let alloc = rt.alloc();
    let (mut schedule, words) = scheduled(words)?;
    let Some(name) = words.first() else {
        return Err(told(NO_WORDS, USAGE));
    };
    let image = load_image(alloc, &mut DirShelf::make(rt), name)?;
    let Ok(input) = read_input(rt) else {
        return Err(told(NO_INPUT, "lx_play: standard input can't be read\n"));
    };
    match Machine::start(alloc, &image, words, &input, RULES) {
        Ok(mut machine) => Ok(play(&mut machine, alloc, &mut schedule, out, err)),
        Err(_) => Ok(RunEnd::NoMemory),
    }
}

fn main(rt: HostRuntime) -> ExitCode {
    let words = read_words(&rt).unwrap_or(Vec::new(rt.alloc()));
    let (to_out, to_err) = (rt.stdout(), rt.stderr());
    let mut out = StdSink::make(io::writer(&to_out));
    let mut err = StdSink::make(io::writer(&to_err));
    let verdict = match run_guest(&rt, &words, &mut out, &mut err) {
        Ok(end) => verdict_of(end),
        Err(verdict) => verdict,
    };
    let _ = put_all(&mut err, verdict.message.as_bytes());
    ExitCode::from(verdict.status)
}
