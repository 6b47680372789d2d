//! How a script is read.
ghost use Rattle.std.specs.Prelude.{◌<◌, ◌≤◌, length, IfOk, IfErr, IsOk};

use crate::script::{Guest, Line, Play, Rules, Script, Statement};
use crate::statements::statement;
use crate::tokens::{bytes, code_word, number};
use std::alloc::{AllocError, Global};
use std::fmt;
use std::num::{ParseIntError, TryFromIntError};

/// What is wrong with a line.
#[derive(Clone, Copy)]
pub enum What {
    NoMemory,
    NotANumber,
    NotBytes,
    NotASide,
    NotARegister,
    NotASignal,
    NotAStep,
    NotAnEnd,
    NotRules,
    NotAStatement,
    /// The first line is not `run` and a name.
    NoName,
    /// No `guest` stands above.
    NoGuest,
    /// Code or words of a guest stand below its first play.
    PlayBegun,
    /// A guest has no code.
    NoCode,
    /// A guest is not played, or a play says nothing.
    NoPlay,
}

impl From<AllocError> for What {
    fn from(_: AllocError) -> What {
        What::NoMemory
    }
}

impl From<ParseIntError> for What {
    fn from(_: ParseIntError) -> What {
        What::NotANumber
    }
}

impl From<TryFromIntError> for What {
    fn from(_: TryFromIntError) -> What {
        What::NotANumber
    }
}

impl fmt::Display for What {
    fn fmt<W: fmt::Write>(&self, f: &mut fmt::Formatter<W>) -> fmt::Result {
        f.write_str(match self {
            What::NoMemory => "no memory",
            What::NotANumber => "not a number",
            What::NotBytes => "not bytes",
            What::NotASide => "neither out nor err",
            What::NotARegister => "not a register",
            What::NotASignal => "not a signal",
            What::NotAStep => "not a step",
            What::NotAnEnd => "not an end",
            What::NotRules => "neither rules 1 nor 2",
            What::NotAStatement => "not a statement",
            What::NoName => "no name of the run",
            What::NoGuest => "no guest",
            What::PlayBegun => "a play has begun",
            What::NoCode => "no code",
            What::NoPlay => "no play",
        })
    }
}

/// A line that is wrong, by its number from 1 on. 0: the script has no lines.
#[derive(Clone, Copy)]
pub struct ScriptFault {
    pub line: usize,
    pub what: What,
}

/// Puts one more behind the last.
fn push<T: Drop>(all: &mut Vec<T>, one: T) -> Result<(), AllocError> {
    Ok(all.push(one)?)
}

/// The words of a line. A line that begins with `#` has none.
fn words_of<'a>(alloc: Global, line: &'a str) -> Result<Vec<&'a str>, AllocError> {
    let mut words = Vec::new(alloc);
    if !line.trim_start().starts_with("#") {
        for word in line.split_whitespace() {
            words.push(word)?;
        }
    }
    Ok(words)
}

/// A guest that is named `guest`, by these rules and without code.
fn new_guest(alloc: Global, rules: Rules) -> Result<Guest, AllocError> {
    let mut words = Vec::new(alloc);
    words.push(String::from_str(alloc, "guest")?)?;
    Ok(Guest {
        rules,
        code: Vec::new(alloc),
        words,
        input: Vec::new(alloc),
        plays: Vec::new(alloc),
    })
}

/// Whether a guest may stand so: it has code, and plays that say something.
fn is_whole(guest: &Guest) -> Result<(), What>
    ensures code { IsOk result → 0 < length guest.now.code.items }
    ensures plays { IsOk result → 0 < length guest.now.plays.items }
{
    if guest.code.is_empty() {
        return Err(What::NoCode);
    }
    match guest.plays.last() {
        Some(play) if !play.lines.is_empty() => Ok(()),
        _ => Err(What::NoPlay),
    }
}

/// Whether the last guest may stand so, if there is one.
fn is_last_whole(script: &Script) -> Result<(), What> {
    match script.guests.last() {
        Some(guest) => is_whole(guest),
        None => Ok(()),
    }
}

/// The name and the arguments of a guest.
fn read_words(alloc: Global, words: &[&str]) -> Result<Vec<String>, AllocError> {
    let mut all = Vec::new(alloc);
    for word in words {
        all.push(String::from_str(alloc, word)?)?;
    }
    Ok(all)
}

/// A line above the plays of a guest: its words, its input, or a word of its code with the assembly beside it.
fn read_guest_line(alloc: Global, guest: &mut Guest, words: &[&str]) -> Result<bool, What> {
    match words {
        ["words", rest @ ..] => guest.words = read_words(alloc, rest)?,
        ["input", content] => guest.input = bytes(alloc, content)?,
        [first, ..] => match code_word(first) {
            Some(word) => push(&mut guest.code, word)?,
            None => return Ok(false),
        },
        [] => return Ok(false),
    }
    Ok(true)
}

/// The last seed of a play: 1 or more, so that it is played.
fn last_seed(word: &str) -> Result<u64, What>
    ensures { IfOk result (λ last. 0 < last) }
{
    match number(word)? {
        0 => Err(What::NotANumber),
        last => Ok(last),
    }
}

/// A play that begins: `play`, or `play seeds LAST`.
fn new_play(alloc: Global, words: &[&str]) -> Result<Play, What> {
    let seeds = match words {
        [] => None,
        ["seeds", last] => Some(last_seed(last)?),
        _ => return Err(What::NotAStatement),
    };
    Ok(Play {
        seeds,
        lines: Vec::new(alloc),
    })
}

/// Whether the last play of a guest says something, if there is one.
fn is_said(guest: &Guest) -> bool {
    match guest.plays.last() {
        Some(play) => !play.lines.is_empty(),
        None => true,
    }
}

/// A statement of the last play of a guest.
fn read_statement(
    alloc: Global,
    guest: &mut Guest,
    number: usize,
    words: &[&str],
) -> Result<(), What> {
    match guest.plays.last_mut() {
        Some(play) => {
            let statement = statement(alloc, words)?;
            push(&mut play.lines, Line { number, statement })?;
            Ok(())
        }
        None => Err(What::NotAStatement),
    }
}

/// A line of a guest.
fn read_in_guest(
    alloc: Global,
    guest: &mut Guest,
    number: usize,
    words: &[&str],
) -> Result<(), What> {
    if let ["play", rest @ ..] = words {
        if !is_said(guest) {
            return Err(What::NoPlay);
        }
        push(&mut guest.plays, new_play(alloc, rest)?)?;
        return Ok(());
    }
    if guest.plays.is_empty() {
        if read_guest_line(alloc, guest, words)? {
            return Ok(());
        }
    }
    read_statement(alloc, guest, number, words)
}

/// The rules of this number.
fn rules_of(number: &str) -> Result<Rules, What> {
    match number {
        "1" => Ok(Rules::One),
        "2" => Ok(Rules::Two),
        _ => Err(What::NotRules),
    }
}

/// A line that has words.
fn read_line(
    alloc: Global,
    script: &mut Script,
    number: usize,
    words: &[&str],
) -> Result<(), What> {
    if let ["guest"] = words {
        is_last_whole(script)?;
        push(&mut script.guests, new_guest(alloc, script.rules)?)?;
        return Ok(());
    }
    if let ["rules", number] = words {
        script.rules = rules_of(number)?;
        return Ok(());
    }
    match script.guests.last_mut() {
        Some(guest) => read_in_guest(alloc, guest, number, words),
        None => Err(What::NoGuest),
    }
}

/// The first line of a script: `run` and its name.
fn read_first_line(alloc: Global, name: &str, line: &str) -> Result<(), What> {
    let words = words_of(alloc, line)?;
    match words.as_slice() {
        ["run", named] if *named == name => Ok(()),
        _ => Err(What::NoName),
    }
}

/// A line of a script below the first.
fn read_next_line(
    alloc: Global,
    script: &mut Script,
    number: usize,
    line: &str,
) -> Result<(), What> {
    let words = words_of(alloc, line)?;
    if words.is_empty() {
        return Ok(());
    }
    read_line(alloc, script, number, &words)
}

/// Whether a script has said all.
fn is_done(script: &Script) -> Result<(), What>
    ensures { IsOk result → 0 < length script.now.guests.items }
{
    if script.guests.is_empty() {
        return Err(What::NoGuest);
    }
    is_last_whole(script)
}

/// The script of these lines. A fault names one of them, or 0 where there is none.
fn read_lines(alloc: Global, name: &str, lines: &[&str]) -> Result<Script, ScriptFault>
    ensures script { IfOk result (λ script. 0 < length script.guests.items) }
    ensures fault { IfErr result (λ fault. fault.line ≤ length lines.now) }
{
    let mut script = Script {
        rules: Rules::One,
        guests: Vec::new(alloc),
    };
    for place in 0..lines.len() {
        let line = place + 1;
        let read = if place == 0 {
            read_first_line(alloc, name, lines[place])
        } else {
            read_next_line(alloc, &mut script, line, lines[place])
        };
        if let Err(what) = read {
            return Err(ScriptFault { line, what });
        }
    }
    match is_done(&script) {
        Ok(()) => Ok(script),
        Err(what) => Err(ScriptFault {
            line: lines.len(),
            what,
        }),
    }
}

/// The lines of a text.
fn lines_of<'a>(alloc: Global, text: &'a str) -> Result<Vec<&'a str>, AllocError> {
    text.lines().collect(alloc)
}

/// Reads a script of this name. A fault names the first line that is wrong, or the last one where something is missing.
pub fn read_script(alloc: Global, name: &str, text: &str) -> Result<Script, ScriptFault>
    ensures { IfOk result (λ script. 0 < length script.guests.items) }
{
    match lines_of(alloc, text) {
        Ok(lines) => read_lines(alloc, name, &lines),
        Err(_) => Err(ScriptFault {
            line: 0,
            what: What::NoMemory,
        }),
    }
}
