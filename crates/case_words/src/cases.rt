//! A text of cases, line by line.

use crate::answers::{Answer, Refusal};
use crate::arguments::Arguments;
use crate::subject::Objects;
use crate::words::{number, words_of};
use std::alloc::{AllocError, Global};

/// A line that doesn't hold: its number in the text, and what it wants and has.
#[derive(Drop)]
struct Miss {
    line: usize,
    wanted: String,
    found: String,
}

/// A case that is being played: its name, its objects, and the first line that doesn't hold.
#[derive(Drop)]
struct Case<O> {
    name: String,
    objects: O,
    miss: Option<Miss>,
}

/// A line: its calls, and what each of them has to answer.
#[derive(Clone, Copy)]
struct Line<'a> {
    calls: &'a str,
    wanted: &'a str,
}

impl<'a> Line<'a> {
    /// What stands before `->` and behind it, where `done` is to be answered if nothing does.
    fn of(text: &'a str) -> Line<'a> {
        match text.split_once("->") {
            Some((calls, wanted)) => Line {
                calls,
                wanted: wanted.trim(),
            },
            None => Line {
                calls: text,
                wanted: "done",
            },
        }
    }
}

/// The answer of a call in words.
fn told(alloc: Global, answer: &Result<Answer, Refusal>) -> Result<String, AllocError> {
    match answer {
        Ok(answer) => format!(in alloc; "{answer}"),
        Err(refusal) => format!(in alloc; "{refusal}"),
    }
}

/// Makes the call of these words.
fn play_words<O: Objects>(
    objects: &mut O,
    alloc: Global,
    words: &[&str],
    time: u64,
) -> Result<Answer, Refusal> {
    match words {
        [object, name, rest @ ..] => {
            objects.play(alloc, object, name, Arguments { words: rest, time })
        }
        _ => Err(Refusal::NotACall),
    }
}

/// Makes the call of these words so many times, until it answers otherwise than it has to: that answer. `any` is each answer.
fn play_times<O: Objects>(
    objects: &mut O,
    alloc: Global,
    words: &[&str],
    times: u64,
    wanted: &str,
) -> Result<Option<String>, AllocError> {
    for time in 0..times {
        let found = told(alloc, &play_words(objects, alloc, words, time))?;
        if wanted != "any" && found.as_str() != wanted {
            return Ok(Some(found));
        }
    }
    Ok(None)
}

/// Plays a line: what it answers in place of what it has to.
fn play_line<O: Objects>(
    objects: &mut O,
    alloc: Global,
    line: Line<'_>,
) -> Result<Option<String>, AllocError> {
    let words = words_of(alloc, line.calls)?;
    match words.as_slice() {
        ["times", count, rest @ ..] => match number(count) {
            Ok(times) => play_times(objects, alloc, rest, times, line.wanted),
            Err(what) => Ok(Some(format!(in alloc; "{what}")?)),
        },
        words => play_times(objects, alloc, words, 1, line.wanted),
    }
}

impl<O: Objects> Case<O> {
    /// A case of this name, in which nothing is made yet.
    fn new(alloc: Global, name: &str) -> Result<Case<O>, AllocError> {
        Ok(Case {
            name: String::from_str(alloc, name)?,
            objects: O::empty(),
            miss: None,
        })
    }

    /// Plays the next line, unless one before doesn't hold.
    fn take(&mut self, alloc: Global, number: usize, text: &str) -> Result<(), AllocError> {
        if self.miss.is_some() {
            return Ok(());
        }
        let line = Line::of(text);
        if let Some(found) = play_line(&mut self.objects, alloc, line)? {
            self.miss = Some(Miss {
                line: number,
                wanted: String::from_str(alloc, line.wanted)?,
                found,
            });
        }
        Ok(())
    }

    /// Tells whether it holds, and answers that.
    fn tell(&self, told: &mut String) -> Result<bool, AllocError> {
        let name = &self.name;
        match &self.miss {
            None => {
                write!(told, "{name}: ok\n")?;
                Ok(true)
            }
            Some(miss) => {
                let (line, wanted, found) = (miss.line, &miss.wanted, &miss.found);
                write!(
                    told,
                    "{name}: line {line}: wanted {wanted}, found {found}\n"
                )?;
                Ok(false)
            }
        }
    }
}

/// Tells whether the case holds, if there is one, and answers that.
fn tell_case<O: Objects>(case: &Option<Case<O>>, told: &mut String) -> Result<bool, AllocError> {
    match case {
        Some(case) => case.tell(told),
        None => Ok(true),
    }
}

/// Whether a line says nothing.
fn is_silent(line: &str) -> bool {
    line.is_empty() || line.starts_with("#")
}

/// Plays all cases of a text, and tells of each in a line whether it holds. It answers whether all do.
pub fn play_cases<O: Objects>(
    alloc: Global,
    text: &str,
    told: &mut String,
) -> Result<bool, AllocError> {
    let mut all = true;
    let mut case: Option<Case<O>> = None;
    for (place, line) in text.lines().enumerate() {
        let line = line.trim();
        if is_silent(line) {
            continue;
        }
        if let Some(name) = line.strip_prefix("case ") {
            all = tell_case(&case, told)? && all;
            case = Some(Case::new(alloc, name)?);
            continue;
        }
        match &mut case {
            Some(case) => case.take(alloc, place.saturating_add(1), line)?,
            None => {
                write!(told, "line {place}: not in a case\n")?;
                all = false;
            }
        }
    }
    Ok(tell_case(&case, told)? && all)
}
