//! Tables of cases. A file has tables, each behind a line `[words TITLE]` or `[steps TITLE]`, and a case a line: `WORD CLASS
//! FIELD=VALUE ..` or `WORD none` of words, and `WORD VALUE .. -> OUTCOME` of steps. What stands behind a semicolon, and in a
//! line that begins with `#`, is for the reader.

use crate::steps::other_outcome;
use crate::words::other_word;
use std::alloc::{AllocError, Global};
use std::io;

/// What the cases of a table are: words with what they are, or words with what they do.
#[derive(Clone, Copy)]
enum Kind {
    Words,
    Steps,
    Unknown,
}

/// A table, with how many cases it has had, and how many of them hold.
#[derive(Drop)]
struct Table<'a> {
    kind: Kind,
    title: &'a str,
    cases: u32,
    held: u32,
}

impl<'a> Table<'a> {
    /// The table behind this line.
    fn behind(head: &'a str) -> Table<'a> {
        let head = head.strip_suffix(']').unwrap_or(head);
        let (kind, title) = match head.split_once(' ') {
            Some(("words", title)) => (Kind::Words, title),
            Some(("steps", title)) => (Kind::Steps, title),
            _ => (Kind::Unknown, head),
        };
        Table {
            kind,
            title,
            cases: 0,
            held: 0,
        }
    }

    /// Plays a case: what is found in place of what it says.
    fn play(&mut self, alloc: Global, case: &str) -> Result<Option<String>, AllocError> {
        let other = match self.kind {
            Kind::Words => other_word(alloc, case)?,
            Kind::Steps => other_outcome(alloc, case)?,
            Kind::Unknown => Some(String::from_str(alloc, "no table")?),
        };
        self.cases = self.cases.saturating_add(1);
        if other.is_none() {
            self.held = self.held.saturating_add(1);
        }
        Ok(other)
    }

    /// Prints how many cases hold.
    fn tell(&self, rt: &HostRuntime) -> io::Result<()> {
        let (title, held, cases) = (self.title, self.held, self.cases);
        println!(rt; "{title}: {held} of {cases}")
    }
}

/// The case of a line, without what is for the reader; it may be empty.
fn case_of(line: &str) -> &str {
    if line.starts_with('#') {
        return "";
    }
    match line.split_once(';') {
        Some((case, _)) => case.trim(),
        None => line.trim(),
    }
}

/// Plays a line of a table, and prints it where it doesn't hold.
fn play_line(rt: &HostRuntime, table: &mut Table<'_>, line: &str) -> io::Result<()> {
    let case = case_of(line);
    if case.is_empty() {
        return Ok(());
    }
    match table.play(rt.alloc(), case)? {
        None => Ok(()),
        Some(found) => println!(rt; "  {line}\n    found: {found}"),
    }
}

/// Plays all tables of a text.
pub fn play_tables(rt: &HostRuntime, text: &str) -> io::Result<()> {
    let mut table = Table::behind("no table");
    let mut is_first = true;
    for line in text.lines() {
        match line.strip_prefix('[') {
            None => play_line(rt, &mut table, line)?,
            Some(head) => {
                if !is_first {
                    table.tell(rt)?;
                }
                is_first = false;
                table = Table::behind(head);
            }
        }
    }
    table.tell(rt)
}
