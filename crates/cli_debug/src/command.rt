//! What a line of the dialogue asks for: commands with their numbers, paths and cells (command parser).

use crate::word::{Row, Takes, Word, row_of};
use cli_words::is_name;
use debugger::{read_number, read_task};
use frame::Path;
use lists::OutOfMemory;
use std::alloc::Global;

/// What one line of the dialogue asks for.
#[derive(Drop)]
pub(crate) enum Command<'a> {
    /// A word alone.
    Alone(Word),
    /// A word with a number.
    Number(Word, u64),
    /// A word with the path of a task or a frame.
    Path(Word, Path),
    Cells {
        name: &'a str,
        from: u64,
        count: u64,
    },
    /// No command: people are told this.
    Unknown(&'static str),
}

/// The name, the first index and the number of cells of `@a 0 8`, or of `@a:1`.
fn words_of(rest: &str) -> Option<(&str, &str, &str)> {
    let rest = rest.strip_prefix("@")?;
    if let Some((name, index)) = rest.split_once(":") {
        return Some((name, index, "1"));
    }
    let (name, range) = rest.split_once(" ")?;
    let (from, count) = range.trim().split_once(" ")?;
    Some((name, from, count.trim()))
}

/// Reads `@a 0 8`, or `@a:1`.
fn cells_of(rest: &str) -> Option<Command<'_>> {
    let (name, from, count) = words_of(rest)?;
    let from = read_number(from.as_bytes())?;
    let count = read_number(count.as_bytes())?;
    if is_name(name) {
        Some(Command::Cells { name, from, count })
    } else {
        None
    }
}

/// The command of a word and what follows it.
fn with_rest<'a>(alloc: Global, row: &Row, rest: &'a str) -> Result<Command<'a>, OutOfMemory> {
    let found = match row.takes {
        Takes::Nothing | Takes::NumberOrNothing if rest.is_empty() => {
            Some(Command::Alone(row.word))
        }
        Takes::Nothing => None,
        Takes::Number | Takes::NumberOrNothing => match read_number(rest.as_bytes()) {
            Some(number) => Some(Command::Number(row.word, number)),
            None => None,
        },
        Takes::Path => match read_task(alloc, rest.as_bytes())? {
            Some(path) => Some(Command::Path(row.word, path)),
            None => None,
        },
        Takes::Cells => cells_of(rest),
    };
    Ok(found.unwrap_or(Command::Unknown(row.lacks)))
}

/// Reads a line. Programs spell a command in one way alone.
pub(crate) fn read_command<'a>(
    alloc: Global,
    line: &'a str,
    is_for_people: bool,
) -> Result<Command<'a>, OutOfMemory> {
    let (text, rest) = match line.split_once(" ") {
        Some((text, rest)) if is_for_people => (text, rest.trim()),
        Some(words) => words,
        None => (line, ""),
    };
    let Some(row) = row_of(text, rest.is_empty()) else {
        return Ok(Command::Unknown("no such command; help lists them"));
    };
    if !is_for_people && !row.is_spelled(line, text, rest) {
        return Ok(Command::Unknown(row.lacks));
    }
    with_rest(alloc, row, rest)
}
