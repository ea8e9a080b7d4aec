//! What is told of a text with lines put in, by the lines of the text without them.

use annotate::NewLines;
use lists::TextBuffer;
use std::alloc::{AllocError, Global};

/// What a remark on a line begins with without which the module is accepted.
const NOT_NEEDED: &str = "accepted without line ";

/// What the text's own line begins with, as an explanation has it.
const QUOTED: &str = "  | ";

/// The number that a word begins with, and what stands behind it.
fn number_in(word: &str) -> Option<(u32, &str)> {
    let rest = word.trim_start_matches(['0', '1', '2', '3', '4', '5', '6', '7', '8', '9']);
    match word.strip_suffix(rest) {
        Some(digits) => match digits.parse::<u32>() {
            Ok(number) => Some((number, rest)),
            Err(_) => None,
        },
        None => None,
    }
}

/// Whether a line of an explanation is about a line alone that was put in and is not needed.
fn is_left_out(new: &NewLines, line: &str) -> bool {
    match line.strip_prefix(NOT_NEEDED) {
        Some(rest) => match number_in(rest) {
            Some((number, _)) => new.has(number),
            None => false,
        },
        None => false,
    }
}

/// Adds a word that stands behind the word `line`: the number of the own line in place of that of the text with more.
fn push_number(new: &NewLines, word: &str, is_note: bool, out: &mut TextBuffer) {
    let Some((number, rest)) = number_in(word) else {
        out.push_str(word);
        return;
    };
    let own = new.own_line(number);
    write!(out, "{own}");
    if is_note && new.has(number) {
        out.push_str(" and put in");
    }
    out.push_str(rest);
}

/// Adds a line of an explanation with the numbers of own lines.
fn push_own(new: &NewLines, line: &str, out: &mut TextBuffer) {
    let is_note = line.starts_with(" ");
    let mut is_number = false;
    for (place, word) in line.split(' ').enumerate() {
        if place > 0 {
            out.push(' ');
        }
        if is_number {
            push_number(new, word, is_note, out);
        } else {
            out.push_str(word);
        }
        is_number = word == "line" || word == "(line";
    }
}

fn push_line(new: &NewLines, line: &str, out: &mut TextBuffer) {
    if is_left_out(new, line) {
        return;
    }
    if line.starts_with(QUOTED) {
        out.push_str(line);
    } else {
        push_own(new, line, out);
    }
    out.push('\n');
}

/// An explanation of a text with lines put in, by the lines of the text without them: what it says of a line that was put in names the own line before that.
pub(crate) fn with_own_lines(
    alloc: Global,
    new: &NewLines,
    told: &str,
) -> Result<String, AllocError> {
    let mut out = TextBuffer::new(alloc);
    for line in told.lines() {
        push_line(new, line, &mut out);
    }
    out.finish()
}
