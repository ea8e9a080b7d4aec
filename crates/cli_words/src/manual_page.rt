//! The manual page, written from the table of the program's commands.

use crate::request::Verb;
use crate::table::{ABOUT, Given, Part, STATUSES, VERBS, row_of};
use crate::version::VERSION;
use lists::TextBuffer;
use std::alloc::{AllocError, Global};

/// A text as `man` reads it: a minus stands for itself, and no line begins with a dot.
fn push_text(out: &mut TextBuffer, text: &str) {
    for line in text.lines() {
        push_line(out, line);
    }
}

fn push_line(out: &mut TextBuffer, line: &str) {
    if line.starts_with(['.', '\'']) {
        out.push_str("\\&");
    }
    for c in line.chars() {
        match c {
            '-' => out.push_str("\\-"),
            '\\' => out.push_str("\\e"),
            _ => out.push(c),
        }
    }
    out.push('\n');
}

/// A text whose lines stay as they are.
fn push_verbatim(out: &mut TextBuffer, text: &str) {
    out.push_str(".nf\n");
    push_text(out, text);
    out.push_str(".fi\n");
}

/// A word or an option of a command, with what it is for.
fn push_part(out: &mut TextBuffer, part: &Part) {
    let Part {
        name,
        value,
        help,
        ..
    } = part;
    match part.given {
        Given::Word => writeln!(out, ".TP\n.I {value}"),
        Given::Flag => writeln!(out, ".TP\n.B \\-\\-{name}"),
        _ => writeln!(out, ".TP\n.BI \\-\\-{name} \" {value}\""),
    }
    push_text(out, help);
}

fn push_command(out: &mut TextBuffer, verb: Verb) {
    let row = row_of(verb);
    let word = verb.word();
    writeln!(out, ".SS tapirvm {word}");
    push_text(out, row.about);
    for part in row.parts {
        push_part(out, part);
    }
    out.push_str(".PP\nExample:\n");
    push_verbatim(out, row.calls.lines);
}

/// The manual page.
///
/// # Errors
///
/// Memory was refused.
pub fn manual(alloc: Global) -> Result<String, AllocError> {
    let mut out = TextBuffer::new(alloc);
    write!(
        out,
        ".TH TAPIRVM 1 \"\" \"tapirvm {VERSION}\" \"User Commands\"\n.SH NAME\ntapirvm \\- "
    );
    push_text(&mut out, ABOUT);
    out.push_str(
        ".SH SYNOPSIS\n.B tapirvm\n.I COMMAND\n.RI [ WORD ...]\n.br\n.B tapirvm \\-\\-version\n.SH COMMANDS\n",
    );
    for verb in VERBS {
        push_command(&mut out, verb);
    }
    out.push_str(".SH EXIT STATUS\n");
    push_verbatim(&mut out, STATUSES);
    out.finish()
}
