//! An accepted module as JSON: budget, depth, and what the verifier knows of each block, from what `show` prints.

use crate::modules::json::list::{push_separator, push_text};
use lists::TextBuffer;
use std::alloc::{AllocError, Global};

/// The words that one line of each block begins with.
const ONCE: [&str; 3] = ["task", "left", "uses"];

/// The words that any number of lines of a block begin with.
const OFTEN: [&str; 4] = ["open", "pending", "foot", "knows"];

/// The word of a line that stands behind this mark.
fn word_behind<'a>(line: &'a str, mark: &str) -> &'a str {
    let behind = match line.split_once(mark) {
        Some((_before, behind)) => behind,
        None => "",
    };
    match behind.split_once(" ") {
        Some((word, _rest)) => word,
        None => behind,
    }
}

/// `budget 14`, `depth 2`, `cells of frames 0 for each worker`
fn push_totals(out: &mut TextBuffer, head: &str) {
    let mut lines = head.lines();
    let budget = word_behind(lines.next().unwrap_or(""), "budget ");
    let depth = word_behind(lines.next().unwrap_or(""), "depth ");
    let cells = word_behind(lines.next().unwrap_or(""), "frames ");
    write!(
        out,
        "{{\"verdict\":\"accepted\",\"budget\":{budget},\"depth\":{depth},\"cells\":{cells}"
    );
}

/// `global @a cells 2`
fn push_globals(out: &mut TextBuffer, head: &str) {
    out.push_str(",\"globals\":[");
    for line in head.lines() {
        if line.starts_with("global ") {
            let name = word_behind(line, "global ");
            let cells = word_behind(line, " cells ");
            push_separator(out);
            write!(out, "{{\"name\":\"{name}\",\"cells\":{cells}}}");
        }
    }
}

/// `argument %n from 0 to 100`: the ends are texts, since they may be past what readers of JSON keep.
fn push_arguments(out: &mut TextBuffer, head: &str) {
    out.push_str("],\"arguments\":[");
    for line in head.lines() {
        if line.starts_with("argument ") {
            let name = word_behind(line, "argument ");
            let from = word_behind(line, " from ");
            let to = word_behind(line, " to ");
            push_separator(out);
            write!(
                out,
                "{{\"name\":\"{name}\",\"from\":\"{from}\",\"to\":\"{to}\"}}"
            );
        }
    }
}

/// The first members of a function or a block: its name and line, as its first line has them.
fn push_named(out: &mut TextBuffer, key: &str, part: &str) {
    let first = part.lines().next().unwrap_or("");
    let (name, line) = first.split_once(" line ").unwrap_or((first, "0"));
    push_separator(out);
    write!(out, "{{\"{key}\":\"{name}\",\"line\":{line}");
}

/// The lines of a block that begin with this word, each as a text without it.
fn push_lines(alloc: Global, out: &mut TextBuffer, block: &str, key: &str) {
    for line in block.lines() {
        if let Some((word, rest)) = line.trim().split_once(" ") {
            if word == key {
                push_text(alloc, out, rest);
            }
        }
    }
}

/// `%b line 3`, and the lines of the block.
fn push_block(alloc: Global, out: &mut TextBuffer, block: &str) {
    push_named(out, "label", block);
    for key in ONCE {
        write!(out, ",\"{key}\":");
        push_lines(alloc, out, block, key);
    }
    for key in OFTEN {
        write!(out, ",\"{key}\":[");
        push_lines(alloc, out, block, key);
        out.push(']');
    }
    out.push('}');
}

/// What stands before the first function.
fn push_head(out: &mut TextBuffer, head: &str) {
    push_totals(out, head);
    push_globals(out, head);
    push_arguments(out, head);
    out.push_str("],\"functions\":[");
}

/// `@f line 2`, and the blocks of the function.
fn push_function(alloc: Global, out: &mut TextBuffer, function: &str) {
    let mut blocks = function.split("\n  block ");
    push_named(out, "name", blocks.next().unwrap_or(""));
    out.push_str(",\"blocks\":[");
    for block in blocks {
        push_block(alloc, out, block);
    }
    out.push_str("]}");
}

/// What `show` says of a module, from the lines that it prints.
///
/// # Errors
///
/// Memory was refused.
pub(crate) fn known_json(alloc: Global, shown: &str) -> Result<String, AllocError> {
    let mut out = TextBuffer::new(alloc);
    let mut functions = shown.split("\nfunction ");
    push_head(&mut out, functions.next().unwrap_or(""));
    for function in functions {
        push_function(alloc, &mut out, function);
    }
    out.push_str("]}\n");
    out.finish()
}
