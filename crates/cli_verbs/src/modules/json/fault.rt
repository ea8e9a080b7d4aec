//! A broken rule as JSON: its place in the text, its words, and the verdict on a module that is refused.

use crate::modules::faults::{head_of, utf8_of};
use crate::modules::json::list::push_member;
use explain::line_at;
use lists::{OutOfMemory, TextBuffer};
use std::alloc::Global;

/// A line without its comment; an annotation is none.
fn code_of(line: &str) -> &str {
    match line.split_once(";") {
        Some((code, _comment)) if !code.trim().is_empty() => code,
        _ => line,
    }
}

/// The number of a rule, the line that breaks it, the columns of its first and last byte that is no blank, from 1 (of an empty line both are 1), and its text.
fn push_place(alloc: Global, out: &mut TextBuffer, number: u16, line: u32, broken: &str) {
    let code = code_of(broken);
    let before = code.len().saturating_sub(code.trim_start().len());
    let first = before.saturating_add(1);
    let last = code.trim_end().len().max(1);
    write!(
        out,
        "\"rule\":{number},\"line\":{line},\"columns\":[{first},{last}]"
    );
    push_member(alloc, out, "text", code.trim());
}

/// Where a rule is broken, and what it means, in words, without its causes.
pub(crate) fn push_broken(alloc: Global, out: &mut TextBuffer, text: &str, number: u16, line: u32) {
    let broken = line_at(text, line).unwrap_or("");
    push_place(alloc, out, number, line, broken);
    push_member(alloc, out, "words", head_of(number, broken.trim()));
}

/// The verdict on a module that is refused.
pub(crate) fn refusal_json(
    alloc: Global,
    text: &[u8],
    number: u16,
    line: u32,
) -> Result<String, OutOfMemory> {
    let mut out = TextBuffer::new(alloc);
    out.push_str("{\"verdict\":\"refused\",");
    push_broken(alloc, &mut out, utf8_of(text), number, line);
    out.push_str("}\n");
    Ok(out.finish()?)
}
