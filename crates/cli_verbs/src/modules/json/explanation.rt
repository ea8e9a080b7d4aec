//! An explanation: each fault with what was to be shown, what is known and what would mend it.

use crate::modules::json::fault::push_broken;
use crate::modules::json::list::{push_member, push_separator, push_text};
use explain::{Finding, line_at};
use lists::{OutOfMemory, TextBuffer};
use rule_words::rule_of;
use std::alloc::{AllocError, Global};

/// What a line of a fault's notes begins with: what was to be shown, what is known, a line that would mend it. Each has the list that the line belongs to.
const MARKS: [(&str, &str); 4] = [
    ("to show: ", "forms"),
    ("known: ", "facts"),
    ("try: ", "mends"),
    ("mend: ", "mends"),
];

/// The list that a line of notes belongs to, and the line without the words that say so.
fn parted(line: &str) -> (&'static str, &str) {
    let line = line.trim();
    for (mark, list) in MARKS {
        if let Some(rest) = line.strip_prefix(mark) {
            return (list, rest);
        }
    }
    ("notes", line)
}

/// The notes of a fault, each in its list.
fn push_notes(alloc: Global, out: &mut TextBuffer, notes: &str) {
    for key in ["forms", "facts", "mends", "notes"] {
        write!(out, ",\"{key}\":[");
        for line in notes.lines() {
            let (list, text) = parted(line);
            if list == key {
                push_text(alloc, out, text);
            }
        }
        out.push(']');
    }
}

/// The notes of a fault, with how its rule is mended behind them.
fn notes_of(alloc: Global, text: &str, finding: &Finding) -> Result<String, AllocError> {
    let broken = line_at(text, finding.line).unwrap_or("").trim();
    let mut notes = TextBuffer::new(alloc);
    notes.push_str(finding.notes.as_str());
    if let Some(rule) = rule_of(finding.number, broken) {
        let mend = rule.mend;
        writeln!(notes, "  mend: {mend}");
    }
    notes.finish()
}

/// Adds one fault as a JSON object: its rule, its line, the cause where there is one, and notes with the way to mend it.
fn push_fault(
    alloc: Global,
    out: &mut TextBuffer,
    text: &str,
    finding: &Finding,
) -> Result<(), AllocError> {
    push_separator(out);
    out.push('{');
    push_broken(alloc, out, text, finding.number, finding.line);
    if let Some(cause) = finding.cause {
        push_member(alloc, out, "cause", cause);
    }
    let notes = notes_of(alloc, text, finding)?;
    push_notes(alloc, out, notes.as_str());
    out.push('}');
    Ok(())
}

/// Why a module is refused.
pub(crate) fn faults_json(
    alloc: Global,
    text: &str,
    first: &Finding,
    others: &[Finding],
) -> Result<String, OutOfMemory> {
    let mut out = TextBuffer::new(alloc);
    out.push_str("{\"verdict\":\"refused\",\"faults\":[");
    push_fault(alloc, &mut out, text, first)?;
    for other in others {
        push_fault(alloc, &mut out, text, other)?;
    }
    out.push_str("]}\n");
    Ok(out.finish()?)
}

/// What an accepted module could do without.
pub(crate) fn remarks_json(alloc: Global, remarks: &str) -> Result<String, AllocError> {
    let mut out = TextBuffer::new(alloc);
    out.push_str("{\"verdict\":\"accepted\",\"remarks\":[");
    for remark in remarks.lines() {
        push_text(alloc, &mut out, remark.trim());
    }
    out.push_str("]}\n");
    out.finish()
}
