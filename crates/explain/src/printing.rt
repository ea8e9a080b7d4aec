//! How an explanation is printed.

use crate::report::Explanation;
use explain_facts::{Finding, line_at};
use lists::{OutOfMemory, TextBuffer};
use rule_words::{Rule, rule_of};
use std::alloc::{AllocError, Global};

/// How many faults others are compared with, to tell alike ones as one.
const MOST_COMPARED: usize = 64;

/// What a rule means, of its causes only the one that it is where that is known.
fn push_meaning(out: &mut TextBuffer, number: u16, rule: &Rule, cause: Option<&str>) {
    match cause {
        Some(cause) => {
            let head = rule.head();
            writeln!(out, "  {number}: {head}");
            writeln!(out, "  here: {cause}");
        }
        None => {
            let means = rule.means;
            writeln!(out, "  {number}: {means}");
        }
    }
}

/// What is told of a fault: what it means that its line breaks the rule, and after the notes how to mend it.
fn reasons_of(alloc: Global, text: &str, finding: &Finding) -> Result<String, AllocError> {
    let number = finding.number;
    let broken = line_at(text, finding.line).unwrap_or("").trim();
    let rule = rule_of(number, broken);
    let mut reasons = TextBuffer::new(alloc);
    if let Some(rule) = rule {
        push_meaning(&mut reasons, number, rule, finding.cause);
    }
    reasons.push_str(finding.notes.as_str());
    if let Some(rule) = rule {
        let mend = rule.mend;
        writeln!(reasons, "  mend: {mend}");
    }
    reasons.finish()
}

/// A fault with what is told of it, and the lines of later ones of its rule of which the same is told.
#[derive(Drop)]
struct Entry<'a> {
    finding: &'a Finding,
    reasons: String,
    alike: Vec<u32>,
}

/// Adds a fault, or only its line where the same is told of one before. Of very many faults the later ones stand for themselves.
fn push_entry<'a>(
    alloc: Global,
    all: &mut Vec<Entry<'a>>,
    text: &str,
    finding: &'a Finding,
) -> Result<(), OutOfMemory> {
    let reasons = reasons_of(alloc, text, finding)?;
    let place = place_of(all.as_slice(), finding.number, reasons.as_str());
    if let Some(told) = all.get_mut(place) {
        told.alike.push(finding.line)?;
        return Ok(());
    }
    all.push(Entry {
        finding,
        reasons,
        alike: Vec::new(alloc),
    })?;
    Ok(())
}

/// Where a fault stands of whose rule the same is told; behind them all where none does.
fn place_of(all: &[Entry<'_>], number: u16, reasons: &str) -> usize {
    for place in 0..all.len().min(MOST_COMPARED) {
        let told = &all[place];
        if told.finding.number == number && told.reasons.as_str() == reasons {
            return place;
        }
    }
    all.len()
}

/// The lines of the faults of which the same is told.
fn push_alike(out: &mut TextBuffer, told: &Entry<'_>) {
    let number = told.finding.number;
    let mut parting = "  the same is told of";
    for line in &told.alike {
        write!(out, "{parting} {number} line {line}");
        parting = ",";
    }
    if !told.alike.is_empty() {
        out.push_str("\n");
    }
}

/// A fault behind this word, with its rule and its line, and why the line breaks it.
fn push_finding(out: &mut TextBuffer, text: &str, word: &str, told: &Entry<'_>) {
    let number = told.finding.number;
    let line = told.finding.line;
    writeln!(out, "{word} {number} line {line}");
    if let Some(code) = line_at(text, line) {
        let shown = code.trim().escape_debug();
        writeln!(out, "  | {shown}");
    }
    out.push_str(told.reasons.as_str());
    push_alike(out, told);
}

/// The fault that the verifier names, and those that are told beside it in full: they do not follow from an earlier one.
fn push_refused<'a>(
    alloc: Global,
    out: &mut TextBuffer,
    text: &str,
    first: &'a Finding,
    others: &'a [Finding],
) -> Result<(), OutOfMemory> {
    let mut all: Vec<Entry<'a>> = Vec::new(alloc);
    push_entry(alloc, &mut all, text, first)?;
    for other in others {
        if !other.follows {
            push_entry(alloc, &mut all, text, other)?;
        }
    }
    let mut word = "refused";
    for told in &all {
        push_finding(out, text, word, told);
        word = "also";
    }
    push_following(out, others);
    Ok(())
}

/// How many faults may follow from earlier ones.
fn number_following(others: &[Finding]) -> usize {
    let mut count: usize = 0;
    for other in others {
        if other.follows {
            count = count.saturating_add(1);
        }
    }
    count
}

/// The faults that may follow from earlier ones, in a line: mended first, those leave little of these.
fn push_following(out: &mut TextBuffer, others: &[Finding]) {
    let count = number_following(others);
    if count == 0 {
        return;
    }
    write!(out, "also {count} that may follow from the above:");
    let mut parting = "";
    for other in others {
        if other.follows {
            let number = other.number;
            let line = other.line;
            write!(out, "{parting} {number} line {line}");
            parting = ",";
        }
    }
    out.push_str("\n");
}

/// An explanation of a text as it is printed. What it begins with is what `verify` prints of a refused module.
pub fn told(alloc: Global, text: &[u8], explanation: &Explanation) -> Result<String, OutOfMemory> {
    let mut out = TextBuffer::new(alloc);
    let text = str::from_utf8(text).unwrap_or("");
    match explanation {
        Explanation::Accepted { remarks } => {
            out.push_str("accepted\n");
            out.push_str(remarks.as_str());
        }
        Explanation::Refused { first, others } => {
            push_refused(alloc, &mut out, text, first, others.as_slice())?
        }
        Explanation::Undecided => out.push_str("undecided\n"),
    }
    Ok(out.finish()?)
}
