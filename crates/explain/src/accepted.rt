//! What an accepted module could do without.

use crate::trial::fault_of;
use explain_facts::{Means, Put, Source, push_budgets, with_line};
use ir_reader::read;
use lists::{OutOfMemory, TextBuffer};
use program::Program;
use ranges::Unanswered;
use std::alloc::Global;
use verifier::{Effort, Refused};

/// How many annotations are tried: each asks the verifier once.
const MOST_TRIED: usize = 1_000;

/// The steps that a byte of a text counts for that is judged once more.
const STEPS_A_BYTE: usize = 50;

/// Whether the text without the line of this number is accepted.
fn is_unneeded(means: &Means<'_>, source: Source<'_>, number: u32) -> bool {
    if !means.spend(source.text.len().saturating_mul(STEPS_A_BYTE)) {
        return false;
    }
    let without = means.made(with_line(means.alloc, source.text, Put::InPlaceOf(number), ""));
    matches!(fault_of(means, source.state, without.as_str()), Some(None))
}

/// The annotations without which the module is accepted as well, each taken away alone.
fn push_unneeded(means: &Means<'_>, source: Source<'_>, out: &mut TextBuffer) {
    let mut number: u32 = 0;
    let mut tried: usize = 0;
    for line in source.text.lines() {
        number = number.saturating_add(1);
        let words = line.trim();
        if words.starts_with(";!") && tried < MOST_TRIED {
            tried = tried.saturating_add(1);
            if is_unneeded(means, source, number) {
                writeln!(out, "accepted without line {number}: {words}");
            }
        }
    }
}

/// What each function's budget has left over, and the annotations that are not needed, as far as the effort reaches; nothing where the text cannot be read.
pub fn remarks(
    alloc: Global,
    source: Source<'_>,
    program: &Program,
    effort: &Effort,
) -> Result<String, OutOfMemory> {
    let means = Means::new(alloc, effort);
    let mut out = TextBuffer::new(alloc);
    match read(alloc, source.state, source.text.as_bytes()) {
        Ok(whole) => push_budgets(&means, program, &whole, &mut out),
        Err(Refused::Fault { .. }) => return Ok(String::new(alloc)),
        Err(Refused::Memory) => return Err(OutOfMemory),
    }
    push_unneeded(&means, source, &mut out);
    match means.finish() {
        Ok(()) => {}
        Err(Unanswered::OutOfMemory) => return Err(OutOfMemory),
        Err(Unanswered::OutOfEffort) => {
            out.push_str("the effort is spent: the other annotations are not tried\n")
        }
    }
    Ok(out.finish()?)
}
