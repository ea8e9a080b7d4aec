//! Annotations that an accepted text can do without, each tried by itself (redundant ones).

use explain_facts::Means;
use lists::{ListBuffer, TextBuffer};
use ranges::{Effort, Unanswered};
use std::alloc::{AllocError, Global};
use std::hash::RandomState;
use verifier::{Refused, Unverified, verify_within};

/// The steps that a byte of a text counts for that is judged once more.
const STEPS_A_BYTE: usize = 50;

/// How often all lines are tried: without one, another one may not be needed any more.
const MOST_ROUNDS: usize = 16;

/// The numbers of the annotation lines of a text, counted from 0.
fn annotation_lines(means: &Means<'_>, text: &str) -> Vec<usize> {
    let mut numbers = ListBuffer::new(means.alloc);
    let mut number: usize = 0;
    for line in text.lines() {
        if line.trim().starts_with(";!") {
            numbers.push(number);
        }
        number = number.saturating_add(1);
    }
    means.list(numbers)
}

/// The text without the line of this number.
fn without(means: &Means<'_>, text: &str, left_out: usize) -> String {
    let mut out = TextBuffer::new(means.alloc);
    let mut number: usize = 0;
    for line in text.lines() {
        if number != left_out {
            out.push_str(line);
            out.push_str("\n");
        }
        number = number.saturating_add(1);
    }
    means.text(out)
}

/// Whether a text is accepted; no where the means do not reach.
fn is_accepted(means: &Means<'_>, state: RandomState, text: &str) -> bool {
    if !means.spend(text.len().saturating_mul(STEPS_A_BYTE)) {
        return false;
    }
    match verify_within(means.alloc, state, text.as_bytes(), means.effort) {
        Ok(_) => true,
        Err(Unverified::Refused(Refused::Fault { .. })) => false,
        Err(Unverified::Refused(Refused::Memory)) => {
            means.note(Unanswered::OutOfMemory);
            false
        }
        Err(Unverified::OutOfEffort { .. }) => {
            means.note(Unanswered::OutOfEffort);
            false
        }
    }
}

/// Takes annotations out of an accepted text, the last one first, each where the text is accepted as well without it. Whether there was one, and the means
/// reached for all.
fn take_out(means: &Means<'_>, state: RandomState, text: &mut String) -> bool {
    let mut is_changed = false;
    let numbers = annotation_lines(means, text.as_str());
    let numbers = numbers.as_slice();
    for place in (0..numbers.len()).rev() {
        let less = without(means, text.as_str(), numbers[place]);
        if is_accepted(means, state, less.as_str()) {
            *text = less;
            is_changed = true;
        } else if means.finish().is_err() {
            return false;
        }
    }
    is_changed
}

/// An accepted text without annotations that it can do without, each tried by itself over what the ones before have left, as far as the effort reaches.
///
/// # Errors
///
/// Memory was refused.
pub fn without_needless(
    alloc: Global,
    state: RandomState,
    text: &[u8],
    effort: &Effort,
) -> Result<String, AllocError> {
    let means = Means::new(alloc, effort);
    let mut shorter = String::from_str(alloc, str::from_utf8(text).unwrap_or(""))?;
    for _round in 0..MOST_ROUNDS {
        if !take_out(&means, state, &mut shorter) {
            break;
        }
    }
    match means.finish() {
        Err(Unanswered::OutOfMemory) => Err(AllocError),
        _ => Ok(shorter),
    }
}
