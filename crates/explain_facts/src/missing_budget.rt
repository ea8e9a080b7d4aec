//! What is said of a function without a `budget` line, and the line that would do.

use crate::gap::shortfall;
use crate::known::Known;
use crate::tries::Trying;
use linear::Form;
use lists::TextBuffer;
use program::Left;

/// The least number that a form is known to be at most, if it is at most a number: one less than what makes up for its opposite and one less being at least 0.
fn greatest(known: Known<'_>, form: &Form) -> Option<u64> {
    let means = known.means;
    let Some(less) = means.form(&means.less(means.sum(-1), &[], form)) else {
        return None;
    };
    match shortfall(means, known.facts, &less) {
        Some(amount) => u64::try_from(amount.saturating_sub(1)).ok(),
        None => None,
    }
}

/// Adds the `budget` line that covers what is left at a function's entry, where that is known to be at most a number and the text can have it; whether it
/// did.
fn push_line(trying: Trying<'_, '_>, left: &Left, out: &mut TextBuffer) -> bool {
    let calls = greatest(trying.known, &left.self_calls);
    let instructions = greatest(trying.known, &left.instructions);
    let (Some(calls), Some(instructions)) = (calls, instructions) else {
        return false;
    };
    let after = trying.known.scene.function.line;
    let means = trying.known.means;
    let mut line = TextBuffer::new(means.alloc);
    write!(line, ";! budget {calls} {instructions}");
    let line = means.text(line);
    let is_line = trying.is_line(line.as_str(), after);
    if is_line {
        writeln!(out, "    try: {line}, after line {after}");
    }
    is_line
}

/// That the function has no `budget` line, with the line that would do; if there is none, with these notes on what is not shown.
pub fn missing_budget(trying: Trying<'_, '_>, left: &Left, notes: &str) -> TextBuffer {
    let name = trying.known.scene.written.name.as_str();
    let mut out = TextBuffer::new(trying.known.means.alloc);
    writeln!(
        out,
        "  @{name} has no `budget` line, so a call of it may do nothing"
    );
    if !push_line(trying, left, &mut out) {
        out.push_str(notes);
    }
    out
}
