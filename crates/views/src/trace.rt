//! The trace of a run: a line of text for each event.

use crate::moment::{Moment, Outcome, TaskName};
use frame::Event;
use lists::TextBuffer;

/// The instruction on a line of the module, counted from 1, without the line's comment.
fn instruction_at<'a>(lines: &[&'a str], line: u32) -> &'a str {
    let index = (line as usize).saturating_sub(1);
    let text = lines.get(index).copied().unwrap_or("");
    let (instruction, _comment) = text.split_once(";").unwrap_or((text, ""));
    instruction.trim()
}

fn push_outcome(out: &mut TextBuffer, outcome: &Outcome) {
    let (word, task) = match outcome {
        Outcome::GoesOn | Outcome::Calls(_) | Outcome::ReturnsTo(_) => return,
        Outcome::Begins(child) => ("begins", child),
        Outcome::TakesOn(task) => ("goes on with", task),
        Outcome::Waits => return out.push_str(" -> waits, and the worker is idle"),
        Outcome::Ends => return out.push_str(" -> ends, and the worker is idle"),
        Outcome::Returns => return out.push_str(" -> ends the run"),
        Outcome::NotEnabled(hindrance) => return write!(out, " -> not enabled: {hindrance}"),
    };
    let task = TaskName(task);
    write!(out, " -> {word} {task}");
}

/// Writes the line of an event: its number, the event, the task that it found, the line of that task's next instruction and that
/// instruction as the module's text has it. What follows is told after an arrow, where it is more than that the worker goes on with its
/// task.
pub(crate) fn push_moment(
    out: &mut TextBuffer,
    number: u64,
    event: &Event,
    moment: &Moment,
    lines: &[&str],
) {
    let (word, worker, task) = moment.heading(event);
    write!(out, "{number} {word} {worker}");
    if let Some(task) = task {
        let task = TaskName(task);
        write!(out, " {task}");
    }
    if let Some(place) = &moment.place {
        let line = place.line;
        let instruction = instruction_at(lines, line);
        write!(out, " line {line}: {instruction}");
    }
    push_outcome(out, &moment.outcome);
    out.push_str("\n");
}
