//! An event as JSON.

use crate::change::{CellPlace, Settings, Written};
use crate::moment::{Moment, Outcome, TaskName};
use crate::names::{Names, ThingName, push_number, push_value};
use frame::Event;
use lists::TextBuffer;

/// An event of a run with its number, from 1, and its round.
#[derive(Clone, Copy)]
pub(crate) struct Numbered<'a> {
    pub number: u64,
    pub event: &'a Event,
    pub moment: &'a Moment,
    pub round: u64,
}

/// The registers of a frame that were set, as an object; nothing where there are none.
pub(crate) fn push_settings<'a>(
    out: &mut TextBuffer,
    names: &'a Names<'a>,
    key: &str,
    settings: &'a Settings,
) {
    if settings.list.is_empty() {
        return;
    }
    let mut before = "{";
    write!(out, ",\"{key}\":");
    for set in &settings.list {
        let name = names.register(settings.function, set.register);
        write!(out, "{before}\"%{name}\":");
        push_value(out, names, &set.value);
        before = ",";
    }
    out.push_str("}");
}

/// A cell that was written, under this key, up to what it holds.
fn push_cell<'a>(out: &mut TextBuffer, names: &'a Names<'a>, key: &str, cell: &'a CellPlace) {
    let thing = ThingName {
        names,
        thing: &cell.thing,
    };
    let index = cell.index;
    write!(out, ",\"{key}\":[\"{thing}\",{index},");
}

fn push_written<'a>(out: &mut TextBuffer, names: &'a Names<'a>, written: &'a Written) {
    match written {
        Written::Nothing => {}
        Written::Cell { cell, number } => {
            push_cell(out, names, "cell", cell);
            push_number(out, *number);
            out.push_str("]");
        }
        Written::Zeros { cell, cells } => {
            push_cell(out, names, "zeros", cell);
            write!(out, "{cells}]");
        }
    }
}

fn push_outcome(out: &mut TextBuffer, outcome: &Outcome) {
    let (word, path) = match outcome {
        Outcome::GoesOn => return,
        Outcome::Begins(task) => ("begins", task),
        Outcome::TakesOn(task) => ("takes on", task),
        Outcome::Calls(frame) => ("calls", frame),
        Outcome::ReturnsTo(frame) => ("returns", frame),
        Outcome::Waits => return out.push_str(",\"then\":\"waits\""),
        Outcome::Ends => return out.push_str(",\"then\":\"ends\""),
        Outcome::Returns => return out.push_str(",\"then\":\"ends the run\""),
        // No hindrance has a sign that JSON escapes.
        Outcome::NotEnabled(hindrance) => {
            return write!(out, ",\"then\":\"not enabled\",\"why\":\"{hindrance}\"");
        }
    };
    let path = TaskName(path);
    write!(out, ",\"then\":\"{word}\",\"to\":\"{path}\"");
}

/// What the event is, and where it found its task.
fn push_heading(out: &mut TextBuffer, numbered: Numbered<'_>) {
    let number = numbered.number;
    let (word, worker, task) = numbered.moment.heading(numbered.event);
    write!(
        out,
        "{{\"n\":{number},\"do\":\"{word}\",\"worker\":{worker}"
    );
    if let Some(task) = task {
        let task = TaskName(task);
        write!(out, ",\"task\":\"{task}\"");
    }
    if let Some(place) = &numbered.moment.place {
        let frame = TaskName(&place.frame);
        let line = place.line;
        write!(out, ",\"frame\":\"{frame}\",\"line\":{line}");
    }
}

/// An event as an object, without a line's end.
pub(crate) fn push_event<'a>(out: &mut TextBuffer, names: &'a Names<'a>, numbered: Numbered<'a>) {
    push_heading(out, numbered);
    let Numbered { moment, round, .. } = numbered;
    // First what the instruction did, then what the frame was given that it leads to.
    if let Some(change) = &moment.change {
        push_settings(out, names, "sets", &change.own);
        push_written(out, names, &change.written);
        push_settings(out, names, "gives", &change.other);
    }
    push_outcome(out, &moment.outcome);
    write!(out, ",\"round\":{round}}}");
}
