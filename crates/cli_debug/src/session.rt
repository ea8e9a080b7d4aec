//! A debugger, and what is shown with it: lines of the module, a worker's task, the paths of live frames, sorted, and
//! events in words.

ghost use Rattle.std.specs.Prelude.{◌≤◌, length};

use crate::paint::{Colour, Paint};
use debugger::{Debugger, Event, TaskView, Verified};
use frame::Path;
use lists::{OutOfMemory, TextBuffer};
use std::alloc::Global;
use views::{Names, TaskName};

/// A debugger, with the texts that people see.
#[derive(Drop)]
pub(crate) struct Session<'s> {
    pub alloc: Global,
    pub debugger: Debugger<'s>,
    pub verified: &'s Verified,
    pub names: &'s Names<'s>,
    /// The lines of the module.
    pub lines: &'s [&'s str],
    pub workers: usize,
    /// Whether people are answered; else programs are, which need less.
    pub is_for_people: bool,
    pub has_colours: bool,
}

impl Session<'_> {
    pub(crate) fn colour(&self, paint: Paint) -> Colour {
        Colour::of(paint, self.has_colours)
    }

    /// A line of the module, without blanks around and without its comment.
    pub(crate) fn source(&self, line: u32) -> &str {
        let index = (line as usize).saturating_sub(1);
        let text = self.lines.get(index).copied().unwrap_or("");
        match text.split_once(";") {
            Some((instruction, _comment)) => instruction.trim(),
            None => text.trim(),
        }
    }

    /// The task that a worker runs.
    pub(crate) fn worker(&self, number: u64) -> Option<TaskView<'_>> {
        self.debugger.show_worker(u8::try_from(number).ok()?)
    }

    /// The paths of the living frames, by rising path: each behind the one that made it.
    pub(crate) fn paths(&self) -> Result<Vec<Path>, OutOfMemory> {
        let mut sorted: Vec<Path> = Vec::new(self.alloc);
        for path in self.debugger.paths(self.alloc)? {
            let place = place_for(sorted.as_slice(), &path);
            sorted.insert(place, path)?;
        }
        Ok(sorted)
    }
}

/// Where a path belongs among others that are sorted.
fn place_for(sorted: &[Path], path: &Path) -> usize
    ensures { result ≤ length sorted.now }
{
    for place in 0..sorted.len() {
        if sorted[place].compare(path).is_gt() {
            return place;
        }
    }
    sorted.len()
}

/// An event in words.
pub(crate) fn push_event(out: &mut TextBuffer, event: &Event) {
    match event {
        Event::Step(worker) => write!(out, "step {worker}"),
        Event::Steal(worker, task) => {
            let task = TaskName(task);
            write!(out, "steal {worker} {task}")
        }
    }
}
