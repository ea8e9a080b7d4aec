//! The text of a schedule, written event for event while a run goes on.

use crate::TaskName;
use frame::{Event, Path};
use lists::TextBuffer;
use std::alloc::{AllocError, Global};

/// The events and the bytes that a schedule has at most.
const MOST: usize = 1_048_576;

/// A schedule's text, of which the steps of one worker in a row are written as one line. Where it grows too long only its events are
/// counted on.
#[derive(Drop)]
pub struct Script {
    text: TextBuffer,
    /// The worker of the steps that are not written yet, and how many they are.
    worker: u8,
    steps: u64,
    events: u64,
    is_too_long: bool,
}

impl Script {
    pub fn new(alloc: Global) -> Script {
        Script {
            text: TextBuffer::new(alloc),
            worker: 0,
            steps: 0,
            events: 0,
            is_too_long: false,
        }
    }

    /// Writes the steps that are not written yet.
    fn flush(&mut self) {
        let worker = self.worker;
        let steps = self.steps;
        if steps > 0 {
            writeln!(self.text, "step {worker} {steps}");
        }
        self.steps = 0;
    }

    /// Whether the text is longer than a schedule may be.
    fn is_full(&self) -> bool {
        self.text.as_str().len() > MOST
    }

    /// So many events come next: whether they are written.
    fn has_room(&mut self, events: u64) -> bool {
        self.events = self.events.saturating_add(events);
        self.is_too_long |= self.events > MOST as u64 || self.is_full();
        !self.is_too_long
    }

    /// The next event.
    pub(crate) fn add(&mut self, event: &Event) {
        match event {
            Event::Step(worker) => self.add_steps(*worker, 1),
            Event::Steal(worker, task) => self.add_steal(*worker, task),
        }
    }

    /// So many steps of the worker come next.
    pub fn add_steps(&mut self, worker: u8, count: u64) {
        if self.has_room(count) {
            if worker != self.worker {
                self.flush();
            }
            self.worker = worker;
            self.steps = self.steps.saturating_add(count);
        }
    }

    /// A steal of the task comes next.
    pub fn add_steal(&mut self, worker: u8, task: &Path) {
        if self.has_room(1) {
            self.flush();
            let task = TaskName(task);
            writeln!(self.text, "steal {worker} {task}");
        }
    }

    /// The whole text; none where it is longer than a schedule may be.
    ///
    /// # Errors
    ///
    /// Memory was refused.
    pub fn into_text(mut self) -> Result<Option<String>, AllocError> {
        self.flush();
        let is_too_long = self.is_too_long || self.is_full();
        let text = self.text.finish()?;
        Ok(if is_too_long { None } else { Some(text) })
    }
}
