//! Where the events of a run come from: a list, or another source that gives one after another.

use frame::Event;
use lists::OutOfMemory;
use schedule_core::Machine;
use std::alloc::Global;

/// Events that a run does one after another.
pub trait Course {
    /// The next event of a run whose machine stands so; none at the end.
    fn next(&mut self, machine: &Machine<'_>) -> Result<Option<Event>, OutOfMemory>;

    /// The event that came last was done, and so the machine stands now.
    fn done(&mut self, machine: &Machine<'_>) -> Result<(), OutOfMemory>;
}

/// The events of a list.
#[derive(Drop)]
pub struct Listed<'e> {
    alloc: Global,
    events: &'e [Event],
    next: usize,
}

impl<'e> Listed<'e> {
    pub fn new(alloc: Global, events: &'e [Event]) -> Listed<'e> {
        Listed {
            alloc,
            events,
            next: 0,
        }
    }
}

impl Course for Listed<'_> {
    fn next(&mut self, _machine: &Machine<'_>) -> Result<Option<Event>, OutOfMemory> {
        let Some(event) = self.events.get(self.next) else {
            return Ok(None);
        };
        self.next = self.next.saturating_add(1);
        Ok(Some(match event {
            Event::Step(worker) => Event::Step(*worker),
            Event::Steal(worker, task) => Event::Steal(*worker, task.copy(self.alloc)?),
        }))
    }

    fn done(&mut self, _machine: &Machine<'_>) -> Result<(), OutOfMemory> {
        Ok(())
    }
}
