//! Going through the schedule: to a position, past a worker's event or call, to a line (stepping, breakpoints).

use crate::session::Session;
use debugger::{Event, TaskView};
use frame::Path;
use lists::OutOfMemory;

fn worker_of(event: &Event) -> u64 {
    match event {
        Event::Step(worker) | Event::Steal(worker, _) => u64::from(*worker),
    }
}

/// The position behind the next event of the worker, from this position on.
fn behind_next(events: &[Event], position: usize, worker: u64) -> Option<usize> {
    for (index, event) in events.iter().enumerate() {
        if index >= position && worker_of(event) == worker {
            return Some(index.saturating_add(1));
        }
    }
    None
}

impl Session<'_> {
    /// A position is found always: one behind the end is the end.
    pub(crate) fn go_to(&mut self, position: usize) -> Result<bool, OutOfMemory> {
        self.debugger.to(position)?;
        Ok(true)
    }

    /// Goes on past the worker's next event; false where it has none.
    pub(crate) fn go_next(&mut self, worker: u64) -> Result<bool, OutOfMemory> {
        let position = self.debugger.position();
        match behind_next(self.debugger.events(), position, worker) {
            Some(next) => self.go_to(next),
            None => Ok(false),
        }
    }

    /// How deep the top frame of the worker's task lies; an idle worker has none that another is deeper than.
    fn depth_of(&self, worker: u64) -> usize {
        match self.worker(worker) {
            Some(view) => view.top_path.numbers.len(),
            None => usize::MAX,
        }
    }

    /// The path of the top frame of the worker's task, where a call made it and it is deeper than this.
    fn callee_of(&self, worker: u64, depth: usize) -> Result<Option<Path>, OutOfMemory> {
        match self.worker(worker) {
            Some(TaskView { top_path, .. })
                if top_path.numbers.len() > depth && self.debugger.show_task(top_path).is_none() =>
                { Ok(Some(top_path.copy(self.alloc)?)) }
            _ => Ok(None),
        }
    }

    /// Goes on past the worker's next event and, where that is a call, to the callee's end; false where the worker has no event.
    pub(crate) fn go_over(&mut self, worker: u64) -> Result<bool, OutOfMemory> {
        let depth = self.depth_of(worker);
        if !self.go_next(worker)? {
            return Ok(false);
        }
        match self.callee_of(worker, depth)? {
            Some(callee) => self.go_to_end(&callee),
            None => Ok(true),
        }
    }

    fn lives(&self, path: &Path) -> bool {
        self.debugger.show_frame(path).is_some()
    }

    /// Goes on until the frame has ended, which may not have begun yet; false where it has not ended at the end.
    pub(crate) fn go_to_end(&mut self, path: &Path) -> Result<bool, OutOfMemory> {
        let mut has_lived = self.lives(path);
        for _event in self.debugger.position()..self.debugger.len() {
            self.debugger.forward()?;
            let lives = self.lives(path);
            if has_lived && !lives {
                return Ok(true);
            }
            has_lived = has_lived || lives;
        }
        Ok(false)
    }

    /// Goes on until a worker's next instruction stands on the line; false where that is nowhere.
    pub(crate) fn go_to_line(&mut self, line: u64) -> Result<bool, OutOfMemory> {
        self.debugger.break_at(line)?;
        Ok(self.debugger.machine().stands_at(line))
    }
}
