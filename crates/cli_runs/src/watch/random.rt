//! A schedule that a seed draws: workers step and steal by chance (random scheduler).

ghost use Rattle.std.specs.Prelude.{◌<◌};

use crate::watch::course::Course;
use crate::watch::dice::Dice;
use crate::watch::watching::path_of;
use frame::Path;
use lists::OutOfMemory;
use schedule_core::{Event, Machine};
use std::alloc::Global;

/// A worker's step that was drawn: the task that it had.
#[derive(Drop)]
struct Drawn {
    worker: u8,
    task: Path,
}

/// Events that are drawn by a seed: again and again a worker by chance steps, or, where it has no task, takes one by chance of those that
/// are ready. Each event is enabled, and the events go on to the end of the run.
#[derive(Drop)]
pub struct Draw {
    alloc: Global,
    dice: Dice,
    workers: u8,
    /// The tasks that may be taken.
    ready: Vec<Path>,
    /// The step that was drawn last.
    step: Option<Drawn>,
    ghost some: { 0 < workers },
}

impl Draw {
    /// Of so many workers, from 1 to 64; of no worker as of one.
    pub fn new(alloc: Global, seed: u64, workers: usize) -> Draw {
        let workers = match workers {
            0 => 1,
            1..=63 => workers as u8,
            _ => 64,
        };
        Draw {
            alloc,
            dice: Dice::new(seed),
            workers,
            ready: Vec::new(alloc),
            step: None,
        }
    }

    /// The task may not be taken any more.
    fn forget(&mut self, task: &Path) {
        for place in 0..self.ready.len() {
            if self.ready[place].is_same(task) {
                let _task = self.ready.swap_remove(place);
                return;
            }
        }
    }

    /// Keeps the tasks that may be taken, after a step that began with one task and ended with another.
    fn note(&mut self, before: Path, after: &Path) -> Result<(), OutOfMemory> {
        if after.numbers.len() > before.numbers.len() {
            self.ready.push(before)?;
        } else {
            self.forget(after);
        }
        Ok(())
    }

    /// A steal of a task by chance; none where none may be taken.
    fn steal(&mut self, worker: u8) -> Option<Event> {
        if self.ready.is_empty() {
            return None;
        }
        let place = self.dice.below(self.ready.len());
        Some(Event::Steal(worker, self.ready.swap_remove(place)))
    }

    /// An event of the worker; none where it has no task, and none may be taken.
    fn event(&mut self, machine: &Machine<'_>, worker: u8) -> Result<Option<Event>, OutOfMemory> {
        let Some(task) = path_of(machine, worker) else {
            return Ok(self.steal(worker));
        };
        let task = task.copy(self.alloc)?;
        self.step = Some(Drawn { worker, task });
        Ok(Some(Event::Step(worker)))
    }
}

impl Course for Draw {
    fn next(&mut self, machine: &Machine<'_>) -> Result<Option<Event>, OutOfMemory> {
        for _try in 0..u64::MAX {
            if machine.ended() {
                return Ok(None);
            }
            let worker = self.dice.below(usize::from(self.workers));
            let event = self.event(machine, worker as u8)?;
            if event.is_some() {
                return Ok(event);
            }
        }
        Ok(None)
    }

    fn done(&mut self, machine: &Machine<'_>) -> Result<(), OutOfMemory> {
        let Some(Drawn { worker, task }) = self.step.take() else {
            return Ok(());
        };
        match path_of(machine, worker) {
            Some(after) if !after.is_same(&task) => self.note(task, after),
            _ => Ok(()),
        }
    }
}
