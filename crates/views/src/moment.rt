//! What an event came to: the task's place before it, and what it did, or why it was not enabled.

use crate::change::Change;
use frame::{Event, Path};
use std::fmt;

/// A task's path, as schedules spell it.
#[derive(Clone, Copy)]
pub struct TaskName<'a>(pub &'a Path);

impl fmt::Display for TaskName<'_> {
    fn fmt<W: fmt::Write>(&self, f: &mut fmt::Formatter<W>) -> fmt::Result {
        f.write_str("root")?;
        for number in self.0.numbers.as_slice() {
            write!(f, ".{number}")?;
        }
        Ok(())
    }
}

/// Where a task stands between two events.
pub struct TaskPlace {
    pub task: Path,
    /// The frame on top of it, which executes its next instruction.
    pub frame: Path,
    /// The line of its next instruction, or of the sync at which it waits; from 1.
    pub line: u32,
}

/// Written out, so that no crate above proves it anew.
impl Drop for TaskPlace {
    fn drop(self) {
        let TaskPlace {
            task: _,
            frame: _,
            line: _,
        } = self;
    }
}

/// Why an event was not enabled.
#[derive(Clone, Copy)]
pub enum Hindrance {
    /// `main` had returned.
    Ended,
    /// No worker has this number.
    NoWorker,
    /// A worker without a task cannot step.
    Idle,
    /// A worker with a task cannot steal.
    Busy,
    /// No task of this path lives.
    NoTask,
    /// The task is in this worker's hand.
    Running(u8),
    /// The task waits at a sync.
    Stalled,
}

impl fmt::Display for Hindrance {
    fn fmt<W: fmt::Write>(&self, f: &mut fmt::Formatter<W>) -> fmt::Result {
        let told = match self {
            Hindrance::Ended => "the run has ended",
            Hindrance::NoWorker => "there is no such worker",
            Hindrance::Idle => "the worker is idle",
            Hindrance::Busy => "the worker runs a task",
            Hindrance::NoTask => "no such task lives",
            Hindrance::Running(worker) => return write!(f, "worker {worker} runs the task"),
            Hindrance::Stalled => "the task waits at a sync",
        };
        f.write_str(told)
    }
}

/// What an event came to.
#[derive(Drop)]
pub enum Outcome {
    /// The worker goes on with the task, after a steal with the one that it took.
    GoesOn,
    /// The task has detached this child, which the worker runs now.
    Begins(Path),
    /// The child has ended, and the worker goes on with this task.
    TakesOn(Path),
    /// The frame has called a function, whose frame this is.
    Calls(Path),
    /// The frame has returned to this one, which called it.
    ReturnsTo(Path),
    /// The task waits at a sync; the worker is idle.
    Waits,
    /// The child has ended, and nothing is left for the worker.
    Ends,
    /// `main` has returned.
    Returns,
    /// Nothing has changed.
    NotEnabled(Hindrance),
}

/// What an event did to tasks, where it is more than an instruction of one frame. Regions are the numbers of the registers that name them.
#[derive(Clone, Copy)]
pub enum Act {
    Plain,
    Detach,
    Reattach(usize),
    Sync(usize),
}

/// One event of a run.
pub struct Moment {
    /// Where the event found the task that it is about: the worker's own, or the one to be taken. None where there is none.
    pub place: Option<TaskPlace>,
    pub act: Act,
    pub outcome: Outcome,
    /// What registers and cells it set, where that was asked for.
    pub change: Option<Change>,
}

/// Written out, so that no crate above proves it anew.
impl Drop for Moment {
    fn drop(self) {
        let Moment {
            place: _,
            act: _,
            outcome: _,
            change: _,
        } = self;
    }
}

impl Moment {
    /// How the event is called, its worker, and the task that it is about: a step itself names none.
    pub(crate) fn heading<'a>(&'a self, event: &'a Event) -> (&'static str, u8, Option<&'a Path>) {
        match (event, &self.place) {
            (Event::Step(worker), None) => ("step", *worker, None),
            (Event::Step(worker), Some(place)) => ("step", *worker, Some(&place.task)),
            (Event::Steal(worker, task), _) => ("steal", *worker, Some(task)),
        }
    }
}
