//! A run that is watched: each event gives a moment, with what it found and what it set.

ghost use Rattle.schedule_core.specs.store.Made.{IsMadeFor};

use frame::Path;
use lists::OutOfMemory;
use schedule_core::{Event, Machine, Memory, RunFault, Status, TaskView, Verified};
use std::alloc::Global;
use views::{
    Act, Change, Hindrance, Moment, Objects, Outcome, Plan, Settings, TaskPlace, Which, Written,
    is_plain_at, plan_of, registers_at,
};

/// A run that is watched: each event gives a [`Moment`].
#[derive(Drop)]
pub struct Watch<'v> {
    alloc: Global,
    verified: &'v Verified,
    machine: Machine<'v>,
    workers: usize,
    objects: Objects,
    /// Whether the next moment tells what registers and cells were set.
    is_detailed: bool,
}

/// Where a task stands.
fn place_of(alloc: Global, view: &TaskView<'_>) -> Result<TaskPlace, OutOfMemory> {
    Ok(TaskPlace {
        task: view.path.copy(alloc)?,
        frame: view.top_path.copy(alloc)?,
        line: view.line,
    })
}

/// Where a task stands, if there is one.
pub fn place_if(
    alloc: Global,
    view: Option<TaskView<'_>>,
) -> Result<Option<TaskPlace>, OutOfMemory> {
    match view {
        Some(view) => Ok(Some(place_of(alloc, &view)?)),
        None => Ok(None),
    }
}

/// The path of the worker's task.
pub(crate) fn path_of<'m>(machine: &'m Machine<'_>, worker: u8) -> Option<&'m Path> {
    match machine.task_of(worker) {
        Some(view) => Some(view.path),
        None => None,
    }
}

/// What the worker does after a step for a task, where it has one now: within one task its top tells, else the tasks.
fn after_work(
    alloc: Global,
    before: &TaskPlace,
    now: &TaskView<'_>,
) -> Result<Outcome, OutOfMemory> {
    let is_same = now.path.is_same(&before.task);
    let (new, old) = if is_same {
        (now.top_path, &before.frame)
    } else {
        (now.path, &before.task)
    };
    let (length, was) = (new.numbers.len(), old.numbers.len());
    if is_same && length == was {
        return Ok(Outcome::GoesOn);
    }
    let new = new.copy(alloc)?;
    Ok(match (is_same, length > was) {
        (true, true) => Outcome::Calls(new),
        (true, false) => Outcome::ReturnsTo(new),
        (false, true) => Outcome::Begins(new),
        (false, false) => Outcome::TakesOn(new),
    })
}

/// What the worker does after a step for a task.
pub fn after_step(
    alloc: Global,
    machine: &Machine<'_>,
    worker: u8,
    before: &TaskPlace,
) -> Result<Outcome, OutOfMemory> {
    if machine.ended() {
        return Ok(Outcome::Returns);
    }
    match machine.task_of(worker) {
        Some(now) => after_work(alloc, before, &now),
        None if machine.task(&before.task).is_some() => Ok(Outcome::Waits),
        None => Ok(Outcome::Ends),
    }
}

/// What hinders every event of the worker.
fn worker_hindrance(machine: &Machine<'_>, workers: usize, worker: u8) -> Option<Hindrance> {
    if machine.ended() {
        Some(Hindrance::Ended)
    } else if usize::from(worker) >= workers {
        Some(Hindrance::NoWorker)
    } else {
        None
    }
}

/// What hinders a steal of the task.
fn task_hindrance(machine: &Machine<'_>, task: &Path) -> Hindrance {
    match machine.task(task) {
        None => Hindrance::NoTask,
        Some(view) => match view.status {
            Status::Running(runner) => Hindrance::Running(runner),
            Status::Stalled(_) => Hindrance::Stalled,
            Status::Ready => Hindrance::Busy,
        },
    }
}

fn steal_hindrance(machine: &Machine<'_>, workers: usize, worker: u8, task: &Path) -> Hindrance {
    match worker_hindrance(machine, workers, worker) {
        Some(hindrance) => hindrance,
        None if path_of(machine, worker).is_some() => Hindrance::Busy,
        None => task_hindrance(machine, task),
    }
}

/// A moment of an event that was not enabled.
fn missed(place: Option<TaskPlace>, hindrance: Hindrance) -> Moment {
    Moment {
        place,
        act: Act::Plain,
        outcome: Outcome::NotEnabled(hindrance),
        change: None,
    }
}

/// Which registers a step sets in the frame to which its worker came by it: the top of the task that it has now.
fn set_elsewhere(plan: &Plan, outcome: &Outcome, now: Option<TaskView<'_>>) -> Which {
    match (outcome, now) {
        // A task that was stalled goes on behind its sync, any other one where the child was detached.
        (Outcome::TakesOn(_), Some(view)) if plan.continuation == Some(view.top.place.block) => {
            Which::None
        }
        (Outcome::Begins(_) | Outcome::TakesOn(_), _) => Which::Phis,
        (Outcome::Calls(_), _) => Which::Parameters,
        (Outcome::ReturnsTo(_), _) => Which::Result,
        _ => Which::None,
    }
}

impl<'v> Watch<'v> {
    /// Before the first event.
    ///
    /// # Errors
    ///
    /// Those of [`Machine::start`].
    pub fn start(
        alloc: Global,
        verified: &'v Verified,
        arguments: &[i64],
        memory: Memory,
        workers: usize,
    ) -> Result<Watch<'v>, RunFault>
        requires { IsMadeFor verified.now memory }
    {
        let machine = Machine::start(alloc, verified, arguments, memory, workers)?;
        let Ok(objects) = Objects::of(alloc, verified) else {
            return Err(RunFault::OutOfMemory);
        };
        Ok(Watch {
            alloc,
            verified,
            machine,
            workers,
            objects,
            is_detailed: false,
        })
    }

    /// From now on moments tell what registers and cells were set, which takes longer. The answer is what the root was given. Nothing is told
    /// of arrays of frames that were made before.
    pub fn begin_details(&mut self) -> Result<Settings, OutOfMemory> {
        self.is_detailed = true;
        let program = self.verified.program();
        let Some(view) = self.machine.task_of(0) else {
            return Ok(Settings::none(self.alloc));
        };
        self.objects.begin(program, view.top_path, view.top)?;
        let given = registers_at(self.alloc, program, view.top, Which::Parameters)?;
        self.objects.settings(program, view.top, given.as_slice())
    }

    /// Moments do not tell any more what was set.
    pub fn end_details(&mut self) {
        self.is_detailed = false;
    }

    /// The machine after the events that were done.
    pub fn machine(&self) -> &Machine<'v> {
        &self.machine
    }

    /// The machine after the events that were done, for good.
    pub fn into_machine(self) -> Machine<'v> {
        let Watch {
            alloc: _,
            verified: _,
            machine,
            workers: _,
            objects: _,
            is_detailed: _,
        } = self;
        machine
    }

    /// What the next step of the worker's task is about to do.
    fn plan(&self, worker: u8) -> Option<Plan> {
        let view = self.machine.task_of(worker)?;
        Some(plan_of(self.verified.program(), &self.objects.places, view.top))
    }

    /// What these registers of a task's top hold now; nothing where there is no task.
    fn settings(&self, task: Option<TaskView<'_>>, which: Which) -> Result<Settings, OutOfMemory> {
        let Some(view) = task else {
            return Ok(Settings::none(self.alloc));
        };
        let program = self.verified.program();
        let registers = registers_at(self.alloc, program, view.top, which)?;
        self.objects
            .settings(program, view.top, registers.as_slice())
    }

    /// What a step wrote.
    fn written(&self, plan: &Plan) -> Result<Written, OutOfMemory> {
        let Some(target) = plan.target else {
            return Ok(Written::Nothing);
        };
        let Some(cell) = self.objects.cell_at(target.address)? else {
            return Ok(Written::Nothing);
        };
        match target.zeros {
            Some(cells) => Ok(Written::Zeros { cell, cells }),
            None => Ok(Written::Cell {
                cell,
                number: self.machine.cell_at(target.address).unwrap_or(0),
            }),
        }
    }

    /// What a step of the worker set: in its frame, which lives on as the top of a task, in the one to which the worker came by it, and in
    /// memory.
    fn change(
        &self,
        plan: &Plan,
        worker: u8,
        place: &TaskPlace,
        outcome: &Outcome,
    ) -> Result<Change, OutOfMemory> {
        let now = self.machine.task_of(worker);
        let task = match outcome {
            Outcome::GoesOn => now,
            Outcome::Begins(_) => self.machine.task(&place.task),
            _ => None,
        };
        let others = set_elsewhere(plan, outcome, now);
        Ok(Change {
            own: self.settings(task, plan.sets)?,
            other: self.settings(now, others)?,
            written: self.written(plan)?,
        })
    }

    /// Keeps which frames live that have arrays.
    fn note_frames(
        &mut self,
        worker: u8,
        place: &TaskPlace,
        outcome: &Outcome,
    ) -> Result<(), OutOfMemory> {
        match (outcome, self.machine.task_of(worker)) {
            (Outcome::Calls(_), Some(view)) => {
                let program = self.verified.program();
                self.objects.begin(program, view.top_path, view.top)
            }
            (Outcome::ReturnsTo(_), _) => {
                self.objects.end(&place.frame);
                Ok(())
            }
            _ => Ok(()),
        }
    }

    /// What a step of the worker set, where that is to be told.
    fn details(
        &mut self,
        plan: &Plan,
        worker: u8,
        place: &TaskPlace,
        outcome: &Outcome,
    ) -> Result<Option<Change>, OutOfMemory> {
        if !self.is_detailed {
            return Ok(None);
        }
        self.note_frames(worker, place, outcome)?;
        Ok(Some(self.change(plan, worker, place, outcome)?))
    }

    /// A step of a worker with a task.
    fn step_from(
        &mut self,
        event: &Event,
        worker: u8,
        place: TaskPlace,
        plan: Plan,
    ) -> Result<Moment, OutOfMemory> {
        if !self.machine.apply(event)? {
            return Ok(missed(Some(place), Hindrance::Ended));
        }
        let outcome = after_step(self.alloc, &self.machine, worker, &place)?;
        let change = self.details(&plan, worker, &place, &outcome)?;
        Ok(Moment {
            place: Some(place),
            act: plan.act,
            outcome,
            change,
        })
    }

    fn step(&mut self, event: &Event, worker: u8) -> Result<Moment, OutOfMemory> {
        let place = place_if(self.alloc, self.machine.task_of(worker))?;
        if let Some(hindrance) = worker_hindrance(&self.machine, self.workers, worker) {
            return Ok(missed(place, hindrance));
        }
        match (place, self.plan(worker)) {
            (Some(place), Some(plan)) => self.step_from(event, worker, place, plan),
            (place, _) => Ok(missed(place, Hindrance::Idle)),
        }
    }

    fn steal(&mut self, event: &Event, worker: u8, task: &Path) -> Result<Moment, OutOfMemory> {
        let place = place_if(self.alloc, self.machine.task(task))?;
        let hindrance = steal_hindrance(&self.machine, self.workers, worker, task);
        if self.machine.apply(event)? {
            Ok(Moment {
                place,
                act: Act::Plain,
                outcome: Outcome::GoesOn,
                change: None,
            })
        } else {
            Ok(missed(place, hindrance))
        }
    }

    /// The worker's next step, where it does nothing to frames or tasks; whether it does not.
    pub fn plain_step(&mut self, worker: u8) -> Result<bool, OutOfMemory> {
        let is_plain = match self.machine.task_of(worker) {
            Some(view) => is_plain_at(self.verified.program(), view.top),
            None => false,
        };
        if is_plain && !self.machine.ended() {
            self.machine.apply(&Event::Step(worker))
        } else {
            Ok(false)
        }
    }

    /// The next event, done and seen. Where memory is refused the event may be done.
    pub fn next(&mut self, event: &Event) -> Result<Moment, OutOfMemory> {
        match event {
            Event::Step(worker) => self.step(event, *worker),
            Event::Steal(worker, task) => self.steal(event, *worker, task),
        }
    }
}
