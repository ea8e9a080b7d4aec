//! What a picture shows: who runs which task from when to when, and who took it from whom. Times are rounds.

use crate::{Instant, Moment, Outcome, TaskName, TaskPlace, Timing};
use frame::{Event, Path};
use lists::OutOfMemory;
use std::alloc::Global;

/// A worker and its task, after one round and up to another.
#[derive(Clone, Copy)]
pub struct Stay {
    pub worker: usize,
    /// The task's number in the scene.
    pub task: usize,
    pub from: u64,
    pub to: u64,
}

impl Stay {
    fn end(self) -> Instant {
        Instant {
            worker: self.worker,
            round: self.to,
        }
    }
}

/// Events of a worker in rounds that follow each other: instructions of one task, or one steal.
#[derive(Clone, Copy)]
pub struct Work {
    pub stay: Stay,
    /// What the first of them had to wait for, beside its worker.
    pub after: Option<Instant>,
    /// Whether an event on the longest chain is among them.
    pub is_critical: bool,
    pub is_steal: bool,
}

/// A steal.
#[derive(Clone, Copy)]
pub struct Theft {
    pub round: u64,
    pub thief: usize,
    /// The worker that ran the task last.
    pub victim: usize,
}

/// An event that was not enabled, by the round that it would have had.
#[derive(Clone, Copy)]
pub struct Miss {
    pub round: u64,
    pub worker: usize,
}

/// A task that lives: who ran it last.
#[derive(Drop)]
struct Living {
    path: Path,
    number: usize,
    runner: usize,
}

/// What a worker does.
#[derive(Clone, Copy)]
struct Hand {
    /// The task that it has, and since when; `to` is not used.
    stay: Option<Stay>,
    /// The number of the work that its next instruction may go on with.
    work: Option<usize>,
}

const EMPTY: Hand = Hand {
    stay: None,
    work: None,
};

/// A whole run, which is told event by event. Workers and tasks are numbered from 0.
pub struct Scene {
    alloc: Global,
    /// The names of the tasks by their numbers, in the order in which they begin.
    pub tasks: Vec<String>,
    /// While a worker has a task in its hand.
    pub stays: Vec<Stay>,
    /// While a worker does one event after another.
    pub works: Vec<Work>,
    pub thefts: Vec<Theft>,
    pub misses: Vec<Miss>,
    /// The last round.
    pub rounds: u64,
    /// The round in which the run ended.
    pub end: Option<u64>,
    /// By worker.
    hands: Vec<Hand>,
    living: Vec<Living>,
    /// Whether memory was refused for a part of the scene.
    is_refused: bool,
}

/// Written out, so that no crate above proves it anew.
impl Drop for Scene {
    fn drop(self) {
        let Scene {
            alloc: _,
            tasks: _,
            stays: _,
            works: _,
            thefts: _,
            misses: _,
            rounds: _,
            end: _,
            hands: _,
            living: _,
            is_refused: _,
        } = self;
    }
}

impl Scene {
    /// The scene before the first event: worker 0 runs the root.
    ///
    /// # Errors
    ///
    /// Memory was refused for the rows of the workers.
    pub fn new(alloc: Global, workers: usize) -> Result<Scene, OutOfMemory> {
        let hands = vec![in alloc; EMPTY; workers]?;
        let mut scene = Scene {
            alloc,
            tasks: Vec::new(alloc),
            stays: Vec::new(alloc),
            works: Vec::new(alloc),
            thefts: Vec::new(alloc),
            misses: Vec::new(alloc),
            rounds: 0,
            end: None,
            hands,
            living: Vec::new(alloc),
            is_refused: false,
        };
        let _runner = scene.begin(0, &Path::root(alloc), 0);
        Ok(scene)
    }

    /// Whether memory was refused so far: then parts of the scene are missing.
    pub(crate) fn is_refused(&self) -> bool {
        self.is_refused
    }

    /// How many workers there are.
    pub(crate) fn workers(&self) -> usize {
        self.hands.len()
    }

    fn find(&self, task: &Path) -> Option<usize> {
        for place in 0..self.living.len() {
            if self.living[place].path.is_same(task) {
                return Some(place);
            }
        }
        None
    }

    /// A task begins, with the next number.
    fn enter(&mut self, task: &Path, runner: usize) {
        let number = self.tasks.len();
        let name = TaskName(task);
        if let Ok(name) = format!(in self.alloc; "{name}")
            && self.tasks.push(name).is_ok()
            && let Ok(path) = task.copy(self.alloc)
        {
            let living = Living {
                path,
                number,
                runner,
            };
            self.is_refused |= self.living.push(living).is_err();
        } else {
            self.is_refused = true;
        }
    }

    /// The task is over.
    fn forget(&mut self, task: &Path) {
        if let Some(place) = self.find(task) {
            if place < self.living.len() {
                let _living = self.living.swap_remove(place);
            }
        }
    }

    /// The worker has the task in its hand after this round; a task that has no number gets the next one. The answer is the worker that ran
    /// it last; 0 where none did.
    fn begin(&mut self, worker: usize, task: &Path, from: u64) -> usize {
        let mut number = self.tasks.len();
        let mut runner = 0;
        if let Some(place) = self.find(task)
            && let Some(living) = self.living.as_mut_slice().get_mut(place)
        {
            number = living.number;
            runner = living.runner;
            living.runner = worker;
        } else {
            self.enter(task, worker);
        }
        if let Some(hand) = self.hands.as_mut_slice().get_mut(worker) {
            *hand = Hand {
                stay: Some(Stay {
                    worker,
                    task: number,
                    from,
                    to: from,
                }),
                work: None,
            };
        }
        runner
    }

    /// The worker has its task in its hand up to this round.
    fn leave(&mut self, worker: usize, to: u64) {
        if let Some(hand) = self.hands.as_mut_slice().get_mut(worker)
            && let Some(stay) = hand.stay.take()
        {
            self.is_refused |= self.stays.push(Stay { to, ..stay }).is_err();
        }
    }

    /// The worker does so many events for its task, in rounds that follow each other. Instructions go on with its last work where that ended
    /// in the round before.
    fn work(&mut self, worker: usize, count: u64, timing: Timing, is_steal: bool) {
        let Some(hand) = self.hands.as_mut_slice().get_mut(worker) else {
            return;
        };
        let Some(stay) = hand.stay else {
            return;
        };
        let from = timing.round.saturating_sub(count);
        if let (Some(number), None) = (hand.work, timing.after)
            && let Some(work) = self.works.as_mut_slice().get_mut(number)
            && work.stay.to == from
        {
            work.stay.to = timing.round;
            return;
        }
        hand.work = if is_steal {
            None
        } else {
            Some(self.works.len())
        };
        let next = Work {
            stay: Stay {
                from,
                to: timing.round,
                ..stay
            },
            after: timing.after,
            is_critical: false,
            is_steal,
        };
        self.is_refused |= self.works.push(next).is_err();
    }

    /// The worker executes so many instructions of its task that do nothing to tasks, the last one in this round.
    pub fn add_steps(&mut self, worker: usize, count: u64, round: u64) {
        self.rounds = self.rounds.max(round);
        self.work(worker, count, Timing { round, after: None }, false);
    }

    /// The worker takes the task of this place from the one that ran it last.
    fn steal(&mut self, thief: usize, place: &TaskPlace, timing: Timing) {
        let round = timing.round;
        let victim = self.begin(thief, &place.task, round.saturating_sub(1));
        let theft = Theft {
            round,
            thief,
            victim,
        };
        self.is_refused |= self.thefts.push(theft).is_err();
        self.work(thief, 1, timing, true);
    }

    /// The worker executes an instruction of its task.
    fn step(&mut self, worker: usize, place: &TaskPlace, outcome: &Outcome, timing: Timing) {
        self.work(worker, 1, timing, false);
        let round = timing.round;
        match outcome {
            Outcome::TakesOn(_) | Outcome::Ends => self.forget(&place.task),
            Outcome::Returns => self.end = Some(round),
            Outcome::Begins(_) | Outcome::Waits => {}
            _ => return,
        }
        self.leave(worker, round);
        if let Outcome::Begins(task) | Outcome::TakesOn(task) = outcome {
            let _runner = self.begin(worker, task, round);
        }
    }

    /// The next event, with its round.
    pub fn add(&mut self, event: &Event, moment: &Moment, timing: Timing) {
        let worker = match event {
            Event::Step(worker) | Event::Steal(worker, _) => usize::from(*worker),
        };
        let round = timing.round;
        self.rounds = self.rounds.max(round);
        match (&moment.outcome, event, &moment.place) {
            (Outcome::NotEnabled(_), _, _) | (_, _, None) => {
                self.is_refused |= self.misses.push(Miss { round, worker }).is_err();
            }
            (_, Event::Steal(_, _), Some(place)) => self.steal(worker, place, timing),
            (outcome, _, Some(place)) => self.step(worker, place, outcome, timing),
        }
    }

    /// The end of what is told: stays that still last are closed, and the longest chain is marked.
    pub(crate) fn close(&mut self) {
        for worker in 0..self.hands.len() {
            self.leave(worker, self.rounds);
        }
        self.mark_chain();
    }

    /// Marks the longest chain of events, each of which had to wait for the one before: from a last one back to a first. A worker's works end in
    /// different rounds, and what one had to wait for stands before it.
    fn mark_chain(&mut self) {
        let mut next = Instant {
            worker: 0,
            round: 0,
        };
        for work in &self.works {
            if work.stay.to > next.round {
                next = work.stay.end();
            }
        }
        let works = self.works.as_mut_slice();
        for place in (0..works.len()).rev() {
            let work = &mut works[place];
            let Instant { worker, round } = work.stay.end();
            if worker == next.worker && round == next.round {
                work.is_critical = true;
                next = work.after.unwrap_or(Instant {
                    worker,
                    round: work.stay.from,
                });
            }
        }
    }
}
