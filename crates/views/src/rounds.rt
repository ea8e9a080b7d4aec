//! When events could have happened at the earliest: their rounds (critical path, makespan).

ghost use Rattle.std.specs.Prelude.{◌≡◌, ◌<◌, IfSome, slice_index, slice_set};
ghost use Rattle.views.specs.Rounds.{lasts_after, round_after, round_behind, worker_of};

use crate::moment::{Act, Moment, Outcome};
use frame::{Event, Path};
use lists::{OutOfMemory, Seq};
use std::alloc::Global;

/// An event of a worker, by its round.
#[derive(Clone, Copy)]
pub struct Instant {
    pub worker: usize,
    pub round: u64,
}

/// The events of a worker.
#[derive(Clone, Copy)]
pub struct Tally {
    pub instructions: u64,
    pub steals: u64,
}

impl Tally {
    /// No events.
    pub const NONE: Tally = Tally {
        instructions: 0,
        steals: 0,
    };

    /// These and others together.
    pub fn plus(self, more: Tally) -> Tally {
        Tally {
            instructions: self.instructions.saturating_add(more.instructions),
            steals: self.steals.saturating_add(more.steals),
        }
    }
}

/// When an event could have happened at the earliest.
#[derive(Clone, Copy)]
pub struct Timing {
    pub round: u64,
    /// The event of another worker, or an earlier one of its own, without which it could not have come in this round. None where that is
    /// its worker's last event, or where there is none.
    pub after: Option<Instant>,
}

/// What later events may have to wait for.
#[derive(Clone, Copy, PartialEq, Eq)]
enum Mark {
    /// The task was left ready by a detach.
    Ready,
    /// The task stalled at a sync.
    Stalled,
    /// A child of the frame within this region ended.
    Joined(usize),
}

/// A mark of a task or a frame.
#[derive(Drop)]
struct Marked {
    mark: Mark,
    path: Path,
    at: Instant,
}

/// The rounds of a run's events, which are told one after another.
///
/// An event's round is one more than the latest of two: its worker's last event, and the event that made it possible. That is, at a steal, the
/// detach that left the task ready; at a sync that goes on, the latest end of a child of the region; at a reattach that takes a stalled task
/// on, the later of that and the sync at which it stalled. A worker's first event has round 1 where nothing else is waited for.
pub struct Rounds {
    alloc: Global,
    /// By worker: the round of its last event; 0 before the first.
    last: Vec<u64>,
    marks: Vec<Marked>,
    /// Whether memory was refused for a mark.
    is_refused: bool,
}

/// Written out, so that no crate above proves it anew.
impl Drop for Rounds {
    fn drop(self) {
        let Rounds {
            alloc: _,
            last: _,
            marks: _,
            is_refused: _,
        } = self;
    }
}

/// The numbers of the frame that made this one; the root's own are the root's.
fn parent_of(path: &Path) -> &[u64] {
    let numbers = path.numbers.as_slice();
    numbers
        .get(..numbers.len().saturating_sub(1))
        .unwrap_or(numbers)
}

/// The later of two events.
fn later(first: Option<Instant>, second: Option<Instant>) -> Option<Instant> {
    match (first, second) {
        (Some(a), Some(b)) if a.round < b.round => Some(b),
        (None, other) => other,
        (kept, _) => kept,
    }
}

impl Rounds {
    /// Before the first event of a run of so many workers.
    pub fn new(alloc: Global, workers: usize) -> Result<Rounds, OutOfMemory> {
        Ok(Rounds {
            alloc,
            last: vec![in alloc; 0u64; workers]?,
            marks: Vec::new(alloc),
            is_refused: false,
        })
    }

    /// Whether memory was refused so far: then later rounds may be too low.
    pub fn is_refused(&self) -> bool {
        self.is_refused
    }

    /// The round of the last event of the worker; 0 where it has had none.
    pub fn last_of(&self, worker: usize) -> u64
        ensures { result ≡ slice_index self.now.last.items worker }
    {
        self.last.as_slice().get(worker).copied().unwrap_or(0)
    }

    /// The mark of the path with these numbers, if there is one.
    fn find(&self, mark: Mark, numbers: &[u64]) -> Option<usize> {
        for place in 0..self.marks.len() {
            let marked = &self.marks[place];
            if marked.mark == mark && marked.path.numbers.as_slice() == numbers {
                return Some(place);
            }
        }
        None
    }

    /// Takes the mark of the path away; the answer is when it was made.
    fn take(&mut self, mark: Mark, numbers: &[u64]) -> Option<Instant>
        ensures { self.new.last ≡ self.old.last }
    {
        let place = self.find(mark, numbers)?;
        if place < self.marks.len() {
            return Some(self.marks.swap_remove(place).at);
        }
        None
    }

    /// Marks the path. Of two ends within one region the later one is kept.
    fn put(&mut self, mark: Mark, numbers: &[u64], at: Instant)
        ensures { self.new.last ≡ self.old.last }
    {
        let at = later(self.take(mark, numbers), Some(at)).unwrap_or(at);
        let Ok(numbers) = numbers.to_vec(self.alloc) else {
            self.is_refused = true;
            return;
        };
        let path = Path {
            numbers: Seq::from_vec(numbers),
        };
        self.is_refused |= self.marks.push(Marked { mark, path, at }).is_err();
    }

    /// So many events of the worker of which each waits for the one before alone: the round of the last one.
    pub fn steps(&mut self, worker: usize, count: u64) -> u64
        ensures round { result ≡ round_behind (slice_index self.old.last.items worker) count }
        ensures last { self.new.last.items ≡ slice_set self.old.last.items worker result }
    {
        let round = self.last_of(worker).saturating_add(count);
        if worker < self.last.len() {
            self.last[worker] = round;
        }
        round
    }

    /// A sync of the worker's that goes on, in the frame with these numbers.
    pub fn sync(&mut self, worker: usize, region: usize, frame: &[u64]) {
        let ended = self.take(Mark::Joined(region), frame);
        if let Some(Instant { round, .. }) = ended
            && worker < self.last.len()
        {
            self.last[worker] = self.last[worker].max(round);
        }
        let _round = self.steps(worker, 1);
    }

    /// A detach at this time left the task with these numbers ready.
    pub fn leave_ready(&mut self, task: &[u64], at: Instant) {
        self.put(Mark::Ready, task, at);
    }

    /// A child within the region of the frame with these numbers ended at this time.
    pub fn end_child(&mut self, region: usize, frame: &[u64], at: Instant) {
        self.put(Mark::Joined(region), frame, at);
    }

    /// The event that made this one possible, if another one did than its worker's last.
    fn cause(&mut self, event: &Event, moment: &Moment) -> Option<Instant>
        ensures { self.new.last ≡ self.old.last }
    {
        let place = moment.place.as_ref()?;
        let task = place.task.numbers.as_slice();
        match (event, moment.act, &moment.outcome) {
            (Event::Steal(_, _), _, _) => self.take(Mark::Ready, task),
            (_, Act::Sync(region), Outcome::GoesOn) => self.take(
                Mark::Joined(region),
                place.frame.numbers.as_slice(),
            ),
            (_, Act::Reattach(region), Outcome::TakesOn(task)) => {
                self.cause_of_taking(parent_of(&place.frame), region, task.numbers.as_slice())
            }
            _ => None,
        }
    }

    /// What a reattach that takes its parent's task on had to wait for: where that was stalled, its sync and the other children.
    fn cause_of_taking(&mut self, parent: &[u64], region: usize, task: &[u64]) -> Option<Instant>
        ensures { self.new.last ≡ self.old.last }
    {
        let _ready = self.take(Mark::Ready, task);
        let stalled = self.take(Mark::Stalled, task)?;
        later(Some(stalled), self.take(Mark::Joined(region), parent))
    }

    /// Keeps what later events may have to wait for.
    fn note(&mut self, moment: &Moment, at: Instant)
        ensures { self.new.last ≡ self.old.last }
    {
        let Some(place) = &moment.place else {
            return;
        };
        let task = place.task.numbers.as_slice();
        match (moment.act, &moment.outcome) {
            (Act::Detach, _) => self.put(Mark::Ready, task, at),
            (Act::Sync(_), Outcome::Waits) => self.put(Mark::Stalled, task, at),
            (Act::Reattach(region), Outcome::Ends | Outcome::TakesOn(_)) => {
                self.put(Mark::Joined(region), parent_of(&place.frame), at);
            }
            _ => {}
        }
    }

    /// The next event's round. One that was not enabled, or of no worker, has the round after its worker's last event, and counts for
    /// nothing.
    pub fn next(&mut self, event: &Event, moment: &Moment) -> Timing
        ensures round { result.round ≡ round_after (slice_index self.old.last.items (worker_of event.now)) result.after }
        ensures later { IfSome result.after (λ cause. slice_index self.old.last.items (worker_of event.now) < cause.round) }
        ensures last { self.new.last.items ≡ lasts_after moment.now.outcome self.old.last.items (worker_of event.now) result.round }
    {
        let worker = match event {
            Event::Step(worker) | Event::Steal(worker, _) => usize::from(*worker),
        };
        let own = self.last_of(worker);
        if matches!(&moment.outcome, Outcome::NotEnabled(_)) || worker >= self.last.len() {
            return Timing {
                round: own.saturating_add(1),
                after: None,
            };
        }
        let (before, after) = match self.cause(event, moment) {
            Some(cause) if cause.round > own => (cause.round, Some(cause)),
            _ => (own, None),
        };
        let round = before.saturating_add(1);
        self.last[worker] = round;
        self.note(moment, Instant { worker, round });
        Timing { round, after }
    }
}
