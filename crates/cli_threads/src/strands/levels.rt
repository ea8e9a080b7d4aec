//! The frames of a strand, as far as rounds go by them.

use frame::Path;
use std::alloc::Global;
use views::{Instant, Rounds};

/// A frame of the stack.
#[derive(Clone, Copy)]
struct Level {
    /// How many numbers its path has, and that of its task.
    frame: usize,
    task: usize,
    /// The round of the detach behind which it stands, while its child runs.
    detached: Option<u64>,
    /// How many ends of children were noted before it came.
    ends: usize,
}

/// When a child within the region ended.
#[derive(Clone, Copy)]
struct End {
    region: usize,
    round: u64,
}

/// The frames of a stack, from its base on.
#[derive(Drop)]
pub(crate) struct Levels {
    /// The path of the top frame.
    path: Vec<u64>,
    levels: Vec<Level>,
    /// The ended children of all frames, those of the base first.
    ends: Vec<End>,
    /// Whether memory was refused for a part of them.
    is_refused: bool,
}

impl Levels {
    pub(crate) fn new(alloc: Global) -> Levels {
        Levels {
            path: Vec::new(alloc),
            levels: Vec::new(alloc),
            ends: Vec::new(alloc),
            is_refused: false,
        }
    }

    /// Whether memory was refused so far: then what is noted of the frames may be wrong.
    pub(crate) fn is_refused(&self) -> bool {
        self.is_refused
    }

    /// A frame of which nothing is known yet stands on top.
    fn push(&mut self, frame: usize, task: usize) {
        let level = Level {
            frame,
            task,
            detached: None,
            ends: self.ends.len(),
        };
        self.is_refused |= self.levels.push(level).is_err();
    }

    /// The base alone: this task's top frame.
    pub(crate) fn begin(&mut self, task: &Path, frame: &Path) {
        self.path.clear();
        self.levels.clear();
        self.ends.clear();
        let path = frame.numbers.as_slice();
        self.is_refused |= self.path.extend_from_slice(path).is_err();
        self.push(path.len(), task.numbers.len());
    }

    /// The top frame has made one with this number, of a task of its own where it was detached in this round.
    pub(crate) fn enter(&mut self, number: u64, detached: Option<u64>) {
        self.is_refused |= self.path.push(number).is_err();
        let frame = self.path.len();
        let mut task = frame;
        if let Some(maker) = self.levels.as_mut_slice().last_mut() {
            maker.detached = detached;
            if detached.is_none() {
                task = maker.task;
            }
        }
        self.push(frame, task);
    }

    /// The top frame is over.
    pub(crate) fn leave(&mut self) {
        let Some(over) = self.levels.pop() else {
            return;
        };
        self.ends.truncate(over.ends);
        self.path.truncate(over.frame.saturating_sub(1));
        if let Some(maker) = self.levels.as_mut_slice().last_mut() {
            maker.detached = None;
        }
    }

    /// A child of the top frame ended.
    pub(crate) fn end_child(&mut self, region: usize, round: u64) {
        self.is_refused |= self.ends.push(End { region, round }).is_err();
    }

    /// The top frame's path; none where it is not the base, whose children nobody else has ended.
    pub(crate) fn base(&self) -> Option<&[u64]> {
        if self.levels.len() == 1 {
            Some(self.path.as_slice())
        } else {
            None
        }
    }

    /// The top frame has synced its children of the region.
    pub(crate) fn sync(&mut self, region: usize) {
        let first = match self.levels.as_slice().last() {
            Some(top) => top.ends,
            None => 0,
        };
        for place in (first..self.ends.len()).rev() {
            if place < self.ends.len() && self.ends[place].region == region {
                let _end = self.ends.swap_remove(place);
            }
        }
    }

    /// Notes for this worker's stack, which is put on the board, what later events may wait for.
    pub(crate) fn note(&self, worker: usize, rounds: &mut Rounds) {
        let levels = self.levels.as_slice();
        for (place, level) in levels.iter().enumerate() {
            if let Some(round) = level.detached {
                let task = self.path.as_slice().get(..level.task).unwrap_or(&[]);
                rounds.leave_ready(task, Instant { worker, round });
            }
            let behind = match levels.get(place.saturating_add(1)) {
                Some(above) => above.ends,
                None => self.ends.len(),
            };
            let frame = self.path.as_slice().get(..level.frame).unwrap_or(&[]);
            for end in self.ends.as_slice().get(level.ends..behind).unwrap_or(&[]) {
                let End { region, round } = *end;
                rounds.end_child(region, frame, Instant { worker, round });
            }
        }
    }
}
