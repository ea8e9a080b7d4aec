//! States that are kept on the way, so that going back need not begin at the start (checkpoints).

ghost use Rattle.std.specs.Prelude.{◌≡◌, ◌≤◌, [], ℕ};
ghost use Rattle.debugger.specs.Sessions.{AreMarks, IsAt, Session};

use lists::OutOfMemory;
use schedule_core::Machine;
use std::alloc::Global;

/// The most marks that are kept.
const MOST: usize = 64;

/// The state at a position.
#[derive(Drop)]
pub(crate) struct Mark<'v> {
    pub(crate) position: usize,
    pub(crate) machine: Machine<'v>,
}

/// The first state, and some later ones, evenly apart.
#[derive(Drop)]
pub(crate) struct Marks<'v> {
    pub(crate) first: Machine<'v>,
    pub(crate) rest: Vec<Mark<'v>>,
    /// How many events lie between two marks.
    distance: usize,
    /// Where the next mark is due.
    due: usize,
}

impl<'v> Marks<'v> {
    /// The first state alone, of a list of so many events.
    pub(crate) fn new(alloc: Global, first: Machine<'v>, events: usize) -> Marks<'v>
        ensures first { result.first ≡ first.entry }
        ensures none { result.rest.items ≡ [] }
    {
        let distance = events / MOST + 1;
        Marks {
            first,
            rest: Vec::new(alloc),
            distance,
            due: distance,
        }
    }

    /// The last state at or before the position, with its own position.
    pub(crate) fn before(&self, position: usize) -> (usize, &Machine<'v>)
        ensures before { result.0 ≤ position }
        ensures state { (s : Session) → AreMarks s self.now → IsAt s result.0 result.1.now.stage }
    {
        let mut last = 0;
        let mut machine = &self.first;
        for mark in &self.rest {
            if mark.position <= position {
                last = mark.position;
                machine = &mark.machine;
            }
        }
        (last, machine)
    }

    /// Keeps the state of the position.
    fn add(&mut self, position: usize, machine: Machine<'v>) -> Result<(), OutOfMemory>
        ensures { (s : Session) → AreMarks s self.old → IsAt s position machine.entry.stage → AreMarks s self.new }
    {
        self.rest.push(Mark { position, machine })?;
        self.due = position.saturating_add(self.distance);
        Ok(())
    }

    /// Keeps a copy of the machine, where a mark is due at its position and memory allows: a mark only saves time.
    pub(crate) fn keep(&mut self, position: usize, machine: &Machine<'v>)
        ensures { (s : Session) → AreMarks s self.old → IsAt s position machine.now.stage → AreMarks s self.new }
    {
        if position < self.due {
            return;
        }
        if let Ok(copy) = machine.copy() {
            let _kept = self.add(position, copy);
        }
    }
}
