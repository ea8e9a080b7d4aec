//! Whether a worker's next instruction stands on a line (for breakpoints).

ghost use Rattle.std.specs.Prelude.{◌≡◌, ◌↔◌, IsTrue, Some};
ghost use Rattle.semantics.specs.Events as running;
ghost use Rattle.schedule_workers.specs.Scheduling.{hand_of};
ghost use Rattle.schedule_core.specs.Lines.{StandsAt, line_of_worker};
ghost use Rattle.schedule_core.specs.Stages.{IsState, program_of};

use crate::machine::Machine;
use crate::task::next_line;

impl Machine<'_> {
    /// The slot of the top frame of the worker's task.
    fn hand(&self, worker: usize) -> Option<usize>
        ensures { result ≡ hand_of self.now.stage.run.hands.items worker }
    {
        self.stage
            .run
            .hands
            .as_slice()
            .get(worker)
            .copied()
            .flatten()
    }

    /// The line of the next instruction of the worker's task.
    fn worker_line(&self, worker: usize) -> Option<u32>
        ensures { (m : running.Machine) → IsState self.now.stage m → result ≡ line_of_worker (program_of self.now.stage) m worker }
    {
        let slot = self.hand(worker)?;
        let node = self.stage.run.cactus.node(slot)?;
        next_line(self.stage.verified.program(), &node.frame.frame)
    }

    /// Whether the worker's next instruction stands on the line.
    fn worker_stands_at(&self, worker: usize, line: u64) -> bool
        ensures { (m : running.Machine) → IsState self.now.stage m → IsTrue result ↔ (line_of_worker (program_of self.now.stage) m worker ≡ Some line) }
    {
        match self.worker_line(worker) {
            Some(found) => found as u64 == line,
            None => false,
        }
    }

    /// Whether some worker's next instruction stands on the line.
    pub fn stands_at(&self, line: u64) -> bool
        ensures { (m : running.Machine) → IsState self.now.stage m → IsTrue result ↔ StandsAt (program_of self.now.stage) m line }
    {
        for worker in 0..self.stage.run.hands.len() {
            if self.worker_stands_at(worker, line) {
                return true;
            }
        }
        false
    }
}
