//! The event of a steal: an idle worker takes a ready task.

ghost use Rattle.std.specs.Prelude.{◌≡◌, IsSomeAnd, IsTrue, length, reverse};
ghost use Rattle.cactus.specs.Frames.{frame_at};
ghost use Rattle.program.specs.declared.function.Program.{Program};
ghost use Rattle.frame_engine.specs.declared.activation.Places.{Places};
ghost use Rattle.schedule_workers.specs.Tasks.{IsIdle, IsReady, Takes};
ghost use Rattle.schedule_workers.specs.Follows.{Follows};
ghost use Rattle.schedule_workers.specs.Going.{DoesSteal};
ghost use Rattle.schedule_workers.specs.Stalls.{KeepsStalls};

use crate::run::Run;
use frame::Path;

impl Run {
    /// The worker takes the task of the path, if the worker is idle and no worker runs the task and it may go on.
    pub fn steal(&mut self, worker: u8, path: &Path) -> bool
        ensures steals { (prog : Program) (places : Places) → DoesSteal prog places self.old self.new worker (reverse path.now.numbers) result }
        ensures left { ¬ IsTrue result → self.new ≡ self.old }
        ensures stalls { KeepsStalls self.old.cactus self.new.cactus }
        ensures follows { Follows self.old.cactus self.new.cactus }
        ensures workers { length self.new.hands.items ≡ length self.old.hands.items }
        ensures moves { self.new.moves ≡ self.old.moves }
    {
        match self.top_of(path) {
            Some(top) => self.take(worker, top),
            None => false,
        }
    }

    /// The worker, if it is idle, takes the task of which the slot's frame is the top, if the task is ready.
    fn take(&mut self, worker: u8, top: usize) -> bool
        ensures left { ¬ IsTrue result → self.new ≡ self.old }
        ensures takes { IsTrue result → Takes self.old self.new worker top }
        ensures enabled { IsIdle self.old.hands.items worker → IsSomeAnd (frame_at self.old.cactus top) IsReady → IsTrue result }
        ensures workers { length self.new.hands.items ≡ length self.old.hands.items }
        ensures moves { self.new.moves ≡ self.old.moves }
    {
        if worker as usize >= self.hands.len() || self.hand(worker).is_some() {
            return false;
        }
        match self.cactus.frame_mut(top) {
            Some(activation) if activation.is_ready() => activation.run_by(worker),
            _ => return false,
        }
        self.set_hand(worker, Some(top));
        true
    }
}
