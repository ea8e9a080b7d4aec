//! The step of an instruction or ending that is no border.

ghost use Rattle.std.specs.Prelude.{◌≡◌, true, ℕ, Some, length};
ghost use Rattle.semantics.specs.Events.{Step};
ghost use Rattle.std.specs.Bool.{OnFalse, OnTrue};
ghost use Rattle.cactus.specs.Frames.{node_at};
ghost use Rattle.cactus.specs.declared.node.Node.{Node};
ghost use Rattle.frame_engine.specs.Activation.{ProgramFits};
ghost use Rattle.frame_engine.specs.Border.{IsBorderItem};
ghost use Rattle.schedule_workers.specs.declared.activation.Activation.{Activation as Living};
ghost use Rattle.schedule_workers.specs.Events.{LeavesStalls};
ghost use Rattle.schedule_workers.specs.Follows.{KeepsUses};
ghost use Rattle.schedule_workers.specs.Scheduling.{hand_of, IsInHand};
ghost use Rattle.schedule_workers.specs.RunShown.{item_here};
ghost use Rattle.schedule_workers.specs.Going.{DoesStep, KeepsShown, StandsSafely};
ghost use Rattle.schedule_workers.specs.Stalls.{KeepsStalls};

use crate::run::Run;
use frame::Wait;
use frame_engine::Places;
use program::Program;

impl Run {
    /// Does the next instruction of the frame in the slot, where that is a plain one; says whether it was.
    pub fn plain(&mut self, program: &Program, places: &Places, slot: usize) -> bool
        requires text { ProgramFits program.now places.now (length self.old.moves.items) }
        requires held { IsInHand self.old.hands.items slot }
        requires safe { StandsSafely program.now places.now self.old }
        ensures stepped { OnTrue result ((worker : ℕ) → hand_of self.old.hands.items worker ≡ Some slot →
            DoesStep program.now places.now self.old self.new worker) }
        ensures left { OnFalse result (KeepsShown program.now places.now self.old self.new) }
        ensures border { OnFalse result ((node : Node Living) → node_at self.new.cactus slot ≡ Some node →
            IsBorderItem (item_here program.now node.frame.frame)) }
        ensures stalls { OnTrue result ((worker : ℕ) → hand_of self.old.hands.items worker ≡ Some slot →
            LeavesStalls program.now places.now self.old self.new (Step worker) true) }
        ensures stalled { OnFalse result (KeepsStalls self.old.cactus self.new.cactus) }
        ensures uses { KeepsUses self.old.cactus self.new.cactus }
        ensures hands { self.new.hands ≡ self.old.hands }
        ensures moves { length self.new.moves.items ≡ length self.old.moves.items }
    {
        let before = self.instructions;
        let Some(activation) = self.cactus.frame_mut(slot) else {
            unreachable!()
        };
        let _pause = activation.frame.turn(
            program,
            places,
            &mut self.cells,
            self.moves.as_mut_slice(),
            &mut self.instructions,
            before + 1,
        );
        if self.instructions == before {
            return false;
        }
        activation.frame.waits = Wait::Nothing;
        true
    }
}
