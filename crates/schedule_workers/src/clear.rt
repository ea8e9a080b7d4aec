//! The step of an array store: cells of an object take the number 0.

ghost use Rattle.std.specs.Prelude.{◌≡◌, true, ℕ, Some, length};
ghost use Rattle.semantics.specs.Events.{Step};
ghost use Rattle.semantics.specs.Frames.{Does};
ghost use Rattle.program.specs.declared.instruction.Instruction.TheVariants as instruction;
ghost use Rattle.cactus.specs.Frames.{node_at};
ghost use Rattle.cactus.specs.declared.node.Node.{Node};
ghost use Rattle.frame_engine.specs.Activation.{ProgramFits};
ghost use Rattle.schedule_workers.specs.declared.activation.Activation.{Activation as Living};
ghost use Rattle.schedule_workers.specs.Events.{LeavesStalls};
ghost use Rattle.schedule_workers.specs.Follows.{KeepsUses};
ghost use Rattle.schedule_workers.specs.Scheduling.{hand_of, IsInHand};
ghost use Rattle.schedule_workers.specs.RunShown.{item_here};
ghost use Rattle.schedule_workers.specs.Going.{DoesStep, StandsSafely};

use crate::run::Run;
use frame::Wait;
use frame_engine::Places;
use program::{ObjectName, Program};

impl Run {
    /// Does the array store at the place of the frame in the slot.
    pub fn clear(
        &mut self,
        program: &Program,
        places: &Places,
        slot: usize,
        object: ObjectName,
        count: u64,
    )
        requires text { ProgramFits program.now places.now (length self.old.moves.items) }
        requires held { IsInHand self.old.hands.items slot }
        requires item { (node : Node Living) → node_at self.old.cactus slot ≡ Some node →
            item_here program.now node.frame.frame ≡ Some (Does (instruction.StoreZeros count object)) }
        requires safe { StandsSafely program.now places.now self.old }
        ensures steps { (worker : ℕ) → hand_of self.old.hands.items worker ≡ Some slot →
            DoesStep program.now places.now self.old self.new worker }
        ensures stalls { (worker : ℕ) → hand_of self.old.hands.items worker ≡ Some slot →
            LeavesStalls program.now places.now self.old self.new (Step worker) true }
        ensures uses { KeepsUses self.old.cactus self.new.cactus }
        ensures hands { self.new.hands ≡ self.old.hands }
        ensures moves { self.new.moves ≡ self.old.moves }
    {
        let Some(activation) = self.cactus.frame_mut(slot) else {
            unreachable!()
        };
        match activation
            .frame
            .clear(places, &mut self.cells, object, count)
        {
            Ok(()) => {}
            Err(never) => match never {},
        }
        activation.frame.waits = Wait::Nothing;
        self.instructions += 1;
    }
}
