//! The step of a sync: the worker goes on, or its task stalls until the children of the region have ended.

ghost use Rattle.std.specs.Prelude.{◌≡◌, ◌<◌, true, ℕ, Some, length, vec_len};
ghost use Rattle.semantics.specs.Events.{Step};
ghost use Rattle.semantics.specs.Frames.{Ends};
ghost use Rattle.program.specs.declared.instruction.Terminator.TheVariants as terminator;
ghost use Rattle.cactus.specs.Frames.{node_at};
ghost use Rattle.cactus.specs.declared.node.Node.{Node};
ghost use Rattle.schedule_workers.specs.declared.activation.Activation.{Activation as Living};
ghost use Rattle.schedule_workers.specs.Events.{LeavesStalls};
ghost use Rattle.schedule_workers.specs.Follows.{KeepsUses};
ghost use Rattle.schedule_workers.specs.Scheduling.{hand_of};
ghost use Rattle.schedule_workers.specs.RunShown.{item_here};
ghost use Rattle.schedule_workers.specs.Going.{DoesStep, StandsSafely, TextFits};

use crate::run::Run;
use frame_engine::Places;
use program::{BlockId, Program, RegisterId};
use sync_join::Passage;

impl Run {
    /// The worker's frame, which is in the slot, goes on at the target of its sync, once none of its children within the region lives.
    pub fn sync(
        &mut self,
        program: &Program,
        places: &Places,
        worker: u8,
        slot: usize,
        region: RegisterId,
        target: BlockId,
    )
        requires text { TextFits program.now places.now (length self.old.moves.items) }
        requires hand { hand_of self.old.hands.items worker ≡ Some slot }
        requires worker { worker < vec_len self.old.hands }
        requires item { (node : Node Living) → node_at self.old.cactus slot ≡ Some node →
            item_here program.now node.frame.frame ≡ Some (Ends (terminator.Sync region target)) }
        requires safe { StandsSafely program.now places.now self.old }
        ensures steps { DoesStep program.now places.now self.old self.new worker }
        ensures stalls { LeavesStalls program.now places.now self.old self.new (Step worker) true }
        ensures uses { KeepsUses self.old.cactus self.new.cactus }
        ensures workers { length self.new.hands.items ≡ length self.old.hands.items }
        ensures moves { length self.new.moves.items ≡ length self.old.moves.items }
    {
        let Some(top) = self.cactus.frame_mut(slot) else {
            unreachable!()
        };
        let passage = top.counts.at_sync(region.0);
        let block = top.frame.place.block;
        top.frame
            .sync(program, self.moves.as_mut_slice(), region, target);
        self.instructions += 1;
        match passage {
            Passage::Pass => {}
            Passage::Stall => {
                top.stalled_in = Some(block);
                top.runner = None;
                self.set_hand(worker, None);
            }
        }
    }
}
