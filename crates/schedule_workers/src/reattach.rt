//! The step of a reattach: the child ends, and its worker goes on with the parent or is idle (join).

ghost use Rattle.std.specs.Prelude.{◌≡◌, ◌-◌, ◌<◌, true, ℕ, cond, eqb, Some, length, vec_len};
ghost use Rattle.semantics.specs.Events.{Step};
ghost use Rattle.semantics.specs.Frames.{Ends};
ghost use Rattle.program.specs.declared.identifier.BlockId.{BlockId as Continuation};
ghost use Rattle.program.specs.declared.instruction.Terminator.TheVariants as terminator;
ghost use Rattle.cactus.specs.Frames.{node_at};
ghost use Rattle.cactus.specs.declared.node.Node.{Node};
ghost use Rattle.schedule_workers.specs.declared.activation.Activation.{Activation as Living};
ghost use Rattle.schedule_workers.specs.Events.{LeavesStalls};
ghost use Rattle.schedule_workers.specs.Follows.{Follows};
ghost use Rattle.schedule_workers.specs.Scheduling.{counted_in, hand_of};
ghost use Rattle.schedule_workers.specs.RunShown.{item_here};
ghost use Rattle.schedule_workers.specs.Forking.{parent_of, resumed_by_child};
ghost use Rattle.schedule_workers.specs.Going.{DoesStep, StandsSafely};

use crate::activation::Activation;
use crate::run::Run;
use frame::Wait;
use frame_engine::Places;
use program::{Program, RegisterId};
use sync_join::{Outcome, Parent};

impl Activation {
    /// How a child of the frame finds it at its reattach.
    fn as_parent(&self) -> Parent
        ensures { result ≡ parent_of self.now.runner self.now.frame.waits self.now.frame.made }
    {
        match (self.runner, self.frame.waits) {
            (None, Wait::Nothing) => Parent::Ready {
                newest: self.frame.made.saturating_sub(1),
            },
            (None, Wait::Region(RegisterId(region))) => Parent::Stalled { region },
            _ => Parent::Busy,
        }
    }

    /// The child of this number, which the frame detached within the region, ends. Says whether the child's worker goes on with the frame.
    fn lose_child(&mut self, region: RegisterId, child: u64) -> bool
        requires counted { region.0 < length self.old.counts.items }
        requires living { 0 < counted_in self.old region.0 }
        requires made { 0 < self.old.frame.made }
        ensures only { self.new ≡ record self.old { counts = self.new.counts } }
        ensures as_many { length self.new.counts.items ≡ length self.old.counts.items }
        ensures counted { (other : ℕ) → counted_in self.new other ≡ cond (eqb region.0 other) (counted_in self.old region.0 - 1) (counted_in self.old other) }
        ensures resumed { result
            ≡ resumed_by_child self.old.runner self.old.frame.waits self.old.frame.made (counted_in self.new region.0) child region.0 }
    {
        let parent = self.as_parent();
        match self.counts.close(region.0, child, parent) {
            Outcome::ResumeReady | Outcome::ResumeStalled => true,
            Outcome::Leave => false,
        }
    }
}

impl Run {
    /// The worker's frame, which is in the slot, is a child that ends. The worker goes on with the parent where no thief took that since, or
    /// where it waited for this child alone; else it is idle.
    pub fn reattach(
        &mut self,
        program: &Program,
        places: &Places,
        worker: u8,
        slot: usize,
        region: RegisterId,
    )
        requires hand { hand_of self.old.hands.items worker ≡ Some slot }
        requires worker { worker < vec_len self.old.hands }
        requires item { (node : Node Living) → node_at self.old.cactus slot ≡ Some node → (continuation : Continuation) ×
            (item_here program.now node.frame.frame ≡ Some (Ends (terminator.Reattach region continuation))) }
        requires safe { StandsSafely program.now places.now self.old }
        ensures steps { DoesStep program.now places.now self.old self.new worker }
        ensures stalls { LeavesStalls program.now places.now self.old self.new (Step worker) true }
        ensures follows { Follows self.old.cactus self.new.cactus }
        ensures workers { length self.new.hands.items ≡ length self.old.hands.items }
        ensures moves { self.new.moves ≡ self.old.moves }
    {
        let Some(node) = self.cactus.node(slot) else {
            unreachable!()
        };
        let last = node.path.numbers.as_slice().last().copied();
        let above = node.parent;
        self.cactus.discard(slot);
        self.instructions += 1;
        let Some(parent) = above else {
            self.set_hand(worker, None);
            return;
        };
        let Some(number) = last else { unreachable!() };
        let Some(activation) = self.cactus.frame_mut(parent) else {
            unreachable!()
        };
        if activation.lose_child(region, number) {
            activation.run_by(worker);
            self.set_hand(worker, Some(parent));
        } else {
            self.set_hand(worker, None);
        }
    }
}
