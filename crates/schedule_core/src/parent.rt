//! The ready task that a worker leaves at a detach, and how deep the frame is that it runs.

ghost use Rattle.std.specs.Prelude.{◌≡◌, length, IfNone, IfSome};
ghost use Rattle.std.specs.Option.{option_map};
ghost use Rattle.semantics.specs.Events as running;
ghost use Rattle.semantics.specs.Paths.{Path};
ghost use Rattle.schedule_core.specs.Parents.{HasNoParentSlot, HasNoReadyParent, IsParentSlot, IsReadyParent};
ghost use Rattle.schedule_core.specs.Stages.{IsState, workers_of};

use crate::machine::Machine;
use frame::Role;

impl Machine<'_> {
    /// The number of frames below the one that the worker runs next; none where the worker is idle.
    pub fn depth_of(&self, worker: u8) -> Option<usize>
        ensures { (m : running.Machine) → IsState self.now.stage m → result ≡ option_map (λ (p : Path). length p) (m.hands worker) }
    {
        let top = self.stage.run.hand(worker)?;
        let node = self.stage.run.cactus.node(top)?;
        Some(node.path.numbers.len())
    }

    /// The slot of the frame that detached the child which the worker runs.
    fn parent_slot(&self, worker: u8) -> Option<usize>
        ensures child { IfSome result (IsParentSlot self.now.stage.run worker) }
        ensures none { IfNone result (HasNoParentSlot self.now.stage.run worker) }
    {
        let top = self.stage.run.hand(worker)?;
        let child = self.stage.run.cactus.node(top)?;
        match child.frame.frame.role {
            Role::Child { .. } => child.parent,
            Role::Body => None,
        }
    }

    /// The slot and the generation of the lowest frame of the ready task whose top detached the child that the worker runs: what names
    /// that task after a detach.
    pub fn ready_parent(&self, worker: u8) -> Option<(usize, u64)>
        ensures shown { (m : running.Machine) → IsState self.now.stage m → IfSome result (λ spot. IsReadyParent self.now.stage.run m worker spot.0 spot.1) }
        ensures none { (m : running.Machine) → IsState self.now.stage m → IfNone result (HasNoReadyParent (workers_of self.now.stage) m worker) }
    {
        let parent = self.parent_slot(worker)?;
        let ticket = self.ready_ticket(parent)?;
        Some((ticket.slot, ticket.generation))
    }
}
