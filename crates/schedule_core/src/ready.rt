//! The ready tasks whose tops stand below the frame that a worker runs, as a strand leaves them.
ghost use Rattle.std.specs.Prelude.{◌≡◌, ◌+◌, ◌<◌, ◌≤◌, [], IfSome, IfNone, reverse, vec_capacity, vec_len};
ghost use Rattle.semantics.specs.Events as running;
ghost use Rattle.cactus.specs.ByPath.{IsTree};
ghost use Rattle.schedule_core.specs.ReadyBelow.{AreReadyBelow, IsNotReady, IsSpotOf, Notes, maker_of};
ghost use Rattle.schedule_core.specs.Stages.{IsState};

use crate::machine::Machine;

/// Names a task: the use of a slot in which its lowest frame stands.
#[derive(Clone, Copy)]
pub struct Ticket {
    pub slot: usize,
    pub generation: u64,
}

impl Machine<'_> {
    /// The ready task of which the slot's frame is the top.
    pub(crate) fn ready_ticket(&self, slot: usize) -> Option<Ticket>
        ensures has { IfSome result (IsSpotOf self.now.stage.run.cactus slot) }
        ensures none { IsTree self.now.stage.run.cactus → IfNone result (IsNotReady self.now.stage.run.cactus slot) }
    {
        let top = self.stage.run.cactus.node(slot)?;
        if !top.frame.is_ready() {
            return None;
        }
        let lowest = self.stage.run.lowest_below(slot)?;
        let node = self.stage.run.cactus.node(lowest)?;
        Some(Ticket {
            slot: lowest,
            generation: node.generation,
        })
    }

    /// The slot of the frame that made the slot's.
    fn maker(&self, slot: Option<usize>) -> Option<usize>
        ensures { result ≡ maker_of self.now.stage.run.cactus slot }
    {
        self.stage.run.cactus.node(slot?)?.parent
    }

    /// Adds the task of which the slot's frame is the top, if it is ready.
    fn note(&self, slot: Option<usize>, tickets: &mut Vec<Ticket>)
        requires room { vec_len tickets.old < vec_capacity tickets.old }
        ensures notes { IsTree self.now.stage.run.cactus → Notes self.now.stage.run.cactus slot tickets.old.items tickets.new.items }
        ensures one { vec_len tickets.new ≤ vec_len tickets.old + 1 }
        ensures as_large { vec_capacity tickets.new ≡ vec_capacity tickets.old }
    {
        let Some(top) = slot else {
            return;
        };
        let Some(ticket) = self.ready_ticket(top) else {
            return;
        };
        tickets.push_reserved(ticket);
    }

    /// The ready tasks whose tops are among so many frames below the one that the worker runs next, the outermost first; it takes no memory.
    /// After a strand's steps these are the tasks that its detaches left, where it had so many frames below its top.
    pub fn ready_below(&self, worker: u8, levels: usize, tickets: &mut Vec<Ticket>)
        requires empty { tickets.old.items ≡ [] }
        requires room { levels ≤ vec_capacity tickets.old }
        ensures { (m : running.Machine) → IsState self.now.stage m → AreReadyBelow self.now.stage m worker levels (reverse tickets.new.items) }
    {
        let mut slot = self.stage.run.hand(worker);
        for _level in 0..levels {
            slot = self.maker(slot);
            self.note(slot, tickets);
        }
        tickets.reverse();
    }
}
