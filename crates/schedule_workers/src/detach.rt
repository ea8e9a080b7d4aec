//! The step of a detach (spawn): the child's frame is made, the worker goes on with it, the parent is ready.

ghost use Rattle.std.specs.Prelude.{◌≡◌, ◌+◌, ◌<◌, ◌^◌, ℕ, cond, eqb, true, IfOk, None, OnErr, OnOk, Some, length, vec_len};
ghost use Rattle.semantics.specs.Paths.{Path};
ghost use Rattle.semantics.specs.Events.{Step};
ghost use Rattle.semantics.specs.Frames as frames;
ghost use Rattle.semantics.specs.Frames.{Ends};
ghost use Rattle.semantics.specs.State.{continued};
ghost use Rattle.program.specs.declared.instruction.Terminator.TheVariants as terminator;
ghost use Rattle.frame.specs.declared.frame.Wait.TheVariants.{Nothing};
ghost use Rattle.cactus.specs.Frames.{node_at};
ghost use Rattle.cactus.specs.declared.node.Node.{Node};
ghost use Rattle.frame_engine.specs.Activation.{ShowsFrame};
ghost use Rattle.frame_engine.specs.Shows.{Layout};
ghost use Rattle.schedule_workers.specs.declared.activation.Activation.{Activation as Living};
ghost use Rattle.schedule_workers.specs.Events.{Grows, LeavesStalls};
ghost use Rattle.schedule_workers.specs.Follows.{Follows};
ghost use Rattle.schedule_workers.specs.Scheduling.{counted_in, hand_of};
ghost use Rattle.schedule_workers.specs.RunShown.{item_here};
ghost use Rattle.schedule_workers.specs.Forking.{IsChildFrame};
ghost use Rattle.schedule_workers.specs.Going.{DoesStep, StandsSafely, TextFits};

use crate::activation::Activation;
use crate::run::Run;
use frame::{Role, Wait};
use frame_engine::{Frame, Place, Places};
use lists::OutOfMemory;
use program::{BlockId, Program, RegisterId};
use std::alloc::Global;

/// A detach: the region of the child, and where child and parent go on.
#[derive(Clone, Copy)]
pub struct Detach {
    pub region: RegisterId,
    pub body: BlockId,
    pub continuation: BlockId,
}

/// The frame of a detach's child: its parent's copy at the child's block.
fn child_frame(alloc: Global, parent: &Frame, detach: Detach) -> Result<Frame, OutOfMemory>
    requires { parent.now.depth + 1 < 2 ^ 64 }
    ensures { IfOk result (IsChildFrame parent.now detach.region detach.body detach.continuation) }
{
    let registers = Vec::from_slice(alloc, parent.registers.as_slice())?;
    Ok(Frame {
        function: parent.function,
        place: Place {
            block: detach.body,
            index: 0,
        },
        registers,
        home: parent.home,
        made: 0,
        waits: Wait::Nothing,
        role: Role::Child {
            region: detach.region,
            continuation: detach.continuation,
        },
        depth: parent.depth + 1,
    })
}

impl Activation {
    /// The frame detached a child within the region: it stands at the continuation, and no worker runs it.
    fn leave_behind(&mut self, region: RegisterId, continuation: BlockId)
        requires counted { region.0 < length self.old.counts.items }
        requires room { counted_in self.old region.0 + 1 < 2 ^ 64 }
        requires made { self.old.frame.made + 1 < 2 ^ 64 }
        ensures only { self.new ≡ record self.old { frame = self.new.frame; counts = self.new.counts; runner = None } }
        ensures frame { self.new.frame ≡ record self.old.frame {
          place = record { block = continuation; index = 0 };
          made = self.old.frame.made + 1;
          waits = Nothing;
        } }
        ensures shown { (l : Layout) (places : Places) (p : Path) (g : frames.Frame) → ShowsFrame l places p g self.old.frame
            → ShowsFrame l places p (continued g continuation.0) self.new.frame }
        ensures as_many { length self.new.counts.items ≡ length self.old.counts.items }
        ensures counted { (other : ℕ) → counted_in self.new other ≡ cond (eqb region.0 other) (counted_in self.old region.0 + 1) (counted_in self.old other) }
    {
        self.counts.open(region.0);
        self.frame.continue_at(continuation);
        self.runner = None;
    }
}

impl Run {
    /// The worker's frame, which is in the slot, detaches a child, and the worker goes on with the child. Where memory is refused nothing
    /// changes.
    pub fn detach(
        &mut self,
        program: &Program,
        places: &Places,
        worker: u8,
        slot: usize,
        detach: Detach,
    ) -> Result<(), OutOfMemory>
        requires text { TextFits program.now places.now (length self.old.moves.items) }
        requires hand { hand_of self.old.hands.items worker ≡ Some slot }
        requires worker { worker < vec_len self.old.hands }
        requires item { (node : Node Living) → node_at self.old.cactus slot ≡ Some node →
            item_here program.now node.frame.frame ≡ Some (Ends (terminator.Detach detach.region detach.body detach.continuation)) }
        requires safe { StandsSafely program.now places.now self.old }
        ensures steps { OnOk result (DoesStep program.now places.now self.old self.new worker) }
        ensures stalls { OnOk result (LeavesStalls program.now places.now self.old self.new (Step worker) true) }
        ensures follows { Follows self.old.cactus self.new.cactus }
        ensures left { OnErr result (self.new ≡ self.old) }
        ensures grows { OnErr result (Grows program.now places.now self.old worker) }
        ensures workers { length self.new.hands.items ≡ length self.old.hands.items }
        ensures moves { self.new.moves ≡ self.old.moves }
    {
        let Some(node) = self.cactus.node(slot) else {
            unreachable!()
        };
        let parent = &node.frame.frame;
        let number = parent.made;
        let frame = child_frame(self.alloc, parent, detach)?;
        let depth = frame.depth;
        let begun = Activation::new(self.alloc, frame, worker)?;
        let begun_slot = self.cactus.add_child(slot, number, begun)?;
        let Some(parent) = self.cactus.frame_mut(slot) else {
            unreachable!()
        };
        parent.leave_behind(detach.region, detach.continuation);
        self.instructions += 1;
        self.peak = self.peak.max(depth as u64 + 1);
        self.set_hand(worker, Some(begun_slot));
        Ok(())
    }
}
