//! Frame strands: what a worker did outside of the machine on a copy of its frame, done at once (commit).
ghost use Rattle.std.specs.Prelude.{◌≡◌, ◌↔◌, ℤ, IfOk, IsTrue, None, Ok, OnErr, Some, false, true};
ghost use Rattle.semantics.specs.Cells.{Cell};
ghost use Rattle.semantics.specs.Events.{Machine as RunningMachine};
ghost use Rattle.frame_engine.specs.Flat.{cell_in};
ghost use Rattle.frame_engine.specs.Shows.{address};
ghost use Rattle.schedule_commit.specs.Absorbing.{steps_in};
ghost use Rattle.schedule_commit.specs.frame_strand.declared.standing.FrameStrandPause.TheVariants.{Blank};
ghost use Rattle.schedule_workers.specs.Follows.{Follows};
ghost use Rattle.schedule_workers.specs.Layouts.{layout_of};
ghost use Rattle.schedule_core.specs.Replaying.{IsMachine, LeavesAsBefore};
ghost use Rattle.schedule_core.specs.Spots.{KeepsSpots};
ghost use Rattle.schedule_core.specs.Stages.{IsState, program_of};
ghost use Rattle.schedule_core.specs.FrameStrands.{Absorbs, FrameStrandFits, IsLoaded, IsMadeOf};

use crate::machine::Machine;
use crate::stage::Stage;
use lists::OutOfMemory;
use schedule_commit::{FrameStrand, FrameStrandPause, absorb, cell};

/// How many steps of its worker a strand is: its instructions, and the border's where it stands at one.
pub fn steps_of(strand: &FrameStrand<'_>) -> u64
    ensures { result ≡ steps_in strand.now.pause strand.now.course.done }
{
    match strand.pause() {
        Some(FrameStrandPause::Border) => strand.done() + 1,
        _ => strand.done(),
    }
}

/// A strand's steps, if the strand fits. The answer is whether it does; where it does not, nothing changes.
fn absorb_into(
    stage: &mut Stage<'_>,
    worker: u8,
    strand: &FrameStrand<'_>,
) -> Result<bool, OutOfMemory>
    requires machine { ∥ IsMachine stage.old ∥₁ }
    requires made { IsMadeOf (program_of stage.old) strand.now }
    ensures exactly { IfOk result (λ done. IsTrue done ↔ FrameStrandFits stage.old worker strand.now) }
    ensures does { result ≡ Ok true → Absorbs stage.old stage.new worker strand.now }
    ensures left { result ≡ Ok false → stage.new ≡ stage.old }
    ensures refused { OnErr result (LeavesAsBefore stage.old stage.new) }
    ensures machine { ∥ IsMachine stage.new ∥₁ }
    ensures follows { Follows stage.old.run.cactus stage.new.run.cactus }
    ensures memory { stage.new.memory ≡ stage.old.memory }
{
    let program = stage.verified.program();
    absorb(&mut stage.run, program, stage.places.get(), worker, strand)
}

impl Machine<'_> {
    /// Does what a frame strand did as steps of the worker, and the border's with them where the strand stands at one, if the worker runs the
    /// loaded frame at its path and each cell that was read holds what was read. The answer is whether that is so; if not, nothing changes.
    ///
    /// # Errors
    ///
    /// Memory was refused: nothing has changed that is seen of the machine.
    pub fn absorb(&mut self, worker: u8, strand: &FrameStrand<'_>) -> Result<bool, OutOfMemory>
        requires made { IsMadeOf (program_of self.old.stage) strand.now }
        ensures exactly { IfOk result (λ done. IsTrue done ↔ FrameStrandFits self.old.stage worker strand.now) }
        ensures does { result ≡ Ok true → Absorbs self.old.stage self.new.stage worker strand.now }
        ensures left { result ≡ Ok false → self.new.stage ≡ self.old.stage }
        ensures refused { OnErr result (LeavesAsBefore self.old.stage self.new.stage) }
        ensures spots { KeepsSpots self.old.stage.run.cactus self.new.stage.run.cactus }
        ensures names { self.new.stage.memory ≡ self.old.stage.memory }
    {
        absorb_into(&mut self.stage, worker, strand)
    }

    /// Loads the frame that the worker runs next into a blank frame strand; it takes no memory. The answer is whether there is such a frame; if
    /// not, the strand is as it was.
    pub fn load_frame_strand(&self, worker: u8, strand: &mut FrameStrand<'_>) -> bool
        requires made { IsMadeOf (program_of self.now.stage) strand.old }
        requires blank { strand.old.pause ≡ Some Blank }
        ensures made { IsMadeOf (program_of self.now.stage) strand.new }
        ensures loaded { IsTrue result → IsLoaded self.now.stage worker strand.new }
        ensures not_loaded { result ≡ false → strand.new ≡ strand.old }
        ensures idle { result ≡ false → (m : RunningMachine) → IsState self.now.stage m → m.hands worker ≡ None }
    {
        let Some(slot) = self.stage.run.hand(worker) else {
            return false;
        };
        let Some(node) = self.stage.run.cactus.node(slot) else {
            return false;
        };
        let path = node.path.numbers.as_slice();
        strand.load(&node.frame.frame, path);
        true
    }

    /// What the cell at an address holds; none where there is no such cell.
    pub fn cell_at(&self, at: i64) -> Option<i64>
        ensures value { result ≡ cell_in self.now.stage.run.cells.cells.items at }
        ensures shown { (m : RunningMachine) → IsState self.now.stage m → (c : Cell) (z : ℤ) → m.core.memory c ≡ Some z →
            at ≡ address (layout_of (program_of self.now.stage) self.now.stage.places self.now.stage.run.cactus m.core) c → result ≡ Some z }
    {
        cell(self.stage.run.cells.cells.as_slice(), at)
    }
}
