//! The event of a step: a worker does its next instruction, plain or at a border.

ghost use Rattle.std.specs.Prelude.{◌≡◌, ◌<◌, ℕ, true, false, Ok, Some, IfOk, OnErr, OnOk, length, vec_len};
ghost use Rattle.semantics.specs.Events.{Step};
ghost use Rattle.semantics.specs.Frames.{Does, Ends};
ghost use Rattle.cactus.specs.Frames.{node_at};
ghost use Rattle.cactus.specs.declared.node.Node.{Node};
ghost use Rattle.frame_engine.specs.Border.{IsBorder, IsBorderEnding, IsBorderItem};
ghost use Rattle.schedule_workers.specs.declared.activation.Activation.{Activation as Living};
ghost use Rattle.schedule_workers.specs.Events.{DoesEvent, Grows, LeavesStalls};
ghost use Rattle.schedule_workers.specs.Follows.{Follows};
ghost use Rattle.schedule_workers.specs.Going.{DoesStep, StandsSafely, TextFits};
ghost use Rattle.schedule_workers.specs.Left.{LeavesAsShown};
ghost use Rattle.schedule_workers.specs.Rooms.{IsRoomier};
ghost use Rattle.schedule_workers.specs.Scheduling.{hand_of};
ghost use Rattle.schedule_workers.specs.RunShown.{item_here};

use crate::call::Call;
use crate::detach::Detach;
use crate::run::Run;
use frame_engine::{Item, Places};
use lists::OutOfMemory;
use program::{Instruction, Program, Terminator};

impl Run {
    /// The worker's frame, which is in the slot, does the instruction at its place, which is no plain one.
    fn step_over(
        &mut self,
        program: &Program,
        places: &Places,
        worker: u8,
        slot: usize,
        instruction: &Instruction,
    ) -> Result<(), OutOfMemory>
        requires text { TextFits program.now places.now (length self.old.moves.items) }
        requires hand { hand_of self.old.hands.items worker ≡ Some slot }
        requires worker { worker < vec_len self.old.hands }
        requires item { (node : Node Living) → node_at self.old.cactus slot ≡ Some node →
            item_here program.now node.frame.frame ≡ Some (Does instruction.now) }
        requires border { IsBorder instruction.now }
        requires safe { StandsSafely program.now places.now self.old }
        ensures steps { OnOk result (DoesStep program.now places.now self.old self.new worker) }
        ensures stalls { OnOk result (LeavesStalls program.now places.now self.old self.new (Step worker) true) }
        ensures follows { Follows self.old.cactus self.new.cactus }
        ensures refused { OnErr result (IsRoomier self.old self.new) }
        ensures grows { OnErr result (Grows program.now places.now self.old worker) }
        ensures workers { length self.new.hands.items ≡ length self.old.hands.items }
        ensures moves { length self.new.moves.items ≡ length self.old.moves.items }
    {
        match instruction {
            Instruction::StoreZeros { cells, object } => {
                self.clear(program, places, slot, *object, *cells);
                Ok(())
            }
            Instruction::Call {
                register,
                callee,
                arguments,
            } => {
                let call = Call {
                    register: *register,
                    callee: *callee,
                    arguments: arguments.as_slice(),
                };
                self.call(program, places, worker, slot, call)
            }
            _ => unreachable!(),
        }
    }

    /// The worker's frame, which is in the slot, does the ending at its place, which is no plain one.
    fn end_block(
        &mut self,
        program: &Program,
        places: &Places,
        worker: u8,
        slot: usize,
        terminator: &Terminator,
    ) -> Result<(), OutOfMemory>
        requires text { TextFits program.now places.now (length self.old.moves.items) }
        requires hand { hand_of self.old.hands.items worker ≡ Some slot }
        requires worker { worker < vec_len self.old.hands }
        requires item { (node : Node Living) → node_at self.old.cactus slot ≡ Some node →
            item_here program.now node.frame.frame ≡ Some (Ends terminator.now) }
        requires border { IsBorderEnding terminator.now }
        requires safe { StandsSafely program.now places.now self.old }
        ensures steps { OnOk result (DoesStep program.now places.now self.old self.new worker) }
        ensures stalls { OnOk result (LeavesStalls program.now places.now self.old self.new (Step worker) true) }
        ensures follows { Follows self.old.cactus self.new.cactus }
        ensures refused { OnErr result (IsRoomier self.old self.new) }
        ensures grows { OnErr result (Grows program.now places.now self.old worker) }
        ensures workers { length self.new.hands.items ≡ length self.old.hands.items }
        ensures moves { length self.new.moves.items ≡ length self.old.moves.items }
    {
        match terminator {
            Terminator::Detach {
                region,
                body,
                continuation,
            } => {
                let detach = Detach {
                    region: *region,
                    body: *body,
                    continuation: *continuation,
                };
                return self.detach(program, places, worker, slot, detach);
            }
            Terminator::Reattach { region, .. } => {
                self.reattach(program, places, worker, slot, *region)
            }
            Terminator::Sync { region, target } => {
                self.sync(program, places, worker, slot, *region, *target)
            }
            Terminator::Return { value } => self.return_with(program, places, worker, slot, *value),
            _ => unreachable!(),
        }
        Ok(())
    }

    /// The worker's frame, which is in the slot, does what stands at its place, which is no plain step.
    ///
    /// # Errors
    ///
    /// Memory was refused: the run is as it was, with more room at most.
    pub fn border(
        &mut self,
        program: &Program,
        places: &Places,
        worker: u8,
        slot: usize,
    ) -> Result<(), OutOfMemory>
        requires text { TextFits program.now places.now (length self.old.moves.items) }
        requires hand { hand_of self.old.hands.items worker ≡ Some slot }
        requires worker { worker < vec_len self.old.hands }
        requires border { (node : Node Living) → node_at self.old.cactus slot ≡ Some node →
            IsBorderItem (item_here program.now node.frame.frame) }
        requires safe { StandsSafely program.now places.now self.old }
        ensures steps { OnOk result (DoesStep program.now places.now self.old self.new worker) }
        ensures stalls { OnOk result (LeavesStalls program.now places.now self.old self.new (Step worker) true) }
        ensures follows { Follows self.old.cactus self.new.cactus }
        ensures refused { OnErr result (IsRoomier self.old self.new) }
        ensures grows { OnErr result (Grows program.now places.now self.old worker) }
        ensures workers { length self.new.hands.items ≡ length self.old.hands.items }
        ensures moves { length self.new.moves.items ≡ length self.old.moves.items }
    {
        let Some(node) = self.cactus.node(slot) else {
            unreachable!()
        };
        match node.frame.frame.item(program) {
            Item::Does(instruction) => self.step_over(program, places, worker, slot, instruction),
            Item::Ends(terminator) => self.end_block(program, places, worker, slot, terminator),
        }
    }

    /// The worker executes the next instruction of its task. The answer is whether it has one.
    ///
    /// # Errors
    ///
    /// Memory was refused: nothing has changed that is seen of the run. Only a step that makes a frame takes memory.
    pub fn step(
        &mut self,
        program: &Program,
        places: &Places,
        worker: u8,
    ) -> Result<bool, OutOfMemory>
        requires text { TextFits program.now places.now (length self.old.moves.items) }
        requires safe { StandsSafely program.now places.now self.old }
        ensures event { IfOk result (DoesEvent program.now places.now self.old self.new (Step worker)) }
        ensures stalls { IfOk result (LeavesStalls program.now places.now self.old self.new (Step worker)) }
        ensures left { result ≡ Ok false → self.new ≡ self.old }
        ensures refused { OnErr result (LeavesAsShown program.now places.now self.old self.new) }
        ensures grows { OnErr result (Grows program.now places.now self.old worker) }
        ensures follows { Follows self.old.cactus self.new.cactus }
        ensures workers { length self.new.hands.items ≡ length self.old.hands.items }
        ensures moves { length self.new.moves.items ≡ length self.old.moves.items }
    {
        let Some(slot) = self.hand(worker) else {
            return Ok(false);
        };
        if !self.plain(program, places, slot) {
            self.border(program, places, worker, slot)?;
        }
        Ok(true)
    }
}
