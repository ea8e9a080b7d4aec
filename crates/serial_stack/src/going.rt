//! The serial run goes on by plain steps, and does what stands at a border.

ghost use Rattle.std.specs.Prelude.{◌≡◌, ◌≤◌, IfOk, OnOk, Some, length};
ghost use Rattle.semantics.specs.Frames.{Does, Ends};
ghost use Rattle.frame_engine.specs.Activation.{FrameFits};
ghost use Rattle.frame_engine.specs.Border.{IsBorder, IsBorderEnding, IsBorderItem};
ghost use Rattle.frame_engine.specs.Pause.{IfBorder, IfLimit};
ghost use Rattle.serial_stack.specs.StackShown.{Advances, GoesOn, HasNumbers, Returns, StandsSafely, StaysSafely, TextFits, item_here};

use crate::stack::Stack;
use frame_engine::{Item, Pause, Places};
use lists::OutOfMemory;
use program::{Instruction, Program, Terminator};
use std::convert::Infallible;

impl Stack {
    /// Goes on to the next place that is no plain step, or to the limit of instructions done.
    #[inline(always)]
    pub fn advance(
        &mut self,
        program: &Program,
        places: &Places,
        done: &mut u64,
        limit: u64,
    ) -> Pause<Infallible>
        requires stands { FrameFits program.now self.old.top.value }
        requires text { TextFits program.now places.now (length self.old.moves.items) }
        requires room { done.old ≤ limit }
        requires safe { StaysSafely program.now places.now self.old }
        ensures stands { FrameFits program.now self.new.top.value }
        ensures moves { length self.new.moves.items ≡ length self.old.moves.items }
        ensures room { done.new ≤ limit }
        ensures border { IfBorder result (IsBorderItem (item_here program.now self.new.top.value)) }
        ensures limit { IfLimit result (done.new ≡ limit) }
        ensures led { Advances program.now places.now self.old self.new done.old done.new }
    {
        self.top.advance(
            program,
            places,
            &mut self.cells,
            self.moves.as_mut_slice(),
            done,
            limit,
        )
    }

    /// Does the instruction at its place, which is no plain one.
    #[inline(always)]
    fn step_over(
        &mut self,
        program: &Program,
        places: &Places,
        instruction: &Instruction,
    ) -> Result<(), OutOfMemory>
        requires stands { FrameFits program.now self.old.top.value }
        requires text { TextFits program.now places.now (length self.old.moves.items) }
        requires item { item_here program.now self.old.top.value ≡ Some (Does instruction.now) }
        requires border { IsBorder instruction.now }
        requires numbers { HasNumbers self.old.top.value }
        requires safe { StandsSafely program.now places.now self.old }
        ensures goes { OnOk result (GoesOn program.now places.now self.old self.new) }
        ensures moves { OnOk result (length self.new.moves.items ≡ length self.old.moves.items) }
    {
        match instruction {
            Instruction::StoreZeros { cells, object } => {
                self.clear(program, places, *object, *cells);
                Ok(())
            }
            Instruction::Call {
                register,
                callee,
                arguments,
            } => self.call(program, places, *register, *callee, arguments.as_slice()),
            _ => unreachable!(),
        }
    }

    /// Does the ending at its place, which is no plain one; the run's result where it has ended.
    #[inline(always)]
    fn end_block(
        &mut self,
        program: &Program,
        places: &Places,
        terminator: &Terminator,
    ) -> Result<Option<i64>, OutOfMemory>
        requires stands { FrameFits program.now self.old.top.value }
        requires text { TextFits program.now places.now (length self.old.moves.items) }
        requires item { item_here program.now self.old.top.value ≡ Some (Ends terminator.now) }
        requires border { IsBorderEnding terminator.now }
        requires numbers { HasNumbers self.old.top.value }
        requires safe { StandsSafely program.now places.now self.old }
        ensures goes { IfOk result (λ r. Returns program.now places.now self.old self.new r) }
        ensures moves { OnOk result (length self.new.moves.items ≡ length self.old.moves.items) }
    {
        match terminator {
            Terminator::Return { value } => self.return_with(program, places, *value),
            Terminator::Detach {
                region,
                body,
                continuation,
            } => {
                self.detach(program, places, *region, *body, *continuation)?;
                Ok(None)
            }
            Terminator::Reattach {
                region,
                continuation,
            } => {
                self.reattach(program, places, *region, *continuation)?;
                Ok(None)
            }
            Terminator::Sync { region, target } => {
                self.sync(program, places, *region, *target);
                Ok(None)
            }
            _ => unreachable!(),
        }
    }

    /// Does what stands at its place, which is no plain step; the run's result where it has ended.
    #[inline(always)]
    pub fn border(&mut self, program: &Program, places: &Places) -> Result<Option<i64>, OutOfMemory>
        requires stands { FrameFits program.now self.old.top.value }
        requires text { TextFits program.now places.now (length self.old.moves.items) }
        requires border { IsBorderItem (item_here program.now self.old.top.value) }
        requires numbers { HasNumbers self.old.top.value }
        requires safe { StandsSafely program.now places.now self.old }
        ensures goes { IfOk result (λ r. Returns program.now places.now self.old self.new r) }
        ensures moves { OnOk result (length self.new.moves.items ≡ length self.old.moves.items) }
    {
        match self.top.item(program) {
            Item::Does(instruction) => {
                self.step_over(program, places, instruction)?;
                Ok(None)
            }
            Item::Ends(terminator) => self.end_block(program, places, terminator),
        }
    }
}
