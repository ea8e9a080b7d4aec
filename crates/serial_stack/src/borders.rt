//! The serial run's steps over borders: call, return, detach, reattach, sync and array store.

ghost use Rattle.std.specs.Prelude.{◌≡◌, OnOk, IfOk, Some, length};
ghost use Rattle.semantics.specs.Frames.{Does, Ends};
ghost use Rattle.program.specs.declared.instruction.Instruction.TheVariants as instruction;
ghost use Rattle.program.specs.declared.instruction.Terminator.TheVariants as terminator;
ghost use Rattle.serial_stack.specs.StackShown.{GoesOn, HasNumbers, Returns, StandsSafely, TextFits, item_here};
ghost use Rattle.frame_engine.specs.Activation.{FrameFits};

use crate::stack::Stack;
use frame_engine::{Places, frame_cells, function_at, taker};
use lists::OutOfMemory;
use program::{Argument, BlockId, FunctionId, ObjectName, Operand, Program, RegisterId};

impl Stack {
    /// The child begins; its parent stands at the continuation from here on.
    #[inline(always)]
    pub(crate) fn detach(
        &mut self,
        program: &Program,
        places: &Places,
        region: RegisterId,
        body: BlockId,
        continuation: BlockId,
    ) -> Result<(), OutOfMemory>
        requires stands { FrameFits program.now self.old.top.value }
        requires text { TextFits program.now places.now (length self.old.moves.items) }
        requires item { item_here program.now self.old.top.value ≡ Some (Ends (terminator.Detach region body continuation)) }
        requires numbers { HasNumbers self.old.top.value }
        ensures goes { OnOk result (GoesOn program.now places.now self.old self.new) }
        ensures moves { OnOk result (self.new.moves ≡ self.old.moves) }
    {
        let mut child = self.fresh()?;
        self.top
            .detach_into(child.as_mut(), region, body, continuation)?;
        self.top.continue_at(continuation);
        self.push(child)?;
        Ok(())
    }

    /// The child is over, and its parent goes on.
    #[inline(always)]
    pub(crate) fn reattach(
        &mut self,
        program: &Program,
        places: &Places,
        region: RegisterId,
        continuation: BlockId,
    ) -> Result<(), OutOfMemory>
        requires item { item_here program.now self.old.top.value ≡ Some (Ends (terminator.Reattach region continuation)) }
        requires safe { StandsSafely program.now places.now self.old }
        ensures goes { OnOk result (GoesOn program.now places.now self.old self.new) }
        ensures moves { OnOk result (self.new.moves ≡ self.old.moves) }
    {
        match self.below.pop() {
            Some(parent) => {
                self.go_back_to(parent)?;
                Ok(())
            }
            None => unreachable!(),
        }
    }

    /// No child is left by now, so the frame goes on at the target.
    #[inline(always)]
    pub(crate) fn sync(
        &mut self,
        program: &Program,
        places: &Places,
        region: RegisterId,
        target: BlockId,
    )
        requires stands { FrameFits program.now self.old.top.value }
        requires text { TextFits program.now places.now (length self.old.moves.items) }
        requires item { item_here program.now self.old.top.value ≡ Some (Ends (terminator.Sync region target)) }
        requires safe { StandsSafely program.now places.now self.old }
        ensures goes { GoesOn program.now places.now self.old self.new }
        ensures moves { length self.new.moves.items ≡ length self.old.moves.items }
    {
        self.top
            .sync(program, self.moves.as_mut_slice(), region, target);
    }

    /// The array store.
    pub(crate) fn clear(
        &mut self,
        program: &Program,
        places: &Places,
        object: ObjectName,
        count: u64,
    )
        requires stands { FrameFits program.now self.old.top.value }
        requires text { TextFits program.now places.now (length self.old.moves.items) }
        requires numbers { HasNumbers self.old.top.value }
        requires item { item_here program.now self.old.top.value ≡ Some (Does (instruction.StoreZeros count object)) }
        requires safe { StandsSafely program.now places.now self.old }
        ensures goes { GoesOn program.now places.now self.old self.new }
        ensures moves { self.new.moves ≡ self.old.moves }
    {
        match self.top.clear(places, &mut self.cells, object, count) {
            Ok(()) => {}
            Err(never) => match never {},
        }
    }

    /// The callee begins, with its allocas at the end of the cells; its caller waits from here on.
    #[inline(always)]
    pub(crate) fn call(
        &mut self,
        program: &Program,
        places: &Places,
        register: Option<RegisterId>,
        callee: FunctionId,
        arguments: &[Argument],
    ) -> Result<(), OutOfMemory>
        requires stands { FrameFits program.now self.old.top.value }
        requires text { TextFits program.now places.now (length self.old.moves.items) }
        requires numbers { HasNumbers self.old.top.value }
        requires item { item_here program.now self.old.top.value ≡ Some (Does (instruction.Call register callee arguments.now)) }
        requires safe { StandsSafely program.now places.now self.old }
        ensures goes { OnOk result (GoesOn program.now places.now self.old self.new) }
        ensures moves { OnOk result (self.new.moves ≡ self.old.moves) }
    {
        let called = function_at(program, callee);
        let Some(room) = frame_cells(called.allocas.as_slice()) else {
            return Err(OutOfMemory);
        };
        let Some(end) = self.end.checked_add(room) else {
            return Err(OutOfMemory);
        };
        let missing = end.saturating_sub(self.cells.cells.len());
        self.cells.grow(missing)?;
        let mut frame = self.fresh()?;
        self.top.call_into(
            places,
            frame.as_mut(),
            callee,
            called.registers.len(),
            arguments,
            (self.end as u64).cast_signed(),
        )?;
        self.top.wait_for_call(register);
        self.end = end;
        self.push(frame)?;
        Ok(())
    }

    /// The function is over, and its caller goes on with what it returns; the root's is the run's result.
    #[inline(always)]
    pub(crate) fn return_with(
        &mut self,
        program: &Program,
        places: &Places,
        value: Option<Operand>,
    ) -> Result<Option<i64>, OutOfMemory>
        requires stands { FrameFits program.now self.old.top.value }
        requires text { TextFits program.now places.now (length self.old.moves.items) }
        requires item { item_here program.now self.old.top.value ≡ Some (Ends (terminator.Return value)) }
        requires safe { StandsSafely program.now places.now self.old }
        ensures goes { IfOk result (λ r. Returns program.now places.now self.old self.new r) }
        ensures moves { OnOk result (self.new.moves ≡ self.old.moves) }
    {
        let result = self.top.returned(value);
        match self.below.pop() {
            Some(mut caller) => {
                let register = taker(caller.waits);
                caller.resume(register, result);
                self.end = self.top.home as usize;
                self.go_back_to(caller)?;
                Ok(None)
            }
            None => Ok(result),
        }
    }
}
