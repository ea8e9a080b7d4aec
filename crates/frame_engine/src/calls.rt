//! A call's frame: the arguments that are passed, and words for the other registers (calling convention).

ghost use Rattle.std.specs.Prelude.{◌≡◌, ◌+◌, ◌<◌, ◌≤◌, ◌∷◌, ℕ, OnOk, List, Some, length, slice_get};
ghost use Rattle.semantics.specs.Paths.{Path};
ghost use Rattle.semantics.specs.Frames as frames;
ghost use Rattle.semantics.specs.Frames.{Value};
ghost use Rattle.semantics.specs.Effect.{argument_values};
ghost use Rattle.semantics.specs.State.{called};
ghost use Rattle.program.specs.declared.instruction.Argument.{Argument};
ghost use Rattle.frame_engine.specs.Activation.{ShowsFrame, allocas_of, bases_in};
ghost use Rattle.frame_engine.specs.Arguments.{ArgumentsAreWhole, IsArgument};
ghost use Rattle.frame_engine.specs.Names.{HasArgument, sizes};
ghost use Rattle.frame_engine.specs.Shows.{Layout, PointsAlike, ShowsBases, ShowsRegisters};
ghost use Rattle.frame_engine.specs.Words.{bases};

use crate::activation::{Frame, Places};
use crate::turning::Place;
use crate::words::{first, word};
use frame::{Role, Wait};
use lists::OutOfMemory;
use program::{Argument, BlockId, FunctionId};

/// Has so many words. What they held counts for nothing, so a frame that was one of the same function before is not written over.
#[inline(always)]
pub fn have_words(words: &mut Vec<i64>, count: usize) -> Result<(), OutOfMemory>
    ensures { OnOk result (length words.new.items ≡ count) }
{
    if words.len() != count {
        words.truncate(count);
        words.resize(count, 0)?;
    }
    Ok(())
}

impl Frame {
    /// The word that a call passes.
    #[inline(always)]
    fn argument(&self, places: &Places, argument: Argument) -> i64
        requires there { self.now.function.0 < length places.now.allocas }
        requires names { HasArgument (sizes (length self.now.registers.items) (length places.now.globals)
            (length (allocas_of places.now self.now.function.0))) argument }
        ensures { IsArgument (bases_in places.now self.now) self.now.registers.items argument result }
    {
        let allocas = &places.allocas.as_slice()[self.function.0];
        match argument {
            Argument::Number(operand) => word(self.registers.as_slice(), operand),
            Argument::Object(name) => first(
                &places.globals,
                allocas,
                &self.home,
                self.registers.as_slice(),
                name,
            ),
        }
    }

    /// Writes the words that a call passes.
    #[inline(always)]
    fn pass(&self, places: &Places, arguments: &[Argument], words: &mut [i64])
        requires there { self.now.function.0 < length places.now.allocas }
        requires names { (k : ℕ) (a : Argument) → slice_get arguments.now k ≡ Some a
            → HasArgument (sizes (length self.now.registers.items) (length places.now.globals)
            (length (allocas_of places.now self.now.function.0))) a }
        requires room { length arguments.now ≤ length words.old }
        ensures length { length words.new ≡ length words.old }
        ensures passed { (l : Layout) (p : Path) (g : frames.Frame) (values : List Value) → ShowsFrame l places.now p g self.now
            → ArgumentsAreWhole g arguments.now → argument_values g arguments.now ≡ Some values → ShowsRegisters l (slice_get values) words.new }
    {
        for (i, argument) in arguments.iter().enumerate() {
            words[i] = self.argument(places, *argument);
        }
    }

    /// Makes `callee` the frame of this frame's call of the function, with so many registers, whatever it was.
    #[inline(always)]
    pub fn call_into(
        &self,
        places: &Places,
        callee: &mut Frame,
        function: FunctionId,
        registers: usize,
        arguments: &[Argument],
        home: i64,
    ) -> Result<(), OutOfMemory>
        requires depth { self.now.depth + 1 < 18446744073709551616 }
        requires there { self.now.function.0 < length places.now.allocas }
        requires names { (k : ℕ) (a : Argument) → slice_get arguments.now k ≡ Some a
            → HasArgument (sizes (length self.now.registers.items) (length places.now.globals)
            (length (allocas_of places.now self.now.function.0))) a }
        requires room { length arguments.now ≤ registers }
        ensures registers { OnOk result (length callee.new.registers.items ≡ registers) }
        ensures function { OnOk result (callee.new.function ≡ function) }
        ensures home { OnOk result (callee.new.home ≡ home) }
        ensures shown { OnOk result ((l k : Layout) (p : Path) (g : frames.Frame) (values : List Value)
            → ShowsFrame l places.now p g self.now → ArgumentsAreWhole g arguments.now → argument_values g arguments.now ≡ Some values
            → PointsAlike l k values → ShowsBases k (bases places.now.globals (allocas_of places.now function.0) home) (g.made ∷ p)
            → ShowsFrame k places.now (g.made ∷ p) (called p g function.0 values) callee.new) }
    {
        have_words(&mut callee.registers, registers)?;
        self.pass(places, arguments, callee.registers.as_mut_slice());
        callee.function = function;
        callee.place = Place {
            block: BlockId(0),
            index: 0,
        };
        callee.home = home;
        callee.made = 0;
        callee.waits = Wait::Nothing;
        callee.role = Role::Body;
        callee.depth = self.depth + 1;
        Ok(())
    }
}
