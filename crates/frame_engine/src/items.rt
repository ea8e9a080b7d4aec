//! What a frame does next: an instruction or a terminator, and whether it is a border.

ghost use Rattle.std.specs.Prelude.{◌≡◌, ◌≢◌, ◌↔◌, IsTrue, None, Some};
ghost use Rattle.semantics.specs.Frames.{block_at, item_at};
ghost use Rattle.program.specs.declared.function.Block.{Block};
ghost use Rattle.frame_engine.specs.Activation.{FrameFits};
ghost use Rattle.frame_engine.specs.Border.{IsBorderItem};
ghost use Rattle.frame_engine.specs.Items.{item_of};

use crate::activation::Frame;
use program::{Instruction, Program, Terminator};

/// What stands at a place.
pub enum Item<'p> {
    Does(&'p Instruction),
    Ends(&'p Terminator),
}

impl Frame {
    /// What the frame does next.
    #[inline(always)]
    pub fn item<'p>(&self, program: &'p Program) -> Item<'p>
        requires stands { FrameFits program.now self.now }
        requires ends { (b : Block) → block_at program.now self.now.function.0 self.now.place.block.0 ≡ Some b → b.ending ≢ None }
        ensures { item_at program.now self.now.function.0 self.now.place.block.0 self.now.place.index ≡ Some (item_of result) }
    {
        let function = &program.functions.as_slice()[self.function.0];
        let block = &function.blocks.as_slice()[self.place.block.0];
        let steps = block.steps.as_slice();
        if self.place.index < steps.len() {
            let step = &steps[self.place.index];
            return Item::Does(&step.instruction);
        }
        match &block.ending {
            Some(ending) => Item::Ends(&ending.terminator),
            None => unreachable!(),
        }
    }

    /// Whether what the frame does next is no plain step.
    pub fn is_at_border(&self, program: &Program) -> bool
        requires stands { FrameFits program.now self.now }
        requires ends { (b : Block) → block_at program.now self.now.function.0 self.now.place.block.0 ≡ Some b → b.ending ≢ None }
        ensures { IsTrue result ↔ IsBorderItem (item_at program.now self.now.function.0 self.now.place.block.0 self.now.place.index) }
    {
        match self.item(program) {
            Item::Does(instruction) => matches!(
                instruction,
                Instruction::Call { .. } | Instruction::StoreZeros { .. }
            ),
            Item::Ends(terminator) => matches!(
                terminator,
                Terminator::Return { .. }
                    | Terminator::Detach { .. }
                    | Terminator::Reattach { .. }
                    | Terminator::Sync { .. }
            ),
        }
    }
}
