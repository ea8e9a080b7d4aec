//! The stack of frames of a serial run, with their cells; frames that are over are used again.

ghost use Rattle.std.specs.Prelude.{◌≡◌, ◌++◌, ◌∷◌, [], OnOk};

use frame_engine::{Flat, Frame, blank};
use lists::OutOfMemory;
use std::alloc::Global;
use std::mem;

/// A run between two instructions: the frame that goes on, the frames below it, each of which made the one above it, and their
/// cells. Frames that are over are used again; each stands in a box, so that none is moved when another one goes on.
#[derive(Drop)]
pub struct Stack {
    pub alloc: Global,
    pub top: Box<Frame>,
    pub below: Vec<Box<Frame>>,
    pub spare: Vec<Box<Frame>>,
    pub cells: Flat,
    /// Cells from here on belong to no frame, and are used again.
    pub end: usize,
    /// Room for the phi moves of an edge.
    pub moves: Vec<i64>,
}

impl Stack {
    /// A frame that is over, or a new one.
    #[inline(always)]
    pub(crate) fn fresh(&mut self) -> Result<Box<Frame>, OutOfMemory>
        ensures only { OnOk result (self.new ≡ record self.old { spare = self.new.spare }) }
    {
        match self.spare.pop() {
            Some(frame) => Ok(frame),
            None => Ok(Box::new(self.alloc, blank(self.alloc))?),
        }
    }

    /// The frame goes on, on top of the one that made it.
    #[inline(always)]
    pub(crate) fn push(&mut self, frame: Box<Frame>) -> Result<(), OutOfMemory>
        ensures below { OnOk result (self.new.below.items ≡ self.old.below.items ++ self.old.top ∷ []) }
        ensures only { OnOk result (self.new ≡ record self.old { top = frame; below = self.new.below }) }
    {
        let maker = mem::replace(&mut self.top, frame);
        self.below.push(maker)?;
        Ok(())
    }

    /// The frame, which stood below the one on top, goes on.
    #[inline(always)]
    pub(crate) fn go_back_to(&mut self, frame: Box<Frame>) -> Result<(), OutOfMemory>
        ensures only { OnOk result (self.new ≡ record self.old { top = frame; spare = self.new.spare }) }
    {
        let over = mem::replace(&mut self.top, frame);
        self.spare.push(over)?;
        Ok(())
    }
}
