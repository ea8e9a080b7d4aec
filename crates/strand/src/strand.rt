//! What a strand is made of: its base, its frames, its cells, and what it has done.

ghost use Rattle.std.specs.Prelude.{◌≡◌, ◌++◌, ◌∷◌, [], OnOk, length};

use crate::cells::StrandCells;
use crate::span::Span;
use frame_engine::{Frame, blank};
use lists::OutOfMemory;
use std::alloc::Global;
use std::mem;

/// The board's frame as it was loaded, and its path, the root's number first.
#[derive(Drop)]
pub struct Base {
    pub path: Vec<u64>,
    pub frame: Frame,
    /// Whether it had no child then that a sync of it waits for.
    pub childless: bool,
}

/// What a worker has done since it loaded the base: the frame that goes on, the frames below it, each of which made the one above it, and the
/// cells that were read and written. Frames that are over are used again; each stands in a box, so that none is moved when another one goes on.
#[derive(Drop)]
pub struct Strand {
    pub alloc: Global,
    pub base: Base,
    pub top: Box<Frame>,
    pub below: Vec<Box<Frame>>,
    pub spare: Vec<Box<Frame>>,
    /// Instructions.
    pub done: u64,
    /// The most frames from the root to one that was made here.
    pub deepest: usize,
    pub cells: StrandCells,
    /// Where the next frame's allocas begin, in the segment of the cells.
    pub end: u64,
    /// Room for the phi moves of an edge.
    pub moves: Vec<i64>,
    /// Its frames, in windows. Those in boxes are what `settle` has written last.
    pub span: Span,
}

/// Has so many words. What they hold counts for nothing.
#[inline(always)]
pub(crate) fn have_words(words: &mut Vec<i64>, count: usize) -> Result<(), OutOfMemory>
    ensures { OnOk result (length words.new.items ≡ count) }
{
    words.truncate(count);
    Ok(words.resize(count, 0)?)
}

/// A frame of one that is over, or a new one.
#[inline(always)]
pub(crate) fn fresh(spare: &mut Vec<Box<Frame>>, alloc: Global) -> Result<Box<Frame>, OutOfMemory> {
    match spare.pop() {
        Some(frame) => Ok(frame),
        None => Ok(Box::new(alloc, blank(alloc))?),
    }
}

impl Strand {
    /// The frame goes on, on top of the one that made it.
    #[inline(always)]
    pub(crate) fn push(&mut self, frame: Box<Frame>) -> Result<(), OutOfMemory>
        ensures below { OnOk result (self.new.below.items ≡ self.old.below.items ++ self.old.top ∷ []) }
        ensures top { OnOk result (self.new.top ≡ frame) }
        ensures only { self.new ≡ record self.old { top = self.new.top; below = self.new.below } }
    {
        let maker = mem::replace(&mut self.top, frame);
        self.below.push(maker)?;
        Ok(())
    }
}
