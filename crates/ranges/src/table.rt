//! What is kept of a verified function: the facts at each step, at each block's end and on each edge.

ghost use Rattle.std.specs.Prelude.{◌≡◌, take, slice_index_or};

use linear::Fact;
use lists::Seq;
use program::BlockId;
use ranges_owed::{Move, Way};

/// An edge with what its target's phis take, and what its being taken says: known on it beside what is known at the end of its block.
#[derive(Drop)]
pub struct EdgeFacts {
    pub to: BlockId,
    pub way: Way,
    pub moves: Seq<Move>,
    pub facts: Seq<Fact>,
}

/// What is known at the end of a block, how many of these facts are known at each of its steps (the first ones), and its edges in the
/// order of its terminator.
#[derive(Drop)]
pub struct BlockFacts {
    pub facts: Seq<Fact>,
    pub counts: Seq<usize>,
    pub edges: Seq<EdgeFacts>,
}

impl BlockFacts {
    /// How many of the facts are known at a step, behind the `shows` lines before it.
    pub fn count_at(&self, step: usize) -> usize
        ensures { result ≡ slice_index_or self.now.counts step 0 }
    {
        self.counts.as_slice().get(step).copied().unwrap_or(0)
    }

    /// What is known at a step, behind the `shows` lines before it.
    pub fn at_step(&self, step: usize) -> &[Fact]
        ensures { result.now ≡ take (slice_index_or self.now.counts step 0) self.now.facts }
    {
        let facts = self.facts.as_slice();
        let count = self.count_at(step);
        if count < facts.len() {
            &facts[..count]
        } else {
            facts
        }
    }
}

/// What is known in each block of a function.
pub struct FunctionFacts {
    pub blocks: Seq<BlockFacts>,
}

/// Written out, so that no crate above proves it anew.
impl Drop for FunctionFacts {
    fn drop(self) {
        let FunctionFacts { blocks: _ } = self;
    }
}

/// What is known at each place of a program.
pub struct Facts {
    pub functions: Seq<FunctionFacts>,
}

impl Drop for Facts {
    fn drop(self) {
        let Facts { functions: _ } = self;
    }
}
