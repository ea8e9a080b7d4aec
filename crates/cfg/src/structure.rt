//! What a control-flow graph is: edges, the way that a path takes along each, and parallel moves of phis.

use lists::Seq;
use program::{BlockId, Operand, RegisterId};

/// How a path goes along an edge. No path goes along a reattach.
#[derive(Clone, Copy, PartialEq, Eq)]
pub enum Way {
    /// Along `br` or `switch`.
    Branch,
    /// From a detach to its detached block.
    Detached,
    /// From a detach to its continuation.
    Continued,
    /// From a sync of this region to its target.
    Synced(RegisterId),
}

/// What it tells of a terminator's operand that a run goes to one of its successors.
#[derive(Clone, Copy)]
pub enum Guard {
    /// Nothing: the successor has no test of its own, as a jump's or a switch's default.
    Silent,
    /// The condition of a branch holds, or it does not.
    Tested { condition: RegisterId, holds: bool },
    /// The operand of a switch is the number of a case.
    Matched { value: Operand, number: i64 },
}

/// Where a terminator leads, by which way, and what that tells.
#[derive(Clone, Copy)]
pub struct Successor {
    pub to: BlockId,
    pub way: Way,
    pub guard: Guard,
}

/// The value that a phi takes on an edge.
#[derive(Clone, Copy)]
pub struct Move {
    pub register: RegisterId,
    pub value: Operand,
}

/// An edge to a block, with the phi moves that are made at once on it.
#[derive(Drop)]
pub struct Edge {
    pub to: BlockId,
    pub way: Way,
    pub moves: Seq<Move>,
}

/// The edges that leave a block, in the order of its terminator.
#[derive(Drop)]
pub struct BlockEdges {
    pub edges: Seq<Edge>,
}

impl BlockEdges {
    ghost use Rattle.std.specs.Prelude.{◌≡◌};
    ghost use Rattle.cfg.specs.Rules.{leads_to};

    /// Whether one of the edges leads to a block.
    pub fn leads_to(&self, block: usize) -> bool
        ensures { result ≡ leads_to block self.now.edges }
    {
        self.edges.as_slice().iter().any(|edge| edge.to.0 == block)
    }
}

/// The edges of a function, a block each.
#[derive(Drop)]
pub struct FunctionGraph {
    pub blocks: Seq<BlockEdges>,
}
