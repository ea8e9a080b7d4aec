//! The edges at the end of each block (its successors), with the moves of the phis that are made on them.

ghost use Rattle.std.specs.Prelude.{◌≡◌, ◌++◌, ◌∷◌, [], OnOk, IfOk};
ghost use Rattle.std.specs.List.{filter_map};
ghost use Rattle.cfg.specs.Edges.{moves_from, edge_of, edges_at_end, graph_of};

use crate::structure::{BlockEdges, Edge, FunctionGraph, Move, Successor};
use crate::targets::successors;
use lists::Seq;
use program::{Block, BlockId, Ending, Function, Phi, entry_for};
use std::alloc::{AllocError, Global};

/// What the phis of a block take on an edge from a block.
pub fn make_moves(alloc: Global, phis: &[Phi], from: usize) -> Result<Seq<Move>, AllocError>
    ensures { IfOk result (λ moves. moves ≡ moves_from from phis.now) }
{
    let mut moves = Vec::new(alloc);
    for phi in phis {
        if let Some(value) = entry_for(phi.entries.as_slice(), BlockId(from)) {
            moves.push(Move {
                register: phi.register,
                value,
            })?;
        }
    }
    Ok(Seq::from_vec(moves))
}

/// Adds the edge of an successor, where the function has the block that it leads to.
fn push_edge(
    alloc: Global,
    blocks: &[Block],
    from: usize,
    successor: Successor,
    edges: &mut Vec<Edge>,
) -> Result<(), AllocError>
    ensures { OnOk result (edges.new.items ≡ edges.old.items ++ filter_map (edge_of blocks.now from) (successor ∷ [])) }
{
    if let Some(target) = blocks.get(successor.to.0) {
        edges.push(Edge {
            to: successor.to,
            way: successor.way,
            moves: make_moves(alloc, target.phis.as_slice(), from)?,
        })?;
    }
    Ok(())
}

/// Adds the edges of successors.
fn push_edges(
    alloc: Global,
    blocks: &[Block],
    from: usize,
    successors: &[Successor],
    edges: &mut Vec<Edge>,
) -> Result<(), AllocError>
    ensures { OnOk result (edges.new.items ≡ edges.old.items ++ filter_map (edge_of blocks.now from) successors.now) }
{
    for successor in successors {
        push_edge(alloc, blocks, from, *successor, edges)?;
    }
    Ok(())
}

/// The edges at the end of a block.
fn block_edges(
    alloc: Global,
    blocks: &[Block],
    from: usize,
    ending: &Option<Ending>,
) -> Result<BlockEdges, AllocError>
    ensures { IfOk result (λ block. block.edges ≡ edges_at_end blocks.now from ending.now) }
{
    let mut edges = Vec::new(alloc);
    if let Some(ending) = ending {
        let successors = successors(alloc, &ending.terminator)?;
        push_edges(alloc, blocks, from, successors.as_slice(), &mut edges)?;
    }
    Ok(BlockEdges {
        edges: Seq::from_vec(edges),
    })
}

/// The edges of a function.
pub fn function_graph(alloc: Global, function: &Function) -> Result<FunctionGraph, AllocError>
    ensures { IfOk result (λ graph. graph ≡ graph_of function.now) }
{
    let blocks = function.blocks.as_slice();
    let mut made: Vec<BlockEdges> = Vec::new(alloc);
    for (from, block) in blocks.iter().enumerate() {
        made.push(block_edges(alloc, blocks, from, &block.ending)?)?;
    }
    Ok(FunctionGraph {
        blocks: Seq::from_vec(made),
    })
}
