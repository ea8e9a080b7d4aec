//! The rules 211 to 213: a phi's entries match the predecessors, each block is reachable and has a terminator.

ghost use Rattle.std.specs.Prelude.{◌≡◌, ◌<◌, ◌↔◌, ◌==◌, ℕ, if◌then◌else◌, length, true, false, map, count_by, IsTrue, IsSome, IfOk, IfErr, slice_index_or};
ghost use Rattle.std.specs.List.{list_any};
ghost use Rattle.cfg.specs.Edges.{graph_of};
ghost use Rattle.cfg.specs.Paths.{IsOnPath};
ghost use Rattle.refusal.specs.Earliest.{IsJudged};
ghost use Rattle.cfg.specs.Rules.{leads_to, HasPredecessor, ArePhisMatched, IsPhiBroken, IsLabelRight, IsLabelBroken, IsBlockRight, IsBlockBroken};
ghost use Rattle.cfg.specs.Rules.{IsEndBroken, IsFunctionRight, IsFunctionBroken};

use crate::reach::reached;
use crate::structure::BlockEdges;
use program::{Block, Function, Phi, PhiEntry};
use reachability::{no_marks, one_mark};
use refusal::{Broken, lower, rule};
use std::alloc::{AllocError, Global};

/// Marks the blocks that a path from the entry leads to.
fn on_paths(alloc: Global, blocks: &[BlockEdges]) -> Result<Vec<bool>, AllocError>
    ensures size { IfOk result (λ marks. length marks.items ≡ length blocks.now) }
    ensures exact { IfOk result (λ marks. (b : ℕ) → b < length blocks.now → (slice_index_or marks.items b false ≡ true) ↔ IsOnPath blocks.now b) }
{
    let starts = one_mark(alloc, blocks.len(), 0)?;
    let stops = no_marks(alloc, blocks.len())?;
    Ok(reached(alloc, blocks, &starts, &stops)?)
}

/// Whether a block has a predecessor.
fn is_followed(blocks: &[BlockEdges], block: usize) -> bool
    ensures { IsTrue result ↔ HasPredecessor blocks.now block }
{
    for body in blocks {
        if body.leads_to(block) {
            return true;
        }
    }
    false
}

/// Marks the predecessors of a block.
fn predecessors(alloc: Global, blocks: &[BlockEdges], block: usize) -> Result<Vec<bool>, AllocError>
    ensures { IfOk result (λ marks. marks.items ≡ map (λ body. leads_to block body.edges) blocks.now) }
{
    let mut marks = Vec::with_capacity(alloc, blocks.len())?;
    for body in blocks {
        marks.push(body.leads_to(block))?;
    }
    Ok(marks)
}

/// Whether a mark is set.
fn is_marked(marks: &[bool]) -> bool
    ensures { result ≡ list_any (λ mark. mark) marks.now }
{
    marks.iter().any(|mark| *mark)
}

/// Whether each marked block has exactly one entry, and no other block has one.
fn is_matched(alloc: Global, leading: &[bool], entries: &[PhiEntry]) -> Result<bool, AllocError>
    ensures { IfOk result (λ r. IsTrue r
        ↔ ((a : ℕ) → count_by (λ e. e.predecessor.0 == a) entries.now ≡ (if slice_index_or leading.now a false then 1 else 0))) }
{
    let mut left = leading.to_vec(alloc)?;
    for entry in entries {
        let from = entry.predecessor.0;
        if from >= left.len() || !left[from] {
            return Ok(false);
        }
        left[from] = false;
    }
    Ok(!is_marked(&left))
}

/// 211: the first line of a phi of the block that is not matched.
fn phi_fault(
    alloc: Global,
    blocks: &[BlockEdges],
    block: usize,
    phis: &[Phi],
) -> Result<Option<Broken>, AllocError>
    ensures { IfOk result (IsJudged (ArePhisMatched blocks.now block phis.now) (IsPhiBroken blocks.now block phis.now)) }
{
    let mut named: Option<Broken> = None;
    if phis.is_empty() {
        return Ok(named);
    }
    let leading = predecessors(alloc, blocks, block)?;
    for phi in phis {
        let broken = if is_matched(alloc, &leading, phi.entries.as_slice())? {
            None
        } else {
            Some(Broken {
                line: phi.line,
                number: rule::PHI_ENTRIES,
            })
        };
        named = lower(named, broken);
    }
    Ok(named)
}

/// 212: the block is on no path, or is the entry and has a predecessor.
fn label_fault(blocks: &[BlockEdges], on_paths: &[bool], block: usize, line: u32) -> Option<Broken>
    requires within { block < length on_paths.now }
    requires exact { (slice_index_or on_paths.now block false ≡ true) ↔ IsOnPath blocks.now block }
    ensures { IsJudged (IsLabelRight blocks.now block) (IsLabelBroken blocks.now block line) result }
{
    if !on_paths[block] || (block == 0 && is_followed(blocks, block)) {
        Some(Broken {
            line,
            number: rule::BLOCK_ON_NO_PATH,
        })
    } else {
        None
    }
}

/// 213: the block has no terminator.
fn ending_fault(block: &Block) -> Option<Broken>
    ensures { IsJudged (IsSome block.now.ending) (IsEndBroken block.now) result }
{
    match block.ending {
        Some(_) => None,
        None => Some(Broken {
            line: block.line,
            number: rule::NO_TERMINATOR,
        }),
    }
}

/// What is broken at a block.
fn block_fault(
    alloc: Global,
    blocks: &[BlockEdges],
    on_paths: &[bool],
    index: usize,
    block: &Block,
) -> Result<Option<Broken>, AllocError>
    requires within { index < length on_paths.now }
    requires exact { (slice_index_or on_paths.now index false ≡ true) ↔ IsOnPath blocks.now index }
    ensures { IfOk result (IsJudged (IsBlockRight blocks.now index block.now) (IsBlockBroken blocks.now index block.now)) }
{
    let at_phis = phi_fault(alloc, blocks, index, block.phis.as_slice())?;
    let at_label = label_fault(blocks, on_paths, index, block.line);
    let at_end = ending_fault(block);
    Ok(lower(at_phis, lower(at_label, at_end)))
}

/// What is broken in a function.
pub fn function_fault(
    alloc: Global,
    function: &Function,
    blocks: &[BlockEdges],
) -> Result<Option<Broken>, AllocError>
    requires { blocks.now ≡ (graph_of function.now).blocks }
    ensures { IfOk result (IsJudged (IsFunctionRight function.now) (IsFunctionBroken function.now)) }
{
    let on_paths = on_paths(alloc, blocks)?;
    let mut named: Option<Broken> = None;
    let bodies = function.blocks.as_slice();
    for (index, block) in bodies.iter().enumerate() {
        let broken = block_fault(alloc, blocks, &on_paths, index, block)?;
        named = lower(named, broken);
    }
    Ok(named)
}
