//! Rule 307: where regions, phis and `foot` lines may stand, and the only predecessor of a detached block.

ghost use Rattle.std.specs.Prelude.{◌≡◌, ◌≢◌, ◌↔◌, ◌⊎◌, ℕ, false, length, Any, IsTrue};
ghost use Rattle.program.specs.linear.declared.form.RegisterId.{RegisterId};
ghost use Rattle.program.specs.declared.instruction.Instruction.TheVariants.{StartRegion};
ghost use Rattle.cfg.specs.Paths.{edges_of};
ghost use Rattle.cfg.specs.Rules.{IsPredecessor};
ghost use Rattle.region_match.specs.Rules.{IsEntered, IsShared, IsStartBroken, IsPhiBroken, IsFootBroken, IsLabelBroken, IsPlaceBroken};
ghost use Rattle.refusal.specs.Earliest.{IsEarliest};

use cfg::{BlockEdges, Edge, Way};
use program::{Block, Instruction, Phi, Step, Zone};
use refusal::{Broken, lower, rule};

/// Whether two edges go the same way.
fn is_way(left: Way, right: Way) -> bool
    ensures { IsTrue result ↔ (left ≡ right) }
{
    left == right
}

/// Whether an edge leads to a block this way.
fn is_edge_among(edges: &[Edge], block: usize, way: Way) -> bool
    ensures { IsTrue result ↔ Any (λ e. (e.to.0 ≡ block) × (e.way ≡ way)) edges.now }
{
    for edge in edges {
        if edge.to.0 == block && is_way(edge.way, way) {
            return true;
        }
    }
    false
}

/// Whether an edge of the function leads to a block this way.
fn is_entered(blocks: &[BlockEdges], block: usize, way: Way) -> bool
    ensures { IsTrue result ↔ IsEntered blocks.now block way }
{
    for body in blocks {
        if is_edge_among(body.edges.as_slice(), block, way) {
            return true;
        }
    }
    false
}

/// Whether a block has another predecessor than this one.
fn is_followed_by_another(blocks: &[BlockEdges], block: usize, one: usize) -> bool
    ensures { IsTrue result ↔ ((other : ℕ) × (other ≢ one) × IsPredecessor blocks.now other block) }
{
    for (other, body) in blocks.iter().enumerate() {
        if other != one && body.leads_to(block) {
            return true;
        }
    }
    false
}

/// Whether a detached block has another predecessor than its detach.
fn is_shared(blocks: &[BlockEdges], block: usize) -> bool
    ensures { IsTrue result ↔ IsShared blocks.now block }
{
    for (one, body) in blocks.iter().enumerate() {
        if is_edge_among(body.edges.as_slice(), block, Way::Detached)
            && is_followed_by_another(blocks, block, one)
        {
            return true;
        }
    }
    false
}

/// Whether an instruction starts a region.
fn is_any_start(instruction: &Instruction) -> bool
    ensures { IsTrue result ↔ ((region : RegisterId) × (instruction.now ≡ StartRegion region)) }
{
    match instruction {
        Instruction::StartRegion { .. } => true,
        _ => false,
    }
}

/// Whether both hold.
pub fn is_both(left: bool, right: bool) -> bool
    ensures { IsTrue result ↔ ((IsTrue left) × (IsTrue right)) }
{
    left && right
}

/// Whether one holds.
fn is_either(left: bool, right: bool) -> bool
    ensures { IsTrue result ↔ ((IsTrue left) ⊎ (IsTrue right)) }
{
    left || right
}

/// Whether no region may start in a block: it is neither the entry nor detached.
fn is_start_wrong(block: usize, is_detached: bool) -> bool
    ensures { IsTrue result ↔ ((block ≢ 0) × (is_detached ≡ false)) }
{
    block != 0 && !is_detached
}

/// What is named at a line.
fn named_at(is_broken: bool, line: u32) -> Option<Broken>
    ensures { IsEarliest (λ b. (IsTrue is_broken) × (b.number ≡ 307) × (b.line ≡ line)) result }
{
    if is_broken {
        Some(Broken {
            line,
            number: rule::MISPLACED_IN_BLOCK,
        })
    } else {
        None
    }
}

/// 307: the regions that start in a block where none may.
fn start_fault(steps: &[Step], is_wrong: bool) -> Option<Broken>
    ensures { IsEarliest (λ b. Any
        (λ step. (IsTrue is_wrong) × (b.number ≡ 307) × (b.line ≡ step.line) × (region : RegisterId)
        × (step.instruction ≡ StartRegion region)) steps.now) result }
{
    let mut named: Option<Broken> = None;
    for step in steps {
        let is_broken = is_both(is_wrong, is_any_start(&step.instruction));
        let broken = named_at(is_broken, step.line);
        named = lower(named, broken);
    }
    named
}

/// 307: the phis of a block where none may stand.
fn phi_fault(phis: &[Phi], is_wrong: bool) -> Option<Broken>
    ensures { IsEarliest (λ b. Any (λ phi. (IsTrue is_wrong) × (b.number ≡ 307) × (b.line ≡ phi.line)) phis.now) result }
{
    let mut named: Option<Broken> = None;
    for phi in phis {
        named = lower(named, named_at(is_wrong, phi.line));
    }
    named
}

/// 307: the `foot` lines of a block where none may stand.
fn foot_fault(foot: &[Zone], is_wrong: bool) -> Option<Broken>
    ensures { IsEarliest (λ b. Any (λ zone. (IsTrue is_wrong) × (b.number ≡ 307) × (b.line ≡ zone.line)) foot.now) result }
{
    let mut named: Option<Broken> = None;
    for zone in foot {
        named = lower(named, named_at(is_wrong, zone.line));
    }
    named
}

/// 307: what stands in a block where it may not, and a detached block with another predecessor.
pub fn place_fault(blocks: &[BlockEdges], index: usize, block: &Block) -> Option<Broken>
    ensures { IsEarliest (IsPlaceBroken blocks.now index block.now) result }
{
    let is_detached = is_entered(blocks, index, Way::Detached);
    let is_continued = is_entered(blocks, index, Way::Continued);
    let at_starts = start_fault(block.steps.as_slice(), is_start_wrong(index, is_detached));
    let at_phis = phi_fault(block.phis.as_slice(), is_either(is_detached, is_continued));
    let at_foot = foot_fault(block.foot.as_slice(), !is_detached);
    let at_label = named_at(is_shared(blocks, index), block.line);
    lower(lower(at_starts, at_phis), lower(at_foot, at_label))
}
