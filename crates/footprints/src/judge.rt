//! What is broken at a step or on an edge, by what it touches and by what it hands on.

ghost use Rattle.std.specs.Prelude.{◌≡◌, ℕ, List, Any, Some, IfOk, OnOk, false, slice_get, slice_index_or, take};
ghost use Rattle.program.specs.declared.instruction.Step.{Step as StepKind};
ghost use Rattle.refusal.specs.declared.broken.Broken.{Broken};
ghost use Rattle.refusal.specs.Earliest.{IsEarliest};
ghost use Rattle.ranges.specs.Tables.{with_known, all_with_known};
ghost use Rattle.footprints.specs.Touched.{pointers_of};
ghost use Rattle.footprints.specs.Footprints.{place_of, step_use, end_use, passes_on};
ghost use Rattle.footprints.specs.Rules.{IsUseBroken, IsEdgeBroken};

use crate::access::Pointer;
use crate::pass::passes_on;
use crate::touch::{end_use, step_use};
use footprints_feet::{Place, Use};
use program::{Block, Ending, Function, Step};
use ranges::{EdgeFacts, FactBranches, Unanswered};
use refusal::{Broken, lower, rule};
use std::alloc::Global;

/// The rule of this number at this line, unless it holds.
fn fault_unless(holds: bool, line: u32, number: u16) -> Option<Broken>
    ensures { IsEarliest (λ (b : Broken). (b.number ≡ number) × (b.line ≡ line) × (holds ≡ false)) result }
{
    if holds {
        None
    } else {
        Some(Broken { line, number })
    }
}

/// What is broken by what a step or a terminator touches.
pub fn use_fault(line: u32, used: Use) -> Option<Broken>
    ensures { IsEarliest (IsUseBroken line used) result }
{
    let uncovered = fault_unless(used.covered, line, used.number);
    let unclear = fault_unless(used.clear, line, rule::CONFLICT);
    lower(uncovered, unclear)
}

/// What is broken at a step of a block with these pointers.
pub fn step_fault(
    alloc: Global,
    place: &Place<'_>,
    functions: &[Function],
    pointers: &[Pointer],
    step: &Step,
) -> Result<Option<Broken>, Unanswered>
    ensures { (steps : List StepKind) → pointers.now ≡ pointers_of steps → IfOk result (IsEarliest (IsUseBroken step.now.line (step_use
        (place_of place.now.facts.now place.now.covering.now place.now.own place.now.pending.now)
        functions.now steps step.now.line step.now.instruction))) }
{
    let used = step_use(
        alloc,
        place,
        functions,
        pointers,
        step.line,
        &step.instruction,
    )?;
    Ok(use_fault(step.line, used))
}

/// What is not passed on along an edge.
fn edge_fault(
    alloc: Global,
    blocks: &[Block],
    block: &Block,
    ending: &Ending,
    facts: &mut FactBranches<'_>,
    edge: &EdgeFacts,
) -> Result<Option<Broken>, Unanswered>
    ensures lent { OnOk result (facts.new.0 ≡ facts.old.0) }
    ensures fault { IfOk result (IsEarliest (IsEdgeBroken blocks.now block.now ending.now (with_known facts.old.0 edge.now))) }
{
    let pending = block.pending.as_slice();
    let passed = passes_on(alloc, blocks, facts, pending, &ending.terminator, edge)?;
    Ok(fault_unless(passed, ending.line, rule::PENDING))
}

/// What is not passed on along one of the edges of a block where this is known at its end.
pub fn edges_fault(
    alloc: Global,
    blocks: &[Block],
    block: &Block,
    ending: &Ending,
    facts: &mut FactBranches<'_>,
    edges: &[EdgeFacts],
) -> Result<Option<Broken>, Unanswered>
    ensures { IfOk result (IsEarliest (λ (b : Broken). Any (λ e. IsEdgeBroken blocks.now block.now ending.now e b) (all_with_known facts.old.0 edges.now))) }
{
    let mut named: Option<Broken> = None;
    for edge in edges {
        let broken = edge_fault(alloc, blocks, block, ending, facts, edge)?;
        named = lower(named, broken);
    }
    Ok(named)
}
