//! Names what a place owes and its facts do not show: obligations, `shows` lines, and `keeps` on edges (invariants).

ghost use Rattle.std.specs.Prelude.{◌≡◌, ◌++◌, ◌∷◌, [], false, Any, IfOk, OnOk, slice_get};
ghost use Rattle.refusal.specs.Earliest.{IsEarliest};
ghost use Rattle.ranges.specs.Sums.{shows, is_met};
ghost use Rattle.ranges_owed.specs.Inequalities.{difference_of};
ghost use Rattle.ranges.specs.Places.{with_shows, stated};
ghost use Rattle.ranges.specs.Rules.{AreUnmet, AreUnshown, AreEdgesBroken};
ghost use Rattle.ranges.specs.Edges.{edge_owed, keeps_of};
ghost use Rattle.ranges.specs.Tables.{all_with_known};
ghost use Rattle.refusal.specs.declared.broken.Broken.{Broken};

use crate::know::{is_met_at, push_fact, shows_at};
use crate::table::EdgeFacts;
use crate::unverified::Unanswered;
use linear::Fact;
use linear_shown::{Effort, FactBranches, FactList, Known};
use program::{Block, BlockId, Inequality};
use ranges_owed::{Obligation, difference_of, inequalities_owed};
use refusal::{Broken, lower, rule};
use std::alloc::Global;

/// An obligation that the facts do not meet.
fn obligation_fault(
    alloc: Global,
    known: &Known<'_>,
    line: u32,
    obligation: &Obligation,
) -> Result<Option<Broken>, Unanswered>
    ensures { IfOk result (IsEarliest (λ (b : Broken). (b.number ≡ obligation.now.number) × (b.line ≡ line) × (is_met known.now obligation.now ≡ false))) }
{
    let broken = if is_met_at(alloc, known, obligation)? {
        None
    } else {
        Some(Broken {
            line,
            number: obligation.number,
        })
    };
    Ok(broken)
}

/// What the facts do not meet.
pub fn unmet_fault(
    alloc: Global,
    known: &Known<'_>,
    line: u32,
    obligations: &[Obligation],
) -> Result<Option<Broken>, Unanswered>
    ensures { IfOk result (IsEarliest (AreUnmet known.now line obligations.now)) }
{
    let mut named: Option<Broken> = None;
    for obligation in obligations {
        let broken = obligation_fault(alloc, known, line, obligation)?;
        named = lower(named, broken);
    }
    Ok(named)
}

/// Adds what a `shows` line says, and names it where it is not shown.
fn push_shown(
    alloc: Global,
    facts: &mut FactList<'_>,
    inequality: &Inequality,
) -> Result<Option<Broken>, Unanswered>
    ensures known { OnOk result (facts.new ≡ with_shows facts.old (inequality.now ∷ [])) }
    ensures named { IfOk result (IsEarliest
        (λ (b : Broken). (b.number ≡ 508) × (b.line ≡ inequality.now.line) × (shows facts.old (difference_of [] inequality.now) ≡ false))) }
{
    let sum = difference_of(alloc, &[], inequality)?;
    facts.index()?;
    let broken = if shows_at(alloc, &facts.known(), &sum)? {
        None
    } else {
        Some(Broken {
            line: inequality.line,
            number: rule::SHOWS,
        })
    };
    push_fact(alloc, facts, &sum)?;
    Ok(broken)
}

/// Adds what `shows` lines say, and names what is not shown.
pub fn push_shows(
    alloc: Global,
    facts: &mut FactList<'_>,
    lines: &[Inequality],
) -> Result<Option<Broken>, Unanswered>
    ensures known { OnOk result (facts.new ≡ with_shows facts.old lines.now) }
    ensures named { IfOk result (IsEarliest (AreUnshown facts.old lines.now)) }
{
    let mut named: Option<Broken> = None;
    for inequality in lines {
        let broken = push_shown(alloc, facts, inequality)?;
        named = lower(named, broken);
    }
    Ok(named)
}

/// The `keeps` of a block.
fn keeps_of(blocks: &[Block], block: BlockId) -> &[Inequality]
    ensures { result.now ≡ keeps_of (slice_get blocks.now block.0) }
{
    match blocks.get(block.0) {
        Some(block) => block.keeps.as_slice(),
        None => &[],
    }
}

/// The `keeps` of an edge's target that are not shown on it.
fn edge_fault(
    alloc: Global,
    blocks: &[Block],
    line: u32,
    facts: &mut FactBranches<'_>,
    edge: &EdgeFacts,
) -> Result<Option<Broken>, Unanswered>
    ensures lent { OnOk result (facts.new.0 ≡ facts.old.0) }
    ensures fault { IfOk result (IsEarliest (AreUnmet (facts.old.0 ++ edge.now.facts) line (edge_owed blocks.now edge.now))) }
{
    let keeps = keeps_of(blocks, edge.to);
    let owed = inequalities_owed(alloc, rule::KEEPS, edge.moves.as_slice(), keeps)?;
    facts.switch_to(alloc, edge.facts.as_slice())?;
    unmet_fault(alloc, &facts.known(), line, &owed)
}

/// What is not shown on one of the edges of a block where this is known at its end.
pub fn edges_fault(
    alloc: Global,
    blocks: &[Block],
    line: u32,
    known: &[Fact],
    edges: &[EdgeFacts],
    effort: &Effort,
) -> Result<Option<Broken>, Unanswered>
    ensures { IfOk result (IsEarliest (λ (b : Broken). Any (λ e. AreUnmet e.facts line (edge_owed blocks.now e) b) (all_with_known known.now edges.now))) }
{
    let mut named: Option<Broken> = None;
    let mut facts = FactBranches::new(alloc, known, effort);
    for edge in edges {
        let broken = edge_fault(alloc, blocks, line, &mut facts, edge)?;
        named = lower(named, broken);
    }
    Ok(named)
}
