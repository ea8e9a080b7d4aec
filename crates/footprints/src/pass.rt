//! Rule 603: what is `pending` in a block, and a new child's foot, is pending at the target of each edge.

ghost use Rattle.std.specs.Prelude.{◌≡◌, List, false, true, IfOk, OnOk, slice_get};
ghost use Rattle.linear.specs.declared.form.Fact.{Fact};
ghost use Rattle.ranges.specs.Tables.{with_known};
ghost use Rattle.footprints.specs.Footprints.{hands_on, pending_of, is_passed, are_passed, foot_passed};
ghost use Rattle.footprints.specs.Footprints.{child_passed_on, passes_on};
ghost use Rattle.footprints.specs.Touched.{with_facts};

use crate::touch::child_foot;
use footprints_feet::{PlacedZone, as_written, covers, is_empty};
use program::{Block, BlockId, Pending, RegisterId, Terminator, Zone};
use ranges::{EdgeFacts, FactBranches, Known, Unanswered, Way};
use std::alloc::Global;

/// Whether what is pending of a region goes on along an edge: not into a detached block, and not where the region was synced.
pub fn hands_on(way: Way, region: RegisterId) -> bool
    ensures { result ≡ hands_on way region }
{
    match way {
        Way::Branch | Way::Continued => true,
        Way::Detached => false,
        Way::Synced(synced) => synced.0 != region.0,
    }
}

fn pending_of(blocks: &[Block], block: BlockId) -> &[Pending]
    ensures { result.now ≡ pending_of (slice_get blocks.now block.0) }
{
    match blocks.get(block.0) {
        Some(block) => block.pending.as_slice(),
        None => &[],
    }
}

/// Whether what is pending of the region at the target covers a zone, with what the target's phis take put in.
#[tactic(auto, unfolding(crate::specs::Footprints::is_passed))]
fn is_passed(
    alloc: Global,
    facts: &Known<'_>,
    edge: &EdgeFacts,
    waiting: &[Pending],
    region: RegisterId,
    zone: &Zone,
) -> Result<bool, Unanswered>
    ensures { IfOk result (λ b. b ≡ is_passed (with_facts facts.now edge.now) waiting.now region zone.now) }
{
    let y = as_written(zone);
    if is_empty(alloc, facts, &y)? {
        return Ok(true);
    }
    for item in waiting {
        let z = PlacedZone {
            object: item.zone.object,
            moves: edge.moves.as_slice(),
            zone: &item.zone,
        };
        if item.region.0 == region.0 && covers(alloc, facts, &z, &y)? {
            return Ok(true);
        }
    }
    Ok(false)
}

/// Whether each pending zone of the source that goes on along the edge is covered at the target.
fn are_passed(
    alloc: Global,
    facts: &Known<'_>,
    edge: &EdgeFacts,
    waiting: &[Pending],
    pending: &[Pending],
) -> Result<bool, Unanswered>
    ensures { IfOk result (λ b. b ≡ are_passed (with_facts facts.now edge.now) waiting.now pending.now) }
{
    for item in pending {
        if hands_on(edge.way, item.region)
            && !is_passed(alloc, facts, edge, waiting, item.region, &item.zone)?
        {
            return Ok(false);
        }
    }
    Ok(true)
}

/// Whether each zone of a new child's foot is covered at the continuation.
fn foot_passed(
    alloc: Global,
    facts: &Known<'_>,
    edge: &EdgeFacts,
    waiting: &[Pending],
    region: RegisterId,
    foot: &[Zone],
) -> Result<bool, Unanswered>
    ensures { IfOk result (λ b. b ≡ foot_passed (with_facts facts.now edge.now) waiting.now region foot.now) }
{
    for zone in foot {
        if !is_passed(alloc, facts, edge, waiting, region, zone)? {
            return Ok(false);
        }
    }
    Ok(true)
}

/// Whether a new child's foot is covered at the continuation; other edges owe nothing of it.
fn child_passed_on(
    alloc: Global,
    facts: &Known<'_>,
    blocks: &[Block],
    edge: &EdgeFacts,
    waiting: &[Pending],
    terminator: &Terminator,
) -> Result<bool, Unanswered>
    ensures { IfOk result (λ b. b ≡ child_passed_on blocks.now (with_facts facts.now edge.now) waiting.now edge.now.way terminator.now) }
{
    match edge.way {
        Way::Continued => match terminator {
            Terminator::Detach { region, .. } => {
                let foot = child_foot(blocks, terminator);
                foot_passed(alloc, facts, edge, waiting, *region, foot)
            }
            Terminator::Jump { .. }
            | Terminator::Branch { .. }
            | Terminator::Switch { .. }
            | Terminator::Return { .. }
            | Terminator::Reattach { .. }
            | Terminator::Sync { .. } => Ok(true),
        },
        Way::Branch | Way::Detached | Way::Synced(_) => Ok(true),
    }
}

/// Whether there may be something to cover at an edge's target. Where there is nothing, what is known there is not gathered.
fn has_passing(
    blocks: &[Block],
    pending: &[Pending],
    terminator: &Terminator,
    edge: &EdgeFacts,
) -> bool
    ensures { (known : List Fact) → result ≡ false → passes_on blocks.now pending.now terminator.now (with_known known edge.now) ≡ true }
{
    for item in pending {
        if hands_on(edge.way, item.region) {
            return true;
        }
    }
    !child_foot(blocks, terminator).is_empty()
}

/// Whether each pending zone of the source, and a new child's foot, is covered at an edge's target.
pub fn passes_on(
    alloc: Global,
    blocks: &[Block],
    facts: &mut FactBranches<'_>,
    pending: &[Pending],
    terminator: &Terminator,
    edge: &EdgeFacts,
) -> Result<bool, Unanswered>
    ensures lent { OnOk result (facts.new.0 ≡ facts.old.0) }
    ensures passed { IfOk result (λ b. b ≡ passes_on blocks.now pending.now terminator.now (with_known facts.old.0 edge.now)) }
{
    if !has_passing(blocks, pending, terminator, edge) {
        return Ok(true);
    }
    facts.switch_to(alloc, edge.facts.as_slice())?;
    let known = facts.known();
    let waiting = pending_of(blocks, edge.to);
    if !are_passed(alloc, &known, edge, waiting, pending)? {
        return Ok(false);
    }
    child_passed_on(alloc, &known, blocks, edge, waiting, terminator)
}
