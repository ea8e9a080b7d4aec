//! Zones of cells (array regions): which covers which, which are disjoint, and which conflict (may alias).

ghost use Rattle.std.specs.Prelude.{◌≡◌, ◌||◌, IfOk};
ghost use Rattle.std.specs.List.{list_any};
ghost use Rattle.footprints_zones.specs.Zones.{span, as_written, mode_covers, modes_agree};
ghost use Rattle.program.specs.ObjectNames.{same_object};
ghost use Rattle.footprints_zones.specs.Zones.{shows_order, is_empty, covers, is_apart, conflict, is_covered};
ghost use Rattle.footprints_zones.specs.Meets.{meets};

use crate::order::{may_precede, shows_order};
use program::{Mode, ObjectName, Zone, same_object};
use ranges::{Known, Move, Unanswered};
use std::alloc::Global;

/// A zone at a place: the object that it is of there, and the operands that stand for its registers there.
#[derive(Clone, Copy)]
pub struct PlacedZone<'a> {
    pub object: ObjectName,
    pub moves: &'a [Move],
    pub zone: &'a Zone,
}

/// Whether a zone of this mode lets its cells be used by that mode: `writes` by every mode, any other only by its own.
#[inline]
pub fn mode_covers(cover: Mode, covered: Mode) -> bool
    ensures { result ≡ mode_covers cover covered }
{
    match (cover, covered) {
        (Mode::Writes, _) | (Mode::Reads, Mode::Reads) | (Mode::Adds, Mode::Adds) => true,
        (Mode::Reads, Mode::Writes | Mode::Adds) | (Mode::Adds, Mode::Reads | Mode::Writes) => {
            false
        }
    }
}

/// Whether uses of one cell in any order come to the same: two reads, or two adds.
#[inline]
pub fn modes_agree(left: Mode, right: Mode) -> bool
    ensures { result ≡ modes_agree left right }
{
    match (left, right) {
        (Mode::Reads, Mode::Reads) | (Mode::Adds, Mode::Adds) => true,
        (Mode::Writes, _)
        | (Mode::Reads, Mode::Writes | Mode::Adds)
        | (Mode::Adds, Mode::Reads | Mode::Writes) => false,
    }
}

/// Whether a zone is shown to have no cell.
#[inline(always)]
#[tactic(auto, unfolding(crate::specs::Zones::is_empty))]
pub fn is_empty(alloc: Global, facts: &Known<'_>, z: &PlacedZone<'_>) -> Result<bool, Unanswered>
    ensures { IfOk result (λ b. b ≡ is_empty facts.now (span z.now.object z.now.moves.now z.now.zone.now)) }
{
    shows_order(alloc, facts, z.moves, &z.zone.low, z.moves, &z.zone.high)
}

/// Whether `z` is shown to have each cell of `y`, for each use that `y` has them for.
#[inline(always)]
#[tactic(auto, unfolding(crate::specs::Zones::covers))]
pub fn covers(
    alloc: Global,
    facts: &Known<'_>,
    z: &PlacedZone<'_>,
    y: &PlacedZone<'_>,
) -> Result<bool, Unanswered>
    ensures { IfOk result (λ b. b ≡ covers facts.now (span z.now.object z.now.moves.now z.now.zone.now) (span y.now.object y.now.moves.now y.now.zone.now)) }
{
    if !same_object(z.object, y.object) {
        return Ok(false);
    }
    if !mode_covers(z.zone.mode, y.zone.mode) {
        return Ok(false);
    }
    if !shows_order(alloc, facts, y.moves, &y.zone.low, z.moves, &z.zone.low)? {
        return Ok(false);
    }
    shows_order(alloc, facts, z.moves, &z.zone.high, y.moves, &y.zone.high)
}

/// Whether the first zone is shown to end at or before the low end of the second.
fn is_before(
    alloc: Global,
    facts: &Known<'_>,
    first: &PlacedZone<'_>,
    second: &PlacedZone<'_>,
) -> Result<bool, Unanswered>
    ensures { IfOk result (λ b. b ≡ shows_order facts.now second.now.moves.now second.now.zone.now.low first.now.moves.now first.now.zone.now.high) }
{
    shows_order(
        alloc,
        facts,
        second.moves,
        &second.zone.low,
        first.moves,
        &first.zone.high,
    )
}

/// Whether the ends of two zones of one object show that they have no cell in common.
#[inline(always)]
fn is_beside(
    alloc: Global,
    facts: &Known<'_>,
    z: &PlacedZone<'_>,
    y: &PlacedZone<'_>,
) -> Result<bool, Unanswered>
    ensures { IfOk result (λ b. b ≡ (
        shows_order facts.now z.now.moves.now z.now.zone.now.low y.now.moves.now y.now.zone.now.high
        || shows_order facts.now y.now.moves.now y.now.zone.now.low z.now.moves.now z.now.zone.now.high)) }
{
    if may_precede(z.moves, &z.zone.high, y.moves, &y.zone.low) && is_before(alloc, facts, z, y)? {
        return Ok(true);
    }
    if shows_order(alloc, facts, z.moves, &z.zone.low, y.moves, &y.zone.high)? {
        return Ok(true);
    }
    shows_order(alloc, facts, y.moves, &y.zone.low, z.moves, &z.zone.high)
}

/// Whether two zones are shown to have no cell in common.
#[tactic(auto, unfolding(crate::specs::Zones::is_apart))]
pub fn is_apart(
    alloc: Global,
    facts: &Known<'_>,
    z: &PlacedZone<'_>,
    y: &PlacedZone<'_>,
) -> Result<bool, Unanswered>
    ensures { IfOk result (λ b. b ≡ is_apart facts.now (span z.now.object z.now.moves.now z.now.zone.now) (span y.now.object y.now.moves.now y.now.zone.now)) }
{
    if !same_object(z.object, y.object) {
        return Ok(true);
    }
    if is_beside(alloc, facts, z, y)? {
        return Ok(true);
    }
    if is_empty(alloc, facts, z)? {
        return Ok(true);
    }
    is_empty(alloc, facts, y)
}

/// Whether two zones may have a cell in common, and the order of its uses may matter.
#[tactic(auto, unfolding(crate::specs::Zones::conflict))]
pub fn conflict(
    alloc: Global,
    facts: &Known<'_>,
    z: &PlacedZone<'_>,
    y: &PlacedZone<'_>,
) -> Result<bool, Unanswered>
    ensures { IfOk result (λ b. b ≡ conflict facts.now (span z.now.object z.now.moves.now z.now.zone.now) (span y.now.object y.now.moves.now y.now.zone.now)) }
{
    if modes_agree(z.zone.mode, y.zone.mode) {
        return Ok(false);
    }
    Ok(!is_apart(alloc, facts, z, y)?)
}

/// Whether two zones may have a cell in common, where `y` has any, and the order of its uses may matter. Few pairs get as far as the question
/// whether `z` is empty, and who asks of many zones beside one `y` asks once whether that is.
#[inline(always)]
#[tactic(auto, unfolding(crate::specs::Meets::meets))]
pub fn meets(
    alloc: Global,
    facts: &Known<'_>,
    z: &PlacedZone<'_>,
    y: &PlacedZone<'_>,
) -> Result<bool, Unanswered>
    ensures { IfOk result (λ b. b ≡ meets facts.now (span z.now.object z.now.moves.now z.now.zone.now) (span y.now.object y.now.moves.now y.now.zone.now)) }
{
    if modes_agree(z.zone.mode, y.zone.mode) || !same_object(z.object, y.object) {
        return Ok(false);
    }
    if is_beside(alloc, facts, z, y)? {
        return Ok(false);
    }
    Ok(!is_empty(alloc, facts, z)?)
}

/// Whether one of the zones covers `y`.
fn one_covers(
    alloc: Global,
    facts: &Known<'_>,
    zones: &[Zone],
    y: &PlacedZone<'_>,
) -> Result<bool, Unanswered>
    ensures { IfOk result (λ b. b ≡ list_any (λ z. covers facts.now (as_written z) (span y.now.object y.now.moves.now y.now.zone.now)) zones.now) }
{
    for zone in zones {
        let z = PlacedZone {
            object: zone.object,
            moves: &[],
            zone,
        };
        if covers(alloc, facts, &z, y)? {
            return Ok(true);
        }
    }
    Ok(false)
}

/// Whether one of the zones covers `y`, or `y` is shown to be empty. Most zones that are asked for are covered, and few are empty.
#[tactic(auto, unfolding(crate::specs::Zones::is_covered))]
pub fn is_covered(
    alloc: Global,
    facts: &Known<'_>,
    zones: &[Zone],
    y: &PlacedZone<'_>,
) -> Result<bool, Unanswered>
    ensures { IfOk result (λ b. b ≡ is_covered facts.now zones.now (span y.now.object y.now.moves.now y.now.zone.now)) }
{
    if one_covers(alloc, facts, zones, y)? {
        return Ok(true);
    }
    is_empty(alloc, facts, y)
}
