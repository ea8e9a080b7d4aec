//! A place of a block: what is touched there is covered by a zone, and conflicts with nothing that is pending.

ghost use Rattle.std.specs.Prelude.{◌≡◌, [], IfOk};
ghost use Rattle.std.specs.List.{list_any};
ghost use Rattle.program.specs.declared.annotation.Pending.{Pending as PendingKind};
ghost use Rattle.footprints_zones.specs.Zones.{span, as_written};
ghost use Rattle.footprints_zones.specs.Meets.{meets};
ghost use Rattle.footprints_zones.specs.Places.{place_of, is_own, is_allowed, is_clear};

use crate::zone::{PlacedZone, is_covered, is_empty, meets};
use lists::OutOfMemory;
use program::{ObjectName, Pending, Zone};
use ranges::{FactCursor, Known, Unanswered};
use std::alloc::Global;

/// What is known at a place, the zones that must cover what is touched there, whether it is one of the function's own blocks, whose accesses of
/// the function's own allocas need no cover, and what is pending.
#[derive(Clone, Copy)]
pub struct Place<'a> {
    pub facts: &'a Known<'a>,
    pub covering: &'a [Zone],
    pub own: bool,
    pub pending: &'a [Pending],
}

/// Whether what a step or a terminator touches is covered, by the rule of this number, and clear of what is pending.
#[derive(Clone, Copy)]
pub struct Use {
    pub number: u16,
    pub covered: bool,
    pub clear: bool,
}

/// Brings the index of what is known up to date, where questions are to come.
pub fn index_for(cursor: &mut FactCursor<'_>, is_asked: bool) -> Result<(), OutOfMemory>
    ensures { cursor.new ≡ cursor.old }
{
    if is_asked {
        cursor.index()?;
    }
    Ok(())
}

/// A zone in its own function.
#[inline]
pub fn as_written(zone: &Zone) -> PlacedZone<'_>
    ensures object { result.object ≡ zone.now.object }
    ensures moves { result.moves.now ≡ [] }
    ensures zone { result.zone.now ≡ zone.now }
{
    PlacedZone {
        object: zone.object,
        moves: &[],
        zone,
    }
}

/// An alloca of the function in one of its own blocks.
pub fn is_own(own: bool, object: ObjectName) -> bool
    ensures { result ≡ is_own own object }
{
    match object {
        ObjectName::Alloca(_) => own,
        ObjectName::Global(_) | ObjectName::Parameter(_) => false,
    }
}

/// Whether what is touched needs no cover, or has one.
#[tactic(auto, unfolding(crate::specs::Places::is_allowed))]
pub fn is_allowed(alloc: Global, place: &Place<'_>, y: &PlacedZone<'_>) -> Result<bool, Unanswered>
    ensures { IfOk result (λ b. b ≡ is_allowed
        (place_of place.now.facts.now place.now.covering.now place.now.own place.now.pending.now)
        (span y.now.object y.now.moves.now y.now.zone.now)) }
{
    if is_own(place.own, y.object) {
        return Ok(true);
    }
    is_covered(alloc, place.facts, place.covering, y)
}

/// Whether something that is pending conflicts with `y`, if `y` has any cell.
fn one_meets(
    alloc: Global,
    facts: &Known<'_>,
    pending: &[Pending],
    y: &PlacedZone<'_>,
) -> Result<bool, Unanswered>
    ensures { IfOk result (λ b. b ≡ list_any (λ (q : PendingKind). meets facts.now (as_written q.zone) (span y.now.object y.now.moves.now y.now.zone.now)) pending.now) }
{
    for item in pending {
        if meets(alloc, facts, &as_written(&item.zone), y)? {
            return Ok(true);
        }
    }
    Ok(false)
}

/// Whether nothing that is pending conflicts with it. Few zones meet what is pending, and only of those it is asked whether they are empty.
#[tactic(auto, using(crate::proofs::Clears::clear_unless_met))]
pub fn is_clear(alloc: Global, place: &Place<'_>, y: &PlacedZone<'_>) -> Result<bool, Unanswered>
    ensures { IfOk result (λ b. b ≡ is_clear
        (place_of place.now.facts.now place.now.covering.now place.now.own place.now.pending.now)
        (span y.now.object y.now.moves.now y.now.zone.now)) }
{
    if !one_meets(alloc, place.facts, place.pending, y)? {
        return Ok(true);
    }
    is_empty(alloc, place.facts, y)
}
