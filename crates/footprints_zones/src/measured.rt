//! A place where many zones are asked for: the ends of all zones there are looked at once, so that most are compared by numbers.

ghost use Rattle.std.specs.Prelude.{◌≡◌, true, List, map, All, IsTrue, IfOk};
ghost use Rattle.linear.specs.declared.form.Fact.{Fact};
ghost use Rattle.std.specs.List.{list_any};
ghost use Rattle.program.specs.declared.annotation.Pending.{Pending as PendingKind};
ghost use Rattle.footprints_zones.specs.declared.measured.MeasuredZone.{MeasuredZone as MeasuredKind};
ghost use Rattle.footprints_zones.specs.Zones.{span, as_written, mode_covers, covers};
ghost use Rattle.program.specs.ObjectNames.{same_object};
ghost use Rattle.footprints_zones.specs.Meets.{meets};
ghost use Rattle.footprints_zones.specs.Places.{place_of, is_own, is_allowed, is_clear};
ghost use Rattle.footprints_zones.specs.Ends.{AreBounds, IsExtent, IsMeasured, zones_of};

use crate::bounds::{RegisterBounds, register_bounds};
use crate::extent::{Extent, begins_before, ends_after, extent_of, lie_apart};
use crate::place::{Place, as_written, is_own};
use crate::zone::{PlacedZone, is_covered, is_empty, meets, mode_covers};
use lists::OutOfMemory;
use program::{Pending, Zone, same_object};
use ranges::{Known, Unanswered};
use std::alloc::Global;
use std::marker::Model;

/// A zone in its own function, with its ends as numbers.
#[derive(Clone, Copy)]
pub struct MeasuredZone<'a> {
    pub zone: &'a Zone,
    pub extent: Extent,
}

/// A place, with the ends of its zones. Contracts see the place.
#[derive(Drop)]
pub struct MeasuredPlace<'a> {
    place: Place<'a>,
    bounds: Vec<RegisterBounds>,
    covering: Vec<MeasuredZone<'a>>,
    pending: Vec<MeasuredZone<'a>>,
}

impl<'a> Model for MeasuredPlace<'a> {
    ghost use Rattle.std.specs.Prelude.{◌≡◌, map, All};
    ghost use Rattle.program.specs.declared.annotation.Pending.{Pending as PendingKind};
    ghost use Rattle.footprints_zones.specs.Places.{Place as PlaceKind, place_of};
    ghost use Rattle.footprints_zones.specs.Ends.{AreBounds, IsMeasured, zones_of};

    ghost Value = { PlaceKind };

    ghost view = { λ m. place_of m.place.facts.now m.place.covering.now m.place.own m.place.pending.now };

    ghost invariant = { λ m.
        All (AreBounds m.place.facts.now) m.bounds.items
        × (zones_of m.covering.items ≡ m.place.covering.now)
        × All (IsMeasured m.place.facts.now) m.covering.items
        × (zones_of m.pending.items ≡ map (λ (q : PendingKind). q.zone) m.place.pending.now)
        × All (IsMeasured m.place.facts.now) m.pending.items };
}

/// A zone with its ends.
fn measured<'a>(bounds: &[RegisterBounds], zone: &'a Zone) -> MeasuredZone<'a>
    ensures zone { result.zone.now ≡ zone.now }
    ensures ends { (facts : List Fact) → All (AreBounds facts) bounds.now → IsMeasured facts result }
{
    MeasuredZone {
        zone,
        extent: extent_of(bounds, &as_written(zone)),
    }
}

/// The zones that are to cover what is touched, with their ends.
fn measured_zones<'a>(
    alloc: Global,
    bounds: &[RegisterBounds],
    zones: &'a [Zone],
) -> Result<Vec<MeasuredZone<'a>>, OutOfMemory>
    ensures zones { IfOk result (λ m. zones_of m.items ≡ zones.now) }
    ensures ends { (facts : List Fact) → All (AreBounds facts) bounds.now → IfOk result (λ m. All (IsMeasured facts) m.items) }
{
    let mut all = Vec::new(alloc);
    for zone in zones {
        let measured = measured(bounds, zone);
        all.push(measured)?;
    }
    Ok(all)
}

/// The zones that are pending, with their ends.
fn measured_pending<'a>(
    alloc: Global,
    bounds: &[RegisterBounds],
    pending: &'a [Pending],
) -> Result<Vec<MeasuredZone<'a>>, OutOfMemory>
    ensures zones { IfOk result (λ m. zones_of m.items ≡ map (λ (q : PendingKind). q.zone) pending.now) }
    ensures ends { (facts : List Fact) → All (AreBounds facts) bounds.now → IfOk result (λ m. All (IsMeasured facts) m.items) }
{
    let mut all = Vec::new(alloc);
    for item in pending {
        all.push(measured(bounds, &item.zone))?;
    }
    Ok(all)
}

/// Whether a zone may cover `y` by its object and mode.
#[inline(always)]
fn is_of_kind(zone: &Zone, y: &PlacedZone<'_>) -> bool
    ensures object { IsTrue result → same_object zone.now.object y.now.object ≡ true }
    ensures mode { IsTrue result → mode_covers zone.now.mode y.now.zone.now.mode ≡ true }
{
    same_object(zone.object, y.object) && mode_covers(zone.mode, y.zone.mode)
}

/// Whether a zone covers `y` by numbers alone: where it begins is compared first.
#[inline(always)]
fn covers_by_start(measured: &MeasuredZone<'_>, y: &PlacedZone<'_>, extent: &Extent) -> bool
    ensures { (facts : List Fact) → IsMeasured facts measured.now → IsExtent facts (span y.now.object y.now.moves.now y.now.zone.now) extent.now
        → IsTrue result → covers facts (as_written measured.now.zone.now) (span y.now.object y.now.moves.now y.now.zone.now) ≡ true }
{
    if !is_of_kind(measured.zone, y) {
        return false;
    }
    if !begins_before(&measured.extent, extent) {
        return false;
    }
    ends_after(&measured.extent, extent)
}

/// Whether a zone covers `y` by numbers alone: where it ends is compared first.
#[inline(always)]
fn covers_by_end(measured: &MeasuredZone<'_>, y: &PlacedZone<'_>, extent: &Extent) -> bool
    ensures { (facts : List Fact) → IsMeasured facts measured.now → IsExtent facts (span y.now.object y.now.moves.now y.now.zone.now) extent.now
        → IsTrue result → covers facts (as_written measured.now.zone.now) (span y.now.object y.now.moves.now y.now.zone.now) ≡ true }
{
    if !is_of_kind(measured.zone, y) {
        return false;
    }
    if !ends_after(&measured.extent, extent) {
        return false;
    }
    begins_before(&measured.extent, extent)
}

/// Whether one of the zones covers `y` by numbers alone, of whose ends the first ones are compared first.
#[tactic(auto, using(crate::proofs::Numbers::one_covers))]
fn one_covers_by_start(zones: &[MeasuredZone<'_>], y: &PlacedZone<'_>, extent: &Extent) -> bool
    ensures { (facts : List Fact) → All (IsMeasured facts) zones.now → IsExtent facts (span y.now.object y.now.moves.now y.now.zone.now) extent.now
        → IsTrue result → list_any (λ (m : MeasuredKind). covers facts (as_written m.zone.now) (span y.now.object y.now.moves.now y.now.zone.now)) zones.now ≡ true }
{
    for zone in zones {
        if covers_by_start(zone, y, extent) {
            return true;
        }
    }
    false
}

/// Whether one of the zones covers `y` by numbers alone, of whose ends the last ones are compared first.
#[tactic(auto, using(crate::proofs::Numbers::one_covers))]
fn one_covers_by_end(zones: &[MeasuredZone<'_>], y: &PlacedZone<'_>, extent: &Extent) -> bool
    ensures { (facts : List Fact) → All (IsMeasured facts) zones.now → IsExtent facts (span y.now.object y.now.moves.now y.now.zone.now) extent.now
        → IsTrue result → list_any (λ (m : MeasuredKind). covers facts (as_written m.zone.now) (span y.now.object y.now.moves.now y.now.zone.now)) zones.now ≡ true }
{
    for zone in zones {
        if covers_by_end(zone, y, extent) {
            return true;
        }
    }
    false
}

/// Whether the first zone begins at or before `y`, so that it ends too soon if it does not cover `y`.
fn may_end_too_soon(zones: &[MeasuredZone<'_>], extent: &Extent) -> bool {
    match zones.first() {
        Some(zone) => begins_before(&zone.extent, extent),
        None => false,
    }
}

/// Whether one of the zones covers `y` by numbers alone. Of many most fail at the same end as the first one, so that end is compared first.
fn one_covers(zones: &[MeasuredZone<'_>], y: &PlacedZone<'_>, extent: &Extent) -> bool
    ensures { (facts : List Fact) → All (IsMeasured facts) zones.now → IsExtent facts (span y.now.object y.now.moves.now y.now.zone.now) extent.now
        → IsTrue result → list_any (λ (m : MeasuredKind). covers facts (as_written m.zone.now) (span y.now.object y.now.moves.now y.now.zone.now)) zones.now ≡ true }
{
    if may_end_too_soon(zones, extent) {
        one_covers_by_end(zones, y, extent)
    } else {
        one_covers_by_start(zones, y, extent)
    }
}

/// Whether a zone conflicts with `y`, if `y` has any cell. Where numbers alone keep them apart no more is asked.
#[inline(always)]
fn meets_measured(
    alloc: Global,
    facts: &Known<'_>,
    measured: &MeasuredZone<'_>,
    y: &PlacedZone<'_>,
    extent: &Extent,
) -> Result<bool, Unanswered>
    requires zone { IsMeasured facts.now measured.now }
    requires extent { IsExtent facts.now (span y.now.object y.now.moves.now y.now.zone.now) extent.now }
    ensures { IfOk result (λ b. b ≡ meets facts.now (as_written measured.now.zone.now) (span y.now.object y.now.moves.now y.now.zone.now)) }
{
    if lie_apart(&measured.extent, extent) {
        return Ok(false);
    }
    meets(alloc, facts, &as_written(measured.zone), y)
}

/// Whether one of the zones conflicts with `y`, if `y` has any cell.
fn one_meets(
    alloc: Global,
    facts: &Known<'_>,
    zones: &[MeasuredZone<'_>],
    y: &PlacedZone<'_>,
    extent: &Extent,
) -> Result<bool, Unanswered>
    requires zones { All (IsMeasured facts.now) zones.now }
    requires extent { IsExtent facts.now (span y.now.object y.now.moves.now y.now.zone.now) extent.now }
    ensures { IfOk result (λ b. b ≡ list_any (λ (m : MeasuredKind). meets facts.now (as_written m.zone.now) (span y.now.object y.now.moves.now y.now.zone.now)) zones.now) }
{
    for zone in zones {
        if meets_measured(alloc, facts, zone, y, extent)? {
            return Ok(true);
        }
    }
    Ok(false)
}

impl<'a> MeasuredPlace<'a> {
    /// Looks at the ends of all zones at a place.
    pub fn new(alloc: Global, place: &Place<'a>) -> Result<MeasuredPlace<'a>, OutOfMemory>
        ensures { IfOk result (λ m. m ≡ place_of place.now.facts.now place.now.covering.now place.now.own place.now.pending.now) }
    {
        let bounds = register_bounds(alloc, place.facts.facts())?;
        let covering = measured_zones(alloc, bounds.as_slice(), place.covering)?;
        let pending = measured_pending(alloc, bounds.as_slice(), place.pending)?;
        Ok(MeasuredPlace {
            place: *place,
            bounds,
            covering,
            pending,
        })
    }

    /// Whether what is touched needs no cover, or has one.
    #[tactic(auto, unfolding(crate::specs::Places::is_allowed))]
    pub fn is_allowed(&self, alloc: Global, y: &PlacedZone<'_>) -> Result<bool, Unanswered>
        ensures { IfOk result (λ b. b ≡ is_allowed self.now (span y.now.object y.now.moves.now y.now.zone.now)) }
    {
        if is_own(self.place.own, y.object) {
            return Ok(true);
        }
        let extent = extent_of(self.bounds.as_slice(), y);
        if one_covers(self.covering.as_slice(), y, &extent) {
            return Ok(true);
        }
        is_covered(alloc, self.place.facts, self.place.covering, y)
    }

    /// Whether nothing that is pending conflicts with it.
    pub fn is_clear(&self, alloc: Global, y: &PlacedZone<'_>) -> Result<bool, Unanswered>
        ensures { IfOk result (λ b. b ≡ is_clear self.now (span y.now.object y.now.moves.now y.now.zone.now)) }
    {
        let extent = extent_of(self.bounds.as_slice(), y);
        if !one_meets(alloc, self.place.facts, self.pending.as_slice(), y, &extent)? {
            return Ok(true);
        }
        is_empty(alloc, self.place.facts, y)
    }
}
