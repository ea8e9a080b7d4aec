//! Where zones lie, by numbers: bounds of their ends (interval of cells).

ghost use Rattle.std.specs.Prelude.{◌≡◌, ◌||◌, true, List, All, IsTrue, IfSome};
ghost use Rattle.linear.specs.declared.form.Fact.{Fact};
ghost use Rattle.linear.specs.Terms.{Combination};
ghost use Rattle.ranges.specs.cfg.declared.structure.Move.{Move as MoveKind};
ghost use Rattle.footprints_zones.specs.Zones.{Span, span, shows_order};
ghost use Rattle.footprints_zones.specs.Ends.{AreBounds, IsEnd, IsExtent};

use crate::bounds::RegisterBounds;
use crate::ends::{End, end_of, is_at_least};
use crate::zone::PlacedZone;

/// The ends of a zone at a place, as far as they are known.
#[derive(Clone, Copy)]
pub struct Extent {
    pub low: Option<End>,
    pub high: Option<End>,
}

/// The ends of a zone, by bounds of the registers that they name.
pub fn extent_of(bounds: &[RegisterBounds], zone: &PlacedZone<'_>) -> Extent
    ensures { (facts : List Fact) → All (AreBounds facts) bounds.now → IsExtent facts (span zone.now.object zone.now.moves.now zone.now.zone.now) result }
{
    Extent {
        low: end_of(bounds, zone.moves, &zone.zone.low),
        high: end_of(bounds, zone.moves, &zone.zone.high),
    }
}

/// Whether numbers say that one end lies at or after another, where both are known.
#[inline(always)]
fn are_in_order(high: &Option<End>, low: &Option<End>) -> bool
    ensures { (facts : List Fact) (for_high : List MoveKind) (high_form : Combination) (for_low : List MoveKind) (low_form : Combination)
        → IfSome high.now (IsEnd facts for_high high_form) → IfSome low.now (IsEnd facts for_low low_form)
        → IsTrue result → shows_order facts for_high high_form for_low low_form ≡ true }
{
    match (high, low) {
        (Some(high), Some(low)) => is_at_least(high, low),
        (Some(_), None) | (None, Some(_) | None) => false,
    }
}

/// Whether numbers say that two zones of one object have no cell in common.
#[inline(always)]
pub fn lie_apart(z: &Extent, y: &Extent) -> bool
    ensures { (facts : List Fact) (a b : Span) → IsExtent facts a z.now → IsExtent facts b y.now
        → IsTrue result → (shows_order facts a.moves a.zone.low b.moves b.zone.high || shows_order facts b.moves b.zone.low a.moves a.zone.high) ≡ true }
{
    are_in_order(&y.low, &z.high) || are_in_order(&z.low, &y.high)
}

/// Whether numbers say that one zone begins at or before another one of its object.
#[inline(always)]
pub fn begins_before(z: &Extent, y: &Extent) -> bool
    ensures { (facts : List Fact) (a b : Span) → IsExtent facts a z.now → IsExtent facts b y.now
        → IsTrue result → shows_order facts b.moves b.zone.low a.moves a.zone.low ≡ true }
{
    are_in_order(&y.low, &z.low)
}

/// Whether numbers say that one zone ends at or after another one of its object.
#[inline(always)]
pub fn ends_after(z: &Extent, y: &Extent) -> bool
    ensures { (facts : List Fact) (a b : Span) → IsExtent facts a z.now → IsExtent facts b y.now
        → IsTrue result → shows_order facts a.moves a.zone.high b.moves b.zone.high ≡ true }
{
    are_in_order(&z.high, &y.high)
}
