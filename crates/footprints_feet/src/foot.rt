//! Rules 602 and 604 of several zones at once: a new child's `foot` (its footprint, zone by zone), and a callee's
//! zones.

ghost use Rattle.std.specs.Prelude.{◌≡◌, IfOk};
ghost use Rattle.footprints_zones.specs.Zones.{span};
ghost use Rattle.footprints_zones.specs.Places.{place_of};
ghost use Rattle.footprints_feet.specs.Feet.{no_use, foot_use};
ghost use Rattle.footprints_feet.specs.Used.{zone_use, joined_use};

use footprints_zones::{MeasuredPlace, Place, PlacedZone, Unanswered, Use, as_written};
use program::Zone;
use refusal::rule;
use std::alloc::Global;

/// 604: of what touches no cell.
pub fn no_use() -> Use
    ensures { result ≡ no_use }
{
    Use {
        number: rule::UNCOVERED_ZONE,
        covered: true,
        clear: true,
    }
}

/// 604: of what is touched in one zone.
pub fn zone_use(
    alloc: Global,
    place: &MeasuredPlace<'_>,
    y: &PlacedZone<'_>,
) -> Result<Use, Unanswered>
    ensures { IfOk result (λ u. u ≡ zone_use place.now (span y.now.object y.now.moves.now y.now.zone.now)) }
{
    Ok(Use {
        number: rule::UNCOVERED_ZONE,
        covered: place.is_allowed(alloc, y)?,
        clear: place.is_clear(alloc, y)?,
    })
}

/// Of what two parts touch, by the rule of the first.
pub fn joined_use(one: Use, other: Use) -> Use
    ensures { result ≡ joined_use one other }
{
    Use {
        number: one.number,
        covered: one.covered && other.covered,
        clear: one.clear && other.clear,
    }
}

/// 604: of a new child, a foot with some zones.
#[tactic(auto, using(crate::proofs::Zones::foot_use_more))]
fn zones_use(alloc: Global, place: &MeasuredPlace<'_>, foot: &[Zone]) -> Result<Use, Unanswered>
    ensures { IfOk result (λ u. u ≡ foot_use place.now foot.now) }
{
    let mut all = no_use();
    for zone in foot {
        let one = zone_use(alloc, place, &as_written(zone))?;
        all = joined_use(all, one);
    }
    Ok(all)
}

/// 604: of a new child, its foot.
pub fn foot_use(alloc: Global, place: &Place<'_>, foot: &[Zone]) -> Result<Use, Unanswered>
    ensures { IfOk result (λ u. u ≡ foot_use (place_of place.now.facts.now place.now.covering.now place.now.own place.now.pending.now) foot.now) }
{
    if foot.is_empty() {
        return Ok(no_use());
    }
    let place = MeasuredPlace::new(alloc, place)?;
    zones_use(alloc, &place, foot)
}
