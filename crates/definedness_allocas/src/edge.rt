//! What an edge gives its target of where an alloca has a value (the transfer function of the analysis).

ghost use Rattle.std.specs.Prelude.{◌≡◌, ◌⊎◌, ◌↔◌, ◌+◌, ◌<◌, ◌≤◌, Option, Some, true, false, length, IsTrue, IfOk, slice_index_or};
ghost use Rattle.linear.specs.declared.form.RegisterId.{RegisterId};
ghost use Rattle.definedness_allocas.specs.Sets.{has, due_in, label_in, label_at, label_of, count_sure, IsHeldBy, IsOver, IsJoined, EdgeGives, IsFit};

use crate::fork::Fork;
use crate::sets::{Label, Sets, add_region};
use cfg::Way;
use lists::Seq;
use program::RegisterId;
use std::alloc::{AllocError, Global};

/// Whether a block stores the alloca.
pub fn is_stored(stops: &[bool], block: usize) -> bool
    ensures { result ≡ slice_index_or stops.now block false }
{
    match stops.get(block) {
        Some(mark) => *mark,
        None => false,
    }
}

/// Whether the alloca is in the set of a region at the end of a block.
fn is_held(sets: &Sets, stops: &[bool], region: Option<RegisterId>, block: usize) -> bool
    ensures { IsTrue result ↔ IsHeldBy stops.now (label_of sets.now) region block }
{
    sets.is_in(None, block) || sets.is_in(region, block) || is_stored(stops, block)
}

/// Whether a block ends with a sync behind which the alloca is sure.
fn is_over(sets: &Sets, stops: &[bool], from: usize, way: Way) -> bool
    ensures { IsTrue result ↔ IsOver stops.now (label_of sets.now) from way }
{
    match way {
        Way::Synced(its) => is_held(sets, stops, Some(its), from),
        Way::Branch | Way::Detached | Way::Continued => false,
    }
}

/// The region of a detach whose child brings the alloca into the region's set, along its continuation.
fn joined(sets: &Sets, stops: &[bool], forks: &[Fork], from: usize, way: Way) -> Option<RegisterId>
    requires fit { IsFit stops.now forks.now (length sets.now.labels.items) sets.now }
    requires within { from < length sets.now.labels.items }
    ensures { (region : RegisterId) → (result ≡ Some region) ↔ IsJoined stops.now forks.now (label_of sets.now) from way region }
{
    match way {
        Way::Continued => match forks.get(from) {
            Some(fork) => {
                if sets.is_lacking(from) {
                    None
                } else {
                    fork.region
                }
            }
            None => None,
        },
        Way::Branch | Way::Detached | Way::Synced(_) => None,
    }
}

/// The regions that an edge gives, where it does not give all.
fn regions_along(
    alloc: Global,
    sets: &Sets,
    stops: &[bool],
    forks: &[Fork],
    from: usize,
    way: Way,
) -> Result<Vec<RegisterId>, AllocError>
    requires fit { IsFit stops.now forks.now (length sets.now.labels.items) sets.now }
    requires within { from < length sets.now.labels.items }
    ensures few { IfOk result (λ regions. length regions.items ≤ length (due_in (label_at sets.now from)) + 1) }
    ensures exact { IfOk result (λ regions. (r : RegisterId)
        → (has regions.items r ≡ true)
        ↔ ((has (due_in (label_at sets.now from)) r ≡ true) ⊎ IsJoined stops.now forks.now (label_of sets.now) from way r)) }
{
    let mut regions = sets.copy_due(alloc, from)?;
    if let Some(region) = joined(sets, stops, forks, from, way) {
        add_region(&mut regions, region)?;
    }
    Ok(regions)
}

/// What an edge gives its target, out of the labels as they are.
pub fn label_along(
    alloc: Global,
    sets: &Sets,
    stops: &[bool],
    forks: &[Fork],
    from: usize,
    way: Way,
) -> Result<Label, AllocError>
    requires fit { IsFit stops.now forks.now (length sets.now.labels.items) sets.now }
    requires within { from < length sets.now.labels.items }
    ensures few { IfOk result (λ given. count_sure sets.now + length (due_in given) ≤ length sets.now.labels.items + 1) }
    ensures exact { IfOk result (λ given. (k : Option RegisterId) → (label_in given k ≡ true) ↔ EdgeGives stops.now forks.now (label_of sets.now) k from way) }
{
    if is_held(sets, stops, None, from) || is_over(sets, stops, from, way) {
        return Ok(Label::Sure);
    }
    let regions = regions_along(alloc, sets, stops, forks, from, way)?;
    Ok(Label::Due(Seq::from_vec(regions)))
}
