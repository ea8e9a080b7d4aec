//! Which regions of two lists are in both (intersection): what an edge leaves of where an alloca is due.

ghost use Rattle.std.specs.Prelude.{◌≡◌, IfOk};
ghost use Rattle.std.specs.List.{filter, list_all};
ghost use Rattle.definedness_allocas.specs.Sets.{has, due_in, label_at};
ghost use Rattle.definedness.specs.Settling.{due_and_given};

use definedness_allocas::{Label, Sets, is_among};
use program::RegisterId;
use std::alloc::{AllocError, Global};

/// Whether a region is listed. Looks at this place first.
fn is_found(regions: &[RegisterId], place: usize, region: RegisterId) -> bool
    ensures { result ≡ has regions.now region }
{
    if let Some(its) = regions.get(place) {
        if its.0 == region.0 {
            return true;
        }
    }
    is_among(regions, region)
}

/// Whether all regions of a list are in the other. Takes time in proportion to the list where the other begins with it.
fn are_among(left: &[RegisterId], right: &[RegisterId]) -> bool
    ensures { result ≡ list_all (has right.now) left.now }
{
    for (place, its) in left.iter().enumerate() {
        if !is_found(right, place, *its) {
            return false;
        }
    }
    true
}

/// The regions of both lists. Takes time in proportion to the lists where they are the same.
fn both(
    alloc: Global,
    left: &[RegisterId],
    right: &[RegisterId],
) -> Result<Vec<RegisterId>, AllocError>
    ensures { IfOk result (λ kept. kept.items ≡ filter (λ its. has right.now its) left.now) }
{
    let mut kept: Vec<RegisterId> = Vec::new(alloc);
    for (place, its) in left.iter().enumerate() {
        if is_found(right, place, *its) {
            kept.push(*its)?;
        }
    }
    Ok(kept)
}

/// Whether all regions in whose sets an alloca is at the start of a block, where it is not sure, are given.
pub fn is_given(sets: &Sets, block: usize, given: &[RegisterId]) -> bool
    ensures { result ≡ list_all (has given.now) (due_in (label_at sets.now block)) }
{
    match sets.labels.get(block) {
        Some(Label::Due(regions)) => are_among(regions.as_slice(), given),
        Some(Label::Sure) => true,
        None => true,
    }
}

/// Those of them that are given.
pub fn copy_given(
    alloc: Global,
    sets: &Sets,
    block: usize,
    given: &[RegisterId],
) -> Result<Vec<RegisterId>, AllocError>
    ensures { IfOk result (λ regions. regions.items ≡ due_and_given sets.now block given.now) }
{
    match sets.labels.get(block) {
        Some(Label::Due(regions)) => both(alloc, regions.as_slice(), given),
        Some(Label::Sure) => Ok(Vec::new(alloc)),
        None => Ok(Vec::new(alloc)),
    }
}
