//! The frames of a strand as they are to stand in the cactus, with paths, counts and runners.

ghost use Rattle.std.specs.Prelude.{◌≡◌, ◌+◌, ◌-◌, ◌++◌, ◌∷◌, [], ◌^◌, ◌≤◌, ◌<◌, ℕ, IfOk, Some, length, slice_get, suc};
ghost use Rattle.std.specs.Option.{option_copied};
ghost use Rattle.linear.specs.declared.form.RegisterId.{RegisterId};
ghost use Rattle.program.specs.declared.identifier.BlockId.{BlockId};
ghost use Rattle.cactus.specs.declared.node.Link.{Link as ReadyLink};
ghost use Rattle.schedule_workers.specs.declared.activation.Activation.{Activation as Living};
ghost use Rattle.schedule_workers.specs.Scheduling.{counted_in};
ghost use Rattle.schedule_commit.specs.strands.Linking.{AreLinks, IsFrameOf, RegionsFit, counted_of, frames_of};

use cactus::{Cactus, Link};
use frame::{Path, Role};
use frame_engine::Frame;
use lists::{OutOfMemory, Seq};
use schedule_workers::{Activation, frame_copy_in};
use std::alloc::Global;
use std::mem::replace;
use strand::Strand;
use sync_join::RegionCounts;

/// Lists for a frame and its path, whatever they hold.
#[derive(Drop)]
struct Lists {
    numbers: Vec<u64>,
    registers: Vec<i64>,
    counts: RegionCounts,
}

impl Lists {
    /// Those of a frame that is gone, where one was kept.
    fn of_gone(alloc: Global, cactus: &mut Cactus<Activation>) -> Lists
        ensures { cactus.new ≡ cactus.old }
    {
        let Some(mut gone) = cactus.reuse() else {
            return Lists {
                numbers: Vec::new(alloc),
                registers: Vec::new(alloc),
                counts: RegionCounts::new(alloc),
            };
        };
        Lists {
            numbers: replace(&mut gone.path.numbers, Seq::new(alloc)).into_vec(),
            registers: gone.frame.frame.registers,
            counts: gone.frame.counts,
        }
    }
}

/// The path of the child of this number of the frame at a path, in the list.
fn child_path_in(mut list: Vec<u64>, path: &[u64], number: u64) -> Result<Path, OutOfMemory>
    ensures { IfOk result (λ child. child.numbers ≡ path.now ++ number ∷ []) }
{
    list.clear();
    list.reserve(path.len().saturating_add(1))?;
    list.extend_from_slice(path)?;
    list.push(number)?;
    Ok(Path {
        numbers: Seq::from_vec(list),
    })
}

/// The path of the uppermost frame of these, or of the base where there are none.
fn path_below<'a>(strand: &'a Strand, links: &'a [Link<Activation>]) -> &'a [u64]
    ensures base { length links.now ≡ 0 → result.now ≡ strand.now.base.path.items }
    ensures uppermost { (link : ReadyLink Living) → slice_get links.now (length links.now - 1) ≡ Some link → result.now ≡ link.path.numbers }
{
    match links.last() {
        Some(link) => link.path.numbers.as_slice(),
        None => strand.base.path.as_slice(),
    }
}

/// The strand's frame of this number, counted from the base.
pub(crate) fn frame_of(strand: &Strand, number: usize) -> &Frame
    requires { number ≤ length strand.now.below.items }
    ensures { slice_get (frames_of strand.now) number ≡ Some result.now }
{
    if number < strand.below.len() {
        strand.below[number].as_ref()
    } else {
        strand.top.as_ref()
    }
}

/// The frame above the one of this number; there is none above the top.
pub(crate) fn above(strand: &Strand, number: usize) -> Option<&Frame>
    requires { number ≤ length strand.now.below.items }
    ensures { option_copied result ≡ slice_get (frames_of strand.now) (suc number) }
{
    if number < strand.below.len() {
        Some(frame_of(strand, number + 1))
    } else {
        None
    }
}

/// Counts the frame above, if it is a detached child.
pub(crate) fn count_above(activation: &mut Activation, above: &Frame)
    requires region { (r : RegisterId) (n : BlockId) → above.now.role ≡ Role.Child r n → r.0 < length activation.old.counts.items }
    requires room { (region : ℕ) → counted_in activation.old region + 1 < 2 ^ 64 }
    ensures only { activation.new ≡ record activation.old { counts = activation.new.counts } }
    ensures as_many { length activation.new.counts.items ≡ length activation.old.counts.items }
    ensures counts { (region : ℕ) → counted_in activation.new region ≡ counted_of above.now.role region + counted_in activation.old region }
{
    if let Role::Child { region, .. } = above.role {
        activation.counts.open(region.0);
    }
}

/// What the scheduler is to know of the frame of this number, in these lists.
fn activation_of(
    registers: Vec<i64>,
    counts: RegionCounts,
    worker: u8,
    strand: &Strand,
    number: usize,
) -> Result<Activation, OutOfMemory>
    requires number { number ≤ length strand.now.below.items }
    requires regions { RegionsFit strand.now }
    ensures { IfOk result (IsFrameOf worker strand.now number) }
{
    let frame = frame_copy_in(registers, frame_of(strand, number))?;
    let mut activation = Activation::with_counts(counts, frame, worker)?;
    if let Some(above) = above(strand, number) {
        activation.runner = None;
        count_above(&mut activation, above);
    }
    Ok(activation)
}

/// The frames above the base as they are to stand in the cactus, the lowest first. None of them knows the slot of its callee yet. They take the lists of frames
/// that are gone.
pub(crate) fn links_of(
    alloc: Global,
    cactus: &mut Cactus<Activation>,
    worker: u8,
    strand: &Strand,
) -> Result<Vec<Link<Activation>>, OutOfMemory>
    requires { RegionsFit strand.now }
    ensures links { IfOk result (λ links. AreLinks worker strand.now links.items) }
    ensures same { cactus.new ≡ cactus.old }
{
    let mut links = Vec::with_capacity(alloc, strand.below.len())?;
    for number in 0..strand.below.len() {
        let child = frame_of(strand, number).made.saturating_sub(1);
        let lists = Lists::of_gone(alloc, cactus);
        let path = child_path_in(lists.numbers, path_below(strand, links.as_slice()), child)?;
        let frame = activation_of(lists.registers, lists.counts, worker, strand, number + 1)?;
        links.push(Link { path, frame })?;
    }
    Ok(links)
}
