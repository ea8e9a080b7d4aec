//! Rule 304: no detach is open, that is without a sync of its region, where its task ends.

ghost use Rattle.std.specs.Prelude.{◌≡◌, ◌<◌, ◌↔◌, ℕ, List, true, false, length, Some, IsTrue, IfOk, MatchOption, slice_index_or};
ghost use Rattle.program.specs.linear.declared.form.RegisterId.{RegisterId};
ghost use Rattle.program.specs.declared.identifier.BlockId.{BlockId};
ghost use Rattle.program.specs.declared.instruction.Ending.{Ending};
ghost use Rattle.cfg.specs.Paths.{Leg, IsPath};
ghost use Rattle.region_match.specs.Tasks.{AreTasks};
ghost use Rattle.region_match.specs.Rules.{ending_at, IsDetach, IsSync, IsUnsynced, is_leave, IsOpenEnd};
ghost use Rattle.refusal.specs.Earliest.{IsEarliest};
ghost use Rattle.region_match.specs.ByLabel.{IsOpenEndOf};

use crate::clash::is_same;
use crate::matching::ending_of;
use crate::places::is_both;
use crate::task::Task;
use cfg::{BlockEdges, one_mark, reached};
use program::{Block, BlockId, Ending, RegisterId, Terminator};
use refusal::{Broken, lower, rule};
use std::alloc::{AllocError, Global};

/// Whether a block ends with a sync within a region.
fn is_sync(bodies: &[Block], block: usize, region: RegisterId) -> bool
    ensures { IsTrue result ↔ IsSync (ending_at bodies.now block) region }
{
    match ending_of(bodies, block) {
        Some(Terminator::Sync { region: its, .. }) => its.0 == region.0,
        _ => false,
    }
}

/// The region and the continuation of the detach that a block ends with.
pub fn detach_of(bodies: &[Block], block: usize) -> Option<(RegisterId, BlockId)>
    ensures { MatchOption result ((region : RegisterId) (continuation : BlockId) → IsDetach (ending_at bodies.now block) region continuation → ⊥)
        (λ d. IsDetach (ending_at bodies.now block) d.0 d.1) }
{
    match ending_of(bodies, block) {
        Some(
            Terminator::Detach {
                region,
                continuation,
                ..
            },
        ) => Some((*region, *continuation)),
        _ => None,
    }
}

/// Marks the blocks that end with a sync within a region.
fn sync_marks(alloc: Global, bodies: &[Block], region: RegisterId) -> Result<Vec<bool>, AllocError>
    ensures size { IfOk result (λ marks. length marks.items ≡ length bodies.now) }
    ensures exact { IfOk result (λ marks. (b : ℕ) → b < length bodies.now
        → (slice_index_or marks.items b false ≡ true) ↔ IsSync (ending_at bodies.now b) region) }
{
    let mut marks = Vec::with_capacity(alloc, bodies.len())?;
    for block in 0..bodies.len() {
        marks.push(is_sync(bodies, block, region))?;
    }
    Ok(marks)
}

/// Marks the blocks that a path from a continuation leads to with no sync of the region.
pub fn open_marks(
    alloc: Global,
    bodies: &[Block],
    blocks: &[BlockEdges],
    region: RegisterId,
    continuation: BlockId,
) -> Result<Vec<bool>, AllocError>
    requires { length blocks.now ≡ length bodies.now }
    ensures size { IfOk result (λ marks. length marks.items ≡ length blocks.now) }
    ensures exact { IfOk result (λ marks. (b : ℕ) → b < length blocks.now
        → (slice_index_or marks.items b false ≡ true)
        ↔ ((legs : List Leg) × IsPath blocks.now continuation.0 legs b × IsUnsynced bodies.now region legs)) }
{
    let starts = one_mark(alloc, blocks.len(), continuation.0)?;
    let stops = sync_marks(alloc, bodies, region)?;
    Ok(reached(alloc, blocks, &starts, &stops)?)
}

/// Whether a task ends here.
fn is_leaving(terminator: &Terminator) -> bool
    ensures { result ≡ is_leave terminator.now }
{
    match terminator {
        Terminator::Return { .. } | Terminator::Reattach { .. } => true,
        Terminator::Jump { .. }
        | Terminator::Branch { .. }
        | Terminator::Switch { .. }
        | Terminator::Detach { .. }
        | Terminator::Sync { .. } => false,
    }
}

/// 304: an end that a detach is open at.
fn end_fault(ending: &Option<Ending>, is_open: bool) -> Option<Broken>
    ensures { IsEarliest (λ b. (end : Ending) × (ending.now ≡ Some end) × (is_leave end.terminator ≡ true) × (b.number ≡ 304) × (b.line ≡ end.line)
        × (IsTrue is_open)) result }
{
    let Some(ending) = ending else {
        return None;
    };
    if is_open && is_leaving(&ending.terminator) {
        Some(Broken {
            line: ending.line,
            number: rule::UNSYNCED_DETACH,
        })
    } else {
        None
    }
}

/// 304: the ends of its task that a block's detach is open at, if the block ends with one.
fn open_ends(
    alloc: Global,
    bodies: &[Block],
    blocks: &[BlockEdges],
    tasks: &[Task],
    detach: usize,
) -> Result<Option<Broken>, AllocError>
    requires tasks { AreTasks blocks.now tasks.now }
    requires size { length blocks.now ≡ length bodies.now }
    requires within { detach < length bodies.now }
    ensures { IfOk result (IsEarliest (IsOpenEndOf bodies.now blocks.now detach)) }
{
    let Some((region, continuation)) = detach_of(bodies, detach) else {
        return Ok(None);
    };
    let marks = open_marks(alloc, bodies, blocks, region, continuation)?;
    let task = tasks[detach];
    let mut named: Option<Broken> = None;
    for (to, body) in bodies.iter().enumerate() {
        let is_same_task = is_both(task.is_reached(), is_same(tasks[to], task));
        let is_open = is_both(is_same_task, marks[to]);
        let broken = end_fault(&body.ending, is_open);
        named = lower(named, broken);
    }
    Ok(named)
}

/// 304: the ends of tasks that a detach is open at.
pub fn unsynced_fault(
    alloc: Global,
    bodies: &[Block],
    blocks: &[BlockEdges],
    tasks: &[Task],
) -> Result<Option<Broken>, AllocError>
    requires tasks { AreTasks blocks.now tasks.now }
    requires size { length blocks.now ≡ length bodies.now }
    ensures { IfOk result (IsEarliest (IsOpenEnd bodies.now blocks.now)) }
{
    let mut named: Option<Broken> = None;
    for detach in 0..bodies.len() {
        let broken = open_ends(alloc, bodies, blocks, tasks, detach)?;
        named = lower(named, broken);
    }
    Ok(named)
}
