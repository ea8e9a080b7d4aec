//! What each block's terminator does to children: the region of its detach, and the detach whose child it ends.

ghost use Rattle.std.specs.Prelude.{◌≡◌, ◌<◌, ◌↔◌, ℕ, Some, length, IsTrue, IfOk, slice_get};
ghost use Rattle.definedness_allocas.specs.declared.fork.Fork.{Fork};
ghost use Rattle.linear.specs.declared.form.RegisterId.{RegisterId};
ghost use Rattle.region_match.specs.declared.task.Task.TheVariants.{Child};
ghost use Rattle.region_match.specs.Rules.{ending_at};
ghost use Rattle.region_match.specs.Tasks.{AreTasks};
ghost use Rattle.definedness.specs.Sure.{IsFork, IsReattach, IsEndOf};
ghost use Rattle.definedness.specs.ForkOf.{IsForkOf};

use cfg::BlockEdges;
use definedness_allocas::Fork;
use program::{Block, RegisterId, Terminator};
use region_match::{Task, ending_of};
use std::alloc::{AllocError, Global};

/// The flow of a function: its blocks, their edges, and what their terminators do to children.
#[derive(Clone, Copy)]
pub struct Flow<'a> {
    pub bodies: &'a [Block],
    pub blocks: &'a [BlockEdges],
    pub forks: &'a [Fork],
}

/// The region of the detach that a block ends with.
fn fork_region(bodies: &[Block], block: usize) -> Option<RegisterId>
    ensures { (region : RegisterId) → (result ≡ Some region) ↔ IsFork bodies.now block region }
{
    match ending_of(bodies, block) {
        Some(Terminator::Detach { region, .. }) => Some(*region),
        _ => None,
    }
}

/// Whether a block ends with a reattach.
fn is_reattach(bodies: &[Block], block: usize) -> bool
    ensures { IsTrue result ↔ IsReattach (ending_at bodies.now block) }
{
    match ending_of(bodies, block) {
        Some(Terminator::Reattach { .. }) => true,
        _ => false,
    }
}

/// The detach whose child a block of this task is in itself.
fn child_of(task: Task) -> Option<usize>
    ensures { (detach : ℕ) → (result ≡ Some detach) ↔ (task ≡ Child (record { 0 = detach })) }
{
    match task {
        Task::Child(its) => Some(its.0),
        Task::Unreached | Task::Body => None,
    }
}

/// The detach whose child a block ends.
fn ended_detach(
    bodies: &[Block],
    blocks: &[BlockEdges],
    tasks: &[Task],
    block: usize,
) -> Option<usize>
    requires tasks { AreTasks blocks.now tasks.now }
    requires size { length blocks.now ≡ length bodies.now }
    requires within { block < length bodies.now }
    ensures { (detach : ℕ) → (result ≡ Some detach) ↔ IsEndOf bodies.now blocks.now detach block }
{
    if is_reattach(bodies, block) {
        child_of(tasks[block])
    } else {
        None
    }
}

/// What the terminator of each block does to children.
pub fn all_forks(
    alloc: Global,
    bodies: &[Block],
    blocks: &[BlockEdges],
    tasks: &[Task],
) -> Result<Vec<Fork>, AllocError>
    requires tasks { AreTasks blocks.now tasks.now }
    requires size { length blocks.now ≡ length bodies.now }
    ensures size { IfOk result (λ forks. length forks.items ≡ length bodies.now) }
    ensures each { IfOk result (λ forks. (b : ℕ) (fork : Fork) → slice_get forks.items b ≡ Some fork → IsForkOf bodies.now blocks.now b fork) }
{
    let mut forks: Vec<Fork> = Vec::with_capacity(alloc, bodies.len())?;
    for block in 0..bodies.len() {
        forks.push(Fork {
            region: fork_region(bodies, block),
            ended: ended_detach(bodies, blocks, tasks, block),
        })?;
    }
    Ok(forks)
}
