//! The task of a block by the innermost detach that leads to it, found by a worklist along the edges.

ghost use Rattle.std.specs.Prelude.{◌≡◌, ◌<◌, ℕ, true, length, OnOk, IfOk};
ghost use Rattle.region_match.specs.Labels.{next_task, is_seen, LabelsTargets, IsLabelled};

use cfg::{BlockEdges, Edge, Way};
use program::BlockId;
use std::alloc::{AllocError, Global};

/// The task of a block, by the innermost detach that leads to it.
#[derive(Clone, Copy, PartialEq, Eq)]
pub enum Task {
    /// No path leads to the block.
    Unreached,
    /// No detach: the body of the function.
    Body,
    /// The child of the detach at the end of this block.
    Child(BlockId),
}

impl Task {
    /// Whether a path leads to the block.
    pub fn is_reached(self) -> bool
        ensures { result ≡ is_seen self }
    {
        match self {
            Task::Unreached => false,
            Task::Body | Task::Child(_) => true,
        }
    }
}

/// The label behind an edge that leaves a block of this label.
pub fn task_behind(way: Way, from: usize, task: Task) -> Task
    ensures { result ≡ next_task way from task }
{
    match way {
        Way::Detached => Task::Child(BlockId(from)),
        Way::Branch | Way::Continued | Way::Synced(_) => task,
    }
}

/// Labels the target of each edge that has no label yet, and puts it on the list of work.
fn label_targets(
    from: usize,
    edges: &[Edge],
    task: Task,
    tasks: &mut Vec<Task>,
    work: &mut Vec<usize>,
) -> Result<(), AllocError>
    requires { is_seen task ≡ true }
    ensures { OnOk result (LabelsTargets from edges.now task tasks.old.items work.old.items tasks.new.items work.new.items) }
{
    for edge in edges {
        let to = edge.to.0;
        if to < tasks.len() && !tasks[to].is_reached() {
            tasks[to] = task_behind(edge.way, from, task);
            work.push(to)?;
        }
    }
    Ok(())
}

/// Labels each block that a path leads to by the first path that is found. Takes time in proportion to the blocks and
/// their edges.
pub fn first_tasks(alloc: Global, blocks: &[BlockEdges]) -> Result<Vec<Task>, AllocError>
    ensures { IfOk result (λ tasks. IsLabelled blocks.now tasks.items) }
{
    let mut tasks: Vec<Task> = Vec::with_capacity(alloc, blocks.len())?;
    for _block in 0..blocks.len() {
        tasks.push(Task::Unreached)?;
    }
    let mut work: Vec<usize> = Vec::with_capacity(alloc, blocks.len())?;
    if !blocks.is_empty() {
        tasks[0] = Task::Body;
        work.push(0)?;
    }
    while let Some(block) = work.pop() {
        let task = tasks[block];
        label_targets(
            block,
            blocks[block].edges.as_slice(),
            task,
            &mut tasks,
            &mut work,
        )?;
    }
    Ok(tasks)
}
