//! Blocks that two paths give different tasks (the paths do not agree where they join).

ghost use Rattle.std.specs.Prelude.{◌≡◌, ◌<◌, ◌↔◌, ◌⊎◌, ℕ, true, false, length, Any, IsTrue, IfOk, slice_index_or};
ghost use Rattle.region_match.specs.Tasks.{HasTwoTasks, IsInnermostAt, task_at};
ghost use Rattle.region_match.specs.Labels.{is_seen, IsLabelled, IsClash, HasClash};

use crate::task::{Task, task_behind};
use cfg::{BlockEdges, Edge, no_marks, reached};
use std::alloc::{AllocError, Global};

/// Whether two labels are the same.
pub fn is_same(left: Task, right: Task) -> bool
    ensures { IsTrue result ↔ (left ≡ right) }
{
    left == right
}

/// Marks the target of each edge that gives another label than its target has.
fn mark_clashes(from: usize, edges: &[Edge], tasks: &[Task], marks: &mut Vec<bool>)
    requires seen { is_seen (task_at tasks.now from) ≡ true }
    requires within { from < length tasks.now }
    requires marks { length marks.old.items ≡ length tasks.now }
    ensures size { length marks.new.items ≡ length marks.old.items }
    ensures exact { (b : ℕ) → b < length tasks.now
        → (slice_index_or marks.new.items b false ≡ true)
        ↔ ((slice_index_or marks.old.items b false ≡ true) ⊎ Any (λ e. (e.to.0 ≡ b) × IsClash tasks.now from e) edges.now) }
{
    let task = tasks[from];
    for edge in edges {
        let to = edge.to.0;
        if to < tasks.len() && !is_same(tasks[to], task_behind(edge.way, from, task)) {
            marks[to] = true;
        }
    }
}

/// Marks the blocks that an edge gives another label than they have.
fn clashes(alloc: Global, blocks: &[BlockEdges], tasks: &[Task]) -> Result<Vec<bool>, AllocError>
    requires { length tasks.now ≡ length blocks.now }
    ensures size { IfOk result (λ marks. length marks.items ≡ length blocks.now) }
    ensures exact { IfOk result (λ marks. (b : ℕ) → b < length blocks.now → (slice_index_or marks.items b false ≡ true) ↔ HasClash blocks.now tasks.now b) }
{
    let mut marks = no_marks(alloc, blocks.len())?;
    for (from, body) in blocks.iter().enumerate() {
        if tasks[from].is_reached() {
            mark_clashes(from, body.edges.as_slice(), tasks, &mut marks);
        }
    }
    Ok(marks)
}

/// Marks the blocks that two paths give different tasks.
pub fn mixed(alloc: Global, blocks: &[BlockEdges], tasks: &[Task]) -> Result<Vec<bool>, AllocError>
    requires { IsLabelled blocks.now tasks.now }
    ensures size { IfOk result (λ marks. length marks.items ≡ length blocks.now) }
    ensures exact { IfOk result (λ marks. (b : ℕ) → b < length blocks.now → (slice_index_or marks.items b false ≡ true) ↔ HasTwoTasks blocks.now b) }
    ensures innermost { IfOk result (λ marks. (b : ℕ) → b < length blocks.now → slice_index_or marks.items b false ≡ false
        → IsInnermostAt blocks.now tasks.now b) }
{
    let starts = clashes(alloc, blocks, tasks)?;
    let stops = no_marks(alloc, blocks.len())?;
    Ok(reached(alloc, blocks, &starts, &stops)?)
}
