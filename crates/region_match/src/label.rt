//! The task of each block of a function, or rule 306 where a block has two.

ghost use Rattle.std.specs.Prelude.{◌≡◌, ◌<◌, ◌↔◌, ℕ, true, false, length, IfOk, slice_index_or};
ghost use Rattle.cfg.specs.Edges.{graph_of};
ghost use Rattle.refusal.specs.Earliest.{IsJudged};
ghost use Rattle.region_match.specs.Tasks.{AreTasks, HasTwoTasks};
ghost use Rattle.region_match.specs.Mixed.{IsMixedBlock, IsMixedIn};

use crate::clash::mixed;
use crate::tables::FunctionTasks;
use crate::task::first_tasks;
use cfg::BlockEdges;
use lists::Seq;
use program::{Block, Function};
use refusal::{Broken, lower, rule};
use std::alloc::{AllocError, Global};

/// 306: a block is marked, since two paths give it different tasks.
fn mixed_fault(bodies: &[Block], blocks: &[BlockEdges], marks: &[bool]) -> Option<Broken>
    requires size { length marks.now ≡ length bodies.now }
    requires exact { (b : ℕ) → b < length blocks.now → (slice_index_or marks.now b false ≡ true) ↔ HasTwoTasks blocks.now b }
    requires blocks { length blocks.now ≡ length bodies.now }
    ensures { IsJudged ((b : ℕ) → b < length blocks.now → slice_index_or marks.now b false ≡ false) (IsMixedBlock bodies.now blocks.now) result }
{
    let mut named: Option<Broken> = None;
    for (b, block) in bodies.iter().enumerate() {
        let broken = if marks[b] {
            Some(Broken {
                line: block.line,
                number: rule::TWO_TASKS,
            })
        } else {
            None
        };
        named = lower(named, broken);
    }
    named
}

/// The tasks of a function's blocks, and what is named where a block has two.
pub fn function_tasks(
    alloc: Global,
    function: &Function,
    blocks: &[BlockEdges],
) -> Result<(FunctionTasks, Option<Broken>), AllocError>
    requires { blocks.now ≡ (graph_of function.now).blocks }
    ensures { IfOk result (λ r. IsJudged (AreTasks blocks.now r.0.tasks) (IsMixedIn function.now) r.1) }
{
    let tasks = first_tasks(alloc, blocks)?;
    let marks = mixed(alloc, blocks, &tasks)?;
    let bodies = function.blocks.as_slice();
    let named = mixed_fault(bodies, blocks, &marks);
    let tasks = Seq::from_vec(tasks);
    Ok((FunctionTasks { tasks }, named))
}
