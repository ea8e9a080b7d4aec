//! All rules on tasks and sync regions over a program, and which broken one is named.

ghost use Rattle.std.specs.Prelude.{◌≡◌, ◌<◌, ◌⊎◌, ℕ, length, IfOk, IfErr};
ghost use Rattle.cfg.specs.Edges.{graph_of};
ghost use Rattle.refusal.specs.Earliest.{IsJudged, IsEarliest};
ghost use Rattle.refusal.specs.Named.{NamesEarliest};
ghost use Rattle.region_match.specs.Mixed.{IsMixed};
ghost use Rattle.region_match.specs.Tasks.{AreTasks, AreAllTasks};
ghost use Rattle.region_match.specs.Matched.{AreRegionsRight, IsBlockBroken, IsFunctionBroken, IsRegionBroken, IsTaskBroken};

use crate::RegionFault;
use crate::label::function_tasks;
use crate::matching::{ending_fault, pending_fault};
use crate::places::place_fault;
use crate::tables::{FunctionTasks, Regions};
use crate::task::Task;
use crate::unsynced::unsynced_fault;
use cfg::{BlockEdges, Graph};
use lists::Seq;
use program::{Block, Function};
use refusal::{Broken, lower};
use std::alloc::{AllocError, Global};

/// What is named of a block.
fn block_fault(
    bodies: &[Block],
    blocks: &[BlockEdges],
    tasks: &[Task],
    index: usize,
    block: &Block,
) -> Option<Broken>
    requires tasks { AreTasks blocks.now tasks.now }
    requires size { length blocks.now ≡ length bodies.now }
    requires within { index < length blocks.now }
    ensures { IsEarliest (IsBlockBroken bodies.now blocks.now index block.now) result }
{
    let task = tasks[index];
    let at_end = ending_fault(bodies, tasks, task, &block.ending);
    let at_pending = pending_fault(bodies, tasks, task, block.pending.as_slice());
    let at_places = place_fault(blocks, index, block);
    lower(at_end, lower(at_pending, at_places))
}

/// What is named of a function.
fn function_fault(
    alloc: Global,
    function: &Function,
    blocks: &[BlockEdges],
    tasks: &[Task],
) -> Result<Option<Broken>, AllocError>
    requires blocks { blocks.now ≡ (graph_of function.now).blocks }
    requires tasks { AreTasks blocks.now tasks.now }
    ensures { IfOk result (IsEarliest (IsFunctionBroken function.now)) }
{
    let bodies = function.blocks.as_slice();
    let mut named: Option<Broken> = None;
    for (index, block) in bodies.iter().enumerate() {
        let broken = block_fault(bodies, blocks, tasks, index, block);
        named = lower(named, broken);
    }
    let unsynced = unsynced_fault(alloc, bodies, blocks, tasks)?;
    Ok(lower(unsynced, named))
}

/// The tasks of all functions, and what is named where a block has two.
fn all_tasks(
    alloc: Global,
    graph: &Graph,
) -> Result<(Vec<FunctionTasks>, Option<Broken>), AllocError>
    ensures { IfOk result (λ r. IsJudged (AreAllTasks graph.now.functions r.0.items) (IsMixed graph.now.program) r.1) }
{
    let graphs = graph.functions.as_slice();
    let functions = graph.program.functions.as_slice();
    let mut tables: Vec<FunctionTasks> = Vec::new(alloc);
    let mut named: Option<Broken> = None;
    for (index, function) in functions.iter().enumerate() {
        let (table, broken) = function_tasks(alloc, function, graphs[index].blocks.as_slice())?;
        named = lower(named, broken);
        tables.push(table)?;
    }
    Ok((tables, named))
}

/// What is named of the other rules.
fn all_faults(
    alloc: Global,
    graph: &Graph,
    tables: &[FunctionTasks],
) -> Result<Option<Broken>, AllocError>
    requires { AreAllTasks graph.now.functions tables.now }
    ensures { IfOk result (IsEarliest (IsRegionBroken graph.now.program)) }
{
    let graphs = graph.functions.as_slice();
    let functions = graph.program.functions.as_slice();
    let mut named: Option<Broken> = None;
    for (index, function) in functions.iter().enumerate() {
        let blocks = graphs[index].blocks.as_slice();
        let broken = function_fault(alloc, function, blocks, tables[index].tasks.as_slice())?;
        named = lower(named, broken);
    }
    Ok(named)
}

/// The task of each block of a program (Tapir: Schardl, Moses and Leiserson). Blocks with two tasks are named first; of
/// several faults that of the lowest line is named, and there that of the lowest number.
pub fn regions(alloc: Global, graph: &Graph) -> Result<Regions, RegionFault>
    ensures tasks { IfOk result (λ regions. AreAllTasks graph.now.functions regions.functions) }
    ensures right { IfOk result (λ _. AreRegionsRight graph.now.program) }
    ensures fault { IfErr result (NamesEarliest (IsTaskBroken graph.now.program)) }
{
    let (tables, mixed) = all_tasks(alloc, graph)?;
    if let Some(broken) = mixed {
        return Err(broken.into());
    }
    if let Some(broken) = all_faults(alloc, graph, &tables)? {
        return Err(broken.into());
    }
    Ok(Regions {
        functions: Seq::from_vec(tables),
    })
}
