//! The rules 401 and 402 over a program, and which broken one is named.

ghost use Rattle.std.specs.Prelude.{◌≡◌, ◌<◌, ◌≤◌, ◌↔◌, ℕ, true, length, All, IfOk, IfErr};
ghost use Rattle.cfg.specs.Edges.{graph_of};
ghost use Rattle.refusal.specs.Earliest.{IsEarliest};
ghost use Rattle.refusal.specs.Named.{NamesEarliest};
ghost use Rattle.region_match.specs.Tasks.{AreTasks, AreAllTasks};
ghost use Rattle.definedness.specs.Marks.{mark_at};
ghost use Rattle.definedness.specs.Sure.{IsNeverSure};
ghost use Rattle.definedness.specs.Definedness.{register_table, alloca_table, IsUndefined, IsUnsure, IsFunctionBroken};
ghost use Rattle.definedness.specs.Defined.{AreRegistersDefined};
ghost use Rattle.definedness.specs.Definedness.{IsDefinednessBroken};

use crate::DefinedFault;
use crate::act::BlockActs;
use crate::allocas::block_allocas;
use crate::fork::{Flow, all_forks};
use crate::judge::table_fault;
use crate::missing::missing_rows;
use crate::registers::block_registers;
use crate::table::{Given, Row, all_given, greatest_needed};
use cfg::{BlockEdges, Graph};
use lists::Seq;
use program::{Block, Function};
use refusal::{Broken, lower, rule};
use region_match::{Regions, Task};
use std::alloc::{AllocError, Global};

/// What the blocks of a function do with registers.
fn all_registers(alloc: Global, function: &Function) -> Result<Vec<BlockActs>, AllocError>
    ensures { IfOk result (λ table. table.items ≡ register_table function.now) }
{
    let blocks = function.blocks.as_slice();
    let mut table: Vec<BlockActs> = Vec::new(alloc);
    for (index, block) in blocks.iter().enumerate() {
        let acts = block_registers(alloc, function, index, block)?;
        table.push(BlockActs {
            acts: Seq::from_vec(acts),
        })?;
    }
    Ok(table)
}

/// 401: what is named of the registers of a function.
fn register_fault(
    alloc: Global,
    function: &Function,
    blocks: &[BlockEdges],
) -> Result<Option<Broken>, AllocError>
    requires { blocks.now ≡ (graph_of function.now).blocks }
    ensures { IfOk result (IsEarliest (IsUndefined function.now)) }
{
    let table = all_registers(alloc, function)?;
    let all = all_given(alloc, &table)?;
    let greatest = greatest_needed(&table);
    let rows = missing_rows(alloc, blocks, &all, greatest)?;
    Ok(table_fault(alloc, &rows, rule::UNDEFINED_REGISTER, &table)?)
}

/// What the blocks of a function do with allocas.
fn all_allocas(alloc: Global, function: &Function) -> Result<Vec<BlockActs>, AllocError>
    ensures { IfOk result (λ table. table.items ≡ alloca_table function.now) }
{
    let allocas = function.allocas.as_slice();
    let mut table: Vec<BlockActs> = Vec::new(alloc);
    for block in function.blocks.as_slice() {
        let acts = block_allocas(alloc, allocas, block)?;
        table.push(BlockActs {
            acts: Seq::from_vec(acts),
        })?;
    }
    Ok(table)
}

/// The rows of the allocas of a function.
fn alloca_rows(
    alloc: Global,
    bodies: &[Block],
    blocks: &[BlockEdges],
    tasks: &[Task],
    all: &[Given],
    greatest: usize,
) -> Result<Vec<Row>, AllocError>
    requires tasks { AreTasks blocks.now tasks.now }
    requires size { length blocks.now ≡ length bodies.now }
    ensures { IfOk result (λ rows. (n b : ℕ) → n ≤ greatest → b < length blocks.now
        → (mark_at rows.items n b ≡ true) ↔ IsNeverSure bodies.now blocks.now all.now n b) }
{
    let forks = all_forks(alloc, bodies, blocks, tasks)?;
    let flow = Flow {
        bodies,
        blocks,
        forks: forks.as_slice(),
    };
    flow.unsure_rows(alloc, all, greatest)
}

/// 402: what is named of the allocas of a function.
fn alloca_fault(
    alloc: Global,
    function: &Function,
    blocks: &[BlockEdges],
    tasks: &[Task],
) -> Result<Option<Broken>, AllocError>
    requires blocks { blocks.now ≡ (graph_of function.now).blocks }
    requires tasks { AreTasks blocks.now tasks.now }
    ensures { IfOk result (IsEarliest (IsUnsure function.now)) }
{
    let table = all_allocas(alloc, function)?;
    let all = all_given(alloc, &table)?;
    let greatest = greatest_needed(&table);
    let rows = alloca_rows(
        alloc,
        function.blocks.as_slice(),
        blocks,
        tasks,
        &all,
        greatest,
    )?;
    Ok(table_fault(alloc, &rows, rule::UNSTORED_CELL, &table)?)
}

/// What is named of a function.
fn function_fault(
    alloc: Global,
    function: &Function,
    blocks: &[BlockEdges],
    tasks: &[Task],
) -> Result<Option<Broken>, AllocError>
    requires blocks { blocks.now ≡ (graph_of function.now).blocks }
    requires tasks { AreTasks blocks.now tasks.now }
    ensures { IfOk result (IsEarliest (IsFunctionBroken function.now)) }
{
    let of_registers = register_fault(alloc, function, blocks)?;
    let of_allocas = alloca_fault(alloc, function, blocks, tasks)?;
    Ok(lower(of_registers, of_allocas))
}

/// What is named of all functions.
fn all_faults(alloc: Global, graph: &Graph, regions: &Regions) -> Result<Option<Broken>, AllocError>
    requires { AreAllTasks graph.now.functions regions.now.functions }
    ensures { IfOk result (IsEarliest (IsDefinednessBroken graph.now.program)) }
{
    let graphs = graph.functions.as_slice();
    let functions = graph.program.functions.as_slice();
    let tables = regions.functions.as_slice();
    let mut named: Option<Broken> = None;
    for (index, function) in functions.iter().enumerate() {
        let blocks = graphs[index].blocks.as_slice();
        let broken = function_fault(alloc, function, blocks, tables[index].tasks.as_slice())?;
        named = lower(named, broken);
    }
    Ok(named)
}

/// Whether registers are defined wherever they are used (LLVM Language Reference, "Well-Formedness"), and allocas have values
/// wherever they are read. Of several faults that of the lowest line is named, and there that of the lowest number.
pub fn defined(alloc: Global, graph: &Graph, regions: &Regions) -> Result<(), DefinedFault>
    requires { AreAllTasks graph.now.functions regions.now.functions }
    ensures always { IfOk result (λ _. All AreRegistersDefined graph.now.program.functions) }
    ensures right { IfOk result (λ _. (b : Broken) → IsDefinednessBroken graph.now.program b → ⊥) }
    ensures fault { IfErr result (NamesEarliest (IsDefinednessBroken graph.now.program)) }
{
    match all_faults(alloc, graph, regions)? {
        Some(broken) => Err(broken.into()),
        None => Ok(()),
    }
}
