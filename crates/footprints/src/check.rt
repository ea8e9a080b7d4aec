//! The rules 601 to 604 over a program: each block is judged at its steps, its end and its edges (race freedom).

ghost use Rattle.std.specs.Prelude.{◌≡◌, ℕ, Some, IfOk, IfErr, OnOk, slice_get};
ghost use Rattle.refusal.specs.declared.broken.Broken.{Broken};
ghost use Rattle.refusal.specs.Earliest.{IsEarliest};
ghost use Rattle.ranges.specs.Judged.{JudgesEarliest};
ghost use Rattle.ranges.specs.region_match.Rules.{ending_at};
ghost use Rattle.ranges.specs.region_match.Tasks.{task_at};
ghost use Rattle.ranges.specs.Tables.{all_with_known};
ghost use Rattle.ranges.specs.Tables.{IsBlockTable, IsFunctionTable, AreFacts, facts_in_table, edges_in_table};
ghost use Rattle.footprints.specs.Footprints.{place_of};
ghost use Rattle.footprints.specs.Touched.{pointers_of};
ghost use Rattle.ranges.specs.region_match.Tasks.{tasks_in};
ghost use Rattle.footprints.specs.Rules.{foot_at_end, covering_of, is_own_block, place_in, IsStepBroken, AreStepsBroken, IsEndBroken};
ghost use Rattle.footprints.specs.Rules.{IsBlockBrokenBy, IsBlockBroken, IsFunctionBroken, IsZoneBroken};

use crate::access::{Pointer, pointers_of};
use crate::judge::{edges_fault, step_fault, use_fault};
use crate::touch::{child_foot, end_use};
use footprints_feet::{Place, index_for};
use linear::Fact;
use program::{Block, BlockId, Ending, Function, Instruction, Program, Step, Zone};
use ranges::{
    BlockFacts, EdgeFacts, Effort, FactBranches, FactCursor, Facts, FunctionFacts, Graph, Known,
    Regions, Task, Unanswered, Unverified, stands_before,
};
use refusal::{Broken, lower};
use std::alloc::Global;

/// The task of a block.
fn task_at(tasks: &[Task], index: usize) -> Task
    ensures { result ≡ task_at tasks.now index }
{
    match tasks.get(index) {
        Some(task) => *task,
        None => Task::Unreached,
    }
}

/// The tasks of a function.
fn tasks_of(regions: &Regions, index: usize) -> &[Task]
    ensures { result.now ≡ tasks_in (slice_get regions.now.functions index) }
{
    match regions.functions.as_slice().get(index) {
        Some(table) => table.tasks.as_slice(),
        None => &[],
    }
}

/// The foot of the child of the detach at the end of a block.
fn foot_behind(blocks: &[Block], detach: BlockId) -> &[Zone]
    ensures { result.now ≡ foot_at_end blocks.now (ending_at blocks.now detach.0) }
{
    match blocks.get(detach.0) {
        Some(block) => match &block.ending {
            Some(ending) => child_foot(blocks, &ending.terminator),
            None => &[],
        },
        None => &[],
    }
}

/// The zones that must cover what a block of this task touches: the function's own, or the foot of the child.
fn covering_of(function: &Function, task: Task) -> &[Zone]
    ensures { result.now ≡ covering_of function.now task }
{
    match task {
        Task::Unreached | Task::Body => function.zones.as_slice(),
        Task::Child(detach) => foot_behind(function.blocks.as_slice(), detach),
    }
}

/// Whether a block of this task is one of the function's own.
fn is_own_block(task: Task) -> bool
    ensures { result ≡ is_own_block task }
{
    match task {
        Task::Unreached | Task::Body => true,
        Task::Child(_) => false,
    }
}

/// Whether an instruction may touch cells.
fn has_zones(instruction: &Instruction) -> bool {
    match instruction {
        Instruction::Load { .. }
        | Instruction::Store { .. }
        | Instruction::StoreZeros { .. }
        | Instruction::AtomicAdd { .. }
        | Instruction::Call { .. } => true,
        Instruction::Binary { .. }
        | Instruction::Compare { .. }
        | Instruction::Convert { .. }
        | Instruction::Alloca { .. }
        | Instruction::ElementPointer { .. }
        | Instruction::StartRegion { .. } => false,
    }
}

/// A block of a function, and its task.
#[derive(Clone, Copy)]
struct Site<'a> {
    functions: &'a [Function],
    function: &'a Function,
    task: Task,
    block: &'a Block,
}

impl<'a> Site<'a> {
    /// A place of the block.
    fn place(&self, facts: &'a Known<'a>) -> Place<'a>
        ensures { place_of result.facts.now result.covering.now result.own result.pending.now
            ≡ place_in self.now.function.now self.now.task self.now.block.now facts.now }
    {
        Place {
            facts,
            covering: covering_of(self.function, self.task),
            own: is_own_block(self.task),
            pending: self.block.pending.as_slice(),
        }
    }

    /// What is broken at a step of a block with these pointers.
    fn step_fault(
        &self,
        alloc: Global,
        pointers: &[Pointer],
        facts: &Known<'_>,
        step: &Step,
    ) -> Result<Option<Broken>, Unanswered>
        requires { pointers.now ≡ pointers_of self.now.block.now.steps }
        ensures { IfOk result (IsEarliest
            (IsStepBroken self.now.functions.now self.now.function.now self.now.task self.now.block.now facts.now step.now)) }
    {
        let place = self.place(facts);
        step_fault(alloc, &place, self.functions, pointers, step)
    }

    /// What is broken at the steps of a block. Steps after a fault are not judged: it is named before theirs.
    fn steps_fault(
        &self,
        alloc: Global,
        table: &BlockFacts,
        effort: &Effort,
    ) -> Result<Option<Broken>, Unanswered>
        ensures { IfOk result (IsEarliest
            (AreStepsBroken self.now.functions.now self.now.function.now self.now.task self.now.block.now (facts_in_table table.now))) }
    {
        let mut named: Option<Broken> = None;
        let mut cursor = FactCursor::new(alloc, table.facts.as_slice(), effort);
        let steps = self.block.steps.as_slice();
        let pointers = pointers_of(alloc, steps)?;
        for (index, step) in steps.iter().enumerate() {
            if stands_before(named, step.line) {
                continue;
            }
            cursor.seek(table.count_at(index));
            index_for(&mut cursor, has_zones(&step.instruction))?;
            let facts = cursor.known();
            let broken = self.step_fault(alloc, &pointers, &facts, step)?;
            named = lower(named, broken);
        }
        Ok(named)
    }

    /// What is broken at a terminator and on its edges.
    fn ending_fault(
        &self,
        alloc: Global,
        facts: &Known<'_>,
        edges: &[EdgeFacts],
        ending: &Ending,
        effort: &Effort,
    ) -> Result<Option<Broken>, Unanswered>
        ensures { IfOk result (IsEarliest (IsEndBroken self.now.function.now self.now.task self.now.block.now facts.now
            (all_with_known facts.now edges.now) (Some ending.now))) }
    {
        let place = self.place(facts);
        let blocks = self.function.blocks.as_slice();
        let used = end_use(alloc, &place, blocks, &ending.terminator)?;
        let at_end = use_fault(ending.line, used);
        let mut branches = FactBranches::new(alloc, facts.facts(), effort);
        let on_edges = edges_fault(alloc, blocks, self.block, ending, &mut branches, edges)?;
        Ok(lower(at_end, on_edges))
    }

    /// What is broken at the end of a block.
    fn end_fault(
        &self,
        alloc: Global,
        facts: &[Fact],
        edges: &[EdgeFacts],
        effort: &Effort,
    ) -> Result<Option<Broken>, Unanswered>
        ensures { IfOk result (IsEarliest (IsEndBroken self.now.function.now self.now.task self.now.block.now facts.now
            (all_with_known facts.now edges.now) self.now.block.now.ending)) }
    {
        match &self.block.ending {
            Some(ending) => {
                let mut cursor = FactCursor::new(alloc, facts, effort);
                let foot = child_foot(self.function.blocks.as_slice(), &ending.terminator);
                index_for(&mut cursor, !foot.is_empty())?;
                let facts = cursor.known();
                self.ending_fault(alloc, &facts, edges, ending, effort)
            }
            None => Ok(None),
        }
    }

    /// What is broken in a block, with what its table says is known there.
    fn block_fault(
        &self,
        alloc: Global,
        table: &BlockFacts,
        effort: &Effort,
    ) -> Result<Option<Broken>, Unanswered>
        ensures { IfOk result (IsEarliest
            (IsBlockBrokenBy self.now.functions.now self.now.function.now self.now.task self.now.block.now
            (facts_in_table table.now) table.now.facts (edges_in_table table.now))) }
    {
        let at_steps = self.steps_fault(alloc, table, effort)?;
        let facts = table.facts.as_slice();
        let edges = table.edges.as_slice();
        let at_end = self.end_fault(alloc, facts, edges, effort)?;
        Ok(lower(at_steps, at_end))
    }
}

/// What is broken in a function.
fn function_fault(
    alloc: Global,
    functions: &[Function],
    function: &Function,
    tasks: &[Task],
    facts: &FunctionFacts,
    effort: &Effort,
) -> Result<Option<Broken>, Unanswered>
    requires { IsFunctionTable functions.now function.now facts.now }
    ensures { IfOk result (IsEarliest (IsFunctionBroken functions.now function.now tasks.now)) }
{
    let mut named: Option<Broken> = None;
    let tables = facts.blocks.as_slice();
    let blocks = function.blocks.as_slice();
    for (index, block) in blocks.iter().enumerate() {
        let table = &tables[index];
        let task = task_at(tasks, index);
        let site = Site {
            functions,
            function,
            task,
            block,
        };
        let broken = site.block_fault(alloc, table, effort)?;
        named = lower(named, broken);
    }
    Ok(named)
}

/// What is broken in a program.
fn program_fault(
    alloc: Global,
    program: &Program,
    regions: &Regions,
    facts: &Facts,
    effort: &Effort,
) -> Result<Option<Broken>, Unanswered>
    requires { AreFacts program.now facts.now }
    ensures { IfOk result (IsEarliest (IsZoneBroken program.now regions.now)) }
{
    let mut named: Option<Broken> = None;
    let tables = facts.functions.as_slice();
    let functions = program.functions.as_slice();
    for (index, function) in functions.iter().enumerate() {
        let table = &tables[index];
        let tasks = tasks_of(regions, index);
        let broken = function_fault(alloc, functions, function, tasks, table, effort)?;
        named = lower(named, broken);
    }
    Ok(named)
}

/// Whether the zones of a program whose regions are matched keep parallel parts clear of each other, by what is known at its places. Of
/// several faults that of the lowest line is named, and there that of the lowest number. It goes on as long as the effort reaches.
pub fn check_zones(
    alloc: Global,
    graph: &Graph,
    regions: &Regions,
    facts: &Facts,
    effort: &Effort,
) -> Result<(), Unverified>
    requires { AreFacts graph.now.program facts.now }
    ensures right { OnOk result ((b : Broken) → IsZoneBroken graph.now.program regions.now b → ⊥) }
    ensures fault { IfErr result (JudgesEarliest effort.now (IsZoneBroken graph.now.program regions.now)) }
{
    match program_fault(alloc, &graph.program, regions, facts, effort) {
        Ok(None) => Ok(()),
        Ok(Some(broken)) => Err(broken.into()),
        Err(unanswered) => Err(unanswered.within(effort)),
    }
}
