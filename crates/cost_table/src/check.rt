//! The rules 701 to 705 over a program: each block is judged at its start, its steps and its end.

ghost use Rattle.std.specs.Prelude.{◌≡◌, Some, IfOk, IfErr, OnOk, slice_get};
ghost use Rattle.refusal.specs.declared.broken.Broken.{Broken};
ghost use Rattle.refusal.specs.Earliest.{IsEarliest};
ghost use Rattle.ranges.specs.Judged.{JudgesEarliest};
ghost use Rattle.ranges.specs.Tables.{IsFunctionTable, AreFacts, facts_in_table, edges_in_table};
ghost use Rattle.cost_table.specs.Rules.{IsEndingUncovered, AreStepsNotFalling, IsEntryBroken, IsBlockBrokenBy, AreBlocksBroken, IsFunctionBroken};
ghost use Rattle.cost_table.specs.Rules.{IsCostBroken};
ghost use Rattle.cost_table.specs.Tables.{IsTable};

use crate::callee::callee_of;
use crate::judge::{BlockEnd, budget_fault, cost_fault, measure_fault, start_fault, step_fault};
use crate::table::{Table, make_table};
use crate::work::work_of;
use linear::Fact;
use lists::OutOfMemory;
use program::{Block, Function, Program, Step};
use ranges::{
    BlockFacts, Effort, FactCursor, Facts, FunctionFacts, Graph, Regions, Unanswered, Unverified,
    start_facts, stated,
};
use refusal::{Broken, lower};
use std::alloc::Global;

/// Brings the index of what is known up to date where a step calls its own function, which alone asks.
fn index_for(cursor: &mut FactCursor<'_>, index: usize, step: &Step) -> Result<(), OutOfMemory>
    ensures { cursor.new ≡ cursor.old }
{
    if callee_of(&step.instruction) == Some(index) {
        cursor.index()?;
    }
    Ok(())
}

/// What is broken at the entry of a function.
fn entry_fault(alloc: Global, function: &Function) -> Result<Option<Broken>, OutOfMemory>
    ensures { IfOk result (IsEarliest (IsEntryBroken function.now (slice_get function.now.blocks 0))) }
{
    match function.blocks.as_slice().first() {
        Some(entry) => {
            let known = stated(alloc, function.requirements.as_slice())?;
            let unbounded = measure_fault(alloc, &known, function)?;
            let over = budget_fault(alloc, &known, function, entry)?;
            Ok(lower(unbounded, over))
        }
        None => Ok(None),
    }
}

/// A function that is judged, among those of its program, and the effort that is left for it.
#[derive(Clone, Copy)]
struct JudgedFunction<'a> {
    functions: &'a [Function],
    index: usize,
    function: &'a Function,
    effort: &'a Effort,
}

impl JudgedFunction<'_> {
    /// What is broken at the end of a block.
    fn ending_fault(
        &self,
        alloc: Global,
        block: &Block,
        table: &BlockFacts,
    ) -> Result<Option<Broken>, Unanswered>
        ensures { IfOk result (IsEarliest (IsEndingUncovered self.now.functions.now self.now.function.now self.now.index block.now
            table.now.facts (edges_in_table table.now) block.now.ending)) }
    {
        match &block.ending {
            Some(ending) => {
                let end = BlockEnd {
                    function: self.function,
                    block,
                    work: work_of(self.functions, self.index, block),
                    line: ending.line,
                };
                let facts = table.facts.as_slice();
                let edges = table.edges.as_slice();
                end.uncovered_fault(alloc, &ending.terminator, facts, edges, self.effort)
            }
            None => Ok(None),
        }
    }

    /// What is broken at the steps of a block.
    fn steps_fault(
        &self,
        alloc: Global,
        block: &Block,
        table: &BlockFacts,
    ) -> Result<Option<Broken>, Unanswered>
        ensures { IfOk result (IsEarliest (AreStepsNotFalling self.now.function.now self.now.index block.now (facts_in_table table.now))) }
    {
        let mut named: Option<Broken> = None;
        let mut cursor = FactCursor::new(alloc, table.facts.as_slice(), self.effort);
        let steps = block.steps.as_slice();
        for (place, step) in steps.iter().enumerate() {
            cursor.seek(table.count_at(place));
            index_for(&mut cursor, self.index, step)?;
            let known = cursor.known();
            let broken = step_fault(alloc, self.function, self.index, &known, step)?;
            named = lower(named, broken);
        }
        Ok(named)
    }

    /// What is broken in a block, with what is known at its start, and what its table says is known behind it.
    fn block_fault(
        &self,
        alloc: Global,
        block: &Block,
        start: &[Fact],
        table: &BlockFacts,
    ) -> Result<Option<Broken>, Unanswered>
        ensures { IfOk result (IsEarliest (IsBlockBrokenBy self.now.functions.now self.now.function.now self.now.index block.now start.now
            (facts_in_table table.now) table.now.facts (edges_in_table table.now))) }
    {
        let at_start = start_fault(alloc, start, block)?;
        let at_end = self.ending_fault(alloc, block, table)?;
        let at_steps = self.steps_fault(alloc, block, table)?;
        Ok(lower(at_start, lower(at_end, at_steps)))
    }

    /// What is broken in the blocks of the function.
    fn blocks_fault(
        &self,
        alloc: Global,
        facts: &FunctionFacts,
    ) -> Result<Option<Broken>, Unanswered>
        requires { IsFunctionTable self.now.functions.now self.now.function.now facts.now }
        ensures { IfOk result (IsEarliest (AreBlocksBroken self.now.functions.now self.now.index self.now.function.now)) }
    {
        let mut named: Option<Broken> = None;
        let tables = facts.blocks.as_slice();
        let blocks = self.function.blocks.as_slice();
        for (place, block) in blocks.iter().enumerate() {
            let start = start_facts(alloc, self.function, place, block)?;
            let table = &tables[place];
            let broken = self.block_fault(alloc, block, &start, table)?;
            named = lower(named, broken);
        }
        Ok(named)
    }

    /// What is broken in the function.
    fn function_fault(
        &self,
        alloc: Global,
        facts: &FunctionFacts,
    ) -> Result<Option<Broken>, Unanswered>
        requires { IsFunctionTable self.now.functions.now self.now.function.now facts.now }
        ensures { IfOk result (IsEarliest (IsFunctionBroken self.now.functions.now self.now.index self.now.function.now)) }
    {
        let in_blocks = self.blocks_fault(alloc, facts)?;
        let at_entry = entry_fault(alloc, self.function)?;
        let whole = cost_fault(self.function);
        Ok(lower(in_blocks, lower(at_entry, whole)))
    }
}

/// What is broken in a program.
fn program_fault(
    alloc: Global,
    program: &Program,
    facts: &Facts,
    effort: &Effort,
) -> Result<Option<Broken>, Unanswered>
    requires { AreFacts program.now facts.now }
    ensures { IfOk result (IsEarliest (IsCostBroken program.now)) }
{
    let mut named: Option<Broken> = None;
    let tables = facts.functions.as_slice();
    let functions = program.functions.as_slice();
    for (index, function) in functions.iter().enumerate() {
        let judged = JudgedFunction {
            functions,
            index,
            function,
            effort,
        };
        let broken = judged.function_fault(alloc, &tables[index])?;
        named = lower(named, broken);
    }
    Ok(named)
}

/// The costs and depths of all calls of a program whose regions are matched, where what is known at its places shows that it keeps to its
/// budgets and measures. Of several faults that of the lowest line is named, and there that of the lowest number. It goes on as long as the effort reaches.
pub fn check_cost(
    alloc: Global,
    graph: &Graph,
    regions: &Regions,
    facts: &Facts,
    effort: &Effort,
) -> Result<Table, Unverified>
    requires { AreFacts graph.now.program facts.now }
    ensures table { IfOk result (IsTable graph.now.program regions.now) }
    ensures right { OnOk result ((b : Broken) → IsCostBroken graph.now.program b → ⊥) }
    ensures fault { IfErr result (JudgesEarliest effort.now (IsCostBroken graph.now.program)) }
{
    let program = &graph.program;
    match program_fault(alloc, program, facts, effort) {
        Ok(None) => Ok(make_table(alloc, program, regions)?),
        Ok(Some(broken)) => Err(broken.into()),
        Err(unanswered) => Err(unanswered.within(effort)),
    }
}
