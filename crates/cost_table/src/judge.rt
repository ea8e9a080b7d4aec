//! Names what is broken of costs: `left` at starts and ends of blocks, measures of self calls, budgets.

ghost use Rattle.std.specs.Prelude.{◌≡◌, ℕ, List, Any, false, IfOk, OnOk, slice_get, pos};
ghost use Rattle.linear.specs.Terms.{constant_form};
ghost use Rattle.program.specs.declared.function.Function.{Function};
ghost use Rattle.refusal.specs.declared.broken.Broken.{Broken};
ghost use Rattle.refusal.specs.Earliest.{IsEarliest};
ghost use Rattle.ranges.specs.Tables.{with_known, all_with_known};
ghost use Rattle.cost_table.specs.Rules.{IsPairBroken, IsOverdrawn, IsEdgeUncovered, IsForkUncovered, IsEndUncovered};
ghost use Rattle.program.specs.Left.{left_calls, left_instructions};
ghost use Rattle.cost_table.specs.Rules.{IsUncoveredAt, IsUnbounded, IsNotFalling, IsCallNotFalling, IsOverBudget, IsTooCostly};
ghost use Rattle.cost_table.specs.Doing.{IsWork};

use crate::sum::{covers_both, covers_next, covers_work, is_at_least_zero, is_at_most};
use crate::work::{Work, whole_cost};
use linear::{Fact, Form};
use lists::OutOfMemory;
use program::{Argument, Block, BlockId, Function, Instruction, Step, Terminator};
use ranges::{EdgeFacts, Effort, FactBranches, Known, Unanswered, argument_moves};
use refusal::{Broken, lower, rule};
use std::alloc::Global;

/// The greatest cost that a call may have.
const GREATEST_COST: u128 = 1_000_000_000_000;

/// The rule of this number at this line, unless it holds of self calls and of instructions.
fn fault_unless(calls: bool, instructions: bool, line: u32, number: u16) -> Option<Broken>
    ensures { IsEarliest (IsPairBroken number line calls instructions) result }
{
    if calls && instructions {
        None
    } else {
        Some(Broken { line, number })
    }
}

/// What is left at a block's start is not shown to be at least 0.
pub fn start_fault(
    alloc: Global,
    known: &[Fact],
    block: &Block,
) -> Result<Option<Broken>, OutOfMemory>
    ensures { IfOk result (IsEarliest (IsOverdrawn known.now block.now)) }
{
    let left = &block.left;
    let calls = covers_work(alloc, known, &left.self_calls, 0)?;
    let instructions = covers_work(alloc, known, &left.instructions, 0)?;
    Ok(fault_unless(calls, instructions, left.line, rule::LEFT_BELOW_ZERO))
}

/// How many self calls a block leaves, and none where there is no such block.
fn left_calls<'a>(blocks: &'a [Block], block: BlockId, none: &'a Form) -> &'a Form
    requires { none.now ≡ constant_form (pos 0) }
    ensures { result.now ≡ left_calls (slice_get blocks.now block.0) }
{
    match blocks.get(block.0) {
        Some(block) => &block.left.self_calls,
        None => none,
    }
}

/// How many instructions a block leaves, and none where there is no such block.
fn left_instructions<'a>(blocks: &'a [Block], block: BlockId, none: &'a Form) -> &'a Form
    requires { none.now ≡ constant_form (pos 0) }
    ensures { result.now ≡ left_instructions (slice_get blocks.now block.0) }
{
    match blocks.get(block.0) {
        Some(block) => &block.left.instructions,
        None => none,
    }
}

/// The end of a block: what the block does up to there, and the line of its terminator.
#[derive(Clone, Copy)]
pub struct BlockEnd<'a> {
    pub function: &'a Function,
    pub block: &'a Block,
    pub work: Work,
    pub line: u32,
}

impl BlockEnd<'_> {
    /// What is left of the block does not cover what it does and what is left behind an edge.
    fn edge_fault(
        &self,
        alloc: Global,
        facts: &mut FactBranches<'_>,
        edge: &EdgeFacts,
    ) -> Result<Option<Broken>, Unanswered>
        ensures lent { OnOk result (facts.new.0 ≡ facts.old.0) }
        ensures fault { IfOk result (λ r. (functions : List Function) (f : ℕ) → IsWork functions f self.now.block.now self.now.work
            → IsEarliest (IsEdgeUncovered functions self.now.function.now f self.now.block.now self.now.line (with_known facts.old.0 edge.now)) r) }
    {
        let none = Form::from_constant(alloc, 0);
        let left = &self.block.left;
        let blocks = self.function.blocks.as_slice();
        facts.switch_to(alloc, edge.facts.as_slice())?;
        let known = facts.known();
        let moves = edge.moves.as_slice();
        let next = left_calls(blocks, edge.to, &none);
        let calls = covers_next(
            alloc,
            &known,
            &left.self_calls,
            self.work.calls,
            moves,
            next,
        )?;
        let next = left_instructions(blocks, edge.to, &none);
        let instructions = covers_next(
            alloc,
            &known,
            &left.instructions,
            self.work.instructions,
            moves,
            next,
        )?;
        Ok(fault_unless(calls, instructions, self.line, rule::LEFT_TOO_SMALL))
    }

    /// What is left of the block does not cover what it does and what is left behind one of its edges, where this is known at its end.
    fn edges_fault(
        &self,
        alloc: Global,
        known: &[Fact],
        edges: &[EdgeFacts],
        effort: &Effort,
    ) -> Result<Option<Broken>, Unanswered>
        ensures { IfOk result (λ r. (functions : List Function) (f : ℕ) → IsWork functions f self.now.block.now self.now.work
            → IsEarliest (λ (b : Broken). Any (λ e. IsEdgeUncovered functions self.now.function.now f self.now.block.now self.now.line e b)
            (all_with_known known.now edges.now)) r) }
    {
        let mut named: Option<Broken> = None;
        let mut facts = FactBranches::new(alloc, known, effort);
        for edge in edges {
            let broken = self.edge_fault(alloc, &mut facts, edge)?;
            named = lower(named, broken);
        }
        Ok(named)
    }

    /// What is left of a block that detaches does not cover what it does and what is left in both its targets.
    fn fork_fault(
        &self,
        alloc: Global,
        known: &[Fact],
        body: BlockId,
        continuation: BlockId,
    ) -> Result<Option<Broken>, Unanswered>
        ensures { IfOk result (λ r. (functions : List Function) (f : ℕ) → IsWork functions f self.now.block.now self.now.work
            → IsEarliest (IsForkUncovered functions self.now.function.now f self.now.block.now self.now.line known.now body.0 continuation.0) r) }
    {
        let none = Form::from_constant(alloc, 0);
        let left = &self.block.left;
        let work = self.work;
        let blocks = self.function.blocks.as_slice();
        let child = left_calls(blocks, body, &none);
        let parent = left_calls(blocks, continuation, &none);
        let calls = covers_both(alloc, known, &left.self_calls, work.calls, child, parent)?;
        let child = left_instructions(blocks, body, &none);
        let parent = left_instructions(blocks, continuation, &none);
        let instructions = covers_both(
            alloc,
            known,
            &left.instructions,
            work.instructions,
            child,
            parent,
        )?;
        Ok(fault_unless(calls, instructions, self.line, rule::LEFT_TOO_SMALL))
    }

    /// What is left of a block at a `ret` or `reattach` does not cover what it does.
    fn end_fault(&self, alloc: Global, known: &[Fact]) -> Result<Option<Broken>, Unanswered>
        ensures { IfOk result (λ r. (functions : List Function) (f : ℕ) → IsWork functions f self.now.block.now self.now.work
            → IsEarliest (IsEndUncovered functions f self.now.block.now self.now.line known.now) r) }
    {
        let left = &self.block.left;
        let calls = covers_work(alloc, known, &left.self_calls, self.work.calls)?;
        let instructions = covers_work(alloc, known, &left.instructions, self.work.instructions)?;
        Ok(fault_unless(calls, instructions, self.line, rule::LEFT_TOO_SMALL))
    }

    /// What is left of the block does not cover what it does and what is left where it goes on.
    pub fn uncovered_fault(
        &self,
        alloc: Global,
        terminator: &Terminator,
        known: &[Fact],
        edges: &[EdgeFacts],
        effort: &Effort,
    ) -> Result<Option<Broken>, Unanswered>
        ensures { IfOk result (λ r. (functions : List Function) (f : ℕ) → IsWork functions f self.now.block.now self.now.work
            → IsEarliest (IsUncoveredAt functions self.now.function.now f self.now.block.now self.now.line known.now
            (all_with_known known.now edges.now) terminator.now) r) }
    {
        match terminator {
            Terminator::Jump { .. }
            | Terminator::Branch { .. }
            | Terminator::Switch { .. }
            | Terminator::Sync { .. } => self.edges_fault(alloc, known, edges, effort),
            Terminator::Detach {
                body,
                continuation,
                ..
            } => self.fork_fault(alloc, known, *body, *continuation),
            Terminator::Return { .. } | Terminator::Reattach { .. } => {
                self.end_fault(alloc, known)
            }
        }
    }
}

/// The measure is not shown to lie from 0 to its bound.
pub fn measure_fault(
    alloc: Global,
    known: &[Fact],
    function: &Function,
) -> Result<Option<Broken>, OutOfMemory>
    ensures { IfOk result (IsEarliest (IsUnbounded function.now known.now)) }
{
    let measure = &function.measure;
    let low = covers_work(alloc, known, &measure.form, 0)?;
    let high = is_at_most(alloc, known, measure.bound, &measure.form)?;
    Ok(fault_unless(low, high, measure.line, rule::MEASURE))
}

/// The measure of a self call is not shown to be at least 0 and less than the call's own.
fn falling_fault(
    alloc: Global,
    function: &Function,
    line: u32,
    known: &Known<'_>,
    arguments: &[Argument],
) -> Result<Option<Broken>, Unanswered>
    ensures { IfOk result (IsEarliest (IsNotFalling function.now line known.now arguments.now)) }
{
    let form = &function.measure.form;
    let moves = argument_moves(alloc, arguments)?;
    let low = is_at_least_zero(alloc, known, &moves, form)?;
    let falls = covers_next(alloc, known, form, 1, &moves, form)?;
    Ok(fault_unless(low, falls, line, rule::MEASURE))
}

/// The measure of a step that is a self call is not shown to be at least 0 and less than the call's own.
pub fn step_fault(
    alloc: Global,
    function: &Function,
    index: usize,
    known: &Known<'_>,
    step: &Step,
) -> Result<Option<Broken>, Unanswered>
    ensures { IfOk result (IsEarliest (IsCallNotFalling function.now index step.now.line known.now step.now.instruction)) }
{
    match &step.instruction {
        Instruction::Call {
            callee,
            arguments,
            ..
        } => {
            if callee.0 != index {
                return Ok(None);
            }
            falling_fault(alloc, function, step.line, known, arguments.as_slice())
        }
        Instruction::Binary { .. }
        | Instruction::Compare { .. }
        | Instruction::Convert { .. }
        | Instruction::Alloca { .. }
        | Instruction::ElementPointer { .. }
        | Instruction::Load { .. }
        | Instruction::Store { .. }
        | Instruction::StoreZeros { .. }
        | Instruction::AtomicAdd { .. }
        | Instruction::StartRegion { .. } => Ok(None),
    }
}

/// The budget does not cover what is left at the entry.
pub fn budget_fault(
    alloc: Global,
    known: &[Fact],
    function: &Function,
    entry: &Block,
) -> Result<Option<Broken>, OutOfMemory>
    ensures { IfOk result (IsEarliest (IsOverBudget function.now known.now entry.now)) }
{
    let budget = &function.budget;
    let calls = is_at_most(alloc, known, budget.self_calls, &entry.left.self_calls)?;
    let instructions = is_at_most(alloc, known, budget.instructions, &entry.left.instructions)?;
    Ok(fault_unless(calls, instructions, budget.line, rule::BUDGET))
}

/// A call of the function may cost over a million million.
pub fn cost_fault(function: &Function) -> Option<Broken>
    ensures { IsEarliest (IsTooCostly function.now) result }
{
    if whole_cost(function) > GREATEST_COST {
        Some(Broken {
            line: function.line,
            number: rule::RECURSION_COST,
        })
    } else {
        None
    }
}
