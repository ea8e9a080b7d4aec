//! Goes through a block step by step: judges each, and gathers the facts (a forward pass with no fixed point).

ghost use Rattle.std.specs.Prelude.{◌≡◌, ◌++◌, ◌∷◌, [], ℕ, length, take, slice_get, slice_index_or, Some, IfOk, OnOk};
ghost use Rattle.program.specs.declared.instruction.Step.{Step};
ghost use Rattle.refusal.specs.declared.broken.Broken.{Broken};
ghost use Rattle.refusal.specs.Earliest.{IsEarliest};
ghost use Rattle.ranges.specs.Learned.{learned};
ghost use Rattle.ranges.specs.Sums.{facts_of};
ghost use Rattle.ranges.specs.Places.{stated, start_facts, with_shows, after_step, facts_before, facts_at_step, facts_at_end, edges_known};
ghost use Rattle.ranges.specs.Places.{ending_shows};
ghost use Rattle.ranges.specs.Tables.{IsBlockTable};
ghost use Rattle.ranges.specs.Tables.{all_with_known};
ghost use Rattle.ranges.specs.Walks.{IsWalked, edges_behind, IsEndUnmetAt};
ghost use Rattle.ranges.specs.Rules.{IsStepBroken, AreStepsBroken, IsEndBroken, IsBlockBroken};

use crate::edge::{all_edge_facts, edges_out};
use crate::judge::{edges_fault, push_shows, unmet_fault};
use crate::know::push_facts;
use crate::learn::learned;
use crate::past::stands_before_step;
use crate::table::{BlockFacts, EdgeFacts};
use crate::unverified::Unanswered;
use linear::Fact;
use linear_shown::{Effort, FactList};
use lists::{OutOfMemory, Seq};
use program::{Block, Ending, Function, Inequality, Instruction, Program, Step};
use ranges_owed::{differences_of, owed, owed_at_end};
use refusal::{Broken, lower};
use std::alloc::Global;

/// Inequalities as facts.
pub fn stated(alloc: Global, inequalities: &[Inequality]) -> Result<Vec<Fact>, OutOfMemory>
    ensures { IfOk result (λ facts. facts.items ≡ stated inequalities.now) }
{
    let sums = differences_of(alloc, &[], inequalities)?;
    let effort = Effort::unlimited();
    let mut facts = FactList::new(alloc, &effort);
    push_facts(alloc, &mut facts, &sums)?;
    Ok(facts.into_vec())
}

/// The facts at a block's start.
pub fn start_facts(
    alloc: Global,
    function: &Function,
    index: usize,
    block: &Block,
) -> Result<Vec<Fact>, OutOfMemory>
    ensures { IfOk result (λ facts. facts.items ≡ start_facts function.now index block.now) }
{
    let inequalities = if index == 0 {
        function.requirements.as_slice()
    } else {
        block.keeps.as_slice()
    };
    stated(alloc, inequalities)
}

/// Adds what an instruction makes known.
fn learn(
    alloc: Global,
    functions: &[Function],
    facts: &mut FactList<'_>,
    instruction: &Instruction,
) -> Result<(), Unanswered>
    ensures { OnOk result (facts.new ≡ facts.old ++ facts_of (learned functions.now facts.old instruction.now)) }
{
    facts.index()?;
    let learned = learned(alloc, functions, &facts.known(), instruction)?;
    push_facts(alloc, facts, &learned)?;
    Ok(())
}

/// Goes over a step that is not judged: counts the facts that are known at it, and adds what it makes known.
fn pass_step(
    alloc: Global,
    functions: &[Function],
    facts: &mut FactList<'_>,
    counts: &mut Vec<usize>,
    step: &Step,
) -> Result<(), Unanswered>
    ensures known { OnOk result (facts.new ≡ after_step functions.now facts.old step.now) }
    ensures count { OnOk result (counts.new.items ≡ counts.old.items ++ length (with_shows facts.old step.now.shows) ∷ []) }
{
    let sums = differences_of(alloc, &[], step.shows.as_slice())?;
    push_facts(alloc, facts, &sums)?;
    counts.push(facts.len())?;
    learn(alloc, functions, facts, &step.instruction)
}

/// Goes over a step: judges it, counts the facts that are known at it, and adds what it makes known.
fn walk_step(
    alloc: Global,
    program: &Program,
    function: &Function,
    facts: &mut FactList<'_>,
    counts: &mut Vec<usize>,
    step: &Step,
) -> Result<Option<Broken>, Unanswered>
    ensures known { OnOk result (facts.new ≡ after_step program.now.functions facts.old step.now) }
    ensures count { OnOk result (counts.new.items ≡ counts.old.items ++ length (with_shows facts.old step.now.shows) ∷ []) }
    ensures named { IfOk result (IsEarliest (IsStepBroken program.now function.now facts.old step.now)) }
{
    let unshown = push_shows(alloc, facts, step.shows.as_slice())?;
    counts.push(facts.len())?;
    let owed = owed(alloc, program, function, &step.instruction)?;
    facts.index()?;
    let unmet = unmet_fault(alloc, &facts.known(), step.line, &owed)?;
    let functions = program.functions.as_slice();
    learn(alloc, functions, facts, &step.instruction)?;
    Ok(lower(unshown, unmet))
}

/// Goes over the steps of a block, and answers how many facts are known at each. Steps after a fault are not judged: it is named before theirs.
fn walk_steps(
    alloc: Global,
    program: &Program,
    function: &Function,
    facts: &mut FactList<'_>,
    steps: &[Step],
) -> Result<(Vec<usize>, Option<Broken>), Unanswered>
    ensures walked { IfOk result (λ r. IsWalked program.now.functions facts.old steps.now r.0.items facts.new) }
    ensures named { IfOk result (λ r. IsEarliest
        (λ (b : Broken). (i : ℕ) × (step : Step) × (slice_get steps.now i ≡ Some step)
        × IsStepBroken program.now function.now (facts_before program.now.functions facts.old steps.now i) step b) r.1) }
{
    let mut counts: Vec<usize> = Vec::new(alloc);
    let mut named: Option<Broken> = None;
    let functions = program.functions.as_slice();
    for step in steps {
        if stands_before_step(named, step) {
            pass_step(alloc, functions, facts, &mut counts, step)?;
        } else {
            let broken = walk_step(alloc, program, function, facts, &mut counts, step)?;
            named = lower(named, broken);
        }
    }
    Ok((counts, named))
}

/// Goes over a block's terminator: judges it, and answers its edges.
fn walk_ending(
    alloc: Global,
    function: &Function,
    index: usize,
    block: &Block,
    ending: &Ending,
    facts: &mut FactList<'_>,
) -> Result<(Vec<EdgeFacts>, Option<Broken>), Unanswered>
    ensures known { OnOk result (facts.new ≡ with_shows facts.old ending.now.shows) }
    ensures edges { IfOk result (λ r. all_with_known facts.new r.0.items ≡ edges_behind function.now index block.now facts.new (Some ending.now)) }
    ensures named { IfOk result (λ r. IsEarliest (IsEndUnmetAt function.now facts.old (all_with_known facts.new r.0.items) (Some ending.now)) r.1) }
{
    let unshown = push_shows(alloc, facts, ending.shows.as_slice())?;
    let owed = owed_at_end(alloc, function, &ending.terminator)?;
    facts.index()?;
    let unmet = unmet_fault(alloc, &facts.known(), ending.line, &owed)?;
    let sums = edges_out(alloc, block.steps.as_slice(), &ending.terminator)?;
    let blocks = function.blocks.as_slice();
    let edges = all_edge_facts(alloc, blocks, index, &sums)?;
    let unkept = edges_fault(
        alloc,
        blocks,
        ending.line,
        facts.as_slice(),
        &edges,
        facts.effort(),
    )?;
    Ok((edges, lower(unshown, lower(unmet, unkept))))
}

/// Goes over the end of a block: judges it, and answers its edges.
fn walk_end(
    alloc: Global,
    function: &Function,
    index: usize,
    block: &Block,
    facts: &mut FactList<'_>,
) -> Result<(Vec<EdgeFacts>, Option<Broken>), Unanswered>
    ensures known { OnOk result (facts.new ≡ with_shows facts.old (ending_shows block.now.ending)) }
    ensures edges { IfOk result (λ r. all_with_known facts.new r.0.items ≡ edges_behind function.now index block.now facts.new block.now.ending) }
    ensures named { IfOk result (λ r. IsEarliest (IsEndUnmetAt function.now facts.old (all_with_known facts.new r.0.items) block.now.ending) r.1) }
{
    match &block.ending {
        Some(ending) => walk_ending(alloc, function, index, block, ending, facts),
        None => Ok((Vec::new(alloc), None)),
    }
}

/// What is known in a block, and what is broken there.
pub fn block_facts(
    alloc: Global,
    program: &Program,
    function: &Function,
    index: usize,
    block: &Block,
    effort: &Effort,
) -> Result<(BlockFacts, Option<Broken>), Unanswered>
    ensures table { IfOk result (λ r. IsBlockTable program.now.functions function.now index block.now r.0) }
    ensures named { IfOk result (λ r. IsEarliest (IsBlockBroken program.now function.now index block.now) r.1) }
{
    let start = start_facts(alloc, function, index, block)?;
    let mut facts = FactList::from_vec(alloc, start, effort);
    let steps = block.steps.as_slice();
    let (counts, at_steps) = walk_steps(alloc, program, function, &mut facts, steps)?;
    let (edges, at_end) = walk_end(alloc, function, index, block, &mut facts)?;
    let table = BlockFacts {
        facts: Seq::from_vec(facts.into_vec()),
        counts: Seq::from_vec(counts),
        edges: Seq::from_vec(edges),
    };
    Ok((table, lower(at_steps, at_end)))
}
