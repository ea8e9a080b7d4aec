//! The rules 501 to 508 over a program, and what is known at each of its places.

ghost use Rattle.std.specs.Prelude.{◌≡◌, IfOk, IfErr, Any};
ghost use Rattle.refusal.specs.declared.broken.Broken.{Broken};
ghost use Rattle.refusal.specs.Earliest.{IsEarliest};
ghost use Rattle.ranges.specs.Judged.{JudgesEarliest};
ghost use Rattle.ranges.specs.Tables.{IsFunctionTable, AreFacts};
ghost use Rattle.ranges.specs.Rules.{IsFunctionBroken, IsRangeBroken};

use crate::table::{BlockFacts, Facts, FunctionFacts};
use crate::unverified::{Unanswered, Unverified};
use crate::walk::block_facts;
use linear_shown::Effort;
use lists::Seq;
use program::{Function, Program};
use refusal::{Broken, lower};
use region_match::{Graph, Regions};
use std::alloc::Global;

/// What is known in a function, and what is broken there.
fn function_facts(
    alloc: Global,
    program: &Program,
    function: &Function,
    effort: &Effort,
) -> Result<(FunctionFacts, Option<Broken>), Unanswered>
    ensures table { IfOk result (λ r. IsFunctionTable program.now.functions function.now r.0) }
    ensures named { IfOk result (λ r. IsEarliest (IsFunctionBroken program.now function.now) r.1) }
{
    let mut tables: Vec<BlockFacts> = Vec::new(alloc);
    let mut named: Option<Broken> = None;
    let blocks = function.blocks.as_slice();
    for (index, block) in blocks.iter().enumerate() {
        let (table, broken) = block_facts(alloc, program, function, index, block, effort)?;
        named = lower(named, broken);
        tables.push(table)?;
    }
    Ok((
        FunctionFacts {
            blocks: Seq::from_vec(tables),
        },
        named,
    ))
}

/// What is known in a program, and what is broken there.
fn program_facts(
    alloc: Global,
    program: &Program,
    effort: &Effort,
) -> Result<(Facts, Option<Broken>), Unanswered>
    ensures facts { IfOk result (λ r. AreFacts program.now r.0) }
    ensures named { IfOk result (λ r. IsEarliest (IsRangeBroken program.now) r.1) }
{
    let mut tables: Vec<FunctionFacts> = Vec::new(alloc);
    let mut named: Option<Broken> = None;
    let functions = program.functions.as_slice();
    for function in functions {
        let (table, broken) = function_facts(alloc, program, function, effort)?;
        named = lower(named, broken);
        tables.push(table)?;
    }
    Ok((
        Facts {
            functions: Seq::from_vec(tables),
        },
        named,
    ))
}

/// What is known at each place of a program whose regions are matched, where it shows all that the program owes. Of several faults that of
/// the lowest line is named, and there that of the lowest number. It goes on as long as the effort reaches.
pub fn check_ranges(
    alloc: Global,
    graph: &Graph,
    _regions: &Regions,
    effort: &Effort,
) -> Result<Facts, Unverified>
    ensures facts { IfOk result (λ facts. AreFacts graph.now.program facts) }
    ensures right { IfOk result (λ facts. (b : Broken) → IsRangeBroken graph.now.program b → ⊥) }
    ensures fault { IfErr result (JudgesEarliest effort.now (IsRangeBroken graph.now.program)) }
{
    match program_facts(alloc, &graph.program, effort) {
        Ok((facts, None)) => Ok(facts),
        Ok((_, Some(broken))) => Err(broken.into()),
        Err(unanswered) => Err(unanswered.within(effort)),
    }
}
