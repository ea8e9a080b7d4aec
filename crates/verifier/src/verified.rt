//! A module that the verifier took, and the calls that judge a text: `verify` and `verify_within`.

ghost use Rattle.std.specs.Prelude.{◌≡◌, IfOk, IfErr};
ghost use Rattle.refusal.specs.Refusals.{IfBroken};
ghost use Rattle.verifier.specs.Accepted.{IsAccepted, IsProgramOf, IsRefused, IsUnverified};
ghost use Rattle.verifier.specs.Budgets.{IsTableOf, IsDepthOf, budget_of};

use crate::cost::{budget_of, depth_of};
use cfg::{Graph, graph};
use cost_table::{Table, check_cost};
use definedness::defined;
use footprints::{Effort, Unverified, check_ranges, check_zones};
use ir_reader::read;
use program::Program;
use refusal::Refused;
use region_match::regions;
use std::alloc::Global;
use std::hash::RandomState;
use std::marker::Model;
use types::check_types;

/// A module that the verifier took. Contracts see it as its program.
pub struct Verified {
    graph: Graph,
    table: Table,
    budget: u64,
    depth: u64,
}

/// Written out, so that no crate above proves it anew.
impl Drop for Verified {
    fn drop(self) {
        let Verified {
            graph: _,
            table: _,
            budget: _,
            depth: _,
        } = self;
    }
}

impl Model for Verified {
    ghost use Rattle.program.specs.declared.function.Program.{Program};
    ghost use Rattle.verifier.specs.Budgets.{IsVerified};

    ghost Value = { Program };

    ghost view = { λ v. v.graph.program };

    ghost invariant = { λ v. IsVerified v.graph.program v.table v.budget v.depth };
}

impl Verified {
    /// The program that the module means.
    pub fn program(&self) -> &Program
        ensures value { result.now ≡ self.now }
        ensures accepted { IsAccepted self.now }
    {
        &self.graph.program
    }

    /// The program with the edges between its blocks.
    pub fn graph(&self) -> &Graph
        ensures { result.now.program ≡ self.now }
    {
        &self.graph
    }

    /// The budget of a run, in instructions: what a call of `main` costs at its greatest measure by the rules on cost, at most
    /// 1,000,000,000,000. By the schedule theorem no run does more.
    pub fn budget(&self) -> u64
        ensures { result ≡ budget_of self.now }
    {
        self.budget
    }

    /// How many frames a serial run stands on one another at most by the table: the depth of `main` at its greatest measure. By the
    /// schedule theorem none is deeper.
    pub fn depth(&self) -> u64
        ensures { IsDepthOf self.now result }
    {
        self.depth
    }

    /// The costs and depths of all functions. What it says of a call is equal to the call's cost and depth: no accepted one comes near to what 64 bits hold.
    pub fn table(&self) -> &Table
        ensures { IsTableOf self.now result.now }
    {
        &self.table
    }
}

/// Takes a module whose text is right by each phase. The names of the text are hashed with `state`.
///
/// A refusal names a rule of the first phase with a fault, by its number, and the line that breaks it.
///
/// What facts show is searched for as long as it takes. For most texts that is no time; a text that is made for it may take hours. Who takes
/// texts of strangers asks [`verify_within`].
pub fn verify(alloc: Global, state: RandomState, text: &[u8]) -> Result<Verified, Refused>
    ensures accepted { IfOk result (IsProgramOf text.now) }
    ensures refused { IfErr result (IfBroken (IsRefused text.now)) }
{
    match verify_within(alloc, state, text, &Effort::unlimited()) {
        Ok(verified) => Ok(verified),
        Err(Unverified::Refused(refused)) => Err(refused),
        Err(Unverified::OutOfEffort { .. }) => unreachable!(),
    }
}

/// Takes a module whose text is right by each phase, where this effort is enough to say so. Where more is needed than a bounded one grants, there is no
/// verdict, and the text may be tried again with more: what was granted is named.
///
/// What it answers depends on the text alone, and on memory: a text that is verified within some effort is so on every machine. The last question may take
/// more than what is left, at most some second.
pub fn verify_within(
    alloc: Global,
    state: RandomState,
    text: &[u8],
    effort: &Effort,
) -> Result<Verified, Unverified>
    ensures accepted { IfOk result (IsProgramOf text.now) }
    ensures refused { IfErr result (IsUnverified text.now effort.now) }
{
    let module = read(alloc, state, text)?;
    let typed = check_types(alloc, state, module)?;
    let graph = graph(alloc, typed.program)?;
    let regions = regions(alloc, &graph)?;
    defined(alloc, &graph, &regions)?;
    let facts = check_ranges(alloc, &graph, &regions, effort)?;
    check_zones(alloc, &graph, &regions, &facts, effort)?;
    let table = check_cost(alloc, &graph, &regions, &facts, effort)?;
    let budget = budget_of(&graph.program, &table);
    let depth = depth_of(&graph.program, &table);
    Ok(Verified {
        graph,
        table,
        budget,
        depth,
    })
}
