//! The budget and the greatest depth of a run: what a call of `main` costs at most, and how deep calls reach.

ghost use Rattle.std.specs.Prelude.{◌≡◌, slice_get};
ghost use Rattle.std.specs.Option.{option_copied};
ghost use Rattle.region_match.specs.declared.tables.Regions.{Regions};
ghost use Rattle.cost_table.specs.Tables.{IsTable};
ghost use Rattle.cost_table.specs.Rules.{AreCostsRight};
ghost use Rattle.verifier.specs.Accepted.{AreTasksOf};
ghost use Rattle.verifier.specs.Budgets.{budget_of, depth_of};
ghost use Rattle.verifier.specs.Limits.{IsWithinLimits};

use cost_table::Table;
use program::{Function, Program};

/// The function that a run begins with.
fn main_of(program: &Program) -> Option<&Function>
    ensures { option_copied result ≡ slice_get program.now.functions program.now.main.0 }
{
    program.functions.as_slice().get(program.main.0)
}

/// What a call of `main` costs at most.
pub fn budget_of(program: &Program, table: &Table) -> u64
    requires table { (regions : Regions) × IsTable program.now regions table.now }
    requires costs { AreCostsRight program.now }
    ensures { result ≡ budget_of program.now }
{
    match main_of(program) {
        Some(main) => table.cost(program.main.0, main.measure.bound).unwrap_or(0),
        None => 0,
    }
}

/// How many frames a call of `main` stands on one another at most. Within the limits of a text they are few, so the table has them whole.
pub fn depth_of(program: &Program, table: &Table) -> u64
    requires limits { IsWithinLimits program.now }
    ensures { (regions : Regions) → AreTasksOf program.now regions → IsTable program.now regions table.now → result ≡ depth_of program.now regions }
{
    match main_of(program) {
        Some(main) => table.depth(program.main.0, main.measure.bound).unwrap_or(0),
        None => 0,
    }
}
