//! The table of all functions' costs and depths, how it is made, and the task labels that it asks for, by function and block.

ghost use Rattle.std.specs.Prelude.{◌≡◌, IfOk, slice_get};
ghost use Rattle.std.specs.Option.{option_copied};
ghost use Rattle.program.specs.declared.function.Program.{Program};
ghost use Rattle.ranges.specs.region_match.declared.tables.Regions.{Regions};
ghost use Rattle.cost_table.specs.Depth.{tasks_of};
ghost use Rattle.cost_table.specs.Tables.{IsEntryOver, IsTable, cost_at, depth_at};

use crate::depth::{flat_depth, self_calls_depth};
use crate::entry::FunctionCost;
use lists::{OutOfMemory, Seq};
use program::{Budget, Function, Program};
use ranges::{Regions, Task};
use std::alloc::Global;

/// The costs and depths of all functions' calls.
pub struct Table {
    pub functions: Seq<FunctionCost>,
}

/// Written out, so that no crate above proves it anew.
impl Drop for Table {
    fn drop(self) {
        let Table { functions: _ } = self;
    }
}

impl Table {
    /// What the table keeps of a function.
    fn entry(&self, function: usize) -> Option<&FunctionCost>
        ensures { option_copied result ≡ slice_get self.now.functions function }
    {
        self.functions.as_slice().get(function)
    }

    /// What a call of a function costs at most whose measure is this number: the instructions that it and all calls above it do. None where there
    /// is no such function, or beyond its measure's bound. `u64::MAX` stands for more.
    pub fn cost(&self, function: usize, measure: u64) -> Option<u64>
        ensures { (program : Program) (regions : Regions) → IsTable program regions self.now → result ≡ cost_at program function measure }
    {
        match self.entry(function) {
            Some(entry) => entry.cost(measure),
            None => None,
        }
    }

    /// How many frames a call of a function stands on one another at most whose measure is this number, from its own on. None where there is no
    /// such function, or beyond its measure's bound. `u64::MAX` stands for more.
    pub fn depth(&self, function: usize, measure: u64) -> Option<u64>
        ensures { (program : Program) (regions : Regions) → IsTable program regions self.now → result ≡ depth_at program regions function measure }
    {
        match self.entry(function) {
            Some(entry) => entry.depth(measure),
            None => None,
        }
    }
}

/// The tasks of a function's blocks.
fn tasks_of(regions: &Regions, function: usize) -> &[Task]
    ensures { result.now ≡ tasks_of regions.now function }
{
    match regions.functions.as_slice().get(function) {
        Some(function) => function.tasks.as_slice(),
        None => &[],
    }
}

/// The row of a function, by the depths of those before it.
fn entry_of(before: &[u64], index: usize, tasks: &[Task], function: &Function) -> FunctionCost
    ensures { IsEntryOver before.now index tasks.now function.now result }
{
    let blocks = function.blocks.as_slice();
    FunctionCost {
        bound: function.measure.bound,
        budget: function.budget,
        flat: flat_depth(before, index, tasks, blocks),
        rise: self_calls_depth(index, tasks, blocks),
    }
}

/// The table of a program whose regions are matched.
pub fn make_table(alloc: Global, program: &Program, regions: &Regions) -> Result<Table, OutOfMemory>
    ensures { IfOk result (IsTable program.now regions.now) }
{
    let mut entries: Vec<FunctionCost> = Vec::new(alloc);
    let mut depths: Vec<u64> = Vec::new(alloc);
    let functions = program.functions.as_slice();
    for (index, function) in functions.iter().enumerate() {
        let entry = entry_of(depths.as_slice(), index, tasks_of(regions, index), function);
        depths.push(entry.whole_depth())?;
        entries.push(entry)?;
    }
    Ok(Table {
        functions: Seq::from_vec(entries),
    })
}
