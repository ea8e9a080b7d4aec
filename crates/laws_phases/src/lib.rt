//! What the rules of each phase of the verifier, as the phase defines them, owe the machine: laws about the frames of a run. There is no
//! code to run here. `specs/` and `proofs/` have a folder for each subject; the laws below stand in the same order.
//!
//! - `defined`: regions and definedness. `Names`: what the laws ask of the rules on names, types and the graph. `Placed`: each frame stands
//!   in a block whose task suits its role. `Regions`: the regions of a frame's task are its own. `Defined`: registers that are defined on
//!   each path to a place. `Stable`, `Known`: what a step leaves alone: no register that its place names, or that is known there. `Values`:
//!   cells that have values. `Starting`: the first frame.
//! - `regions`: which regions are open at a block, whatever the schedule. One is open where a path from behind a detach within it leads to
//!   the block, in one task and with no sync of the region.
//! - `facts`: `Known`: what is known at a place, and that it holds in a frame there. `Owing`, `Stable`: what other phases owe for it.
//!   `Kept`, `Traps`: facts are kept, and nothing traps where they hold. `Handed`: the facts as the rules on cost look for them.
//! - `zones`: `Uses`: how an effect uses cells, and what lets a frame use a cell at its place. `Accesses`, `Children`, `Callees`: what is
//!   touched is covered, and clear of what is pending. `Edges`, `Stays`: what is pending goes on. `Tables`: tasks have one table.
//! - `costs`: `Depths`, `Levels`: the depths of the table. `Shown`: facts show the rules on cost. `Ends`: the serial run from any place ends.
#![tactic(auto)]

ghost use Rattle.laws_phases.specs.costs.Depths.{DepthsTabled};
ghost use Rattle.laws_phases.specs.costs.Ends.{EndsFromAnyPlace, RunEndsWithinBudget};
ghost use Rattle.laws_phases.specs.costs.Levels.{LevelsByTasks};
ghost use Rattle.laws_phases.specs.costs.Shown.{CostsAreShown};
ghost use Rattle.laws_phases.specs.defined.Defined.{DefinedAreKept, UsesAreDefined};
ghost use Rattle.laws_phases.specs.defined.Known.{KnownIsStable};
ghost use Rattle.laws_phases.specs.defined.Placed.{PlacesHaveItems, RolesFitTasks, TasksKept};
ghost use Rattle.laws_phases.specs.defined.Regions.{RegionsAreKept, RegionsAreOwn};
ghost use Rattle.laws_phases.specs.defined.Stable.{StableByRules};
ghost use Rattle.laws_phases.specs.defined.Starting.{StartsWell};
ghost use Rattle.laws_phases.specs.defined.Values.{ReadsHaveValues, ValuesAreKept};
ghost use Rattle.laws_phases.specs.facts.Handed.{FactsAtStart, FactsHandedOn, FactsTabled};
ghost use Rattle.laws_phases.specs.facts.Kept.{FactsKept};
ghost use Rattle.laws_phases.specs.facts.Stable.{FactsAreStable};
ghost use Rattle.laws_phases.specs.facts.Traps.{NoTraps};
ghost use Rattle.laws_phases.specs.regions.Closed.{RegionsAreClosed, StartsInPlace};
ghost use Rattle.laws_phases.specs.zones.Accesses.{AccessesAreLet};
ghost use Rattle.laws_phases.specs.zones.Callees.{CalleesAreLet};
ghost use Rattle.laws_phases.specs.zones.Children.{FeetAreLet};
ghost use Rattle.laws_phases.specs.zones.Edges.{FeetGoOn, PendingGoesOn};
ghost use Rattle.laws_phases.specs.zones.Stays.{ZonesStay};
ghost use Rattle.laws_phases.specs.zones.Tables.{TasksHaveOneTable};

/// Along the serial run each frame stands in a block of its function, and its role is that of the block's task.
pub fn tasks_are_kept()
    ensures { TasksKept }
{}

/// Something stands at the place of a frame so placed, where the rules on the graph hold.
pub fn places_have_items()
    ensures { PlacesHaveItems }
{}

/// Where the rules on regions hold, a frame so placed returns only as a function's own frame, and reattaches only as a child, with the
/// region and the continuation of the detach that made it.
pub fn roles_fit_tasks()
    ensures { RolesFitTasks }
{}

/// Along the serial run each register that is defined on every path to a frame's place has a value in the frame, and a function that
/// returns a number gives one.
pub fn defined_registers_are_kept()
    ensures { DefinedAreKept }
{}

/// Where the rule on registers holds, each register that an instruction uses is defined on every path to it.
pub fn uses_are_defined()
    ensures { UsesAreDefined }
{}

/// Along the serial run the cells of each alloca that a labelling holds, sure or due, have values, and so have those of globals and of what
/// pointer parameters point to. What a frame leaves keeps the values above it, and a child has stored what is sure wherever it may end.
pub fn values_are_kept()
    ensures { ValuesAreKept }
{}

/// In such a frame no load and no atomic addition reads a cell without a value, where the rules on definedness hold.
pub fn reads_have_values()
    ensures { ReadsHaveValues }
{}

/// Where the rules on registers, regions and the graph hold, no step defines a register that an annotation, a `shows` line or an operand
/// of its place names, nor a phi one that the zones of its child name.
pub fn registers_are_stable()
    ensures { StableByRules }
{}

/// So no fact that is known at a step names the register that the step defines.
pub fn known_facts_are_stable()
    ensures { KnownIsStable }
{}

/// Along the serial run each region of a frame's own task was started by the frame, and a register that a step defines has a value only in
/// frames of its task and of those within.
pub fn regions_are_kept()
    ensures { RegionsAreKept }
{}

/// So a detach and a sync name a region of their own frame, where the rules on regions hold and the register has a value.
pub fn regions_are_own()
    ensures { RegionsAreOwn }
{}

/// Where `main` is there, gets as many arguments as it has parameters, and each cell of the globals has a value, the first frame is placed,
/// has the values that definedness speaks of, owns its regions, and has values in the registers that are defined.
pub fn starts_well()
    ensures { StartsWell }
{}

/// Where the rules on names, the graph and regions hold, a test of a frame's place says which regions are open there, and with it the
/// theorem's conditions on regions hold of frames that stand in a block of their task: every step of every frame keeps what is open, a
/// detach opens its region, a sync closes its own alone, and nothing is open where a frame reattaches or returns.
pub fn regions_are_closed()
    ensures { RegionsAreClosed }
{}

/// The first frame of a run stands in a block of its task, where `main` is there.
pub fn starts_in_place()
    ensures { StartsInPlace }
{}

/// Where no rule on numbers is broken, facts that hold in a frame hold in each frame that an instruction makes of it; and of what a
/// function returns its `ensures` are true.
pub fn facts_kept()
    ensures { FactsKept }
{}

/// Where no rule on numbers is broken and the facts of a frame's place hold, its instruction does not trap, if all that it reads is there
/// and the frame's region and role are those that it names: an index lies in its object, a divisor is not 0, no division is of the least
/// value by -1, no sum, difference or product under `nsw` passes its width, and no shift is by the width or more.
pub fn no_traps()
    ensures { NoTraps }
{}

/// The facts of places and edges hold where the rules on cost look for them: at a frame's place, on the edge that it takes, and at both targets of
/// a detach.
pub fn facts_handed_on()
    ensures { FactsHandedOn }
{}

/// Where the arguments meet what `main` requires, the facts hold in the first frame.
pub fn facts_at_start()
    ensures { FactsAtStart }
{}

/// The facts of a place are those of the table that `check_ranges` answers.
pub fn facts_tabled()
    ensures { FactsTabled }
{}

/// Where the rules on registers, regions and the graph hold, registers are as stable as the law on facts asks: no step defines one that a
/// fact known at its place names, or that an instruction before it in its block reads or defines.
pub fn facts_are_stable()
    ensures { FactsAreStable }
{}

/// Where no rule on zones is broken, each cell that a frame's instruction uses lies in a zone that covers the frame's block, for this
/// use, and no zone that is pending there is in its way: given that what is known at the place holds, that its names stand for
/// different objects, and that elements of the block point where their `getelementptr` says.
pub fn accesses_are_let()
    ensures { AccessesAreLet }
{}

/// So does each cell of the foot of a new child, at the detach: the zone is covered, and clear of what is pending.
pub fn feet_are_let()
    ensures { FeetAreLet }
{}

/// So does each cell of a callee's zones, at the call: with the arguments put in they are covered, and clear of what is pending.
pub fn callees_are_let()
    ensures { CalleesAreLet }
{}

/// A cell of a zone that is pending is one of a zone that is pending of the same region behind each edge that hands the region on, where what
/// is known on the edge holds.
pub fn pending_goes_on()
    ensures { PendingGoesOn }
{}

/// A cell of the foot of a new child is one of a zone that is pending of the detach's region at the continuation.
pub fn feet_go_on()
    ensures { FeetGoOn }
{}

/// A zone has the same cells before and behind an instruction that goes on in its block and writes no register that the zone names.
pub fn zones_stay()
    ensures { ZonesStay }
{}

/// The tasks of the blocks of a program have one table: what the rules on zones say by some table of them they say by each.
pub fn tasks_have_one_table()
    ensures { TasksHaveOneTable }
{}

/// Where each function calls itself or one further up in the text, the depths by the blocks' tasks are those of a table, as far as each call
/// and each block goes.
pub fn depths_tabled()
    ensures { DepthsTabled }
{}

/// Where each block has one task, the detaches around the blocks are the levels that depths are counted by: the same along a jump and a
/// sync, one more in the child of a detach.
pub fn levels_by_tasks()
    ensures { LevelsByTasks }
{}

/// Where no rule on cost is broken, the facts of each place show that what is left is at least 0 and covers what the block does and what is
/// left behind each edge, that the measure is within its bound and falls at self calls, and that the budget covers what is left at the entry.
pub fn costs_are_shown()
    ensures { CostsAreShown }
{}

/// From any place where the facts are true the serial run ends without a trap, within what is left there and no deeper than the table says
/// of the block: given that what a frame reads is there and its numbers are of their widths.
pub fn ends_from_any_place()
    ensures { EndsFromAnyPlace }
{}

/// So the serial run of a program ends, within the cost and the depth of `main` at its greatest measure, where the arguments meet what `main`
/// requires.
pub fn run_ends_within_budget()
    ensures { RunEndsWithinBudget }
{}
