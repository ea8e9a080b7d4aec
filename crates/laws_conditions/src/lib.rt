//! Local conditions, each about one frame at one place, give every schedule; rules on the text give the conditions. There is no code to
//! run here. `specs/` and `proofs/` have three folders:
//!
//! - `theorem`: the conditions (`Conditions`; `SerialConditions` and `Budgets` for the serial run alone) and the schedule theorem over them
//!   (`Schedules`): `every_schedule`, `serial_run_exists`.
//! - `rules`: rules as a verifier checks them, about places of the text and forms that facts show, give the conditions: `registers_kept`,
//!   `serial_run_within_tables`, `schedules_within_tables`. `Moves`: what an instruction that does not trap leaves of its frame.
//!   `Registers`: registers that have a value. `Edges`, `ShownCosts`, `Costs`: the rules on cost as facts show them, and as inequalities
//!   at frames. `Depths`: what the table of depths owes. `Serially`: what all of it gives of the serial run.
//! - `sample`: a program that meets all of it, so nothing is void: `pair_on_every_schedule`, `pair_on_two_workers`, `pair_within_tables`.
#![tactic(auto)]

ghost use Rattle.laws_conditions.specs.rules.Registers.{RegistersKept};
ghost use Rattle.laws_conditions.specs.rules.Serially.{SchedulesWithinTables, SerialRunWithinTables};
ghost use Rattle.laws_conditions.specs.sample.Pair.{PairOnEverySchedule, PairOnTwoWorkers};
ghost use Rattle.laws_conditions.specs.sample.PairCosts.{PairWithinTables};
ghost use Rattle.laws_conditions.specs.theorem.Budgets.{SerialRunExists};
ghost use Rattle.laws_conditions.specs.theorem.Schedules.{EverySchedule};

/// The schedule theorem: a program that meets the local conditions, for arguments and memory for which they hold at the root within a
/// budget and a depth, has one serial meaning, within both; and on any number of workers, whatever the events, no step traps, no run
/// does more instructions than the serial one, living frames are at most the workers times the serial depth, and each run that
/// ends has the serial memory, result, count and depth.
pub fn every_schedule()
    ensures { EverySchedule }
{}

/// Where the local conditions for the serial run hold, no instruction of it traps, and it ends within its budget and depth.
pub fn serial_run_exists()
    ensures { SerialRunExists }
{}

/// Where each register that is defined at a place was defined before it or is given a value on the step or edge to it, the serial run
/// keeps a value in each; and a function that returns a number gives one.
pub fn registers_kept()
    ensures { RegistersKept }
{}

/// Where the facts of each place show the rules on cost and are true of the registers, the depths are those of a table, and what the
/// other phases keep rules out traps, the serial run ends within the cost and the depth that the tables say of `main`.
pub fn serial_run_within_tables()
    ensures { SerialRunWithinTables }
{}

/// The schedule theorem with the tables' cost and depth of `main` for its budget and depth, where the conditions on zones and regions
/// hold too.
pub fn schedules_within_tables()
    ensures { SchedulesWithinTables }
{}

/// The sample program `pair` meets all local conditions, and the schedule theorem holds of it with a budget of 14 and a depth of 2:
/// whatever its argument n, its serial run uses both whole and gives n + n.
pub fn pair_on_every_schedule()
    ensures { PairOnEverySchedule }
{}

/// One schedule of `pair` on two workers, by the definitions: after a steal the root stalls at its sync, and the worker of the
/// child takes it at the reattach.
pub fn pair_on_two_workers()
    ensures { PairOnTwoWorkers }
{}

/// The sample program `pair` meets these rules by its own annotations, with no fact at any place: its serial run is within 14
/// instructions and 2 frames.
pub fn pair_within_tables()
    ensures { PairWithinTables }
{}
