//! What the workers' machine on the engine rests on is true of each program that `verify` takes, so it makes no test. There is no code to
//! run here.
//!
//! - `Safe`: wherever a schedule leads, each worker's frame can do its next step (`workers_runs_are_safe`), and what the text names is there (`texts_fit`).
//! - `RunsPromise`: so a run that shows a state to which a schedule leads stands safely, shows such a state again after each event, and keeps the
//!   schedule theorem.
//! - `strands`: a worker's frame may go on apart from the machine, alone or over borders (`frames_go_alone`, `frames_go_as_strands`).

ghost use Rattle.schedule_core.specs.laws_workers.RunsPromise.{RunsHoldGlobals, RunsKeepTheirSchedules, RunsStandSafely, RunsStayScheduled};
ghost use Rattle.schedule_core.specs.laws_workers.Safe.{WorkersRunsAreSafe, StartsFit, TextsFit};

pub mod strands;

pub use strands::{frames_go_alone, frames_go_as_strands, loaded_frames_go_as_strands};

/// Of a program that `verify` takes, with arguments that `main` takes and globals that have values: wherever a schedule leads, each worker's
/// frame can do its next step. It does not trap, the cells that it stores or adds to are there wherever objects lie, and its numbers fit.
pub fn workers_runs_are_safe()
    ensures { WorkersRunsAreSafe }
{}

/// What the text of such a program names is there: blocks, registers, objects, and room for the moves of each edge.
pub fn texts_fit()
    ensures { TextsFit }
{}

/// Its `main` is there, with an entry and a register for each argument.
pub fn starts_fit()
    ensures { StartsFit }
{}

/// So a run that shows a state to which a schedule leads stands safely.
pub fn runs_stand_safely()
    ensures { RunsStandSafely }
{}

/// After each event, whether it is enabled or not, the run shows the state to which one event more leads.
pub fn runs_stay_scheduled()
    ensures { RunsStayScheduled }
{}

/// Each cell of the globals has a value in that state, which stands in the run's row.
pub fn runs_hold_globals()
    ensures { RunsHoldGlobals }
{}

/// Such a run keeps the schedule theorem: its instructions are no more than serially, it has a result just where the root has returned, and
/// then it has the serial run's result, count, depth and globals.
pub fn runs_keep_their_schedules()
    ensures { RunsKeepTheirSchedules }
{}
