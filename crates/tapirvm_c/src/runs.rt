//! The calls that run a module on one thread: serially, or by a schedule.

ghost use Rattle.std.specs.Prelude.{◌≡◌, ◌≢◌, IsSome, None};
ghost use Rattle.kernel_calls.specs.Held.{AreRuns, ExceedsHeld, HasOtherCellsHeld, IsHeldStatus, LacksHeld, OfHeld, RunsHeld, closed};
ghost use Rattle.kernel_calls.specs.Replayed.{ByText, EndsBy, IsScheduleStatus, StandsBy, bad_schedule, bad_workers, long_schedule, not_ended};
ghost use Rattle.kernel_calls.specs.Told.{Exceeds, HasOtherCells, IsOutcomeStatus, Lacks, Refuses, Runs};
ghost use Rattle.kernel_calls.specs.Told.{bad_arguments, done, other_cells, out_of_effort, out_of_fuel, refused, stopped, unbounded};
ghost use Rattle.schedule_core.specs.Admission.{IsNumberOfWorkers};
ghost use Rattle.schedule_text.specs.ScheduleText.{IsBadLine, IsTooLong};

use kernel_calls::{Handle, Outcome, RowsRequest, RunRequest, Seed, StopHandle};
use std::alloc::Global;

/// Verifies a module within some effort, and runs its serial elision within some fuel from the numbers of its globals, each global after the
/// one before it.
#[unsafe(no_mangle)]
pub extern "C" fn tapirvm_serial(
    alloc: Global,
    text: &[u8],
    seed_low: u64,
    seed_high: u64,
    effort: u64,
    fuel: u64,
    arguments: &[i64],
    cells: &mut [i64],
    outcome: &mut Outcome,
)
    ensures ran { outcome.new.status ≡ done → Runs text.now fuel arguments.now cells.old cells.new outcome.new }
    ensures fuel { outcome.new.status ≡ out_of_fuel → Exceeds text.now fuel arguments.now cells.old }
    ensures refused { outcome.new.status ≡ refused → Refuses text.now outcome.new.rule outcome.new.line }
    ensures effort { outcome.new.status ≡ out_of_effort → effort ≢ unbounded }
    ensures arguments { outcome.new.status ≡ bad_arguments → Lacks text.now arguments.now outcome.new.requirement }
    ensures cells { outcome.new.status ≡ other_cells → HasOtherCells text.now cells.old }
    ensures kept { outcome.new.status ≢ done → cells.new ≡ cells.old }
    ensures statuses { IsOutcomeStatus outcome.new.status }
{
    let seed = Seed {
        low: seed_low,
        high: seed_high,
    };
    let request = RunRequest { arguments, fuel };
    *outcome = kernel_calls::verify_and_run(alloc, text, &seed, effort, &request, cells);
}

/// Runs the serial elision of the module that is held, within some fuel and unless it is stopped, from the numbers of its globals, each global after the one
/// before it.
#[unsafe(no_mangle)]
pub extern "C" fn tapirvm_run(
    alloc: Global,
    handle: &mut Handle,
    fuel: u64,
    stop: &mut StopHandle,
    arguments: &[i64],
    cells: &mut [i64],
    outcome: &mut Outcome,
)
    ensures ran { outcome.new.status ≡ done → RunsHeld handle.old.kernel.program fuel arguments.now cells.old cells.new outcome.new }
    ensures fuel { outcome.new.status ≡ out_of_fuel → ExceedsHeld handle.old.kernel.program fuel arguments.now cells.old }
    ensures arguments { outcome.new.status ≡ bad_arguments → LacksHeld handle.old.kernel.program arguments.now outcome.new.requirement }
    ensures cells { outcome.new.status ≡ other_cells → HasOtherCellsHeld handle.old.kernel.program cells.old }
    ensures closed { outcome.new.status ≡ closed → handle.old.kernel.program ≡ None }
    ensures kept { outcome.new.status ≢ done → cells.new ≡ cells.old }
    ensures stopped { outcome.new.status ≡ stopped → IsSome stop.old.stop.kept }
    ensures statuses { IsHeldStatus outcome.new.status }
    ensures same { handle.new.kernel.program ≡ handle.old.kernel.program }
    ensures stop { stop.new.stop.kept ≡ stop.old.stop.kept }
{
    let request = RunRequest { arguments, fuel };
    *outcome = kernel_calls::run_module(alloc, handle, stop, &request, cells);
}

/// Runs the module that is held once for each outcome, as `tapirvm_run` does: the first run has the first of the arguments and of the cells, so
/// many each, and the next run those that follow.
#[unsafe(no_mangle)]
pub extern "C" fn tapirvm_rows(
    alloc: Global,
    handle: &mut Handle,
    fuel: u64,
    stop: &mut StopHandle,
    arguments_each: usize,
    arguments: &[i64],
    cells_each: usize,
    cells: &mut [i64],
    outcomes: &mut [Outcome],
)
    ensures rows { AreRuns handle.old.kernel.program fuel arguments_each cells_each arguments.now cells.old cells.new outcomes.new }
    ensures same { handle.new.kernel.program ≡ handle.old.kernel.program }
    ensures stop { stop.new.stop.kept ≡ stop.old.stop.kept }
{
    let rows = RowsRequest {
        arguments,
        arguments_each,
        cells_each,
        fuel,
    };
    kernel_calls::run_each_row(alloc, handle, stop, &rows, cells, outcomes);
}

/// Runs the module that is held by a schedule, from the numbers of its globals, each global after the one before it.
#[unsafe(no_mangle)]
pub extern "C" fn tapirvm_replay(
    alloc: Global,
    handle: &mut Handle,
    arguments: &[i64],
    cells: &mut [i64],
    workers: usize,
    schedule: &[u8],
    outcome: &mut Outcome,
)
    ensures ended { outcome.new.status ≡ done → ByText schedule.now (λ events. OfHeld handle.old.kernel.program
        (λ p. EndsBy p arguments.now cells.old cells.new workers events outcome.new)) }
    ensures stands { outcome.new.status ≡ not_ended → ByText schedule.now (λ events. OfHeld handle.old.kernel.program
        (λ p. StandsBy p arguments.now cells.old workers events outcome.new)) }
    ensures bad { outcome.new.status ≡ bad_schedule → IsBadLine schedule.now outcome.new.line }
    ensures long { outcome.new.status ≡ long_schedule → IsTooLong schedule.now outcome.new.line }
    ensures arguments { outcome.new.status ≡ bad_arguments → LacksHeld handle.old.kernel.program arguments.now outcome.new.requirement }
    ensures workers { outcome.new.status ≡ bad_workers → ¬ IsNumberOfWorkers workers }
    ensures cells { outcome.new.status ≡ other_cells → HasOtherCellsHeld handle.old.kernel.program cells.old }
    ensures closed { outcome.new.status ≡ closed → handle.old.kernel.program ≡ None }
    ensures kept { outcome.new.status ≢ done → cells.new ≡ cells.old }
    ensures statuses { IsScheduleStatus outcome.new.status }
    ensures same { handle.new.kernel.program ≡ handle.old.kernel.program }
{
    *outcome = kernel_calls::replay_module(alloc, handle, arguments, cells, workers, schedule);
}
