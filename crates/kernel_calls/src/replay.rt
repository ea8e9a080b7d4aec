//! The call that runs a module that is kept by a schedule.

ghost use Rattle.std.specs.Prelude.{◌≡◌, ◌≢◌, ◌⊎◌, None, Some, length, sum};
ghost use Rattle.schedule_core.specs.Admission.{IsNumberOfWorkers};
ghost use Rattle.store.specs.Requirements.{unmet_in};
ghost use Rattle.semantics.specs.Events as running;
ghost use Rattle.schedule_core.specs.Stages.{IsState};
ghost use Rattle.schedule_text.specs.ScheduleText.{IsBadLine, IsTooLong};
ghost use Rattle.schedule_text.specs.declared.fault.ScheduleFault.TheVariants.{BadLine, TooLong};
ghost use Rattle.kernel_calls.specs.Told.{bad_arguments, done, other_cells, out_of_memory, sizes_in};
ghost use Rattle.kernel_calls.specs.Held.{HasOtherCellsHeld, LacksHeld, OfHeld, closed};
ghost use Rattle.kernel_calls.specs.Replayed.{ByText, EndsBy, HasEndedIn, StandsBy, StandsIn};
ghost use Rattle.kernel_calls.specs.Replayed.{IsReplayStatus, IsScheduleFault, IsScheduleStatus};
ghost use Rattle.kernel_calls.specs.Replayed.{bad_schedule, bad_workers, long_schedule, not_ended};

use crate::handle::Handle;
use crate::serial::{filled, not_begun, shown};
use crate::told::{
    BAD_SCHEDULE, CLOSED, LONG_SCHEDULE, NOT_ENDED, OUT_OF_MEMORY, Outcome, plain_outcome,
};
use schedule_core::{Event, Machine, replay};
use schedule_text::{ScheduleFault, read_schedule};
use std::alloc::Global;
use store::Finished;
use verifier::Verified;

/// What a run has come to: where it has ended the row takes the numbers of the globals.
fn come_to(machine: Machine<'_>, cells: &mut [i64]) -> Outcome
    ensures ended { result.status ≡ done → (m : running.Machine) → IsState machine.entry.stage m → HasEndedIn m cells.new result }
    ensures stands { result.status ≡ not_ended → (m : running.Machine) → IsState machine.entry.stage m → StandsIn m result }
    ensures kept { result.status ≢ done → cells.new ≡ cells.old }
    ensures statuses { (result.status ≡ done) ⊎ ((result.status ≡ not_ended) ⊎ (result.status ≡ out_of_memory)) }
{
    let instructions = machine.instructions();
    let peak = machine.peak();
    match machine.result() {
        Some(result) => {
            let finished = Finished {
                result,
                memory: machine.into_memory(),
                instructions,
                peak,
            };
            shown(&finished, cells)
        }
        None => Outcome {
            instructions,
            peak,
            ..plain_outcome(NOT_ENDED)
        },
    }
}

/// Runs a module by these events over a row of its globals' numbers.
#[tactic(auto, using(crate::proofs::Faults::lacks_what_is_told, crate::proofs::Faults::has_other_workers))]
fn replay_over(
    alloc: Global,
    kernel: &Verified,
    arguments: &[i64],
    cells: &mut [i64],
    workers: usize,
    events: &[Event],
) -> Outcome
    ensures ended { result.status ≡ done → EndsBy kernel.now arguments.now cells.old cells.new workers events.now result }
    ensures stands { result.status ≡ not_ended → StandsBy kernel.now arguments.now cells.old workers events.now result }
    ensures arguments { result.status ≡ bad_arguments → unmet_in kernel.now arguments.now ≡ Some result.requirement }
    ensures workers { result.status ≡ bad_workers → ¬ IsNumberOfWorkers workers }
    ensures cells { result.status ≡ other_cells → length cells.old ≢ sum (sizes_in kernel.now) }
    ensures kept { result.status ≢ done → cells.new ≡ cells.old }
    ensures statuses { IsReplayStatus result.status }
{
    // An accepted program.
    let _program = kernel.program();
    let memory = match filled(alloc, kernel, cells) {
        Ok(memory) => memory,
        Err(status) => return plain_outcome(status),
    };
    match replay(alloc, kernel, arguments, memory, workers, events) {
        Ok(machine) => come_to(machine, cells),
        Err(fault) => not_begun(fault),
    }
}

/// The outcome of a text that is no schedule.
fn schedule_fault(fault: ScheduleFault) -> Outcome
    ensures bad { result.status ≡ bad_schedule → fault ≡ BadLine result.line }
    ensures long { result.status ≡ long_schedule → fault ≡ TooLong result.line }
    ensures statuses { IsScheduleFault result.status }
{
    match fault {
        ScheduleFault::BadLine(line) => Outcome {
            line,
            ..plain_outcome(BAD_SCHEDULE)
        },
        ScheduleFault::TooLong(line) => Outcome {
            line,
            ..plain_outcome(LONG_SCHEDULE)
        },
        ScheduleFault::Memory => plain_outcome(OUT_OF_MEMORY),
    }
}

/// Runs the module that is held by a schedule, from the numbers of its globals, each global after the one before it.
pub fn replay_module(
    alloc: Global,
    handle: &mut Handle,
    arguments: &[i64],
    cells: &mut [i64],
    workers: usize,
    schedule: &[u8],
) -> Outcome
    ensures ended { result.status ≡ done → ByText schedule.now (λ events. OfHeld handle.old.kernel.program
        (λ p. EndsBy p arguments.now cells.old cells.new workers events result)) }
    ensures stands { result.status ≡ not_ended → ByText schedule.now (λ events. OfHeld handle.old.kernel.program
        (λ p. StandsBy p arguments.now cells.old workers events result)) }
    ensures bad { result.status ≡ bad_schedule → IsBadLine schedule.now result.line }
    ensures long { result.status ≡ long_schedule → IsTooLong schedule.now result.line }
    ensures arguments { result.status ≡ bad_arguments → LacksHeld handle.old.kernel.program arguments.now result.requirement }
    ensures workers { result.status ≡ bad_workers → ¬ IsNumberOfWorkers workers }
    ensures cells { result.status ≡ other_cells → HasOtherCellsHeld handle.old.kernel.program cells.old }
    ensures closed { result.status ≡ closed → handle.old.kernel.program ≡ None }
    ensures kept { result.status ≢ done → cells.new ≡ cells.old }
    ensures statuses { IsScheduleStatus result.status }
    ensures same { handle.new.kernel.program ≡ handle.old.kernel.program }
{
    match read_schedule(alloc, schedule) {
        Ok(events) => match handle.take(alloc) {
            Some(block) => {
                let (kernel, events) = (block.verified(), events.as_slice());
                let outcome = replay_over(alloc, kernel, arguments, cells, workers, events);
                handle.keep(block);
                outcome
            }
            None => plain_outcome(CLOSED),
        },
        Err(fault) => schedule_fault(fault),
    }
}
