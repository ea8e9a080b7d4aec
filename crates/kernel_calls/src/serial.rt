//! The serial run over a row of the globals' numbers, and the call that judges a text anew for it.

ghost use Rattle.std.specs.Prelude.{◌≡◌, ◌≢◌, ◌⊎◌, IfErr, IfOk, IsSome, None, OnOk, Some, length, sum};
ghost use Rattle.store.specs.Requirements.{unmet_in};
ghost use Rattle.store.specs.Made.{IsMadeFor};
ghost use Rattle.store.specs.Named.{HasGlobalCells};
ghost use Rattle.serial_machine.specs.Decoding.{IsCodeOf};
ghost use Rattle.kernel_calls.specs.Faults.{IsFaultStatus, Tells};
ghost use Rattle.kernel_calls.specs.Until.{IsWatchedStatus};
ghost use Rattle.kernel_calls.specs.Told.{Exceeds, ExceedsProgram, HasOtherCells, IsOutcomeStatus, IsRunStatus, Lacks, Refuses, Runs, RunsProgram, Shows};
ghost use Rattle.kernel_calls.specs.Told.{bad_arguments, done, memory_from, other_cells, sizes_in};
ghost use Rattle.kernel_calls.specs.Told.{out_of_effort, out_of_fuel, out_of_memory, refused, stopped, unbounded};

use crate::cells::count_cells;
use crate::hosted::Stop;
use crate::judge::rejection;
use crate::prepared::Prepared;
use crate::requests::RunRequest;
use crate::seed::{Seed, verify_seeded};
use crate::told::{
    BAD_ARGUMENTS, BAD_WORKERS, DONE, OTHER_CELLS, OUT_OF_FUEL, OUT_OF_MEMORY, Outcome, STOPPED,
    plain_outcome,
};
use crate::until::{FIRST, Watched, run_watched};
use lists::OutOfMemory;
use serial_machine::{Decoded, Unfinished, serial_run_within_by};
use std::alloc::Global;
use store::{Finished, Memory, RunFault};
use verifier::Verified;

/// Memory with the numbers of a row; else the status: there are not as many as the globals have cells, or memory was refused.
pub fn filled(alloc: Global, kernel: &Verified, cells: &[i64]) -> Result<Memory, u32>
    ensures filled { IfOk result (λ memory. memory ≡ memory_from kernel.now cells.now) }
    ensures long { OnOk result (length cells.now ≡ sum (sizes_in kernel.now)) }
    ensures cells { IfOk result (HasGlobalCells kernel.now) }
    ensures made { IfOk result (IsMadeFor kernel.now) }
    ensures other { IfErr result (λ status. status ≡ other_cells → length cells.now ≢ sum (sizes_in kernel.now)) }
    ensures statuses { IfErr result (λ status. (status ≡ other_cells) ⊎ (status ≡ out_of_memory)) }
{
    if count_cells(kernel.program()) != cells.len() as u64 {
        return Err(OTHER_CELLS);
    }
    let Ok(mut memory) = Memory::zeroed(alloc, kernel) else {
        return Err(OUT_OF_MEMORY);
    };
    memory.refill(cells);
    Ok(memory)
}

/// The row takes the numbers of the globals at the end.
pub fn shown(finished: &Finished, cells: &mut [i64]) -> Outcome
    ensures ran { result.status ≡ done → Shows finished.now cells.new result }
    ensures kept { result.status ≢ done → cells.new ≡ cells.old }
    ensures statuses { (result.status ≡ done) ⊎ (result.status ≡ out_of_memory) }
{
    match finished.memory.row() {
        // (The globals have as many cells as at the start.)
        Ok(row) if row.len() == cells.len() => {
            cells.copy_from_slice(row.as_slice());
            Outcome {
                result: finished.result,
                instructions: finished.instructions,
                peak: finished.peak,
                ..plain_outcome(DONE)
            }
        }
        _ => plain_outcome(OUT_OF_MEMORY),
    }
}

/// The outcome of a run that does not begin.
pub fn not_begun(fault: RunFault) -> Outcome
    ensures tells { Tells fault result }
    ensures statuses { IsFaultStatus result.status }
{
    match fault {
        RunFault::BadArguments { requirement, .. } => Outcome {
            requirement: requirement as u64,
            ..plain_outcome(BAD_ARGUMENTS)
        },
        RunFault::BadWorkers { .. } => plain_outcome(BAD_WORKERS),
        // (Nothing stops it.)
        RunFault::OutOfMemory | RunFault::Stopped => plain_outcome(OUT_OF_MEMORY),
    }
}

/// Runs a module by its code within some fuel over a row of its globals' numbers.
fn run_by(
    alloc: Global,
    kernel: &Verified,
    code: &Decoded,
    request: &RunRequest<'_>,
    cells: &mut [i64],
) -> Outcome
    requires code { IsCodeOf kernel.now code.now }
    ensures ran { result.status ≡ done → RunsProgram kernel.now request.now.fuel request.now.arguments.now cells.old cells.new result }
    ensures fuel { result.status ≡ out_of_fuel → ExceedsProgram kernel.now request.now.fuel request.now.arguments.now cells.old }
    ensures arguments { result.status ≡ bad_arguments → unmet_in kernel.now request.now.arguments.now ≡ Some result.requirement }
    ensures cells { result.status ≡ other_cells → length cells.old ≢ sum (sizes_in kernel.now) }
    ensures kept { result.status ≢ done → cells.new ≡ cells.old }
    ensures statuses { IsRunStatus result.status }
{
    let memory = match filled(alloc, kernel, cells) {
        Ok(memory) => memory,
        Err(status) => return plain_outcome(status),
    };
    match serial_run_within_by(alloc, kernel, code, request.arguments, memory, request.fuel) {
        Ok(finished) => shown(&finished, cells),
        Err(Unfinished::OutOfFuel { .. }) => plain_outcome(OUT_OF_FUEL),
        Err(Unfinished::Fault(RunFault::BadArguments { requirement, .. })) => Outcome {
            requirement: requirement as u64,
            ..plain_outcome(BAD_ARGUMENTS)
        },
        Err(Unfinished::Fault(RunFault::OutOfMemory)) => plain_outcome(OUT_OF_MEMORY),
        Err(Unfinished::Fault(_)) => unreachable!(),
    }
}

/// Runs a module strand by strand over a row of its globals' numbers, unless it is stopped.
fn run_on(
    alloc: Global,
    kernel: &Verified,
    request: &RunRequest<'_>,
    cells: &mut [i64],
    stop: &Stop,
) -> Outcome
    requires taken { unmet_in kernel.now request.now.arguments.now ≡ None }
    ensures ran { result.status ≡ done → RunsProgram kernel.now request.now.fuel request.now.arguments.now cells.old cells.new result }
    ensures fuel { result.status ≡ out_of_fuel → ExceedsProgram kernel.now request.now.fuel request.now.arguments.now cells.old }
    ensures cells { result.status ≡ other_cells → length cells.old ≢ sum (sizes_in kernel.now) }
    ensures kept { result.status ≢ done → cells.new ≡ cells.old }
    ensures stopped { result.status ≡ stopped → IsSome stop.now.word }
    ensures statuses { IsWatchedStatus result.status }
{
    let memory = match filled(alloc, kernel, cells) {
        Ok(memory) => memory,
        Err(status) => return plain_outcome(status),
    };
    match run_watched(alloc, kernel, request.fuel, stop, request.arguments, memory) {
        Watched::Finished(finished) => shown(&finished, cells),
        Watched::OutOfFuel => plain_outcome(OUT_OF_FUEL),
        Watched::Stopped => plain_outcome(STOPPED),
        Watched::OutOfMemory => plain_outcome(OUT_OF_MEMORY),
    }
}

/// Runs a prepared module within some fuel over a row of its globals' numbers, unless it is stopped. Where somebody may stop it, and it has more to do than
/// its first instructions, it begins again, strand by strand.
#[tactic(auto, using(crate::proofs::Watching::more_fuel, crate::proofs::Watching::runs_kept, crate::proofs::Watching::exceeds_kept))]
pub fn run_over(
    alloc: Global,
    kernel: &Prepared,
    request: &RunRequest<'_>,
    cells: &mut [i64],
    stop: &Stop,
) -> Outcome
    ensures ran { result.status ≡ done → RunsProgram kernel.now request.now.fuel request.now.arguments.now cells.old cells.new result }
    ensures fuel { result.status ≡ out_of_fuel → ExceedsProgram kernel.now request.now.fuel request.now.arguments.now cells.old }
    ensures arguments { result.status ≡ bad_arguments → unmet_in kernel.now request.now.arguments.now ≡ Some result.requirement }
    ensures cells { result.status ≡ other_cells → length cells.old ≢ sum (sizes_in kernel.now) }
    ensures kept { result.status ≢ done → cells.new ≡ cells.old }
    ensures stopped { result.status ≡ stopped → IsSome stop.now.word }
    ensures statuses { (result.status ≡ stopped) ⊎ IsRunStatus result.status }
{
    if stop.is_set() {
        return plain_outcome(STOPPED);
    }
    let (module, code) = (kernel.verified(), kernel.code());
    if !stop.is_live() || request.fuel <= FIRST {
        return run_by(alloc, module, code, request, cells);
    }
    let first = RunRequest {
        fuel: FIRST,
        ..*request
    };
    let outcome = run_by(alloc, module, code, &first, cells);
    if outcome.status == OUT_OF_FUEL {
        run_on(alloc, module, request, cells, stop)
    } else {
        outcome
    }
}

/// Verifies a module within some effort, and runs its serial elision within some fuel from the numbers of its globals, each global after the
/// one before it.
#[tactic(auto, using(crate::proofs::Bounded::bounded_is))]
pub fn verify_and_run(
    alloc: Global,
    text: &[u8],
    seed: &Seed,
    effort: u64,
    request: &RunRequest<'_>,
    cells: &mut [i64],
) -> Outcome
    ensures ran { result.status ≡ done → Runs text.now request.now.fuel request.now.arguments.now cells.old cells.new result }
    ensures fuel { result.status ≡ out_of_fuel → Exceeds text.now request.now.fuel request.now.arguments.now cells.old }
    ensures refused { result.status ≡ refused → Refuses text.now result.rule result.line }
    ensures effort { result.status ≡ out_of_effort → effort ≢ unbounded }
    ensures arguments { result.status ≡ bad_arguments → Lacks text.now request.now.arguments.now result.requirement }
    ensures cells { result.status ≡ other_cells → HasOtherCells text.now cells.old }
    ensures kept { result.status ≢ done → cells.new ≡ cells.old }
    ensures statuses { IsOutcomeStatus result.status }
{
    match verify_seeded(alloc, seed, text, effort) {
        Ok(kernel) => match Decoded::of(alloc, &kernel) {
            Ok(code) => run_by(alloc, &kernel, &code, request, cells),
            Err(OutOfMemory) => plain_outcome(OUT_OF_MEMORY),
        },
        Err(why) => {
            let verdict = rejection(why);
            Outcome {
                rule: verdict.rule,
                line: verdict.line,
                ..plain_outcome(verdict.status)
            }
        }
    }
}
