//! The call that runs a module that is kept.

ghost use Rattle.std.specs.Prelude.{◌≡◌, ◌≢◌, IsSome, None};
ghost use Rattle.kernel_calls.specs.Told.{bad_arguments, done, other_cells, out_of_fuel, stopped};
ghost use Rattle.kernel_calls.specs.Held.{ExceedsHeld, HasOtherCellsHeld, IsHeldStatus, LacksHeld, RunsHeld, closed};

use crate::handle::Handle;
use crate::requests::RunRequest;
use crate::serial::run_over;
use crate::stop::StopHandle;
use crate::told::{CLOSED, OUT_OF_MEMORY, Outcome, plain_outcome};
use std::alloc::Global;

/// Runs the serial elision of the module that is held, within some fuel and unless it is stopped, from the numbers of its globals, each global after the one
/// before it.
pub fn run_module(
    alloc: Global,
    handle: &mut Handle,
    stop: &mut StopHandle,
    request: &RunRequest<'_>,
    cells: &mut [i64],
) -> Outcome
    ensures ran { result.status ≡ done → RunsHeld handle.old.kernel.program request.now.fuel request.now.arguments.now cells.old cells.new result }
    ensures fuel { result.status ≡ out_of_fuel → ExceedsHeld handle.old.kernel.program request.now.fuel request.now.arguments.now cells.old }
    ensures arguments { result.status ≡ bad_arguments → LacksHeld handle.old.kernel.program request.now.arguments.now result.requirement }
    ensures cells { result.status ≡ other_cells → HasOtherCellsHeld handle.old.kernel.program cells.old }
    ensures closed { result.status ≡ closed → handle.old.kernel.program ≡ None }
    ensures kept { result.status ≢ done → cells.new ≡ cells.old }
    ensures stopped { result.status ≡ stopped → IsSome stop.old.stop.kept }
    ensures statuses { IsHeldStatus result.status }
    ensures same { handle.new.kernel.program ≡ handle.old.kernel.program }
    ensures stop { stop.new.stop.kept ≡ stop.old.stop.kept }
{
    let Some(heard) = stop.heard(alloc) else {
        return plain_outcome(OUT_OF_MEMORY);
    };
    match handle.take(alloc) {
        Some(block) => {
            let outcome = run_over(alloc, block.module(), request, cells, &heard);
            handle.keep(block);
            outcome
        }
        None => plain_outcome(CLOSED),
    }
}
