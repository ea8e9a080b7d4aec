//! The call that runs a module that is kept over many rows (batch).

ghost use Rattle.std.specs.Prelude.{◌≡◌, ◌≤◌, ◌+◌, Some, min};
ghost use Rattle.kernel_calls.specs.Held.{AreRuns, IsRun};

use crate::handle::Handle;
use crate::hosted::Stop;
use crate::prepared::Prepared;
use crate::requests::{RowsRequest, RunRequest};
use crate::serial::run_over;
use crate::stop::StopHandle;
use crate::told::{CLOSED, OUT_OF_MEMORY, Outcome, plain_outcome};
use std::alloc::Global;

/// Runs a module over one row.
fn run_row(
    alloc: Global,
    kernel: &Prepared,
    request: &RunRequest<'_>,
    cells: &mut [i64],
    stop: &Stop,
) -> Outcome
    ensures { IsRun (Some kernel.now) request.now.fuel request.now.arguments.now cells.old cells.new result }
{
    run_over(alloc, kernel, request, cells, stop)
}

/// Where the numbers of a row end: it has as many as each row, or what is left.
fn end_of(first: usize, each: usize, all: usize) -> usize
    requires { first ≤ all }
    ensures { result ≡ min (first + each) all }
{
    first + each.min(all - first)
}

/// Runs a module once for each outcome, over its part of the arguments and of the cells.
fn run_rows(
    alloc: Global,
    kernel: &Prepared,
    stop: &Stop,
    rows: &RowsRequest<'_>,
    cells: &mut [i64],
    outcomes: &mut [Outcome],
)
    ensures { AreRuns (Some kernel.now) rows.now.fuel rows.now.arguments_each rows.now.cells_each rows.now.arguments.now cells.old cells.new outcomes.new }
{
    let mut argument = 0;
    let mut cell = 0;
    for row in 0..outcomes.len() {
        let argument_end = end_of(argument, rows.arguments_each, rows.arguments.len());
        let cell_end = end_of(cell, rows.cells_each, cells.len());
        let request = RunRequest {
            arguments: &rows.arguments[argument..argument_end],
            fuel: rows.fuel,
        };
        let own = &mut cells[cell..cell_end];
        outcomes[row] = run_row(alloc, kernel, &request, own, stop);
        argument = argument_end;
        cell = cell_end;
    }
}

/// Runs the module that is held once for each outcome, as `tapirvm_run` does: the first run has the first of the arguments and of the cells, so
/// many each, and the next run those that follow.
pub fn run_each_row(
    alloc: Global,
    handle: &mut Handle,
    stop: &mut StopHandle,
    rows: &RowsRequest<'_>,
    cells: &mut [i64],
    outcomes: &mut [Outcome],
)
    ensures rows { AreRuns handle.old.kernel.program rows.now.fuel rows.now.arguments_each rows.now.cells_each rows.now.arguments.now cells.old cells.new outcomes.new }
    ensures same { handle.new.kernel.program ≡ handle.old.kernel.program }
    ensures stop { stop.new.stop.kept ≡ stop.old.stop.kept }
{
    let Some(heard) = stop.heard(alloc) else {
        outcomes.fill(plain_outcome(OUT_OF_MEMORY));
        return;
    };
    let Some(block) = handle.take(alloc) else {
        outcomes.fill(plain_outcome(CLOSED));
        return;
    };
    run_rows(alloc, block.module(), &heard, rows, cells, outcomes);
    handle.keep(block);
}
