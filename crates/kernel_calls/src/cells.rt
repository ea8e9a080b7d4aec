//! How many cells the globals of a module have, and a frame of its functions at most.

ghost use Rattle.std.specs.Prelude.{◌≡◌};
ghost use Rattle.kernel_calls.specs.Told.{cells_in, cells_of};
ghost use Rattle.kernel_calls.specs.Inside.{AreAtMost, frame_cells};

use program::{Function, Global, Program};

/// How many cells these globals have, all together, as far as 64 bits count.
pub fn cells_of(globals: &[Global]) -> u64
    ensures { result ≡ cells_of globals.now }
{
    let mut count = 0u64;
    for global in globals {
        count = count.saturating_add(global.cells);
    }
    count
}

/// How many cells a program's globals have, all together, as far as 64 bits count.
pub fn count_cells(program: &Program) -> u64
    ensures { result ≡ cells_in program.now }
{
    cells_of(program.globals.as_slice())
}

/// How many cells a frame of the function has of its own.
fn frame_cells(function: &Function) -> u64
    ensures { result ≡ frame_cells function.now }
{
    let mut count = 0u64;
    for own in function.allocas.as_slice() {
        count = count.saturating_add(own.cells);
    }
    count
}

/// The most cells that a frame of the program has of its own.
pub fn most_frame_cells(program: &Program) -> u64
    ensures { AreAtMost program.now.functions result }
{
    let mut most = 0u64;
    for function in program.functions.as_slice() {
        most = most.max(frame_cells(function));
    }
    most
}
