//! Where the globals begin in the row of cells, by their sizes.

ghost use Rattle.std.specs.Prelude.{◌≡◌, IfOk, map};
ghost use Rattle.program.specs.declared.function.Function.{Function};
ghost use Rattle.frame_engine.specs.Starts.{alloca_starts, starts_from};

use frame_engine::Places;
use lists::{OutOfMemory, Seq};
use program::Program;
use std::alloc::Global;

/// Where objects of these sizes begin, one behind the other.
pub(crate) fn starts(alloc: Global, sizes: &[u64]) -> Result<Seq<i64>, OutOfMemory>
    ensures { IfOk result (λ starts. starts ≡ starts_from 0 sizes.now) }
{
    let mut starts = Vec::new(alloc);
    let mut next: u64 = 0;
    for size in sizes {
        starts.push(next.cast_signed())?;
        next = next.wrapping_add(*size);
    }
    Ok(Seq::from_vec(starts))
}

/// The places of a program's objects, where its globals begin at these.
pub(crate) fn places_from(
    alloc: Global,
    program: &Program,
    globals: Seq<i64>,
) -> Result<Places, OutOfMemory>
    ensures globals { IfOk result (λ places. places.globals ≡ globals) }
    ensures allocas { IfOk result (λ places. places.allocas ≡ map (λ (f : Function). alloca_starts f.allocas) program.now.functions) }
{
    let mut places = Places::of_program(alloc, program)?;
    places.globals = globals;
    Ok(places)
}
