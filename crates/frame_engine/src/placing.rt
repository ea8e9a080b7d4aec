//! Where each global and each alloca begins (memory layout).

ghost use Rattle.std.specs.Prelude.{◌≡◌, IfOk, map};
ghost use Rattle.program.specs.declared.function.Function.{Function};
ghost use Rattle.frame_engine.specs.Starts.{alloca_starts, global_starts};

use crate::activation::Places;
use lists::{OutOfMemory, Seq};
use program::{Alloca, Program};
use std::alloc::Global;

/// Where globals begin, one behind the other.
fn starts_of_globals(alloc: Global, globals: &[program::Global]) -> Result<Seq<i64>, OutOfMemory>
    ensures { IfOk result (λ starts. starts ≡ global_starts globals.now) }
{
    let mut starts = Vec::new(alloc);
    let mut next: u64 = 0;
    for global in globals {
        starts.push(next.cast_signed())?;
        next = next.wrapping_add(global.cells);
    }
    Ok(Seq::from_vec(starts))
}

/// Where the allocas of a function begin, one behind the other.
fn starts_of_allocas(alloc: Global, allocas: &[Alloca]) -> Result<Seq<i64>, OutOfMemory>
    ensures { IfOk result (λ starts. starts ≡ alloca_starts allocas.now) }
{
    let mut starts = Vec::new(alloc);
    let mut next: u64 = 0;
    for alloca in allocas {
        starts.push(next.cast_signed())?;
        next = next.wrapping_add(alloca.cells);
    }
    Ok(Seq::from_vec(starts))
}

impl Places {
    /// The places of a program's objects.
    pub fn of_program(alloc: Global, program: &Program) -> Result<Places, OutOfMemory>
        ensures globals { IfOk result (λ places. places.globals ≡ global_starts program.now.globals) }
        ensures allocas { IfOk result (λ places. places.allocas ≡ map (λ (f : Function). alloca_starts f.allocas) program.now.functions) }
    {
        let globals = starts_of_globals(alloc, program.globals.as_slice())?;
        let mut allocas = Vec::new(alloc);
        for function in program.functions.as_slice() {
            allocas.push(starts_of_allocas(alloc, function.allocas.as_slice())?)?;
        }
        Ok(Places {
            globals,
            allocas: Seq::from_vec(allocas),
        })
    }
}
