//! The serial run, whole or within fuel, of a module or of what was decoded once for all its runs.

ghost use Rattle.std.specs.Prelude.{◌≡◌, ◌≤◌, ℕ, Some, None, Err, IfNone, IfOk, IfSome, map};
ghost use Rattle.program.specs.declared.function.Function.{Function};
ghost use Rattle.frame_engine.specs.Starts.{alloca_starts, starts_from};
ghost use Rattle.store.specs.Requirements.{unmet_in};
ghost use Rattle.store.specs.Named.{HasGlobalCells};
ghost use Rattle.store.specs.Rows.{sizes_of};
ghost use Rattle.store.specs.verifier.Accepted.{IsAccepted};
ghost use Rattle.store.specs.verifier.Budgets.{budget_of};
ghost use Rattle.code_tables.specs.Coded.{AreTables};
ghost use Rattle.serial_machine.specs.Decoding.{IsCodeOf};
ghost use Rattle.serial_machine.specs.SerialPromise.{EndsOrLacksMemory, EndsWithinBudget, EndsWithinFuel, TakesMore};

use crate::decoded::Decoded;
use crate::places::{places_from, starts};
use code_tables::{ProgramCode, decode};
use frame_engine::most_moves;
use lists::OutOfMemory;
use program::Program;
use std::alloc::Global;
use store::{Finished, Memory, RunFault, Verified, unmet_requirement};
use window_runs::{begin, run};

/// Why a run within some fuel has no answer.
#[derive(Drop)]
pub enum Unfinished {
    /// As [`serial_run`].
    Fault(RunFault),
    /// The run does more instructions than the fuel allows. The memory is as it was handed in.
    OutOfFuel { memory: Memory },
}

/// The instructions that a run does at most, and those that it may do.
#[derive(Clone, Copy)]
struct Limits {
    budget: u64,
    fuel: u64,
}

/// The run of arguments that the program takes, over a row of the globals' numbers. Its answer has the memory, with the numbers that the run ends with. None
/// where it does more instructions than the fuel allows: the memory is as it was then.
fn run_in_places(
    alloc: Global,
    code: ProgramCode<'_>,
    arguments: &[i64],
    memory: &mut Memory,
    limits: Limits,
) -> Result<Option<Finished>, OutOfMemory>
    requires accepted { IsAccepted code.program.now }
    requires globals { code.places.now.globals ≡ starts_from 0 (sizes_of memory.old) }
    requires allocas { code.places.now.allocas ≡ map (λ (f : Function). alloca_starts f.allocas) code.program.now.functions }
    requires tables { AreTables code.program.now code.places.now code.tables.now }
    requires taken { unmet_in code.program.now arguments.now ≡ None }
    requires cells { HasGlobalCells code.program.now memory.old }
    requires budget { limits.budget ≡ budget_of code.program.now }
    ensures ends { IfOk result (λ end. IfSome end (EndsWithinBudget code.entry.program.now arguments.now memory.old)) }
    ensures within { IfOk result (λ end. IfSome end (λ done. done.instructions ≤ limits.fuel)) }
    ensures beyond { IfOk result (λ end. IfNone end (TakesMore code.entry.program.now arguments.now memory.old limits.fuel)) }
    ensures kept { IfOk result (λ end. IfNone end (memory.new ≡ memory.old)) }
{
    let row = memory.row()?;
    let (mut stack, start) = begin(alloc, code.program, code.tables, arguments, row)?;
    let mut moves = vec![in alloc; 0; most_moves(code.program)]?;
    let ended = run(
        code.program,
        code.places,
        code.tables,
        &mut stack,
        moves.as_mut_slice(),
        start,
        limits.fuel.min(limits.budget),
    )?;
    let Some(ended) = ended else {
        return Ok(None);
    };
    memory.set_row(stack.cells.cells.as_slice());
    Ok(Some(Finished {
        result: ended.result,
        memory: memory.take(),
        instructions: ended.instructions,
        peak: ended.peak,
    }))
}

/// The run of arguments that the program takes, by its code. Memory with more cells than the program declares takes places and codes of its own.
fn run_by(
    alloc: Global,
    program: &Program,
    code: &Decoded,
    arguments: &[i64],
    memory: &mut Memory,
    limits: Limits,
) -> Result<Option<Finished>, OutOfMemory>
    requires accepted { IsAccepted program.now }
    requires code { IsCodeOf program.now code.now }
    requires taken { unmet_in program.now arguments.now ≡ None }
    requires cells { HasGlobalCells program.now memory.old }
    requires budget { limits.budget ≡ budget_of program.now }
    ensures ends { IfOk result (λ end. IfSome end (EndsWithinBudget program.now arguments.now memory.old)) }
    ensures within { IfOk result (λ end. IfSome end (λ done. done.instructions ≤ limits.fuel)) }
    ensures beyond { IfOk result (λ end. IfNone end (TakesMore program.now arguments.now memory.old limits.fuel)) }
    ensures kept { IfOk result (λ end. IfNone end (memory.new ≡ memory.old)) }
{
    let sizes = memory.sizes()?;
    let globals = starts(alloc, sizes.as_slice())?;
    if code.has_globals_at(globals.as_slice()) {
        let code = ProgramCode {
            program,
            places: &code.places,
            tables: &code.tables,
        };
        return run_in_places(alloc, code, arguments, memory, limits);
    }
    let places = places_from(alloc, program, globals)?;
    let tables = decode(alloc, program, &places)?;
    let code = ProgramCode {
        program,
        places: &places,
        tables: &tables,
    };
    run_in_places(alloc, code, arguments, memory, limits)
}

/// The serial run of a module whose code was made before, as long as it does no more instructions than the fuel allows.
///
/// # Errors
///
/// Those of [`serial_run_within`].
pub fn serial_run_within_by(
    alloc: Global,
    verified: &Verified,
    code: &Decoded,
    arguments: &[i64],
    memory: Memory,
    fuel: u64,
) -> Result<Finished, Unfinished>
    requires code { IsCodeOf verified.now code.now }
    requires cells { HasGlobalCells verified.now memory }
    ensures refused { (requirement : ℕ) → unmet_in verified.now arguments.now ≡ Some requirement
        → result ≡ Err (Unfinished.Fault (RunFault.BadArguments requirement memory)) }
    ensures ends { unmet_in verified.now arguments.now ≡ None → EndsWithinFuel verified.now arguments.now memory fuel result }
{
    let program = verified.program();
    if let Some(requirement) = unmet_requirement(program, arguments) {
        return Err(Unfinished::Fault(RunFault::BadArguments {
            requirement,
            memory,
        }));
    }
    let limits = Limits {
        budget: verified.budget(),
        fuel,
    };
    let mut memory = memory;
    match run_by(alloc, program, code, arguments, &mut memory, limits) {
        Ok(Some(finished)) => Ok(finished),
        Ok(None) => Err(Unfinished::OutOfFuel { memory }),
        Err(OutOfMemory) => Err(Unfinished::Fault(RunFault::OutOfMemory)),
    }
}

/// The serial run of a module, as long as it does no more instructions than the fuel allows.
///
/// # Errors
///
/// Those of [`serial_run`]; and where the run does more instructions than that, the memory is handed back.
pub fn serial_run_within(
    alloc: Global,
    verified: &Verified,
    arguments: &[i64],
    memory: Memory,
    fuel: u64,
) -> Result<Finished, Unfinished>
    requires cells { HasGlobalCells verified.now memory }
    ensures refused { (requirement : ℕ) → unmet_in verified.now arguments.now ≡ Some requirement
        → result ≡ Err (Unfinished.Fault (RunFault.BadArguments requirement memory)) }
    ensures ends { unmet_in verified.now arguments.now ≡ None → EndsWithinFuel verified.now arguments.now memory fuel result }
{
    let program = verified.program();
    if let Some(requirement) = unmet_requirement(program, arguments) {
        return Err(Unfinished::Fault(RunFault::BadArguments {
            requirement,
            memory,
        }));
    }
    match Decoded::of(alloc, verified) {
        Ok(code) => serial_run_within_by(alloc, verified, &code, arguments, memory, fuel),
        Err(OutOfMemory) => Err(Unfinished::Fault(RunFault::OutOfMemory)),
    }
}

/// The serial run of a module whose code was made before, for callers that run it often.
///
/// # Errors
///
/// Those of [`serial_run`].
#[tactic(auto, using(crate::proofs::Ends::lasts))]
pub fn serial_run_by(
    alloc: Global,
    verified: &Verified,
    code: &Decoded,
    arguments: &[i64],
    memory: Memory,
) -> Result<Finished, RunFault>
    requires code { IsCodeOf verified.now code.now }
    requires cells { HasGlobalCells verified.now memory }
    ensures refused { (requirement : ℕ) → unmet_in verified.now arguments.now ≡ Some requirement → result ≡ Err (RunFault.BadArguments requirement memory) }
    ensures ends { unmet_in verified.now arguments.now ≡ None → EndsOrLacksMemory verified.now arguments.now memory result }
{
    let fuel = verified.budget();
    match serial_run_within_by(alloc, verified, code, arguments, memory, fuel) {
        Ok(finished) => Ok(finished),
        Err(Unfinished::Fault(fault)) => Err(fault),
        Err(Unfinished::OutOfFuel { .. }) => unreachable!(),
    }
}

/// The serial run of a module that the verifier took, from memory that was made for it: its elision's memory, result, count of
/// instructions and depth, within the budget and the depth that the verifier answers (Tapir, "serial elision"). It never traps.
///
/// # Errors
///
/// 801 where the arguments are not those of `main`; the memory is handed back. 803 where memory is refused.
#[tactic(auto, using(crate::proofs::Ends::lasts))]
pub fn serial_run(
    alloc: Global,
    verified: &Verified,
    arguments: &[i64],
    memory: Memory,
) -> Result<Finished, RunFault>
    requires cells { HasGlobalCells verified.now memory }
    ensures refused { (requirement : ℕ) → unmet_in verified.now arguments.now ≡ Some requirement → result ≡ Err (RunFault.BadArguments requirement memory) }
    ensures ends { unmet_in verified.now arguments.now ≡ None → EndsOrLacksMemory verified.now arguments.now memory result }
{
    match serial_run_within(alloc, verified, arguments, memory, verified.budget()) {
        Ok(finished) => Ok(finished),
        Err(Unfinished::Fault(fault)) => Err(fault),
        Err(Unfinished::OutOfFuel { .. }) => unreachable!(),
    }
}
