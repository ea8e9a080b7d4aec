//! A serial run that may be stopped, which looks at the stop from time to time.

ghost use Rattle.std.specs.Prelude.{◌≡◌, ◌≢◌, IsSome, List, ℤ};
ghost use Rattle.program.specs.declared.function.Program.{Program};
ghost use Rattle.store.specs.Cells.{NamedCells};
ghost use Rattle.serial_machine.specs.SerialPromise.{EndsWithinBudget};
ghost use Rattle.store.specs.Made.{IsMadeFor};
ghost use Rattle.store.specs.Named.{HasGlobalCells};
ghost use Rattle.kernel_calls.specs.Until.{ComesTo};

use crate::hosted::Stop;
use lists::OutOfMemory;
use lone_run::LoneRun;
use std::alloc::Global;
use store::Memory;
use verifier::Verified;

/// So many instructions are done before the stop is looked at: as the serial run, which is the faster one. A run that has more to do begins again and does
/// these twice; one that has fewer pays nothing for its stop, which it does not look at meanwhile.
pub const FIRST: u64 = 262_144;

/// What a run comes to that may be stopped.
#[derive(Drop)]
pub enum Watched {
    Finished(store::Finished),
    /// It takes more instructions than the fuel allows.
    OutOfFuel,
    /// The stop was set.
    Stopped,
    OutOfMemory,
}

/// What the end is within the fuel.
#[tactic(auto, using(crate::proofs::Watching::end_takes_more))]
fn within(finished: store::Finished, fuel: u64) -> Watched
    ensures comes { (program : Program) (arguments : List ℤ) (memory : List NamedCells) → EndsWithinBudget program arguments memory finished →
        ComesTo program arguments memory fuel result }
    ensures not_stopped { result ≢ Watched.Stopped }
{
    if finished.instructions <= fuel {
        Watched::Finished(finished)
    } else {
        Watched::OutOfFuel
    }
}

/// Runs a module strand by strand, and looks at the stop before each.
#[tactic(auto, using(crate::proofs::Watching::takes_more_here, crate::proofs::Watching::ends_here))]
pub fn run_watched(
    alloc: Global,
    kernel: &Verified,
    fuel: u64,
    stop: &Stop,
    arguments: &[i64],
    memory: Memory,
) -> Watched
    requires made { IsMadeFor kernel.now memory }
    requires cells { HasGlobalCells kernel.now memory }
    ensures comes { ComesTo kernel.now arguments.now memory fuel result }
    ensures stopped { result ≡ Watched.Stopped → IsSome stop.now.word }
{
    // (The arguments were taken before.)
    let Ok(mut run) = LoneRun::begin(alloc, kernel, arguments, memory) else {
        return Watched::OutOfMemory;
    };
    loop {
        if stop.is_set() {
            return Watched::Stopped;
        }
        if fuel <= run.done() {
            return Watched::OutOfFuel;
        }
        match run.strand() {
            Ok(Some(finished)) => return within(finished, fuel),
            Ok(None) => {}
            Err(OutOfMemory) => return Watched::OutOfMemory,
        }
    }
}
