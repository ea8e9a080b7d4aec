//! The run of one worker alone: there is nobody to share with.
ghost use Rattle.std.specs.Prelude.{◌≡◌, Err, None, IfErr, IfOk, OnOk};
ghost use Rattle.shared_run.specs.store.Requirements.{unmet_in};
ghost use Rattle.shared_run.specs.store.Made.{IsMadeFor};
ghost use Rattle.shared_run.specs.Answer.{IsSerialAnswer};
ghost use Rattle.shared_run.specs.Story.{origin};
ghost use Rattle.deque_pool.specs.Gates.{WasAsked, WasStopped};
ghost use Rattle.lone_run.specs.UnderWay.{IsRefusal};

use crate::gate::{Gate, Go};
use lists::OutOfMemory;
use lone_run::{LoneRun, run_unwatched};
use shared_run::{Finished, Memory, RunFault, Verified};
use std::alloc::Global;
use std::sync::Wait;

/// Runs a module on one worker, strand by strand, each after its gate; as a whole where the gate does not watch.
///
/// # Errors
///
/// 801 where the arguments are not those of `main`; the memory is handed back. 803 where memory is refused. 804 where the gate stops the run.
#[tactic(auto, using(crate::proofs::Answered::answered_whole))]
pub(crate) fn run_alone<G: Gate, R: Wait>(
    rt: &R,
    alloc: Global,
    verified: &Verified,
    arguments: &[i64],
    memory: Memory,
    gate: &G,
) -> Result<Finished, RunFault>
    requires made { IsMadeFor verified.now memory }
    ensures answer { IfOk result (λ done. IsSerialAnswer (origin verified.now arguments.now memory 1) done) }
    ensures met { OnOk result (unmet_in verified.now arguments.now ≡ None) }
    ensures refused { IfErr result (IsRefusal verified.now arguments.now memory) }
    ensures asked { IfOk result (λ done. WasAsked (G.says gate.now) done.instructions) }
    ensures stopped { result ≡ Err RunFault.Stopped → WasStopped (G.says gate.now) }
{
    if !gate.watches() {
        return run_unwatched(alloc, verified, arguments, memory);
    }
    let mut run = LoneRun::begin(alloc, verified, arguments, memory)?;
    let mut strand: u64 = 0;
    for _ in rt.forever() {
        match gate.pass(0, strand) {
            Go::On => {}
            Go::Stop => return Err(RunFault::Stopped),
        }
        strand = strand.saturating_add(1);
        match run.strand() {
            Ok(Some(finished)) => return Ok(finished),
            Ok(None) => {}
            Err(OutOfMemory) => return Err(RunFault::OutOfMemory),
        }
    }
    unreachable!()
}
