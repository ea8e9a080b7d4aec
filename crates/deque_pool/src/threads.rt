//! `run` and `run_recorded`: a run on threads of its own, or on one if it is short (thread pool).
ghost use Rattle.std.specs.Prelude.{◌≡◌, Err, IfOk, true};
ghost use Rattle.shared_run.specs.schedule_core.Admission.{IsAdmitted, IsNumberOfWorkers};
ghost use Rattle.shared_run.specs.store.Made.{IsMadeFor};
ghost use Rattle.shared_run.specs.Answer.{IsSerialAnswer, LeadTo};
ghost use Rattle.shared_run.specs.Launching.{start_of};
ghost use Rattle.deque_pool.specs.Gates.{WasAsked, WasStopped};

use crate::alone::run_alone;
use crate::gate::Gate;
use crate::recorded::Recorded;
use crate::rounds::run_by;
use shared_run::{Finished, Keeping, Launch, RunFault, Verified};
use std::alloc::Global;
use std::marker::Brand;
use std::sync::Wait;
use std::sync::ledger::Blank;
use std::thread::Threads;
use std::time::Clock;

/// The most instructions of a run that one worker does whatever others there are: it takes less than a millisecond, and to start them takes about as long.
const SHORT: u64 = 65_536;

/// Whether the run is one worker's: where there is one, and where no gate watches and the budget is that of a short run.
fn is_for_one<G: Gate>(verified: &Verified, workers: usize, gate: &G) -> bool
    ensures number { result ≡ true → IsNumberOfWorkers workers }
    ensures one { workers ≡ 1 → result ≡ true }
{
    match workers {
        1 => true,
        2..=64 => !gate.watches() && verified.budget() <= SHORT,
        _ => false,
    }
}

/// Runs a module on so many workers, each on a thread of its own: worker 0 on the calling thread, and the others on threads that have
/// ended when this returns. Where no gate watches they are started when there is something to steal, and in a short run not at all: one with a
/// budget of 65,536 is the serial run. Where a thread cannot be started the run goes on with fewer. Whatever the threads do, the answer is that
/// of the serial meaning. The gate is passed before each strand of a worker.
///
/// # Errors
///
/// 801 where the arguments are not those of `main`, then 802 where there are not from 1 to 64 workers; both hand the memory back.
/// 803 where memory is refused, and 804 where the gate stops the run; a run that has ended all the same has its answer.
pub fn run<G: Gate + Sync, R: Threads + Wait + Clock + Sync>(
    rt: &R,
    alloc: Global,
    launch: Launch<'_>,
    gate: &G,
) -> Result<Finished, RunFault>
    requires made { IsMadeFor launch.verified.now launch.memory }
    ensures answer { IfOk result (λ done. IsSerialAnswer (start_of launch.entry) done) }
    ensures admitted { IsAdmitted launch.entry.verified.now launch.entry.arguments.now launch.entry.memory launch.entry.workers result }
    ensures asked { launch.entry.workers ≡ 1 → IfOk result (λ done. WasAsked (G.says gate.now) done.instructions) }
    ensures stopped { launch.entry.workers ≡ 1 → result ≡ Err RunFault.Stopped → WasStopped (G.says gate.now) }
{
    if is_for_one(launch.verified, launch.workers, gate) {
        let Launch {
            verified,
            arguments,
            memory,
            workers: _,
        } = launch;
        return run_alone(rt, alloc, verified, arguments, memory, gate);
    }
    let blank = Blank::new(launch.workers as u64);
    match run_by::<Brand, G, R>(rt, alloc, launch, gate, Keeping::Nothing, blank) {
        Ok(recorded) => Ok(recorded.finished),
        Err(fault) => Err(fault),
    }
}

/// As [`run`], with the events that were done and what each worker did. One worker too has a board here, so that its events are kept.
///
/// # Errors
///
/// Those of [`run`]; 803 too where the history is refused memory.
pub fn run_recorded<G: Gate + Sync, R: Threads + Wait + Clock + Sync>(
    rt: &R,
    alloc: Global,
    launch: Launch<'_>,
    gate: &G,
) -> Result<Recorded, RunFault>
    requires made { IsMadeFor launch.verified.now launch.memory }
    ensures answer { IfOk result (λ run. IsSerialAnswer (start_of launch.entry) run.finished) }
    ensures replays { IfOk result (λ run. LeadTo (start_of launch.entry) run.history.events run.finished) }
    ensures kept { IfOk result (λ run. run.history.keeping ≡ Keeping.Events) }
    ensures admitted { IsAdmitted launch.entry.verified.now launch.entry.arguments.now launch.entry.memory launch.entry.workers result }
{
    let blank = Blank::new(launch.workers as u64);
    let run = run_by::<Brand, G, R>(rt, alloc, launch, gate, Keeping::Events, blank)?;
    match run.history.keeping() {
        Keeping::Events => Ok(run),
        // No contract tells what stands behind a lock.
        Keeping::Nothing => Err(RunFault::OutOfMemory),
    }
}
