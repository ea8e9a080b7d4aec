//! Starts the threads of a run and waits for them (spawn, join): the rounds of a run. There is one: its workers leave
//! when the run has ended. No contract tells what stands behind a lock, so where they left and it has not ended, though
//! none of them was refused memory or stopped, they are set to work again.
ghost use Rattle.std.specs.Prelude.{◌≡◌, vec_len, IfOk};
ghost use Rattle.shared_run.specs.schedule_core.Admission.{IsAdmitted};
ghost use Rattle.shared_run.specs.store.Made.{IsMadeFor};
ghost use Rattle.shared_run.specs.Answer.{IsSerialAnswer, LeadTo};
ghost use Rattle.shared_run.specs.Launching.{start_of};

use crate::demand::Demand;
use crate::figures::Figures;
use crate::gate::Gate;
use crate::outlook::{Outlook, Quit, what_next};
use crate::recorded::Recorded;
use crate::work::{work, work_alone};
use crate::workers::{Worker, crew_of, disband};
use crossbeam_utils::CachePadded;
use lists::OutOfMemory;
use shared_run::{Bench, Decoded, Keeping, Launch, RunFault, Seat, Shared};
use std::alloc::Global;
use std::sync::atomic::AtomicBool;
use std::sync::ledger::Blank;
use std::sync::{Mutex, Wait};
use std::thread;
use std::thread::Threads;
use std::time::Clock;

/// The run of one ledger, whose events are kept, or seen by contracts alone.
pub(crate) fn run_by<L: Bench + Send + Sync, G: Gate + Sync, R: Threads + Wait + Clock + Sync>(
    rt: &R,
    alloc: Global,
    launch: Launch<'_>,
    gate: &G,
    keeping: Keeping,
    blank: Blank,
) -> Result<Recorded, RunFault>
    requires made { IsMadeFor launch.verified.now launch.memory }
    requires code { launch.verified.now ≡ L.code }
    requires arguments { launch.arguments.now ≡ L.arguments }
    requires memory { launch.memory ≡ L.memory }
    requires crew { launch.workers ≡ L.crew }
    requires name { blank.name ≡ L.name }
    requires parts { blank.parts ≡ L.parts }
    requires one_each { blank.parts ≡ launch.workers }
    ensures answer { IfOk result (λ run. IsSerialAnswer (start_of launch.entry) run.finished) }
    ensures replays { IfOk result (λ run. LeadTo (start_of launch.entry) run.history.events run.finished) }
    ensures admitted { IsAdmitted launch.entry.verified.now launch.entry.arguments.now launch.entry.memory launch.entry.workers result }
{
    let (verified, workers) = (launch.verified, launch.workers);
    let (mut shared, mut seats) = Shared::<L>::new(alloc, launch, keeping, blank)?;
    let Ok(code) = Decoded::of(alloc, verified) else {
        return Err(RunFault::OutOfMemory);
    };
    let Ok(mut figures) = vec![in alloc; Figures::none(); workers] else {
        return Err(RunFault::OutOfMemory);
    };
    for _ in rt.forever() {
        let Ok(crew) = crew_of(alloc, seats, figures.as_slice(), verified, &code) else {
            return Err(RunFault::OutOfMemory);
        };
        let Ok((back, left)) = round(rt, alloc, &shared, crew, figures.as_mut_slice(), gate) else {
            return Err(RunFault::OutOfMemory);
        };
        match (shared.finish(back), what_next(left.as_slice())) {
            (Ok((finished, history)), _) => {
                return Ok(Recorded {
                    finished,
                    history,
                    figures,
                });
            }
            (Err(_), Outlook::OutOfMemory) => return Err(RunFault::OutOfMemory),
            (Err(_), Outlook::Stopped) => return Err(RunFault::Stopped),
            (Err((unended, all)), Outlook::Again) => {
                shared = unended.share();
                seats = all;
            }
        }
    }
    unreachable!()
}

/// Lets all workers work until they leave: their seats, and why each of them left. What they have done by now goes into `figures`.
fn round<L: Bench + Send + Sync, G: Gate + Sync, R: Threads + Wait + Clock + Sync>(
    rt: &R,
    alloc: Global,
    shared: &Shared<'_, L>,
    crew: Vec<Mutex<Worker<'_, L>>>,
    figures: &mut [Figures],
    gate: &G,
) -> Result<(Vec<Seat<L>>, Vec<Quit>), OutOfMemory>
    ensures seats { IfOk result (λ back. vec_len back.0 ≡ vec_len crew.entry) }
    ensures left { IfOk result (λ back. vec_len back.1 ≡ vec_len crew.entry) }
{
    let room = Vec::with_capacity(alloc, crew.len())?;
    let left = Vec::with_capacity(alloc, crew.len())?;
    work_together(rt, shared, gate, crew.as_slice());
    Ok(disband(crew, room, left, figures))
}

/// The last worker works on the calling thread, each other one on a thread of its own, which is started when there is something to steal; at once where a
/// gate watches. One whose thread cannot be started takes no part.
fn work_together<'x, L: Bench + Send + Sync, G: Gate + Sync, R: Threads + Wait + Clock + Sync>(
    rt: &'x R,
    shared: &'x Shared<'_, L>,
    gate: &'x G,
    crew: &'x [Mutex<Worker<'_, L>>],
) {
    let word = CachePadded::new(AtomicBool::new(false));
    let over: &AtomicBool = &word;
    let idle = CachePadded::new(Demand::of(crew.len()));
    let demand: &Demand = &idle;
    let Some((last, others)) = crew.split_last() else {
        return;
    };
    if !gate.watches() && !begin_alone(rt, shared, demand, last) {
        return;
    }
    thread::scope(thread::scope_env(), rt, move |scope| {
        for worker in others {
            let _ = scope.spawn(move || work_as(rt, shared, over, demand, gate, worker));
        }
        work_as(rt, shared, over, demand, gate, last);
    });
}

/// The worker works alone; whether the others are to begin.
fn begin_alone<L: Bench, R: Wait>(
    rt: &R,
    shared: &Shared<'_, L>,
    demand: &Demand,
    worker: &Mutex<Worker<'_, L>>,
) -> bool {
    let mut worker = worker.lock(rt);
    work_alone(rt, shared, demand, &mut worker)
}

/// The work of a worker. Its thread has it locked throughout.
fn work_as<L: Bench, G: Gate, R: Wait + Clock>(
    rt: &R,
    shared: &Shared<'_, L>,
    over: &AtomicBool,
    demand: &Demand,
    gate: &G,
    worker: &Mutex<Worker<'_, L>>,
) {
    let mut worker = worker.lock(rt);
    work(rt, shared, over, demand, gate, &mut worker);
}
