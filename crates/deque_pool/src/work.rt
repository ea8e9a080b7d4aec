//! The loop of a worker on its thread: it works, looks for tasks, pauses, yields and sleeps (idle, backoff).
ghost use Rattle.std.specs.Prelude.{◌≡◌, ◌↔◌};

use crate::demand::Demand;
use crate::gate::{Gate, Go, pass};
use crate::locking::pause;
use crate::outlook::Quit;
use crate::turns::met;
use crate::workers::Worker;
use shared_run::turns::{Met, turn};
use shared_run::{Bench, Shared};
use std::sync::Wait;
use std::sync::atomic::{AtomicBool, Ordering};
use std::thread;
use std::time::Duration;

/// How many searches in vain a worker makes with no more than a pause between them, while it keeps its processor for itself.
const PAUSES: u32 = 64;

/// How many more it makes with a yield between them, before it sleeps: to be woken takes longer than some hundreds of searches. 4,096 gained nothing, nor did
/// longer pauses in place of yields (builds without proofs).
const YIELDS: u32 = 256;

/// How long such a pause is, in turns of a loop that does nothing: about a microsecond.
const PAUSE: u32 = 16;

/// The longest time that a worker sleeps at first, in microseconds. It is woken for each offer, so this bounds only how late it looks for a
/// task whose ticket was refused memory; the shorter, the more of a processor a worker takes that has nothing to do.
const SHORTEST_SLEEP: u64 = 64;

/// How often that time is doubled, from sleep to sleep: up to a millisecond.
const DOUBLINGS: u32 = 4;

/// The instructions of some hundred microseconds. To start threads takes about as long, so a run of fewer starts none. Where all began at once, with
/// all their pages made, `fib` of 12 (4,647 instructions) had 594 page faults on four workers, and has 46 now.
const ALONE: u64 = 32_768;

/// What a worker does next.
#[derive(Clone, Copy)]
enum Next {
    FrameStrand,
    Search,
    Rest {
        /// How often the bell was rung before the search.
        heard: u64,
    },
    Leave(Quit),
}

/// More meetings than a strand has: one for each of the 512 pages that it may lack, and one at its end. So the loop has a bound that nothing comes to.
const MOST_MEETINGS: u32 = 4_096;

/// Works until a worker leaves: `main` has returned, memory was refused, or the gate stopped the run. Why this worker left stands in it.
pub(crate) fn work<L: Bench, G: Gate, R: Wait>(
    rt: &R,
    shared: &Shared<'_, L>,
    over: &AtomicBool,
    demand: &Demand,
    gate: &G,
    worker: &mut Worker<'_, L>,
) {
    let me = worker.seat.worker();
    // Worker 0 begins with `root`, and the others have no task.
    let mut next = after(met(rt, shared, demand, worker), 0);
    let mut rests: u32 = 0;
    for _ in rt.forever() {
        if over.load(Ordering::SeqCst) {
            return;
        }
        match next {
            Next::FrameStrand => {
                rests = 0;
                next = match pass(gate, me, worker.figures.count_strand()) {
                    Go::On => do_strand(rt, shared, demand, worker),
                    Go::Stop => Next::Leave(Quit::Stopped),
                };
            }
            Next::Search => next = search(rt, shared, demand, worker, rests),
            Next::Rest { heard } => {
                rest(rt, demand, heard, rests);
                rests = rests.saturating_add(1);
                next = Next::Search;
            }
            Next::Leave(left) => {
                worker.left = left;
                over.store(true, Ordering::SeqCst);
                demand.ring_for_all();
            }
        }
    }
}

/// The worker of `root` works alone for its first instructions, and then until a task is ready; whether the run goes on. No other worker has begun, and no
/// gate is asked.
pub(crate) fn work_alone<L: Bench, R: Wait>(
    rt: &R,
    shared: &Shared<'_, L>,
    demand: &Demand,
    worker: &mut Worker<'_, L>,
) -> bool {
    worker.habits.keep_quiet(ALONE);
    let mut next = after(met(rt, shared, demand, worker), 0);
    for _ in rt.forever() {
        match next {
            Next::FrameStrand if worker.figures.instructions < ALONE || !demand.is_met() => {
                let _before = worker.figures.count_strand();
                next = do_strand(rt, shared, demand, worker);
            }
            Next::Leave(left) => {
                worker.left = left;
                return false;
            }
            Next::FrameStrand | Next::Search | Next::Rest { heard: _ } => break,
        }
    }
    worker.habits.keep_quiet(0);
    true
}

/// One strand of the worker's task; tasks that it leaves ready are offered.
fn do_strand<L: Bench, R: Wait>(
    rt: &R,
    shared: &Shared<'_, L>,
    demand: &Demand,
    worker: &mut Worker<'_, L>,
) -> Next {
    for _meeting in 0..MOST_MEETINGS {
        turn(&mut worker.strand, &mut worker.habits, demand);
        let heard = demand.rings();
        match met(rt, shared, demand, worker) {
            Met::Work if !worker.habits.is_new() => {}
            met => return after(met, heard),
        }
    }
    Next::FrameStrand
}

/// What comes after a meeting.
fn after(met: Met, heard: u64) -> Next
    ensures { (result ≡ Next.Leave Quit.Starved) ↔ (met ≡ Met.OutOfMemory) }
{
    match met {
        Met::Work => Next::FrameStrand,
        Met::Idle => Next::Rest { heard },
        Met::Ended => Next::Leave(Quit::Over),
        Met::OutOfMemory => Next::Leave(Quit::Starved),
    }
}

/// Looks for a task, where one may be ready. A worker that has yielded for long looks whatever others told, for a ticket may have been lost.
fn search<L: Bench, R: Wait>(
    rt: &R,
    shared: &Shared<'_, L>,
    demand: &Demand,
    worker: &mut Worker<'_, L>,
    rests: u32,
) -> Next {
    worker.figures.searches = worker.figures.searches.saturating_add(1);
    let heard = demand.rings();
    if !demand.is_met() && rests < PAUSES + YIELDS {
        return Next::Rest { heard };
    }
    after(met(rt, shared, demand, worker), heard)
}

/// Lets other threads go first: at first by a pause, then by a yield, later by a sleep until a task is offered, so that a worker with nothing to do needs no
/// processor.
fn rest<R: Wait>(rt: &R, demand: &Demand, heard: u64, rests: u32) {
    if rests < PAUSES {
        pause(PAUSE);
        return;
    }
    match rests.checked_sub(PAUSES + YIELDS) {
        None => thread::yield_now(),
        Some(slept) => {
            let doublings = slept.min(DOUBLINGS);
            let time = Duration::from_micros(SHORTEST_SLEEP << doublings);
            demand.sleep(rt, heard, time);
        }
    }
}
