//! Runs that are recorded: a replay of their events comes to their answer, and each worker's figures are what its events and its gate tell. Beside them the
//! list by which workers hand one another their tasks: no run tells whether a ticket was refused, since its task is found at the board too.

use crate::endings::{Ending, is_so, leads_to};
use crate::report::Report;
use crate::threads::gates::Tally;
use deque_pool::{Figures, Gate, Hands, Launch, OpenGate, Recorded, Taken, run_recorded};
use lists::OutOfMemory;
use shared_run::{Event, Memory, Ticket, Verified, replay};
use std::alloc::Global;
use std::sync::Wait;
use std::thread::Threads;
use std::time::Clock;

/// A recorded run, with its events one by one.
fn recorded<G: Gate + Sync, R: Threads + Wait + Clock + Sync>(
    rt: &R,
    alloc: Global,
    verified: &Verified,
    arguments: &[i64],
    workers: usize,
    gate: &G,
) -> Option<(Recorded, Vec<Event>)> {
    let launch = Launch {
        verified,
        arguments,
        memory: Memory::zeroed(alloc, verified).ok()?,
        workers,
    };
    let run = run_recorded(rt, alloc, launch, gate).ok()?;
    let events = run.history.events(alloc).ok()?;
    Some((run, events))
}

/// The instructions of all workers.
fn instructions_of(figures: &[Figures]) -> u64 {
    let mut sum: u64 = 0;
    for worker in figures {
        sum = sum.saturating_add(worker.instructions);
    }
    sum
}

/// Whether each strand was put on the board for one reason.
fn have_reasons(figures: &[Figures]) -> bool {
    for worker in figures {
        let had_to = worker.at_borders.saturating_add(worker.at_full_logs);
        let all = had_to
            .saturating_add(worker.at_limits)
            .saturating_add(worker.for_others);
        if all != worker.publications {
            return false;
        }
    }
    true
}

/// Whether a recorded run of so many workers comes to the answer, as do its events, and its workers did its instructions.
fn is_recorded<R: Threads + Wait + Clock + Sync>(
    rt: &R,
    alloc: Global,
    verified: &Verified,
    arguments: &[i64],
    workers: usize,
    wanted: Ending,
) -> bool {
    let Some((run, events)) = recorded(rt, alloc, verified, arguments, workers, &OpenGate) else {
        return false;
    };
    let Ok(memory) = Memory::zeroed(alloc, verified) else {
        return false;
    };
    let replayed = replay(
        alloc,
        verified,
        arguments,
        memory,
        workers,
        events.as_slice(),
    );
    let Ok(machine) = replayed else {
        return false;
    };
    let figures = run.figures.as_slice();
    is_so(&run.finished, wanted)
        && leads_to(machine, &run.finished)
        && figures.len() == workers
        && instructions_of(figures) == wanted.1
        && have_reasons(figures)
}

/// The worker's steps among the events, and its steals.
fn moves_of(events: &[Event], worker: u8) -> (u64, u64) {
    let mut steps: u64 = 0;
    let mut steals: u64 = 0;
    for event in events {
        match event {
            Event::Step(by) if *by == worker => steps = steps.saturating_add(1),
            Event::Steal(by, _) if *by == worker => steals = steals.saturating_add(1),
            _ => {}
        }
    }
    (steps, steals)
}

/// How the strands of a worker that is alone end: `main` returns, which the board does; a page too many is needed; or they have done what a strand may do.
#[derive(Clone, Copy)]
struct Ends {
    full_logs: u64,
    limits: u64,
}

/// Whether a worker that is alone did its strands so. It takes no task, looks for none, gives none away, and does no strand for nothing.
fn is_alone(own: &Figures, ends: Ends) -> bool {
    let strands = ends.full_logs.saturating_add(ends.limits).saturating_add(1);
    own.strands == strands
        && own.publications == strands
        && own.at_borders == 1
        && own.at_full_logs == ends.full_logs
        && own.at_limits == ends.limits
        && own.for_others == 0
        && own.steals == 0
        && own.searches == 0
        && own.strangers == 0
}

/// Whether each worker's figures are what events and gate tell: its instructions are steps, its tasks but the first were stolen, and each of its strands was
/// after its gate.
fn all_fit(figures: &[Figures], events: &[Event], tally: &Tally) -> bool {
    let mut worker: u8 = 0;
    for own in figures {
        let (steps, steals) = moves_of(events, worker);
        if own.instructions != steps || own.steals != steals || own.strands != tally.of(worker) {
            return false;
        }
        worker = worker.saturating_add(1);
    }
    true
}

/// Whether the figures of a recorded run of so many workers are so; where there is one its strands end as is said.
fn has_figures<R: Threads + Wait + Clock + Sync>(
    rt: &R,
    alloc: Global,
    verified: &Verified,
    arguments: &[i64],
    workers: usize,
    ends: Ends,
) -> bool {
    let Ok(tally) = Tally::new(alloc, workers) else {
        return false;
    };
    let Some((run, events)) = recorded(rt, alloc, verified, arguments, workers, &tally) else {
        return false;
    };
    let figures = run.figures.as_slice();
    let is_so = match figures {
        [own] => is_alone(own, ends),
        _ => have_reasons(figures),
    };
    is_so && figures.len() == workers && all_fit(figures, events.as_slice(), &tally)
}

/// Whether three tickets that are offered are taken: the oldest by a thief, the newest by their owner.
fn are_handed_on(alloc: Global) -> Result<bool, OutOfMemory> {
    let (mut hands, mut thieves) = Hands::new(alloc, 1)?;
    for slot in 0..3 {
        let ticket = Ticket {
            slot,
            generation: 0,
        };
        if hands.offer(ticket).is_err() {
            return Ok(false);
        }
    }
    let Some(thief) = thieves.get_mut(0) else {
        return Ok(false);
    };
    match (thief.take_oldest(), hands.take_newest()) {
        (Taken::Ticket(oldest), Some(newest)) => Ok(oldest.slot == 0 && newest.slot == 2),
        _ => Ok(false),
    }
}

/// Answers the cases of runs that are recorded.
pub fn answer<R: Threads + Wait + Clock + Sync>(
    rt: &R,
    alloc: Global,
    steps: &Verified,
    report: &mut Report,
) {
    let ends = Ends {
        full_logs: 0,
        limits: 0,
    };
    for workers in [1usize, 2, 4] {
        let is_recorded = is_recorded(rt, alloc, steps, &[64], workers, (64, 518, 2));
        report.holds("a recorded run is replayed to its answer", is_recorded);
        let has_figures = has_figures(rt, alloc, steps, &[64], workers, ends);
        report.holds("its figures are those of its history", has_figures);
    }
    let are_handed_on = matches!(are_handed_on(alloc), Ok(true));
    report.holds("tickets that are offered are taken", are_handed_on);
}

/// Whether one worker alone ends its strands as is said, in a module that fills their pages and in a loop that goes past their limit.
pub fn answer_ends<R: Threads + Wait + Clock + Sync>(
    rt: &R,
    alloc: Global,
    pages: &Verified,
    long: &Verified,
    report: &mut Report,
) {
    // It stores into 513 pages, and a strand has 512.
    let ends = Ends {
        full_logs: 1,
        limits: 0,
    };
    let is_full = has_figures(rt, alloc, pages, &[], 1, ends);
    report.holds("a strand ends before a page too many", is_full);
    // 200,005 instructions are three strands of 65,536 and one of 3,397.
    let ends = Ends {
        full_logs: 0,
        limits: 3,
    };
    let is_long = has_figures(rt, alloc, long, &[50_000], 1, ends);
    report.holds("and at its most instructions", is_long);
}
