//! Runs on threads: two workers inside at once, gates before strands, and gates that stop a run.

use crate::endings::{Ending, is_so};
use crate::report::Report;
use crate::threads::gates::{Asleep, Meeting, Stop};
use deque_pool::{Gate, Launch, run};
use shared_run::{Memory, RunFault, Verified};
use std::alloc::Global;
use std::sync::Wait;
use std::thread::Threads;
use std::time::Clock;

/// A run of a module on so many workers, and the answer that is wanted; none where its gate is to stop it.
#[derive(Clone, Copy)]
struct Case<'a> {
    verified: &'a Verified,
    arguments: &'a [i64],
    workers: usize,
    wanted: Option<Ending>,
}

/// Whether the run under a gate comes to the answer, or is stopped, where none is wanted.
fn comes_to<G: Gate + Sync, R: Threads + Wait + Clock + Sync>(
    rt: &R,
    alloc: Global,
    case: Case<'_>,
    gate: &G,
) -> bool {
    let Ok(memory) = Memory::zeroed(alloc, case.verified) else {
        return false;
    };
    let launch = Launch {
        verified: case.verified,
        arguments: case.arguments,
        memory,
        workers: case.workers,
    };
    match (run(rt, alloc, launch, gate), case.wanted) {
        (Ok(done), Some(wanted)) => is_so(&done, wanted),
        (Err(RunFault::Stopped), None) => true,
        _ => false,
    }
}

/// Whether worker 0 does a run without borders in so many strands, each with its gate before it; where no answer is wanted the gate of the last
/// one stops the run.
fn has_strands<R: Threads + Wait + Clock + Sync>(
    rt: &R,
    alloc: Global,
    case: Case<'_>,
    strands: u64,
) -> bool {
    let stop = Stop::at(match case.wanted {
        Some(_) => strands,
        None => strands.saturating_sub(1),
    });
    comes_to(rt, alloc, case, &stop) && stop.was_asked(strands)
}

/// Two workers of `pair.ll` wait for each other in their gates, and both come while the other waits.
pub fn answer_inside<R: Threads + Wait + Clock + Sync>(
    rt: &R,
    alloc: Global,
    pair: &Verified,
    report: &mut Report,
) {
    let meeting = Meeting::new();
    let case = Case {
        verified: pair,
        arguments: &[7],
        workers: 2,
        wanted: Some((14, 14, 2)),
    };
    let is_done = comes_to(rt, alloc, case, &meeting);
    report.holds(
        "two workers are inside at once",
        is_done && meeting.is_met(),
    );
}

/// Strands of the module of stores, whose 257th cell is the second strand's, and of the long loop.
pub fn answer_strands<R: Threads + Wait + Clock + Sync>(
    rt: &R,
    alloc: Global,
    stores: &Verified,
    long: &Verified,
    report: &mut Report,
) {
    let two = Case {
        verified: stores,
        arguments: &[],
        workers: 1,
        wanted: Some((0, 1546, 1)),
    };
    let has_two = has_strands(rt, alloc, two, 2);
    report.holds("each of two strands is after its gate", has_two);
    // After 65,536 instructions stands the return.
    let one = Case {
        verified: long,
        arguments: &[16_383],
        workers: 1,
        wanted: Some((16_383, 65_537, 1)),
    };
    let has_one = has_strands(rt, alloc, one, 1);
    report.holds("a border at the limit is the strand's", has_one);
    let two = Case {
        arguments: &[16_384],
        wanted: Some((16_384, 65_541, 1)),
        ..one
    };
    let has_two = has_strands(rt, alloc, two, 2);
    report.holds("past the limit goes the next strand", has_two);
    // 200,005 instructions are three strands of 65,536 and one of 3,397.
    let four = Case {
        verified: long,
        arguments: &[50_000],
        workers: 2,
        wanted: Some((50_000, 200_005, 1)),
    };
    let has_four = has_strands(rt, alloc, four, 4);
    report.holds(
        "of two workers one does a long loop in four strands",
        has_four,
    );
}

/// A run of the long loop in so many strands; where no answer is wanted its gate stops it before the last one.
#[derive(Clone, Copy)]
struct FrameStrands {
    sentence: &'static str,
    rounds: i64,
    strands: u64,
    wanted: Option<Ending>,
}

/// 400,005 instructions without a border are six strands of 65,536 and one of 6,789.
static STOPS: [FrameStrands; 4] = [
    FrameStrands {
        sentence: "a gate stops a run before strand 1",
        rounds: 50_000,
        strands: 2,
        wanted: None,
    },
    FrameStrands {
        sentence: "and before strand 4",
        rounds: 100_000,
        strands: 5,
        wanted: None,
    },
    FrameStrands {
        sentence: "and before its last strand",
        rounds: 100_000,
        strands: 7,
        wanted: None,
    },
    FrameStrands {
        sentence: "which is strand 6",
        rounds: 100_000,
        strands: 7,
        wanted: Some((100_000, 400_005, 1)),
    },
];

/// Gates that stop the long loop, and one that does not.
pub fn answer_stops<R: Threads + Wait + Clock + Sync>(
    rt: &R,
    alloc: Global,
    long: &Verified,
    report: &mut Report,
) {
    for workers in [1usize, 2, 4] {
        let case = Case {
            verified: long,
            arguments: &[50_000],
            workers,
            wanted: Some((50_000, 200_005, 1)),
        };
        let has_all = comes_to(rt, alloc, case, &Asleep);
        report.holds("a gate that does not watch stops no run", has_all);
        for stop in STOPS {
            let rounds = [stop.rounds];
            let case = Case {
                verified: long,
                arguments: &rounds,
                workers,
                wanted: stop.wanted,
            };
            let is_so = has_strands(rt, alloc, case, stop.strands);
            report.holds(stop.sentence, is_so);
        }
    }
}
