//! Runs at boards, all on one thread, whose calls seeds draw: workers step, do strands and frame strands, and claim tasks, in
//! any order. Each run comes to what is worked out by hand, to the serial run's answer, and to that of a replay of its events.
//!
//! What a call answers its contract says, but for one thing: by each contract a call may always be refused memory. So a call that was is named at the end.

mod calls;
mod runs;

use crate::boards::runs::are_right;
use crate::endings::Ending;
use crate::modules::{no_memory, verified_file};
use crate::report::Report;
use std::hash::RandomState;
use std::io;
use std::ops::Range;
use std::rt::Files;

/// A module, what its runs begin with, and what they come to.
#[derive(Clone, Copy)]
struct Case {
    file: &'static str,
    /// What the first cell of `a` holds.
    cell: i64,
    arguments: &'static [i64],
    wanted: Ending,
}

/// How many cases there are.
pub const ALL: usize = 7;

/// How many of them are those of which `check/sweeps` refuses each request for memory in turn.
pub const FEW: usize = 2;

/// The cases, those few first.
static CASES: [Case; ALL] = [
    Case {
        file: "examples/pair.ll",
        cell: 0,
        arguments: &[7],
        wanted: (14, 14, 2),
    },
    Case {
        file: "examples/fib.ll",
        cell: 0,
        arguments: &[5],
        wanted: (5, 147, 10),
    },
    Case {
        file: "examples/adding.ll",
        cell: 5,
        arguments: &[8],
        wanted: (8, 70, 2),
    },
    Case {
        file: "examples/parallel-for.ll",
        cell: 5,
        arguments: &[8],
        wanted: (8, 70, 2),
    },
    Case {
        file: "examples/load.ll",
        cell: 5,
        arguments: &[],
        wanted: (5, 2, 1),
    },
    Case {
        file: "examples/switch.ll",
        cell: 0,
        arguments: &[7],
        wanted: (7, 5, 1),
    },
    Case {
        file: "examples/kernels/tree-sum.ll",
        cell: 9,
        arguments: &[],
        wanted: (9, 633, 8),
    },
];

/// Answers a case by these seeds. Where memory is refused that no call asks for, the runs of the module are done once more.
fn answer_case<R: AllocGlobal + Files>(
    rt: &R,
    state: RandomState,
    case: &Case,
    seeds: &Range<u64>,
    report: &mut Report,
) -> io::Result<()> {
    let verified = verified_file(rt, state, case.file)?;
    let begin = (case.cell, case.arguments);
    let mut right = are_right(rt.alloc(), &verified, begin, case.wanted, seeds, report);
    if right.is_err() {
        report.refused = "a run";
        right = are_right(rt.alloc(), &verified, begin, case.wanted, seeds, report);
    }
    report.holds(case.file, right.map_err(no_memory)?);
    Ok(())
}

/// Answers so many cases, each by these seeds.
pub fn answer<R: AllocGlobal + Files>(
    rt: &R,
    state: RandomState,
    count: usize,
    seeds: &Range<u64>,
    report: &mut Report,
) -> io::Result<()> {
    report.title("boards");
    for case in CASES.iter().take(count) {
        answer_case(rt, state, case, seeds, report)?;
    }
    Ok(())
}
