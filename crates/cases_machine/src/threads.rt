//! Cases on threads: two workers inside at once, gates before strands, and runs that are recorded. Each comes to the same whatever the threads do.

mod gates;
mod records;
mod runs;

use crate::modules::verified_file;
use crate::report::Report;
use shared_run::Verified;
use std::hash::RandomState;
use std::io;
use std::rt::Files;
use std::sync::Wait;
use std::thread::Threads;
use std::time::Clock;

/// Answers the cases of gates.
fn answer_gates<R: AllocGlobal + Files + Threads + Wait + Clock + Sync>(
    rt: &R,
    state: RandomState,
    long: &Verified,
    report: &mut Report,
) -> io::Result<()> {
    let alloc = rt.alloc();
    let pair = verified_file(rt, state, "examples/pair.ll")?;
    let stores = verified_file(rt, state, "modules/loop-of-stores.ll")?;
    report.title("gates");
    runs::answer_inside(rt, alloc, &pair, report);
    runs::answer_strands(rt, alloc, &stores, long, report);
    runs::answer_stops(rt, alloc, long, report);
    Ok(())
}

/// Answers the cases of runs that are recorded.
fn answer_records<R: AllocGlobal + Files + Threads + Wait + Clock + Sync>(
    rt: &R,
    state: RandomState,
    long: &Verified,
    report: &mut Report,
) -> io::Result<()> {
    let alloc = rt.alloc();
    let steps = verified_file(rt, state, "examples/parallel-for.ll")?;
    let pages = verified_file(rt, state, "modules/pages.ll")?;
    report.title("records");
    records::answer(rt, alloc, &steps, report);
    records::answer_ends(rt, alloc, &pages, long, report);
    Ok(())
}

/// Answers the cases.
pub fn answer<R: AllocGlobal + Files + Threads + Wait + Clock + Sync>(
    rt: &R,
    state: RandomState,
    report: &mut Report,
) -> io::Result<()> {
    let long = verified_file(rt, state, "modules/long-loop.ll")?;
    answer_gates(rt, state, &long, report)?;
    answer_records(rt, state, &long, report)
}
