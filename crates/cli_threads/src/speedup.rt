//! How long runs on threads take by the number of their workers (`--speedup`: a benchmark).

use crate::clocks::microseconds_since;
use crate::launches::launch_of;
use cli_jobs::{Finished, Halt, Job, print_finished};
use cli_words::{Beside, Status};
use deque_pool::OpenGate;
use lists::TextBuffer;
use std::io::Write;
use std::sync::Wait;
use std::thread::Threads;
use std::time::{Clock, Instant};

/// How often a run is timed. The least time of several is the one that other work on the machine disturbed least; more of them take the user's time.
const TIMES: u32 = 5;

/// What runs on so many workers come to, and the least time that one took, in microseconds.
fn run_least<T: Threads + Wait + Clock + Sync>(
    rt: &T,
    job: &Job<'_>,
    workers: usize,
    beside: &mut Beside,
) -> Result<(Option<Finished>, u64), Halt> {
    let mut least = u64::MAX;
    let mut answer = None;
    for _time in 0..TIMES {
        let launch = launch_of(job, workers, beside)?;
        let begun = Instant::now(rt)?;
        let run = deque_pool::run(rt, job.alloc, launch, &OpenGate);
        least = least.min(microseconds_since(rt, begun)?);
        answer = Some(run?);
    }
    Ok((answer, least))
}

/// Times runs on each of the numbers of workers, and prints the answer and a table: how much faster a run was than the first, with two digits behind the point.
pub(crate) fn run_speedup<T: Threads + Wait + Clock + Sync, W: Write>(
    rt: &T,
    job: &Job<'_>,
    output: &mut W,
    beside: &mut Beside,
) -> Result<Status, Halt> {
    let mut table = TextBuffer::new(job.alloc);
    let mut first = None;
    let mut answer = None;
    for workers in &job.request.speedup {
        let (finished, took) = run_least(rt, job, *workers, beside)?;
        let base = first.unwrap_or(took);
        let hundredths = base.saturating_mul(100) / took.max(1);
        let ones = hundredths / 100;
        let rest = hundredths % 100;
        writeln!(
            table,
            "workers {workers} microseconds {took} speedup {ones}.{rest:02}"
        );
        first = Some(base);
        answer = finished;
    }
    let table = table.finish()?;
    if let Some(finished) = answer {
        print_finished(job, &finished, output, beside)?;
    }
    output.write_all(table.as_bytes())?;
    Ok(Status::Done)
}
