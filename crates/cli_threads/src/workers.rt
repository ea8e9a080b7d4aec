//! A run on worker threads, as the command line asks for it, with the answer that is printed.

use crate::launches::launch_of;
use crate::recorded::run_told;
use crate::speedup::run_speedup;
use cli_jobs::{Halt, Job, print_finished};
use cli_runs::is_told;
use cli_words::{Beside, Status};
use deque_pool::OpenGate;
use std::io::Write;
use std::sync::Wait;
use std::thread::Threads;
use std::time::Clock;

/// Runs the module on workers, each on a thread of its own, and tells of it what is asked for.
pub fn run_on_workers<T: Threads + Wait + Clock + Sync, W: Write>(
    rt: &T,
    job: &Job<'_>,
    output: &mut W,
    beside: &mut Beside,
) -> Result<Status, Halt> {
    let request = job.request;
    if !request.speedup.is_empty() {
        return run_speedup(rt, job, output, beside);
    }
    if is_told(&request.telling) {
        return run_told(rt, job, output, beside);
    }
    let launch = launch_of(job, request.workers, beside)?;
    let finished = deque_pool::run(rt, job.alloc, launch, &OpenGate)?;
    print_finished(job, &finished, output, beside)
}
