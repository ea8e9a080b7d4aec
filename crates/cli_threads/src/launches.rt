//! What a run on threads is started with: the module, its arguments, its memory and how many workers.

ghost use Rattle.std.specs.Prelude.{IfOk};
ghost use Rattle.shared_run.specs.store.Made.{IsMadeFor};

use cli_jobs::{Halt, Job, prepared};
use cli_words::Beside;
use deque_pool::Launch;

/// What the run that is asked for is started with, on so many workers.
pub(crate) fn launch_of<'a>(
    job: &Job<'a>,
    workers: usize,
    beside: &mut Beside,
) -> Result<Launch<'a>, Halt>
    ensures { IfOk result (λ launch. IsMadeFor launch.verified.now launch.memory) }
{
    Ok(Launch {
        verified: job.verified,
        arguments: job.request.args.as_slice(),
        memory: prepared(job, beside)?,
        workers,
    })
}
