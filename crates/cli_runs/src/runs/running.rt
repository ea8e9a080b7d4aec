//! The serial run as a verb of the program, and the answer of a run that goes by events.

use cli_jobs::{Halt, Job, prepared, print_finished, print_memory, print_result};
use cli_words::{Beside, Status};
use schedule_core::Machine;
use serial_machine::serial_run;
use std::io::Write;

/// Runs the module serially.
pub fn run_serial<W: Write>(
    job: &Job<'_>,
    output: &mut W,
    beside: &mut Beside,
) -> Result<Status, Halt> {
    let memory = prepared(job, beside)?;
    let args = job.request.args.as_slice();
    let finished = serial_run(job.alloc, job.verified, args, memory)?;
    print_finished(job, &finished, output, beside)
}

/// The answer of a run that stands so.
pub(crate) fn print_replayed<W: Write>(
    job: &Job<'_>,
    machine: Machine<'_>,
    output: &mut W,
    beside: &mut Beside,
) -> Result<Status, Halt> {
    let instructions = machine.instructions();
    beside.times.instructions = instructions;
    let printed = match machine.result() {
        Some(result) => print_result(result, instructions, machine.peak(), output),
        None => {
            let frames = machine.live_frames();
            writeln!(
                output,
                "not ended\ninstructions {instructions}\nframes {frames}"
            )
        }
    };
    printed?;
    print_memory(job, &machine.into_memory(), output, beside)
}
