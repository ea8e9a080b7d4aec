//! Why a run did not begin or go on (error, exit status).

use crate::job::Job;
use cli_words::{Beside, Status, print_unreadable, stop_for_memory};
use lists::OutOfMemory;
use schedule_text::ScheduleFault;
use std::alloc::AllocError;
use std::io;
use std::io::Write;
use store::RunFault;

/// Why a run did not begin or go on, before that is said.
#[derive(Clone, Copy)]
pub enum Halt {
    /// All that there is to say is said.
    Said(Status),
    /// The schedule's file could not be read.
    NoSchedule,
    Schedule(ScheduleFault),
    /// The arguments do not meet this requirement of `main`, counted from 1; 0 is their number.
    Arguments(usize),
    /// There are not from 1 to 64 workers.
    Workers,
    /// Memory was refused.
    Memory,
    /// A run on threads was stopped by its gate.
    Stopped,
    /// Standard input could not be read, or standard output not written.
    Stream(io::Error),
}

impl From<RunFault> for Halt {
    fn from(fault: RunFault) -> Halt {
        match fault {
            RunFault::BadArguments { requirement, .. } => Halt::Arguments(requirement),
            RunFault::BadWorkers { .. } => Halt::Workers,
            RunFault::OutOfMemory => Halt::Memory,
            RunFault::Stopped => Halt::Stopped,
        }
    }
}

impl From<ScheduleFault> for Halt {
    fn from(fault: ScheduleFault) -> Halt {
        Halt::Schedule(fault)
    }
}

impl From<AllocError> for Halt {
    fn from(_error: AllocError) -> Halt {
        Halt::Memory
    }
}

impl From<OutOfMemory> for Halt {
    fn from(_error: OutOfMemory) -> Halt {
        Halt::Memory
    }
}

impl From<io::Error> for Halt {
    fn from(error: io::Error) -> Halt {
        Halt::Stream(error)
    }
}

/// Says what is wrong with a schedule.
fn print_schedule_fault<W: Write>(
    job: &Job<'_>,
    fault: ScheduleFault,
    output: &mut W,
    beside: &mut Beside,
) -> io::Result<Status> {
    let (line, words) = match fault {
        ScheduleFault::BadLine(line) => (
            line,
            "no line of a schedule, which are step W N, not twice in a row for one worker, and steal W PATH",
        ),
        ScheduleFault::TooLong(line) => (
            line,
            "the schedule is too long: at most 1048576 events, in as many bytes",
        ),
        ScheduleFault::Memory => return stop_for_memory(output),
    };
    if let Some(file) = &job.request.schedule {
        beside.note_at(file.as_str(), u64::from(line), words);
    }
    writeln!(output, "schedule {fault}")?;
    Ok(Status::Schedule)
}

/// The status of a run, once it is said why it did not begin or go on.
pub fn status_of<W: Write>(
    job: &Job<'_>,
    run: Result<Status, Halt>,
    output: &mut W,
    beside: &mut Beside,
) -> io::Result<Status> {
    let said = match run {
        Ok(status) | Err(Halt::Said(status)) => return Ok(status),
        Err(Halt::NoSchedule) => {
            let file = match &job.request.schedule {
                Some(file) => file.as_str(),
                None => "",
            };
            return print_unreadable(job.alloc, file, output);
        }
        Err(Halt::Schedule(fault)) => return print_schedule_fault(job, fault, output, beside),
        Err(Halt::Memory) => return stop_for_memory(output),
        Err(Halt::Stream(error)) => return Err(error),
        Err(Halt::Arguments(requirement)) => {
            job.note_requirement(requirement, beside);
            writeln!(output, "stopped 801 requirement {requirement}")
        }
        Err(Halt::Workers) => {
            beside.note("--workers is not from 1 to 64");
            output.write_all(b"stopped 802\n")
        }
        Err(Halt::Stopped) => output.write_all(b"stopped 804\n"),
    };
    said?;
    Ok(Status::Stopped)
}
