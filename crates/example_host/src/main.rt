//! A host: takes a kernel that it did not write, turns it away where it is wrong or too dear, and runs it serially, on threads and by a schedule.
#![tactic(auto)]

use deque_pool::{Event, Gate, Go, Launch, replay, run};
use frame::Path;
use serial_machine::{Decoded, serial_run_by};
use std::alloc::{AllocError, Global};
use std::hash::RandomState;
use std::io::{BufWriter, Write};
use std::process::ExitCode;
use std::sync::Wait;
use std::thread::Threads;
use std::time::Clock;
use std::{env, fs, io};
use store::{Memory, RunFault};
use verifier::{Effort, Refused, Unverified, Verified, verify_within};

/// The most steps of search for a verdict.
const MOST_STEPS: u64 = 1_000_000_000;

/// The most instructions and frames that this host pays for.
const MOST_INSTRUCTIONS: u64 = 1_000_000;

const MOST_FRAMES: u64 = 1_000;

const WORKERS: usize = 4;

/// Stops a run on threads before a worker begins this strand. A strand is some 65,536 instructions at most.
struct Limit(u64);

impl Gate for Limit {
    fn pass(&self, _worker: u8, strand: u64) -> Go {
        if strand < self.0 { Go::On } else { Go::Stop }
    }
}

/// Why a run has no answer, in words.
fn reason(fault: &RunFault) -> &'static str {
    match fault {
        RunFault::BadArguments { .. } => "the arguments are not those that the kernel asks for",
        RunFault::BadWorkers { .. } => "there are from 1 to 64 workers",
        RunFault::OutOfMemory => "out of memory",
        RunFault::Stopped => "it began too many strands",
    }
}

/// Two workers take turns, and the second one steals the root where it can. In each round before the end some worker
/// does an instruction, so as many rounds as the budget has instructions are enough.
fn turns(alloc: Global, rounds: u64) -> Result<Vec<Event>, AllocError> {
    let mut events = Vec::new(alloc);
    for _ in 0..rounds {
        events.push(Event::Steal(1, Path::root(alloc)))?;
        events.push(Event::Step(0))?;
        events.push(Event::Step(1))?;
    }
    Ok(events)
}

/// What a run comes to: its result, where it has ended, and its instructions.
type End = Result<(Option<i64>, u64), RunFault>;

fn tell<W: Write>(output: &mut W, how: &str, end: End) -> io::Result<()> {
    match end {
        Ok((Some(result), count)) => writeln!(output, "{how}: {result} after {count} instructions"),
        Ok((None, count)) => writeln!(output, "{how}: not ended after {count} instructions"),
        Err(fault) => writeln!(output, "{how}: {}", reason(&fault)),
    }
}

/// Runs a kernel with each of these arguments. It is decoded once for all of them.
fn run_serially<W: Write>(
    alloc: Global,
    kernel: &Verified,
    arguments: &[i64],
    output: &mut W,
) -> io::Result<()> {
    let Ok(code) = Decoded::of(alloc, kernel) else {
        return tell(output, "serially", Err(RunFault::OutOfMemory));
    };
    for argument in arguments {
        let Ok(memory) = Memory::zeroed(alloc, kernel) else {
            return tell(output, "serially", Err(RunFault::OutOfMemory));
        };
        let end = match serial_run_by(alloc, kernel, &code, &[*argument], memory) {
            Ok(run) => Ok((Some(run.result), run.instructions)),
            Err(fault) => Err(fault),
        };
        tell(output, "serially", end)?;
    }
    Ok(())
}

/// Runs a kernel on four workers, each on a thread of its own.
fn run_on_threads<T: Threads + Wait + Clock + Sync>(
    rt: &T,
    alloc: Global,
    kernel: &Verified,
    arguments: &[i64],
) -> End {
    let Ok(memory) = Memory::zeroed(alloc, kernel) else {
        return Err(RunFault::OutOfMemory);
    };
    let launch = Launch {
        verified: kernel,
        arguments,
        memory,
        workers: WORKERS,
    };
    let run = run(rt, alloc, launch, &Limit(100_000))?;
    Ok((Some(run.result), run.instructions))
}

/// Runs a kernel by the schedule of two workers that take turns.
fn run_in_turns(alloc: Global, kernel: &Verified, arguments: &[i64]) -> End {
    let Ok(events) = turns(alloc, kernel.budget().min(10_000)) else {
        return Err(RunFault::OutOfMemory);
    };
    let Ok(memory) = Memory::zeroed(alloc, kernel) else {
        return Err(RunFault::OutOfMemory);
    };
    let run = replay(alloc, kernel, arguments, memory, 2, events.as_slice())?;
    Ok((run.result(), run.instructions()))
}

/// Judges a kernel and runs it.
fn host<T: Threads + Wait + Clock + Sync, W: Write>(
    rt: &T,
    alloc: Global,
    state: RandomState,
    text: &[u8],
    output: &mut W,
) -> io::Result<()> {
    let kernel = match verify_within(alloc, state, text, &Effort::of(MOST_STEPS)) {
        Ok(kernel) => kernel,
        Err(Unverified::Refused(Refused::Fault { number, line })) => {
            return writeln!(output, "refused: rule {number}, line {line}");
        }
        Err(Unverified::Refused(Refused::Memory)) => return writeln!(output, "out of memory"),
        Err(Unverified::OutOfEffort { .. }) => return writeln!(output, "too dear to judge"),
    };
    let (budget, depth) = (kernel.budget(), kernel.depth());
    if budget > MOST_INSTRUCTIONS || depth > MOST_FRAMES {
        return writeln!(
            output,
            "too dear: {budget} instructions, {depth} frames deep"
        );
    }
    run_serially(alloc, &kernel, &[7, 8], output)?;
    tell(
        output,
        "on threads",
        run_on_threads(rt, alloc, &kernel, &[7]),
    )?;
    tell(output, "in turns", run_in_turns(alloc, &kernel, &[7]))
}

fn main(rt: HostRuntime) -> io::Result<ExitCode> {
    let alloc = rt.alloc();
    let state = RandomState::new(&rt)?;
    let mut output = BufWriter::new(alloc, io::writer(&rt))?;
    for file in env::args(&rt)?.skip(1) {
        match fs::read(&rt, file.as_str()) {
            Ok(text) => host(&rt, alloc, state, text.as_slice(), &mut output)?,
            Err(_) => writeln!(output, "unreadable")?,
        }
    }
    output.flush()?;
    Ok(ExitCode::SUCCESS)
}
