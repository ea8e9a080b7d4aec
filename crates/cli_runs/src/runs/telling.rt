//! A run that is done once more, so that each of its events is told.

ghost use Rattle.serial_machine.specs.store.Made.{IsMadeFor};

use crate::watch::{Course, Watch};
use cli_jobs::{Halt, Job};
use ir_reader::read;
use lists::OutOfMemory;
use schedule_core::{Event, Machine, Memory};
use std::alloc::{AllocError, Global};
use std::io::Write;
use views::{Crew, Names, Settings, Start, Teller, Told, Wanted, Whole, Words};

/// What is told of a run beside its events.
#[derive(Clone, Copy)]
pub(crate) struct Account<'a> {
    pub crew: Crew<'a>,
    /// What the run came to, where its events are only the first ones.
    pub whole: Option<Whole>,
    pub wanted: Wanted,
}

/// What a run that has ended came to.
fn ended(alloc: Global, value: i64, instructions: u64, peak: u64) -> Result<String, AllocError> {
    format!(in alloc; "result {value}, instructions {instructions}, peak {peak}")
}

/// What the run came to.
fn answer_of(alloc: Global, words: Words<'_>, machine: &Machine<'_>) -> Result<String, AllocError> {
    if let Some(whole) = words.whole {
        return ended(alloc, whole.result, whole.instructions, whole.peak);
    }
    let instructions = machine.instructions();
    match machine.result() {
        Some(result) => ended(alloc, result, instructions, machine.peak()),
        None => {
            let frames = machine.live_frames();
            format!(in alloc; "not ended, instructions {instructions}, frames {frames}")
        }
    }
}

/// Does an event, and tells of it: its line of the trace, empty where none is wanted. Of a step that does nothing to frames or tasks little is asked where
/// nothing is shown of it but that it was.
fn tell_event(
    words: Words<'_>,
    watch: &mut Watch<'_>,
    teller: &mut Teller,
    event: &Event,
) -> Result<String, OutOfMemory> {
    if !teller.is_detailed() {
        watch.end_details();
    }
    if let Event::Step(worker) = event
        && !teller.is_traced()
        && !teller.is_detailed()
        && watch.plain_step(*worker)?
    {
        teller.add_step(*worker)?;
        return Ok(String::new(teller.alloc()));
    }
    let moment = watch.next(event)?;
    teller.add(words, event, &moment)
}

/// What tells of a run whose root is given these registers.
fn teller_with<'a>(
    job: &'a Job<'_>,
    words: Words<'a>,
    wanted: Wanted,
    root: &'a Settings,
) -> Result<Teller, OutOfMemory> {
    let start = Start {
        title: job.request.file.as_str(),
        source: job.source(),
        workers: job.request.workers,
        root,
    };
    Teller::new(job.alloc, words, wanted, start)
}

/// What tells of a run that has not begun yet.
fn teller_of(
    job: &Job<'_>,
    words: Words<'_>,
    watch: &mut Watch<'_>,
    wanted: Wanted,
) -> Result<Teller, OutOfMemory> {
    let given = if wanted.json || wanted.page {
        watch.begin_details()?
    } else {
        Settings::none(job.alloc)
    };
    teller_with(job, words, wanted, &given)
}

/// Tells event after event, and answers what the run came to. The trace goes to the output.
fn tell_all<C: Course, W: Write>(
    words: Words<'_>,
    watch: &mut Watch<'_>,
    teller: &mut Teller,
    course: &mut C,
    output: &mut W,
) -> Result<String, Halt> {
    for _event in 0..u64::MAX {
        let Some(event) = course.next(watch.machine())? else {
            break;
        };
        let line = tell_event(words, watch, teller, &event)?;
        course.done(watch.machine())?;
        output.write_all(line.as_bytes())?;
    }
    Ok(answer_of(teller.alloc(), words, watch.machine())?)
}

/// A run that has begun, told with these names.
fn tell_from<C: Course, W: Write>(
    job: &Job<'_>,
    names: &Names<'_>,
    watch: &mut Watch<'_>,
    course: &mut C,
    account: Account<'_>,
    output: &mut W,
) -> Result<Told, Halt> {
    let lines = job.lines()?;
    let words = Words {
        names,
        lines: lines.as_slice(),
        crew: account.crew,
        whole: account.whole,
    };
    let mut teller = teller_of(job, words, watch, account.wanted)?;
    let answer = tell_all(words, watch, &mut teller, course, output)?;
    Ok(teller.finish(words, answer.as_str())?)
}

/// A run that has begun, told with the module's names.
fn tell_named<C: Course, W: Write>(
    job: &Job<'_>,
    watch: &mut Watch<'_>,
    course: &mut C,
    account: Account<'_>,
    output: &mut W,
) -> Result<Told, Halt> {
    // It was read before.
    if let Ok(module) = read(job.alloc, job.state, job.text)
        && let Ok(names) = Names::of(job.alloc, job.verified.program(), &module)
    {
        return tell_from(job, &names, watch, course, account, output);
    }
    Err(Halt::Memory)
}

/// Runs the module by the events of a course, and tells of them. The trace goes to the output. The answer is what was told, and the machine after the last
/// event.
pub(crate) fn tell<'v, C: Course, W: Write>(
    job: &Job<'v>,
    memory: Memory,
    course: &mut C,
    account: Account<'_>,
    output: &mut W,
) -> Result<(Told, Machine<'v>), Halt>
    requires { IsMadeFor job.now.verified.now memory }
{
    let args = job.request.args.as_slice();
    let workers = job.request.workers;
    let mut watch = Watch::start(job.alloc, job.verified, args, memory, workers)?;
    let told = tell_named(job, &mut watch, course, account, output)?;
    Ok((told, watch.into_machine()))
}
