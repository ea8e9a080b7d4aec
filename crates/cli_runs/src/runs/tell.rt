//! Runs whose events are told (replays, and those that a seed draws): trace, picture, page, JSON, schedule, figures.

ghost use Rattle.serial_machine.specs.store.Made.{IsMadeFor};

use crate::runs::running::print_replayed;
use crate::runs::telling::{Account, tell};
use crate::watch::{Course, Draw, Listed};
use cli_jobs::{Halt, Job, prepared, print_finished, scheduled};
use cli_words::{Beside, Status, Telling};
use schedule_core::{Event, Finished, Memory, replay};
use std::io::Write;
use views::{Crew, Told, Wanted, Whole};

/// What is asked to be told of a run.
fn wanted_of(telling: &Telling) -> Wanted {
    Wanted {
        trace: telling.trace,
        script: telling.save.is_some(),
        stats: telling.stats,
        picture: telling.picture.is_some(),
        json: telling.json.is_some(),
        page: telling.page.is_some(),
    }
}

/// Whether anything is to be told of a run's events.
pub fn is_told(telling: &Telling) -> bool {
    wanted_of(telling).is_any()
}

/// Keeps a text for the file where one is asked for.
fn keep(file: &Option<String>, text: Option<String>, beside: &mut Beside) {
    if let (Some(file), Some(text)) = (file, text) {
        beside.keep_file(file.as_str(), text.into_bytes());
    }
}

/// Says that the schedule of so many events is too long for the file where one is asked for.
fn note_too_long(job: &Job<'_>, events: u64, beside: &mut Beside) -> Status {
    let Some(file) = &job.request.telling.save else {
        return Status::Done;
    };
    let error = beside.error_word();
    let file = file.as_str();
    writeln!(
        beside,
        "{error} {file}: the run has {events} events; a schedule has at most 1048576, in as many bytes, so none is saved"
    );
    Status::Schedule
}

/// Writes and keeps what was told.
fn keep_told<W: Write>(
    job: &Job<'_>,
    told: Told,
    output: &mut W,
    beside: &mut Beside,
) -> Result<Status, Halt> {
    let Told {
        script,
        events,
        stats,
        picture,
        json,
        page,
    } = told;
    let telling = &job.request.telling;
    keep(&telling.picture, picture, beside);
    keep(&telling.json, Some(json), beside);
    keep(&telling.page, page, beside);
    let status = match script {
        Some(_) => Status::Done,
        None => note_too_long(job, events, beside),
    };
    keep(&telling.save, script, beside);
    output.write_all(stats.as_bytes())?;
    Ok(status)
}

/// Prints the answer of a run that was recorded, and what was told of it.
pub fn print_told<W: Write>(
    job: &Job<'_>,
    finished: Finished,
    told: Told,
    output: &mut W,
    beside: &mut Beside,
) -> Result<Status, Halt> {
    print_finished(job, &finished, output, beside)?;
    keep_told(job, told, output, beside)
}

/// The page of a run of which the course has the beginning.
pub fn page_of<C: Course, W: Write>(
    job: &Job<'_>,
    memory: Memory,
    course: &mut C,
    whole: Whole,
    output: &mut W,
) -> Result<Option<String>, Halt>
    requires { IsMadeFor job.now.verified.now memory }
{
    let account = Account {
        crew: Crew::none(),
        whole: Some(whole),
        wanted: Wanted::page(),
    };
    let (told, _machine) = tell(job, memory, course, account, output)?;
    Ok(told.page)
}

/// Runs by the events of a course. What is asked to be told of them comes before the answer, the figures after it.
pub fn tell_course<C: Course, W: Write>(
    job: &Job<'_>,
    memory: Memory,
    course: &mut C,
    crew: Crew<'_>,
    output: &mut W,
    beside: &mut Beside,
) -> Result<Status, Halt>
    requires { IsMadeFor job.now.verified.now memory }
{
    let account = Account {
        crew,
        whole: None,
        wanted: wanted_of(&job.request.telling),
    };
    let (told, machine) = tell(job, memory, course, account, output)?;
    print_replayed(job, machine, output, beside)?;
    keep_told(job, told, output, beside)
}

/// Runs by a list of events.
fn run_listed<W: Write>(
    job: &Job<'_>,
    events: &[Event],
    memory: Memory,
    output: &mut W,
    beside: &mut Beside,
) -> Result<Status, Halt>
    requires { IsMadeFor job.now.verified.now memory }
{
    let args = job.request.args.as_slice();
    let workers = job.request.workers;
    let machine = replay(job.alloc, job.verified, args, memory, workers, events)?;
    print_replayed(job, machine, output, beside)
}

/// Runs by the schedule, and tells of its events where that is asked for.
pub fn run_replay<W: Write>(
    job: &Job<'_>,
    output: &mut W,
    beside: &mut Beside,
) -> Result<Status, Halt> {
    let (events, memory) = scheduled(job, beside)?;
    let events = events.as_slice();
    if is_told(&job.request.telling) {
        let mut course = Listed::new(job.alloc, events);
        return tell_course(job, memory, &mut course, Crew::none(), output, beside);
    }
    run_listed(job, events, memory, output, beside)
}

/// Runs by events that are drawn by the seed, and tells of them where that is asked for. The seed is 0 where the request names none.
pub fn run_drawn<W: Write>(
    job: &Job<'_>,
    output: &mut W,
    beside: &mut Beside,
) -> Result<Status, Halt> {
    let memory = prepared(job, beside)?;
    let seed = job.request.telling.seed.unwrap_or(0);
    let mut draw = Draw::new(job.alloc, seed, job.request.workers);
    tell_course(job, memory, &mut draw, Crew::none(), output, beside)
}
