//! Runs on threads of which more is told than the answer: their events are recorded.

use crate::clocks::microseconds_since;
use crate::launches::launch_of;
use crate::strands::{Told as Replayed, run_again};
use cli_jobs::{Finished, Halt, Job, prepared};
use cli_runs::{Course, Event, Machine, page_of, print_told, tell_course};
use cli_words::{Beside, Status};
use deque_pool::{Entry, Figures, OpenGate, Recorded, run_recorded};
use lists::{ListBuffer, OutOfMemory, TextBuffer};
use std::alloc::{AllocError, Global};
use std::io::Write;
use std::sync::Wait;
use std::thread::Threads;
use std::time::{Clock, Instant};
use views::{Crew, Effort, Figures as Table, MOST_EVENTS, Script, Told, Whole, picture_of};

/// The events of a run that was recorded, or so many of them.
#[derive(Drop)]
struct Kept<'e> {
    alloc: Global,
    entries: &'e [Entry],
    next: usize,
    /// How many steps of that entry were done.
    done: u64,
    /// How many events are left.
    left: u64,
}

impl<'e> Kept<'e> {
    /// The first events of these, at most so many.
    fn of(alloc: Global, entries: &'e [Entry], most: u64) -> Kept<'e> {
        Kept {
            alloc,
            entries,
            next: 0,
            done: 0,
            left: most,
        }
    }

    /// Goes on to the next entry.
    fn go_on(&mut self) {
        self.next = self.next.saturating_add(1);
        self.done = 0;
    }
}

impl Course for Kept<'_> {
    fn next(&mut self, _machine: &Machine<'_>) -> Result<Option<Event>, OutOfMemory> {
        if self.left == 0 {
            return Ok(None);
        }
        self.left = self.left.saturating_sub(1);
        for _entry in 0..=self.entries.len() {
            match self.entries.get(self.next) {
                Some(Entry::Steps { worker, count }) if self.done < *count => {
                    self.done = self.done.saturating_add(1);
                    return Ok(Some(Event::Step(*worker)));
                }
                Some(Entry::Steps { .. }) => self.go_on(),
                Some(Entry::Steal { worker, path }) => {
                    let task = path.copy(self.alloc)?;
                    self.go_on();
                    return Ok(Some(Event::Steal(*worker, task)));
                }
                None => return Ok(None),
            }
        }
        Ok(None)
    }

    fn done(&mut self, _machine: &Machine<'_>) -> Result<(), OutOfMemory> {
        Ok(())
    }
}

/// What each worker did beside its events.
fn efforts_of(alloc: Global, figures: &[Figures]) -> Result<Vec<Effort>, AllocError> {
    let mut efforts = ListBuffer::new(alloc);
    for worker in figures {
        efforts.push(Effort {
            strands: worker.strands,
            strangers: worker.strangers,
            searches: worker.searches,
            publications: worker.publications,
            at_borders: worker.at_borders,
            at_full_logs: worker.at_full_logs,
            at_limits: worker.at_limits,
            for_others: worker.for_others,
        });
    }
    efforts.finish()
}

/// The events as a schedule, if that is not too long.
fn script_of(alloc: Global, entries: &[Entry]) -> Result<Option<String>, AllocError> {
    let mut script = Script::new(alloc);
    for entry in entries {
        match entry {
            Entry::Steps { worker, count } => script.add_steps(*worker, *count),
            Entry::Steal { worker, path } => script.add_steal(*worker, path),
        }
    }
    script.into_text()
}

/// The lines of the figures and the picture, as far as they are asked for: the strands are done once more.
fn draw(
    job: &Job<'_>,
    entries: &[Entry],
    crew: Crew<'_>,
    shown: &mut Told,
    beside: &mut Beside,
) -> Result<(), Halt> {
    let telling = &job.request.telling;
    let launch = launch_of(job, job.request.workers, beside)?;
    let Replayed {
        tallies,
        rounds,
        scene,
    } = run_again(job.alloc, launch, entries, telling.picture.is_some())?;
    shown.picture = picture_of(job.alloc, scene)?;
    if telling.stats {
        let mut lines = TextBuffer::new(job.alloc);
        Table::of(tallies, rounds).push_lines(&mut lines, crew);
        shown.stats = lines.finish()?;
    }
    Ok(())
}

/// The page, which tells the first events.
fn page<W: Write>(
    job: &Job<'_>,
    entries: &[Entry],
    finished: &Finished,
    events: u64,
    output: &mut W,
    beside: &mut Beside,
) -> Result<Option<String>, Halt> {
    let memory = prepared(job, beside)?;
    let mut course = Kept::of(job.alloc, entries, MOST_EVENTS);
    let whole = Whole {
        untold: events.saturating_sub(MOST_EVENTS),
        result: finished.result,
        instructions: finished.instructions,
        peak: finished.peak,
    };
    page_of(job, memory, &mut course, whole, output)
}

/// All that is told of a run of which not each event is shown.
fn tell_parts<W: Write>(
    job: &Job<'_>,
    run: &Recorded,
    crew: Crew<'_>,
    shown: &mut Told,
    output: &mut W,
    beside: &mut Beside,
) -> Result<(), Halt> {
    let telling = &job.request.telling;
    let entries = run.history.entries().unwrap_or(&[]);
    if telling.page.is_some() {
        shown.page = page(job, entries, &run.finished, shown.events, output, beside)?;
    }
    if telling.stats || telling.picture.is_some() {
        draw(job, entries, crew, shown, beside)?;
    }
    if telling.save.is_some() {
        shown.script = script_of(job.alloc, entries)?;
    }
    Ok(())
}

/// Tells of a run of which not each event is shown.
fn tell_strands<W: Write>(
    job: &Job<'_>,
    run: Recorded,
    crew: Crew<'_>,
    output: &mut W,
    beside: &mut Beside,
) -> Result<Status, Halt> {
    let mut shown = Told {
        script: None,
        events: run.history.total(),
        stats: String::new(job.alloc),
        picture: None,
        json: String::new(job.alloc),
        page: None,
    };
    tell_parts(job, &run, crew, &mut shown, output, beside)?;
    print_told(job, run.finished, shown, output, beside)
}

/// Tells of a run that was recorded: its events are done once more, strand by strand where none is shown by itself.
fn tell_recorded<W: Write>(
    job: &Job<'_>,
    run: Recorded,
    microseconds: u64,
    output: &mut W,
    beside: &mut Beside,
) -> Result<Status, Halt> {
    let efforts = efforts_of(job.alloc, run.figures.as_slice())?;
    let crew = Crew {
        efforts: efforts.as_slice(),
        microseconds,
    };
    if !job.request.telling.trace && job.request.telling.json.is_none() {
        return tell_strands(job, run, crew, output, beside);
    }
    let memory = prepared(job, beside)?;
    let entries = run.history.entries().unwrap_or(&[]);
    let mut events = Kept::of(job.alloc, entries, u64::MAX);
    tell_course(job, memory, &mut events, crew, output, beside)
}

/// Runs the module on workers, each on a thread of its own, and tells of the events that were done.
pub(crate) fn run_told<T: Threads + Wait + Clock + Sync, W: Write>(
    rt: &T,
    job: &Job<'_>,
    output: &mut W,
    beside: &mut Beside,
) -> Result<Status, Halt> {
    let launch = launch_of(job, job.request.workers, beside)?;
    let begun = Instant::now(rt)?;
    let run = run_recorded(rt, job.alloc, launch, &OpenGate);
    let took = microseconds_since(rt, begun)?;
    tell_recorded(job, run?, took, output, beside)
}
