//! Figures of a run: what each worker did, and how much could be done at once (statistics, parallelism).

use crate::moment::{Moment, Outcome};
use crate::rounds::{Tally, Timing};
use frame::Event;
use lists::{OutOfMemory, TextBuffer};
use std::alloc::Global;

/// What a worker of a run on threads did beside its events.
#[derive(Clone, Copy)]
pub struct Effort {
    /// The strands that it began.
    pub strands: u64,
    /// Those that were done for nothing, since others had changed what they rest on.
    pub strangers: u64,
    /// The times that it looked for a task.
    pub searches: u64,
    /// The strands that it put on the board: the four numbers below together.
    pub publications: u64,
    /// Next was what only the board does.
    pub at_borders: u64,
    /// The next cell was of one more page than a strand has.
    pub at_full_logs: u64,
    /// They had done all that a strand may.
    pub at_limits: u64,
    /// Others waited for tasks.
    pub for_others: u64,
}

impl Effort {
    /// What it did beside its events, as it stands in the worker's line.
    fn push_words(self, out: &mut TextBuffer, steals: u64) {
        let Effort {
            strands,
            strangers,
            searches,
            publications,
            at_borders,
            at_full_logs,
            at_limits,
            for_others,
        } = self;
        write!(
            out,
            "strands {strands} steals {steals} strangers {strangers} searches {searches} publications {publications} \
             borders {at_borders} pages {at_full_logs} limits {at_limits} others {for_others}"
        );
    }
}

/// What the workers of a run on threads did beside its events, and how long it took.
#[derive(Clone, Copy)]
pub struct Crew<'a> {
    pub efforts: &'a [Effort],
    pub microseconds: u64,
}

impl Crew<'_> {
    /// Of a run that no threads did.
    pub fn none() -> Crew<'static> {
        Crew {
            efforts: &[],
            microseconds: 0,
        }
    }
}

/// What all workers did, event by event.
#[derive(Drop)]
pub struct Figures {
    workers: Vec<Tally>,
    /// The last round: so long is the longest chain of events.
    rounds: u64,
}

impl Figures {
    pub(crate) fn new(alloc: Global, workers: usize) -> Result<Figures, OutOfMemory> {
        Ok(Figures {
            workers: vec![in alloc; Tally::NONE; workers]?,
            rounds: 0,
        })
    }

    /// What the workers of a whole run did, in so many rounds.
    pub fn of(workers: Vec<Tally>, rounds: u64) -> Figures {
        Figures { workers, rounds }
    }

    /// What the worker did more, the last of it in this round.
    fn add_tally(&mut self, worker: usize, more: Tally, round: u64) {
        self.rounds = self.rounds.max(round);
        if let Some(tally) = self.workers.as_mut_slice().get_mut(worker) {
            *tally = tally.plus(more);
        }
    }

    /// So many instructions of the worker, the last one in this round.
    pub(crate) fn add_steps(&mut self, worker: usize, count: u64, round: u64) {
        let more = Tally {
            instructions: count,
            steals: 0,
        };
        self.add_tally(worker, more, round);
    }

    /// The next event, with its round. One that was not enabled counts for nothing.
    pub(crate) fn add(&mut self, event: &Event, moment: &Moment, timing: Timing) {
        if matches!(&moment.outcome, Outcome::NotEnabled(_)) {
            return;
        }
        let (worker, instructions, steals) = match event {
            Event::Step(worker) => (worker, 1, 0),
            Event::Steal(worker, _) => (worker, 0, 1),
        };
        let more = Tally {
            instructions,
            steals,
        };
        self.add_tally(usize::from(*worker), more, timing.round);
    }

    /// A line for each worker: its instructions, its steals, what it did beside, and in how many rounds of a hundred it did something. Then all
    /// together, with the longest chain and what could be done at once: the instructions over the longest chain. Of a run on threads also how
    /// many instructions it did in a second.
    pub fn push_lines(&self, out: &mut TextBuffer, crew: Crew<'_>) {
        let mut total = Tally::NONE;
        for (worker, tally) in self.workers.as_slice().iter().enumerate() {
            total = total.plus(*tally);
            self.push_worker(out, worker, *tally, crew);
        }
        self.push_total(out, total, crew);
    }

    /// What a worker did.
    fn push_worker(&self, out: &mut TextBuffer, worker: usize, tally: Tally, crew: Crew<'_>) {
        let Tally {
            instructions,
            steals,
        } = tally;
        write!(out, "worker {worker} instructions {instructions} ");
        match crew.efforts.get(worker) {
            Some(effort) => effort.push_words(out, steals),
            None => write!(out, "steals {steals}"),
        }
        let busy = share_of(instructions.saturating_add(steals), self.rounds);
        writeln!(out, " busy {busy}%");
    }

    /// What all workers did.
    fn push_total(&self, out: &mut TextBuffer, total: Tally, crew: Crew<'_>) {
        let Tally {
            instructions,
            steals,
        } = total;
        let rounds = self.rounds;
        let hundredths = instructions.saturating_mul(100) / rounds.max(1);
        let ones = hundredths / 100;
        let rest = hundredths % 100;
        write!(
            out,
            "total instructions {instructions} steals {steals} rounds {rounds} parallelism {ones}.{rest:02}"
        );
        if !crew.efforts.is_empty() {
            let speed = instructions.saturating_mul(1_000_000) / crew.microseconds.max(1);
            write!(out, " speed {speed}");
        }
        out.push_str("\n");
    }
}

/// How many of a hundred these are of all; 0 where there are none.
fn share_of(part: u64, whole: u64) -> u64 {
    (part.saturating_mul(100) / whole.max(1)).min(100)
}
