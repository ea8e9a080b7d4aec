//! How soon a worker puts a strand on the board again for those that wait (throttle, granularity).

use crate::turns::tasks::Reason;

/// The most instructions that a worker does before it puts a strand on the board for others. The more, the rarer tiny tasks are offered in vain, and the later
/// a worker offers one again whose tasks have become large.
const MOST_PATIENCE: u64 = 50_000;

/// A worker that has no task left after fewer instructions has given more than it kept. The figures of [`Pace`] were taken with this number.
const CRUMB: u64 = 1_000;

/// To offer tasks takes so long that it is to be rare where nobody comes, unless the worker did so many instructions each time. A loop whose children do some
/// thousand instructions each is shared by this number; of tiny children it is left alone.
const ENOUGH: u64 = 8_000;

/// How soon a worker puts a strand on the board again only because others wait for tasks. That is learnt, as no fixed wait serves: in a port to plain Rust four
/// workers gained, in a loop of children of 9,000 instructions, 2.2 with no wait, 1.1 with one of 10,000 instructions and 2.1 with a learnt one; in a loop of
/// tiny children 0.6, 1.0 and 1.0. Recursion did not care.
#[derive(Drop)]
pub(crate) struct Pace {
    /// So many instructions it does at least in between.
    patience: u64,
    /// The instructions since the last time, without those of the strand that is under way.
    since: u64,
    /// So many of the tasks that it left ready then are neither stolen nor taken on by itself, as far as it has seen.
    open: usize,
    /// It offers nothing in its first instructions: so many.
    pub(crate) quiet: u64,
}

impl Pace {
    /// At once.
    pub(crate) fn new() -> Pace {
        Pace {
            patience: 0,
            since: 0,
            open: 0,
            quiet: 0,
        }
    }

    /// Whether it may be done again, where the strand that is under way did so many instructions. One that has much to give waits for nothing but the
    /// worker's first instructions.
    pub(crate) fn is_due(&self, done: u64, has_much: bool) -> bool {
        let since = self.since.saturating_add(done);
        self.quiet <= since && (has_much || self.patience <= since)
    }

    /// A strand of so many instructions was put on the board, and left so many tasks ready.
    pub(crate) fn note(&mut self, done: u64, reason: Reason, tasks: usize) {
        if let Reason::Asked = reason {
            self.since = 0;
            self.open = tasks;
            self.quiet = 0;
        } else {
            self.since = self.since.saturating_add(done);
        }
    }

    /// The worker took a task.
    pub(crate) fn note_task(&mut self) {
        self.since = 0;
        self.open = 0;
    }

    /// A child ended whose parent another worker had taken: so nothing is left of what was offered. It was worth it where the worker had much to do
    /// until then. What the thief got tells nothing: of a loop of tiny children it gets all the rest, and then two workers take turns at one loop.
    pub(crate) fn note_theft(&mut self) {
        if self.open > 0 {
            self.open = 0;
            self.judge(CRUMB);
        }
    }

    /// A child ended whose parent the worker takes on itself. Where this was the last of the tasks that were offered, nobody came for any.
    pub(crate) fn note_return(&mut self) {
        if self.open > 0 {
            self.open -= 1;
            if self.open == 0 {
                self.judge(ENOUGH);
            }
        }
    }

    /// It is to be done less often where fewer instructions than these came of it, and more often else.
    fn judge(&mut self, least: u64) {
        self.patience = if self.since < least {
            let doubled = self.patience.saturating_mul(2);
            // Twice 0 would be 0.
            doubled.saturating_add(64).min(MOST_PATIENCE)
        } else {
            self.patience / 2
        };
    }
}
