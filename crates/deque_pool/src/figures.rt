//! What each worker did in a run: instructions, steals, searches, publications (scheduler statistics).

use shared_run::turns::{Reason, Told};

/// What a worker did in a run. Each number stays at 2^64 - 1.
#[derive(Clone, Copy)]
pub struct Figures {
    /// The instructions that it did: all workers' together are those of the run.
    pub instructions: u64,
    /// The strands that it began, each after its gate.
    pub strands: u64,
    /// The tasks that it took: its own again by their tickets, those of others, and those that it found at the board.
    pub steals: u64,
    /// The times that it looked again for a task, where it had found none.
    pub searches: u64,
    /// The strands that were done for nothing: others had meanwhile changed what they rest on.
    pub strangers: u64,
    /// How often it put on the board what it had done, at the end of a strand or of a frame that ended right behind it: the four numbers below together.
    pub publications: u64,
    /// Next was what only the board does.
    pub at_borders: u64,
    /// The next cell was of one more page than a strand has.
    pub at_full_logs: u64,
    /// They had done as much as a strand does.
    pub at_limits: u64,
    /// Others waited for tasks.
    pub for_others: u64,
}

impl Figures {
    /// Nothing yet.
    pub(crate) fn none() -> Figures {
        Figures {
            instructions: 0,
            strands: 0,
            steals: 0,
            searches: 0,
            strangers: 0,
            publications: 0,
            at_borders: 0,
            at_full_logs: 0,
            at_limits: 0,
            for_others: 0,
        }
    }

    /// Counts what the worker did at the board.
    pub(crate) fn count(&mut self, told: Told) {
        let count = match told {
            Told::Publication {
                instructions,
                reason,
            } => {
                self.instructions = self.instructions.saturating_add(instructions);
                self.publications = self.publications.saturating_add(1);
                match reason {
                    Reason::Border => &mut self.at_borders,
                    Reason::Full => &mut self.at_full_logs,
                    Reason::Asked => &mut self.for_others,
                    Reason::Limit => &mut self.at_limits,
                }
            }
            Told::Step => &mut self.instructions,
            Told::Stranger => &mut self.strangers,
            Told::Steal => &mut self.steals,
            Told::Begin | Told::Rest => return,
        };
        *count = count.saturating_add(1);
    }

    /// A strand begins. The answer is how many began before.
    pub(crate) fn count_strand(&mut self) -> u64 {
        let before = self.strands;
        self.strands = self.strands.saturating_add(1);
        before
    }
}
