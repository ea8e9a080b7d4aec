//! What a worker wants of the board, and what it remembers from strand to strand.

use crate::ticket::Ticket;
use crate::turns::ahead::Trail;
use crate::turns::heights::Heights;
use crate::turns::pace::Pace;
use crate::turns::tasks::Reason;
use std::alloc::Global;

/// What a worker wants of the board.
#[derive(Clone, Copy)]
pub(crate) enum Want {
    /// Nothing: it goes on outside.
    Nothing,
    /// The frame that it runs at the start of the run.
    Begin,
    /// The frame that it runs next.
    Base,
    /// The page of the cell at this address.
    Page { at: i64 },
    /// To publish what it has done.
    Publish { reason: Reason },
    /// A task to run: it has none, and is to look for one.
    Task,
    /// To leave: memory was refused.
    Leave,
}

/// What a worker remembers beside its strand. Nothing rests on it.
#[derive(Drop)]
pub struct Habits {
    pub(crate) want: Want,
    pub(crate) pace: Pace,
    pub(crate) trail: Trail,
    pub(crate) heights: Heights,
    /// Room for the tickets of one publication.
    pub(crate) tickets: Vec<Ticket>,
    /// How many tasks it has offered to others in this meeting.
    pub(crate) offered: usize,
    /// The times that it looked for a task in vain, one after the other.
    pub(crate) vain: u32,
    /// Whether its frame was just loaded.
    pub(crate) is_new: bool,
}

impl Habits {
    /// Of a worker that has done nothing yet.
    pub fn new(alloc: Global) -> Habits {
        Habits {
            want: Want::Begin,
            pace: Pace::new(),
            trail: Trail::new(),
            heights: Heights::none_seen(),
            tickets: Vec::new(alloc),
            offered: 0,
            vain: 0,
            is_new: false,
        }
    }

    /// It offers no task in its next so many instructions, where it is not made to by a border or a limit.
    pub fn keep_quiet(&mut self, instructions: u64) {
        self.pace.quiet = instructions;
    }

    /// Whether a strand begins: its frame was loaded, and it has not gone on since.
    pub fn is_new(&self) -> bool {
        self.is_new
    }
}
