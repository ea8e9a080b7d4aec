//! What is counted of costs (self calls, instructions), and what is left at a place.

use cost_table::Work;
use linear::Form;
use program::{BlockId, Left};
use ranges::Move;

/// What is counted.
#[derive(Clone, Copy)]
pub enum Counted {
    SelfCalls,
    Instructions,
}

/// What is left at a place, with what phis take there put in.
#[derive(Clone, Copy)]
pub struct Share<'a> {
    pub to: BlockId,
    pub moves: &'a [Move],
    pub left: &'a Left,
}

impl Counted {
    pub fn unit(self) -> &'static str {
        match self {
            Counted::SelfCalls => "self call",
            Counted::Instructions => "instruction",
        }
    }

    pub fn of_left(self, left: &Left) -> &Form {
        match self {
            Counted::SelfCalls => &left.self_calls,
            Counted::Instructions => &left.instructions,
        }
    }

    pub fn of_work(self, work: Work) -> u128 {
        match self {
            Counted::SelfCalls => work.calls,
            Counted::Instructions => work.instructions,
        }
    }
}

/// A number of what is done; the greatest stands for all beyond.
pub fn amount(done: u128) -> i128 {
    i128::try_from(done).unwrap_or(i128::MAX)
}
