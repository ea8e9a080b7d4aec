//! The layout of a picture: where lanes, bars and words stand, in pixels.

use crate::pictures::scene::Scene;

/// The room for the workers' names.
pub const LEFT: u64 = 84;
/// The room for the numbers of rounds.
const TOP: u64 = 34;
/// The room at the right.
const MARGIN: u64 = 24;
/// The height of a worker's row, and of its parts.
const ROW: u64 = 44;

pub const STAY: u64 = 30;

pub const WORK: u64 = 12;
/// The width that rounds have together, where there are enough of them, and the most that they may have.
const ACROSS: u64 = 1_200;

const MOST_ACROSS: u64 = 3_880;
/// The most pixels of a round.
const WIDEST: u64 = 28;
/// The narrowest picture: a legend has room in it.
const NARROWEST: u64 = 760;

#[derive(Clone, Copy)]
pub struct Grid {
    /// The rounds, at least 1.
    rounds: u64,
    /// The width that they have together.
    across: u64,
    pub workers: usize,
}

impl Grid {
    pub(crate) fn of(scene: &Scene) -> Grid {
        let rounds = scene.rounds.max(1);
        let wished = (ACROSS / rounds.max(1)).min(WIDEST).max(2);
        Grid {
            rounds,
            across: rounds.saturating_mul(wished).min(MOST_ACROSS),
            workers: scene.workers(),
        }
    }

    /// Whether a round has a pixel at least.
    pub(crate) fn is_exact(self) -> bool {
        self.rounds <= self.across
    }

    /// The width of so many rounds.
    pub(crate) fn span(self, rounds: u64) -> u64 {
        let scaled = rounds.min(self.rounds).saturating_mul(self.across);
        scaled / self.rounds.max(1)
    }

    /// Where a round ends.
    pub(crate) fn x(self, round: u64) -> u64 {
        LEFT.saturating_add(self.span(round))
    }

    /// The middle of a round.
    pub(crate) fn middle(self, round: u64) -> u64 {
        self.x(round.saturating_sub(1))
            .saturating_add(self.x(round))
            / 2
    }

    /// The middle of a worker's row.
    pub(crate) fn y(self, worker: usize) -> u64 {
        let rows = (worker as u64).saturating_mul(ROW);
        TOP.saturating_add(rows).saturating_add(ROW / 2)
    }

    /// Where the longest chain runs in a worker's row.
    pub(crate) fn chain_y(self, worker: usize) -> u64 {
        self.y(worker).saturating_add(STAY / 2 + 3)
    }

    /// The lower edge of the last row.
    pub(crate) fn bottom(self) -> u64 {
        TOP.saturating_add((self.workers as u64).saturating_mul(ROW))
    }

    /// The right edge of the last round.
    pub(crate) fn right(self) -> u64 {
        self.x(self.rounds)
    }

    pub(crate) fn width(self) -> u64 {
        self.right().saturating_add(MARGIN).max(NARROWEST)
    }

    /// How many rounds stand between two numbers on the axis: so many that these are 40 pixels apart, and 1, 2 or 5 with noughts.
    pub(crate) fn stride(self) -> u64 {
        let mut stride = 1u64;
        for step in 0..60u32 {
            if self.span(stride) >= 40 || stride >= self.rounds {
                return stride;
            }
            stride = if step % 3 == 1 {
                (stride / 2).saturating_mul(5)
            } else {
                stride.saturating_mul(2)
            };
        }
        stride
    }

    /// How many numbers the axis has.
    pub(crate) fn numbers(self) -> u64 {
        self.rounds / self.stride().max(1)
    }
}
