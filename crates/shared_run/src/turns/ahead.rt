//! Pages of cells that are fetched with one that is needed (prefetching).

use crate::bench::Bench;
use crate::board::Board;
use crate::worker_strand::WorkerStrand;

/// The cells of a page.
const PAGE: i64 = 64;

/// The most pages that are fetched with one that is needed, of those beside it. More take the board's lock less often, but hold it longer each time, and use
/// up the room of strands that never come to them.
const MOST: usize = 8;

/// The most pages that are fetched with one that is needed, of those that lie apart, as the rows of a matrix along a column do: more than beside it, as so many
/// are fetched only once five fetches before went on by equal steps.
const MOST_APART: usize = 32;

/// Pages that a strand may need next. To fetch them with one that it needs takes the board's lock once.
#[derive(Clone, Copy)]
pub(crate) struct Ahead {
    /// An address in the page that is needed.
    from: i64,
    step: i64,
    pages: usize,
}

/// What a worker's strands needed last.
#[derive(Drop)]
pub(crate) struct Trail {
    last: i64,
    /// How far that was behind what was needed before it.
    step: i64,
    /// What is needed next, if the steps are equal: behind the pages that were fetched then.
    next: i64,
    /// So many were fetched.
    pages: usize,
}

impl Trail {
    /// Nothing was needed yet.
    pub(crate) fn new() -> Trail {
        Trail {
            last: 0,
            step: 0,
            next: 0,
            pages: 0,
        }
    }

    /// The pages that may come behind the one of the address, which is needed now: those beside it, or else some at steps of the length of the last ones.
    ///
    /// A strand that has pages right before the one of the address reads forwards, and one that has some right behind it backwards. As many as it has
    /// there are fetched on the other side: so what is fetched in vain is at most what was read.
    pub(crate) fn note<L: Bench>(&mut self, strand: &WorkerStrand<'_, L>, at: i64) -> Ahead {
        let apart = self.apart(at);
        for step in [PAGE, -PAGE] {
            let pages = pages_in_use(strand, at, -step);
            if pages > 0 {
                return Ahead {
                    from: at,
                    step,
                    pages,
                };
            }
        }
        apart
    }

    /// The longer the steps have been equal, the more pages: so what is fetched in vain is about as much as what was read.
    fn apart(&mut self, at: i64) -> Ahead {
        if at == self.next && self.step != 0 {
            self.pages = self.pages.saturating_mul(2).clamp(1, MOST_APART);
        } else {
            self.step = at.saturating_sub(self.last);
            self.pages = 0;
        }
        let steps = (self.pages as i64).saturating_add(1);
        self.last = at;
        self.next = at.saturating_add(self.step.saturating_mul(steps));
        Ahead {
            from: at,
            step: self.step,
            pages: self.pages,
        }
    }
}

impl Ahead {
    /// Gives them to the strand, as long as the board has them and there is room.
    pub(crate) fn fetch<L: Bench>(self, board: &Board<'_, L>, strand: &mut WorkerStrand<'_, L>) {
        let mut at = self.from;
        for _page in 0..self.pages {
            at = at.saturating_add(self.step);
            if !board.fetch_ahead(strand, at) {
                return;
            }
        }
    }
}

/// How many pages are in use one after the other from the address on, without its own.
fn pages_in_use<L: Bench>(strand: &WorkerStrand<'_, L>, from: i64, step: i64) -> usize {
    let mut at = from;
    for count in 0..MOST {
        at = at.saturating_add(step);
        if !strand.has_page(at) {
            return count;
        }
    }
    MOST
}
