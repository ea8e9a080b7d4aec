//! The cells of a run by one worker, which count what a strand reads and writes, and stop it past 256.

ghost use Rattle.std.specs.Prelude.{◌≡◌, ⊤, Some};
ghost use Rattle.frame_engine.specs.Flat.{cell_in, is_cell};
ghost use Rattle.lone_run.specs.Counted.{IsFull};

use crate::counts::Counts;
use frame_engine::{Cells, Flat};

/// The strand has read or written 256 cells, and would need one more.
#[derive(Clone, Copy)]
pub struct Full;

/// The cells of the run, and how many of them the strand has read and written.
#[derive(Drop)]
pub struct CountedCells {
    pub flat: Flat,
    pub counts: Counts,
}

impl Cells for CountedCells {
    type Stop = Full;

    ghost reaches = { λ c a. is_cell c.flat.cells.items a };

    ghost holds = { λ c a z. cell_in c.flat.cells.items a ≡ Some z };

    ghost does = { λ c a d. ⊤ };

    ghost refuses = { λ c a s. IsFull c.counts a };

    #[inline(always)]
    fn load(&mut self, at: i64) -> Result<i64, Full> {
        self.counts.load(at)?;
        Ok(self.flat.cells[at as usize])
    }

    #[inline(always)]
    fn store(&mut self, at: i64, number: i64) -> Result<(), Full> {
        self.counts.store(at, number)?;
        match self.flat.store(at, number) {
            Ok(()) => Ok(()),
            Err(never) => match never {},
        }
    }

    #[inline(always)]
    fn add(&mut self, at: i64, number: i64) -> Result<(), Full> {
        self.counts.add(at, number)?;
        match self.flat.add(at, number) {
            Ok(()) => Ok(()),
            Err(never) => match never {},
        }
    }
}
