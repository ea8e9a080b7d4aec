//! Loads, stores and adds of a strand go to its pages.

ghost use Rattle.strand_pages.specs.Accessing.{CellHolds, TableDoes, TableRefuses, any_address};

use crate::log::PageLog;
use frame_engine::Cells;
use frame_strand::CellStop;

impl Cells for PageLog {
    type Stop = CellStop;

    ghost reaches = { any_address };

    ghost holds = { CellHolds };

    ghost does = { TableDoes };

    ghost refuses = { TableRefuses };

    #[inline(always)]
    fn load(&mut self, at: i64) -> Result<i64, CellStop> {
        self.load_at(&at)
    }

    #[inline(always)]
    fn store(&mut self, at: i64, number: i64) -> Result<(), CellStop> {
        self.store_at(&at, &number)
    }

    #[inline(always)]
    fn add(&mut self, at: i64, number: i64) -> Result<(), CellStop> {
        self.add_at(&at, &number)
    }
}
