//! Loads, stores and adds of a frame strand go to the cells that it keeps itself.

ghost use Rattle.frame_strand.specs.Buffers.{BuffersDo, BuffersRefuse, any_address, may_hold};

use crate::cells::{CellStop, Change, FrameStrandCells};
use frame_engine::Cells;

impl Cells for FrameStrandCells {
    type Stop = CellStop;

    ghost reaches = { any_address };

    ghost holds = { may_hold };

    ghost does = { BuffersDo };

    ghost refuses = { BuffersRefuse };

    fn load(&mut self, at: i64) -> Result<i64, CellStop> {
        match self.change(&at) {
            Some((_, Change::Stored(number))) => Ok(number),
            Some((_, Change::Delta(_))) => Err(self.unread(&at)),
            None => match self.value(&at) {
                Some(number) => Ok(number),
                None => Err(self.unread(&at)),
            },
        }
    }

    fn store(&mut self, at: i64, number: i64) -> Result<(), CellStop> {
        self.store_at(&at, &number)
    }

    fn add(&mut self, at: i64, number: i64) -> Result<(), CellStop> {
        self.add_at(&at, &number)
    }
}
