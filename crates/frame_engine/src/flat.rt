//! Memory as one array, in which an address is an index.

ghost use Rattle.std.specs.Prelude.{◌≡◌, ◌++◌, ⊤, Some, OnErr, OnOk, pos, replicate};
ghost use Rattle.frame_engine.specs.Flat.{cell_in, is_cell};

use crate::arithmetic::sum;
use crate::cells::Cells;
use crate::words::number_at;
use lists::OutOfMemory;
use std::convert::Infallible;

/// The cells of the globals and, after them, of the living frames' allocas. An address is an index.
#[derive(Drop)]
pub struct Flat {
    pub cells: Vec<i64>,
}

impl Cells for Flat {
    type Stop = Infallible;

    ghost reaches = { λ f a. is_cell f.cells.items a };

    ghost holds = { λ f a z. cell_in f.cells.items a ≡ Some z };

    ghost does = { λ f a g. ⊤ };

    ghost refuses = { λ f a s. ⊥ };

    #[inline(always)]
    fn load(&mut self, at: i64) -> Result<i64, Infallible> {
        Ok(self.cells[at as usize])
    }

    #[inline(always)]
    fn store(&mut self, at: i64, number: i64) -> Result<(), Infallible> {
        self.cells[at as usize] = number;
        Ok(())
    }

    #[inline(always)]
    fn add(&mut self, at: i64, number: i64) -> Result<(), Infallible> {
        let sum = sum(number_at(self.cells.as_slice(), at as usize), number);
        self.cells[at as usize] = sum;
        Ok(())
    }
}

impl Flat {
    /// So many more cells at the end, for the allocas of a frame that begins. What they hold counts for nothing.
    #[inline(always)]
    pub fn grow(&mut self, cells: usize) -> Result<(), OutOfMemory>
        ensures grown { OnOk result (self.new.cells.items ≡ self.old.cells.items ++ replicate cells (pos 0)) }
        ensures same { OnErr result (self.new.cells.items ≡ self.old.cells.items) }
    {
        if cells == 0 {
            return Ok(());
        }
        match self.cells.len().checked_add(cells) {
            Some(end) => Ok(self.cells.resize(end, 0)?),
            None => Err(OutOfMemory),
        }
    }
}
