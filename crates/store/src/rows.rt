//! Memory as one row of numbers, global after global, and back.

ghost use Rattle.std.specs.Prelude.{◌≡◌, ◌≤◌, IfOk, drop, length, sum, take};
ghost use Rattle.store.specs.Rows.{sizes_of};
ghost use Rattle.store.specs.Refilled.{refilled, row_of};

use crate::memory::{GlobalCells, Memory};
use lists::OutOfMemory;
use std::alloc::Global;

impl GlobalCells {
    /// A global of this name whose cells hold these numbers.
    fn with_cells(&self, alloc: Global, numbers: &[i64]) -> Result<GlobalCells, OutOfMemory>
        ensures { IfOk result (λ g. g ≡ record self.now { cells = numbers.now }) }
    {
        let mut cells = Vec::new(alloc);
        cells.extend_from_slice(numbers)?;
        Ok(GlobalCells {
            name: self.name.copy()?,
            cells,
        })
    }

    /// The global takes its numbers from the beginning of the row, as many as are there; the answer is the rest of the row.
    #[tactic(auto, using(std::proofs::lemmas::List::take_min, std::proofs::lemmas::List::drop_min))]
    fn refill<'a>(&mut self, row: &'a [i64]) -> &'a [i64]
        ensures taken { self.new ≡ record self.old { cells = take (length self.old.cells) row.now } }
        ensures rest { result.now ≡ drop (length self.old.cells) row.now }
    {
        let (own, more) = row.split_at(self.cells.len().min(row.len()));
        self.cells.truncate(own.len());
        self.cells.as_mut_slice().copy_from_slice(own);
        more
    }
}

impl Memory {
    /// How many cells each global has.
    pub fn sizes(&self) -> Result<Vec<u64>, OutOfMemory>
        ensures { IfOk result (λ sizes. sizes.items ≡ sizes_of self.now) }
    {
        let mut sizes = Vec::new(self.alloc);
        for global in &self.globals {
            sizes.push(global.cells.len() as u64)?;
        }
        Ok(sizes)
    }

    /// All numbers, one global after the other.
    pub fn row(&self) -> Result<Vec<i64>, OutOfMemory>
        ensures { IfOk result (λ row. row.items ≡ row_of self.now) }
    {
        let mut row = Vec::new(self.alloc);
        for global in &self.globals {
            row.extend_from_slice(global.cells.as_slice())?;
        }
        Ok(row)
    }

    /// Memory whose globals have these names and sizes, with their numbers taken from a row, one global after the other.
    pub fn with_row(&self, row: &[i64]) -> Result<Memory, OutOfMemory>
        ensures { IfOk result (λ m. m ≡ refilled self.now row.now) }
    {
        let mut globals = Vec::new(self.alloc);
        let mut rest = row;
        for global in &self.globals {
            let (own, more) = rest.split_at(global.cells.len().min(rest.len()));
            globals.push(global.with_cells(self.alloc, own)?)?;
            rest = more;
        }
        Ok(Memory {
            alloc: self.alloc,
            globals,
        })
    }

    /// The globals take the numbers of a row.
    pub fn refill(&mut self, row: &[i64])
        requires { sum (sizes_of self.old) ≤ length row.now }
        ensures { self.new ≡ refilled self.old row.now }
    {
        self.set_row(row);
    }

    /// The globals take the numbers of a row, and those past its end lose theirs. It takes no memory.
    pub fn set_row(&mut self, row: &[i64])
        ensures { self.new ≡ refilled self.old row.now }
    {
        let mut rest = row;
        for i in 0..self.globals.len() {
            rest = self.globals[i].refill(rest);
        }
    }
}
