//! A strand's cells: the segment of its own frames' allocas, from its start to its limit, and the pages of what it read and wrote of others.

ghost use Rattle.std.specs.Prelude.{◌≡◌, ◌≢◌, ◌<◌, ◌≤◌, ◌+◌, ◌+ℤ◌, ◌↔◌, ℕ, ℤ, pos, false, true, min, IfNone, IfSome, IsTrue, None, Some, length, slice_get};
ghost use Rattle.frame_engine.specs.Flat.{is_cell};
ghost use Rattle.strand_pages.specs.Committing.{Agrees};
ghost use Rattle.strand_pages.specs.Logs.{IsWider, has_place};
ghost use Rattle.strand_pages.specs.Tables.{log_of};
ghost use Rattle.semantics.specs.Arithmetic.{wrapped};
ghost use Rattle.syntax.specs.declared.operator.Width.TheVariants.{Bits64};
ghost use Rattle.strand.specs.Boards.{LacksPages};
ghost use Rattle.strand.specs.OwnCells.{CanStore, CellsDo, CellsRefuse, any_cell, may_be, own_cell};
ghost use Rattle.strand.specs.Putting.{ArePutInto, IsCopiedTo};

use frame_engine::{Cells, behind, sum};
use strand_pages::{CellStop, PageLog};

/// The cells of a strand: those of its own frames' allocas, which are a segment of addresses, and what it read and wrote of others.
#[derive(Drop)]
pub struct StrandCells {
    /// The segment's first address.
    pub start: u64,
    /// What the segment's cells hold.
    pub own: Vec<i64>,
    pub log: PageLog,
}

#[inline(always)]
fn number_at(own: &[i64], place: usize) -> i64
    requires { place < length own.now }
    ensures { slice_get own.now place ≡ Some result }
{
    own[place]
}

impl StrandCells {
    /// The place in the segment of the cell at the address.
    #[inline(always)]
    pub(crate) fn place(&self, at: &i64) -> Option<usize>
        ensures within { IfSome result (λ place. place < length self.now.own.items) }
        ensures is { IfSome result (λ place. at.now ≡ pos (self.now.start + place)) }
        ensures absent { IfNone result (own_cell self.now at.now ≡ None) }
    {
        // one comparison tells most other cells: an address below the segment wraps round
        let address = at.cast_unsigned();
        let place = address.wrapping_sub(self.start);
        if place >= self.own.len() as u64 {
            return None;
        }
        if *at < 0 || address < self.start {
            return None;
        }
        Some(place as usize)
    }
}

impl StrandCells {
    /// Makes sure that the cell at the address can be stored to; whether it can.
    fn open(&mut self, at: &i64) -> bool
        ensures only { self.new ≡ record self.old { log = self.new.log } }
        ensures wider { IsWider (log_of self.old.log) (log_of self.new.log) }
        ensures yes { result ≡ true → CanStore self.new at.now }
        ensures no { result ≡ false → (own_cell self.new at.now ≡ None) × (has_place (log_of self.new.log) at.now ≡ false) }
    {
        match self.place(at) {
            Some(_) => true,
            None => self.log.reserve(at),
        }
    }

    /// Makes sure that so many cells from the address on can be stored to; whether they can.
    pub(crate) fn reserve(&mut self, at: &i64, count: u64) -> bool
        ensures only { self.new ≡ record self.old { log = self.new.log } }
        ensures wider { IsWider (log_of self.old.log) (log_of self.new.log) }
        ensures yes { result ≡ true → (i : ℕ) → i < count → CanStore self.new (wrapped Bits64 (at.now +ℤ pos i)) }
        ensures no { result ≡ false → LacksPages self.new at.now count }
    {
        let mut next = *at;
        for _index in 0..count {
            if !self.open(&next) {
                return false;
            }
            next = behind(next, 1);
        }
        true
    }
}

impl StrandCells {
    /// The address behind the segment.
    pub(crate) fn limit(&self) -> u64
        ensures { result ≡ min (self.now.start + length self.now.own.items) 18446744073709551615 }
    {
        self.start.saturating_add(self.own.len() as u64)
    }
}

/// Copies so many numbers to a place in the row.
fn copy_to(row: &mut [i64], place: usize, numbers: &[i64], count: usize)
    requires numbers { count ≤ length numbers.now }
    requires row { place + count ≤ length row.old }
    ensures { IsCopiedTo numbers.now count place row.old row.new }
{
    for number in 0..count {
        row[place + number] = number_at(numbers, number);
    }
}

impl StrandCells {
    /// Whether the row of the board's cells holds what was read of it.
    pub fn reads_agree(&self, row: &[i64]) -> bool
        ensures { IsTrue result ↔ Agrees (log_of self.now.log) row.now }
    {
        self.log.reads_agree(row)
    }

    /// Puts the cells of its own frames, which end here, and what it wrote of others into the row of the board's cells.
    pub fn write_into(&self, end: u64, row: &mut [i64])
        requires begins { self.now.start ≤ end }
        requires own { end ≤ self.now.start + length self.now.own.items }
        requires row { end ≤ length row.old }
        requires written { (a : ℤ) → (log_of self.now.log).writes a ≢ None → IsTrue (is_cell row.old a) }
        ensures { ArePutInto self.now end row.old row.new }
    {
        self.log.write_into(row);
        copy_to(
            row,
            self.start as usize,
            self.own.as_slice(),
            (end - self.start) as usize,
        );
    }
}

impl Cells for StrandCells {
    type Stop = CellStop;

    ghost reaches = { any_cell };

    ghost holds = { may_be };

    ghost does = { CellsDo };

    ghost refuses = { CellsRefuse };

    #[inline(always)]
    fn load(&mut self, at: i64) -> Result<i64, CellStop> {
        match self.place(&at) {
            Some(place) => Ok(number_at(self.own.as_slice(), place)),
            None => self.log.load(at),
        }
    }

    #[inline(always)]
    fn store(&mut self, at: i64, number: i64) -> Result<(), CellStop> {
        match self.place(&at) {
            Some(place) => {
                self.own[place] = number;
                Ok(())
            }
            None => self.log.store(at, number),
        }
    }

    fn add(&mut self, at: i64, number: i64) -> Result<(), CellStop> {
        match self.place(&at) {
            Some(place) => {
                self.own[place] = sum(number_at(self.own.as_slice(), place), number);
                Ok(())
            }
            None => self.log.add(at, number),
        }
    }
}
