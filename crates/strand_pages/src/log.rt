//! The cells that a worker read and wrote, by pages and as a list of adds (read set and write set).

ghost use Rattle.std.specs.Prelude.{◌≡◌, ◌≢◌, ◌≤◌, ℤ, true, false, max, length};
ghost use Rattle.std.specs.Prelude.{IfErr, IfOk, IsTrue, OnErr, OnOk, None, Some, ◌↔◌};
ghost use Rattle.frame_engine.specs.Flat.{is_cell};
ghost use Rattle.frame_strand.specs.Buffers.{raised_change};
ghost use Rattle.strand_pages.specs.Committing.{Agrees, IsPutInto};
ghost use Rattle.strand_pages.specs.Doing.{IsChanged, IsKept, IsLoaded, IsMissing, LacksPlace};
ghost use Rattle.strand_pages.specs.Logs.{empty_log, filled_log, has_place, is_open, pages_of, value_at, with_page};
ghost use Rattle.strand_pages.specs.Tables.{log_of, pages_log};

use crate::added::AddList;
use crate::page::CELLS;
use crate::table::Pages;
use frame_strand::{CellStop, Change};
use lists::OutOfMemory;
use std::alloc::Global;
use std::marker::Model;

/// How many pages an add is compared with to tell whether its page was added to lately, one for each remainder. With more of them more pages are put in use
/// that few adds go to; with fewer, adds to one page again and again fill the list.
const REMAINDERS: usize = 256;

/// The cells that a worker read and wrote, and those that it may yet read. An address is the cell's index on the board.
#[derive(Drop)]
pub struct PageLog {
    pages: Pages,
    /// Adds to cells whose pages were not in use then. A page takes those to its cells when it is put in use, and they count here no more.
    list: AddList,
    /// Of the pages with the same remainder the one that an add went to most lately: a page that is added to again soon is put in use.
    lately: Vec<usize>,
    /// Where the last add went.
    last: u64,
}

impl Model for PageLog {
    ghost use Rattle.std.specs.Prelude.{◌≡◌, length};
    ghost use Rattle.strand_pages.specs.Tables.{Table};
    ghost use Rattle.strand_pages.specs.Listing.{table_of};

    ghost Value = { Table };

    ghost view = { table_of };

    ghost invariant = { λ x. length x.lately.items ≡ 256 };
}

impl PageLog {
    /// A log of nothing, with room for 512 pages; [`PageLog::widen`] says of how many cells.
    pub fn new(alloc: Global) -> Result<PageLog, OutOfMemory>
        ensures { IfOk result (λ made. log_of made ≡ empty_log 0) }
    {
        let mut lately = Vec::new(alloc);
        lately.resize(REMAINDERS, usize::MAX)?;
        Ok(PageLog {
            pages: Pages::new(alloc)?,
            list: AddList::new(alloc)?,
            lately,
            last: 0,
        })
    }

    /// From now on any of so many cells of the board has a page.
    pub fn widen(&mut self, cells: usize) -> Result<(), OutOfMemory>
        ensures wide { OnOk result (log_of self.new ≡ record (log_of self.old) { pages = max (log_of self.old).pages (pages_of cells) }) }
        ensures refused { OnErr result (log_of self.new ≡ log_of self.old) }
    {
        self.pages.widen(cells)
    }

    /// Forgets all cells.
    pub fn clear(&mut self)
        ensures { log_of self.new ≡ empty_log (log_of self.old).pages }
    {
        self.pages.clear();
        self.list.clear();
    }

    /// Puts the cell's page in use, if that may be; whether it is.
    pub fn reserve(&mut self, at: &i64) -> bool
        ensures place { result ≡ true → has_place (log_of self.old) at.now ≡ true }
        ensures opened { result ≡ true → log_of self.new ≡ with_page (log_of self.old) at.now }
        ensures none { result ≡ false → has_place (log_of self.old) at.now ≡ false }
        ensures unchanged { result ≡ false → self.new ≡ self.old }
    {
        if self.pages.has_page(at) {
            return true;
        }
        if !self.pages.reserve(at) {
            return false;
        }
        self.list.give(&mut self.pages, at);
        true
    }

    /// What the cell holds, if that is at hand.
    #[inline(always)]
    pub(crate) fn load_at(&mut self, at: &i64) -> Result<i64, CellStop>
        ensures value { IfOk result (λ number. value_at (log_of self.old) at.now ≡ Some number) }
        ensures done { OnOk result (IsLoaded (log_of self.old) at.now (log_of self.new)) }
        ensures refused { IfErr result (λ stop. IsMissing (log_of self.old) at.now stop) }
        ensures unchanged { OnErr result (self.new ≡ self.old) }
    {
        self.pages.load_at(at)
    }

    /// The cell, whose page may not be in use, is to hold the number.
    #[cold]
    #[inline(never)]
    fn store_first(&mut self, at: &i64, number: &i64) -> Result<(), CellStop>
        ensures done { OnOk result (IsChanged (log_of self.old) at.now (Change.Stored number.now) (log_of self.new)) }
        ensures refused { IfErr result (λ stop. LacksPlace (log_of self.old) at.now stop) }
        ensures unchanged { OnErr result (self.new ≡ self.old) }
    {
        if !self.reserve(at) {
            return Err(CellStop::Full);
        }
        self.pages.store_at(at, number);
        Ok(())
    }

    /// The cell is to hold the number.
    #[inline(always)]
    pub(crate) fn store_at(&mut self, at: &i64, number: &i64) -> Result<(), CellStop>
        ensures done { OnOk result (IsChanged (log_of self.old) at.now (Change.Stored number.now) (log_of self.new)) }
        ensures refused { IfErr result (λ stop. LacksPlace (log_of self.old) at.now stop) }
        ensures unchanged { OnErr result (self.new ≡ self.old) }
    {
        if self.pages.store_at(at, number) {
            return Ok(());
        }
        self.store_first(at, number)
    }

    /// Whether the add before went far from this cell, and none lately to its page.
    fn is_far(&mut self, at: &i64) -> bool
        ensures { self.new ≡ self.old }
    {
        let address = at.cast_unsigned();
        let number = address as usize / CELLS;
        let place = number % REMAINDERS;
        let far = self.lately[place] != number && address.abs_diff(self.last) >= CELLS as u64;
        self.lately[place] = number;
        self.last = address;
        far
    }

    /// Puts the number to be added into the list, if there is room; whether there is.
    fn put_aside(&mut self, at: &i64, number: &i64) -> bool
        requires { is_open (pages_log self.old.pages) at.now ≡ false }
        ensures done { result ≡ true → IsKept (log_of self.old) at.now
            (raised_change number.now ((log_of self.old).writes at.now) ((log_of self.old).reads at.now)) (log_of self.new) }
        ensures unchanged { result ≡ false → self.new ≡ self.old }
    {
        self.list.push(at, number)
    }

    /// The number is added to what the cell holds, whose page is not in use.
    #[cold]
    #[inline(never)]
    fn add_first(&mut self, at: &i64, number: &i64) -> Result<(), CellStop>
        requires { is_open (pages_log self.old.pages) at.now ≡ false }
        ensures done { OnOk result (IsKept (log_of self.old) at.now
            (raised_change number.now ((log_of self.old).writes at.now) ((log_of self.old).reads at.now)) (log_of self.new)) }
        ensures refused { IfErr result (λ stop. LacksPlace (log_of self.old) at.now stop) }
        ensures unchanged { OnErr result (self.new ≡ self.old) }
    {
        if self.is_far(at) && self.put_aside(at, number) {
            return Ok(());
        }
        if self.reserve(at) {
            self.pages.add_at(at, number);
            return Ok(());
        }
        if self.put_aside(at, number) {
            return Ok(());
        }
        Err(CellStop::Full)
    }

    /// The number is added to what the cell holds.
    #[inline(always)]
    pub(crate) fn add_at(&mut self, at: &i64, number: &i64) -> Result<(), CellStop>
        ensures done { OnOk result (IsKept (log_of self.old) at.now
            (raised_change number.now ((log_of self.old).writes at.now) ((log_of self.old).reads at.now)) (log_of self.new)) }
        ensures refused { IfErr result (λ stop. LacksPlace (log_of self.old) at.now stop) }
        ensures unchanged { OnErr result (self.new ≡ self.old) }
    {
        if self.pages.add_at(at, number) {
            self.last = at.cast_unsigned();
            return Ok(());
        }
        self.add_first(at, number)
    }

    /// The cells of the address's page hold these values, from its first cell on, if it is or may be in use; whether it is.
    fn fill_page(&mut self, at: &i64, values: &[i64]) -> bool
        requires { length values.now ≤ 64 }
        ensures filled { result ≡ true → log_of self.new ≡ filled_log (log_of self.old) at.now values.now }
        ensures none { result ≡ false → has_place (log_of self.old) at.now ≡ false }
        ensures unchanged { result ≡ false → self.new ≡ self.old }
    {
        if !self.reserve(at) {
            return false;
        }
        self.pages.fill(at, values);
        true
    }

    /// The cells of the address's page hold these values, from its first cell on; the last page may have fewer than 64.
    pub fn fill(&mut self, at: &i64, values: &[i64])
        requires few { length values.now ≤ 64 }
        requires place { has_place (log_of self.old) at.now ≡ true }
        ensures { log_of self.new ≡ filled_log (log_of self.old) at.now values.now }
    {
        self.fill_page(at, values);
    }

    /// Fills a page that may be needed soon, as long as more than half of the pages are left: the rest is for those that are needed. Whether it was done.
    pub fn fill_ahead(&mut self, at: &i64, values: &[i64]) -> bool
        requires { length values.now ≤ 64 }
        ensures filled { result ≡ true → log_of self.new ≡ filled_log (log_of self.old) at.now values.now }
        ensures unchanged { result ≡ false → self.new ≡ self.old }
    {
        self.pages.has_half() && self.fill_page(at, values)
    }

    /// Whether the cell's page is in use.
    pub fn has_page(&self, at: &i64) -> bool
        ensures { result ≡ is_open (log_of self.now) at.now }
    {
        self.pages.has_page(at)
    }

    /// Whether the row of the board's cells holds what was read of it.
    pub fn reads_agree(&self, row: &[i64]) -> bool
        ensures { IsTrue result ↔ Agrees (log_of self.now) row.now }
    {
        self.pages.reads_agree(row)
    }

    /// Puts what was written into the row of the board's cells.
    pub fn write_into(&self, row: &mut [i64])
        requires { (a : ℤ) → (log_of self.now).writes a ≢ None → IsTrue (is_cell row.old a) }
        ensures { IsPutInto (log_of self.now) row.old row.new }
    {
        self.pages.write_into(row);
        self.list.write_into(&self.pages, row);
    }
}
