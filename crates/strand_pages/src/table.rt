//! The pages in use, and the directory that leads from a cell to its page (page table).

ghost use Rattle.std.specs.Prelude.{◌≡◌, ◌≢◌, ◌<◌, ◌≤◌, ◌/◌, ℕ, ℤ, pos, suc, true, false, max, length, slice_get, slice_index, vec_capacity};
ghost use Rattle.std.specs.Prelude.{IfErr, IfNone, IfOk, IfSome, IsTrue, None, OnErr, OnOk, OnSome, Some, ◌↔◌};
ghost use Rattle.frame_engine.specs.Flat.{is_cell};
ghost use Rattle.frame_strand.specs.Buffers.{raised_change};
ghost use Rattle.strand_pages.specs.Committing.{Agrees, IsPutInto};
ghost use Rattle.strand_pages.specs.Doing.{IsChanged, IsLoaded, IsMissing, LacksPlace};
ghost use Rattle.strand_pages.specs.Logs.{empty_log, filled_log, has_place, is_open, loaded_log, pages_of, place_of, value_at, with_change, with_page, with_values};
ghost use Rattle.strand_pages.specs.Pages.{blank_page};
ghost use Rattle.strand_pages.specs.Paging.{kept_of};
ghost use Rattle.strand_pages.specs.Tables.{IsTable, entry_of, pages_log};
ghost use Rattle.strand_pages.specs.declared.page.Page.{Page};

use crate::page::{CELLS, Page};
use frame_strand::{CellStop, Change};
use lists::OutOfMemory;
use std::alloc::Global;
use std::marker::Model;

/// The most pages in use. In a port to plain Rust 256 to 4,096 were alike; with 16 to 64, kernels with scattered cells lost half of their speed and more.
pub(crate) const PAGES: usize = 512;

/// What is kept of cells by pages, of which at most 512 are in use.
#[derive(Drop)]
pub(crate) struct Pages {
    /// For each page of the board one more than its slot, or 0.
    directory: Vec<u32>,
    /// Those that were in use at some time. There is room for the most, so that one more takes no memory; what is never used is never touched.
    pages: Vec<Page>,
    used: usize,
}

impl Model for Pages {
    ghost use Rattle.std.specs.Prelude.{◌≤◌, vec_capacity};
    ghost use Rattle.strand_pages.specs.Tables.{IsTable, PageTable};
    ghost use Rattle.strand_pages.specs.Holding.{page_table_of};

    ghost Value = { PageTable };

    ghost view = { page_table_of };

    ghost invariant = { λ x. IsTable (page_table_of x) × (512 ≤ vec_capacity x.pages) };
}

/// What the directory says of the page that has the cell.
#[inline(always)]
fn entry(directory: &[u32], at: &i64) -> u32
    requires { length directory.now ≤ 144115188075855872 }
    ensures { result ≡ entry_of directory.now at.now }
{
    // An address below 0 is, without its sign, one past any directory.
    let number = (at.cast_unsigned() / CELLS as u64) as usize;
    directory.get(number).copied().unwrap_or(0)
}

/// The place of a cell in its page.
#[inline(always)]
fn place(at: &i64) -> usize
    ensures is { result ≡ place_of at.now }
    ensures within { result < 64 }
{
    (at.cast_unsigned() % CELLS as u64) as usize
}

/// No page stands in the directory any more.
fn forget(directory: &mut [u32], pages: &[Page], used: usize)
    requires { IsTable (record { directory = directory.old; pages = pages.now; used = used }) }
    ensures long { length directory.new ≡ length directory.old }
    ensures none { (n : ℕ) → slice_index directory.new n ≡ 0 }
{
    for slot in 0..used {
        let number = pages[slot].number();
        directory[number] = 0;
    }
}

/// The pages of so many cells.
fn page_count(cells: usize) -> usize
    ensures { result ≡ pages_of cells }
{
    cells.min(i64::MAX as usize) / CELLS + 1
}

/// Keeps nothing of the page of this number, at the slot behind those in use.
fn begin(pages: &mut Vec<Page>, slot: usize, number: usize)
    requires next { slot ≤ length pages.old.items }
    requires room { slot < vec_capacity pages.old }
    ensures made { slot < length pages.new.items }
    ensures blank { (page : Page) × (slice_get pages.new.items slot ≡ Some page) × (kept_of page ≡ blank_page number) }
    ensures others { (other : ℕ) → other < slot → slice_get pages.new.items other ≡ slice_get pages.old.items other }
    ensures room { vec_capacity pages.new ≡ vec_capacity pages.old }
{
    if slot < pages.len() {
        pages[slot].restart(number);
    } else {
        pages.push_reserved(Page::new(number));
    }
}

impl Pages {
    /// None in use, with room for 512 pages; [`Pages::widen`] says of how many cells.
    pub(crate) fn new(alloc: Global) -> Result<Pages, OutOfMemory>
        ensures { IfOk result (λ made. pages_log made ≡ empty_log 0) }
    {
        Ok(Pages {
            directory: Vec::new(alloc),
            pages: Vec::with_capacity(alloc, PAGES)?,
            used: 0,
        })
    }

    /// From now on any of so many cells of the board has a page.
    pub(crate) fn widen(&mut self, cells: usize) -> Result<(), OutOfMemory>
        ensures wide { OnOk result (pages_log self.new ≡ record (pages_log self.old) { pages = max (pages_log self.old).pages (pages_of cells) }) }
        ensures refused { OnErr result (pages_log self.new ≡ pages_log self.old) }
    {
        let count = page_count(cells);
        if count > self.directory.len() {
            self.directory.resize(count, 0)?;
        }
        Ok(())
    }

    /// Forgets all cells.
    pub(crate) fn clear(&mut self)
        ensures { pages_log self.new ≡ empty_log (pages_log self.old).pages }
    {
        forget(
            self.directory.as_mut_slice(),
            self.pages.as_slice(),
            self.used,
        );
        self.used = 0;
    }

    /// The number of the cell's page, which is not in use, where one more page may be.
    fn next_page(&self, at: &i64) -> Option<usize>
        requires { entry_of self.now.directory at.now ≡ 0 }
        ensures some { IfSome result (λ number. (has_place (pages_log self.now) at.now ≡ true) × (self.now.used < 512)) }
        ensures number { IfSome result (λ number. (number < length self.now.directory) × ((n : ℕ) → at.now ≡ pos n → number ≡ n / 64)) }
        ensures real { IfSome result (λ number. (n : ℕ) × (at.now ≡ pos n)) }
        ensures none { IfNone result (has_place (pages_log self.now) at.now ≡ false) }
    {
        if *at < 0 {
            return None;
        }
        let number = *at as usize / CELLS;
        if number >= self.directory.len() {
            return None;
        }
        if self.used >= PAGES {
            return None;
        }
        Some(number)
    }

    /// The slot of a page that is not in use, once it was put after those that are.
    #[cold]
    #[inline(never)]
    fn open_next(&mut self, at: &i64) -> Option<usize>
        requires { entry_of self.old.directory at.now ≡ 0 }
        ensures found { IfSome result (λ slot. entry_of self.new.directory at.now ≡ suc slot) }
        ensures place { OnSome result (has_place (pages_log self.old) at.now ≡ true) }
        ensures opened { OnSome result (pages_log self.new ≡ with_page (pages_log self.old) at.now) }
        ensures none { IfNone result (has_place (pages_log self.old) at.now ≡ false) }
        ensures unchanged { IfNone result (self.new ≡ self.old) }
    {
        match self.next_page(at) {
            Some(number) => {
                let slot = self.used;
                begin(&mut self.pages, slot, number);
                self.directory[number] = slot as u32 + 1;
                self.used = slot + 1;
                Some(slot)
            }
            None => None,
        }
    }

    /// The slot of the cell's page, which is put after those in use if it is not among them.
    #[inline(always)]
    fn open(&mut self, at: &i64) -> Option<usize>
        ensures found { IfSome result (λ slot. entry_of self.new.directory at.now ≡ suc slot) }
        ensures place { OnSome result (has_place (pages_log self.old) at.now ≡ true) }
        ensures opened { OnSome result (pages_log self.new ≡ with_page (pages_log self.old) at.now) }
        ensures none { IfNone result (has_place (pages_log self.old) at.now ≡ false) }
        ensures unchanged { IfNone result (self.new ≡ self.old) }
    {
        let entry = entry(self.directory.as_slice(), at);
        if entry > 0 {
            Some(entry as usize - 1)
        } else {
            self.open_next(at)
        }
    }

    /// Puts the cell's page in use, if that may be; whether it is.
    pub(crate) fn reserve(&mut self, at: &i64) -> bool
        ensures place { result ≡ true → has_place (pages_log self.old) at.now ≡ true }
        ensures opened { result ≡ true → pages_log self.new ≡ with_page (pages_log self.old) at.now }
        ensures none { result ≡ false → has_place (pages_log self.old) at.now ≡ false }
        ensures unchanged { result ≡ false → self.new ≡ self.old }
    {
        match self.open(at) {
            Some(_) => true,
            None => false,
        }
    }

    /// What a cell in a page in use holds, if that is at hand.
    #[inline(always)]
    fn load_from(&mut self, slot: usize, at: &i64) -> Option<i64>
        requires { entry_of self.old.directory at.now ≡ suc slot }
        ensures value { result ≡ value_at (pages_log self.old) at.now }
        ensures done { pages_log self.new ≡ loaded_log (pages_log self.old) at.now }
        ensures unchanged { IfNone result (self.new ≡ self.old) }
    {
        self.pages[slot].load(place(at))
    }

    /// Why a cell whose page is not in use cannot be loaded.
    #[cold]
    #[inline(never)]
    fn missing(&self, at: &i64) -> CellStop
        requires { entry_of self.now.directory at.now ≡ 0 }
        ensures { IsMissing (pages_log self.now) at.now result }
    {
        match self.next_page(at) {
            Some(_) => CellStop::Need { at: *at },
            None => CellStop::Full,
        }
    }

    /// What the cell holds, if that is at hand.
    #[inline(always)]
    pub(crate) fn load_at(&mut self, at: &i64) -> Result<i64, CellStop>
        ensures value { IfOk result (λ number. value_at (pages_log self.old) at.now ≡ Some number) }
        ensures done { OnOk result (IsLoaded (pages_log self.old) at.now (pages_log self.new)) }
        ensures refused { IfErr result (λ stop. IsMissing (pages_log self.old) at.now stop) }
        ensures unchanged { OnErr result (self.new ≡ self.old) }
    {
        let entry = entry(self.directory.as_slice(), at);
        if entry == 0 {
            return Err(self.missing(at));
        }
        match self.load_from(entry as usize - 1, at) {
            Some(number) => Ok(number),
            None => Err(CellStop::Need { at: *at }),
        }
    }

    /// The cell in a page in use is to hold the number.
    #[inline(always)]
    fn store_in(&mut self, slot: usize, at: &i64, number: &i64)
        requires { entry_of self.old.directory at.now ≡ suc slot }
        ensures { pages_log self.new ≡ with_change (pages_log self.old) at.now (Change.Stored number.now) }
    {
        self.pages[slot].store(place(at), number);
    }

    /// The cells of the address's page, which is in use, hold these values, from its first cell on.
    fn fill_in(&mut self, slot: usize, at: &i64, values: &[i64])
        requires found { entry_of self.old.directory at.now ≡ suc slot }
        requires few { length values.now ≤ 64 }
        ensures { pages_log self.new ≡ with_values (pages_log self.old) at.now values.now }
    {
        self.pages[slot].fill(values);
    }

    /// The cell is to hold the number, if its page is in use; whether it is.
    #[inline(always)]
    pub(crate) fn store_at(&mut self, at: &i64, number: &i64) -> bool
        ensures open { result ≡ is_open (pages_log self.old) at.now }
        ensures done { result ≡ true → pages_log self.new ≡ with_change (pages_log self.old) at.now (Change.Stored number.now) }
        ensures unchanged { result ≡ false → self.new ≡ self.old }
    {
        let entry = entry(self.directory.as_slice(), at);
        if entry == 0 {
            return false;
        }
        self.store_in(entry as usize - 1, at, number);
        true
    }

    /// The number is added to what a cell in a page in use holds.
    #[inline(always)]
    fn add_in(&mut self, slot: usize, at: &i64, number: &i64)
        requires { entry_of self.old.directory at.now ≡ suc slot }
        ensures { pages_log self.new ≡ with_change (pages_log self.old) at.now
            (raised_change number.now ((pages_log self.old).writes at.now) ((pages_log self.old).reads at.now)) }
    {
        self.pages[slot].add(place(at), number);
    }

    /// The number is added to what the cell holds, if its page is in use; whether it is.
    #[inline(always)]
    pub(crate) fn add_at(&mut self, at: &i64, number: &i64) -> bool
        ensures open { result ≡ is_open (pages_log self.old) at.now }
        ensures done { result ≡ true → pages_log self.new ≡ with_change (pages_log self.old) at.now
            (raised_change number.now ((pages_log self.old).writes at.now) ((pages_log self.old).reads at.now)) }
        ensures unchanged { result ≡ false → self.new ≡ self.old }
    {
        let entry = entry(self.directory.as_slice(), at);
        if entry == 0 {
            return false;
        }
        self.add_in(entry as usize - 1, at, number);
        true
    }

    /// The cells of the address's page hold these values, from its first cell on, if it is in use; whether it is.
    pub(crate) fn fill(&mut self, at: &i64, values: &[i64]) -> bool
        requires { length values.now ≤ 64 }
        ensures open { result ≡ is_open (pages_log self.old) at.now }
        ensures done { result ≡ true → pages_log self.new ≡ with_values (pages_log self.old) at.now values.now }
    {
        let entry = entry(self.directory.as_slice(), at);
        if entry == 0 {
            return false;
        }
        self.fill_in(entry as usize - 1, at, values);
        true
    }

    /// Whether less than half of the pages are in use.
    pub(crate) fn has_half(&self) -> bool {
        self.used < PAGES / 2
    }

    /// Whether the cell's page is in use.
    pub(crate) fn has_page(&self, at: &i64) -> bool
        ensures { result ≡ is_open (pages_log self.now) at.now }
    {
        entry(self.directory.as_slice(), at) > 0
    }

    /// Whether the row of the board's cells holds what was read of it.
    pub(crate) fn reads_agree(&self, row: &[i64]) -> bool
        ensures { IsTrue result ↔ Agrees (pages_log self.now) row.now }
    {
        for slot in 0..self.used {
            if !self.pages[slot].agrees(row) {
                return false;
            }
        }
        true
    }

    /// Puts what was written into the row of the board's cells.
    pub(crate) fn write_into(&self, row: &mut [i64])
        requires { (a : ℤ) → (pages_log self.now).writes a ≢ None → IsTrue (is_cell row.old a) }
        ensures { IsPutInto (pages_log self.now) row.old row.new }
    {
        for slot in 0..self.used {
            self.pages[slot].write_into(row);
        }
    }
}
