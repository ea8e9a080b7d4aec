//! A page: 64 neighbouring cells, with what was at hand, loaded, stored and added of each (cache line).

ghost use Rattle.std.specs.Prelude.{◌≡◌, ◌≢◌, ◌<◌, ◌≤◌, ◌+◌, ◌*◌, ◌||◌, ℕ, pos, true, false, length, slice_index_or, IfNone, None, Some};
ghost use Rattle.frame_strand.specs.Buffers.{raised_change};
ghost use Rattle.strand_pages.specs.Bits.{is_set};
ghost use Rattle.strand_pages.specs.Committing.{AgreesWithin, ArePut, PageAgrees, PageDiffers, PageIsPut};
ghost use Rattle.strand_pages.specs.Known.{value_of};
ghost use Rattle.strand_pages.specs.Pages.{blank_page, changed_page, filled_page, loaded_page};

use crate::bits::{either, is_set, next, run_end, with_bit};
use frame_engine::sum;
use frame_strand::Change;

/// The cells of a page: as many as a mask has bits. Of four logs in a port to plain Rust pages of 64 were fastest: one worker did a sum at 0.87 of the serial
/// run's speed, at 0.78 where pages are filled cell by cell, at 0.75 with a tag for each cell, at 0.67 with a hash table.
pub(crate) const CELLS: usize = 64;

/// What is kept of 64 neighbouring cells. A cell has a place in each row and a bit in each mask.
#[derive(Drop)]
pub(crate) struct Page {
    number: usize,
    /// So many of the board's cells are at hand.
    filled: usize,
    /// Those that were loaded.
    read: u64,
    /// Those that are to hold their number among the changes; of the others, those to which it is to be added.
    stored: u64,
    delta: u64,
    /// Those that were loaded or are to hold their number: a load looks at one mask.
    known: u64,
    values: [i64; 64],
    /// Of a cell that was loaded and not stored since this is its value, so that the next load takes it from here, whatever was done to the cell.
    changes: [i64; 64],
    ghost rows: { (length values ≡ 64) × (length changes ≡ 64) },
    ghost within: { filled ≤ 64 },
    ghost read_near: { (k : ℕ) → is_set read k ≡ true → k < filled },
    ghost known_is: { (k : ℕ) → is_set known k ≡ (is_set read k || is_set stored k) },
    ghost settled: { (k : ℕ) → is_set read k ≡ true → is_set stored k ≡ false → is_set delta k ≡ false },
    ghost copied: { (k : ℕ) → is_set read k ≡ true → is_set stored k ≡ false → slice_index_or changes k (pos 0) ≡ slice_index_or values k (pos 0) },
}

impl Page {
    ghost use Rattle.strand_pages.specs.Paging.{kept_of};

    /// Nothing is kept yet.
    pub(crate) fn new(number: usize) -> Page
        ensures { kept_of result ≡ blank_page number }
    {
        Page {
            number,
            filled: 0,
            read: 0,
            stored: 0,
            delta: 0,
            known: 0,
            values: [0; 64],
            changes: [0; 64],
        }
    }

    /// The page is another one now, of which nothing is kept.
    pub(crate) fn restart(&mut self, number: usize)
        ensures { kept_of self.new ≡ blank_page number }
    {
        self.number = number;
        self.read = 0;
        self.filled = 0;
        self.stored = 0;
        self.delta = 0;
        self.known = 0;
    }

    pub(crate) fn number(&self) -> usize
        ensures { result ≡ self.now.number }
    {
        self.number
    }

    /// What the cell holds, where that is at hand. If nothing was stored there it counts as read from now on.
    #[inline(always)]
    pub(crate) fn load(&mut self, place: usize) -> Option<i64>
        requires { place < 64 }
        ensures value { result ≡ value_of ((kept_of self.old).writes place) ((kept_of self.old).near place) }
        ensures done { kept_of self.new ≡ loaded_page (kept_of self.old) place }
        ensures unchanged { IfNone result (self.new ≡ self.old) }
    {
        if is_set(self.known, place) {
            return Some(self.changes[place]);
        }
        if place >= self.filled {
            return None;
        }
        if is_set(self.delta, place) {
            return Some(self.settle(place));
        }
        let value = self.values[place];
        self.read = with_bit(self.read, place);
        self.known = with_bit(self.known, place);
        self.changes[place] = value;
        Some(value)
    }

    /// What was added to the cell, which is at hand, is added to what it held. From now on it counts as read, and is to hold the sum.
    #[cold]
    #[inline(never)]
    fn settle(&mut self, place: usize) -> i64
        requires place { place < 64 }
        requires fresh { (is_set self.old.read place || is_set self.old.stored place) ≡ false }
        requires near { place < self.old.filled }
        requires added { is_set self.old.delta place ≡ true }
        ensures value { value_of ((kept_of self.old).writes place) ((kept_of self.old).near place) ≡ Some result }
        ensures done { kept_of self.new ≡ loaded_page (kept_of self.old) place }
    {
        let number = sum(self.values[place], self.changes[place]);
        self.read = with_bit(self.read, place);
        self.changes[place] = number;
        self.stored = with_bit(self.stored, place);
        self.known = with_bit(self.known, place);
        number
    }

    /// The cell is to hold the number.
    #[inline(always)]
    pub(crate) fn store(&mut self, place: usize, number: &i64)
        requires { place < 64 }
        ensures { kept_of self.new ≡ changed_page (kept_of self.old) place (Change.Stored number.now) }
    {
        self.changes[place] = *number;
        self.stored = with_bit(self.stored, place);
        self.known = with_bit(self.known, place);
    }

    /// The number is added to what the cell holds.
    pub(crate) fn add(&mut self, place: usize, number: &i64)
        requires { place < 64 }
        ensures { kept_of self.new ≡
            changed_page (kept_of self.old) place (raised_change number.now ((kept_of self.old).writes place) ((kept_of self.old).reads place)) }
    {
        if is_set(self.known, place) {
            let sum = sum(self.changes[place], *number);
            self.store(place, &sum);
        } else if is_set(self.delta, place) {
            self.changes[place] = sum(self.changes[place], *number);
        } else {
            self.changes[place] = *number;
            self.delta = with_bit(self.delta, place);
        }
    }

    /// The board's cells hold these values.
    pub(crate) fn fill(&mut self, values: &[i64])
        requires { length values.now ≤ 64 }
        ensures { kept_of self.new ≡ filled_page (kept_of self.old) values.now }
    {
        let from = self.filled;
        let end = values.len();
        if from < end {
            self.values[from..end].copy_from_slice(&values[from..end]);
            self.filled = end;
        }
    }

    /// Whether the row's cells at these places hold the values, each of which was read. It goes on where one differs, so that several are compared at
    /// once.
    fn agrees_within(&self, row: &[i64], from: usize, end: usize) -> bool
        requires number { self.now.number < 144115188075855872 }
        requires some { from < end }
        requires page { end ≤ 64 }
        requires read { (k : ℕ) → from ≤ k → k < end → is_set self.now.read k ≡ true }
        ensures yes { result ≡ true → AgreesWithin (kept_of self.now) from end row.now }
        ensures no { result ≡ false → PageDiffers (kept_of self.now) row.now }
    {
        let first = self.number * CELLS;
        if row.len() < first + end {
            return false;
        }
        let mut same = true;
        for place in from..end {
            same &= row[first + place] == self.values[place];
        }
        same
    }

    /// Whether the row of the board's cells holds what was read of it.
    pub(crate) fn agrees(&self, row: &[i64]) -> bool
        requires { self.now.number < 144115188075855872 }
        ensures yes { result ≡ true → PageAgrees (kept_of self.now) row.now }
        ensures no { result ≡ false → PageDiffers (kept_of self.now) row.now }
    {
        let mut from = 0;
        while let Some(place) = next(self.read, from) {
            let end = run_end(self.read, place);
            if !self.agrees_within(row, place, end) {
                return false;
            }
            from = end;
        }
        true
    }

    /// Puts the numbers of these places, each of which is stored, into the row.
    fn put_stored(&self, row: &mut [i64], from: usize, end: usize)
        requires number { self.now.number < 144115188075855872 }
        requires some { from < end }
        requires page { end ≤ 64 }
        requires row { self.now.number * 64 + end ≤ length row.old }
        requires stored { (k : ℕ) → from ≤ k → k < end → is_set self.now.stored k ≡ true }
        ensures { ArePut (kept_of self.now) from end row.old row.new }
    {
        let first = self.number * CELLS;
        for place in from..end {
            row[first + place] = self.changes[place];
        }
    }

    /// Puts what is kept of a cell that was written into the row, and with a stored one those right behind it that are stored too. The answer is the
    /// place behind them.
    fn put_from(&self, row: &mut [i64], place: usize) -> usize
        requires number { self.now.number < 144115188075855872 }
        requires place { place < 64 }
        requires within { (k : ℕ) → k < 64 → (kept_of self.now).writes k ≢ None → self.now.number * 64 + k < length row.old }
        requires written { (is_set self.now.stored place || is_set self.now.delta place) ≡ true }
        ensures later { place < result }
        ensures page { result ≤ 64 }
        ensures put { ArePut (kept_of self.now) place result row.old row.new }
    {
        if is_set(self.stored, place) {
            let end = run_end(self.stored, place);
            self.put_stored(row, place, end);
            return end;
        }
        let at = self.number * CELLS + place;
        row[at] = sum(row[at], self.changes[place]);
        place + 1
    }

    /// Puts what was written into the row of the board's cells.
    pub(crate) fn write_into(&self, row: &mut [i64])
        requires number { self.now.number < 144115188075855872 }
        requires within { (k : ℕ) → k < 64 → (kept_of self.now).writes k ≢ None → self.now.number * 64 + k < length row.old }
        ensures { PageIsPut (kept_of self.now) row.old row.new }
    {
        let written = either(self.stored, self.delta);
        let mut from = 0;
        while let Some(place) = next(written, from) {
            from = self.put_from(row, place);
        }
    }
}
