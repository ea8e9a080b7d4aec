//! A list of adds to cells whose pages are not in use (write buffer).

ghost use Rattle.std.specs.Prelude.{◌≡◌, ◌<◌, ◌++◌, ◌∷◌, [], IfOk, ℤ, cond, length, true, false};
ghost use Rattle.std.specs.Ordering.{int_eq};
ghost use Rattle.frame_engine.specs.Flat.{cell_in};
ghost use Rattle.semantics.specs.State.{sum_in};
ghost use Rattle.strand_pages.specs.Logs.{same_page};
ghost use Rattle.strand_pages.specs.Adding.{AddsArePut};
ghost use Rattle.strand_pages.specs.Marks.{mark_of};
ghost use Rattle.strand_pages.specs.Tables.{IsFresh, pages_log, taken_in};

use crate::page::CELLS;
use crate::table::Pages;
use frame_engine::sum;
use lists::OutOfMemory;
use std::alloc::Global;
use std::marker::Model;

/// The most adds in a list: more than those that a strand's instructions make, unless they do little else. With 4,096 a list was full before its strand ended,
/// each further add put its page in use, and primes took twice the machine instructions.
const ADDS: usize = 16384;

/// A page that is put in use goes through the whole list where its mark is set: the more marks, the rarer for another page's add, and the more are cleared.
const MARKS: usize = 4096;

/// A number that is to be added to the cell at the address.
#[derive(Clone, Copy)]
pub(crate) struct Added {
    pub(crate) at: i64,
    pub(crate) number: i64,
}

/// What is to be added to cells, in the order in which it came.
#[derive(Drop)]
pub(crate) struct AddList {
    adds: Vec<Added>,
    /// One for all pages whose numbers have the same remainder: whether an add may be there that is for one of them.
    marks: Vec<bool>,
}

impl Model for AddList {
    ghost use Rattle.std.specs.Prelude.{◌≤◌, ◌≡◌, List, length, vec_capacity};
    ghost use Rattle.strand_pages.specs.Marks.{AreMarked, added_of};
    ghost use Rattle.strand_pages.specs.declared.added.Added.{Added};

    ghost Value = { List Added };

    ghost view = { added_of };

    ghost invariant = { λ x. (16384 ≤ vec_capacity x.adds) × (length x.marks.items ≡ 4096) × AreMarked x.marks.items x.adds.items };
}

/// The place among the marks of the page that has the cell.
#[inline(always)]
fn mark(at: &i64) -> usize
    ensures is { result ≡ mark_of at.now }
    ensures within { result < 4096 }
{
    (at.cast_unsigned() / CELLS as u64 % MARKS as u64) as usize
}

impl AddList {
    pub(crate) fn new(alloc: Global) -> Result<AddList, OutOfMemory>
        ensures { IfOk result (λ made. made ≡ []) }
    {
        let mut marks = Vec::new(alloc);
        marks.resize(MARKS, false)?;
        Ok(AddList {
            adds: Vec::with_capacity(alloc, ADDS)?,
            marks,
        })
    }

    pub(crate) fn clear(&mut self)
        ensures { self.new ≡ [] }
    {
        if self.adds.is_empty() {
            return;
        }
        self.adds.clear();
        self.marks.as_mut_slice().fill(false);
    }

    /// One more, if there is room; whether there is.
    pub(crate) fn push(&mut self, at: &i64, number: &i64) -> bool
        ensures pushed { result ≡ true → self.new ≡ self.old ++ (record { at = at.now; number = number.now }) ∷ [] }
        ensures unchanged { result ≡ false → self.new ≡ self.old }
    {
        if self.adds.len() >= ADDS {
            return false;
        }
        let mark = mark(at);
        self.marks[mark] = true;
        self.adds.push_reserved(Added {
            at: *at,
            number: *number,
        });
        true
    }

    /// The page of the address, of whose cells nothing is kept yet, takes the adds to its cells.
    pub(crate) fn give(&self, pages: &mut Pages, at: &i64)
        requires { IsFresh (pages_log pages.old) at.now }
        ensures { pages_log pages.new ≡ taken_in (pages_log pages.old) at.now self.now }
    {
        if self.marks[mark(at)] {
            take_in(pages, self.adds.as_slice(), at);
        }
    }

    /// Adds to the row's cells, except to those whose pages are in use.
    pub(crate) fn write_into(&self, pages: &Pages, row: &mut [i64])
        ensures { AddsArePut (pages_log pages.now) self.now row.old row.new }
    {
        write_adds(self.adds.as_slice(), pages, row);
    }
}

/// Whether the page of the first cell has the other one.
#[inline(always)]
fn same_page(at: &i64, other: &i64) -> bool
    ensures { result ≡ same_page at.now other.now }
{
    *at >= 0 && *other >= 0 && *other as usize / CELLS == *at as usize / CELLS
}

/// Of these adds the page of the address, of whose cells nothing is kept yet, takes those to its cells.
fn take_in(pages: &mut Pages, adds: &[Added], at: &i64)
    requires { IsFresh (pages_log pages.old) at.now }
    ensures { pages_log pages.new ≡ taken_in (pages_log pages.old) at.now adds.now }
{
    for index in 0..adds.len() {
        let added = adds[index];
        if same_page(at, &added.at) {
            pages.add_at(&added.at, &added.number);
        }
    }
}

/// The number is added to the row's cell, where there is one.
#[inline(always)]
fn add_into(row: &mut [i64], added: &Added)
    ensures long { length row.new ≡ length row.old }
    ensures cells { (a : ℤ) → cell_in row.new a ≡ cond (int_eq a added.now.at) (sum_in added.now.number (cell_in row.old a)) (cell_in row.old a) }
{
    if added.at < 0 {
        return;
    }
    let index = added.at as usize;
    if index < row.len() {
        row[index] = sum(row[index], added.number);
    }
}

/// Adds to the row's cells, except to those whose pages are in use.
fn write_adds(adds: &[Added], pages: &Pages, row: &mut [i64])
    ensures { AddsArePut (pages_log pages.now) adds.now row.old row.new }
{
    for index in 0..adds.len() {
        let added = adds[index];
        if !pages.has_page(&added.at) {
            add_into(row, &added);
        }
    }
}
