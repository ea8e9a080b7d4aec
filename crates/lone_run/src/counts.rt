//! How many cells a strand has read and written, each counted once.
ghost use Rattle.std.specs.Prelude.{◌≡◌, OnErr, OnOk};
ghost use Rattle.frame_engine.specs.Access.{Adds, Loads, Stores};
ghost use Rattle.lone_run.specs.Counted.{IsBlank, IsFull};

use crate::counted::Full;
use lists::OutOfMemory;
use std::alloc::Global;

/// The most cells that a strand reads, and the most that it writes: as many as a copy of a single frame holds, so a gate is asked as often.
const MOST_CELLS: u64 = 256;

/// The cells of a page: as many as a word has bits.
const CELLS: usize = 64;

/// Which cells of a page a strand has read, stored to and added to: a bit for each. It has none of those that an earlier strand has marked.
#[derive(Clone, Copy)]
struct Mark {
    strand: u64,
    read: u64,
    stored: u64,
    raised: u64,
}

/// The cells that a strand has read, and those that it has written, each counted once.
#[derive(Drop)]
pub struct Counts {
    /// By page. Nothing is cleared for a new strand.
    marks: Vec<Mark>,
    /// The number of the strand.
    strand: u64,
    reads: u64,
    writes: u64,
}

/// The page of the cell.
#[inline(always)]
fn page_of(at: i64) -> usize {
    at.cast_unsigned() as usize / CELLS
}

/// The bit of the cell in its page.
#[inline(always)]
fn bit_of(at: i64) -> u64 {
    1 << (at.cast_unsigned() % CELLS as u64)
}

impl Counts {
    /// There is no cell yet.
    pub fn new(alloc: Global) -> Counts {
        Counts {
            marks: Vec::new(alloc),
            strand: 0,
            reads: 0,
            writes: 0,
        }
    }

    /// A strand begins, over so many cells.
    pub fn begin(&mut self, cells: usize) -> Result<(), OutOfMemory>
        ensures { OnOk result (IsBlank self.new) }
    {
        let pages = cells / CELLS + 1;
        if self.marks.len() < pages {
            let mark = Mark {
                strand: 0,
                read: 0,
                stored: 0,
                raised: 0,
            };
            self.marks.resize(pages, mark)?;
        }
        self.strand = self.strand.saturating_add(1);
        self.reads = 0;
        self.writes = 0;
        Ok(())
    }

    /// What the strand has marked of the page.
    #[inline(always)]
    fn mark(&self, page: usize) -> Mark {
        match self.marks.get(page) {
            Some(mark) if mark.strand == self.strand => *mark,
            _ => Mark {
                strand: self.strand,
                read: 0,
                stored: 0,
                raised: 0,
            },
        }
    }

    /// Keeps what the strand has marked of the page.
    #[inline(always)]
    fn keep(&mut self, page: usize, mark: Mark)
        ensures reads { self.new.reads ≡ self.old.reads }
        ensures writes { self.new.writes ≡ self.old.writes }
    {
        if let Some(own) = self.marks.get_mut(page) {
            *own = mark;
        }
    }

    /// Counts a load of the cell. What the strand has stored itself, it does not read.
    #[inline(always)]
    pub fn load(&mut self, at: i64) -> Result<(), Full>
        ensures refused { OnErr result (IsFull self.old (Loads at)) }
        ensures unchanged { OnErr result (self.new ≡ self.old) }
    {
        let page = page_of(at);
        let mut mark = self.mark(page);
        if (mark.read | mark.stored) & bit_of(at) != 0 {
            return Ok(());
        }
        if self.reads >= MOST_CELLS {
            return Err(Full);
        }
        mark.read |= bit_of(at);
        self.reads += 1;
        self.keep(page, mark);
        Ok(())
    }

    /// Counts a store to the cell.
    #[inline(always)]
    pub fn store(&mut self, at: i64, number: i64) -> Result<(), Full>
        ensures refused { OnErr result (IsFull self.old (Stores at number)) }
        ensures unchanged { OnErr result (self.new ≡ self.old) }
    {
        let page = page_of(at);
        let mut mark = self.mark(page);
        if mark.stored & bit_of(at) != 0 {
            return Ok(());
        }
        if mark.raised & bit_of(at) == 0 {
            if self.writes >= MOST_CELLS {
                return Err(Full);
            }
            self.writes += 1;
        }
        mark.stored |= bit_of(at);
        self.keep(page, mark);
        Ok(())
    }

    /// Counts an addition to the cell.
    #[inline(always)]
    pub fn add(&mut self, at: i64, number: i64) -> Result<(), Full>
        ensures refused { OnErr result (IsFull self.old (Adds at number)) }
        ensures unchanged { OnErr result (self.new ≡ self.old) }
    {
        let page = page_of(at);
        let mut mark = self.mark(page);
        if (mark.stored | mark.raised) & bit_of(at) != 0 {
            return Ok(());
        }
        if self.writes >= MOST_CELLS {
            return Err(Full);
        }
        mark.raised |= bit_of(at);
        self.writes += 1;
        self.keep(page, mark);
        Ok(())
    }
}
