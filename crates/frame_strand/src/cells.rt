//! The cells that a frame strand read, with what they held, and those that it wrote (read set and write set).

ghost use Rattle.std.specs.Prelude.{◌≡◌, ◌<◌, ◌++◌, ◌∷◌, ℤ, [], map, IfErr, IfNone, IfOk};
ghost use Rattle.std.specs.Prelude.{IfSome, OnErr, OnOk, None, Some, if◌then◌else◌, length, nat_le, slice_get};
ghost use Rattle.frame_strand.specs.Buffers.{IsPut, LacksPlace, change_in, held_in, raised_change, settled_changes, value_in};
ghost use Rattle.frame_strand.specs.Keeping.{AreDifferent};
ghost use Rattle.frame_strand.specs.Showing.{Becomes, with_add, with_store};
ghost use Rattle.laws_strands.specs.Footprint.{with_read};

use crate::finding::{Index, PLACES};
use frame_engine::sum;
use lists::OutOfMemory;
use std::alloc::Global;
use std::marker::Model;

/// What a strand keeps of a cell that it wrote.
#[derive(Clone, Copy)]
pub enum Change {
    /// The cell is to hold this.
    Stored(i64),
    /// This is to be added to whatever the cell holds.
    Delta(i64),
}

/// What the cell at an address held when it was first read.
#[derive(Clone, Copy)]
pub struct Read {
    pub at: i64,
    pub value: i64,
}

/// The cell at an address was written.
#[derive(Clone, Copy)]
pub struct Written {
    pub at: i64,
    pub change: Change,
}

/// Why a strand cannot go on with a cell.
#[derive(Clone, Copy)]
pub enum CellStop {
    /// It needs to know what the cell at this address holds.
    Need { at: i64 },
    /// It needs a place in a buffer that holds 256 cells.
    Full,
}

/// The cells that a strand read and wrote, at most 256 of each.
#[derive(Drop)]
pub struct FrameStrandCells {
    read_places: Index,
    reads: Vec<Read>,
    write_places: Index,
    writes: Vec<Written>,
}

impl Model for FrameStrandCells {
    ghost use Rattle.frame_strand.specs.Buffers.{Buffers};

    ghost Value = { Buffers };

    ghost use Rattle.frame_strand.specs.Keeping.{IsKept, shown};

    ghost view = { shown };

    ghost invariant = { IsKept };
}

fn written_at(writes: &[Written], place: usize) -> Written
    requires { place < length writes.now }
    ensures { slice_get writes.now place ≡ Some result }
{
    writes[place]
}

fn read_at(reads: &[Read], place: usize) -> Read
    requires { place < length reads.now }
    ensures { slice_get reads.now place ≡ Some result }
{
    reads[place]
}

impl FrameStrandCells {
    /// No cells, and room for 256 of each kind.
    pub fn new(alloc: Global) -> Result<FrameStrandCells, OutOfMemory>
        ensures { IfOk result (λ made. made ≡ record { reads = []; writes = [] }) }
    {
        let read_places = Index::new(alloc)?;
        let reads = Vec::with_capacity(alloc, PLACES)?;
        let write_places = Index::new(alloc)?;
        let writes = Vec::with_capacity(alloc, PLACES)?;
        Ok(FrameStrandCells {
            read_places,
            reads,
            write_places,
            writes,
        })
    }

    /// Forgets all cells.
    pub fn clear(&mut self)
        ensures { self.new ≡ record { reads = []; writes = [] } }
    {
        self.read_places.clear();
        self.reads.clear();
        self.write_places.clear();
        self.writes.clear();
    }

    /// The cells that were read, in their order.
    pub fn reads(&self) -> &[Read]
        ensures is { result.now ≡ self.now.reads }
        ensures differ { AreDifferent (map (λ (r : Read). r.at) self.now.reads) }
    {
        self.reads.as_slice()
    }

    /// The cells that were written, in the order of their first writes.
    pub fn writes(&self) -> &[Written]
        ensures is { result.now ≡ self.now.writes }
        ensures differ { AreDifferent (map (λ (w : Written). w.at) self.now.writes) }
    {
        self.writes.as_slice()
    }

    /// What is kept of the cell, and its place among the written ones.
    pub(crate) fn change(&self, at: &i64) -> Option<(usize, Change)>
        ensures found { IfSome result (λ found. slice_get self.now.writes found.0 ≡ Some (record { at = at.now; change = found.1 })) }
        ensures change { IfSome result (λ found. change_in self.now.writes at.now ≡ Some found.1) }
        ensures absent { IfNone result (change_in self.now.writes at.now ≡ None) }
    {
        match self.write_places.find(at) {
            Some(place) => Some((place, written_at(self.writes.as_slice(), place).change)),
            None => None,
        }
    }

    /// What the cell held when it was read.
    pub(crate) fn value(&self, at: &i64) -> Option<i64>
        ensures { result ≡ value_in self.now.reads at.now }
    {
        match self.read_places.find(at) {
            Some(place) => Some(read_at(self.reads.as_slice(), place).value),
            None => None,
        }
    }

    /// What is kept of the cell, which was looked up, after the number was added.
    fn raised(&self, at: &i64, found: Option<(usize, Change)>, number: &i64) -> Change
        requires change { IfSome found (λ old. change_in self.now.writes at.now ≡ Some old.1) }
        requires absent { IfNone found (change_in self.now.writes at.now ≡ None) }
        ensures is { result ≡ raised_change number.now (change_in self.now.writes at.now) (value_in self.now.reads at.now) }
        ensures unread { (z : ℤ) → result ≡ Change.Delta z → value_in self.now.reads at.now ≡ None }
    {
        let _places = &self.write_places;
        match found {
            Some((_, Change::Stored(held))) => Change::Stored(sum(held, *number)),
            Some((_, Change::Delta(held))) => Change::Delta(sum(held, *number)),
            None => match self.value(at) {
                Some(held) => Change::Stored(sum(held, *number)),
                None => Change::Delta(*number),
            },
        }
    }

    /// Keeps the change of a cell, which was looked up.
    ///
    /// # Errors
    ///
    /// The cell is a new one, and there is no place for it: nothing has changed.
    fn put(
        &mut self,
        at: &i64,
        found: Option<(usize, Change)>,
        change: Change,
    ) -> Result<(), CellStop>
        requires found { IfSome found (λ old. slice_get self.old.writes old.0 ≡ Some (record { at = at.now; change = old.1 })) }
        requires change { IfSome found (λ old. change_in self.old.writes at.now ≡ Some old.1) }
        requires absent { IfNone found (change_in self.old.writes at.now ≡ None) }
        requires unread { (z : ℤ) → change ≡ Change.Delta z → value_in self.old.reads at.now ≡ None }
        ensures done { OnOk result (IsPut self.old at.now change self.new) }
        ensures refused { IfErr result (λ stop. LacksPlace self.old at.now stop) }
        ensures unchanged { OnErr result (self.new ≡ self.old) }
    {
        match found {
            Some((place, _)) => {
                self.writes[place] = Written { at: *at, change };
                Ok(())
            }
            None => {
                if self.writes.len() >= PLACES {
                    return Err(CellStop::Full);
                }
                self.write_places.push(at);
                self.writes.push_reserved(Written { at: *at, change });
                Ok(())
            }
        }
    }

    /// The cell is to hold the number; a delta is forgotten.
    pub(crate) fn store_at(&mut self, at: &i64, number: &i64) -> Result<(), CellStop>
        ensures done { OnOk result (IsPut self.old at.now (Change.Stored number.now) self.new) }
        ensures shown { OnOk result (Becomes (with_store number.now) self.old at.now self.new) }
        ensures refused { IfErr result (λ stop. LacksPlace self.old at.now stop) }
        ensures unchanged { OnErr result (self.new ≡ self.old) }
    {
        let found = self.change(at);
        self.put(at, found, Change::Stored(*number))
    }

    /// The number is added to what the cell holds.
    pub(crate) fn add_at(&mut self, at: &i64, number: &i64) -> Result<(), CellStop>
        ensures done { OnOk result (IsPut self.old at.now
            (raised_change number.now (change_in self.old.writes at.now) (value_in self.old.reads at.now)) self.new) }
        ensures shown { OnOk result (Becomes (with_add number.now) self.old at.now self.new) }
        ensures refused { IfErr result (λ stop. LacksPlace self.old at.now stop) }
        ensures unchanged { OnErr result (self.new ≡ self.old) }
    {
        let found = self.change(at);
        let change = self.raised(at, found, number);
        self.put(at, found, change)
    }

    /// Why a cell that is not held cannot be loaded.
    pub(crate) fn unread(&self, at: &i64) -> CellStop
        ensures { result ≡ (if nat_le 256 (length self.now.reads) then CellStop.Full else CellStop.Need at.now) }
    {
        if self.reads.len() >= PLACES {
            CellStop::Full
        } else {
            CellStop::Need { at: *at }
        }
    }

    /// What is added to the cell is added to the value.
    fn settle(&mut self, at: &i64, value: &i64)
        ensures is { self.new ≡ record self.old { writes = settled_changes self.old.writes at.now value.now (change_in self.old.writes at.now) } }
        ensures unread { held_in self.old at.now ≡ None → value_in self.old.reads at.now ≡ None }
    {
        match self.change(at) {
            Some((place, Change::Delta(number))) => {
                let change = Change::Stored(sum(*value, number));
                self.writes[place] = Written { at: *at, change };
            }
            Some((_, Change::Stored(_))) => {}
            None => {}
        }
    }

    /// Takes in what a cell held.
    fn take(&mut self, at: &i64, value: &i64)
        requires new { held_in self.old at.now ≡ None }
        requires room { length self.old.reads < 256 }
        ensures reads { self.new.reads ≡ self.old.reads ++ record { at = at.now; value = value.now } ∷ [] }
        ensures writes { self.new.writes ≡ settled_changes self.old.writes at.now value.now (change_in self.old.writes at.now) }
    {
        self.settle(at, value);
        self.read_places.push(at);
        self.reads.push_reserved(Read {
            at: *at,
            value: *value,
        });
    }
    /// The cell was read and held the value: what is added to it is added to that.
    pub fn fill(&mut self, at: &i64, value: &i64)
        requires new { held_in self.old at.now ≡ None }
        requires room { length self.old.reads < 256 }
        ensures reads { self.new.reads ≡ self.old.reads ++ record { at = at.now; value = value.now } ∷ [] }
        ensures writes { self.new.writes ≡ settled_changes self.old.writes at.now value.now (change_in self.old.writes at.now) }
        ensures shown { Becomes (λ f c. with_read f c value.now) self.old at.now self.new }
    {
        self.take(at, value);
    }
}
