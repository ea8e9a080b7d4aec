//! Blocks at whose start an alloca may be without a value (definite assignment, with children running).

ghost use Rattle.std.specs.Prelude.{◌≡◌, ◌<◌, ◌≤◌, ◌↔◌, ℕ, None, Some, true, false, length, All, Contains, IfOk, slice_get, slice_index_or, OnOk};
ghost use Rattle.definedness_allocas.specs.declared.fork.Fork.{Fork};
ghost use Rattle.definedness.specs.ForkOf.{IsForkOf};
ghost use Rattle.definedness.specs.Marks.{mark_at};
ghost use Rattle.definedness.specs.Sure.{IsNeverSure};
ghost use Rattle.definedness_allocas.specs.Sets.{label_of};
ghost use Rattle.definedness.specs.Settling.{AreNeverSure};

use crate::fork::Flow;
use crate::table::{Given, Row, giving};
use cfg::no_marks;
use definedness_allocas::Sets;
use lists::Seq;
use std::alloc::{AllocError, Global};

/// Marks the blocks at whose start an alloca is not sure.
fn unsure(alloc: Global, sets: &Sets, blocks: usize) -> Result<Vec<bool>, AllocError>
    ensures { IfOk result (λ marks. (b : ℕ) → b < blocks → (slice_index_or marks.items b false ≡ true) ↔ (label_of sets.now None b ≡ false)) }
{
    let mut marks: Vec<bool> = Vec::with_capacity(alloc, blocks)?;
    for block in 0..blocks {
        let label = sets.is_in(None, block);
        marks.push(!label)?;
    }
    Ok(marks)
}

/// The blocks that store an alloca, and those at whose start it is never sure.
#[derive(Drop)]
struct Settled {
    stops: Vec<bool>,
    marks: Vec<bool>,
}

impl Flow<'_> {
    /// Settles an alloca that these blocks store.
    fn settle_stored(&self, alloc: Global, stops: Vec<bool>) -> Result<Settled, AllocError>
        requires { length self.now.forks.now ≡ length self.now.blocks.now }
        ensures stops { IfOk result (λ its. its.stops.items ≡ stops.items) }
        ensures marks { IfOk result (λ its. AreNeverSure self.now.forks.now self.now.blocks.now its.stops.items its.marks.items) }
    {
        let sets = self.settle(alloc, &stops)?;
        let marks = unsure(alloc, &sets, self.blocks.len())?;
        Ok(Settled { stops, marks })
    }

    /// Settles an alloca that these blocks store, unless the last one that was settled is stored by the same.
    fn settle_next(
        &self,
        alloc: Global,
        stops: Vec<bool>,
        last: &mut Settled,
    ) -> Result<(), AllocError>
        requires size { length self.now.forks.now ≡ length self.now.blocks.now }
        requires last { AreNeverSure self.now.forks.now self.now.blocks.now last.old.stops.items last.old.marks.items }
        ensures stops { OnOk result (last.new.stops.items ≡ stops.items) }
        ensures last { OnOk result (AreNeverSure self.now.forks.now self.now.blocks.now last.new.stops.items last.new.marks.items) }
    {
        if stops.as_slice() == last.stops.as_slice() {
            return Ok(());
        }
        *last = self.settle_stored(alloc, stops)?;
        Ok(())
    }

    /// Marks the blocks at whose start no labelling has an alloca for sure.
    fn never_sure(
        &self,
        alloc: Global,
        all: &[Given],
        alloca: usize,
        last: &mut Settled,
    ) -> Result<Vec<bool>, AllocError>
        requires forks { (b : ℕ) (fork : Fork) → slice_get self.now.forks.now b ≡ Some fork → IsForkOf self.now.bodies.now self.now.blocks.now b fork }
        requires size { length self.now.forks.now ≡ length self.now.bodies.now }
        requires same { length self.now.blocks.now ≡ length self.now.bodies.now }
        requires last { AreNeverSure self.now.forks.now self.now.blocks.now last.old.stops.items last.old.marks.items }
        ensures last { OnOk result (AreNeverSure self.now.forks.now self.now.blocks.now last.new.stops.items last.new.marks.items) }
        ensures marks { IfOk result (λ marks. (b : ℕ) → b < length self.now.blocks.now
            → (slice_index_or marks.items b false ≡ true) ↔ IsNeverSure self.now.bodies.now self.now.blocks.now all.now alloca b) }
    {
        let stops = giving(alloc, all, alloca)?;
        self.settle_next(alloc, stops, last)?;
        let marks = last.marks.as_slice().to_vec(alloc)?;
        Ok(marks)
    }

    /// The row of an alloca.
    fn unsure_row(
        &self,
        alloc: Global,
        all: &[Given],
        alloca: usize,
        last: &mut Settled,
    ) -> Result<Row, AllocError>
        requires forks { (b : ℕ) (fork : Fork) → slice_get self.now.forks.now b ≡ Some fork → IsForkOf self.now.bodies.now self.now.blocks.now b fork }
        requires size { length self.now.forks.now ≡ length self.now.bodies.now }
        requires same { length self.now.blocks.now ≡ length self.now.bodies.now }
        requires last { AreNeverSure self.now.forks.now self.now.blocks.now last.old.stops.items last.old.marks.items }
        ensures last { OnOk result (AreNeverSure self.now.forks.now self.now.blocks.now last.new.stops.items last.new.marks.items) }
        ensures marks { IfOk result (λ row. (b : ℕ) → b < length self.now.blocks.now
            → (slice_index_or row.marks b false ≡ true) ↔ IsNeverSure self.now.bodies.now self.now.blocks.now all.now alloca b) }
    {
        let marks = self.never_sure(alloc, all, alloca, last)?;
        Ok(Row {
            marks: Seq::from_vec(marks),
        })
    }

    /// A row for each alloca up to the greatest, with a mark for each block at whose start no labelling has it for sure.
    pub fn unsure_rows(
        &self,
        alloc: Global,
        all: &[Given],
        greatest: usize,
    ) -> Result<Vec<Row>, AllocError>
        requires forks { (b : ℕ) (fork : Fork) → slice_get self.now.forks.now b ≡ Some fork → IsForkOf self.now.bodies.now self.now.blocks.now b fork }
        requires size { length self.now.forks.now ≡ length self.now.bodies.now }
        requires same { length self.now.blocks.now ≡ length self.now.bodies.now }
        ensures { IfOk result (λ rows. (n b : ℕ) → n ≤ greatest → b < length self.now.blocks.now
            → (mark_at rows.items n b ≡ true) ↔ IsNeverSure self.now.bodies.now self.now.blocks.now all.now n b) }
    {
        let mut rows: Vec<Row> = Vec::new(alloc);
        let unstored = no_marks(alloc, self.blocks.len())?;
        let mut last = self.settle_stored(alloc, unstored)?;
        for alloca in 0..greatest {
            rows.push(self.unsure_row(alloc, all, alloca, &mut last)?)?;
        }
        rows.push(self.unsure_row(alloc, all, greatest, &mut last)?)?;
        Ok(rows)
    }
}
