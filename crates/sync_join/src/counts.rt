//! The counts of one frame, by region, and in how many regions a child lives.

ghost use Rattle.std.specs.Prelude.{◌≡◌, ◌↔◌, ◌+◌, ◌-◌, ◌<◌, ◌^◌, [], ℕ, IfOk, IsTrue, OnOk, cond, eqb, length};
ghost use Rattle.sync_join.specs.Counting.{busy_by, living_in};

use crate::count::{Outcome, Parent, Passage, RegionCount};
use std::alloc::{AllocError, Global};
use std::marker::Model;

/// By region: the children that a frame detached within it and that still live. Contracts see the counts.
pub struct RegionCounts {
    counts: Vec<RegionCount>,
    /// In so many regions a child lives: so one comparison tells whether any does.
    busy: usize,
}

/// Written out, so that no crate above proves it anew.
impl Drop for RegionCounts {
    fn drop(self) {
        let RegionCounts { counts: _, busy: _ } = self;
    }
}

impl Model for RegionCounts {
    ghost use Rattle.std.specs.Prelude.{◌≡◌};
    ghost use Rattle.sync_join.specs.Counting.{Counts, busy_in};

    ghost Value = { Counts };

    ghost view = { λ c. record { items = c.counts.items } };

    ghost invariant = { λ c. c.busy ≡ busy_in c.counts.items };
}

/// In how many regions a child lives once there is one more within the region that counted so before.
fn with_child(busy: usize, before: RegionCount) -> usize
    requires { busy + 1 < 2 ^ 64 }
    ensures { result + busy_by before.living ≡ busy + 1 }
{
    if before.living == 0 { busy + 1 } else { busy }
}

/// In how many regions a child lives once one ended within the region that counts so since.
fn without_child(busy: usize, after: RegionCount) -> usize
    requires { 0 < busy }
    ensures { result + 1 ≡ busy + busy_by after.living }
{
    if after.living == 0 { busy - 1 } else { busy }
}

impl RegionCounts {
    /// Of no region.
    pub fn new(alloc: Global) -> RegionCounts
        ensures { result.items ≡ [] }
    {
        RegionCounts {
            counts: Vec::new(alloc),
            busy: 0,
        }
    }

    /// Of so many regions from here on, within which no child lives.
    pub fn restart(&mut self, regions: usize) -> Result<(), AllocError>
        ensures as_many { OnOk result (length self.new.items ≡ regions) }
        ensures none { OnOk result ((region : ℕ) → living_in self.new.items region ≡ 0) }
    {
        self.counts.clear();
        self.busy = 0;
        self.counts.resize(regions, RegionCount::NONE)?;
        Ok(())
    }

    /// A detach within the region made a child.
    pub fn open(&mut self, region: usize)
        requires there { region < length self.old.items }
        requires room { living_in self.old.items region + 1 < 2 ^ 64 }
        ensures as_many { length self.new.items ≡ length self.old.items }
        ensures counted { (other : ℕ) → living_in self.new.items other ≡ cond (eqb region other) (living_in self.old.items region + 1) (living_in self.old.items other) }
    {
        self.busy = with_child(self.busy, self.counts[region]);
        self.counts[region].opened();
    }

    /// The child of this number, one of the counted, reattaches within the region; the answer is what its worker does.
    pub fn close(&mut self, region: usize, child: u64, parent: Parent) -> Outcome
        requires there { region < length self.old.items }
        requires living { 0 < living_in self.old.items region }
        ensures as_many { length self.new.items ≡ length self.old.items }
        ensures counted { (other : ℕ) → living_in self.new.items other ≡ cond (eqb region other) (living_in self.old.items region - 1) (living_in self.old.items other) }
        ensures ready { (result ≡ Outcome.ResumeReady) ↔ (parent ≡ Parent.Ready child) }
        ensures stalled { (result ≡ Outcome.ResumeStalled)
            ↔ ((parent ≡ Parent.Stalled region) × (living_in self.new.items region ≡ 0)) }
    {
        let outcome = self.counts[region].closed(region, child, parent);
        self.busy = without_child(self.busy, self.counts[region]);
        outcome
    }

    /// The frame stands at a sync of the region.
    pub fn at_sync(&self, region: usize) -> Passage
        requires { region < length self.now.items }
        ensures { (result ≡ Passage.Pass) ↔ (living_in self.now.items region ≡ 0) }
    {
        self.counts[region].at_sync()
    }

    /// Whether no child lives.
    pub fn none_lives(&self) -> bool
        ensures { IsTrue result ↔ ((region : ℕ) → living_in self.now.items region ≡ 0) }
    {
        self.busy == 0
    }

    /// The same counts, in a list of their own.
    pub fn copy(&self) -> Result<RegionCounts, AllocError>
        ensures { IfOk result (λ copy. copy.items ≡ self.now.items) }
    {
        Ok(RegionCounts {
            counts: Vec::from_slice(self.allocator(), self.counts.as_slice())?,
            busy: self.busy,
        })
    }

    /// Where the list is kept.
    pub fn allocator(&self) -> Global {
        *self.counts.allocator()
    }
}
