//! Where an alloca is sure, and for which regions it is due: a label for each block (the lattice).

ghost use Rattle.std.specs.Prelude.{◌≡◌, ◌||◌, ◌==◌, ◌+◌, ◌≤◌, length, false, slice_index_or, IfOk, OnOk};
ghost use Rattle.linear.specs.declared.form.RegisterId.{RegisterId};
ghost use Rattle.definedness_allocas.specs.Sets.{has, due_in, label_at, label_of};

use lists::Seq;
use program::RegisterId;
use std::alloc::{AllocError, Global};

/// Of one alloca, at the start of a block.
#[derive(Drop)]
pub enum Label {
    /// It has a value, whatever children are running.
    Sure,
    /// It has one once the children of any of these regions are over.
    Due(Seq<RegisterId>),
}

/// Of one alloca: a label for each block, and a mark for each detach whose child ends somewhere without a value.
pub struct Sets {
    pub labels: Vec<Label>,
    pub lacking: Vec<bool>,
}

/// Written out, so that no crate above proves it anew.
impl Drop for Sets {
    fn drop(self) {
        let Sets {
            labels: _,
            lacking: _,
        } = self;
    }
}

/// Whether a region is listed.
pub fn is_among(regions: &[RegisterId], region: RegisterId) -> bool
    ensures { result ≡ has regions.now region }
{
    for its in regions {
        if its.0 == region.0 {
            return true;
        }
    }
    false
}

/// A copy with room for one more.
fn copy_with_room(alloc: Global, regions: &[RegisterId]) -> Result<Vec<RegisterId>, AllocError>
    ensures { IfOk result (λ copy. copy.items ≡ regions.now) }
{
    let mut copy: Vec<RegisterId> = Vec::with_capacity(alloc, regions.len() + 1)?;
    copy.extend_from_slice(regions)?;
    Ok(copy)
}

/// Lists a region, once.
pub fn add_region(regions: &mut Vec<RegisterId>, region: RegisterId) -> Result<(), AllocError>
    ensures few { OnOk result (length regions.new.items ≤ length regions.old.items + 1) }
    ensures exact { OnOk result ((r : RegisterId) → has regions.new.items r ≡ (has regions.old.items r || (region.0 == r.0))) }
{
    if !is_among(regions, region) {
        regions.push(region)?;
    }
    Ok(())
}

impl Sets {
    /// Whether the alloca is in the set of a region at the start of a block.
    pub fn is_in(&self, region: Option<RegisterId>, block: usize) -> bool
        ensures { result ≡ label_of self.now region block }
    {
        match (self.labels.get(block), region) {
            (Some(Label::Sure), _) => true,
            (Some(Label::Due(regions)), Some(its)) => is_among(regions.as_slice(), its),
            (Some(Label::Due(_)), None) => false,
            (None, _) => false,
        }
    }

    /// Whether the child of a detach ends somewhere without a value.
    pub fn is_lacking(&self, detach: usize) -> bool
        ensures { result ≡ slice_index_or self.now.lacking.items detach false }
    {
        match self.lacking.get(detach) {
            Some(mark) => *mark,
            None => false,
        }
    }

    /// The regions in whose sets it is at the start of a block where it is not sure, with room for one more.
    pub fn copy_due(&self, alloc: Global, block: usize) -> Result<Vec<RegisterId>, AllocError>
        ensures { IfOk result (λ regions. regions.items ≡ due_in (label_at self.now block)) }
    {
        match self.labels.get(block) {
            Some(Label::Due(regions)) => copy_with_room(alloc, regions.as_slice()),
            Some(Label::Sure) => Ok(Vec::new(alloc)),
            None => Ok(Vec::new(alloc)),
        }
    }
}
