//! The greatest labelling of an alloca: where it is sure or due (a greatest fixed point by a worklist).

ghost use Rattle.std.specs.Prelude.{◌≡◌, ◌↔◌, ◌+◌, ◌<◌, ◌≤◌, ◌++◌, ◌∷◌, ℕ, [], Option, Some, true, length, set, All};
ghost use Rattle.std.specs.Prelude.{Contains, IfOk, OnOk};
ghost use Rattle.linear.specs.declared.form.RegisterId.{RegisterId};
ghost use Rattle.cfg.specs.Paths.{edges_of};
ghost use Rattle.definedness_allocas.specs.declared.sets.Label.TheVariants.{Due};
ghost use Rattle.definedness_allocas.specs.Labels.{Labels};
ghost use Rattle.definedness_allocas.specs.Sets.{due_in, label_in, label_of, count_sure, Ends, IsFit};
ghost use Rattle.definedness.specs.Settling.{IsBelow, IsTableLabelling, IsSettledAt, IsAllSure, KeepsBoth, Lowers, NotesEnd, IsGreatest};

use crate::fork::Flow;
use crate::given::{copy_given, is_given};
use cfg::{Edge, no_marks};
use definedness_allocas::{Fork, Label, Sets, is_stored, label_along};
use lists::Seq;
use program::RegisterId;
use std::alloc::{AllocError, Global};

/// The detach whose child a block ends.
fn ended_by(forks: &[Fork], block: usize) -> Option<usize>
    ensures { (detach : ℕ) → (result ≡ Some detach) ↔ Ends forks.now detach block }
{
    match forks.get(block) {
        Some(fork) => fork.ended,
        None => None,
    }
}

/// Marks and lists the detach whose child a block ends, unless the block stores the alloca.
fn note_end(
    stops: &[bool],
    forks: &[Fork],
    block: usize,
    lacking: &mut Vec<bool>,
    work: &mut Vec<usize>,
) -> Result<(), AllocError>
    ensures { OnOk result (NotesEnd stops.now forks.now block lacking.old.items lacking.new.items work.old.items work.new.items) }
{
    if is_stored(stops, block) {
        return Ok(());
    }
    if let Some(detach) = ended_by(forks, block) {
        if detach < lacking.len() {
            lacking[detach] = true;
            work.push(detach)?;
        }
    }
    Ok(())
}

/// Puts a block's label anew, and lists the block.
fn put_due(
    sets: &mut Sets,
    to: usize,
    regions: Seq<RegisterId>,
    work: &mut Vec<usize>,
) -> Result<(), AllocError>
    requires { to < length sets.old.labels.items }
    ensures labels { OnOk result (sets.new.labels.items ≡ set sets.old.labels.items to (Due regions)) }
    ensures lacking { OnOk result (sets.new.lacking.items ≡ sets.old.lacking.items) }
    ensures listed { OnOk result (work.new.items ≡ work.old.items ++ to ∷ []) }
{
    sets.labels[to] = Label::Due(regions);
    work.push(to)?;
    Ok(())
}

/// Makes a block, where the alloca was sure until now, one where it is due in the sets of these regions.
fn lose_sure(
    sets: &mut Sets,
    stops: &[bool],
    forks: &[Fork],
    to: usize,
    given: Seq<RegisterId>,
    work: &mut Vec<usize>,
) -> Result<(), AllocError>
    requires { to < length sets.old.labels.items }
    ensures labels { OnOk result (sets.new.labels.items ≡ set sets.old.labels.items to (Due given)) }
    ensures lacking { OnOk result (NotesEnd stops.now forks.now to sets.old.lacking.items sets.new.lacking.items (work.old.items ++ to ∷ []) work.new.items) }
{
    put_due(sets, to, given, work)?;
    note_end(stops, forks, to, &mut sets.lacking, work)
}

/// Takes all regions but these from a block where the alloca is not sure.
fn lose_due(
    alloc: Global,
    sets: &mut Sets,
    to: usize,
    given: &[RegisterId],
    work: &mut Vec<usize>,
) -> Result<(), AllocError>
    ensures { OnOk result (KeepsBoth to given.now sets.old sets.new work.old.items work.new.items) }
{
    if is_given(sets, to, given) {
        return Ok(());
    }
    let kept = copy_given(alloc, sets, to, given)?;
    put_due(sets, to, Seq::from_vec(kept), work)
}

/// The sets as they begin: the alloca is sure everywhere.
fn all_sure(alloc: Global, blocks: usize) -> Result<Sets, AllocError>
    ensures { IfOk result (IsAllSure blocks) }
{
    let mut labels: Vec<Label> = Vec::with_capacity(alloc, blocks)?;
    for _block in 0..blocks {
        labels.push(Label::Sure)?;
    }
    let lacking = no_marks(alloc, blocks)?;
    Ok(Sets { labels, lacking })
}

impl Flow<'_> {
    /// Takes from the label of a block what is not given.
    fn narrow(
        &self,
        alloc: Global,
        sets: &mut Sets,
        stops: &[bool],
        to: usize,
        given: Label,
        work: &mut Vec<usize>,
    ) -> Result<(), AllocError>
        requires fit { IsFit stops.now self.now.forks.now (length self.now.blocks.now) sets.old }
        requires few { count_sure sets.old + length (due_in given) ≤ length self.now.blocks.now + 1 }
        requires given { (l : Labels) → IsTableLabelling stops.now self.now.forks.now self.now.blocks.now l
            → IsBelow (length self.now.blocks.now) l sets.old → (k : Option RegisterId)
            → l k to ≡ true → label_in given k ≡ true }
        ensures lowers { OnOk result (Lowers stops.now self.now.forks.now self.now.blocks.now sets.old work.old.items sets.new work.new.items) }
        ensures taken { OnOk result ((k : Option RegisterId) → label_of sets.new k to ≡ true → label_in given k ≡ true) }
    {
        match given {
            Label::Sure => Ok(()),
            Label::Due(regions) => {
                if sets.is_in(None, to) {
                    lose_sure(sets, stops, self.forks, to, regions, work)
                } else {
                    lose_due(alloc, sets, to, regions.as_slice(), work)
                }
            }
        }
    }

    /// Takes from the label at the end of an edge what the edge does not give.
    fn lower_along(
        &self,
        alloc: Global,
        sets: &mut Sets,
        stops: &[bool],
        from: usize,
        edge: &Edge,
        work: &mut Vec<usize>,
    ) -> Result<(), AllocError>
        requires fit { IsFit stops.now self.now.forks.now (length self.now.blocks.now) sets.old }
        requires size { length self.now.forks.now ≤ length self.now.blocks.now }
        requires edge { Contains (edges_of self.now.blocks.now from) edge.now }
        ensures lowers { OnOk result (Lowers stops.now self.now.forks.now self.now.blocks.now sets.old work.old.items sets.new work.new.items) }
        ensures kept { OnOk result (IsSettledAt stops.now self.now.forks.now sets.new work.new.items from edge.now) }
    {
        let given = label_along(alloc, sets, stops, self.forks, from, edge.way)?;
        self.narrow(alloc, sets, stops, edge.to.0, given, work)
    }

    /// Takes from the labels at the ends of a block's edges what these do not give. Goes from the last to the first, so that the child of a detach,
    /// whose edge is the first, is gone through before its continuation.
    fn lower_edges(
        &self,
        alloc: Global,
        sets: &mut Sets,
        stops: &[bool],
        from: usize,
        edges: &[Edge],
        work: &mut Vec<usize>,
    ) -> Result<(), AllocError>
        requires fit { IsFit stops.now self.now.forks.now (length self.now.blocks.now) sets.old }
        requires size { length self.now.forks.now ≤ length self.now.blocks.now }
        requires edges { edges.now ≡ edges_of self.now.blocks.now from }
        ensures lowers { OnOk result (Lowers stops.now self.now.forks.now self.now.blocks.now sets.old work.old.items sets.new work.new.items) }
        ensures kept { OnOk result (All (IsSettledAt stops.now self.now.forks.now sets.new work.new.items from) edges.now) }
    {
        let mut left = edges.len();
        while left > 0 {
            left -= 1;
            self.lower_along(alloc, sets, stops, from, &edges[left], work)?;
        }
        Ok(())
    }

    /// Takes from the labels behind a block what its edges do not give.
    fn lower_block(
        &self,
        alloc: Global,
        sets: &mut Sets,
        stops: &[bool],
        from: usize,
        work: &mut Vec<usize>,
    ) -> Result<(), AllocError>
        requires fit { IsFit stops.now self.now.forks.now (length self.now.blocks.now) sets.old }
        requires size { length self.now.forks.now ≤ length self.now.blocks.now }
        ensures lowers { OnOk result (Lowers stops.now self.now.forks.now self.now.blocks.now sets.old work.old.items sets.new work.new.items) }
        ensures kept { OnOk result (All (IsSettledAt stops.now self.now.forks.now sets.new work.new.items from) (edges_of self.now.blocks.now from)) }
    {
        if from >= self.blocks.len() {
            return Ok(());
        }
        let edges = self.blocks[from].edges.as_slice();
        self.lower_edges(alloc, sets, stops, from, edges, work)
    }

    /// The greatest labelling of an alloca, where `stops` marks the blocks that store it. Takes time in proportion to the edges, as
    /// long as few regions bring it to a block.
    pub fn settle(&self, alloc: Global, stops: &[bool]) -> Result<Sets, AllocError>
        requires { length self.now.forks.now ≡ length self.now.blocks.now }
        ensures { IfOk result (IsGreatest stops.now self.now.forks.now self.now.blocks.now) }
    {
        let mut sets = all_sure(alloc, self.blocks.len())?;
        let mut work: Vec<usize> = Vec::with_capacity(alloc, self.blocks.len())?;
        let nothing = Label::Due(Seq::new(alloc));
        self.narrow(alloc, &mut sets, stops, 0, nothing, &mut work)?;
        while let Some(block) = work.pop() {
            self.lower_block(alloc, &mut sets, stops, block, &mut work)?;
        }
        Ok(sets)
    }
}
