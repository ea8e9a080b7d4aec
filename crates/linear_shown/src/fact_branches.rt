//! Facts that some others join, and then others in place of these: what is known on the edges of a block, one after the other.

ghost use Rattle.std.specs.Prelude.{◌≡◌, ◌++◌, IfOk, OnErr, OnOk, true, take, length};
ghost use Rattle.linear_shown.specs.Index.{IsBegun};

use crate::effort::Effort;
use crate::index::{Entered, Entry, FEW, Index, Layers, enter_each, index_many};
use crate::known::Known;
use linear::Fact;
use std::alloc::{AllocError, Global};
use std::marker::Model;

/// Lent facts and those that have joined them, with an index of all. The lent ones are copied once, and their index is kept. Contracts see the lent
/// facts, and all.
#[derive(Drop)]
pub struct FactBranches<'a> {
    lent: &'a [Fact],
    /// The lent facts again, if they are copied, and then those that have joined.
    facts: Vec<Fact>,
    is_copied: bool,
    has_more: bool,
    /// Of the lent facts.
    index: Index,
    /// With the settled entries of the lent facts, those of all.
    recent: Vec<Entry>,
    entered: Entered,
    effort: &'a Effort,
}

impl<'a> Model for FactBranches<'a> {
    ghost use Rattle.std.specs.Prelude.{◌≡◌, List, true, take, length, if◌then◌else◌};
    ghost use Rattle.linear.specs.declared.form.Fact.{Fact};
    ghost use Rattle.linear_shown.specs.Index.{IsBegun};

    ghost Value = { List Fact × List Fact };

    ghost view = { λ b. (b.lent.now, if b.has_more then b.facts.items else b.lent.now) };

    ghost invariant = { λ b.
        (b.is_copied ≡ true → take (length b.lent.now) b.facts.items ≡ b.lent.now)
        × IsBegun b.lent.now b.index.entered.count b.index.settled.items b.index.recent.items b.index.entered.is_consistent
        × (b.has_more ≡ true → IsBegun b.facts.items b.entered.count b.index.settled.items b.recent.items b.entered.is_consistent) };
}

/// Adds copies of facts.
pub fn push_copies(alloc: Global, facts: &mut Vec<Fact>, more: &[Fact]) -> Result<(), AllocError>
    ensures { OnOk result (facts.new.items ≡ facts.old.items ++ more.now) }
{
    facts.reserve(more.len())?;
    for fact in more {
        facts.push(Fact {
            form: fact.form.copy(alloc)?,
        })?;
    }
    Ok(())
}

/// Makes copies of the lent facts, if there are none yet, with others after them, in place of those that were there.
fn put_after(
    alloc: Global,
    lent: &[Fact],
    facts: &mut Vec<Fact>,
    is_copied: bool,
    more: &[Fact],
) -> Result<(), AllocError>
    requires { is_copied ≡ true → take (length lent.now) facts.old.items ≡ lent.now }
    ensures { OnOk result (facts.new.items ≡ lent.now ++ more.now) }
{
    if is_copied {
        facts.truncate(lent.len());
    } else {
        facts.clear();
        push_copies(alloc, facts, lent)?;
    }
    push_copies(alloc, facts, more)
}

/// Entries of all facts beside the settled ones, from the recent ones of the first facts on.
fn enter_after(
    facts: &[Fact],
    first: &Index,
    recent: &mut Vec<Entry>,
) -> Result<Entered, AllocError>
    requires { IsBegun facts.now first.now.entered.count first.now.settled.items first.now.recent.items first.now.entered.is_consistent }
    ensures { IfOk result (λ r. IsBegun facts.now r.count first.now.settled.items recent.new.items r.is_consistent) }
{
    recent.clear();
    recent.extend_from_slice(first.recent.as_slice())?;
    if facts.len() <= FEW {
        return Ok(first.entered);
    }
    enter_each(facts, first.settled.as_slice(), recent, first.entered)
}

impl<'a> FactBranches<'a> {
    /// Where the lent facts alone are known. Questions are asked with so much effort.
    pub fn new(alloc: Global, lent: &'a [Fact], effort: &'a Effort) -> FactBranches<'a>
        ensures { result ≡ (lent.now, lent.now) }
    {
        let index = Index::new(alloc);
        FactBranches {
            lent,
            facts: Vec::new(alloc),
            is_copied: false,
            has_more: false,
            entered: index.entered,
            index,
            recent: Vec::new(alloc),
            effort,
        }
    }

    /// Lets these facts join the lent ones, in place of those that had, and brings the index up to date, where they are many. Refused, it leaves the lent
    /// ones alone known.
    pub fn switch_to(&mut self, alloc: Global, more: &[Fact]) -> Result<(), AllocError>
        ensures lent { self.new.0 ≡ self.old.0 }
        ensures all { OnOk result (self.new.1 ≡ self.old.0 ++ more.now) }
        ensures refused { OnErr result (self.new.1 ≡ self.old.0) }
    {
        self.has_more = false;
        index_many(self.lent, &mut self.index)?;
        if more.is_empty() {
            return Ok(());
        }
        let is_copied = self.is_copied;
        self.is_copied = false;
        put_after(alloc, self.lent, &mut self.facts, is_copied, more)?;
        self.is_copied = true;
        self.entered = enter_after(self.facts.as_slice(), &self.index, &mut self.recent)?;
        self.has_more = true;
        Ok(())
    }

    /// What is known there.
    pub fn known(&self) -> Known<'_>
        ensures { result ≡ self.now.1 }
    {
        if !self.has_more {
            return Known {
                facts: self.lent,
                layers: self.index.layers(self.effort),
                is_indexed: self.index.entered.count > self.lent.len(),
                is_consistent: self.index.entered.is_consistent,
            };
        }
        Known {
            facts: self.facts.as_slice(),
            layers: Layers {
                settled: self.index.settled.as_slice(),
                recent: self.recent.as_slice(),
                hints: self.index.hints.as_slice(),
                pairs: self.index.pairs.as_slice(),
                effort: self.effort,
            },
            is_indexed: self.entered.count > self.facts.len(),
            is_consistent: self.entered.is_consistent,
        }
    }
}
