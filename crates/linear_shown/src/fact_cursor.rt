//! The first of some facts, as many as are known at a place, and an index that grows from place to place.

ghost use Rattle.std.specs.Prelude.{◌≡◌, length, take};

use crate::effort::Effort;
use crate::index::{Index, index_many};
use crate::known::Known;
use linear::Fact;
use std::alloc::{AllocError, Global};
use std::marker::Model;

/// Lent facts, how many of them are known, and an index of the first of these. Contracts see the facts and the number.
#[derive(Drop)]
pub struct FactCursor<'a> {
    facts: &'a [Fact],
    count: usize,
    index: Index,
    effort: &'a Effort,
}

impl<'a> Model for FactCursor<'a> {
    ghost use Rattle.std.specs.Prelude.{List, ℕ, take};
    ghost use Rattle.linear.specs.declared.form.Fact.{Fact};
    ghost use Rattle.linear_shown.specs.Index.{IsBegun};

    ghost Value = { List Fact × ℕ };

    ghost view = { λ c. (c.facts.now, c.count) };

    ghost invariant = { λ c. IsBegun (take c.count c.facts.now) c.index.entered.count c.index.settled.items c.index.recent.items c.index.entered.is_consistent };
}

/// The first of the facts.
fn first(facts: &[Fact], count: usize) -> &[Fact]
    ensures { result.now ≡ take count facts.now }
{
    if count < facts.len() {
        &facts[..count]
    } else {
        facts
    }
}

impl<'a> FactCursor<'a> {
    /// At a place where all the facts are known. Questions are asked with so much effort.
    pub fn new(alloc: Global, facts: &'a [Fact], effort: &'a Effort) -> FactCursor<'a>
        ensures { result ≡ (facts.now, length facts.now) }
    {
        FactCursor {
            facts,
            count: facts.len(),
            index: Index::new(alloc),
            effort,
        }
    }

    /// Goes to a place where so many of the facts are known. The index is kept where they are no fewer.
    pub fn seek(&mut self, count: usize)
        ensures { self.new ≡ (self.old.0, count) }
    {
        if count < self.count {
            self.index.clear();
            self.count = count;
        } else {
            self.count = count;
        }
    }

    /// Brings the index up to date, where the facts are many. Questions are answered without it, too, but not as fast.
    pub fn index(&mut self) -> Result<(), AllocError>
        ensures { self.new ≡ self.old }
    {
        index_many(first(self.facts, self.count), &mut self.index)
    }

    /// What is known at the place.
    pub fn known(&self) -> Known<'_>
        ensures some { result ≡ take self.now.1 self.now.0 }
        ensures all { self.now.1 ≡ length self.now.0 → result ≡ self.now.0 }
    {
        let facts = first(self.facts, self.count);
        Known {
            facts,
            layers: self.index.layers(self.effort),
            is_indexed: self.index.entered.count > facts.len(),
            is_consistent: self.index.entered.is_consistent,
        }
    }
}
