//! Facts that become more, and an index that grows with them.

ghost use Rattle.std.specs.Prelude.{◌≡◌, ◌++◌, ◌∷◌, [], IfOk, OnOk, length};

use crate::effort::Effort;
use crate::index::{Index, index_many};
use crate::known::Known;
use linear::Fact;
use std::alloc::{AllocError, Global};
use std::marker::Model;

/// Facts in their order, and an index of the first of them. Contracts see the facts.
pub struct FactList<'a> {
    facts: Vec<Fact>,
    index: Index,
    effort: &'a Effort,
}

/// Written out, so that no crate above proves it anew.
impl<'a> Drop for FactList<'a> {
    fn drop(self) {
        let FactList {
            facts: _,
            index: _,
            effort: _,
        } = self;
    }
}

impl<'a> Model for FactList<'a> {
    ghost use Rattle.std.specs.Prelude.{List};
    ghost use Rattle.linear.specs.declared.form.Fact.{Fact};
    ghost use Rattle.linear_shown.specs.Index.{IsBegun};

    ghost Value = { List Fact };

    ghost view = { λ l. l.facts.items };

    ghost invariant = { λ l. IsBegun l.facts.items l.index.entered.count l.index.settled.items l.index.recent.items l.index.entered.is_consistent };
}

impl<'a> FactList<'a> {
    /// No facts, of which questions will be asked with so much effort.
    pub fn new(alloc: Global, effort: &'a Effort) -> FactList<'a>
        ensures { result ≡ [] }
    {
        FactList {
            facts: Vec::new(alloc),
            index: Index::new(alloc),
            effort,
        }
    }

    /// Facts that are not in an index yet.
    pub fn from_vec(alloc: Global, facts: Vec<Fact>, effort: &'a Effort) -> FactList<'a>
        ensures { result ≡ facts.items }
    {
        FactList {
            facts,
            index: Index::new(alloc),
            effort,
        }
    }

    pub fn len(&self) -> usize
        ensures { result ≡ length self.now }
    {
        self.facts.len()
    }

    pub fn as_slice(&self) -> &[Fact]
        ensures { result.now ≡ self.now }
    {
        self.facts.as_slice()
    }

    /// Adds a fact.
    pub fn push(&mut self, fact: Fact) -> Result<(), AllocError>
        ensures { OnOk result (self.new ≡ self.old ++ fact ∷ []) }
    {
        self.facts.push(fact)?;
        Ok(())
    }

    /// Brings the index up to date, where the facts are many. Questions are answered without it, too, but not as fast.
    pub fn index(&mut self) -> Result<(), AllocError>
        ensures { self.new ≡ self.old }
    {
        index_many(self.facts.as_slice(), &mut self.index)
    }

    /// What is known by these facts.
    pub fn known(&self) -> Known<'_>
        ensures { result ≡ self.now }
    {
        Known {
            facts: self.facts.as_slice(),
            layers: self.index.layers(self.effort),
            is_indexed: self.index.entered.count > self.facts.len(),
            is_consistent: self.index.entered.is_consistent,
        }
    }

    /// The effort that is granted.
    pub fn effort(&self) -> &'a Effort {
        self.effort
    }

    /// The facts alone.
    pub fn into_vec(self) -> Vec<Fact>
        ensures { result.items ≡ self.entry }
    {
        let FactList {
            facts,
            index: _,
            effort: _,
        } = self;
        facts
    }
}
