//! The names that stand so far, to find one that is defined twice (hash set).

ghost use Rattle.std.specs.Prelude.{◌≡◌, ◌++◌, ◌∷◌, [], not, OnErr, IfOk, if◌then◌else◌};
ghost use Rattle.ir_reader.specs.Names.{is_repeated};

use indexmap::IndexSet;
use lists::OutOfMemory;
use std::alloc::Global;
use std::hash::RandomState;
use std::marker::Model;

/// Names, each once, in the order in which they were defined.
#[derive(Drop)]
pub struct Names {
    set: IndexSet<Vec<u8>, RandomState>,
}

impl Model for Names {
    ghost use Rattle.std.specs.Prelude.{List, ℕ, map};

    ghost Value = { List (List ℕ) };

    ghost view = { λ a. map (λ v. v.items) a.set.keys };
}

impl Names {
    pub fn new(alloc: Global, state: RandomState) -> Names
        ensures { result ≡ [] }
    {
        Names {
            set: IndexSet::with_hasher(alloc, state),
        }
    }

    pub fn clear(&mut self)
        ensures { self.new ≡ [] }
    {
        self.set.clear();
    }

    /// Whether the name is new; it then goes last.
    pub fn define(&mut self, alloc: Global, name: &[u8]) -> Result<bool, OutOfMemory>
        ensures fresh { IfOk result (λ fresh. fresh ≡ not (is_repeated self.old (name.now ∷ []))) }
        ensures ok { IfOk result (λ fresh. self.new ≡ (if fresh then self.old ++ name.now ∷ [] else self.old)) }
        ensures err { OnErr result (self.new ≡ self.old) }
    {
        let name = Vec::from_slice(alloc, name)?;
        Ok(self.set.insert(name)?)
    }
}
