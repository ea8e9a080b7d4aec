//! A name space: names with what they stand for, in a hash table (symbol table).

ghost use Rattle.std.specs.Prelude.{◌≡◌, [], OnOk, OnErr};
ghost use Rattle.types.specs.names.Table.{look_up, with_name};

use indexmap::IndexMap;
use lists::Name;
use std::alloc::{AllocError, Global};
use std::hash::RandomState;
use std::marker::Model;

/// What the names of one name space stand for. Contracts see the names in the order of their definitions.
#[derive(Drop)]
pub struct NameTable<T> {
    entries: IndexMap<Vec<u8>, T, RandomState>,
}

impl<T> Model for NameTable<T> {
    ghost use Rattle.std.specs.Prelude.{List, ℕ, map};

    ghost Value = { List (List ℕ × T) };

    ghost view = { λ t. map (λ e. (e.0.items, e.1)) t.entries.entries };
}

impl<T: Copy> NameTable<T> {
    pub fn new(alloc: Global, state: RandomState) -> NameTable<T>
        ensures { result ≡ [] }
    {
        NameTable {
            entries: IndexMap::with_hasher(alloc, state),
        }
    }

    /// A name that is defined already keeps its first meaning. Where memory is refused the table stays as it was.
    pub fn define(&mut self, alloc: Global, name: &Name, meaning: T) -> Result<(), AllocError>
        ensures ok { OnOk result (self.new ≡ with_name self.old name.now meaning) }
        ensures err { OnErr result (self.new ≡ self.old) }
    {
        if self.find(name.as_bytes()).is_none() {
            let key = Vec::from_slice(alloc, name.as_bytes())?;
            self.entries.insert(key, meaning)?;
        }
        Ok(())
    }

    pub fn find(&self, name: &[u8]) -> Option<T>
        ensures { result ≡ look_up self.now name.now }
    {
        self.entries.get(name).copied()
    }
}
