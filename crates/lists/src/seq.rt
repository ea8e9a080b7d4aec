//! A growable list, which contracts see as its elements (a vector).

ghost use Rattle.std.specs.Prelude.{◌≡◌, ◌++◌, ◌∷◌, ◌↔◌, [], List, length, IsTrue, OnOk, OnErr, IfErr};

use std::alloc::{AllocFailed, Global};
use std::marker::Model;

/// A list that contracts see as its elements, whatever room it has.
#[derive(Debug)]
pub struct Seq<T> {
    vec: Vec<T>,
}

/// Written out, so that no crate above proves it anew.
impl<T: Drop> Drop for Seq<T> {
    fn drop(self) {
        let Seq { vec: _ } = self;
    }
}

impl<T> Model for Seq<T> {
    ghost Value = { List T };

    ghost view = { λ s. s.vec.items };
}

impl<T> Seq<T> {
    /// The empty list; it takes no memory.
    pub fn new(alloc: Global) -> Seq<T>
        ensures { result ≡ [] }
    {
        Seq {
            vec: Vec::new(alloc),
        }
    }

    pub fn from_vec(vec: Vec<T>) -> Seq<T>
        ensures { result ≡ vec.items }
    {
        Seq { vec }
    }

    pub fn into_vec(self) -> Vec<T>
        ensures { result.items ≡ self }
    {
        let Seq { vec } = self;
        vec
    }

    pub fn as_slice(&self) -> &[T]
        ensures { result.now ≡ self.now }
    {
        self.vec.as_slice()
    }

    pub fn len(&self) -> usize
        ensures { result ≡ length self.now }
    {
        self.vec.len()
    }

    pub fn is_empty(&self) -> bool
        ensures { IsTrue result ↔ (self.now ≡ []) }
    {
        self.vec.is_empty()
    }

    /// Adds an element at the end. Where memory is refused the list stays as it was.
    pub fn push(&mut self, value: T) -> Result<(), AllocFailed<T>>
        ensures ok { OnOk result (self.new ≡ self.old ++ value ∷ []) }
        ensures err { OnErr result (self.new ≡ self.old) }
        ensures value_returned { IfErr result (λ y. y.value ≡ value) }
    {
        self.vec.push(value)
    }
}
