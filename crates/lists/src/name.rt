//! A name of a module's text, without its sigil (an identifier), and whether two are the same.

ghost use Rattle.std.specs.Prelude.{◌≡◌, ◌↔◌, ℕ, List, IsTrue, string_bytes, IfOk};

use std::alloc::{AllocError, Global};
use std::marker::Model;

/// A name of a module's text, without its sigil. Contracts see it as its bytes.
#[derive(Debug)]
pub struct Name {
    text: String,
}

/// Written out, so that no crate above proves it anew.
impl Drop for Name {
    fn drop(self) {
        let Name { text: _ } = self;
    }
}

impl Model for Name {
    ghost Value = { List ℕ };

    ghost view = { λ n. string_bytes n.text };
}

impl Name {
    pub fn from_text(text: String) -> Name
        ensures { result ≡ string_bytes text }
    {
        Name { text }
    }

    pub fn as_str(&self) -> &str
        ensures { result.now ≡ self.now }
    {
        self.text.as_str()
    }

    pub fn as_bytes(&self) -> &[u8]
        ensures { result.now ≡ self.now }
    {
        self.text.as_bytes()
    }

    pub fn is_same(&self, other: &Name) -> bool
        ensures { IsTrue result ↔ (self.now ≡ other.now) }
    {
        self.as_bytes() == other.as_bytes()
    }

    /// A copy of the name.
    pub fn copy(&self) -> Result<Name, AllocError>
        ensures { IfOk result (λ n. n ≡ self.now) }
    {
        Ok(Name {
            text: self.text.clone()?,
        })
    }
}
