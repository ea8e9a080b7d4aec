//! Where lists and texts get their memory.

use lists::TextBuffer;
use std::alloc::{AllocError, Global};
use std::cell::Cell;

/// The allocator, and whether it refused memory for something. What there was no memory for is left out, so what was made may be wrong, and nothing of it may
/// be shown before [`Heap::finish`] said that nothing is left out.
#[derive(Drop)]
pub struct Heap {
    alloc: Global,
    is_refused: Cell<bool>,
}

impl Heap {
    pub fn new(alloc: Global) -> Heap {
        Heap {
            alloc,
            is_refused: Cell::new(false),
        }
    }

    /// The empty list.
    pub fn list<T>(&self) -> Vec<T> {
        Vec::new(self.alloc)
    }

    /// The empty text.
    pub fn text(&self) -> TextBuffer {
        TextBuffer::new(self.alloc)
    }

    /// A copy of a text.
    pub fn string(&self, text: &str) -> String {
        let mut copy = String::new(self.alloc);
        if copy.push_str(text).is_err() {
            self.is_refused.set(true);
        }
        copy
    }

    /// Adds an element at the end of a list.
    pub fn push<T: Drop>(&self, list: &mut Vec<T>, value: T) {
        if list.push(value).is_err() {
            self.is_refused.set(true);
        }
    }

    /// What was made; none where memory was refused for it.
    pub fn kept<T: Drop>(&self, made: Result<T, AllocError>) -> Option<T> {
        match made {
            Ok(made) => Some(made),
            Err(_) => {
                self.is_refused.set(true);
                None
            }
        }
    }

    /// Whether memory was there for all that was asked.
    ///
    /// # Errors
    ///
    /// Memory was refused for something.
    pub fn finish(&self) -> Result<(), AllocError> {
        if self.is_refused.get() {
            Err(AllocError)
        } else {
            Ok(())
        }
    }
}
