//! A list that is filled element by element, and says at its end whether memory was refused (a builder).

use std::alloc::{AllocError, Global};

/// A list that is filled element by element. Where memory is refused for an element, that element is dropped, and [`ListBuffer::finish`] says so.
#[derive(Debug)]
pub struct ListBuffer<T> {
    list: Vec<T>,
    is_refused: bool,
}

/// Written out, so that no crate above proves it anew.
impl<T: Drop> Drop for ListBuffer<T> {
    fn drop(self) {
        let ListBuffer {
            list: _,
            is_refused: _,
        } = self;
    }
}

impl<T: Drop> ListBuffer<T> {
    /// The empty list; it takes no memory.
    pub fn new(alloc: Global) -> ListBuffer<T> {
        ListBuffer {
            list: Vec::new(alloc),
            is_refused: false,
        }
    }

    /// What is in the list so far.
    pub fn as_slice(&self) -> &[T] {
        self.list.as_slice()
    }

    pub fn as_mut_slice(&mut self) -> &mut [T] {
        self.list.as_mut_slice()
    }

    pub fn is_empty(&self) -> bool {
        self.list.is_empty()
    }

    pub fn push(&mut self, value: T) {
        if self.list.push(value).is_err() {
            self.is_refused = true;
        }
    }

    /// The list that was filled.
    ///
    /// # Errors
    ///
    /// Memory was refused for one of its elements.
    pub fn finish(self) -> Result<Vec<T>, AllocError> {
        let ListBuffer { list, is_refused } = self;
        if is_refused {
            Err(AllocError)
        } else {
            Ok(list)
        }
    }
}
