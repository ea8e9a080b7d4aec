//! A text that is written piece by piece, and says at its end whether memory was refused (a string builder).

use std::alloc::{AllocError, Global};
use std::fmt::Display;

/// A text that is written piece by piece. Where memory is refused for a piece, that piece is left out, and [`TextBuffer::finish`] says so.
#[derive(Debug)]
pub struct TextBuffer {
    text: String,
    is_refused: bool,
}

/// Written out, so that no crate above proves it anew.
impl Drop for TextBuffer {
    fn drop(self) {
        let TextBuffer {
            text: _,
            is_refused: _,
        } = self;
    }
}

impl TextBuffer {
    /// The empty text; it takes no memory.
    pub fn new(alloc: Global) -> TextBuffer {
        TextBuffer {
            text: String::new(alloc),
            is_refused: false,
        }
    }

    /// What is written so far.
    pub fn as_str(&self) -> &str {
        self.text.as_str()
    }

    pub fn is_empty(&self) -> bool {
        self.text.is_empty()
    }

    pub fn push_str(&mut self, piece: &str) {
        if self.text.push_str(piece).is_err() {
            self.is_refused = true;
        }
    }

    pub fn push(&mut self, piece: char) {
        if self.text.push(piece).is_err() {
            self.is_refused = true;
        }
    }

    /// Adds what a value prints; `write!` and `writeln!` call it.
    pub fn write_fmt<D: Display + Drop>(&mut self, piece: D) {
        if self.text.write_fmt(piece).is_err() {
            self.is_refused = true;
        }
    }

    /// The text that was written.
    ///
    /// # Errors
    ///
    /// Memory was refused for one of its pieces.
    pub fn finish(self) -> Result<String, AllocError> {
        let TextBuffer { text, is_refused } = self;
        if is_refused {
            Err(AllocError)
        } else {
            Ok(text)
        }
    }
}
