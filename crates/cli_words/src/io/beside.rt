//! What is told beside standard output: notes on standard error, times, and files that are to be written.

use std::alloc::{AllocError, Global};
use std::fmt::Display;

/// A file that is to be written.
#[derive(Drop)]
pub struct FileBytes {
    /// The word that names it.
    pub word: String,
    pub bytes: Vec<u8>,
}

/// What a request took, in microseconds, and the instructions that its run did.
#[derive(Clone, Copy)]
pub struct Times {
    pub reading: u64,
    pub verifying: u64,
    pub running: u64,
    pub instructions: u64,
}

/// What goes to standard error and to files. Where memory is refused for a part, that part is left out, and [`Beside::is_refused`] says so.
pub struct Beside {
    alloc: Global,
    /// Whether lines for standard error may have colours.
    pub has_colours: bool,
    /// Lines for standard error.
    pub notes: String,
    /// Files to write once the answer has been.
    pub files: Vec<FileBytes>,
    /// The globals that go to files.
    pub dumps: Vec<FileBytes>,
    pub times: Times,
    is_refused: bool,
}

/// Written out, so that no crate above proves it anew.
impl Drop for Beside {
    fn drop(self) {
        let Beside {
            alloc: _,
            has_colours: _,
            notes: _,
            files: _,
            dumps: _,
            times: _,
            is_refused: _,
        } = self;
    }
}

impl Beside {
    pub fn nothing(alloc: Global) -> Beside {
        Beside {
            alloc,
            has_colours: false,
            notes: String::new(alloc),
            files: Vec::new(alloc),
            dumps: Vec::new(alloc),
            times: Times {
                reading: 0,
                verifying: 0,
                running: 0,
                instructions: 0,
            },
            is_refused: false,
        }
    }

    /// Whether memory was refused so far: then parts are missing.
    pub fn is_refused(&self) -> bool {
        self.is_refused
    }

    /// Adds what a value prints to the lines for standard error; `writeln!` calls it.
    pub fn write_fmt<D: Display + Drop>(&mut self, piece: D) {
        self.is_refused |= self.notes.write_fmt(piece).is_err();
    }

    /// What a line for standard error begins with.
    pub fn error_word(&self) -> &'static str {
        if self.has_colours {
            "\u{1b}[31merror:\u{1b}[0m"
        } else {
            "error:"
        }
    }

    /// Adds a line for standard error.
    pub fn note(&mut self, line: &str) {
        let error = self.error_word();
        writeln!(self, "{error} {line}");
    }

    /// Adds a line for standard error that begins with a line of a file, so that editors find that.
    pub fn note_at(&mut self, file: &str, line: u64, what: &str) {
        let error = self.error_word();
        writeln!(self, "{file}:{line}: {error} {what}");
    }

    /// A file of these bytes, where there is memory for the word that names it.
    fn file(&mut self, word: &str, bytes: Vec<u8>) -> Option<FileBytes> {
        match String::from_str(self.alloc, word) {
            Ok(word) => Some(FileBytes { word, bytes }),
            Err(AllocError) => {
                self.is_refused = true;
                None
            }
        }
    }

    /// Keeps bytes for the file that the word names.
    pub fn keep_file(&mut self, word: &str, bytes: Vec<u8>) {
        if let Some(file) = self.file(word, bytes) {
            self.is_refused |= self.files.push(file).is_err();
        }
    }

    /// Keeps the numbers of a global for the file that the word names.
    pub fn keep_dump(&mut self, word: &str, bytes: Vec<u8>) {
        if let Some(file) = self.file(word, bytes) {
            self.is_refused |= self.dumps.push(file).is_err();
        }
    }
}
