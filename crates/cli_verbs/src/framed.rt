//! An answer as bytes: a line of decimal numbers, which are the status and the size of each part, and then the parts. They are what is printed, what stands on
//! standard error, and of each file that is to be written its name and what it holds.

use cli_words::Beside;
use lists::TextBuffer;
use std::alloc::{AllocError, Global};

/// The line of numbers.
fn head(alloc: Global, status: u8, printed: &[u8], beside: &Beside) -> Result<String, AllocError> {
    let mut line = TextBuffer::new(alloc);
    let output = printed.len();
    let notes = beside.notes.len();
    write!(line, "{status} {output} {notes}");
    for file in &beside.files {
        let name = file.word.len();
        let text = file.bytes.len();
        write!(line, " {name} {text}");
    }
    line.push_str("\n");
    line.finish()
}

/// An answer with these parts, and those that stand beside what is printed.
pub(crate) fn framed(
    alloc: Global,
    status: u8,
    printed: &[u8],
    beside: &Beside,
) -> Result<Vec<u8>, AllocError> {
    let mut bytes = head(alloc, status, printed, beside)?.into_bytes();
    let mut is_whole = bytes.extend_from_slice(printed).is_ok();
    is_whole &= bytes.extend_from_slice(beside.notes.as_bytes()).is_ok();
    for file in &beside.files {
        is_whole &= bytes.extend_from_slice(file.word.as_bytes()).is_ok();
        is_whole &= bytes.extend_from_slice(file.bytes.as_slice()).is_ok();
    }
    if is_whole { Ok(bytes) } else { Err(AllocError) }
}
