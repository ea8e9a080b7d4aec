//! The lines of a text, counted from 1.

use lists::TextBuffer;
use std::alloc::{AllocError, Global};

/// Adds lines, each of which begins with this more.
pub(crate) fn push_indented(out: &mut TextBuffer, lines: &str, indent: &str) {
    for line in lines.lines() {
        out.push_str(indent);
        out.push_str(line);
        out.push_str("\n");
    }
}

/// The line of this number, without its LF.
pub fn line_at(text: &str, number: u32) -> Option<&str> {
    let mut at: u32 = 0;
    for line in text.split('\n') {
        at = at.saturating_add(1);
        if at == number {
            return Some(line);
        }
    }
    None
}

/// Where a line is put into a text: before the line of this number, or in its place.
pub enum Put {
    Before(u32),
    InPlaceOf(u32),
}

/// The text, each line with its LF, with a line put in.
///
/// # Errors
///
/// Memory is refused.
pub fn with_line(alloc: Global, text: &str, put: Put, new: &str) -> Result<String, AllocError> {
    let (number, stays) = match put {
        Put::Before(number) => (number, true),
        Put::InPlaceOf(number) => (number, false),
    };
    let mut out = TextBuffer::new(alloc);
    let mut at: u32 = 0;
    for line in text.split('\n') {
        at = at.saturating_add(1);
        if at == number {
            out.push_str(new);
            out.push_str("\n");
        }
        if at != number || stays {
            out.push_str(line);
            out.push_str("\n");
        }
    }
    out.finish()
}
