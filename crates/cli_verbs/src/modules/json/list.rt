//! Texts as members and in lists of JSON.

use lists::TextBuffer;
use std::alloc::{AllocError, Global};
use std::fmt;
use views::quoted;

/// A text, printed as JSON spells it. Where memory is refused for that, nothing is printed, and the print says so.
#[derive(Clone, Copy)]
struct Quoted<'a> {
    alloc: Global,
    text: &'a str,
}

impl fmt::Display for Quoted<'_> {
    fn fmt<W: fmt::Write>(&self, f: &mut fmt::Formatter<W>) -> fmt::Result {
        match quoted(self.alloc, self.text) {
            Ok(spelled) => f.write_str(spelled.as_str()),
            Err(AllocError) => Err(fmt::Error),
        }
    }
}

/// The separator before an item of a list, where another one stands before it.
pub(crate) fn push_separator(out: &mut TextBuffer) {
    if !out.as_str().ends_with(['[', ':']) {
        out.push(',');
    }
}

/// An item of a list of texts, or the text of a member whose key was written.
pub(crate) fn push_text(alloc: Global, out: &mut TextBuffer, text: &str) {
    push_separator(out);
    out.write_fmt(Quoted { alloc, text });
}

/// A member of an object that is a text, behind others.
pub(crate) fn push_member(alloc: Global, out: &mut TextBuffer, key: &str, text: &str) {
    let text = Quoted { alloc, text };
    write!(out, ",\"{key}\":{text}");
}
