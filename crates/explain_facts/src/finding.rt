//! A broken rule with what there is to say of it (one diagnostic).

use crate::means::Means;
use std::hash::RandomState;

/// A broken rule and the line that breaks it, with what there is to say of it.
#[derive(Drop)]
pub struct Finding {
    pub number: u16,
    pub line: u32,
    /// Which of the rule's causes it is, where the rule has several and the line says which.
    pub cause: Option<&'static str>,
    /// Whether it may follow from an earlier one: without that one's fault it would be none either.
    pub follows: bool,
    /// Lines that end with LF.
    pub notes: String,
}

impl Finding {
    /// Whether it is of this rule and this line.
    pub(crate) fn is_of(&self, number: u16, line: u32) -> bool {
        self.number == number && self.line == line
    }
}

/// A module's text, and what its names are hashed with.
#[derive(Clone, Copy)]
pub struct Source<'a> {
    pub text: &'a str,
    pub state: RandomState,
}

/// Adds a fault, or what there is to say of it to the last one, if that is the same. Both together follow from an earlier one only if each does.
pub(crate) fn push_found(means: &Means<'_>, findings: &mut Vec<Finding>, found: Finding) {
    if let Some(last) = findings.last_mut() {
        if last.is_of(found.number, found.line) {
            means.noted(last.notes.push_str(found.notes.as_str()));
            last.follows = last.follows && found.follows;
            return;
        }
    }
    means.push(findings, found)
}
