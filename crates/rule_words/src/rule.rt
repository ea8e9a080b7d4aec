//! What is said of a rule: where it is reported, what it means, how to mend it, an example.

/// What is said of a rule.
pub struct Rule {
    pub reported_at: &'static str,
    /// What it means that a line breaks it. If there are several causes, they stand behind a colon.
    pub means: &'static str,
    pub mend: &'static str,
    pub example: &'static str,
}

impl Rule {
    /// What it means without its causes: for places that say which of them applies.
    pub fn head(&self) -> &'static str {
        match self.means.split_once(": ") {
            Some((head, _causes)) => head,
            None => self.means,
        }
    }
}

/// The rules that have one number.
#[derive(Clone, Copy)]
pub(crate) enum Numbered {
    One(&'static Rule),
    /// What an annotation breaks, and what an instruction breaks.
    Two {
        annotation: &'static Rule,
        instruction: &'static Rule,
    },
}
