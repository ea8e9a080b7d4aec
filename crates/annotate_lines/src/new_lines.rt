//! The lines of a text, of which some were put in, and which of those are refused.

use explain_facts::Means;
use lists::{ListBuffer, TextBuffer};
use std::alloc::{AllocError, Global};

/// What is known of a line: whether it was put in, and is refused then.
#[derive(Clone, Copy)]
enum Mark {
    Own,
    PutIn,
    Refused,
}

/// The numbers of lines that were put into a text, counted from 1.
#[derive(Drop)]
pub struct NewLines {
    marks: Vec<Mark>,
}

/// Where the mark of a line stands; no list has one for the number 0.
fn place_of(line: u32) -> usize {
    (line as usize).wrapping_sub(1)
}

/// A mark for each line of `more`: put in, unless it is the next one of `text`.
fn marks_between(alloc: Global, text: &str, more: &str) -> ListBuffer<Mark> {
    let mut marks = ListBuffer::new(alloc);
    let mut old = text.lines();
    let mut next = old.next();
    for line in more.lines() {
        if next == Some(line) {
            next = old.next();
            marks.push(Mark::Own);
        } else {
            marks.push(Mark::PutIn);
        }
    }
    marks
}

impl NewLines {
    /// The lines of `more` that `text` has not, where all its lines stand in `more` in their order.
    pub fn between(alloc: Global, text: &str, more: &str) -> Result<NewLines, AllocError> {
        Ok(NewLines {
            marks: marks_between(alloc, text, more).finish()?,
        })
    }

    /// The lines of `more` that `text` has not, as [`between`](Self::between) finds them. That memory is refused is noted by the means, and not answered.
    pub(crate) fn found(means: &Means<'_>, text: &str, more: &str) -> NewLines {
        NewLines {
            marks: means.list(marks_between(means.alloc, text, more)),
        }
    }

    /// Whether the line of this number was put in.
    pub fn has(&self, line: u32) -> bool {
        match self.marks.get(place_of(line)) {
            Some(Mark::PutIn | Mark::Refused) => true,
            Some(Mark::Own) | None => false,
        }
    }

    /// The line, without those that were put in, that this one is or stands behind; counted from 1.
    pub fn own_line(&self, line: u32) -> u32 {
        let mut own = line;
        let count = self.marks.len().min(line as usize);
        for mark in &self.marks[..count] {
            if !matches!(mark, Mark::Own) {
                own = own.saturating_sub(1);
            }
        }
        own
    }

    /// Whether none was put in.
    pub(crate) fn is_empty(&self) -> bool {
        for mark in &self.marks {
            if !matches!(mark, Mark::Own) {
                return false;
            }
        }
        true
    }

    /// Refuses the line of this number, if it was put in.
    pub(crate) fn refuse(&mut self, line: u32) {
        if let Some(mark) = self.marks.get_mut(place_of(line)) {
            if !matches!(mark, Mark::Own) {
                *mark = Mark::Refused;
            }
        }
    }

    /// Refuses those lines too that others were put in at; whether one beside them was refused before.
    pub(crate) fn refuse_all(&mut self, others: &NewLines) -> bool {
        let mut is_refused = false;
        let marks = self.marks.as_mut_slice();
        for (place, other) in others.marks.iter().enumerate() {
            if place < marks.len() {
                if matches!(other, Mark::PutIn) {
                    marks[place] = Mark::Refused;
                } else if matches!(marks[place], Mark::Refused) {
                    is_refused = true;
                }
            }
        }
        is_refused
    }

    /// Whether one is refused.
    pub(crate) fn has_refused(&self) -> bool {
        for mark in &self.marks {
            if matches!(mark, Mark::Refused) {
                return true;
            }
        }
        false
    }

    /// The line, without those that were put in, behind which the first one stands that is refused; counted from 1.
    pub(crate) fn first_refused(&self) -> u32 {
        let mut own = 0u32;
        for mark in &self.marks {
            match mark {
                Mark::Own => own = own.saturating_add(1),
                Mark::PutIn => {}
                Mark::Refused => return own,
            }
        }
        own
    }

    /// The text that they were put into, without those that are refused.
    pub(crate) fn without_refused(&self, means: &Means<'_>, text: &str) -> String {
        let mut out = TextBuffer::new(means.alloc);
        let marks = self.marks.as_slice();
        let mut place: usize = 0;
        for line in text.lines() {
            if place < marks.len() && !matches!(marks[place], Mark::Refused) {
                out.push_str(line);
                out.push_str("\n");
            }
            place = place.saturating_add(1);
        }
        means.text(out)
    }
}
