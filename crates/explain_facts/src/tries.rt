//! Lines to try where a form is not shown: those with few registers first (suggested fixes).

use crate::finding::Source;
use crate::gap::{is_against, number_of_registers, only_term, raised};
use crate::known::Known;
use crate::lines::{Put, push_indented, with_line};
use crate::means::Means;
use crate::scene::Scene;
use crate::spelling::push_inequality;
use crate::trial::{Matched, taken};
use crate::unmet::{Unmet, all_unmet};
use linear::Form;
use lists::TextBuffer;
use ranges::Sum;

/// The steps that a byte of a text counts for that is judged as far as its numbers.
const STEPS_A_BYTE: usize = 30;

/// What tries are made for: a text, a place, and what the text does not show of its numbers.
#[derive(Clone, Copy)]
pub struct Trying<'s, 'a> {
    /// The text; none where no lines are tried, and what is known is all that is asked for.
    pub source: Option<Source<'s>>,
    pub known: Known<'a>,
    pub old: &'a [Unmet],
}

/// Whether a form is there and names fewer registers than the other.
fn has_fewer(one: &Option<Form>, other: &Option<Form>) -> bool {
    match (one, other) {
        (Some(one), Some(other)) => number_of_registers(one) < number_of_registers(other),
        _ => false,
    }
}

/// An annotation that says a form.
fn annotation(means: &Means<'_>, scene: &Scene<'_>, word: &str, form: &Form) -> String {
    let mut line = TextBuffer::new(means.alloc);
    write!(line, ";! {word} ");
    push_inequality(scene, form, &mut line);
    means.text(line)
}

/// Whether a fault stands among those of the text, where one line more stands from this one on.
fn is_old(unmet: &Unmet, old: &[Unmet], added: u32) -> bool {
    let line = if unmet.site.line > added {
        unmet.site.line.saturating_sub(1)
    } else {
        unmet.site.line
    };
    for other in old {
        if other.site.line == line && other.number == unmet.number {
            return true;
        }
    }
    false
}

/// Whether all faults of a text with one line more, from this one on, stand among those that it had, and are fewer if it had any.
fn is_less(new: &[Unmet], old: &[Unmet], added: u32) -> bool {
    for unmet in new {
        if !is_old(unmet, old, added) {
            return false;
        }
    }
    old.is_empty() || new.len() < old.len()
}

/// A bound so far from 0 only keeps a register within its width: of i32 the greatest is about twice as much.
const FAR: i128 = 1_000_000_000;

/// What a reader would write in place of a form: of a register's bound that is that of its width a plainer one, and of several registers none.
fn plainer(means: &Means<'_>, form: &Form) -> Option<Form> {
    if form.constant < FAR {
        return Some(means.copy(form));
    }
    let Some(only) = only_term(form) else {
        return None;
    };
    let constant = match only.coefficient {
        1 => 0,
        -1 => FAR,
        _ => return None,
    };
    match means.within_bounds(means.zero().plus_term(only.register, only.coefficient)) {
        Some(form) => raised(means, &form, constant),
        None => None,
    }
}

impl<'s, 'a> Trying<'s, 'a> {
    /// What is made at a place of a text without faults of numbers.
    pub fn of(source: Option<Source<'s>>, known: Known<'a>) -> Trying<'s, 'a> {
        Trying {
            source,
            known,
            old: &[],
        }
    }

    /// The text in which more lines may be tried; empty where only the program is there, and nothing can be tried.
    pub fn text(&self) -> &'s str {
        match &self.source {
            Some(source) => source.text,
            None => "",
        }
    }
}

impl Trying<'_, '_> {
    /// The text with this line before that one, where the phases up to that of uses take it; none where memory or effort did not reach before.
    fn tried(&self, line: &str, before: u32) -> Option<Matched> {
        let means = self.known.means;
        let Some(Source { text, state }) = self.source else {
            return None;
        };
        let changed = means.made(with_line(means.alloc, text, Put::Before(before), line));
        let source = Source {
            text: changed.as_str(),
            state,
        };
        taken(means, source, changed.len().saturating_mul(STEPS_A_BYTE))
    }

    /// Whether the text with this line behind that one is right up to the uses of its registers.
    pub fn is_line(&self, line: &str, after: u32) -> bool {
        self.tried(line, after.saturating_add(1)).is_some()
    }

    /// Adds what is not shown of a sum at the place to what is told of a line or a zone.
    pub fn push_detail(&self, sum: &Sum, indent: &str, out: &mut TextBuffer) {
        if self.source.is_some() {
            let means = self.known.means;
            let mut notes = TextBuffer::new(means.alloc);
            self.push_unshown(sum, &mut notes);
            push_indented(out, means.text(notes).as_str(), indent);
        }
    }

    /// Whether the text with this line before that one has no fault of numbers that it did not have, and fewer of them if it had any.
    fn is_better(&self, line: &str, before: u32) -> bool {
        match self.tried(line, before) {
            Some(matched) => {
                let new = all_unmet(self.known.means, &matched);
                is_less(new.as_slice(), self.old, before)
            }
            None => false,
        }
    }

    /// Whether a line that says a form would leave hardly a number: it is known to be at most 0, or bounds a parameter by 0, which is hardly what the
    /// author of a function means that asks this.
    fn is_narrow(&self, form: &Form) -> bool {
        if let (0, Some(only)) = (self.known.block.0, only_term(form)) {
            if only.coefficient < 0 && form.constant <= 0 {
                return true;
            }
        }
        let means = self.known.means;
        match raised(means, form, -1) {
            Some(less) => is_against(means, self.known.facts, &less),
            None => false,
        }
    }

    /// The annotation that says what is known at the start of the block, and the line behind which it stands.
    fn start(&self) -> (&'static str, u32) {
        let Known { scene, block, .. } = self.known;
        if block.0 == 0 {
            ("requires", scene.function.line)
        } else {
            ("keeps", scene.label_line(block))
        }
    }

    /// What a `keeps` line of the block, or a `requires` line of its function, could say: what a reader would write in place of a form, if nothing new is
    /// owed with it.
    fn start_form(&self, form: &Form) -> Option<Form> {
        let known = self.known;
        let Some(plain) = plainer(known.means, form) else {
            return None;
        };
        if number_of_registers(&plain) == 0 || self.is_narrow(&plain) {
            return None;
        }
        let (word, after) = self.start();
        let line = annotation(known.means, known.scene, word, &plain);
        if self.is_better(line.as_str(), after.saturating_add(1)) {
            Some(plain)
        } else {
            None
        }
    }

    /// Adds a line to try at the start of the block, if there is a form for it.
    fn push_start(&self, form: &Option<Form>, out: &mut TextBuffer) {
        if let Some(form) = form {
            let (word, after) = self.start();
            let line = annotation(self.known.means, self.known.scene, word, form);
            writeln!(out, "    try: {line}, after line {after}");
        }
    }

    /// Adds a `shows` line to try before the place, if there is a form for it.
    fn push_step(&self, form: &Option<Form>, out: &mut TextBuffer) {
        if let Some(form) = form {
            let line = annotation(self.known.means, self.known.scene, "shows", form);
            let before = self.known.line;
            writeln!(out, "    try: {line}, before line {before}");
        }
    }

    /// Adds lines each of which is enough to show a form at the place, where there are any.
    fn push_tries(&self, form: &Form, out: &mut TextBuffer) {
        let step = self.known.step_to(form);
        let start = self.start_form(form);
        if has_fewer(&start, &step) {
            self.push_start(&start, out);
            self.push_step(&step, out);
        } else {
            self.push_step(&step, out);
            self.push_start(&start, out);
        }
    }

    /// What is not shown of a sum at the place, what is known of it and how near that comes, and lines that would show it.
    pub(crate) fn push_unshown(&self, sum: &Sum, out: &mut TextBuffer) {
        out.push_str("  to show: ");
        match self.known.means.form(sum) {
            Some(form) => {
                self.known.push_unshown(&form, out);
                self.push_tries(&form, out);
            }
            None => out.push_str("a form past its bounds\n"),
        }
    }
}
