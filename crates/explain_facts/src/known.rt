//! Notes on what is known at a place, and on what it does not show.

use crate::compare::push_test;
use crate::gap::{
    facts_used, first_facts, is_shown, number_of_registers, only_term, raised, shortfall,
    step_between,
};
use crate::means::Means;
use crate::scene::Scene;
use crate::spelling::{push_excess, push_inequality};
use crate::unknown::{is_bounded, push_rounded, push_unbounded};
use cfg::BlockEdges;
use linear::{Fact, Form, Term};
use lists::{ListBuffer, TextBuffer};
use program::{Block, BlockId, Function, Inequality};
use ranges::{BlockFacts, Sum};

/// The facts at a place of a block with their lines, and the edges of its function. `line` is that of the facts after those of `lines`. The first `stated`
/// of the facts are known to a `shows` line at the place.
#[derive(Clone, Copy)]
pub struct Known<'a> {
    pub scene: &'a Scene<'a>,
    pub edges: &'a [BlockEdges],
    pub block: BlockId,
    pub facts: &'a [Fact],
    pub lines: &'a [u32],
    pub stated: usize,
    pub line: u32,
    pub means: &'a Means<'a>,
}

fn push_lines(lines: &mut ListBuffer<u32>, inequalities: &[Inequality]) {
    for inequality in inequalities {
        lines.push(inequality.line);
    }
}

/// Adds the lines of the facts behind `shows` lines: what was learned before them has the line before.
fn push_shows(lines: &mut ListBuffer<u32>, count: usize, shows: &[Inequality], before: u32) {
    let learned = count.saturating_sub(shows.len());
    for _place in lines.as_slice().len()..learned {
        lines.push(before);
    }
    push_lines(lines, shows);
}

/// The lines of what is known at a block's end: at its start, and what is learned in it.
pub fn fact_lines(
    means: &Means<'_>,
    function: &Function,
    index: usize,
    block: &Block,
    table: &BlockFacts,
) -> Vec<u32> {
    let start = if index == 0 {
        &function.requirements
    } else {
        &block.keeps
    };
    let mut lines = ListBuffer::new(means.alloc);
    push_lines(&mut lines, start.as_slice());
    let mut before = block.line;
    for (place, step) in block.steps.as_slice().iter().enumerate() {
        let count = table.at_step(place).len();
        push_shows(&mut lines, count, step.shows.as_slice(), before);
        before = step.line;
    }
    if let Some(ending) = &block.ending {
        let count = table.facts.len();
        push_shows(&mut lines, count, ending.shows.as_slice(), before);
    }
    means.list(lines)
}

/// Whether two forms name a register both.
fn share_register(left: &Form, right: &Form) -> bool {
    for term in left.terms.as_slice() {
        for other in right.terms.as_slice() {
            if term.register.0 == other.register.0 {
                return true;
            }
        }
    }
    false
}

impl Known<'_> {
    /// Whether it is known that a sum is at least 0.
    pub fn shows(&self, sum: &Sum) -> bool {
        match self.means.form(sum) {
            Some(form) => is_shown(self.means, self.facts, &form),
            None => false,
        }
    }

    /// Whether one form is known to be at least another.
    pub fn is_at_least(&self, high: &Form, low: &Form) -> bool {
        self.shows(&self.means.between(&[], high, &[], low))
    }

    /// The fact at a place, and its line.
    fn push_fact(&self, place: usize, out: &mut TextBuffer) {
        if let Some(fact) = self.facts.get(place) {
            push_inequality(self.scene, &fact.form, out);
            let line = self.lines.get(place).copied().unwrap_or(self.line);
            write!(out, " (line {line})");
        }
    }

    /// The facts that name a register of the form.
    fn push_related(&self, form: &Form, out: &mut TextBuffer) {
        for (place, fact) in self.facts.iter().enumerate() {
            if share_register(&fact.form, form) {
                out.push_str("    known: ");
                self.push_fact(place, out);
                out.push_str("\n");
            }
        }
    }

    /// The facts that show a form.
    fn push_used(&self, form: &Form, out: &mut TextBuffer) {
        match facts_used(self.means, self.facts, form) {
            Some((first, last)) => {
                if first != last {
                    self.push_fact(first, out);
                    out.push_str(" and ");
                }
                self.push_fact(last, out);
            }
            None => out.push_str("no fact helps"),
        }
    }

    /// What one register may be, where it is to be bounded by a number, and the test that lets it.
    fn push_may_be(&self, term: Term, form: &Form, short: i128, out: &mut TextBuffer) {
        let name = self.scene.register(term.register);
        let is_from_below = term.coefficient == 1;
        let (may, word, bound) = if is_from_below {
            let least = 0i128.saturating_sub(form.constant);
            (least.saturating_sub(short), "least", least)
        } else {
            (form.constant.saturating_add(short), "most", form.constant)
        };
        writeln!(out, "%{name} may be {may}, and has to be at {word} {bound}");
        if !is_from_below {
            push_test(
                self.scene,
                self.edges,
                self.block,
                term.register,
                bound,
                out,
            );
        }
    }

    /// By how much what is known is short of a form.
    fn push_short(&self, form: &Form, short: i128, out: &mut TextBuffer) {
        match only_term(form) {
            Some(term) if term.coefficient == 1 || term.coefficient == -1 => {
                self.push_may_be(term, form, short, out)
            }
            _ => {
                push_excess(self.scene, form, short, out);
                out.push_str("\n");
            }
        }
    }

    /// The facts that come nearest to a form that they are short of by this much.
    fn push_nearest(&self, form: &Form, short: i128, out: &mut TextBuffer) {
        if let Some(nearest) = raised(self.means, form, short) {
            out.push_str("    nearest: ");
            self.push_used(&nearest, out);
            out.push_str("; ");
            self.push_short(form, short, out);
        }
        if short == 1 {
            self.push_all_rounded(form, out);
        }
    }

    /// Which of a form's registers are rounded, and what to do.
    fn push_all_rounded(&self, form: &Form, out: &mut TextBuffer) {
        for term in form.terms.as_slice() {
            push_rounded(self.scene, term.register, out);
        }
    }

    /// Why no facts come near to a form, and what to do.
    fn push_far(&self, form: &Form, out: &mut TextBuffer) {
        let mut is_any = false;
        for term in form.terms.as_slice() {
            if !is_bounded(self.facts, *term) {
                is_any = true;
                push_unbounded(self.scene, self.block, self.facts, *term, out);
            }
        }
        if is_any {
            return;
        }
        self.push_all_rounded(form, out);
        let start = if self.block.0 == 0 {
            "requires"
        } else {
            "keeps"
        };
        writeln!(
            out,
            "    no two of these facts add up to it: put `shows` lines before it that go by smaller steps, or a `{start}` line that says more"
        );
    }

    /// What of the facts comes nearest to a form that they do not show.
    fn push_shortfall(&self, form: &Form, out: &mut TextBuffer) {
        if number_of_registers(form) == 0 {
            out.push_str("    that is never so, whatever is known\n");
            return;
        }
        match shortfall(self.means, self.facts, form) {
            Some(short) => self.push_nearest(form, short, out),
            None => self.push_far(form, out),
        }
    }

    /// What a `shows` line before the place could say with which the form is shown there.
    pub(crate) fn step_to(&self, form: &Form) -> Option<Form> {
        let stated = first_facts(self.facts, self.stated);
        step_between(self.means, stated, self.facts, form)
    }

    /// What is to be shown at a line, what is known of it, and how near that comes.
    pub(crate) fn push_unshown(&self, form: &Form, out: &mut TextBuffer) {
        push_inequality(self.scene, form, out);
        out.push_str("\n");
        self.push_related(form, out);
        self.push_shortfall(form, out);
    }
}

/// What is short of 0 in a sum of numbers alone.
pub fn lack_of(means: &Means<'_>, sum: &Sum) -> Option<i128> {
    match means.form(sum) {
        Some(form) if number_of_registers(&form) == 0 => Some(0i128.saturating_sub(form.constant)),
        _ => None,
    }
}
