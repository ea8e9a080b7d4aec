//! Lines that say no more than another one of their block (subsumed inequalities).

use explain_facts::Means;
use linear::Form;
use lists::{ListBuffer, OutOfMemory};
use program::{Block, Inequality};
use ranges::{difference_of, sum_form};
use std::alloc::Global;

/// What an inequality says is at least 0, with its line.
#[derive(Drop)]
pub struct Said {
    pub line: u32,
    form: Form,
}

fn form_of(alloc: Global, inequality: &Inequality) -> Result<Option<Form>, OutOfMemory> {
    sum_form(alloc, &difference_of(alloc, &[], inequality)?)
}

/// What the `keeps` lines of a block say.
pub fn said_of(means: &Means<'_>, block: &Block) -> Vec<Said> {
    let mut said = ListBuffer::new(means.alloc);
    for inequality in block.keeps.as_slice() {
        if let Some(form) = means.found(form_of(means.alloc, inequality)) {
            let line = inequality.line;
            said.push(Said { line, form });
        }
    }
    means.list(said)
}

fn is_number(form: &Form) -> bool {
    for term in form.terms.as_slice() {
        if term.coefficient != 0 {
            return false;
        }
    }
    true
}

/// Whether one line says no more than the other, and less or stands behind it.
fn is_plain_by(means: &Means<'_>, one: &Said, other: &Said) -> bool {
    if one.line == other.line {
        return false;
    }
    match means.within_bounds(one.form.difference(means.alloc, &other.form)) {
        Some(apart) if is_number(&apart) => {
            apart.constant > 0 || apart.constant == 0 && one.line > other.line
        }
        _ => false,
    }
}

/// Whether one of the lines says no more than another one.
pub fn is_plain(means: &Means<'_>, said: &[Said], one: &Said) -> bool {
    for other in said {
        if is_plain_by(means, one, other) {
            return true;
        }
    }
    false
}
