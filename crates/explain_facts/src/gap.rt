//! By how much facts fall short of a form, and which of them come nearest. All is asked as the verifier asks it, as long as the effort reaches.

ghost use Rattle.std.specs.Prelude.{◌≡◌, ◌++◌, IfOk};

use crate::means::Means;
use linear::{Fact, Form, RegisterId, Term};
use linear_shown::{FactCursor, Known, push_copies, shown};
use lists::OutOfMemory;
use std::alloc::Global;

/// The steps that it counts for to take a fact into an index or to copy it.
const STEPS_A_FACT: usize = 30;

/// Whether the facts show the form.
pub(crate) fn is_shown(means: &Means<'_>, facts: &[Fact], form: &Form) -> bool {
    if !means.spend(facts.len().saturating_mul(STEPS_A_FACT)) {
        return false;
    }
    let cursor = means.cursor(facts);
    means.shows(&cursor.known(), form)
}

/// The sizes of numbers that a form may be raised by: 2^125.
const TOO_MUCH: u128 = 42_535_295_865_117_307_932_921_825_928_971_026_432;

/// A form and so many more, unless it would pass the bounds of a form.
pub fn raised(means: &Means<'_>, form: &Form, amount: i128) -> Option<Form> {
    if amount.unsigned_abs() >= TOO_MUCH {
        return None;
    }
    means.within_bounds(means.copy(form).plus_constant(amount))
}

/// Whether it is known that a form and so many more are at least 0.
fn is_shown_with(means: &Means<'_>, known: &Known<'_>, form: &Form, amount: i128) -> bool {
    match raised(means, form, amount) {
        Some(form) => means.shows(known, &form),
        None => false,
    }
}

/// A power of 2 with which the form is shown.
fn amount_enough(means: &Means<'_>, known: &Known<'_>, form: &Form) -> Option<i128> {
    let mut amount: i128 = 1;
    for _step in 0..101 {
        if is_shown_with(means, known, form, amount) {
            return Some(amount);
        }
        amount = amount.saturating_mul(2);
    }
    None
}

/// The least amount with which the form is shown, where there is one; the form itself is not.
pub fn shortfall(means: &Means<'_>, facts: &[Fact], form: &Form) -> Option<i128> {
    if !means.spend(facts.len().saturating_mul(STEPS_A_FACT)) {
        return None;
    }
    let cursor = means.cursor(facts);
    let known = cursor.known();
    match amount_enough(means, &known, form) {
        Some(most) => Some(least_amount(means, &known, form, most)),
        None => None,
    }
}

/// The least amount with which the form is shown by what is known, where this one is enough.
fn least_amount(means: &Means<'_>, known: &Known<'_>, form: &Form, most: i128) -> i128 {
    let mut least = most;
    let mut step = most / 2;
    for _half in 0..101 {
        let trial = least.saturating_sub(step);
        if step > 0 && is_shown_with(means, known, form, trial) {
            least = trial;
        }
        step = step / 2;
    }
    least
}

/// The coefficient that a register has in a form.
pub fn coefficient(form: &Form, register: RegisterId) -> i64 {
    linear::coefficient(form.terms.as_slice(), register)
}

/// How many registers stand in a form and do not fall out of it.
pub(crate) fn number_of_registers(form: &Form) -> usize {
    let mut count: usize = 0;
    for term in form.terms.as_slice() {
        if term.coefficient != 0 {
            count = count.saturating_add(1);
        }
    }
    count
}

/// The term of a form of one register.
pub(crate) fn only_term(form: &Form) -> Option<Term> {
    let mut only = None;
    for term in form.terms.as_slice() {
        if term.coefficient != 0 {
            if only.is_some() {
                return None;
            }
            only = Some(*term);
        }
    }
    only
}

/// The first facts, so many of them.
pub(crate) fn first_facts(facts: &[Fact], count: usize) -> &[Fact] {
    facts.get(..count).unwrap_or(facts)
}

/// How many of the first facts are enough to show the form.
fn count_enough(means: &Means<'_>, facts: &[Fact], form: &Form) -> usize {
    let mut cursor = FactCursor::new(means.alloc, facts, means.effort);
    for count in 0..facts.len() {
        means.seek(&mut cursor, count);
        if means.shows(&cursor.known(), form) {
            return count;
        }
    }
    facts.len()
}

/// Adds that a form is at least 0.
fn push_form(means: &Means<'_>, facts: &mut Vec<Fact>, form: &Form) {
    let form = means.copy(form);
    means.push(facts, Fact { form });
}

/// Adds the fact at a place once more.
fn push_copy(means: &Means<'_>, copies: &mut Vec<Fact>, facts: &[Fact], place: usize) {
    if let Some(fact) = facts.get(place) {
        push_form(means, copies, &fact.form);
    }
}

/// Whether the facts at two places show the form.
fn is_shown_by(means: &Means<'_>, facts: &[Fact], left: usize, right: usize, form: &Form) -> bool {
    let mut pair: Vec<Fact> = Vec::new(means.alloc);
    push_copy(means, &mut pair, facts, left);
    push_copy(means, &mut pair, facts, right);
    shown(&pair, form)
}

/// The place of a fact that shows the form with the one at `last`; `last` itself where it needs no other.
fn partner(means: &Means<'_>, facts: &[Fact], last: usize, form: &Form) -> usize {
    if is_shown_by(means, facts, last, last, form) {
        return last;
    }
    for place in 0..last {
        if is_shown_by(means, facts, place, last, form) {
            return place;
        }
    }
    last
}

/// The places of the one or two facts that show the form; none where it needs no fact.
pub(crate) fn facts_used(means: &Means<'_>, facts: &[Fact], form: &Form) -> Option<(usize, usize)> {
    let Some(last) = count_enough(means, facts, form).checked_sub(1) else {
        return None;
    };
    if !means.spend(last.saturating_mul(STEPS_A_FACT)) {
        return None;
    }
    Some((partner(means, facts, last, form), last))
}

/// The facts, and others behind them.
pub(crate) fn facts_with(
    alloc: Global,
    facts: &[Fact],
    others: &[Fact],
) -> Result<Vec<Fact>, OutOfMemory>
    ensures { IfOk result (λ more. more.items ≡ facts.now ++ others.now) }
{
    let mut more: Vec<Fact> = Vec::new(alloc);
    push_copies(alloc, &mut more, facts)?;
    push_copies(alloc, &mut more, others)?;
    Ok(more)
}

/// Whether the facts show the form where one form more is at least 0.
fn is_shown_beside(means: &Means<'_>, facts: &[Fact], more: &Form, form: &Form) -> bool {
    let mut all: Vec<Fact> = Vec::new(means.alloc);
    means.noted(push_copies(means.alloc, &mut all, facts));
    push_form(means, &mut all, more);
    is_shown(means, &all, form)
}

/// Whether the facts show that a form is below 0: from the two all would follow.
pub fn is_against(means: &Means<'_>, facts: &[Fact], form: &Form) -> bool {
    is_shown_beside(means, facts, form, &Form::from_constant(means.alloc, -1))
}

/// A number from here on only keeps a form off the least values of a width: of i32 the least is about twice as far.
const FAR_ABOVE: i128 = 1_000_000_000;

/// A form, without its number where that is far above 0: what a reader would write.
fn plainer(means: &Means<'_>, form: Form) -> Form {
    if form.constant >= FAR_ABOVE {
        let below = 0i128.saturating_sub(form.constant);
        raised(means, &form, below).unwrap_or(form)
    } else {
        form
    }
}

/// How many registers a line may name.
const MOST_REGISTERS: usize = 4;

/// What the facts that are `stated` show and what makes all facts show the form: a line to write before it. Of several the first of those with the
/// fewest registers, 4 at most.
pub(crate) fn step_between(
    means: &Means<'_>,
    stated: &[Fact],
    facts: &[Fact],
    form: &Form,
) -> Option<Form> {
    let cursor = means.cursor(stated);
    let stated = cursor.known();
    let mut best: Option<Form> = None;
    let mut limit = MOST_REGISTERS.saturating_add(1);
    for fact in facts {
        if let Some(step) = step_by(means, &stated, facts, fact, form, limit) {
            limit = number_of_registers(&step);
            best = Some(step);
        }
    }
    best
}

/// The step that this fact leaves, if it has fewer registers than the limit and is one: without its number where that does, and with it only where that
/// is no bound of a width.
fn step_by(
    means: &Means<'_>,
    stated: &Known<'_>,
    facts: &[Fact],
    fact: &Fact,
    form: &Form,
    limit: usize,
) -> Option<Form> {
    let Some(rest) = means.within_bounds(form.difference(means.alloc, &fact.form)) else {
        return None;
    };
    if number_of_registers(&rest) >= limit {
        return None;
    }
    let step = plainer(means, rest);
    if means.shows(stated, &step) && is_shown_beside(means, facts, &step, form) {
        Some(step)
    } else {
        None
    }
}
