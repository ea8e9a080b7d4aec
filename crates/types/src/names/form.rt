//! Forms of annotations, and what they may name.

ghost use Rattle.std.specs.Prelude.{◌≡◌, count_by};
ghost use Rattle.std.specs.List.{list_all};
ghost use Rattle.linear.specs.Lookup.{looked_up};
ghost use Rattle.types.specs.names.Fault.{all_of};
ghost use Rattle.types.specs.names.Told.{Gives};
ghost use Rattle.types.specs.names.Form as spec;

use crate::names::fault::{
    both, both_answers, form_limit, joined, told, type_mismatch, unknown_name, unless,
};
use crate::names::operand::resolve_register;
use crate::names::scope::{
    Named, Register, Scope, is_number, is_number_of, is_parameter, is_step_of,
};
use crate::names::{Refused, TypeFault};
use linear::{FormFault, coefficient};
use lists::{Name, Seq};
use program::{Form, Inequality, RegisterId, Term, Width};
use std::alloc::Global;
use syntax::Relation;

/// Where an annotation stands, which says what it may name.
#[derive(Clone, Copy)]
pub enum AnnotationPlace {
    /// At a function's head: parameters.
    Head,
    /// In `ensures`: parameters and the result, which is this register; a function that returns nothing has none.
    Guarantee(Option<RegisterId>),
    /// In `shows` and `foot`: registers of the function.
    Body,
    /// In `keeps`, `pending` and `left` of this block: registers that no instruction of the block defines.
    Start(usize),
}

/// The parameter of this name.
pub fn resolve_parameter(scope: &Scope, line: u32, name: &Name) -> Result<Register, TypeFault>
    ensures { result ≡ spec.parameter_of scope.now line name.now }
{
    match scope.find(name.as_bytes()) {
        None => Err(unknown_name(line)),
        Some(Named::Label(_)) => Err(unknown_name(line)),
        Some(Named::Register(register)) => {
            unless(is_parameter(register.origin), unknown_name(line))?;
            Ok(register)
        }
    }
}

fn parameter_term(scope: &Scope, line: u32, name: &Name) -> Result<RegisterId, TypeFault>
    ensures { result ≡ spec.parameter_term_of scope.now line name.now }
{
    let register = resolve_parameter(scope, line, name)?;
    let is_number = is_number_of(Width::Bits64, register.holding);
    unless(is_number, type_mismatch(line))?;
    Ok(register.id)
}

fn guarantee_term(
    scope: &Scope,
    line: u32,
    outcome: Option<RegisterId>,
    name: &Name,
) -> Result<RegisterId, TypeFault>
    ensures { result ≡ spec.guarantee_term_of scope.now line outcome name.now }
{
    if name.as_bytes() == b".ret".as_slice() {
        match outcome {
            None => Err(unknown_name(line)),
            Some(register) => Ok(register),
        }
    } else {
        parameter_term(scope, line, name)
    }
}

fn number_register(scope: &Scope, line: u32, name: &Name) -> Result<Register, TypeFault>
    ensures { result ≡ spec.number_of scope.now line name.now }
{
    let register = resolve_register(scope, line, name)?;
    unless(is_number(register.holding), type_mismatch(line))?;
    Ok(register)
}

/// The register was not made by an instruction of this block.
pub fn made_before(line: u32, block: usize, register: Register) -> Result<(), TypeFault>
    ensures { result ≡ spec.made_before line block register }
{
    unless(!is_step_of(block, register.origin), form_limit(line))
}

/// The register of a form's term.
fn resolve_term(
    scope: &Scope,
    place: AnnotationPlace,
    line: u32,
    name: &Name,
) -> Result<RegisterId, TypeFault>
    ensures { result ≡ spec.term_register_of scope.now place line name.now }
{
    match place {
        AnnotationPlace::Head => parameter_term(scope, line, name),
        AnnotationPlace::Guarantee(outcome) => guarantee_term(scope, line, outcome, name),
        AnnotationPlace::Body => {
            let register = number_register(scope, line, name)?;
            Ok(register.id)
        }
        AnnotationPlace::Start(block) => {
            let register = number_register(scope, line, name)?;
            made_before(line, block, register)?;
            Ok(register.id)
        }
    }
}

/// The greatest number of registers of a form in the text.
const MOST_TERMS: usize = 4;

/// The greatest size of a coefficient of a form in the text.
const GREATEST_COEFFICIENT: i64 = 1000000;

fn is_small_coefficient(coefficient: i64) -> bool
    ensures { result ≡ spec.is_small_coefficient coefficient }
{
    -GREATEST_COEFFICIENT <= coefficient && coefficient <= GREATEST_COEFFICIENT
}

fn term(
    scope: &Scope,
    place: AnnotationPlace,
    line: u32,
    term: &syntax::Term,
) -> Result<Term, TypeFault>
    ensures { result ≡ spec.term_of scope.now place line term.now }
{
    let coefficient = term.coefficient;
    let limits = unless(is_small_coefficient(coefficient), form_limit(line));
    let (register, ()) = both(resolve_term(scope, place, line, &term.register), limits)?;
    Ok(Term {
        register,
        coefficient,
    })
}

fn terms(
    alloc: Global,
    scope: &Scope,
    place: AnnotationPlace,
    line: u32,
    items: &[syntax::Term],
) -> Result<Seq<Term>, Refused>
    ensures { Gives result (all_of (λ _. spec.term_of scope.now place line) items.now) }
{
    let mut resolved = Ok(Seq::new(alloc));
    for item in items {
        resolved = joined(resolved, told(term(scope, place, line, item)));
    }
    resolved
}

/// The form with one more term: 206 past the bounds of a form.
fn with_one(line: u32, form: Form, term: Term) -> Result<Form, Refused>
    ensures { Gives result (spec.with_one line form term) }
{
    match form.plus_term(term.register, term.coefficient) {
        Ok(form) => Ok(form),
        Err(FormFault::Bounds) => told(Err(form_limit(line))),
        Err(FormFault::Memory) => Err(Refused::Memory),
    }
}

/// The form with these terms, put in the order of their registers.
fn make_form(alloc: Global, line: u32, terms: &[Term], constant: i64) -> Result<Form, Refused>
    ensures { Gives result (spec.ordered_form line terms.now constant) }
{
    let mut form = Form::from_constant(alloc, constant as i128);
    for term in terms {
        form = with_one(line, form, *term)?;
    }
    Ok(form)
}

/// The number of registers and the constant of a form keep their limits.
fn keeps_limits(form: &syntax::Form) -> bool
    ensures { result ≡ spec.keeps_limits form.now }
{
    form.terms.len() <= MOST_TERMS && -9223372036854775807 <= form.constant
}

/// `F`
pub fn resolve_form(
    alloc: Global,
    scope: &Scope,
    place: AnnotationPlace,
    line: u32,
    form: &syntax::Form,
) -> Result<Form, Refused>
    ensures { Gives result (spec.form_in_scope scope.now place line form.now) }
{
    let within = keeps_limits(form);
    let terms = terms(alloc, scope, place, line, form.terms.as_slice());
    let (terms, ()) = both_answers(terms, told(unless(within, form_limit(line))))?;
    make_form(alloc, line, terms.as_slice(), form.constant)
}

fn differs(coefficient: i64, other: i64) -> bool
    ensures { result ≡ spec.differs coefficient other }
{
    coefficient < other || other < coefficient
}

/// The term's coefficient is another one in the other form.
fn is_changed(others: &[Term], term: Term) -> bool
    ensures { result ≡ spec.is_changed others.now term }
{
    differs(term.coefficient, coefficient(others, term.register))
}

/// The term's register has no coefficient in the other form.
fn is_new(others: &[Term], term: Term) -> bool
    ensures { result ≡ spec.is_new others.now term }
{
    !differs(coefficient(others, term.register), 0)
}

fn changed_terms(terms: &[Term], others: &[Term]) -> usize
    ensures { result ≡ count_by (spec.is_changed others.now) terms.now }
{
    terms
        .iter()
        .filter(|term| is_changed(others, **term))
        .count()
}

fn new_terms(terms: &[Term], others: &[Term]) -> usize
    ensures { result ≡ count_by (spec.is_new others.now) terms.now }
{
    terms.iter().filter(|term| is_new(others, **term)).count()
}

fn is_close(coefficient: i64, other: i64) -> bool
    ensures { result ≡ spec.is_close coefficient other }
{
    let difference = coefficient as i128 - other as i128;
    -1000000 <= difference && difference <= 1000000
}

fn are_close(terms: &[Term], others: &[Term]) -> bool
    ensures { result ≡ list_all (λ term. spec.is_close term.coefficient (looked_up others.now term.register.0)) terms.now }
{
    terms.iter().all(|term| is_close(term.coefficient, coefficient(others, term.register)))
}

fn is_within_numbers(constant: i64, other: i64) -> bool
    ensures { result ≡ spec.is_within_numbers constant other }
{
    let difference = constant as i128 - other as i128;
    -9223372036854775807 <= difference && difference <= 9223372036854775807
}

/// The limits of a form hold for the terms of the difference of these two.
fn are_terms_within(left: &[Term], right: &[Term]) -> bool
    ensures { result ≡ spec.are_terms_within left.now right.now }
{
    let changed = changed_terms(left, right);
    let count = changed.saturating_add(new_terms(right, left));
    count <= MOST_TERMS && are_close(left, right)
}

/// The difference of both sides keeps the limits of a form.
#[tactic(auto, unfolding(crate::specs::names::Form::is_difference_within))]
fn is_difference_within(left: &[Term], constant: i64, right: &[Term], other: i64) -> bool
    ensures { result ≡ spec.is_difference_within left.now constant right.now other }
{
    are_terms_within(left, right) && is_within_numbers(constant, other)
}

fn inequality_between(line: u32, relation: Relation, left: Form, right: Form) -> Inequality
    ensures { result ≡ spec.inequality_between line relation left right }
{
    match relation {
        Relation::AtMost => Inequality {
            line,
            low: left,
            high: right,
        },
        Relation::AtLeast => Inequality {
            line,
            low: right,
            high: left,
        },
    }
}

fn limited_inequality(
    item: &syntax::Inequality,
    left: Form,
    right: Form,
) -> Result<Inequality, TypeFault>
    ensures { result ≡ spec.limited_inequality item.now left right }
{
    let within = is_difference_within(
        left.terms.as_slice(),
        item.left.constant,
        right.terms.as_slice(),
        item.right.constant,
    );
    unless(within, form_limit(item.line))?;
    Ok(inequality_between(item.line, item.relation, left, right))
}

/// `F R F`
pub fn resolve_inequality(
    alloc: Global,
    scope: &Scope,
    place: AnnotationPlace,
    item: &syntax::Inequality,
) -> Result<Inequality, Refused>
    ensures { Gives result (spec.inequality_of scope.now place item.now) }
{
    let left = resolve_form(alloc, scope, place, item.line, &item.left);
    let right = resolve_form(alloc, scope, place, item.line, &item.right);
    let (left, right) = both_answers(left, right)?;
    told(limited_inequality(item, left, right))
}

/// The lines of one kind, in their order.
pub fn resolve_inequalities(
    alloc: Global,
    scope: &Scope,
    place: AnnotationPlace,
    items: &[syntax::Inequality],
) -> Result<Seq<Inequality>, Refused>
    ensures { Gives result (spec.inequalities_of scope.now place items.now) }
{
    let mut resolved = Ok(Seq::new(alloc));
    for item in items {
        resolved = joined(resolved, resolve_inequality(alloc, scope, place, item));
    }
    resolved
}
