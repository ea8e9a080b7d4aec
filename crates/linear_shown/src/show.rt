//! Whether facts show a form: two of them with factors, and a constant, make it up; all pairs are tried.

ghost use Rattle.std.specs.Prelude.{◌≡◌, ◌<◌, ◌≤◌, ◌+◌, ◌^◌, ◌↔◌, ℕ, IsTrue, IfSome, All, length, slice_index, pos, ◌≤ℤ◌, ◌+ℤ◌, ◌*ℤ◌, unsigned_abs, ℤ};
ghost use Rattle.linear.specs.Forms.{AreSmall, IsRising, Holds};
ghost use Rattle.linear_shown.specs.Shown.{IsSum, IsShown, AllHold};
ghost use Rattle.linear_shown.specs.Tested.{is_shown};
ghost use Rattle.linear_shown.specs.Search.{Agrees, factors, side_at, IsLeft, has_some, IsFoundByB, IsFoundByA, IsFoundWith, IsFoundFrom, IsFound};

use linear::{Fact, Form, RegisterId, Side, Term, coefficient, side_of};

/// A coefficient times a factor.
pub fn scaled(factor: u32, coefficient: i64) -> i64
    requires factor { factor ≤ 2 ^ 24 }
    requires coefficient { unsigned_abs coefficient < 2 ^ 24 }
    ensures value { result ≡ pos factor *ℤ coefficient }
    ensures small { unsigned_abs result < 2 ^ 48 }
{
    i64::from(factor) * coefficient
}

/// A constant times a factor.
fn scaled_constant(factor: u32, constant: i128) -> i128
    requires factor { factor ≤ 2 ^ 24 }
    requires constant { unsigned_abs constant < 2 ^ 100 }
    ensures value { result ≡ pos factor *ℤ constant }
    ensures small { unsigned_abs result < 2 ^ 124 }
{
    i128::from(factor) * constant
}

/// Whether e and a * f + b * g have one coefficient at the register.
fn agrees_at(register: RegisterId, e: &[Term], a: u32, f: &[Term], b: u32, g: &[Term]) -> bool
    requires a { a ≤ 2 ^ 24 }
    requires b { b ≤ 2 ^ 24 }
    requires f { AreSmall f.now }
    requires g { AreSmall g.now }
    ensures { IsTrue result ↔ Agrees e.now a f.now b g.now register.0 }
{
    let of_f = scaled(a, coefficient(f, register));
    let of_g = scaled(b, coefficient(g, register));
    coefficient(e, register) == of_f + of_g
}

/// Whether a * f + b * g is at most e, for constants.
pub fn is_at_most(a: u32, f: i128, b: u32, g: i128, e: i128) -> bool
    requires a { a ≤ 2 ^ 24 }
    requires b { b ≤ 2 ^ 24 }
    requires f { unsigned_abs f < 2 ^ 100 }
    requires g { unsigned_abs g < 2 ^ 100 }
    ensures { IsTrue result ↔ (((pos a *ℤ f) +ℤ (pos b *ℤ g)) ≤ℤ e) }
{
    scaled_constant(a, f) + scaled_constant(b, g) <= e
}

/// Whether e and a * f + b * g agree at each register that some terms name.
fn agree_along(named: &[Term], e: &[Term], a: u32, f: &[Term], b: u32, g: &[Term]) -> bool
    requires a { a ≤ 2 ^ 24 }
    requires b { b ≤ 2 ^ 24 }
    requires f { AreSmall f.now }
    requires g { AreSmall g.now }
    ensures { IsTrue result ↔ All (λ t. Agrees e.now a f.now b g.now t.register.0) named.now }
{
    for term in named {
        if !agrees_at(term.register, e, a, f, b, g) {
            return false;
        }
    }
    true
}

/// Whether e and a * f + b * g agree at each register.
pub fn agree(e: &[Term], a: u32, f: &[Term], b: u32, g: &[Term]) -> bool
    requires a { a ≤ 2 ^ 24 }
    requires b { b ≤ 2 ^ 24 }
    requires f { AreSmall f.now }
    requires g { AreSmall g.now }
    ensures { IsTrue result ↔ ((r : ℕ) → Agrees e.now a f.now b g.now r) }
{
    agree_along(e, e, a, f, b, g) && agree_along(f, e, a, f, b, g) && agree_along(g, e, a, f, b, g)
}

/// What a fact may be multiplied by: 1, and then the coefficients' sizes.
pub fn factor(terms: &[Term], index: usize) -> u32
    requires index { index ≤ length terms.now }
    requires small { AreSmall terms.now }
    ensures value { result ≡ slice_index (factors terms.now) index }
    ensures small { result ≤ 2 ^ 24 }
{
    if index == 0 {
        return 1;
    }
    let size: u64 = terms[index - 1].coefficient.unsigned_abs();
    size as u32
}

/// An absent fact at 0, and then the facts, the newest first.
fn side_at(facts: &[Fact], index: usize) -> Side<'_>
    requires { index ≤ length facts.now }
    ensures terms { result.terms.now ≡ (side_at facts.now index).terms }
    ensures constant { result.constant ≡ (side_at facts.now index).constant }
    ensures rising { IsRising result.terms.now }
    ensures small { AreSmall result.terms.now }
    ensures small_constant { unsigned_abs result.constant < 2 ^ 100 }
{
    if index == 0 {
        return Side {
            terms: &[],
            constant: 0,
        };
    }
    side_of(&facts[facts.len() - index].form)
}

/// A register that some terms name, and of which a * f taken away from e leaves something.
fn left_along(named: &[Term], e: &[Term], a: u32, f: &[Term]) -> Option<RegisterId>
    requires a { a ≤ 2 ^ 24 }
    requires e { IsRising e.now }
    requires f { IsRising f.now }
    requires small { AreSmall f.now }
    ensures { IfSome result (IsLeft e.now a f.now) }
{
    for term in named {
        if !agrees_at(term.register, e, a, f, 0, &[]) {
            return Some(term.register);
        }
    }
    None
}

/// A register of which a * f taken away from e leaves something, if there is one.
pub fn left_over(e: &[Term], a: u32, f: &[Term]) -> Option<RegisterId>
    requires a { a ≤ 2 ^ 24 }
    requires e { IsRising e.now }
    requires f { IsRising f.now }
    requires small { AreSmall f.now }
    ensures { IfSome result (IsLeft e.now a f.now) }
{
    match left_along(f, e, a, f) {
        Some(register) => Some(register),
        None => left_along(e, e, a, f),
    }
}

/// Whether some of the register, if one is named, is among the terms.
pub fn has_some(terms: &[Term], register: Option<RegisterId>) -> bool
    requires { IsRising terms.now }
    ensures { result ≡ has_some terms.now register }
{
    match register {
        Some(register) => coefficient(terms, register) != 0,
        None => true,
    }
}

/// Whether the form is a times one side and b times another, and a constant that is not below 0.
fn adds_up(facts: &[Fact], form: &Form, first: usize, a: u32, second: usize, b: u32) -> bool
    requires first { first ≤ length facts.now }
    requires second { second ≤ length facts.now }
    requires a { a ≤ 2 ^ 24 }
    requires b { b ≤ 2 ^ 24 }
    ensures { IsTrue result ↔ IsSum form.now a (side_at facts.now first) b (side_at facts.now second) }
{
    let e = side_of(form);
    let f = side_at(facts, first);
    let g = side_at(facts, second);
    is_at_most(a, f.constant, b, g.constant, e.constant) && agree(e.terms, a, f.terms, b, g.terms)
}

fn shown_by_some_b(facts: &[Fact], form: &Form, first: usize, a: u32, second: usize) -> bool
    requires first { first ≤ length facts.now }
    requires second { second ≤ length facts.now }
    requires a { a ≤ 2 ^ 24 }
    ensures { IsTrue result ↔ IsFoundByB form.now a (side_at facts.now first) (side_at facts.now second) }
{
    let terms = side_of(form).terms;
    let count = terms.len() + 1;
    for index in 0..count {
        if adds_up(facts, form, first, a, second, factor(terms, index)) {
            return true;
        }
    }
    false
}

/// Whether the second side makes up what is left of the form. A side without the register that is named to be left cannot.
fn makes_up(
    facts: &[Fact],
    form: &Form,
    first: usize,
    a: u32,
    left: Option<RegisterId>,
    second: usize,
) -> bool
    requires first { first ≤ length facts.now }
    requires second { second ≤ length facts.now }
    requires a { a ≤ 2 ^ 24 }
    requires left { IfSome left (IsLeft form.now.terms a (side_at facts.now first).terms) }
    ensures { IsTrue result ↔ IsFoundByB form.now a (side_at facts.now first) (side_at facts.now second) }
{
    has_some(side_at(facts, second).terms, left) && shown_by_some_b(facts, form, first, a, second)
}

fn shown_by_a(facts: &[Fact], form: &Form, first: usize, a: u32) -> bool
    requires first { first ≤ length facts.now }
    requires a { a ≤ 2 ^ 24 }
    ensures { IsTrue result ↔ IsFoundByA facts.now form.now (side_at facts.now first) a }
{
    let e = side_of(form);
    let f = side_at(facts, first);
    let left = left_over(e.terms, a, f.terms);
    let count = facts.len() + 1;
    for second in 0..count {
        if makes_up(facts, form, first, a, left, second) {
            return true;
        }
    }
    false
}

fn shown_with(facts: &[Fact], form: &Form, first: usize) -> bool
    requires { first ≤ length facts.now }
    ensures { IsTrue result ↔ IsFoundWith facts.now form.now (side_at facts.now first) }
{
    let terms = side_of(form).terms;
    let count = terms.len() + 1;
    for index in 0..count {
        if shown_by_a(facts, form, first, factor(terms, index)) {
            return true;
        }
    }
    false
}

fn shown_from(facts: &[Fact], form: &Form, lead: Option<RegisterId>, first: usize) -> bool
    requires { first ≤ length facts.now }
    ensures { IsTrue result ↔ IsFoundFrom facts.now form.now lead (side_at facts.now first) }
{
    has_some(side_at(facts, first).terms, lead) && shown_with(facts, form, first)
}

fn found(facts: &[Fact], form: &Form, lead: Option<RegisterId>) -> bool
    ensures { IsTrue result ↔ IsFound facts.now form.now lead }
{
    let count = facts.len() + 1;
    for first in 0..count {
        if shown_from(facts, form, lead, first) {
            return true;
        }
    }
    false
}

/// Whether the facts show the form: it is a times one fact and b times another, of which either may be absent, and a constant that is
/// not below 0, for factors a and b that are 1 or the size of one of its coefficients.
pub fn shown(facts: &[Fact], form: &Form) -> bool
    ensures exact { IsTrue result ↔ IsShown facts.now form.now }
    ensures test { result ≡ is_shown facts.now form.now }
    // What is shown by true facts is true.
    ensures sound { IsTrue result → (v : ℕ → ℤ) → AllHold v facts.now → Holds v form.now }
{
    // One of the two facts has some of a register that the form has, so it may be the first.
    let e = side_of(form);
    let lead = left_over(e.terms, 1, &[]);
    found(facts, form, lead)
}
