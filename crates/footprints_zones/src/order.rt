//! Whether the facts show that one end of a zone is at or before another (a comparison of affine expressions).

ghost use Rattle.std.specs.Prelude.{◌≡◌, ◌<◌, ◌^◌, ◌⊎◌, ◌*ℤ◌, pos, negsuc, List, IsTrue, IfOk, IfSome, Some, unsigned_abs};
ghost use Rattle.linear.specs.declared.form.Fact.{Fact};
ghost use Rattle.linear.specs.Forms.{AreSmall};
ghost use Rattle.linear.specs.Terms.{constant_form};
ghost use Rattle.program.specs.declared.instruction.Operand.TheVariants.{Number};
ghost use Rattle.ranges.specs.linear_shown.Tested.{is_shown};
ghost use Rattle.ranges.specs.ranges_owed.Inequalities.{operand_for, parts_of};
ghost use Rattle.ranges.specs.cfg.declared.structure.Move.{Move as MoveKind};
ghost use Rattle.ranges.specs.Sums.{with_operand, with_parts, start_of, sum_form, shows, shows_form};
ghost use Rattle.footprints_zones.specs.Zones.{between, shows_order};
ghost use Rattle.footprints_zones.specs.Levels.{IsSameTerm, IsLevel};

use linear::{Form, RegisterId, Side, Term, side_of};
use lists::{OutOfMemory, Seq};
use program::Operand;
use ranges::{Known, Move, OutOfEffort, Sum, Unanswered, operand_for, push_parts, shows_at};
use std::alloc::Global;

/// high - low, each with the operands of its own zone put in.
fn between(
    alloc: Global,
    for_high: &[Move],
    high: &Form,
    for_low: &[Move],
    low: &Form,
) -> Result<Sum, OutOfMemory>
    ensures { IfOk result (λ s. s ≡ between for_high.now high.now for_low.now low.now) }
{
    let high = side_of(high);
    let low = side_of(low);
    let mut parts = Vec::new(alloc);
    push_parts(&mut parts, for_high, 1, high.terms)?;
    push_parts(&mut parts, for_low, -1, low.terms)?;
    Ok(Sum {
        constant: high.constant - low.constant,
        parts: Seq::from_vec(parts),
    })
}

/// The number that the moves put in for a register, if they do.
fn number_for(moves: &[Move], register: RegisterId) -> Option<i64>
    ensures { IfSome result (λ number. operand_for moves.now register ≡ Number number) }
{
    match operand_for(moves, register) {
        Operand::Number(number) => Some(number),
        Operand::Register(_) => None,
    }
}

/// A number times a coefficient.
pub fn product(factor: i64, other: i64) -> i128
    requires { unsigned_abs factor < 2 ^ 24 }
    ensures value { result ≡ factor *ℤ other }
    ensures small { unsigned_abs result < 2 ^ 125 }
{
    i128::from(factor) * i128::from(other)
}

/// A number and a multiple of another, within the bounds of a form.
fn plus_product(number: i128, factor: i64, other: i64) -> Option<i128>
    requires number { unsigned_abs number < 2 ^ 100 }
    requires factor { unsigned_abs factor < 2 ^ 24 }
    ensures made { IfSome result (λ sum. with_operand (constant_form number) factor (Number other) ≡ Some (constant_form sum)) }
    ensures small { IfSome result (λ sum. unsigned_abs sum < 2 ^ 100) }
{
    let sum = product(factor, other) + number;
    if sum.unsigned_abs() < 1_267_650_600_228_229_401_496_703_205_376 {
        Some(sum)
    } else {
        None
    }
}

/// A coefficient, or its opposite.
fn signed(sign: i64, coefficient: i64) -> i64
    requires sign { (sign ≡ pos 1) ⊎ (sign ≡ negsuc 0) }
    requires coefficient { unsigned_abs coefficient < 2 ^ 24 }
    ensures value { result ≡ sign *ℤ coefficient }
    ensures small { unsigned_abs result < 2 ^ 24 }
{
    sign * coefficient
}

/// A number and some terms or their opposites, where numbers are put in for all their registers and the bounds of a form are kept.
fn plus_terms(number: i128, moves: &[Move], sign: i64, terms: &[Term]) -> Option<i128>
    requires number { unsigned_abs number < 2 ^ 100 }
    requires sign { (sign ≡ pos 1) ⊎ (sign ≡ negsuc 0) }
    requires small { AreSmall terms.now }
    ensures made { IfSome result
        (λ sum. with_parts (parts_of moves.now sign terms.now) (Some (constant_form number)) ≡ Some (constant_form sum)) }
    ensures small { IfSome result (λ sum. unsigned_abs sum < 2 ^ 100) }
{
    let mut sum = number;
    for term in terms {
        let other = number_for(moves, term.register)?;
        sum = plus_product(sum, signed(sign, term.coefficient), other)?;
    }
    Some(sum)
}

/// Whether two terms are of one register, with the operands put in, and have one coefficient.
fn is_same_term(for_high: &[Move], high: Term, for_low: &[Move], low: Term) -> bool
    ensures { IsTrue result → IsSameTerm for_high.now high for_low.now low }
{
    if high.coefficient != low.coefficient {
        return false;
    }
    match operand_for(for_high, high.register) {
        Operand::Register(left) => match operand_for(for_low, low.register) {
            Operand::Register(right) => left.0 == right.0,
            Operand::Number(_) => false,
        },
        Operand::Number(_) => false,
    }
}

/// Whether no register is left of high - low: there are no terms, or there is one at each end and these cancel.
fn is_level(for_high: &[Move], high: &[Term], for_low: &[Move], low: &[Term]) -> bool
    requires { AreSmall high.now }
    ensures { IsTrue result → IsLevel for_high.now high.now for_low.now low.now }
{
    match high {
        [] => low.is_empty(),
        [high] => match low {
            [low] => is_same_term(for_high, *high, for_low, *low),
            _ => false,
        },
        _ => false,
    }
}

/// high - low, where that is a number within the bounds of a form: it is not where a register is left.
fn number_between(for_high: &[Move], high: &Form, for_low: &[Move], low: &Form) -> Option<i128>
    ensures made { IfSome result (λ number. (facts : List Fact)
        → shows facts (between for_high.now high.now for_low.now low.now) ≡ is_shown facts (constant_form number)) }
    ensures small { IfSome result (λ number. unsigned_abs number < 2 ^ 100) }
{
    let high = side_of(high);
    let low = side_of(low);
    let start = high.constant - low.constant;
    if 1_267_650_600_228_229_401_496_703_205_376 <= start.unsigned_abs() {
        return None;
    }
    if is_level(for_high, high.terms, for_low, low.terms) {
        return Some(start);
    }
    let upper = plus_terms(start, for_high, 1, high.terms)?;
    plus_terms(upper, for_low, -1, low.terms)
}

/// Whether it is shown that a number is at least 0. Of a number below 0 only facts that contradict each other show it.
fn shows_number(alloc: Global, facts: &Known<'_>, number: i128) -> Result<bool, OutOfEffort>
    requires { unsigned_abs number < 2 ^ 100 }
    ensures { IfOk result (λ b. b ≡ is_shown facts.now (constant_form number)) }
{
    if 0 <= number {
        return Ok(true);
    }
    if facts.facts().is_empty() {
        return Ok(false);
    }
    facts.ask(&Form::from_constant(alloc, number))
}

/// Whether high >= low is shown, for all ends. Of a number no form is built.
#[inline(never)]
fn shows_between(
    alloc: Global,
    facts: &Known<'_>,
    for_high: &[Move],
    high: &Form,
    for_low: &[Move],
    low: &Form,
) -> Result<bool, Unanswered>
    ensures { IfOk result (λ b. b ≡ shows facts.now (between for_high.now high.now for_low.now low.now)) }
{
    match number_between(for_high, high, for_low, low) {
        Some(number) => Ok(shows_number(alloc, facts, number)?),
        None => {
            let sum = between(alloc, for_high, high, for_low, low)?;
            shows_at(alloc, facts, &sum)
        }
    }
}

/// high - low, where neither has a term.
#[inline(always)]
fn constant_between(high: &Form, low: &Form) -> Option<i128>
    ensures { IfSome result (λ number. (for_high for_low : List MoveKind)
        → sum_form (between for_high high.now for_low low.now) ≡ start_of number) }
{
    let high = side_of(high);
    let low = side_of(low);
    if high.terms.is_empty() && low.terms.is_empty() {
        Some(high.constant - low.constant)
    } else {
        None
    }
}

/// Whether it is shown that a number is at least 0, unless facts might contradict each other.
#[inline(always)]
fn shows_constant(facts: &Known<'_>, number: i128) -> Option<bool>
    ensures { IfSome result (λ b. b ≡ shows_form facts.now (start_of number)) }
{
    if 0 <= number {
        return Some(number.unsigned_abs() < 1_267_650_600_228_229_401_496_703_205_376);
    }
    if facts.facts().is_empty() {
        return Some(false);
    }
    None
}

/// Whether high >= low is shown. Most ends are numbers, which are compared where this is called.
#[inline(always)]
#[tactic(auto, unfolding(crate::specs::Zones::shows_order))]
pub fn shows_order(
    alloc: Global,
    facts: &Known<'_>,
    for_high: &[Move],
    high: &Form,
    for_low: &[Move],
    low: &Form,
) -> Result<bool, Unanswered>
    ensures { IfOk result (λ b. b ≡ shows_order facts.now for_high.now high.now for_low.now low.now) }
{
    if let Some(number) = constant_between(high, low) {
        if let Some(is_shown) = shows_constant(facts, number) {
            return Ok(is_shown);
        }
    }
    shows_between(alloc, facts, for_high, high, for_low, low)
}

/// A guess at how far along its object an end lies: what it comes to where each register is 1, with the numbers that are put in.
fn guessed(moves: &[Move], end: Side<'_>) -> i128
    requires { AreSmall end.terms.now }
{
    let mut sum = end.constant;
    for term in end.terms {
        let factor = number_for(moves, term.register).unwrap_or(1);
        sum = sum.saturating_add(product(term.coefficient, factor));
    }
    sum
}

/// Whether a high end may well lie at or before a low one, where a register stands in one of them. Nothing rests on it: the order that is likelier is
/// asked for first, as one that does not hold is sought among all facts.
#[inline(always)]
pub fn may_precede(for_high: &[Move], high: &Form, for_low: &[Move], low: &Form) -> bool {
    let high = side_of(high);
    let low = side_of(low);
    if high.terms.is_empty() && low.terms.is_empty() {
        return false;
    }
    guessed(for_high, high) <= guessed(for_low, low)
}
