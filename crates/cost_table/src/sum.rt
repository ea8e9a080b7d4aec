//! Whether facts show that what is left covers what is done, and what is left behind an edge (amortised cost).

ghost use Rattle.std.specs.Prelude.{◌≡◌, ℕ, ◌<◌, ◌+◌, ◌^◌, ◌-ℤ◌, pos, IfOk, unsigned_abs, []};
ghost use Rattle.ranges.specs.Sums.{shows};
ghost use Rattle.cost_table.specs.Rules.{left_behind, less_form, put_in, number_less};
ghost use Rattle.cost_table.specs.Tables.{as_u128};

use linear::{Fact, Form, side_of};
use lists::{OutOfMemory, Seq};
use ranges::{Known, Move, Sum, Unanswered, push_parts, shows, shows_at};
use std::alloc::Global;

/// With so much done nothing is left, whatever the forms are: their constants are below 2^100, and this is 2^104.
const TOO_MUCH: u128 = 20_282_409_603_651_670_423_947_251_286_016;

/// A constant, less what is done and two others.
fn constant_left(left: i128, done: u128, first: i128, second: i128) -> i128
    requires left { unsigned_abs left < 2 ^ 100 }
    requires done { done < 2 ^ 104 }
    requires first { unsigned_abs first < 2 ^ 100 }
    requires second { unsigned_abs second < 2 ^ 100 }
    ensures { result ≡ ((left -ℤ pos done) -ℤ first) -ℤ second }
{
    let taken = first + second;
    left - done as i128 - taken
}

/// A form with the moves' operands put in.
fn put_in(alloc: Global, moves: &[Move], form: &Form) -> Result<Sum, OutOfMemory>
    ensures { IfOk result (λ s. s ≡ put_in moves.now form.now) }
{
    let form = side_of(form);
    let mut parts = Vec::new(alloc);
    push_parts(&mut parts, moves, 1, form.terms)?;
    Ok(Sum {
        constant: form.constant,
        parts: Seq::from_vec(parts),
    })
}

/// A number less a form.
fn number_less(alloc: Global, number: u64, form: &Form) -> Result<Sum, OutOfMemory>
    ensures { IfOk result (λ s. s ≡ number_less number form.now) }
{
    let form = side_of(form);
    let mut parts = Vec::new(alloc);
    push_parts(&mut parts, &[], -1, form.terms)?;
    Ok(Sum {
        constant: i128::from(number) - form.constant,
        parts: Seq::from_vec(parts),
    })
}

/// Whether a form is shown to cover what is done.
pub fn covers_work(
    alloc: Global,
    facts: &[Fact],
    left: &Form,
    done: u128,
) -> Result<bool, OutOfMemory>
    ensures { IfOk result (λ b. (n : ℕ) → done ≡ as_u128 n → b ≡ shows facts.now (left_behind left.now n)) }
{
    let left = side_of(left);
    if done >= TOO_MUCH {
        return Ok(false);
    }
    let mut parts = Vec::new(alloc);
    push_parts(&mut parts, &[], 1, left.terms)?;
    let sum = Sum {
        constant: constant_left(left.constant, done, 0, 0),
        parts: Seq::from_vec(parts),
    };
    shows(alloc, facts, &sum)
}

/// Whether a form is shown to cover what is done, and another form with the moves' operands put in.
pub fn covers_next(
    alloc: Global,
    facts: &Known<'_>,
    left: &Form,
    done: u128,
    moves: &[Move],
    next: &Form,
) -> Result<bool, Unanswered>
    ensures { IfOk result (λ b. (n : ℕ) → done ≡ as_u128 n → b ≡ shows facts.now (less_form (left_behind left.now n) moves.now next.now)) }
{
    let left = side_of(left);
    let next = side_of(next);
    if done >= TOO_MUCH {
        return Ok(false);
    }
    let mut parts = Vec::new(alloc);
    push_parts(&mut parts, &[], 1, left.terms)?;
    push_parts(&mut parts, moves, -1, next.terms)?;
    let sum = Sum {
        constant: constant_left(left.constant, done, next.constant, 0),
        parts: Seq::from_vec(parts),
    };
    shows_at(alloc, facts, &sum)
}

/// Whether a form is shown to cover what is done, and two other forms.
pub fn covers_both(
    alloc: Global,
    facts: &[Fact],
    left: &Form,
    done: u128,
    first: &Form,
    second: &Form,
) -> Result<bool, OutOfMemory>
    ensures { IfOk result (λ b. (n : ℕ) → done ≡ as_u128 n → b ≡ shows facts.now (less_form (less_form (left_behind left.now n) [] first.now) [] second.now)) }
{
    let left = side_of(left);
    let first = side_of(first);
    let second = side_of(second);
    if done >= TOO_MUCH {
        return Ok(false);
    }
    let mut parts = Vec::new(alloc);
    push_parts(&mut parts, &[], 1, left.terms)?;
    push_parts(&mut parts, &[], -1, first.terms)?;
    push_parts(&mut parts, &[], -1, second.terms)?;
    let sum = Sum {
        constant: constant_left(left.constant, done, first.constant, second.constant),
        parts: Seq::from_vec(parts),
    };
    shows(alloc, facts, &sum)
}

/// Whether a form with the moves' operands put in is shown to be at least 0.
pub fn is_at_least_zero(
    alloc: Global,
    facts: &Known<'_>,
    moves: &[Move],
    form: &Form,
) -> Result<bool, Unanswered>
    ensures { IfOk result (λ b. b ≡ shows facts.now (put_in moves.now form.now)) }
{
    let sum = put_in(alloc, moves, form)?;
    shows_at(alloc, facts, &sum)
}

/// Whether a form is shown to be at most a number.
pub fn is_at_most(
    alloc: Global,
    facts: &[Fact],
    number: u64,
    form: &Form,
) -> Result<bool, OutOfMemory>
    ensures { IfOk result (λ b. b ≡ shows facts.now (number_less number form.now)) }
{
    let sum = number_less(alloc, number, form)?;
    shows(alloc, facts, &sum)
}
