//! Ends of zones that come to a number and a multiple of one register: what they are at least and at most, so that two are compared by numbers.

ghost use Rattle.std.specs.Prelude.{◌≡◌, ◌<◌, ◌≤◌, ◌^◌, pos, ◌-ℤ◌, true, List, All, IsTrue, IfSome, unsigned_abs};
ghost use Rattle.linear.specs.declared.form.Fact.{Fact};
ghost use Rattle.linear.specs.Terms.{Combination};
ghost use Rattle.ranges.specs.cfg.declared.structure.Move.{Move as MoveKind};
ghost use Rattle.footprints_zones.specs.Zones.{shows_order};
ghost use Rattle.footprints_zones.specs.Ends.{AreBounds, AreOther, IsLeast, IsBetween, IsEnd};

use crate::bounds::{RegisterBounds, bounds_for, unbounded};
use crate::order::product;
use linear::{Form, RegisterId, side_of};
use program::Operand;
use ranges::{Move, operand_for};

/// An end at a place, with the operands put in: a number of times a register, and a constant. What it is at least and at most is known by facts
/// about the register alone.
#[derive(Clone, Copy)]
pub struct End {
    pub bounds: RegisterBounds,
    pub coefficient: i64,
    pub constant: i64,
    pub least: Option<i128>,
    pub most: Option<i128>,
}

/// What so many times a register is at least.
#[inline(always)]
fn least_multiple(bounds: &RegisterBounds, times: i64) -> Option<i128>
    ensures least { (facts : List Fact) → AreBounds facts bounds.now → IfSome result (IsLeast facts bounds.now.register times) }
    ensures small { IfSome result (λ least. unsigned_abs least ≤ 2 ^ 126) }
{
    if times == 0 {
        return Some(0);
    }
    let bound = if times > 0 { bounds.least } else { bounds.most };
    match bound {
        Some(number) => Some(i128::from(times) * i128::from(number)),
        None => None,
    }
}

/// So many times a register, and a constant.
fn end_at(bounds: RegisterBounds, coefficient: i64, constant: i64) -> End
    requires { unsigned_abs coefficient < 2 ^ 24 }
    ensures bounds { result.bounds ≡ bounds }
    ensures coefficient { result.coefficient ≡ coefficient }
    ensures constant { result.constant ≡ constant }
    ensures between { (facts : List Fact) → AreBounds facts bounds → IsBetween facts result }
{
    let offset = i128::from(constant);
    End {
        bounds,
        coefficient,
        constant,
        least: match least_multiple(&bounds, coefficient) {
            Some(least) => Some(least + offset),
            None => None,
        },
        most: match least_multiple(&bounds, 0 - coefficient) {
            Some(least) => Some(offset - least),
            None => None,
        },
    }
}

/// A number, where it is one that a register may have.
fn number_end(number: i128) -> Option<End>
    ensures constant { IfSome result (λ e. e.constant ≡ number) }
    ensures coefficient { IfSome result (λ e. e.coefficient ≡ pos 0) }
    ensures small { IfSome result (λ e. unsigned_abs e.constant < 2 ^ 64) }
    ensures between { (facts : List Fact) → IfSome result (IsBetween facts) }
{
    match i64::try_from(number) {
        Ok(constant) => Some(end_at(unbounded(RegisterId(0)), 0, constant)),
        Err(_) => None,
    }
}

/// An end with the operands put in; none where it has two terms and more, or greater numbers than registers have.
pub fn end_of(bounds: &[RegisterBounds], moves: &[Move], form: &Form) -> Option<End>
    ensures { (facts : List Fact) → All (AreBounds facts) bounds.now → IfSome result (IsEnd facts moves.now form.now) }
{
    let side = side_of(form);
    let constant = i64::try_from(side.constant).ok()?;
    match side.terms {
        [] => number_end(side.constant),
        [term] => match operand_for(moves, term.register) {
            Operand::Number(number) => number_end(
                product(term.coefficient, number) + side.constant,
            ),
            Operand::Register(register) => {
                let bounds = bounds_for(bounds, register);
                Some(end_at(bounds, term.coefficient, constant))
            }
        },
        _ => None,
    }
}

/// Whether a difference of two multiples of a register is at least a number.
#[inline(always)]
fn is_difference_at_least(high: &End, low: &End) -> bool
    ensures { (facts : List Fact) (for_high : List MoveKind) (high_form : Combination) (for_low : List MoveKind) (low_form : Combination)
        → IsEnd facts for_high high_form high.now → IsEnd facts for_low low_form low.now → high.now.bounds.register.0 ≡ low.now.bounds.register.0
        → IsTrue result → shows_order facts for_high high_form for_low low_form ≡ true }
{
    match high.coefficient.checked_sub(low.coefficient) {
        Some(times) => {
            if times.unsigned_abs() >= 16_777_216 {
                return false;
            }
            match least_multiple(&high.bounds, times) {
                Some(least) => { i128::from(low.constant) <= least + i128::from(high.constant) }
                None => false,
            }
        }
        None => false,
    }
}

/// Whether one end is at least what another is at most.
#[inline(always)]
fn is_past(high: &End, low: &End) -> bool
    ensures { (facts : List Fact) (for_high : List MoveKind) (high_form : Combination) (for_low : List MoveKind) (low_form : Combination)
        → IsEnd facts for_high high_form high.now → IsEnd facts for_low low_form low.now → AreOther high.now low.now
        → IsTrue result → shows_order facts for_high high_form for_low low_form ≡ true }
{
    match (high.least, low.most) {
        (Some(least), Some(most)) => most <= least,
        (Some(_), None) | (None, Some(_) | None) => false,
    }
}

/// Whether numbers alone say that one end lies at or after another.
#[inline(always)]
pub fn is_at_least(high: &End, low: &End) -> bool
    ensures { (facts : List Fact) (for_high : List MoveKind) (high_form : Combination) (for_low : List MoveKind) (low_form : Combination)
        → IsEnd facts for_high high_form high.now → IsEnd facts for_low low_form low.now
        → IsTrue result → shows_order facts for_high high_form for_low low_form ≡ true }
{
    if high.coefficient != 0
        && low.coefficient != 0
        && high.bounds.register.0 == low.bounds.register.0
    {
        is_difference_at_least(high, low)
    } else {
        is_past(high, low)
    }
}
