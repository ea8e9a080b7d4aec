//! Least and greatest numbers of single registers, by facts about them alone, and of sums by those (interval arithmetic).

use crate::search::is_factor;
use crate::sum::Sum;

/// The greatest number of a budget.
const MOST: i128 = 1_000_000_000_000;

/// How far a register with a coefficient of this sign may raise a sum each time that it stands there, by the facts about it alone: of those that have it with
/// the other sign, `coefficient * x + constant >= 0`, the closest.
fn limit_of(facts: &[Sum<'_>], name: &str, coefficient: i128) -> Option<i128> {
    let mut closest = None;
    for fact in facts {
        let of_fact = fact.coefficient(name);
        if fact.terms.len() == 1 && of_fact != 0 && (of_fact < 0) != (coefficient < 0) {
            let limit = fact.constant.checked_div_euclid(of_fact.saturating_abs());
            closest = lesser_of(closest, limit);
        }
    }
    closest
}

/// The greatest number that a sum may come to, by the bounds of its registers one by one; none where one has none.
pub fn greatest_apart(facts: &[Sum<'_>], sum: &Sum<'_>) -> Option<i128> {
    let mut most = sum.constant;
    for (name, coefficient) in &sum.terms {
        let Some(limit) = limit_of(facts, name, *coefficient) else {
            return None;
        };
        most = most.saturating_add(coefficient.saturating_abs().saturating_mul(limit));
    }
    Some(most)
}

/// The lesser of two bounds; the one that there is.
pub fn lesser_of(one: Option<i128>, other: Option<i128>) -> Option<i128> {
    match (one, other) {
        (Some(one), Some(other)) => Some(one.min(other)),
        (None, other) => other,
        (one, None) => one,
    }
}

/// The greatest number that a sum may come to, by the bounds of its registers, where the fact stands for one of them: of `3*%hi-3*%lo`, `%hi <= %lo+8` leaves 24.
fn greatest_by<'a>(facts: &[Sum<'_>], sum: &Sum<'a>, fact: &Sum<'a>) -> Option<i128> {
    let mut most = None;
    for (name, _coefficient) in &fact.terms {
        if let Some(rest) = sum.most_without(name, fact) {
            most = lesser_of(most, greatest_apart(facts, &rest));
        }
    }
    most
}

/// The greatest number that a sum may come to, by the bounds of its registers and one more fact.
pub fn greatest_number<'a>(facts: &[Sum<'a>], sum: &Sum<'a>) -> Option<i128> {
    let mut most = greatest_apart(facts, sum);
    for fact in facts {
        most = lesser_of(most, greatest_by(facts, sum, fact));
    }
    most
}

/// A number from 0 to the greatest one of a budget.
fn budget_of(most: Option<i128>) -> Option<u64> {
    match most {
        Some(most) if most <= MOST => u64::try_from(most).ok(),
        _ => None,
    }
}

/// The greatest number that a sum may come to, from 0 to that of a budget; none where there is none.
pub fn greatest<'a>(facts: &[Sum<'a>], sum: &Sum<'a>) -> Option<u64> {
    budget_of(greatest_number(facts, sum))
}

/// Whether a fact that takes a register out of a sum has a factor then by which it may show that.
fn may_show(sum: &Sum<'_>, fact: &Sum<'_>) -> bool {
    for (name, coefficient) in &fact.terms {
        let times = sum.coefficient(name);
        if times != 0 {
            let times = times.checked_div(*coefficient).unwrap_or(0);
            return is_factor(sum, times.saturating_abs());
        }
    }
    false
}

/// The greatest number that a sum may come to, from 0 to that of a budget, which two facts show; where no two show one, that of [`greatest`].
pub fn greatest_shown<'a>(facts: &[Sum<'a>], sum: &Sum<'a>) -> Option<u64> {
    let mut most = None;
    if sum.terms.len() <= 2 {
        most = greatest_apart(facts, sum);
    }
    for fact in facts {
        if fact.terms.len() == 2 && may_show(sum, fact) {
            most = lesser_of(most, greatest_by(facts, sum, fact));
        }
    }
    budget_of(most).or(greatest(facts, sum))
}
