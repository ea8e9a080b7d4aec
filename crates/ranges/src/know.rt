//! Adds a sum to the facts, and asks whether they show that a sum is at least 0 (entailment).

ghost use Rattle.std.specs.Prelude.{◌≡◌, ◌++◌, ◌∷◌, [], IfOk, OnOk};
ghost use Rattle.ranges.specs.Sums.{facts_of, shows, is_met};

use crate::form::sum_form;
use crate::unverified::Unanswered;
use linear::Fact;
use linear_shown::{FactList, Known, find_shown};
use lists::OutOfMemory;
use ranges_owed::{Obligation, Sum};
use std::alloc::Global;

/// Adds that a sum is at least 0; one past the bounds of a form says nothing.
pub fn push_fact(alloc: Global, facts: &mut FactList<'_>, sum: &Sum) -> Result<(), OutOfMemory>
    ensures { OnOk result (facts.new ≡ facts.old ++ facts_of (sum.now ∷ [])) }
{
    if let Some(form) = sum_form(alloc, sum)? {
        facts.push(Fact { form })?;
    }
    Ok(())
}

/// Adds that each sum is at least 0.
pub fn push_facts(alloc: Global, facts: &mut FactList<'_>, sums: &[Sum]) -> Result<(), OutOfMemory>
    ensures { OnOk result (facts.new ≡ facts.old ++ facts_of sums.now) }
{
    for sum in sums {
        push_fact(alloc, facts, sum)?;
    }
    Ok(())
}

/// Whether the facts show that a sum is at least 0.
pub fn shows(alloc: Global, facts: &[Fact], sum: &Sum) -> Result<bool, OutOfMemory>
    ensures { IfOk result (λ b. b ≡ shows facts.now sum.now) }
{
    match sum_form(alloc, sum)? {
        Some(form) => Ok(find_shown(alloc, facts, &form)?),
        None => Ok(false),
    }
}

/// Whether it is shown at a place that a sum is at least 0.
pub fn shows_at(alloc: Global, known: &Known<'_>, sum: &Sum) -> Result<bool, Unanswered>
    ensures { IfOk result (λ b. b ≡ shows known.now sum.now) }
{
    match sum_form(alloc, sum)? {
        Some(form) => Ok(known.ask(&form)?),
        None => Ok(false),
    }
}

/// Whether it is shown at a place that one of the choices is at least 0.
pub fn is_met_at(
    alloc: Global,
    known: &Known<'_>,
    obligation: &Obligation,
) -> Result<bool, Unanswered>
    ensures { IfOk result (λ b. b ≡ is_met known.now obligation.now) }
{
    let choices = obligation.choices.as_slice();
    for sum in choices {
        if shows_at(alloc, known, sum)? {
            return Ok(true);
        }
    }
    Ok(false)
}

/// Whether the facts show that one of the choices is at least 0.
pub fn is_met(alloc: Global, facts: &[Fact], obligation: &Obligation) -> Result<bool, OutOfMemory>
    ensures { IfOk result (λ b. b ≡ is_met facts.now obligation.now) }
{
    let choices = obligation.choices.as_slice();
    for sum in choices {
        if shows(alloc, facts, sum)? {
            return Ok(true);
        }
    }
    Ok(false)
}
