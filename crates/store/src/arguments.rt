//! Which `requires` of `main` a run's arguments do not meet: the test before each run (precondition).

ghost use Rattle.std.specs.Prelude.{◌≡◌, not, position, slice_get};
ghost use Rattle.std.specs.Option.{option_copied};
ghost use Rattle.semantics.specs.Written.{or_zero};
ghost use Rattle.store.specs.Requirements as spec;
ghost use Rattle.store.specs.Sums.{number_of};

use crate::sums::Sum;
use program::{Form, Function, FunctionId, Inequality, Program, RegisterId};

/// The function, where there is one.
fn function_at(program: &Program, function: FunctionId) -> Option<&Function>
    ensures { option_copied result ≡ slice_get program.now.functions function.0 }
{
    program.functions.as_slice().get(function.0)
}

/// What is no argument counts as 0; no requirement of an accepted module names one.
fn argument_at(arguments: &[i64], register: RegisterId) -> i64
    ensures { result ≡ or_zero (slice_get arguments.now register.0) }
{
    match arguments.get(register.0) {
        Some(argument) => *argument,
        None => 0,
    }
}

/// The form's value, where register i is argument i.
fn value(form: &Form, arguments: &[i64]) -> Sum
    ensures { number_of result ≡ spec.value_at arguments.now form.now }
{
    let mut sum = Sum::of(form.constant);
    for term in form.terms.as_slice() {
        sum = sum.plus_product(term.coefficient, argument_at(arguments, term.register));
    }
    sum
}

/// Whether the arguments meet the inequality.
fn is_met(inequality: &Inequality, arguments: &[i64]) -> bool
    ensures { result ≡ spec.is_met arguments.now inequality.now }
{
    value(&inequality.low, arguments).is_at_most(value(&inequality.high, arguments))
}

/// The first requirement that the arguments do not meet, from 0.
fn first_unmet(requirements: &[Inequality], arguments: &[i64]) -> Option<usize>
    ensures { result ≡ position (λ r. not (spec.is_met arguments.now r)) requirements.now }
{
    requirements
        .iter()
        .position(|inequality| !is_met(inequality, arguments))
}

/// 0 for a wrong number of arguments of `main`, else its first `requires` that they do not meet, counted from 1.
pub fn unmet_requirement(program: &Program, arguments: &[i64]) -> Option<usize>
    ensures { result ≡ spec.unmet_in program.now arguments.now }
{
    let Some(main) = function_at(program, program.main) else {
        return Some(0);
    };
    if main.parameters.len() != arguments.len() {
        return Some(0);
    }
    let requirements = main.requirements.as_slice();
    match first_unmet(requirements, arguments) {
        Some(unmet) => {
            if unmet < requirements.len() {
                Some(unmet + 1)
            } else {
                None
            }
        }
        None => None,
    }
}
