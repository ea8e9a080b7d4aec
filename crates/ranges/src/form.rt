//! From a sum of operands to a form over registers, unless a number of it passes the bounds of a form.

ghost use Rattle.std.specs.Prelude.{◌≡◌, ◌<◌, ◌^◌, ◌*ℤ◌, true, IfOk, IsErr, Ok, Err, Some, None, unsigned_abs};
ghost use Rattle.linear.specs.declared.fault.FormFault.TheVariants.{Bounds, Memory};
ghost use Rattle.linear.specs.Made.{is_bounded};
ghost use Rattle.ranges.specs.Sums.{with_operand, start_of, sum_form};

use linear::{Form, FormFault};
use lists::OutOfMemory;
use program::Operand;
use ranges_owed::{Part, Sum};
use std::alloc::Global;

/// Whether a factor is within the bounds of a coefficient.
fn is_bounded(factor: i64) -> bool
    ensures { result ≡ is_bounded factor }
{
    factor.unsigned_abs() < 16_777_216
}

/// A form that is made, or nothing where it would pass its bounds.
fn unless_bounds(made: Result<Form, FormFault>) -> Result<Option<Form>, OutOfMemory>
    ensures made { IfOk made (λ f. result ≡ Ok (Some f)) }
    ensures bounds { made ≡ Err Bounds → result ≡ Ok None }
    ensures memory { made ≡ Err Memory → IsErr result }
{
    match made {
        Ok(form) => Ok(Some(form)),
        Err(FormFault::Bounds) => Ok(None),
        Err(FormFault::Memory) => Err(OutOfMemory),
    }
}

/// A form with an operand times a number, unless a number of it would pass the bounds of a form.
fn with_operand(form: Form, part: Part) -> Result<Option<Form>, OutOfMemory>
    ensures { IfOk result (λ f. f ≡ with_operand form part.factor part.operand) }
{
    match part.operand {
        Operand::Register(register) => unless_bounds(form.plus_term(register, part.factor)),
        Operand::Number(number) => {
            if !is_bounded(part.factor) {
                return Ok(None);
            }
            unless_bounds(form.plus_constant(product(part.factor, number)))
        }
    }
}

/// A number times a factor within the bounds of a coefficient.
fn product(factor: i64, number: i64) -> i128
    requires { is_bounded factor ≡ true }
    ensures value { result ≡ factor *ℤ number }
    ensures small { unsigned_abs result < 2 ^ 125 }
{
    i128::from(factor) * i128::from(number)
}

/// The form of a constant, unless it would pass the bounds of a form.
fn start_of(alloc: Global, constant: i128) -> Option<Form>
    ensures { result ≡ start_of constant }
{
    if constant.unsigned_abs() < 1_267_650_600_228_229_401_496_703_205_376 {
        Some(Form::from_constant(alloc, constant))
    } else {
        None
    }
}

/// The form of a sum, unless a number of it would pass the bounds of a form.
pub fn sum_form(alloc: Global, sum: &Sum) -> Result<Option<Form>, OutOfMemory>
    ensures { IfOk result (λ f. f ≡ sum_form sum.now) }
{
    let parts = sum.parts.as_slice();
    let mut form = start_of(alloc, sum.constant);
    for part in parts {
        form = match form {
            Some(form) => with_operand(form, *part)?,
            None => return Ok(None),
        };
    }
    Ok(form)
}
