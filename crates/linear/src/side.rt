//! The terms and the constant of a form, lent to who compares two forms.

ghost use Rattle.std.specs.Prelude.{◌≡◌, ◌<◌, ◌^◌, unsigned_abs};
ghost use Rattle.linear.specs.Forms.{AreSmall, IsRising};
ghost use Rattle.linear.specs.Lookup.{looked_up};

use crate::form::{Form, RegisterId, Term};

/// The terms and the constant of a form.
#[derive(Clone, Copy)]
pub struct Side<'a> {
    pub terms: &'a [Term],
    pub constant: i128,
}

/// A form's terms, which rise, and its constant, within their bounds.
pub fn side_of(form: &Form) -> Side<'_>
    ensures terms { result.terms.now ≡ form.now.terms }
    ensures constant { result.constant ≡ form.now.constant }
    ensures rising { IsRising result.terms.now }
    ensures small { AreSmall result.terms.now }
    ensures small_constant { unsigned_abs result.constant < 2 ^ 100 }
{
    Side {
        terms: form.terms.as_slice(),
        constant: form.constant,
    }
}

/// The coefficient of a register, 0 where the terms have none.
pub fn coefficient(terms: &[Term], register: RegisterId) -> i64
    ensures value { result ≡ looked_up terms.now register.0 }
    ensures small { AreSmall terms.now → unsigned_abs result < 2 ^ 24 }
{
    for term in terms {
        if term.register.0 == register.0 {
            return term.coefficient;
        }
    }
    0
}
