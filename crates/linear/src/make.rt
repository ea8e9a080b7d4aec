//! How forms are made: terms, constants and multiples added, differences (arithmetic on affine expressions).

ghost use Rattle.std.specs.Prelude.{◌≡◌, ℕ, ◌<◌, ◌≤◌, ◌^◌, ◌+ℤ◌, ◌∷◌, length, unsigned_abs, pos, negsuc, ◌*ℤ◌, OnOk, IfOk, IfSome, IfNone, Err, Some, None};
ghost use Rattle.std.specs.List.{prefix_len};
ghost use Rattle.linear.specs.Forms.{IsRising, AreSmall, Same, plus, scaled, minus};
ghost use Rattle.linear.specs.Terms.{coefficient_of, constant_form};
ghost use Rattle.linear.specs.Made.{is_below, coefficient_at, placed, with_term, with_constant};
ghost use Rattle.linear.specs.Bounded.{IsTermAdded, term_form, IsBounded};
ghost use Rattle.linear.specs.declared.fault.FormFault.TheVariants.{Bounds};

use crate::fault::FormFault;
use crate::form::{Form, RegisterId, Term};
use crate::side::side_of;
use lists::Seq;
use std::alloc::{AllocError, Global};

/// How many terms stand before a register's.
fn place_of(terms: &[Term], register: RegisterId) -> usize
    ensures value { result ≡ prefix_len (is_below register.0) terms.now }
    ensures within { result ≤ length terms.now }
{
    terms
        .iter()
        .take_while(|t| t.register.0 < register.0)
        .count()
}

fn coefficient_at(terms: &[Term], place: usize, register: RegisterId) -> Option<i64>
    ensures { result ≡ coefficient_at terms.now place register.0 }
{
    match terms.get(place) {
        None => None,
        Some(term) => {
            if term.register.0 == register.0 {
                Some(term.coefficient)
            } else {
                None
            }
        }
    }
}

/// The sum of a coefficient and a number, where it is within the bounds of a coefficient.
fn bounded_sum(coefficient: i64, amount: i64) -> Option<i64>
    requires { unsigned_abs coefficient < 2 ^ 24 }
    ensures sum { IfSome result (λ sum. sum ≡ coefficient +ℤ amount) }
    ensures small { IfSome result (λ sum. unsigned_abs sum < 2 ^ 24) }
    ensures none { IfNone result (2 ^ 24 ≤ unsigned_abs (coefficient +ℤ amount)) }
{
    let sum = i128::from(coefficient) + i128::from(amount);
    if -16_777_215 <= sum && sum <= 16_777_215 {
        Some(sum as i64)
    } else {
        None
    }
}

/// The greatest size of a constant: 2^100 - 1.
const CONSTANT_MOST: i128 = 1_267_650_600_228_229_401_496_703_205_375;

fn product(factor: i64, coefficient: i64) -> i64
    requires factor { unsigned_abs factor < 2 ^ 24 }
    requires coefficient { unsigned_abs coefficient < 2 ^ 24 }
    ensures { result ≡ factor *ℤ coefficient }
{
    factor * coefficient
}

fn constant_product(factor: i64, constant: i128) -> i128
    requires factor { unsigned_abs factor < 2 ^ 24 }
    requires constant { unsigned_abs constant < 2 ^ 100 }
    ensures value { result ≡ factor *ℤ constant }
    ensures small { unsigned_abs result < 2 ^ 125 }
{
    i128::from(factor) * constant
}

/// Adds a register times a number to terms whose registers rise.
fn add_term(terms: &mut Vec<Term>, register: RegisterId, amount: i64) -> Result<(), FormFault>
    requires rising { IsRising terms.old.items }
    requires small { AreSmall terms.old.items }
    ensures placed { OnOk result (placed terms.old.items register amount ≡ Some terms.new.items) }
    ensures refused { result ≡ Err Bounds → placed terms.old.items register amount ≡ None }
    ensures ok { OnOk result (IsTermAdded (record { register = register; coefficient = amount }) terms.old.items terms.new.items) }
    ensures bounds { result ≡ Err Bounds
        → 2 ^ 24 ≤ unsigned_abs
        (coefficient_of (record { register = register; coefficient = amount } ∷ terms.old.items) register.0) }
{
    let place = place_of(terms.as_slice(), register);
    match coefficient_at(terms.as_slice(), place, register) {
        None => match bounded_sum(0, amount) {
            None => Err(FormFault::Bounds),
            Some(coefficient) => {
                let term = Term {
                    register,
                    coefficient,
                };
                terms.insert(place, term)?;
                Ok(())
            }
        },
        Some(coefficient) => match bounded_sum(coefficient, amount) {
            None => Err(FormFault::Bounds),
            Some(coefficient) => {
                terms[place] = Term {
                    register,
                    coefficient,
                };
                Ok(())
            }
        },
    }
}

impl Form {
    /// A number.
    pub fn from_constant(alloc: Global, constant: i128) -> Form
        requires { unsigned_abs constant < 2 ^ 100 }
        ensures { result ≡ constant_form constant }
    {
        Form {
            terms: Seq::new(alloc),
            constant,
        }
    }

    /// A copy of the form.
    pub fn copy(&self, alloc: Global) -> Result<Form, AllocError>
        ensures { IfOk result (λ f. f ≡ self.now) }
    {
        let terms = Vec::from_slice(alloc, self.terms.as_slice())?;
        Ok(Form {
            terms: Seq::from_vec(terms),
            constant: self.constant,
        })
    }

    /// The sum with a register times a number.
    pub fn plus_term(self, register: RegisterId, coefficient: i64) -> Result<Form, FormFault>
        ensures placed { IfOk result (λ f. with_term self register coefficient ≡ Some f) }
        ensures refused { result ≡ Err Bounds → with_term self register coefficient ≡ None }
        ensures ok { IfOk result (λ f. Same f (plus (term_form register coefficient) self)) }
        ensures bounds { result ≡ Err Bounds → 2 ^ 24 ≤ unsigned_abs (coefficient +ℤ coefficient_of self.terms register.0) }
    {
        let Form { terms, constant } = self;
        let mut terms = terms.into_vec();
        add_term(&mut terms, register, coefficient)?;
        Ok(Form {
            terms: Seq::from_vec(terms),
            constant,
        })
    }

    /// The sum with a number.
    pub fn plus_constant(self, constant: i128) -> Result<Form, FormFault>
        requires { unsigned_abs constant < 2 ^ 125 }
        ensures exact { IfOk result (λ f. with_constant self constant ≡ Some f) }
        ensures refused { result ≡ Err Bounds → with_constant self constant ≡ None }
        ensures ok { IfOk result (λ f. Same f (plus (constant_form constant) self)) }
        ensures bounds { result ≡ Err Bounds → 2 ^ 100 ≤ unsigned_abs (constant +ℤ self.constant) }
    {
        let Form {
            terms,
            constant: old,
        } = self;
        let sum = constant + old;
        if -CONSTANT_MOST <= sum && sum <= CONSTANT_MOST {
            Ok(Form {
                terms,
                constant: sum,
            })
        } else {
            Err(FormFault::Bounds)
        }
    }

    /// The sum with another form times a number.
    pub fn plus_multiple(self, factor: i64, other: &Form) -> Result<Form, FormFault>
        requires { unsigned_abs factor < 2 ^ 24 }
        ensures ok { IfOk result (λ f. Same f (plus self (scaled factor other.now))) }
        ensures bounds { result ≡ Err Bounds → IsBounded (plus self (scaled factor other.now)) → ⊥ }
    {
        let side = side_of(other);
        let mut sum = self;
        for term in side.terms {
            sum = sum.plus_term(term.register, product(factor, term.coefficient))?;
        }
        sum.plus_constant(constant_product(factor, side.constant))
    }

    /// The difference of two forms.
    pub fn difference(&self, alloc: Global, other: &Form) -> Result<Form, FormFault>
        ensures ok { IfOk result (λ f. Same f (minus self.now other.now)) }
        ensures bounds { result ≡ Err Bounds → IsBounded (minus self.now other.now) → ⊥ }
    {
        self.copy(alloc)?.plus_multiple(-1, other)
    }
}
