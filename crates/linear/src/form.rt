//! Linear forms (affine expressions) over registers, and facts: forms that are at least 0.

ghost use Rattle.linear.specs.Forms.{IsForm};
ghost use Rattle.linear.specs.Terms.{Combination};

use lists::Seq;
use std::marker::Model;

/// A register of a function, by its number. The parameters come first, in their order.
#[derive(Clone, Copy, PartialEq, Eq)]
pub struct RegisterId(pub usize);

/// A register times a number.
#[derive(Clone, Copy)]
pub struct Term {
    pub register: RegisterId,
    pub coefficient: i64,
}

/// A sum of registers times numbers, and a number.
///
/// The registers rise; a coefficient is below 2^24 and the constant below 2^100 in size, so that products of two forms' numbers are
/// exact in 128 bits. Contracts see the terms and the constant as a `Combination`.
#[derive(Drop)]
pub struct Form {
    pub terms: Seq<Term>,
    pub constant: i128,
}

impl Model for Form {
    ghost Value = { Combination };

    ghost view = { λ f. record { terms = f.terms; constant = f.constant } };

    ghost invariant = { λ f. IsForm (record { terms = f.terms; constant = f.constant }) };
}

/// A form that is at least 0.
#[derive(Drop)]
pub struct Fact {
    pub form: Form,
}
