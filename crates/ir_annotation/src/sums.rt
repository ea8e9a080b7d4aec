//! Terms of a form, and how they are added up: like terms joined, in the order of names.

ghost use Rattle.std.specs.Prelude.{◌≡◌, ◌≤◌, ◌<◌, ◌^◌, ℕ, ◌+ℤ◌, length, insert, slice_set, slice_index_or, unsigned_abs, IsTrue, OnOk, All};
ghost use Rattle.std.specs.List.{prefix_len};
ghost use Rattle.std.specs.Str.{bytes_eq};
ghost use Rattle.ir_annotation.specs.Forms.{nothing, added, is_before, is_at, with_more, signed, plus};
ghost use Rattle.ir_annotation.specs.declared.sums.SumTerm.{SumTerm};
ghost use Rattle.ir_annotation.specs.Bounds.{IsBelow, IsBounded, total_of};

use crate::limits::Limited;
use lists::Name;
use std::alloc::{AllocError, Global};
use std::cmp::Ordering;

/// A term with its sign: a number, or a number times a register.
#[derive(Drop)]
pub struct SignedTerm {
    pub register: Option<Name>,
    pub amount: i64,
}

/// A register and what it is multiplied by in a sum.
#[derive(Drop)]
pub struct SumTerm {
    pub register: Name,
    pub coefficient: i128,
}

/// A sum of terms: those of registers in the order of their names, and a constant.
#[derive(Drop)]
pub struct Sum {
    pub terms: Vec<SumTerm>,
    pub constant: i128,
    pub is_within_limits: bool,
}

/// A number with its sign.
pub fn signed(is_negative: bool, number: u64) -> i64
    requires { number < 2 ^ 63 }
    ensures value { result ≡ signed is_negative number }
    ensures small { unsigned_abs result < 2 ^ 63 }
{
    if is_negative {
        -(number as i64)
    } else {
        number as i64
    }
}

fn is_before(term: &SumTerm, name: &Name) -> bool
    ensures { result ≡ is_before name.now term.now }
{
    match term.register.as_bytes().cmp(&name.as_bytes()) {
        Ordering::Less => true,
        Ordering::Equal | Ordering::Greater => false,
    }
}

/// How many terms stand before a name's.
fn place_of(terms: &[SumTerm], name: &Name) -> usize
    ensures value { result ≡ prefix_len (is_before name.now) terms.now }
    ensures within { result ≤ length terms.now }
{
    terms.iter().take_while(|t| is_before(t, name)).count()
}

fn is_named(term: &SumTerm, name: &Name) -> bool
    ensures { result ≡ bytes_eq term.now.register name.now }
{
    term.register.as_bytes() == name.as_bytes()
}

fn is_at(terms: &[SumTerm], place: usize, name: &Name) -> bool
    ensures value { result ≡ is_at terms.now place name.now }
    ensures within { IsTrue result → place < length terms.now }
{
    match terms.get(place) {
        None => false,
        Some(term) => is_named(term, name),
    }
}

fn plus(sum: i128, amount: i64) -> i128
    requires sum { IsBelow sum }
    requires amount { unsigned_abs amount < 2 ^ 63 }
    ensures { result ≡ sum +ℤ amount }
{
    sum + i128::from(amount)
}

/// Adds to the coefficient of the term at a place.
fn raise(terms: &mut Vec<SumTerm>, place: usize, amount: i64)
    requires place { place < length terms.old.items }
    requires terms { All (λ t. IsBelow t.coefficient) terms.old.items }
    requires amount { unsigned_abs amount < 2 ^ 63 }
    ensures { (spare : SumTerm) → terms.new.items
        ≡ slice_set terms.old.items place (with_more amount (slice_index_or terms.old.items place spare)) }
{
    let coefficient = plus(terms[place].coefficient, amount);
    terms[place].coefficient = coefficient;
}

/// Puts the first multiple of a register at a place.
fn put(terms: &mut Vec<SumTerm>, place: usize, name: Name, amount: i64) -> Result<(), AllocError>
    requires { place ≤ length terms.old.items }
    ensures { OnOk result (terms.new.items ≡ insert terms.old.items place (record { register = name; coefficient = amount })) }
{
    let term = SumTerm {
        register: name,
        coefficient: i128::from(amount),
    };
    terms.insert(place, term)?;
    Ok(())
}

/// Adds a multiple of a register to terms in the order of their names.
fn add(terms: &mut Vec<SumTerm>, name: Name, amount: i64) -> Result<(), AllocError>
    requires terms { All (λ t. IsBelow t.coefficient) terms.old.items }
    requires amount { unsigned_abs amount < 2 ^ 63 }
    ensures { OnOk result (terms.new.items ≡ added terms.old.items name amount) }
{
    let place = place_of(terms.as_slice(), &name);
    if is_at(terms.as_slice(), place, &name) {
        raise(terms, place, amount);
        Ok(())
    } else {
        put(terms, place, name, amount)
    }
}

impl Sum {
    pub fn new(alloc: Global) -> Sum
        ensures { total_of result ≡ nothing }
    {
        Sum {
            terms: Vec::new(alloc),
            constant: 0,
            is_within_limits: true,
        }
    }

    pub fn add(&mut self, term: Limited<SignedTerm>) -> Result<(), AllocError>
        requires sum { IsBounded (total_of self.old) }
        requires amount { unsigned_abs term.value.amount < 2 ^ 63 }
        ensures { OnOk result (total_of self.new ≡ plus (total_of self.old) term) }
    {
        if !term.is_within_limits {
            self.is_within_limits = false;
        }
        let SignedTerm { register, amount } = term.value;
        match register {
            None => {
                self.constant = plus(self.constant, amount);
                Ok(())
            }
            Some(name) => add(&mut self.terms, name, amount),
        }
    }
}
