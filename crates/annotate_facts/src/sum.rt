//! Sums of registers, for reckoning (affine expressions): added, multiplied, substituted.

use crate::heap::Heap;
use lists::TextBuffer;
use syntax::{Form, Inequality, Operand, Relation};

/// Registers times numbers, and a number. A register stands in it once at most, and never 0 times; numbers past 128 bits stay at the last one.
pub struct Sum<'a> {
    heap: &'a Heap,
    pub terms: Vec<(&'a str, i128)>,
    pub constant: i128,
}

/// Written out, so that no crate above proves it anew.
impl Drop for Sum<'_> {
    fn drop(self) {
        let Sum {
            heap: _,
            terms: _,
            constant: _,
        } = self;
    }
}

/// The most registers of a form, and the greatest size of its coefficients and of its constant.
const MOST_TERMS: usize = 4;

const MOST_COEFFICIENT: i128 = 1_000_000;

const MOST_CONSTANT: i128 = 9_223_372_036_854_775_807;

impl<'a> Sum<'a> {
    pub fn number(heap: &'a Heap, constant: i128) -> Sum<'a> {
        Sum {
            heap,
            terms: heap.list(),
            constant,
        }
    }

    /// So many times a register.
    pub fn of_register(heap: &'a Heap, name: &'a str, times: i128) -> Sum<'a> {
        let mut sum = Sum::number(heap, 0);
        sum.add_term(name, times);
        sum
    }

    /// So many times an operand.
    pub fn of_operand(heap: &'a Heap, operand: &'a Operand, times: i128) -> Sum<'a> {
        let mut sum = Sum::number(heap, 0);
        sum.add_operand(operand, times);
        sum
    }

    pub fn of_form(heap: &'a Heap, form: &'a Form) -> Sum<'a> {
        let mut sum = Sum::number(heap, 0);
        sum.add_form(form, 1);
        sum
    }

    /// What an inequality says is at least 0.
    pub fn of_inequality(heap: &'a Heap, inequality: &'a Inequality) -> Sum<'a> {
        let (greater, lesser) = match inequality.relation {
            Relation::AtMost => (&inequality.right, &inequality.left),
            Relation::AtLeast => (&inequality.left, &inequality.right),
        };
        let mut sum = Sum::number(heap, 0);
        sum.add_form(greater, 1);
        sum.add_form(lesser, -1);
        sum
    }

    pub fn add_number(&mut self, number: i128) {
        self.constant = self.constant.saturating_add(number);
    }

    /// Where the register stands among the terms; behind them all where it does not.
    fn place_of(&self, name: &str) -> usize {
        for (place, term) in self.terms.iter().enumerate() {
            if term.0 == name {
                return place;
            }
        }
        self.terms.len()
    }

    pub fn add_term(&mut self, name: &'a str, coefficient: i128) {
        let place = self.place_of(name);
        if place < self.terms.len() {
            let both = self.terms[place].1.saturating_add(coefficient);
            if both == 0 {
                self.terms.remove(place);
            } else {
                self.terms[place].1 = both;
            }
        } else if coefficient != 0 {
            self.heap.push(&mut self.terms, (name, coefficient));
        }
    }

    /// Adds another sum so many times.
    pub fn add(&mut self, other: &Sum<'a>, times: i128) {
        self.add_number(other.constant.saturating_mul(times));
        for (name, coefficient) in &other.terms {
            self.add_term(name, coefficient.saturating_mul(times));
        }
    }

    /// Adds a form so many times.
    pub fn add_form(&mut self, form: &'a Form, times: i128) {
        self.add_number(i128::from(form.constant).saturating_mul(times));
        for term in form.terms.as_slice() {
            let coefficient = i128::from(term.coefficient).saturating_mul(times);
            self.add_term(term.register.as_str(), coefficient);
        }
    }

    /// Adds an operand so many times.
    pub fn add_operand(&mut self, operand: &'a Operand, times: i128) {
        match operand {
            Operand::Number(number) => {
                self.add_number(i128::from(*number).saturating_mul(times));
            }
            Operand::Register(name) => self.add_term(name.as_str(), times),
        }
    }

    /// So many times the sum.
    pub fn times(&self, times: i128) -> Sum<'a> {
        let mut sum = Sum::number(self.heap, 0);
        sum.add(self, times);
        sum
    }

    pub fn copy(&self) -> Sum<'a> {
        self.times(1)
    }

    /// The sum and a number.
    pub fn raised(&self, number: i128) -> Sum<'a> {
        let mut sum = self.times(1);
        sum.add_number(number);
        sum
    }

    /// The number less the sum.
    pub fn below(&self, number: i128) -> Sum<'a> {
        let mut sum = self.times(-1);
        sum.add_number(number);
        sum
    }

    /// The sum and so many times another one.
    pub fn with(&self, other: &Sum<'a>, times: i128) -> Sum<'a> {
        let mut sum = self.times(1);
        sum.add(other, times);
        sum
    }

    pub fn coefficient(&self, name: &str) -> i128 {
        for term in &self.terms {
            if term.0 == name {
                return term.1;
            }
        }
        0
    }

    /// Whether the register stands in the sum.
    pub fn has(&self, name: &str) -> bool {
        self.coefficient(name) != 0
    }

    /// The first term.
    pub fn first(&self) -> Option<(&'a str, i128)> {
        self.terms.first().copied()
    }

    /// The number that the sum is; none where a register stands in it.
    pub fn as_number(&self) -> Option<i128> {
        if self.terms.is_empty() {
            Some(self.constant)
        } else {
            None
        }
    }

    /// How much the number that the sum is lacks to be at least 0.
    pub fn lack(&self) -> Option<i128> {
        match self.as_number() {
            Some(number) => Some(number.saturating_neg().max(0)),
            None => None,
        }
    }

    /// By how much the sum is more than another one with the same registers as often; none where the other has others.
    pub fn apart_from(&self, other: &Sum<'a>) -> Option<i128> {
        if self.terms.len() != other.terms.len() {
            return None;
        }
        for (name, coefficient) in &other.terms {
            if self.coefficient(name) != *coefficient {
                return None;
            }
        }
        Some(self.constant.saturating_sub(other.constant))
    }

    /// The sum with the fact added as often as takes this register out of it, so no less than the sum; none where the fact has the register with the same sign
    /// or does not divide it.
    pub fn most_without(&self, name: &str, fact: &Sum<'a>) -> Option<Sum<'a>> {
        let times = self.coefficient(name).checked_div(fact.coefficient(name));
        let times = times.unwrap_or(0).saturating_neg();
        if times <= 0 {
            return None;
        }
        let most = self.with(fact, times);
        if most.has(name) { None } else { Some(most) }
    }

    /// Takes the register out; how often it stood in the sum.
    fn take_out(&mut self, name: &str) -> i128 {
        let place = self.place_of(name);
        if place < self.terms.len() {
            let (_name, times) = self.terms.remove(place);
            times
        } else {
            0
        }
    }

    /// The part of the sum whose registers another one has not.
    pub fn beside(&self, other: &Sum<'a>) -> Sum<'a> {
        let mut part = self.copy();
        for (name, _coefficient) in &other.terms {
            part.take_out(name);
        }
        part
    }

    /// Takes the register out, and another sum in its place.
    pub fn put(&mut self, name: &str, value: &Sum<'a>) {
        let times = self.take_out(name);
        self.add(value, times);
    }

    /// The sum with another register in the place of this one.
    pub fn renamed(&self, name: &str, other: &'a str) -> Sum<'a> {
        let mut sum = self.copy();
        let times = sum.take_out(name);
        sum.add_term(other, times);
        sum
    }

    /// Whether a form may name as many registers, with coefficients as great.
    pub fn has_form_terms(&self) -> bool {
        for term in &self.terms {
            if !is_within(term.1, MOST_COEFFICIENT) {
                return false;
            }
        }
        self.terms.len() <= MOST_TERMS
    }

    /// Whether a form may be as long and have numbers as great.
    pub fn is_form(&self) -> bool {
        self.has_form_terms() && is_within(self.constant, MOST_CONSTANT)
    }

    /// The terms in the order of their names.
    pub fn sorted(&self) -> Vec<(&'a str, i128)> {
        let mut terms = self.heap.list();
        self.heap
            .kept(terms.extend_from_slice(self.terms.as_slice()));
        self.heap.kept(terms.sort());
        terms
    }

    /// Adds the form's canonical spelling.
    pub fn spell(&self, out: &mut TextBuffer) {
        let mut is_first = true;
        for (name, coefficient) in &self.sorted() {
            spell_number(out, is_first, *coefficient, "*");
            out.push_str("%");
            out.push_str(name);
            is_first = false;
        }
        if is_first || self.constant != 0 {
            spell_number(out, is_first, self.constant, "");
        }
    }

    /// So many times what stands in the sum with the sign of that number.
    fn side(&self, sign: i128) -> Sum<'a> {
        let mut side = Sum::number(self.heap, self.constant.saturating_mul(sign).max(0));
        for (name, coefficient) in &self.terms {
            side.add_term(name, coefficient.saturating_mul(sign).max(0));
        }
        side
    }

    /// Adds that the sum is at least 0: what has a minus on the lesser side, the rest on the other; what has registers stands first.
    pub fn spell_inequality(&self, out: &mut TextBuffer) {
        let greater = self.side(1);
        let lesser = self.side(-1);
        if lesser.terms.is_empty() {
            spell_both(out, &greater, " >= ", &lesser)
        } else {
            spell_both(out, &lesser, " <= ", &greater)
        }
    }
}

fn spell_both(out: &mut TextBuffer, left: &Sum<'_>, relation: &str, right: &Sum<'_>) {
    left.spell(out);
    out.push_str(relation);
    right.spell(out)
}

fn is_within(number: i128, most: i128) -> bool {
    number <= most && 0i128.saturating_sub(most) <= number
}

/// A number, with a sign before it unless it is the first and has no minus; how often a register stands in the sum is followed by a sign too, and left out
/// where it is once.
fn spell_number(out: &mut TextBuffer, is_first: bool, number: i128, times: &str) {
    if number < 0 {
        out.push_str("-");
    } else if !is_first {
        out.push_str("+");
    }
    let size = number.unsigned_abs();
    if size != 1 || times.is_empty() {
        write!(out, "{size}{times}");
    }
}
