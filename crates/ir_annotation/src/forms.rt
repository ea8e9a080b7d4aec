//! A form of an annotation (affine expression), read from its word.

ghost use Rattle.std.specs.Prelude.{◌≡◌, ◌≤◌, ◌<◌, ◌^◌, ◌∷◌, ◌++◌, List, length, take, drop, unsigned_abs, IfOk, OnOk, IfErr, IfSome, IfNone, [], All, ◌&&◌};
ghost use Rattle.std.specs.List.{prefix_len, list_all, filter_map};
ghost use Rattle.ir_annotation.specs.Answers.{Gives};
ghost use Rattle.ir_annotation.specs.Limits.{narrowed};
ghost use Rattle.ir_annotation.specs.Bounds.{total_of, is_no_sign, BeginsWithSign};
ghost use Rattle.ir_annotation.specs.Forms.{is_no_star, term_behind, term_by_number, term_of, kept, is_narrow, form_from, form_of, nothing};
ghost use Rattle.ir_annotation.specs.Forms.{all_added, signed_texts};
ghost use Rattle.ir_annotation.specs.Words.{number_of};

use crate::limits::{FORM_MOST, Limited, narrowed};
use crate::sums::{SignedTerm, Sum, SumTerm, signed};
use crate::words::{read_name, read_number, read_register, unexpected};
use lists::{Name, Seq};
use refusal::Refused;
use std::alloc::{AllocError, Global};
use syntax::{Form, Term};

/// What stands behind a number: nothing, or `*` and a register.
fn read_behind(
    alloc: Global,
    is_negative: bool,
    number: Limited<u64>,
    behind: &[u8],
    line: u32,
) -> Result<Limited<SignedTerm>, Refused>
    requires { number.value < 2 ^ 63 }
    ensures value { Gives (λ t. t) line result (term_behind is_negative number behind.now) }
    ensures small { IfOk result (λ t. unsigned_abs t.value.amount < 2 ^ 63) }
{
    let amount = signed(is_negative, number.value);
    match behind {
        [] => Ok(Limited {
            value: SignedTerm {
                register: None,
                amount,
            },
            is_within_limits: number.is_within_limits,
        }),
        [_, word @ ..] => {
            let name = read_register(alloc, word, line)?;
            Ok(Limited {
                value: SignedTerm {
                    register: Some(name.value),
                    amount,
                },
                is_within_limits: number.is_within_limits && name.is_within_limits,
            })
        }
    }
}

/// How many bytes stand before the first `*`.
fn number_length(text: &[u8]) -> usize
    ensures value { result ≡ prefix_len is_no_star text.now }
    ensures within { result ≤ length text.now }
{
    text.iter().take_while(|b| **b != b'*').count()
}

/// A number, or a number times a register.
fn read_by_number(
    alloc: Global,
    is_negative: bool,
    text: &[u8],
    line: u32,
) -> Result<Limited<SignedTerm>, Refused>
    ensures value { Gives (λ t. t) line result (term_by_number is_negative text.now) }
    ensures small { IfOk result (λ t. unsigned_abs t.value.amount < 2 ^ 63) }
{
    let end = number_length(text);
    let number = read_number(FORM_MOST, &text[..end], line)?;
    read_behind(alloc, is_negative, number, &text[end..], line)
}

/// A term of a form behind its sign.
#[tactic(auto, unfolding(crate::specs::Forms::term_of))]
fn read_term(
    alloc: Global,
    is_negative: bool,
    text: &[u8],
    line: u32,
) -> Result<Limited<SignedTerm>, Refused>
    ensures value { Gives (λ t. t) line result (term_of is_negative text.now) }
    ensures small { IfOk result (λ t. unsigned_abs t.value.amount < 2 ^ 63) }
{
    match text {
        [] => Err(unexpected(line)),
        [b'%', name @ ..] => {
            let name = read_name(alloc, name, line)?;
            Ok(Limited {
                value: SignedTerm {
                    register: Some(name.value),
                    amount: signed(is_negative, 1),
                },
                is_within_limits: name.is_within_limits,
            })
        }
        _ => read_by_number(alloc, is_negative, text, line),
    }
}

/// How many bytes stand before the first sign.
fn term_length(text: &[u8]) -> usize
    ensures value { result ≡ prefix_len is_no_sign text.now }
    ensures within { result ≤ length text.now }
{
    text.iter()
        .take_while(|b| **b != b'+' && **b != b'-')
        .count()
}

/// Whether the sign at the front is a minus, and what stands behind it.
fn behind_term(text: &[u8]) -> Option<(bool, &[u8])>
    ensures none { IfNone result (text.now ≡ []) }
    ensures some { IfSome result (λ s. BeginsWithSign text.now s.0 s.1.now) }
{
    match text {
        [] => None,
        [sign, behind @ ..] => Some((*sign == b'-', behind)),
    }
}

/// The sum of the terms of a form's word.
fn read_sum(alloc: Global, word: &[u8], line: u32) -> Result<Sum, Refused>
    ensures { Gives total_of line result (all_added nothing (signed_texts word.now)) }
{
    let mut sum = Sum::new(alloc);
    let (mut is_negative, mut rest) = match word {
        [b'-', behind @ ..] => (true, behind),
        _ => (false, word),
    };
    'terms: loop {
        let end = term_length(rest);
        let term = read_term(alloc, is_negative, &rest[..end], line)?;
        sum.add(term)?;
        match behind_term(&rest[end..]) {
            None => return Ok(sum),
            Some((sign, behind)) => {
                is_negative = sign;
                rest = behind;
            }
        }
    }
}

fn are_narrow(terms: &[SumTerm]) -> bool
    ensures { result ≡ list_all is_narrow terms.now }
{
    terms
        .iter()
        .all(|t| narrowed(t.coefficient).is_within_limits)
}

/// The term of a form, unless its coefficient is 0.
fn kept(term: SumTerm) -> Option<Term>
    ensures { result ≡ kept term }
{
    if term.coefficient == 0 {
        return None;
    }
    Some(Term {
        register: term.register,
        coefficient: narrowed(term.coefficient).value,
    })
}

fn kept_terms(alloc: Global, terms: Vec<SumTerm>) -> Result<Seq<Term>, AllocError>
    ensures { IfOk result (λ ts. ts ≡ filter_map kept terms.items) }
{
    let mut found = Seq::new(alloc);
    for term in terms {
        match kept(term) {
            None => continue,
            Some(term) => found.push(term)?,
        }
    }
    Ok(found)
}

/// A form: terms that rise by the bytes of their names, without coefficients 0.
#[tactic(auto, unfolding(crate::specs::Forms::form_of, crate::specs::Forms::form_from))]
pub fn read_form(alloc: Global, word: &[u8], line: u32) -> Result<Limited<Form>, Refused>
    ensures { Gives (λ f. f) line result (form_of word.now) }
{
    let sum = read_sum(alloc, word, line)?;
    let constant = narrowed(sum.constant);
    let is_within_limits = sum.is_within_limits
        && constant.is_within_limits
        && are_narrow(&sum.terms);
    Ok(Limited {
        value: Form {
            terms: kept_terms(alloc, sum.terms)?,
            constant: constant.value,
        },
        is_within_limits,
    })
}
