//! The cases of a `switch`.

ghost use Rattle.std.specs.Prelude.{◌≡◌, IfOk, option_map};
ghost use Rattle.ir_instruction.specs.Outcome.{◌>>=◌ as ◌▷◌};
ghost use Rattle.ir_instruction.specs.Answers.{Gives};
ghost use Rattle.ir_instruction.specs.Fronts.{mark_at, label_at};
ghost use Rattle.ir_instruction.specs.Lists.{case_at, case_follows, all_cases_at};
ghost use Rattle.std.specs.List.{list_all, list_any};
ghost use Rattle.ir_instruction.specs.Cases.{share_number_or_label, are_distinct, is_case_of, are_cases_of, case_from, cases_from};
ghost use Rattle.syntax.specs.Widths.{is_same_width};

use crate::fault::LineFault;
use crate::front::{behind_mark, is_mark, label_at, numeral_at, width_at};
use crate::list::{Listed, list_at};
use crate::numeral::{is_same_name, is_same_number, value_of};
use crate::symbol::{Numeral, Symbol};
use lists::{Name, Seq};
use std::alloc::{AllocError, Global};
use syntax::{Case, Width};

/// `T N, label %l` as a line spells it.
#[derive(Drop)]
pub struct SpelledCase {
    pub width: Width,
    pub number: Numeral,
    pub target: Name,
}

/// `, label %l`
fn target_at(symbols: &[Symbol]) -> Result<(Name, &[Symbol]), LineFault>
    ensures { Gives (λ found. (found.0, found.1.now)) result (mark_at 44 symbols.now ▷ label_at) }
{
    let Some(rest) = behind_mark(b',', symbols) else {
        return Err(LineFault::Unexpected);
    };
    label_at(rest)
}

impl Listed for SpelledCase {
    ghost element = { case_at };

    ghost follows = { case_follows };

    fn at(symbols: &[Symbol]) -> Result<(SpelledCase, &[Symbol]), LineFault> {
        let Some((width, rest)) = width_at(symbols) else {
            return Err(LineFault::Unexpected);
        };
        let (number, rest) = numeral_at(rest)?;
        let (target, rest) = target_at(rest)?;
        Ok((
            SpelledCase {
                width,
                number,
                target,
            },
            rest,
        ))
    }

    fn next(symbols: &[Symbol]) -> Option<&[Symbol]> {
        if is_mark(b']', symbols) {
            None
        } else {
            Some(symbols)
        }
    }
}

/// Cases up to and with `]`.
pub fn all_cases_at(
    alloc: Global,
    symbols: &[Symbol],
) -> Result<(Seq<SpelledCase>, &[Symbol]), LineFault>
    ensures { Gives (λ found. (found.0, found.1.now)) result (all_cases_at symbols.now) }
{
    let (cases, rest) = list_at::<SpelledCase>(alloc, symbols)?;
    let Some(rest) = behind_mark(b']', rest) else {
        return Err(LineFault::Unexpected);
    };
    Ok((cases, rest))
}

fn is_same_width(width: Width, other: Width) -> bool
    ensures { result ≡ is_same_width width other }
{
    match width {
        Width::Bits64 => matches!(other, Width::Bits64),
        Width::Bits32 => matches!(other, Width::Bits32),
    }
}

fn share_number_or_label(case: &SpelledCase, other: &SpelledCase) -> bool
    ensures { result ≡ share_number_or_label case.now other.now }
{
    is_same_name(&case.target, &other.target) || is_same_number(&case.number, &other.number)
}

fn shares_with_any(case: &SpelledCase, others: &[SpelledCase]) -> bool
    ensures { result ≡ list_any (share_number_or_label case.now) others.now }
{
    others
        .iter()
        .any(|other| share_number_or_label(case, other))
}

/// No two numbers and no two labels are the same.
fn are_distinct(cases: &[SpelledCase]) -> bool
    ensures { result ≡ are_distinct cases.now }
{
    let mut rest = cases;
    while let [first, others @ ..] = rest {
        if shares_with_any(first, others) {
            return false;
        }
        rest = others;
    }
    true
}

fn is_case_of(width: Width, default: &Name, case: &SpelledCase) -> bool
    ensures { result ≡ is_case_of width default.now case.now }
{
    is_same_width(case.width, width) && !is_same_name(&case.target, default)
}

fn all_are_cases_of(width: Width, default: &Name, cases: &[SpelledCase]) -> bool
    ensures { result ≡ list_all (is_case_of width default.now) cases.now }
{
    cases.iter().all(|case| is_case_of(width, default, case))
}

/// At most 64 cases of this width, whose numbers differ, and whose labels differ from one another and from the default.
pub fn are_cases_of(width: Width, default: &Name, cases: &[SpelledCase]) -> bool
    ensures { result ≡ are_cases_of width default.now cases.now }
{
    cases.len() <= 64 && all_are_cases_of(width, default, cases) && are_distinct(cases)
}

fn case_from(case: &SpelledCase) -> Result<Case, AllocError>
    ensures { IfOk result (λ made. made ≡ case_from case.now) }
{
    Ok(Case {
        number: value_of(&case.number),
        target: case.target.copy()?,
    })
}

pub fn cases_from(alloc: Global, spelled: &[SpelledCase]) -> Result<Seq<Case>, AllocError>
    ensures { IfOk result (λ made. made ≡ cases_from spelled.now) }
{
    let mut cases = Vec::new(alloc);
    for case in spelled {
        cases.push(case_from(case)?)?;
    }
    Ok(Seq::from_vec(cases))
}
