//! Facts, spelled as annotations spell them.

use ir_annotation::sign_text;
use lists::{ListBuffer, TextBuffer};
use program::{Fact, RegisterId, Term};
use std::alloc::{AllocError, Global};

/// A name by the register's number; `?` where there is none.
pub(crate) fn name_of<'a>(names: &[&'a str], register: RegisterId) -> &'a str {
    names.get(register.0).copied().unwrap_or("?")
}

/// A coefficient, unless it is 1 or -1, and the register.
fn push_term(out: &mut TextBuffer, is_first: bool, name: &str, coefficient: i64) {
    let sign = sign_text(is_first, i128::from(coefficient));
    let size = coefficient.unsigned_abs();
    if size == 1 {
        write!(out, "{sign}%{name}");
    } else {
        write!(out, "{sign}{size}*%{name}");
    }
}

/// The terms in the order of their names' bytes.
fn sorted_terms<'a>(
    alloc: Global,
    names: &[&'a str],
    terms: &[Term],
) -> Result<Vec<(&'a str, i64)>, AllocError> {
    let mut list = ListBuffer::new(alloc);
    for term in terms {
        list.push((name_of(names, term.register), term.coefficient));
    }
    let mut sorted = list.finish()?;
    sorted.sort()?;
    Ok(sorted)
}

/// The terms, and behind them the number, unless it is 0 and there are some.
fn push_form(out: &mut TextBuffer, terms: &[(&str, i64)], constant: i128) {
    let mut is_first = true;
    for (name, coefficient) in terms {
        push_term(out, is_first, name, *coefficient);
        is_first = false;
    }
    if constant != 0 || is_first {
        let sign = sign_text(is_first, constant);
        let size = constant.unsigned_abs();
        write!(out, "{sign}{size}");
    }
}

/// A line for each fact: `knows F >= 0`.
///
/// # Errors
///
/// Memory was refused.
pub(crate) fn push_facts(
    alloc: Global,
    out: &mut TextBuffer,
    names: &[&str],
    facts: &[Fact],
) -> Result<(), AllocError> {
    for fact in facts {
        let terms = sorted_terms(alloc, names, fact.form.terms.as_slice())?;
        out.push_str("    knows ");
        push_form(out, terms.as_slice(), fact.form.constant);
        out.push_str(" >= 0\n");
    }
    Ok(())
}
