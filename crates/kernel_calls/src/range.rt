//! What `requires` says of one argument of `main`, and its name.

ghost use Rattle.std.specs.Prelude.{◌≡◌, ◌≢◌, ◌⊎◌, ◌≤◌, IfNone, IfSome, IsTrue, None, Some};
ghost use Rattle.kernel_calls.specs.Held.{OfHeld, closed};
ghost use Rattle.kernel_calls.specs.Inside.{HasNoBound, IsArgument, IsArgumentRange, IsBound, IsFoundStatus, IsRangeOf, SetsHigh, SetsLow, arguments_in};
ghost use Rattle.kernel_calls.specs.Told.{done};
ghost use Rattle.kernel_calls.specs.Words.{not_found};

use crate::handle::Handle;
use crate::prepared::Prepared;
use crate::told::{CLOSED, DONE, NOT_FOUND};
use crate::words::put;
use program::{Form, Inequality, Program};
use std::alloc::Global;

/// The bounds of an argument.
#[repr(C)]
#[derive(Clone, Copy)]
pub struct Range {
    pub has_low: bool,
    pub has_high: bool,
    pub low: i64,
    pub high: i64,
}

/// Whether the form is the argument of this number and a constant.
#[tactic(auto, using(crate::proofs::Ranges::argument_here))]
fn is_argument(number: usize, form: &Form) -> bool
    ensures { IsTrue result → IsArgument number form.now }
{
    let terms = form.terms.as_slice();
    if terms.len() != 1 {
        return false;
    }
    let term = terms[0];
    term.register.0 == number && term.coefficient == 1
}

/// What the other form says of the argument of this number, where it stands alone.
#[tactic(auto, using(crate::proofs::Ranges::bound_here))]
fn bound(number: usize, alone: &Form, other: &Form) -> Option<i64>
    ensures { IfSome result (IsBound number alone.now other.now) }
{
    if !is_argument(number, alone) || !other.terms.is_empty() {
        return None;
    }
    let difference = other.constant.checked_sub(alone.constant)?;
    i64::try_from(difference).ok()
}

/// The greater of the bounds that are there.
fn greater(a: Option<i64>, b: Option<i64>) -> Option<i64>
    ensures { IfSome result (λ z. (a ≡ Some z) ⊎ (b ≡ Some z)) }
{
    match (a, b) {
        (Some(one), Some(other)) if one < other => b,
        (Some(_), _) => a,
        (None, _) => b,
    }
}

/// The less of the bounds that are there.
fn less(a: Option<i64>, b: Option<i64>) -> Option<i64>
    ensures { IfSome result (λ z. (a ≡ Some z) ⊎ (b ≡ Some z)) }
{
    match (a, b) {
        (Some(one), Some(other)) if other < one => b,
        (Some(_), _) => a,
        (None, _) => b,
    }
}

/// The greatest low bound that a requirement sets.
fn low_of(number: usize, requirements: &[Inequality]) -> Option<i64>
    ensures { IfSome result (SetsLow number requirements.now) }
{
    let mut low = None;
    for k in 0..requirements.len() {
        let one = &requirements[k];
        low = greater(low, bound(number, &one.high, &one.low));
    }
    low
}

/// The least high bound that a requirement sets.
fn high_of(number: usize, requirements: &[Inequality]) -> Option<i64>
    ensures { IfSome result (SetsHigh number requirements.now) }
{
    let mut high = None;
    for k in 0..requirements.len() {
        let one = &requirements[k];
        high = less(high, bound(number, &one.low, &one.high));
    }
    high
}

/// What the requirements say of the argument of this number.
fn range_of(number: usize, requirements: &[Inequality]) -> Range
    ensures { IsRangeOf number requirements.now result }
{
    let low = low_of(number, requirements);
    let high = high_of(number, requirements);
    Range {
        has_low: low.is_some(),
        has_high: high.is_some(),
        low: low.unwrap_or(0),
        high: high.unwrap_or(0),
    }
}

/// What is said of the argument of this number, where there is one.
#[tactic(auto, using(crate::proofs::Holding::parameters_few, crate::proofs::Holding::parameters_lacking))]
fn argument_range(program: &Program, number: usize) -> Option<Range>
    ensures range { IfSome result (IsArgumentRange program.now number) }
    ensures none { IfNone result (arguments_in (Some program.now) ≤ number) }
{
    let main = program.functions.as_slice().get(program.main.0)?;
    if main.parameters.len() <= number {
        return None;
    }
    Some(range_of(number, main.requirements.as_slice()))
}

/// Tells what is said of the argument of this number, whose name is written as far as there is room.
fn told(kernel: &Prepared, number: usize, out: &mut [u8], needed: &mut usize) -> Option<Range>
    ensures range { IfSome result (IsArgumentRange kernel.now number) }
    ensures none { IfNone result ((arguments_in (Some kernel.now) ≤ number) × (out.new ≡ out.old) × (needed.new ≡ needed.old)) }
{
    let range = argument_range(kernel.verified().program(), number)?;
    if let Some(name) = kernel.names().get(number) {
        put(name.as_bytes(), out, needed);
    }
    Some(range)
}

/// Tells the argument of this number, from 0: its name is written as far as there is room.
pub fn tell_argument(
    alloc: Global,
    handle: &mut Handle,
    number: usize,
    out: &mut [u8],
    needed: &mut usize,
    range: &mut Range,
) -> u32
    ensures found { result ≡ done → OfHeld handle.old.kernel.program (λ p. IsArgumentRange p number range.new) }
    ensures lacks { result ≡ not_found → OfHeld handle.old.kernel.program (λ p. arguments_in (Some p) ≤ number) }
    ensures none { result ≢ done → HasNoBound range.new × (needed.new ≡ 0) × (out.new ≡ out.old) }
    ensures closed { result ≡ closed → handle.old.kernel.program ≡ None }
    ensures same { handle.new.kernel.program ≡ handle.old.kernel.program }
    ensures statuses { IsFoundStatus result }
{
    *range = Range {
        has_low: false,
        has_high: false,
        low: 0,
        high: 0,
    };
    *needed = 0;
    let Some(block) = handle.take(alloc) else {
        return CLOSED;
    };
    let told = told(block.as_ref().module(), number, out, needed);
    handle.keep(block);
    match told {
        Some(told) => {
            *range = told;
            DONE
        }
        None => NOT_FOUND,
    }
}
