//! Terminators with their names resolved and types judged.

ghost use Rattle.std.specs.Prelude.{◌≡◌};
ghost use Rattle.types.specs.names.Told.{Gives};
ghost use Rattle.types.specs.Terminator as spec;

use crate::names::{
    AnnotationPlace, Refused, Scope, TypeFault, both, both_answers, fits_width, joined,
    resolve_condition, resolve_inequalities, resolve_label, resolve_operand, resolve_region, told,
    type_mismatch, unless,
};
use lists::{Name, Seq};
use program::{Case, Ending, Terminator, Width};
use std::alloc::Global;
use syntax::ResultType;

/// A switch as the text writes it.
#[derive(Clone, Copy)]
struct SwitchText<'a> {
    width: Width,
    value: &'a syntax::Operand,
    default: &'a Name,
    cases: &'a [syntax::Case],
}

fn resolve_branch(
    scope: &Scope,
    line: u32,
    condition: &Name,
    when_true: &Name,
    when_false: &Name,
) -> Result<Terminator, TypeFault>
    ensures { result ≡ spec.branch_of scope.now line condition.now when_true.now when_false.now }
{
    let condition = resolve_condition(scope, line, condition);
    let when_true = resolve_label(scope, line, when_true);
    let when_false = resolve_label(scope, line, when_false);
    let (condition, (when_true, when_false)) = both(condition, both(when_true, when_false))?;
    Ok(Terminator::Branch {
        condition,
        when_true,
        when_false,
    })
}

fn resolve_case(
    scope: &Scope,
    line: u32,
    width: Width,
    case: &syntax::Case,
) -> Result<Case, TypeFault>
    ensures { result ≡ spec.case_of scope.now line width case.now }
{
    let number = case.number;
    let fits = unless(fits_width(width, number), type_mismatch(line));
    let (target, ()) = both(resolve_label(scope, line, &case.target), fits)?;
    Ok(Case { number, target })
}

fn resolve_cases(
    alloc: Global,
    scope: &Scope,
    line: u32,
    width: Width,
    cases: &[syntax::Case],
) -> Result<Seq<Case>, Refused>
    ensures { Gives result (spec.cases_of scope.now line width cases.now) }
{
    let mut resolved = Ok(Seq::new(alloc));
    for case in cases {
        resolved = joined(resolved, told(resolve_case(scope, line, width, case)));
    }
    resolved
}

fn resolve_switch(
    alloc: Global,
    scope: &Scope,
    line: u32,
    text: &SwitchText,
) -> Result<Terminator, Refused>
    ensures { Gives result (spec.switch_of scope.now line text.now.width text.now.value.now text.now.default.now text.now.cases.now) }
{
    let width = text.width;
    let value = told(resolve_operand(scope, line, width, text.value));
    let default = told(resolve_label(scope, line, text.default));
    let cases = resolve_cases(alloc, scope, line, width, text.cases);
    let (value, (default, cases)) = both_answers(value, both_answers(default, cases))?;
    Ok(Terminator::Switch {
        width,
        value,
        default,
        cases,
    })
}

/// `ret` gives what the function's type says.
fn resolve_return(
    scope: &Scope,
    line: u32,
    result_type: ResultType,
    value: &Option<syntax::Operand>,
) -> Result<Terminator, TypeFault>
    ensures { result ≡ spec.return_of scope.now line result_type value.now }
{
    match value {
        None => match result_type {
            ResultType::Number => Err(type_mismatch(line)),
            ResultType::Void => Ok(Terminator::Return { value: None }),
        },
        Some(value) => {
            let value = resolve_operand(scope, line, Width::Bits64, value)?;
            match result_type {
                ResultType::Number => Ok(Terminator::Return { value: Some(value) }),
                ResultType::Void => Err(type_mismatch(line)),
            }
        }
    }
}

fn resolve_detach(
    scope: &Scope,
    line: u32,
    region: &Name,
    body: &Name,
    continuation: &Name,
) -> Result<Terminator, TypeFault>
    ensures { result ≡ spec.detach_of scope.now line region.now body.now continuation.now }
{
    let region = resolve_region(scope, line, region);
    let body = resolve_label(scope, line, body);
    let continuation = resolve_label(scope, line, continuation);
    let (region, (body, continuation)) = both(region, both(body, continuation))?;
    Ok(Terminator::Detach {
        region,
        body,
        continuation,
    })
}

fn resolve_reattach(
    scope: &Scope,
    line: u32,
    region: &Name,
    continuation: &Name,
) -> Result<Terminator, TypeFault>
    ensures { result ≡ spec.reattach_of scope.now line region.now continuation.now }
{
    let region = resolve_region(scope, line, region);
    let continuation = resolve_label(scope, line, continuation);
    let (region, continuation) = both(region, continuation)?;
    Ok(Terminator::Reattach {
        region,
        continuation,
    })
}

fn resolve_sync(
    scope: &Scope,
    line: u32,
    region: &Name,
    target: &Name,
) -> Result<Terminator, TypeFault>
    ensures { result ≡ spec.sync_of scope.now line region.now target.now }
{
    let region = resolve_region(scope, line, region);
    let target = resolve_label(scope, line, target);
    let (region, target) = both(region, target)?;
    Ok(Terminator::Sync { region, target })
}

fn resolve_jump(scope: &Scope, line: u32, target: &Name) -> Result<Terminator, TypeFault>
    ensures { result ≡ spec.jump_of scope.now line target.now }
{
    let target = resolve_label(scope, line, target)?;
    Ok(Terminator::Jump { target })
}

fn resolve_terminator(
    alloc: Global,
    scope: &Scope,
    line: u32,
    result_type: ResultType,
    terminator: &syntax::Terminator,
) -> Result<Terminator, Refused>
    ensures { Gives result (spec.terminator_of scope.now line result_type terminator.now) }
{
    match terminator {
        syntax::Terminator::Jump { target } => told(resolve_jump(scope, line, target)),
        syntax::Terminator::Branch {
            condition,
            when_true,
            when_false,
        } => told(resolve_branch(scope, line, condition, when_true, when_false)),
        syntax::Terminator::Switch {
            width,
            value,
            default,
            cases,
        } => {
            let text = SwitchText {
                width: *width,
                value,
                default,
                cases: cases.as_slice(),
            };
            resolve_switch(alloc, scope, line, &text)
        }
        syntax::Terminator::Return { value } => told(resolve_return(
            scope,
            line,
            result_type,
            value,
        )),
        syntax::Terminator::Detach {
            region,
            body,
            continuation,
        } => told(resolve_detach(scope, line, region, body, continuation)),
        syntax::Terminator::Reattach {
            region,
            continuation,
        } => told(resolve_reattach(scope, line, region, continuation)),
        syntax::Terminator::Sync { region, target } => told(resolve_sync(
            scope, line, region, target,
        )),
    }
}

fn resolve_known_ending(
    alloc: Global,
    scope: &Scope,
    result_type: ResultType,
    ending: &syntax::Ending,
) -> Result<Ending, Refused>
    ensures { Gives result (spec.known_ending_of scope.now result_type ending.now) }
{
    let line = ending.line;
    let shows = resolve_inequalities(alloc, scope, AnnotationPlace::Body, ending.shows.as_slice());
    let terminator = resolve_terminator(alloc, scope, line, result_type, &ending.terminator);
    let (shows, terminator) = both_answers(shows, terminator)?;
    Ok(Ending {
        line,
        shows,
        terminator,
    })
}

/// The terminator of a block that has one.
pub fn resolve_ending(
    alloc: Global,
    scope: &Scope,
    result_type: ResultType,
    ending: &Option<syntax::Ending>,
) -> Result<Option<Ending>, Refused>
    ensures { Gives result (spec.ending_of scope.now result_type ending.now) }
{
    match ending {
        None => Ok(None),
        Some(ending) => {
            let ending = resolve_known_ending(alloc, scope, result_type, ending)?;
            Ok(Some(ending))
        }
    }
}
