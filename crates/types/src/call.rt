//! Calls: their callee, their arguments, and which pointers may be passed.

ghost use Rattle.std.specs.Prelude.{◌≡◌, slice_get};
ghost use Rattle.std.specs.List.{list_any};
ghost use Rattle.types.specs.Call as spec;
ghost use Rattle.types.specs.names.Told.{Gives};
ghost use Rattle.types.specs.names.Table.{look_up};

use crate::names::{
    Item, Items, NamedGlobals, Refused, Scope, TypeFault, both, both_answers, downward_call,
    joined, pointer_misuse, resolve_object, resolve_operand, told, type_mismatch, unknown_name,
    unless, wrong_count,
};
use lists::{Name, Seq};
use program::{Argument, FunctionId, ObjectName, Parameter, Width, same_object};
use std::alloc::Global;
use syntax::{Function, ResultType};

/// What a function's uses of names behind `@` are judged against.
#[derive(Clone, Copy)]
pub struct World<'a> {
    pub items: &'a Items,
    pub functions: &'a [Function],
    /// A function each: what it and those that it calls name.
    pub named: &'a [NamedGlobals],
}

/// What the blocks of a function are judged against.
#[derive(Clone, Copy)]
pub struct FunctionContext<'a> {
    pub world: World<'a>,
    pub scope: &'a Scope,
    pub result_type: ResultType,
}

/// A call as the text writes it.
#[derive(Clone, Copy)]
pub struct CallText<'a> {
    pub line: u32,
    pub has_result: bool,
    pub callee: &'a Name,
    pub arguments: &'a [syntax::Argument],
}

/// A call's callee and its arguments.
#[derive(Drop)]
pub struct ResolvedCall {
    pub callee: FunctionId,
    pub arguments: Seq<Argument>,
}

/// The function of this name.
fn resolve_function(items: &Items, line: u32, name: &Name) -> Result<FunctionId, TypeFault>
    ensures { result ≡ spec.as_function line (look_up items.now name.now) }
{
    match items.find(name.as_bytes()) {
        None => Err(unknown_name(line)),
        Some(Item::Global { .. }) => Err(type_mismatch(line)),
        Some(Item::Function(id)) => Ok(id),
    }
}

/// A call has a result where its callee gives one.
fn fits_result(has_result: bool, result_type: ResultType) -> bool
    ensures { result ≡ spec.fits_result has_result result_type }
{
    match result_type {
        ResultType::Number => has_result,
        ResultType::Void => !has_result,
    }
}

/// A parameter without its name.
pub fn parameter_of(parameter: &syntax::Parameter) -> Parameter
    ensures { result ≡ spec.parameter_of parameter.now }
{
    match parameter {
        syntax::Parameter::Number { .. } => Parameter::Number,
        syntax::Parameter::Pointer { cells, .. } => Parameter::Pointer { cells: *cells },
    }
}

/// The parameter for the argument at this place, if the callee has one there.
fn expected(parameters: &[syntax::Parameter], place: usize) -> Option<Parameter>
    ensures { result ≡ spec.expected parameters.now place }
{
    match parameters.get(place) {
        None => None,
        Some(parameter) => Some(parameter_of(parameter)),
    }
}

/// A number where the callee has a number, if it has a parameter there.
fn takes_number(parameter: Option<Parameter>) -> bool
    ensures { result ≡ spec.takes_number parameter }
{
    match parameter {
        None => true,
        Some(Parameter::Number) => true,
        Some(Parameter::Pointer { .. }) => false,
    }
}

/// A pointer where the callee has one, if it has a parameter there.
fn takes_object(parameter: Option<Parameter>) -> bool
    ensures { result ≡ spec.takes_object parameter }
{
    match parameter {
        None => true,
        Some(Parameter::Number) => false,
        Some(Parameter::Pointer { .. }) => true,
    }
}

/// An object of as many cells as the parameter's extent, at least.
fn fits_extent(cells: u64, parameter: Option<Parameter>) -> bool
    ensures { result ≡ spec.fits_extent cells parameter }
{
    match parameter {
        None => true,
        Some(Parameter::Number) => true,
        Some(Parameter::Pointer { cells: extent }) => extent <= cells,
    }
}

fn resolve_argument(
    items: &Items,
    scope: &Scope,
    line: u32,
    parameter: Option<Parameter>,
    argument: &syntax::Argument,
) -> Result<Argument, TypeFault>
    ensures { result ≡ spec.argument_of items.now scope.now line parameter argument.now }
{
    match argument {
        syntax::Argument::Number(value) => {
            let value = resolve_operand(scope, line, Width::Bits64, value)?;
            unless(takes_number(parameter), type_mismatch(line))?;
            Ok(Argument::Number(value))
        }
        syntax::Argument::Pointer(address) => {
            let object = resolve_object(items, scope, line, address);
            let takes = unless(takes_object(parameter), type_mismatch(line));
            let (object, ()) = both(object, takes)?;
            unless(fits_extent(object.cells, parameter), pointer_misuse(line))?;
            Ok(Argument::Object(object.name))
        }
    }
}

fn resolve_arguments(
    alloc: Global,
    items: &Items,
    scope: &Scope,
    line: u32,
    parameters: &[syntax::Parameter],
    arguments: &[syntax::Argument],
) -> Result<Seq<Argument>, Refused>
    ensures { Gives result (spec.arguments_of items.now scope.now line parameters.now arguments.now) }
{
    let mut resolved = Ok(Seq::new(alloc));
    for place in 0..arguments.len() {
        let argument = &arguments[place];
        let parameter = expected(parameters, place);
        resolved = joined(
            resolved,
            told(resolve_argument(items, scope, line, parameter, argument)),
        );
    }
    resolved
}

/// The argument passes this object.
fn passes(name: ObjectName, argument: Argument) -> bool
    ensures { result ≡ spec.passes name argument }
{
    match argument {
        Argument::Number(_) => false,
        Argument::Object(other) => same_object(name, other),
    }
}

fn is_passed(name: ObjectName, arguments: &[Argument]) -> bool
    ensures { result ≡ list_any (spec.passes name) arguments.now }
{
    arguments.iter().any(|argument| passes(name, *argument))
}

/// The argument passes an object that one of the others passes too.
fn is_passed_again(argument: Argument, others: &[Argument]) -> bool
    ensures { result ≡ spec.is_passed_again argument others.now }
{
    match argument {
        Argument::Number(_) => false,
        Argument::Object(name) => is_passed(name, others),
    }
}

/// The objects that are passed are pairwise different.
fn are_distinct(arguments: &[Argument]) -> bool
    ensures { result ≡ spec.are_distinct arguments.now }
{
    for place in 0..arguments.len() {
        if is_passed_again(arguments[place], &arguments[place + 1..]) {
            return false;
        }
    }
    true
}

/// The argument passes a global that the callee can reach by its name.
fn is_named_below(named: &NamedGlobals, argument: Argument) -> bool
    ensures { result ≡ spec.is_named_below named.now argument }
{
    match argument {
        Argument::Number(_) => false,
        Argument::Object(ObjectName::Global(global)) => named.contains(global),
        Argument::Object(ObjectName::Alloca(_)) => false,
        Argument::Object(ObjectName::Parameter(_)) => false,
    }
}

fn are_some_named(named: &NamedGlobals, arguments: &[Argument]) -> bool
    ensures { result ≡ list_any (spec.is_named_below named.now) arguments.now }
{
    arguments
        .iter()
        .any(|argument| is_named_below(named, *argument))
}

fn is_any_named(named: &[NamedGlobals], callee: FunctionId, arguments: &[Argument]) -> bool
    ensures { result ≡ spec.is_any_named (slice_get named.now callee.0) arguments.now }
{
    match named.get(callee.0) {
        None => false,
        Some(names) => are_some_named(names, arguments),
    }
}

/// The arguments of a call of a known function.
fn fitting_arguments(
    alloc: Global,
    items: &Items,
    scope: &Scope,
    call: &CallText,
    callee: &Function,
) -> Result<Seq<Argument>, Refused>
    ensures { Gives result (spec.fitting_arguments items.now scope.now call.now.line call.now.has_result callee.now call.now.arguments.now) }
{
    let line = call.line;
    let parameters = callee.parameters.as_slice();
    let arguments = resolve_arguments(alloc, items, scope, line, parameters, call.arguments);
    let answers = fits_result(call.has_result, callee.result_type);
    let count = call.arguments.len() == parameters.len();
    let answers = unless(answers, type_mismatch(line));
    let count = unless(count, wrong_count(line));
    let (arguments, ((), ())) = both_answers(arguments, told(both(answers, count)))?;
    Ok(arguments)
}

/// The call of a known function with these arguments, where they may be passed.
fn pass(
    named: &[NamedGlobals],
    caller: usize,
    line: u32,
    callee: FunctionId,
    arguments: Seq<Argument>,
) -> Result<ResolvedCall, TypeFault>
    ensures { result ≡ spec.passed_call named.now caller line callee arguments }
{
    unless(are_distinct(arguments.as_slice()), pointer_misuse(line))?;
    let is_clear = !is_any_named(named, callee, arguments.as_slice());
    unless(is_clear, pointer_misuse(line))?;
    unless(callee.0 <= caller, downward_call(line))?;
    Ok(ResolvedCall { callee, arguments })
}

/// A call of a known function from the one at `caller`.
fn resolve_known(
    alloc: Global,
    context: &FunctionContext,
    caller: usize,
    call: &CallText,
    id: FunctionId,
    callee: &Function,
) -> Result<ResolvedCall, Refused>
    ensures { Gives result
        (spec.known_call context.now.world.items.now context.now.world.named.now context.now.scope.now caller
        call.now.line call.now.has_result id callee.now call.now.arguments.now) }
{
    let arguments = fitting_arguments(alloc, context.world.items, context.scope, call, callee)?;
    told(pass(context.world.named, caller, call.line, id, arguments))
}

/// A call whose callee is none: its arguments are judged all the same.
fn refuse_call(
    alloc: Global,
    items: &Items,
    scope: &Scope,
    call: &CallText,
    fault: TypeFault,
) -> Result<ResolvedCall, Refused>
    ensures { Gives result (spec.refused_call items.now scope.now call.now.line call.now.arguments.now fault) }
{
    let line = call.line;
    let arguments = resolve_arguments(alloc, items, scope, line, &[], call.arguments);
    let refused: Result<(), TypeFault> = Err(fault);
    match both_answers(arguments, told(refused)) {
        Ok(_) => told(Err(fault)),
        Err(earlier) => Err(earlier),
    }
}

/// A call from the function at `caller`.
pub fn resolve_call(
    alloc: Global,
    context: &FunctionContext,
    caller: usize,
    call: &CallText,
) -> Result<ResolvedCall, Refused>
    ensures { Gives result
        (spec.call_of context.now.world.items.now context.now.world.functions.now context.now.world.named.now
        context.now.scope.now caller
        call.now.line call.now.has_result call.now.callee.now call.now.arguments.now) }
{
    let world = context.world;
    match resolve_function(world.items, call.line, call.callee) {
        Err(fault) => refuse_call(alloc, world.items, context.scope, call, fault),
        Ok(id) => match world.functions.get(id.0) {
            None => told(Err(unknown_name(call.line))),
            Some(callee) => resolve_known(alloc, context, caller, call, id, callee),
        },
    }
}
