//! From a module to its program: the tables of names, `@main`, globals and functions (name resolution).

ghost use Rattle.std.specs.Prelude.{◌≡◌, map, IfOk};
ghost use Rattle.std.specs.List.{list_all};
ghost use Rattle.types.specs.names.Told.{Gives};
ghost use Rattle.types.specs.Apart.{CallsApart};
ghost use Rattle.types.specs.Definitions.{EachDefinesAnew, KeepsParameters};
ghost use Rattle.types.specs.Meaning as spec;
ghost use Rattle.types.specs.Typed.{Judges};

use crate::call::World;
use crate::function::resolve_functions;
use crate::names::{
    Item, Items, NamedGlobals, Refused, TypeFault, all_mentions, both_answers, items_of,
    named_globals, told, type_mismatch, unknown_name, unless,
};
use crate::typed::Typed;
use lists::Seq;
use program::{FunctionId, Global as GlobalArray, Program};
use std::alloc::{AllocError, Global};
use std::hash::RandomState;
use syntax::{Function, Module, Parameter, ResultType};

fn is_number(parameter: &Parameter) -> bool
    ensures { result ≡ spec.is_number parameter.now }
{
    match parameter {
        Parameter::Number { .. } => true,
        Parameter::Pointer { .. } => false,
    }
}

fn are_numbers(parameters: &[Parameter]) -> bool
    ensures { result ≡ list_all spec.is_number parameters.now }
{
    parameters.iter().all(is_number)
}

/// `@main` gives an `i64` and takes nothing else.
fn has_main_form(function: &Function) -> bool
    ensures { result ≡ spec.main_form function.now.result_type function.now.parameters }
{
    match function.result_type {
        ResultType::Void => false,
        ResultType::Number => are_numbers(function.parameters.as_slice()),
    }
}

/// The function at which the run begins.
fn resolve_main(items: &Items, functions: &[Function]) -> Result<FunctionId, TypeFault>
    ensures { result ≡ spec.main_of items.now functions.now }
{
    match items.find(b"main".as_slice()) {
        None => Err(unknown_name(1)),
        Some(Item::Global { .. }) => Err(unknown_name(1)),
        Some(Item::Function(id)) => match functions.get(id.0) {
            None => Err(unknown_name(1)),
            Some(function) => {
                unless(has_main_form(function), type_mismatch(function.line))?;
                Ok(id)
            }
        },
    }
}

fn global_of(global: &syntax::Global) -> Result<GlobalArray, AllocError>
    ensures { IfOk result (λ found. found ≡ spec.global_of global.now) }
{
    Ok(GlobalArray {
        line: global.line,
        name: global.name.copy()?,
        cells: global.cells,
    })
}

fn globals_of(alloc: Global, globals: &[syntax::Global]) -> Result<Seq<GlobalArray>, AllocError>
    ensures { IfOk result (λ found. found ≡ map spec.global_of globals.now) }
{
    let mut arrays = Seq::new(alloc);
    for global in globals {
        arrays.push(global_of(global)?)?;
    }
    Ok(arrays)
}

/// The program that a module means by these tables of names.
fn resolve_program(
    alloc: Global,
    state: RandomState,
    whole: &Module,
    items: &Items,
    named: &[NamedGlobals],
) -> Result<Program, Refused>
    ensures { Gives result (spec.program_from items.now named.now whole.now) }
{
    let functions = whole.functions.as_slice();
    let world = World {
        items,
        functions,
        named,
    };
    let main = resolve_main(items, functions);
    let functions = resolve_functions(alloc, state, &world);
    let (main, functions) = both_answers(told(main), functions)?;
    let globals = globals_of(alloc, whole.globals.as_slice())?;
    Ok(Program {
        globals,
        functions,
        main,
    })
}

/// The program that a module means.
fn resolve_module(alloc: Global, state: RandomState, whole: &Module) -> Result<Program, Refused>
    ensures { Judges (λ program. program) whole.now result }
{
    let items = items_of(alloc, state, whole)?;
    let mentions = all_mentions(alloc, &items, whole.functions.as_slice())?;
    let named = named_globals(alloc, mentions.as_slice(), whole.globals.len())?;
    resolve_program(alloc, state, whole, &items, named.as_slice())
}

/// The program that a module means, or the fault of the lowest line with the lowest number there.
///
/// The tables of names are hashed with `state`.
pub fn check_types(alloc: Global, state: RandomState, whole: Module) -> Result<Typed, Refused>
    ensures judged { Judges (λ typed. typed.program) whole result }
    ensures apart { IfOk result (λ typed. CallsApart typed.program.functions) }
    ensures kept { EachDefinesAnew whole.functions → IfOk result (λ typed. KeepsParameters typed.program.functions) }
{
    let program = resolve_module(alloc, state, &whole)?;
    Ok(Typed { program })
}
