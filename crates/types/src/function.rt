//! Functions with their names resolved: parameters, annotations at the head, budget and blocks.

ghost use Rattle.std.specs.Prelude.{◌≡◌, map, IfOk, Ok};
ghost use Rattle.types.specs.Call.{parameter_of as parameter_meaning};
ghost use Rattle.types.specs.names.Told.{Gives};
ghost use Rattle.types.specs.Function as spec;

use crate::block::resolve_blocks;
use crate::call::{FunctionContext, World, parameter_of};
use crate::names::{
    AnnotationPlace, Layout, Refused, Scope, both_answers, joined, resolve_first_zones,
    resolve_inequalities, resolve_measure, resolve_zones,
};
use lists::{Name, Seq};
use program::{Budget, Function, Inequality, Measure, Parameter, RegisterId, Zone};
use std::alloc::{AllocError, Global};
use std::hash::RandomState;
use syntax::{FunctionNotes, ResultType};

/// The annotations at a function's head but its budget.
#[derive(Drop)]
struct Head {
    requirements: Seq<Inequality>,
    guarantees: Seq<Inequality>,
    zones: Seq<Zone>,
    measure: Measure,
}

/// The register that stands for the result in `ensures`: the one behind the last.
fn result_register(result_type: ResultType, registers: usize) -> Option<RegisterId>
    ensures { result ≡ spec.result_register result_type registers }
{
    match result_type {
        ResultType::Number => Some(RegisterId(registers)),
        ResultType::Void => None,
    }
}

/// `reads`, then `writes`, then `adds`.
fn resolve_head_zones(
    alloc: Global,
    world: &World,
    scope: &Scope,
    notes: &FunctionNotes,
) -> Result<Seq<Zone>, Refused>
    ensures { Gives result (spec.head_zones_of world.now.items.now scope.now notes.now) }
{
    let items = world.items;
    let place = AnnotationPlace::Head;
    let reads = resolve_first_zones(alloc, items, scope, place, notes.reads.as_slice());
    let writes = resolve_zones(alloc, items, scope, place, reads, notes.writes.as_slice());
    resolve_zones(alloc, items, scope, place, writes, notes.adds.as_slice())
}

fn resolve_head(
    alloc: Global,
    world: &World,
    layout: &Layout,
    result_type: ResultType,
    notes: &FunctionNotes,
) -> Result<Head, Refused>
    ensures { Gives result (spec.head_of world.now.items.now layout.now result_type notes.now) }
{
    let scope = &layout.scope;
    let guarantee = AnnotationPlace::Guarantee(result_register(
        result_type,
        layout.registers.len(),
    ));
    let requirements = notes.requirements.as_slice();
    let requirements = resolve_inequalities(alloc, scope, AnnotationPlace::Head, requirements);
    let guarantees = resolve_inequalities(alloc, scope, guarantee, notes.guarantees.as_slice());
    let zones = resolve_head_zones(alloc, world, scope, notes);
    let measure = resolve_measure(alloc, scope, &notes.measure);
    let ((requirements, guarantees), (zones, measure)) = both_answers(
        both_answers(requirements, guarantees),
        both_answers(zones, measure),
    )?;
    Ok(Head {
        requirements,
        guarantees,
        zones,
        measure,
    })
}

fn parameters_of(
    alloc: Global,
    parameters: &[syntax::Parameter],
) -> Result<Seq<Parameter>, AllocError>
    ensures { IfOk result (λ found. found ≡ map parameter_meaning parameters.now) }
{
    let mut found = Seq::new(alloc);
    for parameter in parameters {
        found.push(parameter_of(parameter))?;
    }
    Ok(found)
}

fn resolved_budget(budget: &syntax::Budget) -> Budget
    ensures { result ≡ spec.resolved_budget budget.now }
{
    Budget {
        line: budget.line,
        self_calls: budget.self_calls,
        instructions: budget.instructions,
    }
}

/// The name and the parameters, which are as the text has them.
fn signature_of(
    alloc: Global,
    function: &syntax::Function,
) -> Result<(Name, Seq<Parameter>), Refused>
    ensures { Gives result (Ok (function.now.name, map parameter_meaning function.now.parameters)) }
{
    let name = function.name.copy()?;
    let parameters = parameters_of(alloc, function.parameters.as_slice())?;
    Ok((name, parameters))
}

fn resolve_function(
    alloc: Global,
    state: RandomState,
    world: &World,
    place: usize,
    function: &syntax::Function,
) -> Result<Function, Refused>
    ensures { Gives result (spec.function_of world.now.items.now world.now.functions.now world.now.named.now place function.now) }
{
    let layout = Layout::of(alloc, state, function)?;
    let result_type = function.result_type;
    let head = resolve_head(alloc, world, &layout, result_type, &function.notes);
    let context = FunctionContext {
        world: *world,
        scope: &layout.scope,
        result_type,
    };
    let blocks = function.blocks.as_slice();
    let blocks = resolve_blocks(alloc, &context, place, blocks);
    let signature = signature_of(alloc, function);
    let ((head, blocks), (name, parameters)) = both_answers(both_answers(head, blocks), signature)?;
    Ok(Function {
        line: function.line,
        name,
        result_type,
        parameters,
        registers: layout.registers,
        allocas: layout.allocas,
        requirements: head.requirements,
        guarantees: head.guarantees,
        zones: head.zones,
        measure: head.measure,
        budget: resolved_budget(&function.notes.budget),
        blocks,
    })
}

/// The functions of a module.
pub fn resolve_functions(
    alloc: Global,
    state: RandomState,
    world: &World,
) -> Result<Seq<Function>, Refused>
    ensures { Gives result (spec.functions_of world.now.items.now world.now.functions.now world.now.named.now) }
{
    let mut resolved = Ok(Seq::new(alloc));
    let functions = world.functions;
    for place in 0..functions.len() {
        let function = &functions[place];
        resolved = joined(
            resolved,
            resolve_function(alloc, state, world, place, function),
        );
    }
    resolved
}
