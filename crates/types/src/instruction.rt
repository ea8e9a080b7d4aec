//! Instructions and phis with their names resolved and types judged (type checker).

ghost use Rattle.std.specs.Prelude.{◌≡◌};
ghost use Rattle.types.specs.names.Told.{Gives};
ghost use Rattle.program.specs.Widths.{source_width};
ghost use Rattle.types.specs.Instruction as spec;

use crate::call::{CallText, FunctionContext, World, resolve_call};
use crate::names::{
    AnnotationPlace, Holding, Refused, Scope, TypeFault, both, both_answers, joined,
    pointer_misuse, resolve_address, resolve_inequalities, resolve_label, resolve_object,
    resolve_operand, resolve_register, told, type_mismatch, unless,
};
use lists::{Name, Seq};
use program::{
    AllocaId, BinaryOperator, Conversion, Instruction, ObjectName, Phi, PhiEntry, Predicate,
    RegisterId, Step, Width, source_width,
};
use std::alloc::Global;
use syntax::Instruction as Text;

/// Where an instruction stands: its function and its block, by their places in the text, and its line.
#[derive(Clone, Copy)]
pub struct Spot {
    pub function: usize,
    pub block: usize,
    pub line: u32,
}

/// The two operands of an instruction, which are of one width.
#[derive(Clone, Copy)]
struct OperandPair<'a> {
    width: Width,
    left: &'a syntax::Operand,
    right: &'a syntax::Operand,
}

/// The register that an instruction defines.
fn defined_register(scope: &Scope, line: u32, name: &Name) -> Result<RegisterId, TypeFault>
    ensures { result ≡ spec.defined_of scope.now line name.now }
{
    let register = resolve_register(scope, line, name)?;
    Ok(register.id)
}

fn resolve_entry(
    scope: &Scope,
    line: u32,
    width: Width,
    entry: &syntax::PhiEntry,
) -> Result<PhiEntry, TypeFault>
    ensures { result ≡ spec.entry_of scope.now line width entry.now }
{
    let value = resolve_operand(scope, line, width, &entry.value);
    let predecessor = resolve_label(scope, line, &entry.predecessor);
    let (value, predecessor) = both(value, predecessor)?;
    Ok(PhiEntry { value, predecessor })
}

fn resolve_entries(
    alloc: Global,
    scope: &Scope,
    line: u32,
    width: Width,
    entries: &[syntax::PhiEntry],
) -> Result<Seq<PhiEntry>, Refused>
    ensures { Gives result (spec.entries_of scope.now line width entries.now) }
{
    let mut resolved = Ok(Seq::new(alloc));
    for entry in entries {
        resolved = joined(resolved, told(resolve_entry(scope, line, width, entry)));
    }
    resolved
}

fn resolve_phi(alloc: Global, scope: &Scope, phi: &syntax::Phi) -> Result<Phi, Refused>
    ensures { Gives result (spec.phi_of scope.now phi.now) }
{
    let line = phi.line;
    let width = phi.width;
    let register = told(defined_register(scope, line, &phi.register));
    let entries = resolve_entries(alloc, scope, line, width, phi.entries.as_slice());
    let (register, entries) = both_answers(register, entries)?;
    Ok(Phi {
        line,
        register,
        width,
        entries,
    })
}

/// The phis of a block.
pub fn resolve_phis(alloc: Global, scope: &Scope, phis: &[syntax::Phi]) -> Result<Seq<Phi>, Refused>
    ensures { Gives result (spec.phis_of scope.now phis.now) }
{
    let mut resolved = Ok(Seq::new(alloc));
    for phi in phis {
        resolved = joined(resolved, resolve_phi(alloc, scope, phi));
    }
    resolved
}

fn resolve_binary(
    scope: &Scope,
    line: u32,
    register: &Name,
    operator: BinaryOperator,
    operands: &OperandPair,
) -> Result<Instruction, TypeFault>
    ensures { result ≡ spec.binary_of scope.now line register.now operator operands.now.width operands.now.left.now operands.now.right.now }
{
    let width = operands.width;
    let register = defined_register(scope, line, register);
    let left = resolve_operand(scope, line, width, operands.left);
    let right = resolve_operand(scope, line, width, operands.right);
    let (register, (left, right)) = both(register, both(left, right))?;
    Ok(Instruction::Binary {
        register,
        operator,
        width,
        left,
        right,
    })
}

fn resolve_compare(
    scope: &Scope,
    line: u32,
    register: &Name,
    predicate: Predicate,
    operands: &OperandPair,
) -> Result<Instruction, TypeFault>
    ensures { result ≡ spec.compare_of scope.now line register.now predicate operands.now.width operands.now.left.now operands.now.right.now }
{
    let width = operands.width;
    let register = defined_register(scope, line, register);
    let left = resolve_operand(scope, line, width, operands.left);
    let right = resolve_operand(scope, line, width, operands.right);
    let (register, (left, right)) = both(register, both(left, right))?;
    Ok(Instruction::Compare {
        register,
        predicate,
        width,
        left,
        right,
    })
}

fn resolve_convert(
    scope: &Scope,
    line: u32,
    register: &Name,
    conversion: Conversion,
    value: &syntax::Operand,
) -> Result<Instruction, TypeFault>
    ensures { result ≡ spec.convert_of scope.now line register.now conversion value.now }
{
    let register = defined_register(scope, line, register);
    let value = resolve_operand(scope, line, source_width(conversion), value);
    let (register, value) = both(register, value)?;
    Ok(Instruction::Convert {
        register,
        conversion,
        value,
    })
}

fn held_alloca(line: u32, holding: Holding) -> Result<AllocaId, TypeFault>
    ensures { result ≡ spec.as_alloca line holding }
{
    match holding {
        Holding::Object { name, .. } => match name {
            ObjectName::Alloca(id) => Ok(id),
            ObjectName::Global(_) | ObjectName::Parameter(_) => Err(type_mismatch(line)),
        },
        Holding::Number(_) | Holding::Truth | Holding::Element | Holding::Region => {
            Err(type_mismatch(line))
        }
    }
}

/// The number of the `alloca` that defines a register.
fn resolve_alloca_id(scope: &Scope, line: u32, register: &Name) -> Result<AllocaId, TypeFault>
    ensures { result ≡ spec.alloca_id_of scope.now line register.now }
{
    let register = resolve_register(scope, line, register)?;
    held_alloca(line, register.holding)
}

/// An `alloca` stands in the entry block.
fn resolve_alloca(scope: &Scope, spot: Spot, register: &Name) -> Result<Instruction, TypeFault>
    ensures { result ≡ spec.alloca_of scope.now spot.block spot.line register.now }
{
    let line = spot.line;
    let id = resolve_alloca_id(scope, line, register);
    let register = defined_register(scope, line, register);
    let (register, alloca) = both(register, id)?;
    unless(spot.block == 0, pointer_misuse(line))?;
    Ok(Instruction::Alloca { register, alloca })
}

fn resolve_element_pointer(
    world: &World,
    scope: &Scope,
    line: u32,
    register: &Name,
    base: &syntax::Address,
    index: &syntax::Operand,
) -> Result<Instruction, TypeFault>
    ensures { result ≡ spec.element_pointer_of world.now.items.now scope.now line register.now base.now index.now }
{
    let register = defined_register(scope, line, register);
    let object = resolve_object(world.items, scope, line, base);
    let index = resolve_operand(scope, line, Width::Bits64, index);
    let (register, (object, index)) = both(register, both(object, index))?;
    Ok(Instruction::ElementPointer {
        register,
        object: object.name,
        index,
    })
}

fn resolve_load(
    world: &World,
    scope: &Scope,
    spot: Spot,
    register: &Name,
    address: &syntax::Address,
) -> Result<Instruction, TypeFault>
    ensures { result ≡ spec.load_of world.now.items.now scope.now spot.block spot.line register.now address.now }
{
    let line = spot.line;
    let register = defined_register(scope, line, register);
    let address = resolve_address(world.items, scope, spot.block, line, address);
    let (register, address) = both(register, address)?;
    Ok(Instruction::Load { register, address })
}

fn resolve_store(
    world: &World,
    scope: &Scope,
    spot: Spot,
    value: &syntax::Operand,
    address: &syntax::Address,
) -> Result<Instruction, TypeFault>
    ensures { result ≡ spec.store_of world.now.items.now scope.now spot.block spot.line value.now address.now }
{
    let line = spot.line;
    let value = resolve_operand(scope, line, Width::Bits64, value);
    let address = resolve_address(world.items, scope, spot.block, line, address);
    let (value, address) = both(value, address)?;
    Ok(Instruction::Store { value, address })
}

fn resolve_add(
    world: &World,
    scope: &Scope,
    spot: Spot,
    address: &syntax::Address,
    value: &syntax::Operand,
) -> Result<Instruction, TypeFault>
    ensures { result ≡ spec.atomic_add_of world.now.items.now scope.now spot.block spot.line address.now value.now }
{
    let line = spot.line;
    let address = resolve_address(world.items, scope, spot.block, line, address);
    let value = resolve_operand(scope, line, Width::Bits64, value);
    let (address, value) = both(address, value)?;
    Ok(Instruction::AtomicAdd { address, value })
}

/// An array store clears just as many cells as its pointer's extent.
fn resolve_zeros(
    world: &World,
    scope: &Scope,
    line: u32,
    cells: u64,
    address: &syntax::Address,
) -> Result<Instruction, TypeFault>
    ensures { result ≡ spec.store_zeros_of world.now.items.now scope.now line cells address.now }
{
    let object = resolve_object(world.items, scope, line, address)?;
    unless(object.cells == cells, pointer_misuse(line))?;
    Ok(Instruction::StoreZeros {
        cells,
        object: object.name,
    })
}

/// The register of a call that has one.
fn call_register(
    scope: &Scope,
    line: u32,
    register: &Option<Name>,
) -> Result<Option<RegisterId>, TypeFault>
    ensures { result ≡ spec.call_register_of scope.now line register.now }
{
    match register {
        None => Ok(None),
        Some(name) => {
            let register = defined_register(scope, line, name)?;
            Ok(Some(register))
        }
    }
}

fn resolve_call_step(
    alloc: Global,
    context: &FunctionContext,
    spot: Spot,
    register: &Option<Name>,
    callee: &Name,
    arguments: &Seq<syntax::Argument>,
) -> Result<Instruction, Refused>
    ensures { Gives result
        (spec.call_step_of context.now.world.items.now context.now.world.functions.now context.now.world.named.now
        context.now.scope.now spot.function spot.line register.now callee.now arguments.now) }
{
    let line = spot.line;
    let text = CallText {
        line,
        has_result: register.is_some(),
        callee,
        arguments: arguments.as_slice(),
    };
    let register = told(call_register(context.scope, line, register));
    let call = resolve_call(alloc, context, spot.function, &text);
    let (register, call) = both_answers(register, call)?;
    Ok(Instruction::Call {
        register,
        callee: call.callee,
        arguments: call.arguments,
    })
}

fn resolve_region_start(scope: &Scope, line: u32, register: &Name) -> Result<Instruction, TypeFault>
    ensures { result ≡ spec.region_start_of scope.now line register.now }
{
    let register = defined_register(scope, line, register)?;
    Ok(Instruction::StartRegion { register })
}

fn resolve_instruction(
    alloc: Global,
    context: &FunctionContext,
    spot: Spot,
    instruction: &Text,
) -> Result<Instruction, Refused>
    ensures { Gives result
        (spec.instruction_of context.now.world.items.now context.now.world.functions.now context.now.world.named.now
        context.now.scope.now spot instruction.now) }
{
    let world = &context.world;
    let scope = context.scope;
    let line = spot.line;
    match instruction {
        Text::Binary {
            register,
            operator,
            width,
            left,
            right,
        } => {
            let operands = OperandPair {
                width: *width,
                left,
                right,
            };
            told(resolve_binary(scope, line, register, *operator, &operands))
        }
        Text::Compare {
            register,
            predicate,
            width,
            left,
            right,
        } => {
            let operands = OperandPair {
                width: *width,
                left,
                right,
            };
            told(resolve_compare(scope, line, register, *predicate, &operands))
        }
        Text::Convert {
            register,
            conversion,
            value,
        } => told(resolve_convert(scope, line, register, *conversion, value)),
        Text::Alloca { register, .. } => told(resolve_alloca(scope, spot, register)),
        Text::ElementPointer {
            register,
            base,
            index,
        } => told(resolve_element_pointer(world, scope, line, register, base, index)),
        Text::Load { register, address } => told(resolve_load(
            world, scope, spot, register, address,
        )),
        Text::Store { value, address } => told(resolve_store(world, scope, spot, value, address)),
        Text::StoreZeros { cells, address } => told(resolve_zeros(
            world, scope, line, *cells, address,
        )),
        Text::AtomicAdd { address, value } => told(resolve_add(world, scope, spot, address, value)),
        Text::Call {
            register,
            callee,
            arguments,
        } => resolve_call_step(alloc, context, spot, register, callee, arguments),
        Text::StartRegion { register } => told(resolve_region_start(scope, line, register)),
    }
}

fn resolve_step(
    alloc: Global,
    context: &FunctionContext,
    function: usize,
    block: usize,
    step: &syntax::Step,
) -> Result<Step, Refused>
    ensures { Gives result
        (spec.step_of context.now.world.items.now context.now.world.functions.now context.now.world.named.now
        context.now.scope.now function block step.now) }
{
    let line = step.line;
    let spot = Spot {
        function,
        block,
        line,
    };
    let shows = step.shows.as_slice();
    let shows = resolve_inequalities(alloc, context.scope, AnnotationPlace::Body, shows);
    let instruction = resolve_instruction(alloc, context, spot, &step.instruction);
    let (shows, instruction) = both_answers(shows, instruction)?;
    Ok(Step {
        line,
        shows,
        instruction,
    })
}

/// The instructions of a block that are neither phis nor its terminator.
pub fn resolve_steps(
    alloc: Global,
    context: &FunctionContext,
    function: usize,
    block: usize,
    steps: &[syntax::Step],
) -> Result<Seq<Step>, Refused>
    ensures { Gives result
        (spec.steps_of context.now.world.items.now context.now.world.functions.now context.now.world.named.now
        context.now.scope.now function block steps.now) }
{
    let mut resolved = Ok(Seq::new(alloc));
    for step in steps {
        resolved = joined(
            resolved,
            resolve_step(alloc, context, function, block, step),
        );
    }
    resolved
}
