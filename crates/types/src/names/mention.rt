//! What the text of a function names behind `@`.

ghost use Rattle.std.specs.Prelude.{◌≡◌, map, IfOk, OnOk};
ghost use Rattle.types.specs.names.Mention as spec;
ghost use Rattle.types.specs.names.Table.{look_up};

use crate::names::item::{Item, Items};
use lists::{Name, Seq};
use std::alloc::{AllocError, Global};
use syntax::{Address, Argument, Block, Function, FunctionNotes, Instruction, Pending, Step, Zone};

/// The globals that a text names and the functions that it calls, by their places, with repetitions.
#[derive(Drop)]
pub struct Mentions {
    pub globals: Seq<usize>,
    pub callees: Seq<usize>,
}

fn add_object(found: &mut Mentions, items: &Items, name: &Name) -> Result<(), AllocError>
    ensures { OnOk result (found.new ≡ spec.with_object found.old (look_up items.now name.now)) }
{
    match items.find(name.as_bytes()) {
        None => Ok(()),
        Some(Item::Function(_)) => Ok(()),
        Some(Item::Global { id, .. }) => {
            found.globals.push(id.0)?;
            Ok(())
        }
    }
}

fn add_callee(found: &mut Mentions, items: &Items, name: &Name) -> Result<(), AllocError>
    ensures { OnOk result (found.new ≡ spec.with_callee found.old (look_up items.now name.now)) }
{
    match items.find(name.as_bytes()) {
        None => Ok(()),
        Some(Item::Global { id, .. }) => {
            found.globals.push(id.0)?;
            Ok(())
        }
        Some(Item::Function(id)) => {
            found.callees.push(id.0)?;
            Ok(())
        }
    }
}

fn add_address(found: &mut Mentions, items: &Items, address: &Address) -> Result<(), AllocError>
    ensures { OnOk result (found.new ≡ spec.with_address items.now found.old address.now) }
{
    match address {
        Address::Global(name) => add_object(found, items, name),
        Address::Register(_) => Ok(()),
    }
}

fn add_argument(found: &mut Mentions, items: &Items, argument: &Argument) -> Result<(), AllocError>
    ensures { OnOk result (found.new ≡ spec.with_argument items.now found.old argument.now) }
{
    match argument {
        Argument::Number(_) => Ok(()),
        Argument::Pointer(address) => add_address(found, items, address),
    }
}

fn add_arguments(
    found: &mut Mentions,
    items: &Items,
    arguments: &[Argument],
) -> Result<(), AllocError>
    ensures { OnOk result (found.new ≡ spec.with_arguments items.now found.old arguments.now) }
{
    for argument in arguments {
        add_argument(found, items, argument)?;
    }
    Ok(())
}

fn add_call(
    found: &mut Mentions,
    items: &Items,
    callee: &Name,
    arguments: &[Argument],
) -> Result<(), AllocError>
    ensures { OnOk result (found.new ≡ spec.with_arguments items.now (spec.with_callee found.old (look_up items.now callee.now)) arguments.now) }
{
    add_callee(found, items, callee)?;
    add_arguments(found, items, arguments)
}

fn add_instruction(
    found: &mut Mentions,
    items: &Items,
    instruction: &Instruction,
) -> Result<(), AllocError>
    ensures { OnOk result (found.new ≡ spec.with_instruction items.now found.old instruction.now) }
{
    match instruction {
        Instruction::Binary { .. } => Ok(()),
        Instruction::Compare { .. } => Ok(()),
        Instruction::Convert { .. } => Ok(()),
        Instruction::Alloca { .. } => Ok(()),
        Instruction::ElementPointer { base, .. } => add_address(found, items, base),
        Instruction::Load { address, .. } => add_address(found, items, address),
        Instruction::Store { address, .. } => add_address(found, items, address),
        Instruction::StoreZeros { address, .. } => add_address(found, items, address),
        Instruction::AtomicAdd { address, .. } => add_address(found, items, address),
        Instruction::Call {
            callee,
            arguments,
            ..
        } => add_call(found, items, callee, arguments.as_slice()),
        Instruction::StartRegion { .. } => Ok(()),
    }
}

fn add_steps(found: &mut Mentions, items: &Items, steps: &[Step]) -> Result<(), AllocError>
    ensures { OnOk result (found.new ≡ spec.with_steps items.now found.old steps.now) }
{
    for step in steps {
        add_instruction(found, items, &step.instruction)?;
    }
    Ok(())
}

fn add_zones(found: &mut Mentions, items: &Items, zones: &[Zone]) -> Result<(), AllocError>
    ensures { OnOk result (found.new ≡ spec.with_zones items.now found.old zones.now) }
{
    for zone in zones {
        add_address(found, items, &zone.object)?;
    }
    Ok(())
}

fn add_pending(found: &mut Mentions, items: &Items, lines: &[Pending]) -> Result<(), AllocError>
    ensures { OnOk result (found.new ≡ spec.with_pending items.now found.old lines.now) }
{
    for line in lines {
        add_address(found, items, &line.zone.object)?;
    }
    Ok(())
}

fn add_block(found: &mut Mentions, items: &Items, block: &Block) -> Result<(), AllocError>
    ensures { OnOk result (found.new ≡ spec.with_block items.now found.old block.now) }
{
    add_pending(found, items, block.notes.pending.as_slice())?;
    add_zones(found, items, block.notes.foot.as_slice())?;
    add_steps(found, items, block.steps.as_slice())
}

fn add_blocks(found: &mut Mentions, items: &Items, blocks: &[Block]) -> Result<(), AllocError>
    ensures { OnOk result (found.new ≡ spec.with_blocks items.now found.old blocks.now) }
{
    for block in blocks {
        add_block(found, items, block)?;
    }
    Ok(())
}

fn add_notes(found: &mut Mentions, items: &Items, notes: &FunctionNotes) -> Result<(), AllocError>
    ensures { OnOk result (found.new ≡ spec.with_notes items.now found.old notes.now) }
{
    add_zones(found, items, notes.reads.as_slice())?;
    add_zones(found, items, notes.writes.as_slice())?;
    add_zones(found, items, notes.adds.as_slice())
}

/// What a function's annotations and instructions name.
fn mentions_of(alloc: Global, items: &Items, function: &Function) -> Result<Mentions, AllocError>
    ensures { IfOk result (λ found. found ≡ spec.mentions_of items.now function.now) }
{
    let mut found = Mentions {
        globals: Seq::new(alloc),
        callees: Seq::new(alloc),
    };
    add_notes(&mut found, items, &function.notes)?;
    add_blocks(&mut found, items, function.blocks.as_slice())?;
    Ok(found)
}

/// What each function's annotations and instructions name.
pub fn all_mentions(
    alloc: Global,
    items: &Items,
    functions: &[Function],
) -> Result<Seq<Mentions>, AllocError>
    ensures { IfOk result (λ found. found ≡ map (spec.mentions_of items.now) functions.now) }
{
    let mut found = Seq::new(alloc);
    for function in functions {
        found.push(mentions_of(alloc, items, function)?)?;
    }
    Ok(found)
}
