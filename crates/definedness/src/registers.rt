//! What each block does with registers: uses and definitions, in instructions, phis and annotations.

ghost use Rattle.std.specs.Prelude.{◌≡◌, ◌++◌, length, OnOk, IfOk};
ghost use Rattle.std.specs.Option.{option_copied};
ghost use Rattle.std.specs.List.{flat_map};
ghost use Rattle.definedness.specs.RegisterActs.{register_needs, operand_needs, form_needs, inequality_needs, alloca_needs, object_needs, zone_needs};
ghost use Rattle.definedness.specs.RegisterActs.{pending_needs, left_needs, address_needs, argument_needs, instruction_needs, definition_of};
ghost use Rattle.definedness.specs.RegisterActs.{definition_gives, step_acts, result_needs, terminator_needs, ending_needs, entry_needs, phi_needs};
ghost use Rattle.definedness.specs.RegisterActs.{value_needs, phi_gives, note_needs, gives_below, start_gives, body_acts, register_acts};

use crate::act::Act;
use program::{
    Address, Alloca, Argument, Block, Ending, Form, Function, Inequality, Instruction, Left,
    ObjectName, Operand, Pending, Phi, PhiEntry, RegisterId, Step, Terminator, Zone,
};
use std::alloc::{AllocError, Global};

fn push_register(line: u32, register: RegisterId, acts: &mut Vec<Act>) -> Result<(), AllocError>
    ensures { OnOk result (acts.new.items ≡ acts.old.items ++ register_needs line register) }
{
    acts.push(Act::Needs {
        number: register.0,
        line,
    })?;
    Ok(())
}

fn push_operand(line: u32, operand: Operand, acts: &mut Vec<Act>) -> Result<(), AllocError>
    ensures { OnOk result (acts.new.items ≡ acts.old.items ++ operand_needs line operand) }
{
    match operand {
        Operand::Number(_) => Ok(()),
        Operand::Register(register) => push_register(line, register, acts),
    }
}

fn push_form(line: u32, form: &Form, acts: &mut Vec<Act>) -> Result<(), AllocError>
    ensures { OnOk result (acts.new.items ≡ acts.old.items ++ form_needs line form.now) }
{
    for term in form.terms.as_slice() {
        push_register(line, term.register, acts)?;
    }
    Ok(())
}

fn push_inequality(inequality: &Inequality, acts: &mut Vec<Act>) -> Result<(), AllocError>
    ensures { OnOk result (acts.new.items ≡ acts.old.items ++ inequality_needs inequality.now) }
{
    push_form(inequality.line, &inequality.low, acts)?;
    push_form(inequality.line, &inequality.high, acts)
}

fn push_inequalities(lines: &[Inequality], acts: &mut Vec<Act>) -> Result<(), AllocError>
    ensures { OnOk result (acts.new.items ≡ acts.old.items ++ flat_map inequality_needs lines.now) }
{
    for line in lines {
        push_inequality(line, acts)?;
    }
    Ok(())
}

fn push_object(
    allocas: &[Alloca],
    line: u32,
    object: ObjectName,
    acts: &mut Vec<Act>,
) -> Result<(), AllocError>
    ensures { OnOk result (acts.new.items ≡ acts.old.items ++ object_needs allocas.now line object) }
{
    match object {
        ObjectName::Global(_) => Ok(()),
        ObjectName::Alloca(alloca) => match allocas.get(alloca.0) {
            Some(found) => push_register(line, found.register, acts),
            None => Ok(()),
        },
        ObjectName::Parameter(register) => push_register(line, register, acts),
    }
}

fn push_zone(allocas: &[Alloca], zone: &Zone, acts: &mut Vec<Act>) -> Result<(), AllocError>
    ensures { OnOk result (acts.new.items ≡ acts.old.items ++ zone_needs allocas.now zone.now) }
{
    push_object(allocas, zone.line, zone.object, acts)?;
    push_form(zone.line, &zone.low, acts)?;
    push_form(zone.line, &zone.high, acts)
}

fn push_zones(allocas: &[Alloca], zones: &[Zone], acts: &mut Vec<Act>) -> Result<(), AllocError>
    ensures { OnOk result (acts.new.items ≡ acts.old.items ++ flat_map (zone_needs allocas.now) zones.now) }
{
    for zone in zones {
        push_zone(allocas, zone, acts)?;
    }
    Ok(())
}

fn push_pending(
    allocas: &[Alloca],
    lines: &[Pending],
    acts: &mut Vec<Act>,
) -> Result<(), AllocError>
    ensures { OnOk result (acts.new.items ≡ acts.old.items ++ flat_map (pending_needs allocas.now) lines.now) }
{
    for line in lines {
        push_register(line.zone.line, line.region, acts)?;
        push_zone(allocas, &line.zone, acts)?;
    }
    Ok(())
}

fn push_left(left: &Left, acts: &mut Vec<Act>) -> Result<(), AllocError>
    ensures { OnOk result (acts.new.items ≡ acts.old.items ++ left_needs left.now) }
{
    push_form(left.line, &left.self_calls, acts)?;
    push_form(left.line, &left.instructions, acts)
}

fn push_address(
    allocas: &[Alloca],
    line: u32,
    address: Address,
    acts: &mut Vec<Act>,
) -> Result<(), AllocError>
    ensures { OnOk result (acts.new.items ≡ acts.old.items ++ address_needs allocas.now line address) }
{
    match address {
        Address::First(name) => push_object(allocas, line, name, acts),
        Address::Element(register) => push_register(line, register, acts),
    }
}

fn push_argument(
    allocas: &[Alloca],
    line: u32,
    argument: Argument,
    acts: &mut Vec<Act>,
) -> Result<(), AllocError>
    ensures { OnOk result (acts.new.items ≡ acts.old.items ++ argument_needs allocas.now line argument) }
{
    match argument {
        Argument::Number(value) => push_operand(line, value, acts),
        Argument::Object(name) => push_object(allocas, line, name, acts),
    }
}

fn push_arguments(
    allocas: &[Alloca],
    line: u32,
    arguments: &[Argument],
    acts: &mut Vec<Act>,
) -> Result<(), AllocError>
    ensures { OnOk result (acts.new.items ≡ acts.old.items ++ flat_map (argument_needs allocas.now line) arguments.now) }
{
    for argument in arguments {
        push_argument(allocas, line, *argument, acts)?;
    }
    Ok(())
}

fn push_instruction(
    allocas: &[Alloca],
    line: u32,
    instruction: &Instruction,
    acts: &mut Vec<Act>,
) -> Result<(), AllocError>
    ensures { OnOk result (acts.new.items ≡ acts.old.items ++ instruction_needs allocas.now line instruction.now) }
{
    match instruction {
        Instruction::Binary { left, right, .. } => {
            push_operand(line, *left, acts)?;
            push_operand(line, *right, acts)
        }
        Instruction::Compare { left, right, .. } => {
            push_operand(line, *left, acts)?;
            push_operand(line, *right, acts)
        }
        Instruction::Convert { value, .. } => push_operand(line, *value, acts),
        Instruction::Alloca { .. } => Ok(()),
        Instruction::ElementPointer { object, index, .. } => {
            push_object(allocas, line, *object, acts)?;
            push_operand(line, *index, acts)
        }
        Instruction::Load { address, .. } => push_address(allocas, line, *address, acts),
        Instruction::Store { value, address } => {
            push_operand(line, *value, acts)?;
            push_address(allocas, line, *address, acts)
        }
        Instruction::StoreZeros { object, .. } => push_object(allocas, line, *object, acts),
        Instruction::AtomicAdd { address, value } => {
            push_address(allocas, line, *address, acts)?;
            push_operand(line, *value, acts)
        }
        Instruction::Call { arguments, .. } => {
            push_arguments(allocas, line, arguments.as_slice(), acts)
        }
        Instruction::StartRegion { .. } => Ok(()),
    }
}

/// The register that an instruction defines.
pub fn definition(instruction: &Instruction) -> Option<RegisterId>
    ensures { result ≡ definition_of instruction.now }
{
    match instruction {
        Instruction::Binary { register, .. } => Some(*register),
        Instruction::Compare { register, .. } => Some(*register),
        Instruction::Convert { register, .. } => Some(*register),
        Instruction::Alloca { register, .. } => Some(*register),
        Instruction::ElementPointer { register, .. } => Some(*register),
        Instruction::Load { register, .. } => Some(*register),
        Instruction::Store { .. } => None,
        Instruction::StoreZeros { .. } => None,
        Instruction::AtomicAdd { .. } => None,
        Instruction::Call { register, .. } => *register,
        Instruction::StartRegion { register } => Some(*register),
    }
}

fn push_definition(definition: Option<RegisterId>, acts: &mut Vec<Act>) -> Result<(), AllocError>
    ensures { OnOk result (acts.new.items ≡ acts.old.items ++ definition_gives definition) }
{
    if let Some(register) = definition {
        acts.push(Act::Gives { number: register.0 })?;
    }
    Ok(())
}

fn push_step(allocas: &[Alloca], step: &Step, acts: &mut Vec<Act>) -> Result<(), AllocError>
    ensures { OnOk result (acts.new.items ≡ acts.old.items ++ step_acts allocas.now step.now) }
{
    push_inequalities(step.shows.as_slice(), acts)?;
    push_instruction(allocas, step.line, &step.instruction, acts)?;
    push_definition(definition(&step.instruction), acts)
}

fn push_steps(allocas: &[Alloca], steps: &[Step], acts: &mut Vec<Act>) -> Result<(), AllocError>
    ensures { OnOk result (acts.new.items ≡ acts.old.items ++ flat_map (step_acts allocas.now) steps.now) }
{
    for step in steps {
        push_step(allocas, step, acts)?;
    }
    Ok(())
}

fn push_result(line: u32, value: Option<Operand>, acts: &mut Vec<Act>) -> Result<(), AllocError>
    ensures { OnOk result (acts.new.items ≡ acts.old.items ++ result_needs line value) }
{
    match value {
        Some(operand) => push_operand(line, operand, acts),
        None => Ok(()),
    }
}

fn push_terminator(
    line: u32,
    terminator: &Terminator,
    acts: &mut Vec<Act>,
) -> Result<(), AllocError>
    ensures { OnOk result (acts.new.items ≡ acts.old.items ++ terminator_needs line terminator.now) }
{
    match terminator {
        Terminator::Jump { .. } => Ok(()),
        Terminator::Branch { condition, .. } => push_register(line, *condition, acts),
        Terminator::Switch { value, .. } => push_operand(line, *value, acts),
        Terminator::Return { value } => push_result(line, *value, acts),
        Terminator::Detach { region, .. } => push_register(line, *region, acts),
        Terminator::Reattach { region, .. } => push_register(line, *region, acts),
        Terminator::Sync { region, .. } => push_register(line, *region, acts),
    }
}

fn push_ending(ending: &Option<Ending>, acts: &mut Vec<Act>) -> Result<(), AllocError>
    ensures { OnOk result (acts.new.items ≡ acts.old.items ++ ending_needs ending.now) }
{
    match ending {
        Some(ending) => {
            push_inequalities(ending.shows.as_slice(), acts)?;
            push_terminator(ending.line, &ending.terminator, acts)
        }
        None => Ok(()),
    }
}

fn push_phi(
    from: usize,
    line: u32,
    entries: &[PhiEntry],
    acts: &mut Vec<Act>,
) -> Result<(), AllocError>
    ensures { OnOk result (acts.new.items ≡ acts.old.items ++ flat_map (entry_needs from line) entries.now) }
{
    for entry in entries {
        if entry.predecessor.0 == from {
            push_operand(line, entry.value, acts)?;
        }
    }
    Ok(())
}

fn push_phis(from: usize, phis: &[Phi], acts: &mut Vec<Act>) -> Result<(), AllocError>
    ensures { OnOk result (acts.new.items ≡ acts.old.items ++ flat_map (phi_needs from) phis.now) }
{
    for phi in phis {
        push_phi(from, phi.line, phi.entries.as_slice(), acts)?;
    }
    Ok(())
}

fn push_values(from: usize, blocks: &[Block], acts: &mut Vec<Act>) -> Result<(), AllocError>
    ensures { OnOk result (acts.new.items ≡ acts.old.items ++ flat_map (value_needs from) blocks.now) }
{
    for block in blocks {
        push_phis(from, block.phis.as_slice(), acts)?;
    }
    Ok(())
}

fn push_phi_registers(phis: &[Phi], acts: &mut Vec<Act>) -> Result<(), AllocError>
    ensures { OnOk result (acts.new.items ≡ acts.old.items ++ flat_map phi_gives phis.now) }
{
    for phi in phis {
        acts.push(Act::Gives {
            number: phi.register.0,
        })?;
    }
    Ok(())
}

fn push_notes(allocas: &[Alloca], block: &Block, acts: &mut Vec<Act>) -> Result<(), AllocError>
    ensures { OnOk result (acts.new.items ≡ acts.old.items ++ note_needs allocas.now block.now) }
{
    push_inequalities(block.keeps.as_slice(), acts)?;
    push_pending(allocas, block.pending.as_slice(), acts)?;
    push_left(&block.left, acts)?;
    push_zones(allocas, block.foot.as_slice(), acts)
}

fn push_body(allocas: &[Alloca], block: &Block, acts: &mut Vec<Act>) -> Result<(), AllocError>
    ensures { OnOk result (acts.new.items ≡ acts.old.items ++ body_acts allocas.now block.now) }
{
    push_phi_registers(block.phis.as_slice(), acts)?;
    push_notes(allocas, block, acts)?;
    push_steps(allocas, block.steps.as_slice(), acts)?;
    push_ending(&block.ending, acts)
}

fn push_parameters(count: usize, acts: &mut Vec<Act>) -> Result<(), AllocError>
    ensures { OnOk result (acts.new.items ≡ acts.old.items ++ gives_below count) }
{
    for number in 0..count {
        acts.push(Act::Gives { number })?;
    }
    Ok(())
}

fn push_start(block: usize, parameters: usize, acts: &mut Vec<Act>) -> Result<(), AllocError>
    ensures { OnOk result (acts.new.items ≡ acts.old.items ++ start_gives block parameters) }
{
    if block == 0 {
        push_parameters(parameters, acts)?;
    }
    Ok(())
}

/// What the block of a number does with registers.
pub fn block_registers(
    alloc: Global,
    function: &Function,
    index: usize,
    block: &Block,
) -> Result<Vec<Act>, AllocError>
    ensures { IfOk result (λ acts. acts.items ≡ register_acts function.now index block.now) }
{
    let mut acts: Vec<Act> = Vec::new(alloc);
    push_start(index, function.parameters.len(), &mut acts)?;
    push_body(function.allocas.as_slice(), block, &mut acts)?;
    push_values(index, function.blocks.as_slice(), &mut acts)?;
    Ok(acts)
}
