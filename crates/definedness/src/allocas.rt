//! What each block does with allocas: it reads them, or stores all their cells (uses and defs of memory).

ghost use Rattle.std.specs.Prelude.{◌≡◌, ◌++◌, OnOk, IfOk};
ghost use Rattle.std.specs.List.{flat_map};
ghost use Rattle.definedness.specs.AllocaActs.{element_in, element_object, object_read, element_read, address_read, argument_read, object_set};
ghost use Rattle.definedness.specs.AllocaActs.{single_set, first_set, address_set, instruction_cells, step_cells, alloca_acts};

use crate::act::Act;
use program::{Address, Alloca, Argument, Block, Instruction, ObjectName, RegisterId, Step};
use std::alloc::{AllocError, Global};

fn element(instruction: &Instruction, register: RegisterId) -> Option<ObjectName>
    ensures { result ≡ element_in instruction.now register }
{
    match instruction {
        Instruction::ElementPointer {
            register: its,
            object,
            ..
        } => {
            if its.0 == register.0 {
                Some(*object)
            } else {
                None
            }
        }
        Instruction::Binary { .. } => None,
        Instruction::Compare { .. } => None,
        Instruction::Convert { .. } => None,
        Instruction::Alloca { .. } => None,
        Instruction::Load { .. } => None,
        Instruction::Store { .. } => None,
        Instruction::StoreZeros { .. } => None,
        Instruction::AtomicAdd { .. } => None,
        Instruction::Call { .. } => None,
        Instruction::StartRegion { .. } => None,
    }
}

/// The object of the `getelementptr` of a block with this register.
fn find_element(steps: &[Step], register: RegisterId) -> Option<ObjectName>
    ensures { result ≡ element_object steps.now register }
{
    for step in steps {
        if let Some(object) = element(&step.instruction, register) {
            return Some(object);
        }
    }
    None
}

fn push_read(line: u32, object: ObjectName, acts: &mut Vec<Act>) -> Result<(), AllocError>
    ensures { OnOk result (acts.new.items ≡ acts.old.items ++ object_read line object) }
{
    if let ObjectName::Alloca(alloca) = object {
        acts.push(Act::Needs {
            number: alloca.0,
            line,
        })?;
    }
    Ok(())
}

fn push_address_read(
    steps: &[Step],
    line: u32,
    address: Address,
    acts: &mut Vec<Act>,
) -> Result<(), AllocError>
    ensures { OnOk result (acts.new.items ≡ acts.old.items ++ address_read steps.now line address) }
{
    match address {
        Address::First(object) => push_read(line, object, acts),
        Address::Element(register) => match find_element(steps, register) {
            Some(object) => push_read(line, object, acts),
            None => Ok(()),
        },
    }
}

fn push_argument_reads(
    line: u32,
    arguments: &[Argument],
    acts: &mut Vec<Act>,
) -> Result<(), AllocError>
    ensures { OnOk result (acts.new.items ≡ acts.old.items ++ flat_map (argument_read line) arguments.now) }
{
    for argument in arguments {
        if let Argument::Object(object) = argument {
            push_read(line, *object, acts)?;
        }
    }
    Ok(())
}

fn push_set(object: ObjectName, acts: &mut Vec<Act>) -> Result<(), AllocError>
    ensures { OnOk result (acts.new.items ≡ acts.old.items ++ object_set object) }
{
    if let ObjectName::Alloca(alloca) = object {
        acts.push(Act::Gives { number: alloca.0 })?;
    }
    Ok(())
}

fn push_single(number: usize, alloca: &Alloca, acts: &mut Vec<Act>) -> Result<(), AllocError>
    ensures { OnOk result (acts.new.items ≡ acts.old.items ++ single_set number (Some alloca.now)) }
{
    if alloca.cells == 1 {
        acts.push(Act::Gives { number })?;
    }
    Ok(())
}

fn push_first_set(
    allocas: &[Alloca],
    object: ObjectName,
    acts: &mut Vec<Act>,
) -> Result<(), AllocError>
    ensures { OnOk result (acts.new.items ≡ acts.old.items ++ first_set allocas.now object) }
{
    match object {
        ObjectName::Alloca(alloca) => match allocas.get(alloca.0) {
            Some(found) => push_single(alloca.0, found, acts),
            None => Ok(()),
        },
        ObjectName::Global(_) => Ok(()),
        ObjectName::Parameter(_) => Ok(()),
    }
}

fn push_address_set(
    allocas: &[Alloca],
    address: Address,
    acts: &mut Vec<Act>,
) -> Result<(), AllocError>
    ensures { OnOk result (acts.new.items ≡ acts.old.items ++ address_set allocas.now address) }
{
    match address {
        Address::First(object) => push_first_set(allocas, object, acts),
        Address::Element(_) => Ok(()),
    }
}

fn push_cells(
    allocas: &[Alloca],
    steps: &[Step],
    line: u32,
    instruction: &Instruction,
    acts: &mut Vec<Act>,
) -> Result<(), AllocError>
    ensures { OnOk result (acts.new.items ≡ acts.old.items ++ instruction_cells allocas.now steps.now line instruction.now) }
{
    match instruction {
        Instruction::Load { address, .. } => push_address_read(steps, line, *address, acts),
        Instruction::AtomicAdd { address, .. } => push_address_read(steps, line, *address, acts),
        Instruction::Store { address, .. } => push_address_set(allocas, *address, acts),
        Instruction::StoreZeros { object, .. } => push_set(*object, acts),
        Instruction::Call { arguments, .. } => {
            push_argument_reads(line, arguments.as_slice(), acts)
        }
        Instruction::Binary { .. } => Ok(()),
        Instruction::Compare { .. } => Ok(()),
        Instruction::Convert { .. } => Ok(()),
        Instruction::Alloca { .. } => Ok(()),
        Instruction::ElementPointer { .. } => Ok(()),
        Instruction::StartRegion { .. } => Ok(()),
    }
}

/// What a block does with allocas.
pub fn block_allocas(
    alloc: Global,
    allocas: &[Alloca],
    block: &Block,
) -> Result<Vec<Act>, AllocError>
    ensures { IfOk result (λ acts. acts.items ≡ alloca_acts allocas.now block.now) }
{
    let steps = block.steps.as_slice();
    let mut acts: Vec<Act> = Vec::new(alloc);
    for step in steps {
        push_cells(allocas, steps, step.line, &step.instruction, &mut acts)?;
    }
    Ok(acts)
}
