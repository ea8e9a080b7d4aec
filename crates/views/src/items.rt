//! What stands in the program at a frame's place, and which registers and cells it sets.

use crate::moment::Act;
use frame::{Role, block_at};
use frame_engine::{Frame, Places};
use lists::{ListBuffer, OutOfMemory};
use program::{Address, Block, BlockId, Instruction, ObjectName, Program, RegisterId, Terminator};
use std::alloc::Global;

/// Cells that an instruction is about to write, from an address on.
#[derive(Clone, Copy)]
pub struct Target {
    pub address: i64,
    /// How many cells are set to 0; none where one cell is written.
    pub zeros: Option<u64>,
}

/// Which registers of a frame are told.
#[derive(Clone, Copy)]
pub enum Which {
    None,
    One(RegisterId),
    /// The phis of the block in which the frame stands.
    Phis,
    /// The parameters of its function.
    Parameters,
    /// The one that took the result of the call behind which the frame stands, if one did.
    Result,
}

/// What a step is about to do.
#[derive(Clone, Copy)]
pub struct Plan {
    pub act: Act,
    /// What it sets in its own frame: what an instruction defines at once, as a call's result comes later; where the block ends the phis of the
    /// next one.
    pub sets: Which,
    pub target: Option<Target>,
    /// Of a child's frame, where its parent goes on if nobody took that.
    pub continuation: Option<BlockId>,
}

/// The step of a frame that nothing is known of.
const UNKNOWN: Plan = Plan {
    act: Act::Plain,
    sets: Which::None,
    target: None,
    continuation: None,
};

/// The register that an instruction defines at once.
pub fn defined_by(instruction: &Instruction) -> Option<RegisterId> {
    match instruction {
        Instruction::Binary { register, .. }
        | Instruction::Compare { register, .. }
        | Instruction::Convert { register, .. }
        | Instruction::Alloca { register, .. }
        | Instruction::ElementPointer { register, .. }
        | Instruction::Load { register, .. }
        | Instruction::StartRegion { register } => Some(*register),
        Instruction::Store { .. }
        | Instruction::StoreZeros { .. }
        | Instruction::AtomicAdd { .. }
        | Instruction::Call { .. } => None,
    }
}

/// What a register of a frame holds.
fn word_of(frame: &Frame, register: RegisterId) -> Option<i64> {
    frame.registers.as_slice().get(register.0).copied()
}

/// The address of the first cell of an object that a frame names.
fn first_of(places: &Places, frame: &Frame, object: ObjectName) -> Option<i64> {
    match object {
        ObjectName::Global(global) => places.globals.as_slice().get(global.0).copied(),
        ObjectName::Alloca(alloca) => {
            let starts = places.allocas.as_slice().get(frame.function.0)?;
            let start = starts.as_slice().get(alloca.0).copied()?;
            Some(frame.home.wrapping_add(start))
        }
        ObjectName::Parameter(register) => word_of(frame, register),
    }
}

fn address_of(places: &Places, frame: &Frame, address: Address) -> Option<i64> {
    match address {
        Address::First(object) => first_of(places, frame, object),
        Address::Element(register) => word_of(frame, register),
    }
}

/// The cells that an instruction is about to write.
fn target_of(places: &Places, frame: &Frame, instruction: &Instruction) -> Option<Target> {
    match instruction {
        Instruction::Store { address, .. } | Instruction::AtomicAdd { address, .. } => {
            Some(Target {
                address: address_of(places, frame, *address)?,
                zeros: None,
            })
        }
        Instruction::StoreZeros { cells, object } => Some(Target {
            address: first_of(places, frame, *object)?,
            zeros: Some(*cells),
        }),
        _ => None,
    }
}

fn act_of(terminator: &Terminator) -> Act {
    match terminator {
        Terminator::Detach { .. } => Act::Detach,
        Terminator::Reattach { region, .. } => Act::Reattach(region.0),
        Terminator::Sync { region, .. } => Act::Sync(region.0),
        _ => Act::Plain,
    }
}

/// Whether a frame's next step goes on with the frame, whatever others do: it neither makes a frame nor ends one.
pub fn is_plain_at(program: &Program, frame: &Frame) -> bool {
    let Some(block) = block_at(program, frame.function, frame.place.block) else {
        return false;
    };
    match (block.steps.as_slice().get(frame.place.index), &block.ending) {
        (Some(step), _) => !matches!(&step.instruction, Instruction::Call { .. }),
        (None, Some(ending)) => matches!(
            &ending.terminator,
            Terminator::Jump { .. } | Terminator::Branch { .. } | Terminator::Switch { .. }
        ),
        (None, None) => false,
    }
}

/// What the next step of a frame does to tasks.
pub fn act_at(program: &Program, frame: &Frame) -> Act {
    match block_at(program, frame.function, frame.place.block) {
        Some(
            Block {
                steps,
                ending: Some(ending),
                ..
            },
        ) if frame.place.index == steps.len() => act_of(&ending.terminator),
        _ => Act::Plain,
    }
}

/// What the next step of a frame is about to do.
pub fn plan_of(program: &Program, places: &Places, frame: &Frame) -> Plan {
    let Some(block) = block_at(program, frame.function, frame.place.block) else {
        return UNKNOWN;
    };
    match (block.steps.as_slice().get(frame.place.index), &block.ending) {
        (Some(step), _) => Plan {
            sets: match defined_by(&step.instruction) {
                Some(register) => Which::One(register),
                None => Which::None,
            },
            target: target_of(places, frame, &step.instruction),
            ..UNKNOWN
        },
        (None, Some(ending)) => Plan {
            act: act_of(&ending.terminator),
            sets: Which::Phis,
            continuation: match frame.role {
                Role::Child { continuation, .. } => Some(continuation),
                Role::Body => None,
            },
            ..UNKNOWN
        },
        (None, None) => UNKNOWN,
    }
}

/// Adds the registers of a function's parameters.
pub fn push_parameters(registers: &mut ListBuffer<RegisterId>, program: &Program, frame: &Frame) {
    if let Some(function) = program.functions.as_slice().get(frame.function.0) {
        for number in 0..function.parameters.len() {
            registers.push(RegisterId(number));
        }
    }
}

/// The register that took the result of the call behind which a frame stands, if one did.
fn result_at(program: &Program, frame: &Frame) -> Option<RegisterId> {
    let block = block_at(program, frame.function, frame.place.block)?;
    let before = frame.place.index.checked_sub(1)?;
    match &block.steps.as_slice().get(before)?.instruction {
        Instruction::Call { register, .. } => *register,
        _ => None,
    }
}

/// Adds the phis of the block in which a frame stands.
fn push_phis(registers: &mut ListBuffer<RegisterId>, program: &Program, frame: &Frame) {
    if let Some(block) = block_at(program, frame.function, frame.place.block) {
        for phi in block.phis.as_slice() {
            registers.push(phi.register);
        }
    }
}

/// These registers of a frame.
pub fn registers_at(
    alloc: Global,
    program: &Program,
    frame: &Frame,
    which: Which,
) -> Result<Vec<RegisterId>, OutOfMemory> {
    let mut registers = ListBuffer::new(alloc);
    match which {
        Which::None => {}
        Which::One(register) => registers.push(register),
        Which::Phis => push_phis(&mut registers, program, frame),
        Which::Parameters => push_parameters(&mut registers, program, frame),
        Which::Result => {
            if let Some(register) = result_at(program, frame) {
                registers.push(register);
            }
        }
    }
    Ok(registers.finish()?)
}
