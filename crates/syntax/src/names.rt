//! Names that a function gives to its parts.

use crate::module::{Block, Function, Parameter};
use lists::{ListBuffer, Name};
use std::alloc::{AllocError, Global};

/// Adds the names of the registers that a block defines, in the order of the text.
fn push_block_names<'a>(names: &mut ListBuffer<&'a Name>, block: &'a Block) {
    for phi in block.phis.as_slice() {
        names.push(&phi.register);
    }
    for step in block.steps.as_slice() {
        if let Some(name) = step.instruction.register() {
            names.push(name);
        }
    }
}

/// The names of the registers by their numbers: parameters first, then in the order of the text.
///
/// # Errors
///
/// Memory was refused.
pub fn register_names<'a>(
    alloc: Global,
    function: &'a Function,
) -> Result<Vec<&'a Name>, AllocError> {
    let mut names: ListBuffer<&'a Name> = ListBuffer::new(alloc);
    for parameter in function.parameters.as_slice() {
        match parameter {
            Parameter::Number { name } | Parameter::Pointer { name, .. } => names.push(name),
        }
    }
    for block in function.blocks.as_slice() {
        push_block_names(&mut names, block);
    }
    names.finish()
}
