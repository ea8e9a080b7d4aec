//! The names of `main`'s arguments, which a program does not keep.

use crate::seed::Seed;
use ir_reader::read;
use lists::OutOfMemory;
use std::alloc::Global;
use std::hash::RandomState;
use syntax::{Function, Module, Name, Parameter};

fn name_of(parameter: &Parameter) -> &Name {
    match parameter {
        Parameter::Number { name } | Parameter::Pointer { name, .. } => name,
    }
}

/// The names of a function's parameters, in their order.
fn parameter_names(alloc: Global, function: &Function) -> Result<Vec<Name>, OutOfMemory> {
    let mut names = Vec::new(alloc);
    for parameter in function.parameters.as_slice() {
        names.push(name_of(parameter).copy()?)?;
    }
    Ok(names)
}

/// The names of `main`'s arguments; none where memory is refused.
fn main_names(alloc: Global, module: &Module) -> Option<Vec<Name>> {
    for function in module.functions.as_slice() {
        if function.name.as_str() == "main" {
            return parameter_names(alloc, function).ok();
        }
    }
    None
}

/// The same in a text that is a module's.
pub fn argument_names(alloc: Global, seed: &Seed, text: &[u8]) -> Option<Vec<Name>> {
    let state = RandomState::new(seed).ok()?;
    let module = read(alloc, state, text).ok()?;
    main_names(alloc, &module)
}
