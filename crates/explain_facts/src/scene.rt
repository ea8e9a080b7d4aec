//! A function of a program beside the names of its text, to spell registers and forms.

use lists::{Name, OutOfMemory};
use program::{BlockId, Function, ObjectName, Program, RegisterId};
use std::alloc::Global;
use syntax::{Module, register_names};

/// A function of a program, and the names that its text gives to registers, in their order.
#[derive(Drop)]
pub struct Scene<'a> {
    pub program: &'a Program,
    pub index: usize,
    pub function: &'a Function,
    pub written: &'a syntax::Function,
    registers: Vec<&'a Name>,
}

impl<'a> Scene<'a> {
    /// The function of this number.
    pub fn of(
        alloc: Global,
        program: &'a Program,
        whole: &'a Module,
        index: usize,
    ) -> Result<Option<Scene<'a>>, OutOfMemory> {
        let function = program.functions.as_slice().get(index);
        let written = whole.functions.as_slice().get(index);
        let (Some(function), Some(written)) = (function, written) else {
            return Ok(None);
        };
        Ok(Some(Scene {
            program,
            index,
            function,
            written,
            registers: register_names(alloc, written)?,
        }))
    }

    /// The name of a register without its sigil. The result of the function stands after the last one.
    pub fn register(&self, register: RegisterId) -> &str {
        match self.registers.get(register.0) {
            Some(name) => name.as_str(),
            None => ".ret",
        }
    }

    /// The label of a block.
    pub fn label(&self, block: BlockId) -> &str {
        match self.written.blocks.as_slice().get(block.0) {
            Some(block) => block.label.as_str(),
            None => "?",
        }
    }

    /// The line of a block's label.
    pub fn label_line(&self, block: BlockId) -> u32 {
        match self.written.blocks.as_slice().get(block.0) {
            Some(block) => block.line,
            None => 0,
        }
    }

    /// The cells of an object, as the function's text declares it.
    pub fn cells(&self, object: ObjectName) -> u64 {
        match object {
            ObjectName::Global(global) => match self.program.globals.as_slice().get(global.0) {
                Some(global) => global.cells,
                None => 0,
            },
            ObjectName::Alloca(alloca) => match self.function.allocas.as_slice().get(alloca.0) {
                Some(alloca) => alloca.cells,
                None => 0,
            },
            ObjectName::Parameter(register) => {
                match self.function.parameters.as_slice().get(register.0) {
                    Some(program::Parameter::Pointer { cells }) => *cells,
                    Some(program::Parameter::Number) | None => 0,
                }
            }
        }
    }

    /// The sigil and the name of an object.
    pub fn object(&self, object: ObjectName) -> (&str, &str) {
        match object {
            ObjectName::Global(global) => match self.program.globals.as_slice().get(global.0) {
                Some(global) => ("@", global.name.as_str()),
                None => ("@", "?"),
            },
            ObjectName::Alloca(alloca) => match self.function.allocas.as_slice().get(alloca.0) {
                Some(alloca) => ("%", self.register(alloca.register)),
                None => ("%", "?"),
            },
            ObjectName::Parameter(register) => ("%", self.register(register)),
        }
    }
}
