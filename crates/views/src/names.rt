//! The names that a module's text gives to registers, functions and objects, and values as JSON.

use crate::change::{Thing, Value};
use crate::module::register_names;
use crate::moment::TaskName;
use lists::{OutOfMemory, TextBuffer};
use program::Program;
use std::alloc::Global;
use std::fmt;
use syntax::Module;

/// A program beside the names of its text.
#[derive(Drop)]
pub struct Names<'a> {
    program: &'a Program,
    /// By function: the names of its registers, and of its result.
    registers: Vec<Vec<&'a str>>,
}

impl<'a> Names<'a> {
    /// The names of a module that means this program.
    pub fn of(
        alloc: Global,
        program: &'a Program,
        module: &'a Module,
    ) -> Result<Names<'a>, OutOfMemory> {
        let registers = register_names(alloc, module)?;
        Ok(Names { program, registers })
    }

    pub fn program(&self) -> &'a Program {
        self.program
    }

    /// The name of a function's register, without its sigil. The result of the function stands after the last one.
    pub fn register(&self, function: usize, register: usize) -> &str {
        match self.registers.get(function) {
            Some(names) => names.get(register).copied().unwrap_or(".ret"),
            None => "?",
        }
    }

    /// The name of a function, without its sigil.
    pub fn function(&self, function: usize) -> &str {
        match self.program.functions.as_slice().get(function) {
            Some(function) => function.name.as_str(),
            None => "?",
        }
    }

    /// The name of a global, without its sigil.
    pub fn global(&self, global: usize) -> &str {
        match self.program.globals.as_slice().get(global) {
            Some(global) => global.name.as_str(),
            None => "?",
        }
    }

    /// The name of a function's alloca, without its sigil.
    pub fn alloca(&self, function: usize, number: usize) -> &str {
        if let Some(found) = self.program.functions.as_slice().get(function)
            && let Some(alloca) = found.allocas.as_slice().get(number)
        {
            return self.register(function, alloca.register.0);
        }
        "?"
    }
}

/// An object: `@a`, or `root.0%b` of the frame `root.0`.
#[derive(Clone, Copy)]
pub struct ThingName<'a> {
    pub names: &'a Names<'a>,
    pub thing: &'a Thing,
}

impl fmt::Display for ThingName<'_> {
    fn fmt<W: fmt::Write>(&self, f: &mut fmt::Formatter<W>) -> fmt::Result {
        match self.thing {
            Thing::Global(number) => {
                let name = self.names.global(*number);
                write!(f, "@{name}")
            }
            Thing::Alloca {
                owner,
                function,
                number,
            } => {
                let owner = TaskName(owner);
                let name = self.names.alloca(*function, *number);
                write!(f, "{owner}%{name}")
            }
        }
    }
}

/// A number as JSON: past 2^53, where readers of JSON may round it, as a text.
pub(crate) fn push_number(out: &mut TextBuffer, number: i64) {
    let quote = if number.unsigned_abs() < 1 << 53 {
        ""
    } else {
        "\""
    };
    write!(out, "{quote}{number}{quote}");
}

/// What a register holds, as JSON: a number, `true` or `false`, or the text of a cell's name, as `"@a:1"`.
pub(crate) fn push_value<'a>(out: &mut TextBuffer, names: &'a Names<'a>, value: &'a Value) {
    match value {
        Value::Number(number) => push_number(out, *number),
        Value::Truth(truth) => write!(out, "{truth}"),
        Value::Pointer(cell) => {
            let thing = ThingName {
                names,
                thing: &cell.thing,
            };
            let index = cell.index;
            write!(out, "\"{thing}:{index}\"");
        }
    }
}
